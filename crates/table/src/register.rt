// The register mmpt: PPN, WPRI, SDID, MODE.
ghost use Rattle.std.specs.Prelude.{◌≡◌, ◌<◌, ◌^◌};
ghost use Rattle.table.specs.Board.{board};
ghost use Rattle.model.specs.Register.{ppn_of, wpri_of, sdid_of, mode_of, register_of, register_ok, is_bare};

use crate::board::{MODE_UNIT, SDID_UNIT, WPRI_UNIT, WPRI_VALUES, Word, narrow, wide};
use types::{PageNumber, Sdid};

pub fn ppn(register: Word) -> PageNumber
    ensures { (result.0 ≡ ppn_of board register) × (result.0 < 2 ^ board.info_bits) }
{
    PageNumber(wide(register) % WPRI_UNIT)
}

pub fn wpri(register: Word) -> u64
    ensures { (result ≡ wpri_of board register) × (result < 2 ^ board.wpri_bits) }
{
    wide(register) / WPRI_UNIT % WPRI_VALUES
}

pub fn sdid(register: Word) -> Sdid
    ensures { (result.0 ≡ sdid_of board register) × (result.0 < 64) }
{
    Sdid(wide(register) / SDID_UNIT % 64)
}

// MODE is a number: two of its values have a meaning, and a register with any other is refused.
pub fn mode(register: Word) -> u64
    ensures { (result ≡ mode_of board register) × (result < 16) }
{
    wide(register) / MODE_UNIT
}

// "MODE 1, that SDID and that page, WPRI zero"
pub fn new(sdid: Sdid, root: PageNumber) -> Word
    requires { (sdid.0 < 64) × (root.0 < 2 ^ board.info_bits) }
    ensures { result ≡ register_of board sdid.0 root.0 }
{
    narrow(MODE_UNIT + sdid.0 * SDID_UNIT + root.0)
}

// "MODE 0 is Bare"
pub fn is_bare(register: Word) -> bool
    ensures { result ≡ is_bare board register }
{
    mode(register) == 0
}

// "others are refused in the base. Bare with PPN or SDID not zero is refused."
pub fn register_ok(register: Word) -> bool
    ensures { result ≡ register_ok board register }
{
    let root = ppn(register).0;
    let domain = sdid(register).0;
    let kind = mode(register);
    (kind == 1) | ((kind == 0) & (root == 0) & (domain == 0))
}
