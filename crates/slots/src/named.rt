// What a call asks of the slot that it names, and which SDIDs are in use. A slot is its register, "zero means empty", as C holds it, and no `Option`.
ghost use Rattle.std.specs.Prelude.{◌≡◌};
ghost use Rattle.model.specs.Numbers.{member};
ghost use Rattle.table.specs.Board.{board};
ghost use Rattle.shapes.specs.Slots as spec;

use table::board::Word;
use table::register;
use types::Sdid;

// The "eight slots", and an SDID of six bits.
const SLOTS: u64 = 8;

const MAX_SDID: u64 = 63;

// "slot above 7; empty for close or edit"
pub fn not_open(slots: [Word; 8], slot: u64) -> bool
    ensures { result ≡ spec.not_open slots slot }
{
    if SLOTS <= slot {
        return true;
    }
    let at = slot as usize;
    slots[at] == 0
}

// "slot above 7; .. in use for open". This is not `!not_open`: a slot above 7 is neither.
pub fn not_empty(slots: [Word; 8], slot: u64) -> bool
    ensures { result ≡ spec.not_empty slots slot }
{
    if SLOTS <= slot {
        return true;
    }
    let at = slot as usize;
    slots[at] != 0
}

// A slot is open with this SDID. SDID 0 is held like any other: what says that a slot is empty is its whole register.
fn holds(slot: Word, sdid: Sdid) -> bool
    ensures { result ≡ spec.holds board slot sdid.0 }
{
    if slot == 0 {
        return false;
    }
    sdid.0 == register::sdid(slot).0
}

fn held(slots: [Word; 8], sdid: Sdid) -> bool
    ensures { result ≡ member sdid.0 (spec.open_sdids board slots) }
{
    for slot in slots {
        if holds(slot, sdid) {
            return true;
        }
    }
    false
}

// "SDID above 63 or held by another open slot"
pub fn bad_sdid(slots: [Word; 8], sdid: Sdid) -> bool
    ensures { result ≡ spec.bad_sdid board slots sdid.0 }
{
    let number = sdid.0;
    if MAX_SDID < number {
        return true;
    }
    held(slots, sdid)
}
