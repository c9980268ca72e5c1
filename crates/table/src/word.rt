// Entries of the tables. L2: INFO, TYPE, ZERO. L1: fields of four bits.
ghost use Rattle.std.specs.Prelude.{◌≡◌, ◌<◌};
ghost use Rattle.model.specs.Numbers.{digit};
ghost use Rattle.table.specs.Board.{board};
ghost use Rattle.model.specs.Entry as entry;
ghost use Rattle.types.specs.Views.{entry_of, found_of};
ghost use Rattle.table.specs.Bounds.{Small};

use crate::board::{PIECE_INFO, PIECE_TYPE, RESERVED, TABLE_TYPE, TYPE_UNIT, Word};
use types::rights::permission_of;
use types::{Entry, PageNumber, Permission};

// The "four-bit fields" and "two-bit permissions", the same on every board.
pub const FIELD_BITS: u64 = 4;

pub const FIELD_VALUES: u64 = 16;

pub const PERMISSION_BITS: u64 = 2;

pub const PERMISSIONS: u64 = 4;

// What an L2 entry says. TYPE is taken with ZERO above it: a number above 7 is no type. The page number of an L1 page is all of INFO.
pub fn decode(word: Word) -> Entry
    ensures { (entry_of result ≡ entry.decode board word) × Small (entry_of result) }
{
    let number = word as u64;
    let info = number % TYPE_UNIT;
    let kind = number / TYPE_UNIT;
    if kind < PERMISSIONS {
        if info == 0 {
            return Entry::Flat(kind);
        }
        return Entry::Invalid;
    }
    if kind == TABLE_TYPE {
        return Entry::Table(PageNumber(info));
    }
    if kind == PIECE_TYPE {
        if info < PIECE_INFO {
            return Entry::Pieces(info);
        }
    }
    Entry::Invalid
}

// The permission of piece i in the INFO of an entry by pieces.
pub fn piece(info: u64, i: u64) -> u64
    requires { i < board.pieces }
    ensures { (result ≡ digit 4 info i) × (result < 4) }
{
    (info >> (PERMISSION_BITS * i)) % PERMISSIONS
}

// Field i of an L1 entry.
fn field(word: Word, i: u64) -> u64
    requires { i < board.fields }
    ensures { (result ≡ digit 16 word i) × (result < 16) }
{
    (word as u64 >> (FIELD_BITS * i)) % FIELD_VALUES
}

// What field i of an L1 entry says: its permission, or a fault where a reserved bit is set in any field of the entry.
pub fn field_found(word: Word, i: u64) -> Option<Permission>
    requires { i < board.fields }
    ensures { found_of result ≡ entry.field_of board word i }
{
    let bits = field(word, i);
    if word as u64 & RESERVED == 0 {
        return Some(permission_of(bits % PERMISSIONS));
    }
    None
}
