// What differs between the boards, as the code has it. RV64, mode Smmpt46: entries of 8 bytes, pieces of 2 MiB.
ghost use Rattle.std.specs.Prelude.{◌≡◌, ◌<◌, ◌^◌};
ghost use Rattle.table.specs.Board.{board};

// An entry of the tables, and a register.
pub type Word = u64;

// "512 entries of 16 four-bit fields."
pub const PAGE_WORDS: usize = 512;

pub const FIELDS: u64 = 16;

// "16 two-bit permissions, one per 2 MiB".
pub const PIECES: u64 = 16;

pub const PIECE_PAGES: u64 = 512;

// Entries and bytes of a piece.
pub const PIECE_WORDS: u64 = PAGE_WORDS as u64 / PIECES;

pub const PIECE_BYTES: u64 = PIECE_PAGES * types::pages::PAGE_BYTES;

pub const PIECE_ROUND_UP: u64 = PIECE_PAGES - 1;

pub const PIECE_TYPE: u64 = 6;

// "TYPE 4: INFO is the page number of an L1 page."
pub const TABLE_TYPE: u64 = 4;

// An L2 entry: where TYPE begins, bit 44, and the bound of the pieces' permissions, bit 32.
pub const TYPE_UNIT: u64 = 0x1000_0000_0000;

pub const PIECE_INFO: u64 = 0x1_0000_0000;

// Entries whose INFO is zero: one that names an L1 page, and one by pieces.
pub const TABLE_ENTRY: u64 = TABLE_TYPE * TYPE_UNIT;

pub const PIECE_ENTRY: u64 = PIECE_TYPE * TYPE_UNIT;

// A register: where WPRI, SDID and MODE begin, bits 44, 54 and 60; and how many values WPRI has.
pub const WPRI_UNIT: u64 = 0x1000_0000_0000;

pub const SDID_UNIT: u64 = 0x40_0000_0000_0000;

pub const MODE_UNIT: u64 = 0x1000_0000_0000_0000;

pub const WPRI_VALUES: u64 = 1024;

// "PAW (30 to 34), lent table memory of 2 to 256 whole pages".
pub const MAX_PAW: u64 = 34;

pub const MAX_PAGES: u64 = 256;

// 1 in each piece; 1 in each field; and the reserved bits, the high two of each field.
pub const EACH_PIECE: u64 = 0x5555_5555;

pub const EACH_FIELD: u64 = 0x1111_1111_1111_1111;

pub const RESERVED: u64 = 0xCCCC_CCCC_CCCC_CCCC;

// A word as a plain number.
pub fn wide(word: Word) -> u64
    ensures { (result ≡ word) × (result < 16 ^ board.fields) }
{
    word as u64
}

// A number as a word.
pub fn narrow(n: u64) -> Word
    requires { n < 16 ^ board.fields }
    ensures { result ≡ n }
{
    n as Word
}
