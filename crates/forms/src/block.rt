// A block of the address space: its number, and its L2 entry, decoded.
ghost use Rattle.std.specs.Prelude.{◌<◌};
ghost use Rattle.table.specs.Board.{MAX-BLOCKS};

use types::Entry;

#[derive(Clone, Copy)]
pub struct Block {
    pub b: u64,
    pub e: Entry,
    pub ghost inside: { b < MAX-BLOCKS },
}
