// The L2 entries of a root.
ghost use Rattle.std.specs.Prelude.{◌≡◌, true, ◌<◌};
ghost use Rattle.model.specs.Frame.{lent};
ghost use Rattle.model.specs.Walk.{entry_at};
ghost use Rattle.types.specs.Views.{entry_of};
ghost use Rattle.table.specs.Board.{MAX-BLOCKS, frame_of};
ghost use Rattle.table.specs.Bounds.{Small};

use crate::board::Word;
use crate::lent::page_at;
use crate::word::decode;
use types::{Entry, Frame, PageNumber};

// L2 entry b of a lent root, decoded.
pub fn entry_at(f: Frame, words: &[Word], root: PageNumber, b: u64) -> Entry
    requires { (b < MAX-BLOCKS) × (lent (frame_of f words.now) root.0 ≡ true) }
    ensures { (entry_of result ≡ entry_at (frame_of f words.now) words.now root.0 b) × Small (entry_of result) }
{
    let at = page_at(f, words, root) + b as usize;
    decode(words[at])
}
