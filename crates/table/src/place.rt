// The parts of a page number that choose an L1 entry, its field and a piece. On RV64, of an address: "pn[0] 15:12, pn[1] 24:16".
ghost use Rattle.std.specs.Prelude.{◌≡◌, ◌<◌};
ghost use Rattle.table.specs.Board.{board};
ghost use Rattle.model.specs.Walk as walk;

use crate::board::{FIELDS, PAGE_WORDS, PIECE_PAGES};
use types::PageNumber;
use types::pages::BLOCK_PAGES;

// The L1 entry that speaks for a page.
pub fn pn1(page: PageNumber) -> u64
    ensures { (result ≡ walk.pn1 board page.0) × (result < board.words) }
{
    page.0 / FIELDS % PAGE_WORDS as u64
}

// Its field.
pub fn pn0(page: PageNumber) -> u64
    ensures { (result ≡ walk.pn0 board page.0) × (result < board.fields) }
{
    page.0 % FIELDS
}

// The piece of its block that a page lies in.
pub fn piece_of(page: PageNumber) -> u64
    ensures { (result ≡ walk.piece_of board page.0) × (result < board.pieces) }
{
    page.0 % BLOCK_PAGES / PIECE_PAGES
}
