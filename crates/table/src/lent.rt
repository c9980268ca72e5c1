// The frame: its bounds, which pages are lent, and where their words stand. A frame and the words beside it are two parameters everywhere, and no
// struct with a reference in it: in a clause that is a pair of moments, and what is `frame_of f words.now` would be
// `frame_of table.entry.f table.entry.words.now`. That a frame keeps its bounds (`bounds_ok`) is a fact of it beside the number of those words, and
// stands in the clauses with them.
ghost use Rattle.std.specs.Prelude.{◌≡◌, true, ◌+◌, ◌-◌, ◌≤◌, ◌^◌, length};
ghost use Rattle.model.specs.Frame as frame;
ghost use Rattle.table.specs.Board.{board, MAX-BLOCKS, frame_of, frame_over};

use crate::board::{MAX_PAGES, MAX_PAW, PAGE_WORDS, Word};
use types::bits::pow2;
use types::{Frame, PageNumber};

// "PAW (30 to 34), lent table memory of 2 to 256 whole pages"
const MIN_PAW: u64 = 30;

const MIN_PAGES: u64 = 2;

// A frame that breaks its bounds, or memory that is not whole pages, is refused by every call.
pub fn frame_ok(f: Frame, words: &[Word]) -> bool
    ensures { result ≡ frame.frame_ok (frame_of f words.now) words.now }
{
    let paw = f.paw;
    let first = f.first.0;
    let n = words.len();
    let pages = (n / PAGE_WORDS) as u64;
    if paw < MIN_PAW {
        return false;
    }
    if MAX_PAW < paw {
        return false;
    }
    if pages < MIN_PAGES {
        return false;
    }
    if MAX_PAGES < pages {
        return false;
    }
    if first < 1 {
        return false;
    }
    if pow2(paw - 12) - pages < first {
        return false;
    }
    n % PAGE_WORDS == 0
}

// "The first 2^(PAW-25) entries": the blocks of the address space.
pub fn block_count(f: Frame, n: usize) -> usize
    requires { frame.bounds_ok (frame_over f n) ≡ true }
    ensures { (result ≡ frame.blocks (frame_over f n)) × (result ≤ MAX-BLOCKS) }
{
    pow2(f.paw - 25) as usize
}

// The pages of the address space: "2^(PAW-12)".
pub fn page_count(f: Frame, n: usize) -> u64
    requires { frame.bounds_ok (frame_over f n) ≡ true }
    ensures { (result ≡ frame.space (frame_over f n)) × (result ≤ 2 ^ (board.max_paw - 12)) }
{
    pow2(f.paw - 12)
}

pub fn is_lent(f: Frame, n: usize, page: PageNumber) -> bool
    ensures { result ≡ frame.lent (frame_over f n) page.0 }
{
    let pages = (n / PAGE_WORDS) as u64;
    let first = f.first.0;
    let at = page.0;
    if at < first {
        return false;
    }
    at - first < pages
}

// Where the words of a lent page start: all are inside.
pub fn page_at(f: Frame, words: &[Word], page: PageNumber) -> usize
    requires { frame.lent (frame_of f words.now) page.0 ≡ true }
    ensures { (result ≡ frame.index_of (frame_of f words.now) page.0 0) × (result + board.words ≤ length words.now) }
{
    (page.0 - f.first.0) as usize * PAGE_WORDS
}
