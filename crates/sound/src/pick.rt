// The free pages, from the marks alone: no table is lent here.
ghost use Rattle.std.specs.Prelude.{◌≡◌, true};
ghost use Rattle.model.specs.Frame.{bounds_ok};
ghost use Rattle.table.specs.Board.{frame_over};
ghost use Rattle.scan.specs.FreeMarks.{marked_pages, listed, Picked};

use marks::{Marks, lowest, take};
use table::board::PAGE_WORDS;
use types::{Frame, Free, PageNumber};

// The lowest of the lent pages that are marked, if there is one; it loses its mark. n: the number of lent words, which with the frame says where the
// lent pages lie.
fn next_free(f: Frame, n: usize, free: &mut Marks) -> Option<PageNumber>
    requires { bounds_ok (frame_over f n) ≡ true }
    ensures { Picked (marked_pages (frame_over f n) free.old) result (marked_pages (frame_over f n) free.new) }
{
    let at = lowest(free)?;
    if n / PAGE_WORDS <= at {
        return None;
    }
    take(free, at);
    Some(PageNumber(f.first.0 + at as u64))
}

// The two lowest of the lent pages that are marked.
pub fn free_pages(f: Frame, n: usize, free: &Marks) -> Free
    requires { bounds_ok (frame_over f n) ≡ true }
    ensures { result ≡ listed (marked_pages (frame_over f n) free.now) }
{
    let mut left = *free;
    let first = next_free(f, n, &mut left);
    let second = next_free(f, n, &mut left);
    Free { first, second }
}
