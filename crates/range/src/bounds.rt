// Whether an edit may have what it asks: refusals 5, 10 and 6, in the order in which they are tested.
ghost use Rattle.std.specs.Prelude.{◌≡◌, true, false, not, ◌&&◌, eqb};
ghost use Rattle.model.specs.Frame.{bounds_ok};
ghost use Rattle.model.specs.Calls.{bad_range, meets_lent, write_execute};
ghost use Rattle.table.specs.Board.{frame_over};
ghost use Rattle.types.specs.Views.{request_of};

use table::board::PAGE_WORDS;
use types::bits::pow2;
use types::pages::PAGE_BYTES;
use types::{Frame, Request};

// "length 0, start or length not a multiple of 4,096, or start + length (no wrap) above 2^PAW"
pub fn bad_range(f: Frame, n: usize, q: Request) -> bool
    requires { bounds_ok (frame_over f n) ≡ true }
    ensures { result ≡ bad_range (frame_over f n) (request_of q) }
{
    let start = q.start.0;
    let size = q.size;
    if size == 0 {
        return true;
    }
    if start % PAGE_BYTES != 0 {
        return true;
    }
    if size % PAGE_BYTES != 0 {
        return true;
    }
    let end = pow2(f.paw);
    if end < start {
        return true;
    }
    end - start < size
}

// Document 02, item 6: rwx "in slots 1 to 7 .. Slot 0 keeps it". A request has the two bits of its permission: rwx is 3, and none is 0.
pub fn write_execute(q: Request) -> bool
    ensures { result ≡ write_execute (request_of q) }
{
    (q.permission == 3) & (q.slot != 0)
}

// "permission not none and the range meets the lent pages"
pub fn on_lent_pages(f: Frame, n: usize, q: Request) -> bool
    requires { (bounds_ok (frame_over f n) ≡ true) × (bad_range (frame_over f n) (request_of q) ≡ false) }
    ensures { result ≡ (not (eqb q.permission 0) && meets_lent (frame_over f n) (request_of q)) }
{
    let start = q.start.0;
    let pages = (n / PAGE_WORDS) as u64;
    let first = f.first.0;
    if q.permission == 0 {
        return false;
    }
    if (first + pages) * PAGE_BYTES <= start {
        return false;
    }
    first * PAGE_BYTES < start + q.size
}
