// The edit: the stores of an accepted edit in order, up to a limit, and its answer. The words stand beside the edit, and not in it: they are lent to be
// changed, one store after another, and an edit is the same before and after each.
#![tactic(auto)]

mod block;

ghost use Rattle.std.specs.Prelude.{◌≡◌, true};
ghost use Rattle.sequence.specs.StoresMade.{fence_after, StoresMadeIs};
ghost use Rattle.sequence.specs.Prepared.{Prepared, whole_list};
ghost use Rattle.shapes.specs.Blocks.{has_one, one_of};
ghost use Rattle.shapes.specs.Run.{out, run};
ghost use Rattle.model.specs.Fence.{in_root};
ghost use Rattle.model.specs.Frame.{lent, bounds_ok};
ghost use Rattle.types.specs.Views.{fence_of, request_of, free_list};
ghost use Rattle.table.specs.Board.{frame_of};

use crate::block::next_blocks;
use forms::gibs::gib_at;
use table::board::Word;
use table::lent::{block_count, page_at};
use types::pages::{GIB_BLOCKS, GIB_BYTES, PAGE_BYTES};
use types::{Budget, Edit, Fence, Frame, Free, PageNumber, Sdid, StoresMade};

// The stores of an edit that no refusal fits, in order, up to the limit. free: the free pages, lowest first. Some blocks go by at once,
// as many as `next_blocks` takes, so that the steps of the loop are of many lengths.
fn store_range(edit: Edit, words: &mut [Word], free: Free, limit: Budget) -> Option<Budget>
    requires { Prepared (frame_of edit.f words.old) words.old (request_of edit.q) edit.root.0 (free_list free) }
    ensures { out result words.new
        ≡ run limit (whole_list (frame_of edit.f words.old) words.old (request_of edit.q) edit.root.0 (free_list free)) words.old }
{
    let end = ((edit.q.start.0 + edit.q.size - 1) / GIB_BYTES + 1) * GIB_BLOCKS;
    let mut b = edit.q.start.0 / GIB_BYTES * GIB_BLOCKS;
    let mut gib = Err(0);
    let mut next: u64 = 0;
    let mut left = limit;
    while b < end {
        gib = gib_at(edit, words, b, gib);
        let step = next_blocks(edit, words, gib, b, free, next, left);
        left = step.left?;
        next = step.next;
        b += step.count;
    }
    Some(left)
}

// Word at is an entry of the root.
fn in_root(f: Frame, words: &[Word], root: PageNumber, at: usize) -> bool
    requires { (lent (frame_of f words.now) root.0 ≡ true) × (bounds_ok (frame_of f words.now) ≡ true) }
    ensures { result ≡ in_root (frame_of f words.now) root.0 at }
{
    let start = page_at(f, words, root);
    if at < start {
        return false;
    }
    at < start + block_count(f, words.len())
}

// The fence after count stores. last: the word of the last one, if all were made.
fn fence_after(edit: Edit, words: &[Word], sdid: Sdid, count: u64, last: Option<usize>) -> Fence
    requires { (lent (frame_of edit.f words.now) edit.root.0 ≡ true) × (bounds_ok (frame_of edit.f words.now) ≡ true) }
    ensures { fence_of result ≡ fence_after (frame_of edit.f words.now) (request_of edit.q) edit.root.0 sdid.0 count (has_one last) (one_of last) }
{
    if count == 0 {
        return Fence::Nothing;
    }
    if edit.q.size != PAGE_BYTES {
        return Fence::Domain(sdid);
    }
    if count != 1 {
        return Fence::Domain(sdid);
    }
    let Some(at) = last else {
        return Fence::Domain(sdid);
    };
    if in_root(edit.f, words, edit.root, at) {
        return Fence::Domain(sdid);
    }
    let start = edit.q.start;
    Fence::One(start, sdid)
}

// An edit that no refusal fits.
pub fn make(edit: Edit, words: &mut [Word], sdid: Sdid, free: Free, limit: u64) -> StoresMade
    requires { Prepared (frame_of edit.f words.old) words.old (request_of edit.q) edit.root.0 (free_list free) }
    ensures { StoresMadeIs (frame_of edit.f words.old) (request_of edit.q) edit.root.0 sdid.0
        (whole_list (frame_of edit.f words.old) words.old (request_of edit.q) edit.root.0 (free_list free)) limit words.old words.new result }
{
    let start = Budget {
        more: limit,
        last: 0,
    };
    let Some(rest) = store_range(edit, words, free, start) else {
        let fence = fence_after(edit, words, sdid, limit, None);
        return StoresMade {
            count: limit,
            all: false,
            fence,
        };
    };
    let count = limit - rest.more;
    let fence = fence_after(edit, words, sdid, count, Some(rest.last));
    StoresMade {
        count,
        all: true,
        fence,
    }
}
