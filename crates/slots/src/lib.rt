// The slots: what a call answers and leaves, what it asks of the slot that it names, and opening and closing one.
// `open` and `close` are outward calls, which `monitor` brings out: each is handed the frame, the words and the slots one by one, as C lends them.
#![tactic(auto)]

pub mod named;
mod zero;

ghost use Rattle.std.specs.Prelude.{◌≡◌, true, ◌<◌};
ghost use Rattle.model.specs.Frame as frame;
ghost use Rattle.model.specs.Calls as calls;
ghost use Rattle.slots.specs.Outcomes.{outcome_of, refused_outcome, answered, closed_at};
ghost use Rattle.table.specs.Board.{frame_of};

use crate::named::{bad_sdid, not_empty, not_open};
use crate::zero::zero_page;
use marks::no_marks;
use sound::admit;
use sound::pick::free_pages;
use table::board::Word;
use table::{lent, register};
use types::{Fence, Frame, PageNumber, Refusal, Reply, Sdid};

// What a call leaves, beside the lent memory. The slots come first: behind the small reply a compiler copied them from an odd address, and once more.
#[derive(Clone, Copy)]
pub struct Outcome {
    pub slots: [Word; 8],
    pub fence: Fence,
    pub reply: Result<Reply, Refusal>,
}

fn refused(why: Refusal, slots: [Word; 8]) -> Outcome
    ensures { result ≡ refused_outcome why slots }
{
    Outcome {
        reply: Err(why),
        slots,
        fence: Fence::Nothing,
    }
}

// The answer of a call that came to an outcome, or was refused.
pub fn answer(done: Result<Outcome, Refusal>, slots: [Word; 8]) -> Outcome
    ensures { result ≡ answered slots done }
{
    match done {
        Ok(outcome) => outcome,
        Err(why) => refused(why, slots),
    }
}

// The change of an open that no refusal fits: the page is zeroed before the slot is set.
fn open_at(
    f: Frame,
    words: &mut [Word],
    slots: [Word; 8],
    slot: u64,
    sdid: Sdid,
    root: PageNumber,
) -> Outcome
    requires { (frame.bounds_ok (frame_of f words.old) ≡ true) × (frame.lent (frame_of f words.old) root.0 ≡ true) × (slot < 8) × (sdid.0 < 64) }
    ensures { outcome_of result words.new ≡ calls.open_at (frame_of f words.old) words.old slots root.0 slot sdid.0 }
{
    zero_page(words, lent::page_at(f, words, root));
    let mut after = slots;
    after[slot as usize] = register::new(sdid, root);
    Outcome {
        reply: Ok(Reply::Opened),
        slots: after,
        fence: Fence::Nothing,
    }
}

// Opening a slot, or the refusal that fits first: 1, 3, 4, 8, 7, in this order.
fn open_slot(
    f: Frame,
    words: &mut [Word],
    slots: [Word; 8],
    slot: u64,
    sdid: Sdid,
) -> Result<Outcome, Refusal>
    ensures { outcome_of (answered slots result) words.new ≡ calls.open_slot (frame_of f words.old) words.old slots slot sdid.0 }
{
    let mut marks = no_marks();
    admit(f, words, slots, &mut marks)?;
    if not_empty(slots, slot) {
        return Err(Refusal::Slot);
    }
    if bad_sdid(slots, sdid) {
        return Err(Refusal::Sdid);
    }
    let Some(root) = free_pages(f, words.len(), &marks).first else {
        return Err(Refusal::NoRoom);
    };
    Ok(open_at(f, words, slots, slot, sdid, root))
}

// "Opening an empty slot with an SDID takes the lowest free page, zeroes it and sets the register".
pub fn open(f: Frame, words: &mut [Word], slots: [Word; 8], slot: u64, sdid: Sdid) -> Outcome
    ensures { outcome_of result words.new ≡ calls.open_slot (frame_of f words.old) words.old slots slot sdid.0 }
{
    answer(open_slot(f, words, slots, slot, sdid), slots)
}

// The change of a close that no refusal fits.
fn close_at(slots: [Word; 8], slot: u64) -> Outcome
    requires { slot < 8 }
    ensures { result ≡ closed_at slots slot }
{
    let at = slot as usize;
    let sdid = register::sdid(slots[at]);
    let mut after = slots;
    after[at] = 0;
    Outcome {
        reply: Ok(Reply::Closed),
        slots: after,
        fence: Fence::Domain(sdid),
    }
}

// Closing a slot, or the refusal that fits first: 1, 3, 4, in this order.
fn close_slot(f: Frame, words: &[Word], slots: [Word; 8], slot: u64) -> Result<Outcome, Refusal>
    ensures { outcome_of (answered slots result) words.now ≡ calls.close_slot (frame_of f words.now) words.now slots slot }
{
    let mut marks = no_marks();
    admit(f, words, slots, &mut marks)?;
    if not_open(slots, slot) {
        return Err(Refusal::Slot);
    }
    Ok(close_at(slots, slot))
}

// "Closing empties the slot, writes no byte and asks for a domain fence."
pub fn close(f: Frame, words: &[Word], slots: [Word; 8], slot: u64) -> Outcome
    ensures { outcome_of result words.now ≡ calls.close_slot (frame_of f words.now) words.now slots slot }
{
    answer(close_slot(f, words, slots, slot), slots)
}
