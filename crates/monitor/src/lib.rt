// The outward calls. None has a `requires`: whatever is handed in gets an answer, and a refusal changes nothing.
// The contract of `edit` is here, those of `open` and `close` in `slots`, that of `lookup` in `lookup`, that of `apart` in `apart`.
#![tactic(auto)]

ghost use Rattle.std.specs.Prelude.{◌≡◌, ◌<◌};
ghost use Rattle.model.specs.Calls as calls;
ghost use Rattle.types.specs.Views.{permission_number, request_of};
ghost use Rattle.slots.specs.Outcomes.{outcome_of, answered};
ghost use Rattle.monitor.specs.Edits.{request_from, InOpenSlot};
ghost use Rattle.table.specs.Board.{frame_of};

pub use apart::apart;
use edit::make;
use forms::gibs::new_pages;
pub use lookup::lookup;
use marks::{Marks, no_marks};
use range::bounds::{bad_range, on_lent_pages, write_execute};
use slots::answer;
use slots::named::not_open;
pub use slots::{Outcome, close, open};
use sound::admit;
use sound::pick::free_pages;
use table::board::Word;
use table::register;
pub use types::{Refusal, Reply};
use types::{Address, Edit, Frame, Permission, Request, needed_page};

// An edit in an open slot of a sound table, whose marks are at hand. Refusals 5, 10, 6, 7, in this order, and then the stores.
fn edit_open(
    f: Frame,
    words: &mut [Word],
    slots: [Word; 8],
    q: Request,
    marks: &Marks,
    limit: u64,
) -> Result<Outcome, Refusal>
    requires { InOpenSlot (frame_of f words.old) words.old slots (request_of q) marks.now }
    ensures { outcome_of (answered slots result) words.new ≡ calls.edit_slot (frame_of f words.old) words.old slots (request_of q) limit }
{
    if bad_range(f, words.len(), q) {
        return Err(Refusal::Range);
    }
    if write_execute(q) {
        return Err(Refusal::WriteExecute);
    }
    if on_lent_pages(f, words.len(), q) {
        return Err(Refusal::LentPages);
    }
    let free = free_pages(f, words.len(), marks);
    let register = slots[q.slot as usize];
    let root = register::ppn(register);
    let edit = Edit { f, q, root };
    if needed_page::count(free) < new_pages(edit, words) {
        return Err(Refusal::NoRoom);
    }
    let sdid = register::sdid(register);
    let made = make(edit, words, sdid, free, limit);
    Ok(Outcome {
        reply: Ok(Reply::Edited(made.count, made.all)),
        slots,
        fence: made.fence,
    })
}

// An edit, or the refusal that fits first: 1, 3, 4 here, and then as above.
fn edit_slot(
    f: Frame,
    words: &mut [Word],
    slots: [Word; 8],
    q: Request,
    limit: u64,
) -> Result<Outcome, Refusal>
    requires { q.permission < 4 }
    ensures { outcome_of (answered slots result) words.new ≡ calls.edit_slot (frame_of f words.old) words.old slots (request_of q) limit }
{
    let mut marks = no_marks();
    admit(f, words, slots, &mut marks)?;
    if not_open(slots, q.slot) {
        return Err(Refusal::Slot);
    }
    edit_open(f, words, slots, q, &marks, limit)
}

// "An edit names a slot, start, length, permission (one of the four) and a limit on stores."
pub fn edit(
    f: Frame,
    words: &mut [Word],
    slots: [Word; 8],
    slot: u64,
    start: Address,
    length: u64,
    permission: Permission,
    limit: u64,
) -> Outcome
    ensures { outcome_of result words.new
        ≡ calls.edit_slot (frame_of f words.old) words.old slots (request_from slot start.0 length (permission_number permission)) limit }
{
    let q = Request {
        slot,
        start,
        size: length,
        permission: u64::from(permission),
    };
    answer(edit_slot(f, words, slots, q, limit), slots)
}
