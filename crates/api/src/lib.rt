// The monitor for C: numbers and slices in, one word out. Nothing here stores through a reference: an edit and an open store into the
// lent words by `table::store::store_word` alone, and whoever holds the slots puts the register that open answers into its slot.
#![tactic(auto)]

ghost use Rattle.std.specs.Prelude.{◌≡◌, List, ℕ, ◌/◌, length, get_or};
ghost use Rattle.model.specs.Calls.{open_slot, close_slot};
ghost use Rattle.slots.specs.Outcomes.{outcome_of};
ghost use Rattle.types.specs.Codes.{privilege_at, kind_at, permission_at, strength_at};
ghost use Rattle.api.specs.CallWords.{version, opened_word, done_word, lookup_word, sound_word, apart_word, edit_word, edit_memory};
ghost use Rattle.table.specs.Board.{board_frame, PAGE-WORDS};

use monitor::Outcome;
use table::board::{Word, wide};
use types::code::{answer_word, fault_word, reply_word, separation_word};
use types::{Address, Frame, Kind, PageNumber, Permission, Privilege, Sdid, Strength};

// What is answered where a code names nothing.
const NO_CODE: u64 = 255;

// Slot s, and zero where there is none, as in an empty one. By its number: the check of the library's module does not know what `get` compiles to.
fn slot_at(slots: [Word; 8], s: u64) -> Word
    ensures { result ≡ get_or slots s 0 }
{
    if s < 8 {
        return slots[s as usize];
    }
    0
}

// What an open answers, in one word.
fn opened_word(o: Outcome, slot: u64) -> u64
    ensures { (m : List ℕ) → result ≡ opened_word (outcome_of o m) slot }
{
    reply_word(o.reply, o.fence, wide(slot_at(o.slots, slot)))
}

// What a close or an edit answers, in one word. The slots are not looked at.
fn done_word(o: Outcome) -> u64
    ensures { (m : List ℕ) → result ≡ done_word (outcome_of o m) }
{
    reply_word(o.reply, o.fence, 0)
}

// The version of this interface, as `mpt.h` numbers it: 65,536 times the major number, and the minor one.
#[unsafe(no_mangle)]
pub extern "C" fn mpt_version() -> u64
    ensures { result ≡ version }
{
    131073
}

#[unsafe(no_mangle)]
pub extern "C" fn mpt_lookup(
    paw: u64,
    first: u64,
    words: &[Word],
    mmpt: Word,
    privilege: u64,
    kind: u64,
    address: u64,
) -> u64
    ensures { result ≡ lookup_word (board_frame paw first (length words.now / PAGE-WORDS)) words.now mmpt (privilege_at privilege) (kind_at kind) address }
{
    let f = Frame {
        paw,
        first: PageNumber(first),
    };
    let Ok(p) = Privilege::try_from(privilege) else {
        return NO_CODE;
    };
    let Ok(k) = Kind::try_from(kind) else {
        return NO_CODE;
    };
    let no = fault_word(k);
    answer_word(monitor::lookup(f, words, mmpt, p, k, Address(address)), no)
}

#[unsafe(no_mangle)]
pub extern "C" fn mpt_sound(paw: u64, first: u64, words: &[Word], slots: &[Word; 8]) -> u64
    ensures { result ≡ sound_word (board_frame paw first (length words.now / PAGE-WORDS)) words.now slots.now }
{
    let f = Frame {
        paw,
        first: PageNumber(first),
    };
    let mut marks = marks::no_marks();
    match sound::admit(f, words, *slots, &mut marks) {
        Ok(()) => 0,
        Err(why) => u64::from(why),
    }
}

#[unsafe(no_mangle)]
pub extern "C" fn mpt_apart(
    paw: u64,
    first: u64,
    words: &[Word],
    slots: &[Word; 8],
    strength: u64,
) -> u64
    ensures { result ≡ apart_word (board_frame paw first (length words.now / PAGE-WORDS)) words.now slots.now (strength_at strength) }
{
    let f = Frame {
        paw,
        first: PageNumber(first),
    };
    let Ok(s) = Strength::try_from(strength) else {
        return NO_CODE;
    };
    separation_word(monitor::apart(f, words, *slots, s))
}

#[unsafe(no_mangle)]
pub extern "C" fn mpt_open(
    paw: u64,
    first: u64,
    words: &mut [Word],
    slots: &[Word; 8],
    slot: u64,
    sdid: u64,
) -> u64
    ensures { (result ≡ opened_word (open_slot (board_frame paw first (length words.old / PAGE-WORDS)) words.old slots.now slot sdid) slot)
        × (words.new ≡ (open_slot (board_frame paw first (length words.old / PAGE-WORDS)) words.old slots.now slot sdid).memory) }
{
    let f = Frame {
        paw,
        first: PageNumber(first),
    };
    opened_word(monitor::open(f, words, *slots, slot, Sdid(sdid)), slot)
}

#[unsafe(no_mangle)]
pub extern "C" fn mpt_close(
    paw: u64,
    first: u64,
    words: &[Word],
    slots: &[Word; 8],
    slot: u64,
) -> u64
    ensures { result ≡ done_word (close_slot (board_frame paw first (length words.now / PAGE-WORDS)) words.now slots.now slot) }
{
    let f = Frame {
        paw,
        first: PageNumber(first),
    };
    done_word(monitor::close(f, words, *slots, slot))
}

#[unsafe(no_mangle)]
pub extern "C" fn mpt_edit(
    paw: u64,
    first: u64,
    words: &mut [Word],
    slots: &[Word; 8],
    slot: u64,
    start: u64,
    size: u64,
    permission: u64,
    limit: u64,
) -> u64
    ensures { (result ≡ edit_word (board_frame paw first (length words.old / PAGE-WORDS)) words.old slots.now slot start size (permission_at permission) limit)
        × (words.new ≡ edit_memory (board_frame paw first (length words.old / PAGE-WORDS)) words.old slots.now slot start size (permission_at permission) limit) }
{
    let f = Frame {
        paw,
        first: PageNumber(first),
    };
    let Ok(p) = Permission::try_from(permission) else {
        return NO_CODE;
    };
    let o = monitor::edit(f, words, *slots, slot, Address(start), size, p, limit);
    done_word(o)
}
