// The whole-table check: one pass, root by root and GiB by GiB. A page that it meets loses its mark, so that of the lent pages of a sound
// table just the free ones keep theirs.
#![tactic(auto)]

pub mod pick;

ghost use Rattle.std.specs.Prelude.{◌≡◌, true, ◌+◌, ◌-◌, ◌%◌, ◌≤◌, length, get_or};
ghost use Rattle.model.specs.Numbers.{every};
ghost use Rattle.model.specs.Entry as entry;
ghost use Rattle.model.specs.Frame.{bounds_ok};
ghost use Rattle.model.specs.Layout.{gib_blocks};
ghost use Rattle.table.specs.Board.{board, frame_over, frame_of};
ghost use Rattle.types.specs.Views.{entry_of};
ghost use Rattle.scan.specs.Admission.{AdmissionIs};
ghost use Rattle.scan.specs.Scan.{GatheredBy, flat_word, scanned, scan_all, scan_run, claim_of, link_step, entry_step, word_step, root_step, slot_step, register_step};

use marks::{Marks, all_marks, take};
use table::board::{PAGE_WORDS, RESERVED, TYPE_UNIT, Word, wide};
use table::word::PERMISSIONS;
use table::{lent, register, word};
use types::pages::GIB_BLOCKS;
use types::{Entry, Frame, PageNumber, Refusal};

// The entries of a GiB, one word each.
const GIB_WORDS: usize = GIB_BLOCKS as usize;

// Some words, gathered by `|`, so that one test tells of all.
fn gathered(words: &[Word]) -> u64
    ensures { GatheredBy words.now result }
{
    let mut all: u64 = 0;
    for &word in words {
        all |= wide(word);
    }
    all
}

// "all reserved bits in it are zero".
fn clean(words: &[Word], at: usize) -> bool
    requires { at + board.words ≤ length words.now }
    ensures { result ≡ every (λ i. entry.clean board (get_or words.now (at + i) 0)) board.words 0 }
{
    gathered(&words[at..at + PAGE_WORDS]) & RESERVED == 0
}

// A page is lent and was not met before: then it loses its mark.
fn claim(f: Frame, n: usize, page: PageNumber, free: &mut Marks) -> bool
    requires { bounds_ok (frame_over f n) ≡ true }
    ensures { scanned result free.new ≡ claim_of (frame_over f n) free.old page.0 }
{
    if lent::is_lent(f, n, page) {
        return take(free, (page.0 - f.first.0) as usize);
    }
    false
}

// The page that a TYPE 4 entry names.
fn link(f: Frame, words: &[Word], table: PageNumber, free: &mut Marks) -> bool
    requires { bounds_ok (frame_of f words.now) ≡ true }
    ensures { scanned result free.new ≡ link_step (frame_of f words.now) words.now free.old table.0 }
{
    if claim(f, words.len(), table, free) {
        return clean(words, lent::page_at(f, words, table));
    }
    false
}

fn entry(f: Frame, words: &[Word], e: Entry, free: &mut Marks) -> bool
    requires { bounds_ok (frame_of f words.now) ≡ true }
    ensures { scanned result free.new ≡ entry_step (frame_of f words.now) words.now free.old (entry_of e) }
{
    match e {
        Entry::Flat(_) => true,
        Entry::Pieces(_) => true,
        Entry::Table(page) => link(f, words, page, free),
        Entry::Invalid => false,
    }
}

// The entries whose words stand from start up to end, which is not one of them.
fn entries(f: Frame, words: &[Word], start: usize, end: usize, free: &mut Marks) -> bool
    requires { (bounds_ok (frame_of f words.now) ≡ true) × (start ≤ end) × (end ≤ length words.now) }
    ensures { scanned result free.new ≡ scan_run (word_step (frame_of f words.now) words.now start) free.old (end - start) 0 }
{
    for &word in &words[start..end] {
        if !entry(f, words, word::decode(word), free) {
            return false;
        }
    }
    true
}

// An entry of the "1G" types, by its bits; or several that are gathered by `|`, if each of them is one.
fn is_flat(bits: u64) -> bool
    ensures { result ≡ flat_word board bits }
{
    if bits / TYPE_UNIT < PERMISSIONS {
        return bits % TYPE_UNIT == 0;
    }
    false
}

// All entries of a GiB are of the "1G" types, which name no page. In the finished form all are, or not even the
// first.
fn all_flat(words: &[Word], at: usize) -> bool
    requires { at + gib_blocks ≤ length words.now }
    ensures { result ≡ every (λ i. flat_word board (get_or words.now (at + i) 0)) gib_blocks 0 }
{
    if !is_flat(wide(words[at])) {
        return false;
    }
    is_flat(gathered(&words[at..at + GIB_WORDS]))
}

// The entries of the GiB that begins at word at: one by one, where they are not all of the "1G" types.
fn gib(f: Frame, words: &[Word], at: usize, free: &mut Marks) -> bool
    requires { (bounds_ok (frame_of f words.now) ≡ true) × (at + gib_blocks ≤ length words.now) }
    ensures { scanned result free.new ≡ scan_run (word_step (frame_of f words.now) words.now at) free.old gib_blocks 0 }
{
    if all_flat(words, at) {
        return true;
    }
    entries(f, words, at, at + GIB_WORDS, free)
}

// The same for whole GiBs.
fn gibs(f: Frame, words: &[Word], start: usize, end: usize, free: &mut Marks) -> bool
    requires { (bounds_ok (frame_of f words.now) ≡ true) × ((end - start) % gib_blocks ≡ 0) × (end ≤ length words.now) }
    ensures { scanned result free.new ≡ scan_run (word_step (frame_of f words.now) words.now start) free.old (end - start) 0 }
{
    for at in (start..end).step_by(GIB_WORDS) {
        if !gib(f, words, at, free) {
            return false;
        }
    }
    true
}

// A root: the page itself, then "The first 2^(PAW-25) entries of each root"; "the rest of the page is never read".
fn root(f: Frame, words: &[Word], page: PageNumber, free: &mut Marks) -> bool
    requires { bounds_ok (frame_of f words.now) ≡ true }
    ensures { scanned result free.new ≡ root_step (frame_of f words.now) words.now free.old page.0 }
{
    if claim(f, words.len(), page, free) {
        let count = lent::block_count(f, words.len());
        let at = lent::page_at(f, words, page);
        return gibs(f, words, at, at + count, free);
    }
    false
}

fn slot(f: Frame, words: &[Word], register: Word, free: &mut Marks) -> bool
    requires { bounds_ok (frame_of f words.now) ≡ true }
    ensures { scanned result free.new ≡ slot_step (frame_of f words.now) words.now free.old register }
{
    if register == 0 {
        return true;
    }
    root(f, words, register::ppn(register), free)
}

fn tables(f: Frame, words: &[Word], slots: [Word; 8], free: &mut Marks) -> bool
    requires { bounds_ok (frame_of f words.now) ≡ true }
    ensures { scanned result free.new ≡ scan_all (slot_step (frame_of f words.now) words.now) free.old slots }
{
    for r in slots {
        if !slot(f, words, r, free) {
            return false;
        }
    }
    true
}

// A slot's register; sdids has a mark for each SDID that was not met before.
fn register(r: Word, sdids: &mut Marks) -> bool
    ensures { scanned result sdids.new ≡ register_step board sdids.old r }
{
    if r == 0 {
        return true;
    }
    if register::mode(r) != 1 {
        return false;
    }
    if register::wpri(r) != 0 {
        return false;
    }
    take(sdids, register::sdid(r).0 as usize)
}

// A loop of its own beside that of `tables`: one for both would take what it does from a closure over marks that change, and be no shorter.
fn registers(slots: [Word; 8], sdids: &mut Marks) -> bool
    ensures { scanned result sdids.new ≡ scan_all (register_step board) sdids.old slots }
{
    for r in slots {
        if !register(r, sdids) {
            return false;
        }
    }
    true
}

// What each call but a lookup asks first: "frame breaks its bounds", and then "table not sound", the registers of the open slots before
// their tables. If neither fits, each lent page is marked exactly when it is free, whatever marks the caller lent. (They are lent, and no part of the
// answer: behind a small refusal a compiler copied them from an odd place, on RISC-V by a call of `memcpy`.)
pub fn admit(f: Frame, words: &[Word], slots: [Word; 8], free: &mut Marks) -> Result<(), Refusal>
    ensures { AdmissionIs (frame_of f words.now) words.now slots result free.new }
{
    if !lent::frame_ok(f, words) {
        return Err(Refusal::Frame);
    }
    let mut sdids = all_marks();
    if !registers(slots, &mut sdids) {
        return Err(Refusal::NotSound);
    }
    *free = all_marks();
    if !tables(f, words, slots, free) {
        return Err(Refusal::NotSound);
    }
    Ok(())
}
