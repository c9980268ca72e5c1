// The calls on the frame of the bench cases, PAW 32 from page 0x80000, and a look at the entries. Each writes one line.
ghost use Rattle.std.specs.Prelude.{◌<◌};

use crate::say;
use monitor::Outcome;
use std::io;
use types::{Access, Address, Frame, Kind, PageNumber, Permission, Privilege, Sdid};

pub fn frame(paw: u64) -> Frame {
    Frame {
        paw,
        first: PageNumber(0x80000),
    }
}

// What an open or a close of slot 0 answers, with its register afterwards. The slots are those of the next call.
fn tell_slot(rt: &impl Print, outcome: Outcome) -> io::Result<[u64; 8]> {
    say::reply(rt, outcome.reply)?;
    print!(rt; ", register 0x{:x}", outcome.slots[0])?;
    say::fence(rt, outcome.fence)?;
    Ok(outcome.slots)
}

// Slot 0 opened, where all slots are empty.
pub fn open(rt: &impl Print, words: &mut [u64], sdid: u64) -> io::Result<[u64; 8]> {
    print!(rt; "open 0 with SDID {sdid}")?;
    tell_slot(rt, monitor::open(frame(32), words, [0; 8], 0, Sdid(sdid)))
}

pub fn close(rt: &impl Print, words: &[u64], slots: [u64; 8]) -> io::Result<[u64; 8]> {
    print!(rt; "close 0")?;
    tell_slot(rt, monitor::close(frame(32), words, slots, 0))
}

// Any edit. The slots that it leaves are those of the next call.
pub fn edit_in(
    rt: &impl Print,
    f: Frame,
    words: &mut [u64],
    slots: [u64; 8],
    slot: u64,
    p: Permission,
    start: u64,
    length: u64,
    limit: u64,
) -> io::Result<[u64; 8]> {
    print!(rt; "edit {slot}, {p} at 0x{start:x}, length 0x{length:x}, limit {limit}")?;
    let outcome = monitor::edit(f, words, slots, slot, Address(start), length, p, limit);
    say::reply(rt, outcome.reply)?;
    say::fence(rt, outcome.fence)?;
    Ok(outcome.slots)
}

// An edit of slot 0.
pub fn edit(
    rt: &impl Print,
    words: &mut [u64],
    slots: [u64; 8],
    p: Permission,
    start: u64,
    length: u64,
    limit: u64,
) -> io::Result<[u64; 8]> {
    edit_in(rt, frame(32), words, slots, 0, p, start, length, limit)
}

// The same of one page, whole: no edit has more than 1,536 stores.
pub fn page(
    rt: &impl Print,
    words: &mut [u64],
    slots: [u64; 8],
    p: Permission,
    start: u64,
) -> io::Result<[u64; 8]> {
    edit(rt, words, slots, p, start, 0x1000, 1536)
}

pub fn ask(
    rt: &impl Print,
    words: &[u64],
    slots: [u64; 8],
    what: &str,
    kind: Kind,
    a: u64,
) -> io::Result<()> {
    print!(rt; "{what} 0x{a:x}")?;
    let answer = monitor::lookup(
        frame(32),
        words,
        slots[0],
        Privilege::Supervisor,
        kind,
        Address(a),
    );
    say::answer(rt, answer)
}

pub fn load(rt: &impl Print, words: &[u64], slots: [u64; 8], a: u64) -> io::Result<()> {
    ask(rt, words, slots, "load", Kind::Itself(Access::Load), a)
}

// A word of the lent memory; 0 past its end, where no line of the program asks.
fn word_at(words: &[u64], at: usize) -> u64 {
    words.get(at).copied().unwrap_or(0)
}

// L2 entry b of the root, which is the first lent page.
pub fn l2(rt: &impl Print, words: &[u64], b: usize) -> io::Result<()> {
    println!(rt; "L2 entry {b}: 0x{:016x}", word_at(words, b))
}

// L1 entry i of the lent page that is n pages above the first.
pub fn l1(rt: &impl Print, words: &[u64], n: u64, i: u64) -> io::Result<()>
    requires page { n < 16 }
    requires entry { i < 512 }
{
    let page = 0x80000 + n;
    let word = word_at(words, (n * 512 + i) as usize);
    println!(rt; "page 0x{page:x} L1 entry {i}: 0x{word:016x}")
}

// How many of the n words from at are want, as a line.
pub fn tell(
    rt: &impl Print,
    words: &[u64],
    what: &str,
    at: usize,
    n: usize,
    want: u64,
) -> io::Result<()> {
    let same = words
        .iter()
        .skip(at)
        .take(n)
        .filter(|word| **word == want)
        .count();
    println!(rt; "{what}: {same} of 0x{want:016x}")
}
