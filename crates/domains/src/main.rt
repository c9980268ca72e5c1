// Opens and closes all eight slots, takes pages and SDIDs again, and meets each refusal of these two calls. The frame is PAW 32 with eight
// pages from page 0x80000, so that eight roots fill it. Each line is one call, or how many words of a page are not zero.
#![tactic(auto)]

ghost use Rattle.std.specs.Prelude.{◌<◌};

use monitor::{Outcome, Reply};
use std::io;
use types::{Access, Address, Fence, Frame, Kind, PageNumber, Privilege, Refusal, Sdid};

fn frame() -> Frame {
    Frame {
        paw: 32,
        first: PageNumber(0x80000),
    }
}

// A reply and a fence in this program's own words; `edits` tells more of a reply, and the address of a fence in base 16.
fn say_reply(rt: &impl Print, reply: Result<Reply, Refusal>) -> io::Result<()> {
    match reply {
        Ok(Reply::Opened) => print!(rt; ": opened"),
        Ok(Reply::Closed) => print!(rt; ": closed"),
        Ok(Reply::Edited(_, _)) => print!(rt; ": edited"),
        Err(why) => print!(rt; ": {why}"),
    }
}

fn say_fence(rt: &impl Print, fence: Fence) -> io::Result<()> {
    match fence {
        Fence::Nothing => println!(rt; ", no fence"),
        Fence::Domain(sdid) => println!(rt; ", fence of domain {}", sdid.0),
        Fence::One(address, sdid) => println!(rt; ", fence of domain {} at {}", sdid.0, address.0),
    }
}

// A slot above 7 shows as register 0: what the program writes is fixed.
fn register_of(slots: [u64; 8], slot: u64) -> u64 {
    slots.get(slot as usize).copied().unwrap_or(0)
}

// The answer, the slot's register afterwards, and the fence, as what the program writes has them.
fn say(rt: &impl Print, outcome: Outcome, slot: u64) -> io::Result<()> {
    say_reply(rt, outcome.reply)?;
    print!(rt; ", register 0x{:x}", register_of(outcome.slots, slot))?;
    say_fence(rt, outcome.fence)
}

fn open_in(
    rt: &impl Print,
    f: Frame,
    words: &mut [u64; 4096],
    slots: [u64; 8],
    slot: u64,
    sdid: u64,
) -> io::Result<[u64; 8]> {
    print!(rt; "open {slot} with SDID {sdid}")?;
    let outcome = monitor::open(f, words, slots, slot, Sdid(sdid));
    say(rt, outcome, slot)?;
    Ok(outcome.slots)
}

fn close_in(
    rt: &impl Print,
    f: Frame,
    words: &[u64; 4096],
    slots: [u64; 8],
    slot: u64,
) -> io::Result<[u64; 8]> {
    print!(rt; "close {slot}")?;
    let outcome = monitor::close(f, words, slots, slot);
    say(rt, outcome, slot)?;
    Ok(outcome.slots)
}

fn open(
    rt: &impl Print,
    words: &mut [u64; 4096],
    slots: [u64; 8],
    slot: u64,
    sdid: u64,
) -> io::Result<[u64; 8]> {
    open_in(rt, frame(), words, slots, slot, sdid)
}

fn close(rt: &impl Print, words: &[u64; 4096], slots: [u64; 8], slot: u64) -> io::Result<[u64; 8]> {
    close_in(rt, frame(), words, slots, slot)
}

// Bench case A: a load on the domain of slot 0.
fn load(rt: &impl Print, words: &[u64; 4096], slots: [u64; 8], a: u64) -> io::Result<()> {
    print!(rt; "load 0x{a:x}: ")?;
    let kind = Kind::Itself(Access::Load);
    match monitor::lookup(frame(), words, slots[0], Privilege::User, kind, Address(a)) {
        Ok(answer) => println!(rt; "{answer}"),
        Err(why) => println!(rt; "{why}"),
    }
}

// How many of the 512 words of lent page n, from 0, are not zero.
fn count(rt: &impl Print, words: &[u64; 4096], n: u64) -> io::Result<()>
    requires { n < 8 }
{
    let first = n as usize * 512;
    let set = words[first..first + 512]
        .iter()
        .filter(|word| **word != 0)
        .count();
    println!(rt; "page {n}: {set} words not zero")
}

// All eight slots, SDID 0 and 63 among them; and what is refused on the way.
fn fill(rt: &impl Print, words: &mut [u64; 4096], slots: [u64; 8]) -> io::Result<[u64; 8]> {
    let slots = open(rt, words, slots, 0, 5)?;
    count(rt, words, 0)?;
    count(rt, words, 1)?;
    load(rt, words, slots, 0x4000_0000)?;
    let slots = open(rt, words, slots, 0, 1)?;
    let slots = open(rt, words, slots, 8, 1)?;
    let slots = open(rt, words, slots, 1, 0)?;
    let slots = open(rt, words, slots, 2, 63)?;
    let slots = open(rt, words, slots, 3, 1)?;
    let slots = open(rt, words, slots, 4, 0)?;
    let slots = open(rt, words, slots, 4, 64)?;
    let slots = open(rt, words, slots, 4, 2)?;
    let slots = open(rt, words, slots, 5, 3)?;
    let slots = open(rt, words, slots, 6, 4)?;
    count(rt, words, 7)?;
    let slots = open(rt, words, slots, 7, 6)?;
    count(rt, words, 7)?;
    Ok(slots)
}

// Pages and SDIDs are taken again, the lowest page first.
fn again(rt: &impl Print, words: &mut [u64; 4096], slots: [u64; 8]) -> io::Result<[u64; 8]> {
    let slots = close(rt, words, slots, 3)?;
    let slots = open(rt, words, slots, 3, 1)?;
    let slots = close(rt, words, slots, 1)?;
    let slots = close(rt, words, slots, 0)?;
    let slots = close(rt, words, slots, 0)?;
    let slots = close(rt, words, slots, 8)?;
    let slots = open(rt, words, slots, 1, 5)?;
    open(rt, words, slots, 0, 0)
}

// The last free page is named by an entry, so that there is no room; 8 comes before 7.
fn no_room(rt: &impl Print, words: &mut [u64; 4096], slots: [u64; 8]) -> io::Result<[u64; 8]> {
    let slots = close(rt, words, slots, 7)?;
    words[31] = 0x0000_4000_0008_0007;
    let slots = open(rt, words, slots, 7, 6)?;
    let slots = open(rt, words, slots, 7, 5)?;
    words[31] = 0;
    open(rt, words, slots, 7, 6)
}

// A table that is not sound, and a frame that breaks its bounds: 1 comes before 3, and 3 before 4.
fn unsound(rt: &impl Print, words: &mut [u64; 4096], slots: [u64; 8]) -> io::Result<()> {
    let wide = Frame {
        paw: 35,
        first: PageNumber(0x80000),
    };
    words[127] = 0x0000_5000_0000_0000;
    open(rt, words, slots, 8, 1)?;
    close(rt, words, slots, 8)?;
    open_in(rt, wide, words, slots, 8, 1)?;
    close_in(rt, wide, words, slots, 8)?;
    // beyond the first 2^(PAW-25) entries nothing is read
    words[127] = 0;
    words[128] = 0x0000_5000_0000_0000;
    close(rt, words, slots, 0)?;
    // the table is sound, but for a register with MODE 2
    let mut other = slots;
    other[6] = 0x2000_0000_0008_0006;
    close(rt, words, other, 0)?;
    Ok(())
}

fn main(rt: HostRuntime) -> io::Result<()> {
    let mut words = [0xFFFF_FFFF_FFFF_FFFFu64; 4096];
    let slots = [0u64; 8];
    let slots = fill(&rt, &mut words, slots)?;
    let slots = again(&rt, &mut words, slots)?;
    let slots = no_room(&rt, &mut words, slots)?;
    unsound(&rt, &mut words, slots)
}
