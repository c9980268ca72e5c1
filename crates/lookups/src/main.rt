// The lookups of document 01's bench cases A, E and I, of item 3 of document 02, and of the slips that they name, on a table memory that is
// put together here word by word. Two pages from page 0x80000 are enough for these cases: a root and one L1 page. Each line is one lookup.
#![tactic(auto)]

use lookup::lookup;
use std::io;
use types::{Access, Address, Answer, Frame, Kind, PageNumber, Privilege, Refusal};

// Slot 0 opened with SDID 5 at page 0x80000.
const REGISTER: u64 = 0x1140_0000_0008_0000;

// One line: what was asked, the address and the answer.
fn say(rt: &impl Print, what: &str, a: u64, answer: Result<Answer, Refusal>) -> io::Result<()> {
    match answer {
        Ok(answer) => println!(rt; "{what} 0x{a:x}: {answer}"),
        Err(why) => println!(rt; "{what} 0x{a:x}: {why}"),
    }
}

// A lookup in the frame of the bench cases: PAW 32, from page 0x80000.
fn ask(
    rt: &impl Print,
    what: &str,
    words: &[u64],
    register: u64,
    who: Privilege,
    kind: Kind,
    a: u64,
) -> io::Result<()> {
    let f = Frame {
        paw: 32,
        first: PageNumber(0x80000),
    };
    say(
        rt,
        what,
        a,
        lookup(f, words, register, who, kind, Address(a)),
    )
}

// The same in supervisor mode with slot 0's register.
fn in_domain(rt: &impl Print, what: &str, words: &[u64], kind: Kind, a: u64) -> io::Result<()> {
    ask(rt, what, words, REGISTER, Privilege::Supervisor, kind, a)
}

// The same of an access itself.
fn itself(rt: &impl Print, words: &[u64], access: Access, a: u64) -> io::Result<()> {
    let what = match access {
        Access::Fetch => "fetch",
        Access::Load => "load",
        Access::Store => "store",
    };
    in_domain(rt, what, words, Kind::Itself(access), a)
}

// Case C: entry 32 names the L1 page 0x80001, whose first field is rw, and entries 33 to 63 are TYPE 6.
fn case_c(words: &mut [u64; 1024]) {
    words[32] = 0x0000_4000_0008_0001;
    words[33..64].fill(0x0000_6000_0000_0000);
    words[512] = 0x2;
}

// Case E, and the same page for the other kinds.
fn case_e(rt: &impl Print, words: &[u64; 1024]) -> io::Result<()> {
    itself(rt, words, Access::Load, 0x4000_0000)?;
    itself(rt, words, Access::Store, 0x4000_0FFF)?;
    itself(rt, words, Access::Fetch, 0x4000_0FFF)?;
    in_domain(
        rt,
        "page-table read for a store",
        words,
        Kind::TableRead(Access::Store),
        0x4000_1000,
    )?;
    in_domain(
        rt,
        "page-table read for a fetch",
        words,
        Kind::TableRead(Access::Fetch),
        0x4000_1000,
    )?;
    in_domain(
        rt,
        "page-table read for a store",
        words,
        Kind::TableRead(Access::Store),
        0x4000_0000,
    )?;
    in_domain(
        rt,
        "update for a load",
        words,
        Kind::Update(Access::Load),
        0x4000_1000,
    )?;
    in_domain(
        rt,
        "update for a load",
        words,
        Kind::Update(Access::Load),
        0x4000_0000,
    )?;
    itself(rt, words, Access::Load, 0x4200_0000)
}

// Registers, on the memory of case C.
fn registers(rt: &impl Print, words: &[u64; 1024]) -> io::Result<()> {
    let user = Privilege::User;
    let kind = Kind::Itself(Access::Load);
    let a = 0x4000_0000;
    ask(
        rt,
        "SDID 0, load",
        words,
        0x1000_0000_0008_0000,
        user,
        kind,
        a,
    )?;
    ask(
        rt,
        "WPRI set, load",
        words,
        0x117F_F000_0008_0000,
        user,
        kind,
        a,
    )?;
    ask(
        rt,
        "root not lent, load",
        words,
        0x1140_0000_0008_0002,
        user,
        kind,
        a,
    )?;
    ask(
        rt,
        "MODE 2, load",
        words,
        0x2140_0000_0008_0000,
        user,
        kind,
        a,
    )?;
    ask(rt, "Bare with PPN, load", words, 0x8_0000, user, kind, a)?;
    ask(
        rt,
        "Bare with SDID, load",
        words,
        0x0140_0000_0000_0000,
        user,
        kind,
        a,
    )?;
    ask(
        rt,
        "Bare with WPRI, load",
        words,
        0x1000_0000_0000,
        user,
        kind,
        0x1_0000_0000,
    )?;
    ask(rt, "Bare, load", words, 0, user, kind, 0x1_0000_0000)?;
    ask(
        rt,
        "M mode, load",
        words,
        REGISTER,
        Privilege::Machine,
        kind,
        0x1_0000_0000,
    )?;
    ask(
        rt,
        "M mode and MODE 2, load",
        words,
        0x2140_0000_0008_0000,
        Privilege::Machine,
        kind,
        a,
    )
}

// Memory that is not whole pages, with a register that would be refused too: the frame comes first.
fn one_word_short(rt: &impl Print) -> io::Result<()> {
    let short = [0u64; 1023];
    let kind = Kind::Itself(Access::Load);
    ask(
        rt,
        "one word short, load",
        &short,
        0x2140_0000_0008_0000,
        Privilege::User,
        kind,
        0x4000_0000,
    )
}

// The fields of L1 entries: a reserved bit stops every page of its entry, whichever field has it, and none of the next; and an address whose
// indices all differ.
fn fields(rt: &impl Print, words: &mut [u64; 1024]) -> io::Result<()> {
    words[512] = 0x4000_0000_0000_0002;
    words[513] = 0x2;
    words[514] = 0x6000_0000_0000_0000;
    words[515] = 0x2000_0000_0000_0004;
    itself(rt, words, Access::Load, 0x4000_0000)?;
    itself(rt, words, Access::Load, 0x4000_F000)?;
    itself(rt, words, Access::Load, 0x4001_0000)?;
    itself(rt, words, Access::Load, 0x4002_F000)?;
    itself(rt, words, Access::Store, 0x4003_F000)?;
    words[512 + 18] = 0x1000;
    itself(rt, words, Access::Fetch, 0x4012_3456)?;
    itself(rt, words, Access::Store, 0x4012_3456)?;
    itself(rt, words, Access::Fetch, 0x4012_2FFF)?;
    itself(rt, words, Access::Fetch, 0x4013_3000)
}

// L2 entry 32 as given, and one load.
fn with_entry(rt: &impl Print, words: &mut [u64; 1024], entry: u64, a: u64) -> io::Result<()> {
    words[32] = entry;
    itself(rt, words, Access::Load, a)
}

// The rules of L2 entries.
fn entries(rt: &impl Print, words: &mut [u64; 1024]) -> io::Result<()> {
    // an L1 page whose number has the same low 32 bits as a lent one
    with_entry(rt, words, 0x0000_4001_0008_0001, 0x4000_0000)?;
    // TYPE 2, and with INFO not zero, with ZERO not zero
    with_entry(rt, words, 0x0000_2000_0000_0000, 0x4000_0000)?;
    with_entry(rt, words, 0x0000_2000_0000_0001, 0x4000_0000)?;
    with_entry(rt, words, 0x0000_A000_0000_0000, 0x4000_0000)?;
    // TYPE 6, piece 1 alone: 0x40200000 to 0x403FFFFF; and with bit 32 of INFO set
    with_entry(rt, words, 0x0000_6000_0000_0008, 0x401F_FFFF)?;
    with_entry(rt, words, 0x0000_6000_0000_0008, 0x4020_0000)?;
    with_entry(rt, words, 0x0000_6000_0000_0008, 0x4040_0000)?;
    with_entry(rt, words, 0x0000_6001_0000_0008, 0x4020_0000)?;
    // TYPE 5 and 7
    with_entry(rt, words, 0x0000_5000_0000_0000, 0x4000_0000)?;
    with_entry(rt, words, 0x0000_7000_0000_0000, 0x4000_0000)
}

fn main(rt: HostRuntime) -> io::Result<()> {
    let mut words = [0u64; 1024];
    // case A, and the last sentence of case I
    itself(&rt, &words, Access::Load, 0x4000_0000)?;
    itself(&rt, &words, Access::Load, 0x1_0000_0000)?;
    case_c(&mut words);
    case_e(&rt, &words)?;
    registers(&rt, &words)?;
    one_word_short(&rt)?;
    fields(&rt, &mut words)?;
    entries(&rt, &mut words)
}
