// Document 01's bench cases C to K, each on a new domain of slot 0 with SDID 5, and edits of our own: limits, fences, a range over two GiBs, no rwx
// in slot 1, refusals. The memory is 16 pages from page 0x80000, full of ones before the first call; case K has two pages. Each line is one call, or
// entries as they stand.
#![tactic(auto)]

mod bench;
mod say;

use crate::bench::{ask, close, edit, edit_in, frame, l1, l2, load, open, page, tell};
use std::io;
use types::{Access, Kind, Permission};

// The edit of case C.
fn edit_c(
    rt: &impl Print,
    words: &mut [u64; 8192],
    slots: [u64; 8],
    limit: u64,
) -> io::Result<[u64; 8]> {
    edit(rt, words, slots, Permission::Rw, 0x4000_0000, 0x1000, limit)
}

fn case_c(rt: &impl Print, words: &mut [u64; 8192]) -> io::Result<[u64; 8]> {
    println!(rt; "case C")?;
    let slots = open(rt, words, 5)?;
    let slots = edit_c(rt, words, slots, 1536)?;
    l2(rt, words, 32)?;
    tell(
        rt,
        words,
        "L2 entries 33 to 63",
        33,
        31,
        0x0000_6000_0000_0000,
    )?;
    l1(rt, words, 1, 0)?;
    tell(rt, words, "page 0x80001 L1 entries 1 to 511", 513, 511, 0)?;
    Ok(slots)
}

fn case_d(rt: &impl Print, words: &mut [u64; 8192]) -> io::Result<()> {
    println!(rt; "case D, limit 512")?;
    let slots = open(rt, words, 5)?;
    let slots = edit_c(rt, words, slots, 512)?;
    load(rt, words, slots, 0x4000_0000)?;
    println!(rt; "case D, limit 513")?;
    let slots = open(rt, words, 5)?;
    let slots = edit_c(rt, words, slots, 513)?;
    load(rt, words, slots, 0x4000_0000)?;
    load(rt, words, slots, 0x4000_1000)?;
    let slots = edit_c(rt, words, slots, 1536)?;
    load(rt, words, slots, 0x4000_0000)?;
    load(rt, words, slots, 0x4000_1000)
}

// After C.
fn case_e(rt: &impl Print, words: &[u64; 8192], slots: [u64; 8]) -> io::Result<()> {
    println!(rt; "case E")?;
    ask(
        rt,
        words,
        slots,
        "store",
        Kind::Itself(Access::Store),
        0x4000_0FFF,
    )?;
    ask(
        rt,
        words,
        slots,
        "fetch",
        Kind::Itself(Access::Fetch),
        0x4000_0FFF,
    )?;
    ask(
        rt,
        words,
        slots,
        "page-table read for a store",
        Kind::TableRead(Access::Store),
        0x4000_1000,
    )
}

// After C. Then two pages by one store into an L1 entry, and one page by one store into an L2 entry: the fence is the domain's.
fn case_f(rt: &impl Print, words: &mut [u64; 8192], slots: [u64; 8]) -> io::Result<()> {
    println!(rt; "case F")?;
    let slots = edit(rt, words, slots, Permission::Rx, 0x4000_3000, 0x1000, 0)?;
    l1(rt, words, 1, 0)?;
    let slots = page(rt, words, slots, Permission::Rx, 0x4000_3000)?;
    l1(rt, words, 1, 0)?;
    let slots = page(rt, words, slots, Permission::Rx, 0x4000_3000)?;
    let slots = edit(rt, words, slots, Permission::Rx, 0x4000_3000, 0x2000, 1536)?;
    l1(rt, words, 1, 0)?;
    let slots = page(rt, words, slots, Permission::Rw, 0x4200_0000)?;
    l2(rt, words, 33)?;
    page(rt, words, slots, Permission::None, 0x4200_0000)?;
    l2(rt, words, 33)
}

// After C: a GiB of one permission.
fn case_g(rt: &impl Print, words: &mut [u64; 8192]) -> io::Result<[u64; 8]> {
    let slots = case_c(rt, words)?;
    println!(rt; "case G")?;
    let slots = edit(
        rt,
        words,
        slots,
        Permission::Rw,
        0x4000_0000,
        0x4000_0000,
        1536,
    )?;
    tell(
        rt,
        words,
        "L2 entries 32 to 63",
        32,
        32,
        0x0000_2000_0000_0000,
    )?;
    Ok(slots)
}

// One page in each of the first 16 blocks.
fn sixteen_blocks(rt: &impl Print, words: &mut [u64; 8192], slots: [u64; 8]) -> io::Result<()> {
    for i in 0..16u64 {
        page(rt, words, slots, Permission::Rw, i * 0x200_0000)?;
    }
    Ok(())
}

// After G: 15 pages are free, the one that C took among them, so that 15 of 16 blocks can have one.
fn fifteen_free(rt: &impl Print, words: &mut [u64; 8192], slots: [u64; 8]) -> io::Result<()> {
    println!(rt; "case G, 15 pages free")?;
    sixteen_blocks(rt, words, slots)?;
    l2(rt, words, 0)?;
    l2(rt, words, 14)?;
    l2(rt, words, 15)
}

// After G.
fn case_h(rt: &impl Print, words: &mut [u64; 8192], slots: [u64; 8]) -> io::Result<()> {
    println!(rt; "case H")?;
    edit(
        rt,
        words,
        slots,
        Permission::None,
        0x4020_0000,
        0x20_0000,
        1536,
    )?;
    l2(rt, words, 32)?;
    tell(
        rt,
        words,
        "L2 entries 33 to 63",
        33,
        31,
        0x0000_6000_AAAA_AAAA,
    )
}

fn case_i(rt: &impl Print, words: &mut [u64; 8192]) -> io::Result<()> {
    println!(rt; "case I")?;
    let slots = open(rt, words, 5)?;
    let slots = edit(rt, words, slots, Permission::Rw, 0xFFFF_F000, 0x2000, 1536)?;
    let slots = page(rt, words, slots, Permission::Rw, 0xFFFF_F000)?;
    l2(rt, words, 127)?;
    l1(rt, words, 1, 511)?;
    load(rt, words, slots, 0xFFFF_FFFF)?;
    load(rt, words, slots, 0x1_0000_0000)
}

fn case_j(rt: &impl Print, words: &mut [u64; 8192]) -> io::Result<()> {
    println!(rt; "case J")?;
    let slots = open(rt, words, 5)?;
    let slots = page(rt, words, slots, Permission::Rw, 0x8000_F000)?;
    let slots = page(rt, words, slots, Permission::None, 0x8000_F000)?;
    let slots = page(rt, words, slots, Permission::Rw, 0x8001_0000)?;
    l2(rt, words, 64)?;
    l1(rt, words, 1, 1)?;
    page(rt, words, slots, Permission::None, 0x8000_F000)?;
    Ok(())
}

// A memory of two pages. A limit of 0 gets refusal 7 as well, and 6 comes before 7.
fn case_k(rt: &impl Print) -> io::Result<()> {
    println!(rt; "case K")?;
    let mut memory = [0u64; 1024];
    let slots = open(rt, &mut memory, 5)?;
    let slots = page(rt, &mut memory, slots, Permission::Rw, 0x4000_0000)?;
    let slots = page(rt, &mut memory, slots, Permission::Rw, 0x4200_0000)?;
    let slots = edit(
        rt,
        &mut memory,
        slots,
        Permission::Rw,
        0x4200_0000,
        0x1000,
        0,
    )?;
    let slots = page(rt, &mut memory, slots, Permission::Rw, 0x8000_0000)?;
    let slots = page(rt, &mut memory, slots, Permission::None, 0x4000_0000)?;
    let slots = page(rt, &mut memory, slots, Permission::Rw, 0x4200_0000)?;
    l2(rt, &memory, 32)?;
    l2(rt, &memory, 33)?;
    load(rt, &memory, slots, 0x4000_0000)?;
    load(rt, &memory, slots, 0x4200_0000)
}

// No store, and more stores than there are.
fn limits(rt: &impl Print, words: &mut [u64; 8192]) -> io::Result<()> {
    println!(rt; "limits")?;
    let slots = open(rt, words, 5)?;
    let slots = edit_c(rt, words, slots, 0)?;
    tell(rt, words, "L2 entries 0 to 127", 0, 128, 0)?;
    let slots = edit_c(rt, words, slots, 0xFFFF_FFFF_FFFF_FFFF)?;
    edit_c(rt, words, slots, 0xFFFF_FFFF_FFFF_FFFF)?;
    Ok(())
}

// SDID 0 and address 0 are named in a fence like any other.
fn sdid_0(rt: &impl Print, words: &mut [u64; 8192]) -> io::Result<()> {
    println!(rt; "SDID 0")?;
    let slots = open(rt, words, 0)?;
    let slots = page(rt, words, slots, Permission::Rw, 0x1000)?;
    let slots = page(rt, words, slots, Permission::Rx, 0)?;
    l1(rt, words, 1, 0)?;
    close(rt, words, slots)?;
    Ok(())
}

// The two pages at 0xBFFFF000 lie in two GiBs, and each block takes a new page: whole, and cut after the first page is linked.
fn two_gibs(rt: &impl Print, words: &mut [u64; 8192]) -> io::Result<()> {
    println!(rt; "two GiBs")?;
    let slots = open(rt, words, 5)?;
    edit(rt, words, slots, Permission::Rw, 0xBFFF_F000, 0x2000, 1536)?;
    l2(rt, words, 95)?;
    l2(rt, words, 96)?;
    l1(rt, words, 1, 511)?;
    l1(rt, words, 2, 0)?;
    let slots = open(rt, words, 5)?;
    let slots = edit(rt, words, slots, Permission::Rw, 0xBFFF_F000, 0x2000, 544)?;
    load(rt, words, slots, 0xBFFF_F000)?;
    load(rt, words, slots, 0xC000_0000)?;
    let slots = edit(rt, words, slots, Permission::Rw, 0xBFFF_F000, 0x2000, 1536)?;
    load(rt, words, slots, 0xC000_0000)?;
    l2(rt, words, 96)
}

// Document 02, item 6: the same domain in slot 1 and in slot 0, which keeps rwx. A page that is rwx stays so until it is edited.
fn no_rwx(rt: &impl Print, words: &mut [u64; 8192]) -> io::Result<()> {
    println!(rt; "no rwx in slot 1")?;
    let slots = open(rt, words, 5)?;
    let f = frame(32);
    let one = [0, slots[0], 0, 0, 0, 0, 0, 0];
    let one = edit_in(
        rt,
        f,
        words,
        one,
        1,
        Permission::Rwx,
        0x4000_0000,
        0x1000,
        1536,
    )?;
    let one = edit_in(
        rt,
        f,
        words,
        one,
        1,
        Permission::Rwx,
        0x8000_F000,
        0x1000,
        1536,
    )?;
    let one = edit_in(
        rt,
        f,
        words,
        one,
        1,
        Permission::Rwx,
        0x8000_F000,
        0x800,
        1536,
    )?;
    let one = edit_in(
        rt,
        f,
        words,
        one,
        1,
        Permission::Rx,
        0x4000_0000,
        0x1000,
        1536,
    )?;
    page(rt, words, slots, Permission::Rwx, 0x4000_0000)?;
    l1(rt, words, 1, 0)?;
    let one = edit_in(
        rt,
        f,
        words,
        one,
        1,
        Permission::Rwx,
        0x4000_0000,
        0x1000,
        0,
    )?;
    edit_in(
        rt,
        f,
        words,
        one,
        1,
        Permission::Rw,
        0x4000_1000,
        0x1000,
        1536,
    )?;
    l1(rt, words, 1, 0)
}

// Refusals 4 and 5: each comes before those with a higher number.
fn refusals(rt: &impl Print, words: &mut [u64; 8192]) -> io::Result<[u64; 8]> {
    println!(rt; "refusals")?;
    let slots = open(rt, words, 5)?;
    let f = frame(32);
    let slots = edit_in(rt, f, words, slots, 1, Permission::Rw, 0x4000_0000, 0, 1536)?;
    let slots = edit_in(rt, f, words, slots, 8, Permission::Rw, 0x4000_0000, 0, 1536)?;
    let slots = edit(rt, words, slots, Permission::Rw, 0x4000_0000, 0, 1536)?;
    let slots = edit(rt, words, slots, Permission::Rw, 0x4000_0800, 0x1000, 1536)?;
    let slots = edit(rt, words, slots, Permission::Rw, 0x8000_F000, 0x800, 1536)?;
    let slots = page(rt, words, slots, Permission::Rw, 0x1_0000_0000)?;
    let slots = page(rt, words, slots, Permission::Rw, 0xFFFF_FFFF_FFFF_F000)?;
    tell(rt, words, "L2 entries 0 to 127", 0, 128, 0)?;
    Ok(slots)
}

// An L2 entry of TYPE 5.
fn spoil(words: &mut [u64; 8192]) {
    words[127] = 0x0000_5000_0000_0000;
}

// Refusals 3 and 1, likewise.
fn not_sound(rt: &impl Print, words: &mut [u64; 8192], slots: [u64; 8]) -> io::Result<()> {
    spoil(words);
    let slots = edit_in(rt, frame(32), words, slots, 8, Permission::Rw, 0, 0, 0)?;
    edit_in(rt, frame(35), words, slots, 8, Permission::Rw, 0, 0, 0)?;
    Ok(())
}

fn main(rt: HostRuntime) -> io::Result<()> {
    let mut words = [0xFFFF_FFFF_FFFF_FFFFu64; 8192];
    let slots = case_c(&rt, &mut words)?;
    case_e(&rt, &words, slots)?;
    case_f(&rt, &mut words, slots)?;
    case_d(&rt, &mut words)?;
    let slots = case_g(&rt, &mut words)?;
    fifteen_free(&rt, &mut words, slots)?;
    let slots = case_g(&rt, &mut words)?;
    case_h(&rt, &mut words, slots)?;
    case_i(&rt, &mut words)?;
    case_j(&rt, &mut words)?;
    case_k(&rt)?;
    limits(&rt, &mut words)?;
    sdid_0(&rt, &mut words)?;
    two_gibs(&rt, &mut words)?;
    no_rwx(&rt, &mut words)?;
    let slots = refusals(&rt, &mut words)?;
    not_sound(&rt, &mut words, slots)
}
