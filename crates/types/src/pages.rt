// Pages, blocks and GiBs, which are the same on every board, and where they lie, seen from the range of an edit.
ghost use Rattle.std.specs.Prelude.{◌≡◌, ◌+◌, ◌*◌, ◌%◌, ◌≤◌, ◌<◌, ◌^◌};
ghost use Rattle.model.specs.Frame as frame;
ghost use Rattle.model.specs.Layout.{block_pages, gib_blocks};
ghost use Rattle.model.specs.Walk as walk;
ghost use Rattle.types.specs.Range.{Fair, Lies, Meets, Cut};
ghost use Rattle.types.specs.Views.{request_of};

use crate::{Address, PageNumber, Place, Request};

// "whole pages of 4,096 bytes"
pub const PAGE_BYTES: u64 = 4096;

// "One entry speaks for 32 MiB, called a block": 8,192 pages.
pub const BLOCK_PAGES: u64 = 8192;

pub const BLOCK_BYTES: u64 = BLOCK_PAGES * PAGE_BYTES;

// "a GiB of one permission is 32 entries of that 1G type"
pub const GIB_BLOCKS: u64 = 32;

pub const GIB_PAGES: u64 = GIB_BLOCKS * BLOCK_PAGES;

pub const GIB_BYTES: u64 = GIB_BLOCKS * BLOCK_BYTES;

// The page number of an address.
#[tactic(auto, unfolding(model::specs::Frame::page_of))]
pub fn page_of(a: Address) -> PageNumber
    ensures { result.0 ≡ frame.page_of a.0 }
{
    PageNumber(a.0 / PAGE_BYTES)
}

// The block that a page lies in.
#[tactic(auto, unfolding(model::specs::Walk::pn2))]
pub fn pn2(page: PageNumber) -> u64
    ensures { result ≡ walk.pn2 page.0 }
{
    page.0 / BLOCK_PAGES
}

// Where the n pages from page s lie. A request is enough, here and below, and no whole edit is asked for: neither a frame nor a root says it.
pub fn lies(q: Request, s: u64, n: u64) -> Place
    requires { (s + n ≤ 2 ^ 44) × Fair q }
    ensures { Lies (request_of q) s n result }
{
    let start = q.start.0;
    let end = q.start.0 + q.size;
    let low = s * PAGE_BYTES;
    let high = (s + n) * PAGE_BYTES;
    if high <= start {
        return Place::Outside;
    }
    if end <= low {
        return Place::Outside;
    }
    if low < start {
        return Place::Across;
    }
    if end < high {
        return Place::Across;
    }
    Place::Inside
}

// One of the n pages from page s lies in the range.
pub fn meets(q: Request, s: u64, n: u64) -> bool
    requires { (s + n ≤ 2 ^ 44) × (0 < n) × Fair q }
    ensures { Meets (request_of q) s n result }
{
    let start = q.start.0;
    let end = q.start.0 + q.size;
    if (s + n) * PAGE_BYTES <= start {
        return false;
    }
    if end <= s * PAGE_BYTES {
        return false;
    }
    true
}

// How many of the n numbers from s lie below end.
pub fn cut(end: u64, s: u64, n: u64) -> u64
    requires { s + n ≤ 2 ^ 44 }
    ensures { Cut end s n result }
{
    end.saturating_sub(s).min(n)
}

// How many blocks from b on lie outside the range, up to the end of their GiB.
pub fn blocks_outside(q: Request, b: u64) -> u64
    requires { (b < 2 ^ 31) × Fair q }
    ensures { (b % gib_blocks + result ≤ gib_blocks) × Lies (request_of q) (b * block_pages) (result * block_pages) Place.Outside }
{
    let rest = GIB_BLOCKS - b % GIB_BLOCKS;
    if q.start.0 + q.size <= b * BLOCK_BYTES {
        return rest;
    }
    cut(q.start.0 / BLOCK_BYTES, b, rest)
}
