// The GiBs that a range touches, and the new pages that the whole edit takes.
ghost use Rattle.model.specs.Layout.{gib_blocks};
ghost use Rattle.std.specs.Prelude.{◌≡◌, false, ◌&&◌, eqb, ◌+◌, ◌*◌, ◌/◌, ◌%◌, ◌≤◌, ◌<◌, if◌then◌else◌};
ghost use Rattle.table.specs.Board.{PIECE-BYTES, frame_of};
ghost use Rattle.shapes.specs.Blocks.{GibIs, Ranged, whole_pages};
ghost use Rattle.model.specs.Forms.{form_in, gib_is_one};
ghost use Rattle.model.specs.Frame.{blocks};
ghost use Rattle.model.specs.Stores.{needs_page};
ghost use Rattle.model.specs.Walk.{entry_at};
ghost use Rattle.shapes.specs.Rooted.{Rooted};
ghost use Rattle.types.specs.Views.{request_of};

use crate::block::Block;
use crate::blocks::block_form;
use crate::pieces::{block_is, piece_first};
use table::board::{PIECE_BYTES, Word};
use table::root::entry_at;
use types::needed_page::needs_page;
use types::pages::{BLOCK_BYTES, BLOCK_PAGES, GIB_BLOCKS, GIB_PAGES, lies, meets};
use types::{Edit, Form, Place, Request};

// All blocks of GiB g are of permission p.
fn blocks_are(edit: Edit, words: &[Word], g: u64, p: u64) -> bool
    requires { Rooted (frame_of edit.f words.now) words.now edit.root.0 × (g * gib_blocks + gib_blocks ≤ blocks (frame_of edit.f words.now)) × (p < 4) }
    ensures { result ≡ gib_is_one (frame_of edit.f words.now) words.now (request_of edit.q) edit.root.0 g p }
{
    for i in 0..GIB_BLOCKS {
        let b = g * GIB_BLOCKS + i;
        let e = entry_at(edit.f, words, edit.root, b);
        if !block_is(edit, words, Block { b, e }, p) {
            return false;
        }
    }
    true
}

// The one permission of a GiB, once the edit is whole; as an error, that of its first page, if it has not one. A GiB wholly in the range has the asked one,
// without a read.
fn gib_of(edit: Edit, words: &[Word], g: u64) -> Result<u64, u64>
    requires { Rooted (frame_of edit.f words.now) words.now edit.root.0 × (g * gib_blocks + gib_blocks ≤ blocks (frame_of edit.f words.now)) }
    ensures { GibIs (frame_of edit.f words.now) words.now (request_of edit.q) edit.root.0 g result }
{
    match lies(edit.q, g * GIB_PAGES, GIB_PAGES) {
        Place::Inside => Ok(edit.q.permission),
        Place::Outside | Place::Across => read_gib(edit, words, g),
    }
}

// A GiB whose first page has another permission than the asked one is mixed, if the range has a page of it.
fn read_gib(edit: Edit, words: &[Word], g: u64) -> Result<u64, u64>
    requires { Rooted (frame_of edit.f words.now) words.now edit.root.0 × (g * gib_blocks + gib_blocks ≤ blocks (frame_of edit.f words.now)) }
    ensures { GibIs (frame_of edit.f words.now) words.now (request_of edit.q) edit.root.0 g result }
{
    let b = g * GIB_BLOCKS;
    let e = entry_at(edit.f, words, edit.root, b);
    let p = piece_first(edit, words, Block { b, e }, 0);
    if p != edit.q.permission && meets(edit.q, b * BLOCK_PAGES, GIB_PAGES) {
        return Err(p);
    }
    if blocks_are(edit, words, g, p) {
        return Ok(p);
    }
    Err(p)
}

// The first block of a GiB decides for its GiB, before the GiB's first store.
pub fn gib_at(edit: Edit, words: &[Word], b: u64, gib: Result<u64, u64>) -> Result<u64, u64>
    requires { Rooted (frame_of edit.f words.now) words.now edit.root.0 × (b / gib_blocks * gib_blocks + gib_blocks ≤ blocks (frame_of edit.f words.now))
        × ((b % gib_blocks ≡ 0 → ⊥) → GibIs (frame_of edit.f words.now) words.now (request_of edit.q) edit.root.0 (b / gib_blocks) gib) }
    ensures { GibIs (frame_of edit.f words.now) words.now (request_of edit.q) edit.root.0 (b / gib_blocks) result }
{
    if b % GIB_BLOCKS == 0 {
        return gib_of(edit, words, b / GIB_BLOCKS);
    }
    gib
}

// 1 for a block that takes a new page, 0 for any other, from its entry. The GiB need not be known: no block of a GiB of one permission
// has mixed pieces.
fn read_page(edit: Edit, words: &[Word], b: u64) -> u64
    requires { Rooted (frame_of edit.f words.now) words.now edit.root.0 × (b < blocks (frame_of edit.f words.now)) }
    ensures { result ≡ (if needs_page (form_in (frame_of edit.f words.now) words.now (request_of edit.q) false 0
        (entry_at (frame_of edit.f words.now) words.now edit.root.0 b) b)
        (entry_at (frame_of edit.f words.now) words.now edit.root.0 b) then 1 else 0) }
{
    let e = entry_at(edit.f, words, edit.root, b);
    if !needs_page(Form::Table, e) {
        return 0;
    }
    u64::from(needs_page(block_form(edit, words, None, Block { b, e }), e))
}

// The same; a block inside the range takes none, and is not read.
fn block_new_pages(edit: Edit, words: &[Word], b: u64) -> u64
    requires { Rooted (frame_of edit.f words.now) words.now edit.root.0 × (b < blocks (frame_of edit.f words.now)) }
    ensures { result ≡ (if needs_page (form_in (frame_of edit.f words.now) words.now (request_of edit.q) false 0
        (entry_at (frame_of edit.f words.now) words.now edit.root.0 b) b)
        (entry_at (frame_of edit.f words.now) words.now edit.root.0 b) then 1 else 0) }
{
    match lies(edit.q, b * BLOCK_PAGES, BLOCK_PAGES) {
        Place::Inside => 0,
        Place::Outside | Place::Across => read_page(edit, words, b),
    }
}

// The range begins and ends between pieces.
fn whole_pieces(q: Request) -> bool
    ensures { result ≡ (eqb (q.start.0 % PIECE-BYTES) 0 && eqb (q.size % PIECE-BYTES) 0) }
{
    q.start.0 % PIECE_BYTES == 0 && q.size % PIECE_BYTES == 0
}

// How many new pages the whole edit takes: only the blocks at the two ends of the range can take one, and those of whole pieces take none.
pub fn new_pages(edit: Edit, words: &[Word]) -> u64
    requires { Ranged (frame_of edit.f words.now) words.now (request_of edit.q) edit.root.0 }
    ensures { (result ≡ whole_pages (frame_of edit.f words.now) words.now (request_of edit.q) edit.root.0) × (result ≤ 2) }
{
    if whole_pieces(edit.q) {
        return 0;
    }
    let low = edit.q.start.0 / BLOCK_BYTES;
    let high = (edit.q.start.0 + edit.q.size - 1) / BLOCK_BYTES;
    let at_low = block_new_pages(edit, words, low);
    if low == high {
        return at_low;
    }
    at_low + block_new_pages(edit, words, high)
}
