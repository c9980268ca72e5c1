// Pieces of a block, and whole blocks: are they of one permission once the edit is whole?
ghost use Rattle.model.specs.Layout.{block_pages};
ghost use Rattle.std.specs.Prelude.{◌≡◌, ◌+◌, ◌*◌, ◌≤◌, ◌<◌, eqb, length, get_or};
ghost use Rattle.types.specs.Range.{Lies};
ghost use Rattle.table.specs.Board.{PAGE-WORDS, FIELDS, PIECES, PIECE-PAGES, PIECE-WORDS, frame_of};
ghost use Rattle.shapes.specs.Blocks.{PieceIs};
ghost use Rattle.model.specs.Forms.{all_are, after_in};
ghost use Rattle.model.specs.Numbers.{every};
ghost use Rattle.types.specs.Views.{entry_of, request_of};
ghost use Rattle.shapes.specs.Rooted.{Good};

use crate::block::Block;
use crate::words::{after_word, old_word, spread};
use table::board::{EACH_PIECE, PIECE_PAGES, PIECE_WORDS, PIECES, Word, wide};
use table::lent::page_at;
use table::word::{FIELD_VALUES, piece};
use types::pages::{BLOCK_PAGES, lies};
use types::{Edit, Entry, Place};

// The L1 entries of a piece, from entry i of the block on, are all of permission p, once the edit is whole.
fn words_are(edit: Edit, words: &[Word], block: Block, i: u64, p: u64) -> bool
    requires { (i + PIECE-WORDS ≤ PAGE-WORDS) × (p < 4) × Good (frame_of edit.f words.now) words.now (entry_of block.e) }
    ensures { result ≡ all_are (frame_of edit.f words.now) words.now (request_of edit.q) (entry_of block.e) p PIECE-PAGES (block.b * block_pages + i * FIELDS) }
{
    let want = spread(p);
    for j in 0..PIECE_WORDS {
        if after_word(edit, words, block, i + j) != want {
            return false;
        }
    }
    true
}

// The words of a piece, from at on, are all want.
fn same_words(words: &[Word], at: usize, want: Word) -> bool
    requires { at + PIECE-WORDS ≤ length words.now }
    ensures { result ≡ every (λ k. eqb (get_or words.now k 0) want) PIECE-WORDS at }
{
    for &word in &words[at..at + PIECE_WORDS as usize] {
        if word != want {
            return false;
        }
    }
    true
}

// Piece i of a block, outside the range.
fn old_piece_is(edit: Edit, words: &[Word], block: Block, i: u64, p: u64) -> bool
    requires { (i < PIECES) × (p < 4) × Good (frame_of edit.f words.now) words.now (entry_of block.e) × Lies (request_of edit.q) (block.b * block_pages + i * PIECE-PAGES) PIECE-PAGES Place.Outside }
    ensures { result ≡ all_are (frame_of edit.f words.now) words.now (request_of edit.q) (entry_of block.e) p PIECE-PAGES (block.b * block_pages + i * PIECE-PAGES) }
{
    match block.e {
        Entry::Flat(o) => o == p,
        Entry::Pieces(info) => piece(info, i) == p,
        Entry::Table(t) => {
            let at = page_at(edit.f, words, t) + (i * PIECE_WORDS) as usize;
            same_words(words, at, spread(p))
        }
        Entry::Invalid => p == 0,
    }
}

// Piece i of a block is all of permission p, once the edit is whole.
fn piece_is(edit: Edit, words: &[Word], block: Block, i: u64, p: u64) -> bool
    requires { (i < PIECES) × (p < 4) × Good (frame_of edit.f words.now) words.now (entry_of block.e) }
    ensures { result ≡ all_are (frame_of edit.f words.now) words.now (request_of edit.q) (entry_of block.e) p PIECE-PAGES (block.b * block_pages + i * PIECE-PAGES) }
{
    match lies(edit.q, block.b * BLOCK_PAGES + i * PIECE_PAGES, PIECE_PAGES) {
        Place::Inside => edit.q.permission == p,
        Place::Outside => old_piece_is(edit, words, block, i, p),
        Place::Across => words_are(edit, words, block, i * PIECE_WORDS, p),
    }
}

// A block is all of permission p, once the edit is whole: each of its pieces is.
fn pieces_are(edit: Edit, words: &[Word], block: Block, p: u64) -> bool
    requires { (p < 4) × Good (frame_of edit.f words.now) words.now (entry_of block.e) }
    ensures { result ≡ all_are (frame_of edit.f words.now) words.now (request_of edit.q) (entry_of block.e) p block_pages (block.b * block_pages) }
{
    for i in 0..PIECES {
        if !piece_is(edit, words, block, i, p) {
            return false;
        }
    }
    true
}

// The same for a block outside the range: its entry says it, unless it has an L1 page.
fn old_block_is(edit: Edit, words: &[Word], block: Block, p: u64) -> bool
    requires { (p < 4) × Good (frame_of edit.f words.now) words.now (entry_of block.e) × Lies (request_of edit.q) (block.b * block_pages) block_pages Place.Outside }
    ensures { result ≡ all_are (frame_of edit.f words.now) words.now (request_of edit.q) (entry_of block.e) p block_pages (block.b * block_pages) }
{
    match block.e {
        Entry::Flat(o) => o == p,
        Entry::Pieces(info) => info == p * EACH_PIECE,
        Entry::Table(_) | Entry::Invalid => pieces_are(edit, words, block, p),
    }
}

// The same for any block.
pub fn block_is(edit: Edit, words: &[Word], block: Block, p: u64) -> bool
    requires { (p < 4) × Good (frame_of edit.f words.now) words.now (entry_of block.e) }
    ensures { result ≡ all_are (frame_of edit.f words.now) words.now (request_of edit.q) (entry_of block.e) p block_pages (block.b * block_pages) }
{
    match lies(edit.q, block.b * BLOCK_PAGES, BLOCK_PAGES) {
        Place::Inside => edit.q.permission == p,
        Place::Outside => old_block_is(edit, words, block, p),
        Place::Across => pieces_are(edit, words, block, p),
    }
}

// The permission of the first page of piece i of a block, once the edit is whole.
pub fn piece_first(edit: Edit, words: &[Word], block: Block, i: u64) -> u64
    requires { (i < PIECES) × Good (frame_of edit.f words.now) words.now (entry_of block.e) }
    ensures { (result ≡ after_in (frame_of edit.f words.now) words.now (request_of edit.q) (entry_of block.e) (block.b * block_pages + i * PIECE-PAGES)) × (result < 4) }
{
    wide(after_word(edit, words, block, i * PIECE_WORDS)) % FIELD_VALUES
}

// The same for a piece outside the range.
fn old_first(edit: Edit, words: &[Word], block: Block, i: u64) -> u64
    requires { (i < PIECES) × Good (frame_of edit.f words.now) words.now (entry_of block.e) × Lies (request_of edit.q) (block.b * block_pages + i * PIECE-PAGES) PIECE-PAGES Place.Outside }
    ensures { (result ≡ after_in (frame_of edit.f words.now) words.now (request_of edit.q) (entry_of block.e) (block.b * block_pages + i * PIECE-PAGES)) × (result < 4) }
{
    wide(old_word(edit.f, words, block.e, i * PIECE_WORDS)) % FIELD_VALUES
}

// The one permission of a piece outside the range; as an error, that of its first page, if it has not one. Apart from `cut_piece` and from `piece_first`, so
// that where a piece lies is asked once.
fn old_piece(edit: Edit, words: &[Word], block: Block, i: u64) -> Result<u64, u64>
    requires { (i < PIECES) × Good (frame_of edit.f words.now) words.now (entry_of block.e) × Lies (request_of edit.q) (block.b * block_pages + i * PIECE-PAGES) PIECE-PAGES Place.Outside }
    ensures { PieceIs (frame_of edit.f words.now) words.now (request_of edit.q) (entry_of block.e) block.b i result }
{
    let p = old_first(edit, words, block, i);
    if old_piece_is(edit, words, block, i, p) {
        return Ok(p);
    }
    Err(p)
}

// The same for a piece across an end of the range.
fn cut_piece(edit: Edit, words: &[Word], block: Block, i: u64) -> Result<u64, u64>
    requires { (i < PIECES) × Good (frame_of edit.f words.now) words.now (entry_of block.e) }
    ensures { PieceIs (frame_of edit.f words.now) words.now (request_of edit.q) (entry_of block.e) block.b i result }
{
    let p = piece_first(edit, words, block, i);
    if piece_is(edit, words, block, i, p) {
        return Ok(p);
    }
    Err(p)
}

// The one permission of piece i of a block, once the edit is whole; as an error, that of its first page, if it has not one. Where it lies is asked once.
pub fn piece_at(edit: Edit, words: &[Word], block: Block, i: u64) -> Result<u64, u64>
    requires { (i < PIECES) × Good (frame_of edit.f words.now) words.now (entry_of block.e) }
    ensures { PieceIs (frame_of edit.f words.now) words.now (request_of edit.q) (entry_of block.e) block.b i result }
{
    match lies(edit.q, block.b * BLOCK_PAGES + i * PIECE_PAGES, PIECE_PAGES) {
        Place::Inside => Ok(edit.q.permission),
        Place::Outside => old_piece(edit, words, block, i),
        Place::Across => cut_piece(edit, words, block, i),
    }
}
