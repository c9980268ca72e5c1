// L1 entries, as they stand and once the edit is whole.
ghost use Rattle.std.specs.Prelude.{◌≡◌, ◌+◌, ◌*◌, ◌/◌, ◌%◌, ◌≤◌, ◌<◌, ◌^◌};
ghost use Rattle.table.specs.Board.{board, PAGE-WORDS, FIELDS, frame_of};
ghost use Rattle.shapes.specs.Words.{spread_of, old_word, mixed_at};
ghost use Rattle.model.specs.Forms.{l1_word};
ghost use Rattle.model.specs.Numbers.{pack};
ghost use Rattle.types.specs.Views.{entry_of, request_of};
ghost use Rattle.shapes.specs.Rooted.{Good};

use crate::block::Block;
use table::board::{EACH_FIELD, FIELDS, PIECE_WORDS, Word, narrow, wide};
use table::lent::page_at;
use table::word::{FIELD_BITS, piece};
use types::bits::splice;
use types::pages::{BLOCK_PAGES, PAGE_BYTES, cut, lies};
use types::{Edit, Entry, Frame, Place};

// An L1 entry whose fields are all p.
pub fn spread(p: u64) -> Word
    requires { p < 4 }
    ensures { result ≡ spread_of board p }
{
    narrow(p * EACH_FIELD)
}

// L1 entry i of a block as it stands, or as the block's L2 entry gives it.
pub fn old_word(f: Frame, words: &[Word], e: Entry, i: u64) -> Word
    requires { (i < PAGE-WORDS) × Good (frame_of f words.now) words.now (entry_of e) }
    ensures { result ≡ old_word (frame_of f words.now) words.now (entry_of e) i }
{
    match e {
        Entry::Flat(p) => spread(p),
        Entry::Pieces(info) => spread(piece(info, i / PIECE_WORDS)),
        Entry::Table(t) => {
            let at = page_at(f, words, t) + i as usize;
            words[at]
        }
        Entry::Invalid => spread(0),
    }
}

// The fields of low below field k, and from k on those of high.
fn splice_fields(low: Word, high: Word, k: u64) -> Word
    requires { k ≤ FIELDS }
    ensures { result ≡ low % 16 ^ k + high / 16 ^ k * 16 ^ k }
{
    if k == FIELDS {
        return low;
    }
    narrow(splice(wide(low), wide(high), FIELD_BITS * k))
}

// The L1 entry of the pages from s that stands across an end of the range.
fn mixed_word(edit: Edit, s: u64, old: Word) -> Word
    requires { s + FIELDS ≤ 2 ^ 44 }
    ensures { result ≡ pack 16 (mixed_at (request_of edit.q) old s) FIELDS s }
{
    let low = cut(edit.q.start.0 / PAGE_BYTES, s, FIELDS);
    let high = cut((edit.q.start.0 + edit.q.size) / PAGE_BYTES, s, FIELDS);
    splice_fields(
        splice_fields(old, spread(edit.q.permission), low),
        old,
        high,
    )
}

// L1 entry i of a block, once the edit is whole.
pub fn after_word(edit: Edit, words: &[Word], block: Block, i: u64) -> Word
    requires { (i < PAGE-WORDS) × Good (frame_of edit.f words.now) words.now (entry_of block.e) }
    ensures { result ≡ l1_word (frame_of edit.f words.now) words.now (request_of edit.q) (entry_of block.e) block.b i }
{
    let s = block.b * BLOCK_PAGES + i * FIELDS;
    match lies(edit.q, s, FIELDS) {
        Place::Inside => spread(edit.q.permission),
        Place::Outside => old_word(edit.f, words, block.e, i),
        Place::Across => mixed_word(edit, s, old_word(edit.f, words, block.e, i)),
    }
}
