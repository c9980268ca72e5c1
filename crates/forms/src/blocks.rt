// The finished form of one block.
ghost use Rattle.model.specs.Layout.{block_pages};
ghost use Rattle.std.specs.Prelude.{◌≡◌, false, ◌*◌};
ghost use Rattle.types.specs.Range.{Lies};
ghost use Rattle.table.specs.Board.{frame_of};
ghost use Rattle.model.specs.Forms.{form_in};
ghost use Rattle.types.specs.Views.{entry_of, request_of, form_of};
ghost use Rattle.shapes.specs.Blocks.{has_one, one_of};
ghost use Rattle.shapes.specs.Rooted.{Good};

use crate::block::Block;
use crate::even::even_form;
use crate::pieces::piece_at;
use table::board::{EACH_PIECE, PIECE_BYTES, PIECES, Word};
use types::pages::{BLOCK_PAGES, lies};
use types::{Edit, Entry, Form, Place};

// The finished form of a block in a GiB that is not of one permission.
fn pieces_form(edit: Edit, words: &[Word], block: Block) -> Form
    requires { Good (frame_of edit.f words.now) words.now (entry_of block.e) }
    ensures { form_of result ≡ form_in (frame_of edit.f words.now) words.now (request_of edit.q) false 0 (entry_of block.e) block.b }
{
    let mut info: u64 = 0;
    for i in (0..PIECES).rev() {
        let Ok(p) = piece_at(edit, words, block, i) else {
            return Form::Table;
        };
        info = p + 4 * info;
    }
    Form::Pieces(info)
}

// The same for a block that has an L1 page, across an end of the range. The pieces at the ends of the range come first: if one is mixed, the others
// are not read.
fn cut_form(edit: Edit, words: &[Word], block: Block) -> Form
    requires { Good (frame_of edit.f words.now) words.now (entry_of block.e) }
    ensures { form_of result ≡ form_in (frame_of edit.f words.now) words.now (request_of edit.q) false 0 (entry_of block.e) block.b }
{
    let first = edit.q.start.0 / PIECE_BYTES % PIECES;
    let past = (edit.q.start.0 + edit.q.size) / PIECE_BYTES % PIECES;
    if piece_at(edit, words, block, first).is_err() || piece_at(edit, words, block, past).is_err() {
        return Form::Table;
    }
    pieces_form(edit, words, block)
}

// The same for a block across an end of the range.
fn across_form(edit: Edit, words: &[Word], block: Block) -> Form
    requires { Good (frame_of edit.f words.now) words.now (entry_of block.e) }
    ensures { form_of result ≡ form_in (frame_of edit.f words.now) words.now (request_of edit.q) false 0 (entry_of block.e) block.b }
{
    match block.e {
        Entry::Flat(p) => even_form(edit, words, block, p * EACH_PIECE),
        Entry::Pieces(info) => even_form(edit, words, block, info),
        Entry::Table(_) | Entry::Invalid => cut_form(edit, words, block),
    }
}

// The same for a block outside the range.
fn outside_form(edit: Edit, words: &[Word], block: Block) -> Form
    requires { Good (frame_of edit.f words.now) words.now (entry_of block.e) × Lies (request_of edit.q) (block.b * block_pages) block_pages Place.Outside }
    ensures { form_of result ≡ form_in (frame_of edit.f words.now) words.now (request_of edit.q) false 0 (entry_of block.e) block.b }
{
    match block.e {
        Entry::Flat(p) => Form::Pieces(p * EACH_PIECE),
        Entry::Pieces(info) => Form::Pieces(info),
        Entry::Table(_) | Entry::Invalid => pieces_form(edit, words, block),
    }
}

// The finished form of a block, in a GiB whose one permission is given if it has one.
pub fn block_form(edit: Edit, words: &[Word], gib: Option<u64>, block: Block) -> Form
    requires { Good (frame_of edit.f words.now) words.now (entry_of block.e) }
    ensures { form_of result ≡ form_in (frame_of edit.f words.now) words.now (request_of edit.q) (has_one gib) (one_of gib) (entry_of block.e) block.b }
{
    if let Some(p) = gib {
        return Form::Flat(p);
    }
    match lies(edit.q, block.b * BLOCK_PAGES, BLOCK_PAGES) {
        Place::Inside => Form::Pieces(edit.q.permission * EACH_PIECE),
        Place::Outside => outside_form(edit, words, block),
        Place::Across => across_form(edit, words, block),
    }
}
