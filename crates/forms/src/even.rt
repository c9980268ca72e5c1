// A block that is read without an L1 page: its pieces are each of one permission before the edit, and info has them.
ghost use Rattle.std.specs.Prelude.{◌≡◌, false, ◌<◌};
ghost use Rattle.table.specs.Board.{board, PIECE-INFO, frame_of};
ghost use Rattle.shapes.specs.Blocks.{Even, Mixes};
ghost use Rattle.model.specs.Forms.{form_in};
ghost use Rattle.types.specs.Views.{entry_of, request_of, form_of};
ghost use Rattle.shapes.specs.Rooted.{Good};

use crate::block::Block;
use table::board::{EACH_PIECE, PIECE_PAGES, PIECE_ROUND_UP, PIECES, Word};
use table::word::{PERMISSION_BITS, piece};
use types::bits::splice;
use types::pages::{BLOCK_PAGES, PAGE_BYTES, cut};
use types::{Edit, Form, Request};

// A piece with pages in the range and pages outside it becomes mixed, unless it has the asked permission already.
fn mixes(q: Request, b: u64, info: u64, at: u64) -> bool
    ensures { Mixes board (request_of q) b info at result }
{
    at % PIECE_PAGES != 0
        && at / BLOCK_PAGES == b
        && piece(info, at / PIECE_PAGES % PIECES) != q.permission
}

// The finished form of a block. Only a piece that an end of the range cuts can become mixed.
pub fn even_form(edit: Edit, words: &[Word], block: Block, info: u64) -> Form
    requires { Good (frame_of edit.f words.now) words.now (entry_of block.e) × (info < PIECE-INFO) × Even (frame_of edit.f words.now) words.now (entry_of block.e) block.b info }
    ensures { form_of result ≡ form_in (frame_of edit.f words.now) words.now (request_of edit.q) false 0 (entry_of block.e) block.b }
{
    let b = block.b;
    let first = edit.q.start.0 / PAGE_BYTES;
    let past = (edit.q.start.0 + edit.q.size) / PAGE_BYTES;
    if mixes(edit.q, b, info, first) {
        return Form::Table;
    }
    if mixes(edit.q, b, info, past) {
        return Form::Table;
    }
    let low = cut((first + PIECE_ROUND_UP) / PIECE_PAGES, b * PIECES, PIECES);
    let high = cut((past + PIECE_ROUND_UP) / PIECE_PAGES, b * PIECES, PIECES);
    Form::Pieces(splice(
        splice(info, edit.q.permission * EACH_PIECE, PERMISSION_BITS * low),
        info,
        PERMISSION_BITS * high,
    ))
}
