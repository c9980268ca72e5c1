// The stores of one block.
ghost use Rattle.model.specs.Layout.{gib_blocks};
ghost use Rattle.std.specs.Prelude.{◌≡◌, true, IfOk, ◌+◌, ◌-◌, ◌*◌, ◌/◌, ◌%◌, ◌≤◌, ◌<◌, ◌^◌, drop};
ghost use mathlib.Core.List.{List, head_d};
ghost use Rattle.sequence.specs.GibBlocks.{HasNewPage, Advanced};
ghost use Rattle.shapes.specs.Blocks.{Encodes, one_in, stores_over};
ghost use Rattle.shapes.specs.Ahead.{Ahead};
ghost use Rattle.shapes.specs.Run.{out, run};
ghost use Rattle.model.specs.Forms.{want_table};
ghost use Rattle.model.specs.Frame.{lent, blocks};
ghost use Rattle.model.specs.Stores.{Store, needs_page, if_changed_l2, block_stores};
ghost use Rattle.types.specs.Views.{entry_of, request_of, form_of, free_list};
ghost use Rattle.shapes.specs.Rooted.{Good, Rooted};
ghost use Rattle.table.specs.Board.{MAX-BLOCKS, board, frame_of};

use entries::link::link_table;
use entries::new_page::NewPage;
use entries::own::own_table;
use entries::put::put_changed;
use entries::rows::{flat_entries, pieces_row};
use forms::block::Block;
use forms::blocks::block_form;
use table::board::{PIECE_ENTRY, TYPE_UNIT, Word, narrow};
use table::lent::page_at;
use table::root::entry_at;
use types::needed_page::{next_page, page_from};
use types::pages::{GIB_BLOCKS, blocks_outside};
use types::{BlocksProgress, Budget, Edit, Entry, Form, Free, PageNumber};

// The L2 entry of block b, if it changes.
fn put_entry(edit: Edit, words: &mut [Word], b: u64, word: Word, left: Budget) -> Option<Budget>
    requires { let ss = if_changed_l2 (frame_of edit.f words.old) words.old edit.root.0 b word in
        (b < MAX-BLOCKS) × (lent (frame_of edit.f words.old) edit.root.0 ≡ true) × Ahead words.old ss }
    ensures { let ss = if_changed_l2 (frame_of edit.f words.old) words.old edit.root.0 b word in
        out result words.new ≡ run left ss words.old }
{
    let at = page_at(edit.f, words, edit.root) + b as usize;
    put_changed(words, left, at, word)
}

// The stores of a block that is to have an L1 page.
fn store_table(
    edit: Edit,
    words: &mut [Word],
    block: Block,
    new: PageNumber,
    left: Budget,
) -> Option<Budget>
    requires { let ss = block_stores (frame_of edit.f words.old) words.old (request_of edit.q) edit.root.0 want_table (entry_of block.e) block.b new.0 in
        Good (frame_of edit.f words.old) words.old (entry_of block.e) × (lent (frame_of edit.f words.old) edit.root.0 ≡ true)
        × (needs_page want_table (entry_of block.e) ≡ true → (lent (frame_of edit.f words.old) new.0 ≡ true) × (new.0 < 2 ^ board.info_bits)) × Ahead words.old ss }
    ensures { let ss = block_stores (frame_of edit.f words.old) words.old (request_of edit.q) edit.root.0 want_table (entry_of block.e) block.b new.0 in
        out result words.new ≡ run left ss words.old }
{
    if let Entry::Table(t) = block.e {
        return own_table(edit, words, t, block.b, left);
    }
    link_table(edit, words, NewPage { block, page: new }, left)
}

// The stores of a block.
fn store_block(
    edit: Edit,
    words: &mut [Word],
    form: Form,
    block: Block,
    new: PageNumber,
    left: Budget,
) -> Option<Budget>
    requires { let ss = block_stores (frame_of edit.f words.old) words.old (request_of edit.q) edit.root.0 (form_of form) (entry_of block.e) block.b new.0 in
        Good (frame_of edit.f words.old) words.old (entry_of block.e) × (lent (frame_of edit.f words.old) edit.root.0 ≡ true)
        × (needs_page (form_of form) (entry_of block.e) ≡ true → (lent (frame_of edit.f words.old) new.0 ≡ true) × (new.0 < 2 ^ board.info_bits)) × Encodes board (form_of form) × Ahead words.old ss }
    ensures { let ss = block_stores (frame_of edit.f words.old) words.old (request_of edit.q) edit.root.0 (form_of form) (entry_of block.e) block.b new.0 in
        out result words.new ≡ run left ss words.old }
{
    match form {
        Form::Flat(p) => put_entry(edit, words, block.b, narrow(p * TYPE_UNIT), left),
        Form::Pieces(info) => put_entry(edit, words, block.b, narrow(PIECE_ENTRY + info), left),
        Form::Table => store_table(edit, words, block, new, left),
    }
}

// One block of a GiB that is not of one permission: its finished form, and its stores.
fn one_block(
    edit: Edit,
    words: &mut [Word],
    b: u64,
    free: Free,
    next: u64,
    left: Budget,
) -> BlocksProgress
    requires { Rooted (frame_of edit.f words.old) words.old edit.root.0 × (b < blocks (frame_of edit.f words.old)) × (next < 2 ^ 32)
        × HasNewPage (frame_of edit.f words.old) words.old (request_of edit.q) edit.root.0 None b (head_d (drop next (free_list free)) 0)
        × Ahead words.old (stores_over (frame_of edit.f words.old) words.old (request_of edit.q) edit.root.0 None 1 b (drop next (free_list free))) }
    ensures { Advanced (frame_of edit.f words.old) words.old (request_of edit.q) edit.root.0 None b (free_list free) next left result words.new }
{
    let e = entry_at(edit.f, words, edit.root, b);
    let block = Block { b, e };
    let form = block_form(edit, words, None, block);
    let new = page_from(free, next);
    BlocksProgress {
        left: store_block(edit, words, form, block, new, left),
        next: next_page(form, e, next),
        count: 1,
    }
}

// The blocks from b on of a GiB of one permission, p. Their entries are read only to see whether they change.
fn flat_blocks(
    edit: Edit,
    words: &mut [Word],
    p: u64,
    b: u64,
    free: Free,
    next: u64,
    left: Budget,
) -> BlocksProgress
    requires { (lent (frame_of edit.f words.old) edit.root.0 ≡ true) × (b < MAX-BLOCKS) × (p < 4)
        × Ahead words.old (stores_over (frame_of edit.f words.old) words.old (request_of edit.q) edit.root.0 (Some p) (gib_blocks - b % gib_blocks) b (drop next (free_list free))) }
    ensures { Advanced (frame_of edit.f words.old) words.old (request_of edit.q) edit.root.0 (Some p) b (free_list free) next left result words.new }
{
    let n = GIB_BLOCKS - b % GIB_BLOCKS;
    let at = page_at(edit.f, words, edit.root) + b as usize;
    BlocksProgress {
        left: flat_entries(words, at, n as usize, narrow(p * TYPE_UNIT), left),
        next,
        count: n,
    }
}

// The next blocks of a GiB that is not of one permission: those up to the range, or to the end of their GiB, whose entry alone says their
// finished form, since they have no L1 page; or one.
fn mixed_blocks(
    edit: Edit,
    words: &mut [Word],
    b: u64,
    free: Free,
    next: u64,
    left: Budget,
) -> BlocksProgress
    requires { Rooted (frame_of edit.f words.old) words.old edit.root.0 × (b / gib_blocks * gib_blocks + gib_blocks ≤ blocks (frame_of edit.f words.old)) × (next < 2 ^ 32)
        × HasNewPage (frame_of edit.f words.old) words.old (request_of edit.q) edit.root.0 None b (head_d (drop next (free_list free)) 0)
        × Ahead words.old (stores_over (frame_of edit.f words.old) words.old (request_of edit.q) edit.root.0 None (gib_blocks - b % gib_blocks) b (drop next (free_list free))) }
    ensures { Advanced (frame_of edit.f words.old) words.old (request_of edit.q) edit.root.0 None b (free_list free) next left result words.new }
{
    let n = blocks_outside(edit.q, b);
    let at = page_at(edit.f, words, edit.root) + b as usize;
    let row = pieces_row(words, at, n as usize, left);
    if row.count == 0 {
        return one_block(edit, words, b, free, next, left);
    }
    BlocksProgress {
        left: row.left,
        next,
        count: row.count as u64,
    }
}

// The next blocks of a GiB, of which is given what was found: all that are left of it, if it is of one permission, or as above.
pub fn next_blocks(
    edit: Edit,
    words: &mut [Word],
    gib: Result<u64, u64>,
    b: u64,
    free: Free,
    next: u64,
    left: Budget,
) -> BlocksProgress
    requires { Rooted (frame_of edit.f words.old) words.old edit.root.0 × (b / gib_blocks * gib_blocks + gib_blocks ≤ blocks (frame_of edit.f words.old)) × IfOk gib (λ p. p < 4) × (next < 2 ^ 32)
        × HasNewPage (frame_of edit.f words.old) words.old (request_of edit.q) edit.root.0 (one_in gib) b (head_d (drop next (free_list free)) 0)
        × Ahead words.old (stores_over (frame_of edit.f words.old) words.old (request_of edit.q) edit.root.0 (one_in gib) (gib_blocks - b % gib_blocks) b (drop next (free_list free))) }
    ensures { Advanced (frame_of edit.f words.old) words.old (request_of edit.q) edit.root.0 (one_in gib) b (free_list free) next left result words.new }
{
    match gib {
        Ok(p) => flat_blocks(edit, words, p, b, free, next, left),
        Err(_) => mixed_blocks(edit, words, b, free, next, left),
    }
}
