// The stores of a block that has an L1 page of its own, and keeps it.
ghost use Rattle.std.specs.Prelude.{◌≡◌, List, ◌<◌};
ghost use Rattle.table.specs.Board.{MAX-BLOCKS, PAGE-WORDS, frame_of};
ghost use Rattle.shapes.specs.Ahead.{Ahead};
ghost use Rattle.shapes.specs.Run.{out, run};
ghost use Rattle.model.specs.Forms.{l1_word};
ghost use Rattle.model.specs.Stores.{Store, if_changed, same_table};
ghost use Rattle.shapes.specs.Rooted.{Good};
ghost use Rattle.types.specs.Views.{request_of};
ghost use Rattle.model.specs.Entry as entry;

use crate::put::put_changed;
use forms::block::Block;
use forms::words::after_word;
use range::l1_entries::{first_entry, past_entry};
use table::board::Word;
use table::lent::page_at;
use types::pages::{BLOCK_PAGES, lies};
use types::{Budget, Edit, Entry, PageNumber, Place};

// L1 entry i of block b, in the block's own page t.
fn same_entry(
    edit: Edit,
    words: &mut [Word],
    t: PageNumber,
    b: u64,
    i: u64,
    left: Budget,
) -> Option<Budget>
    requires { let ss = if_changed (frame_of edit.f words.old) words.old t.0 i (l1_word (frame_of edit.f words.old) words.old (request_of edit.q) (entry.table t.0) b i) in
        (b < MAX-BLOCKS) × (i < PAGE-WORDS) × Good (frame_of edit.f words.old) words.old (entry.table t.0) × Ahead words.old ss }
    ensures { let ss = if_changed (frame_of edit.f words.old) words.old t.0 i (l1_word (frame_of edit.f words.old) words.old (request_of edit.q) (entry.table t.0) b i) in
        out result words.new ≡ run left ss words.old }
{
    let at = page_at(edit.f, words, t) + i as usize;
    let block = Block {
        b,
        e: Entry::Table(t),
    };
    let word = after_word(edit, words, block, i);
    put_changed(words, left, at, word)
}

// Those L1 entries of block b that change, in order, in the block's own page t. Entries that lie outside the range stay: they are not read.
fn same_table(edit: Edit, words: &mut [Word], t: PageNumber, b: u64, left: Budget) -> Option<Budget>
    requires { let ss = same_table (frame_of edit.f words.old) words.old (request_of edit.q) (entry.table t.0) b t.0 in
        (b < MAX-BLOCKS) × Good (frame_of edit.f words.old) words.old (entry.table t.0) × Ahead words.old ss }
    ensures { let ss = same_table (frame_of edit.f words.old) words.old (request_of edit.q) (entry.table t.0) b t.0 in
        out result words.new ≡ run left ss words.old }
{
    let from = first_entry(edit.q, b);
    let to = past_entry(edit.q, b);
    let mut more = left;
    for i in from..to {
        more = same_entry(edit, words, t, b, i, more)?;
    }
    Some(more)
}

// The same; outside the range no entry changes.
pub fn own_table(
    edit: Edit,
    words: &mut [Word],
    t: PageNumber,
    b: u64,
    left: Budget,
) -> Option<Budget>
    requires { let ss = same_table (frame_of edit.f words.old) words.old (request_of edit.q) (entry.table t.0) b t.0 in
        (b < MAX-BLOCKS) × Good (frame_of edit.f words.old) words.old (entry.table t.0) × Ahead words.old ss }
    ensures { let ss = same_table (frame_of edit.f words.old) words.old (request_of edit.q) (entry.table t.0) b t.0 in
        out result words.new ≡ run left ss words.old }
{
    match lies(edit.q, b * BLOCK_PAGES, BLOCK_PAGES) {
        Place::Outside => Some(left),
        Place::Inside | Place::Across => same_table(edit, words, t, b, left),
    }
}
