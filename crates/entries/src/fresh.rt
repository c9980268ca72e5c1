// The stores that fill a new L1 page.
ghost use Rattle.model.specs.Layout.{block_pages};
ghost use Rattle.std.specs.Prelude.{◌≡◌, true, List, [], ◌∷◌, ℕ, ◌+◌, ◌-◌, ◌*◌, ◌≤◌, ◌<◌};
ghost use Rattle.table.specs.Board.{MAX-BLOCKS, PAGE-WORDS, FIELDS, frame_of};
ghost use Rattle.shapes.specs.Ahead.{Ahead};
ghost use Rattle.shapes.specs.Pages.{new_run};
ghost use Rattle.shapes.specs.Run.{out, run};
ghost use Rattle.range.specs.EntryBounds.{Past};
ghost use Rattle.model.specs.Forms.{l1_word};
ghost use Rattle.types.specs.declared.Frame.{Frame};
ghost use Rattle.shapes.specs.Words.{old_word};
ghost use Rattle.model.specs.Frame.{lent};
ghost use Rattle.model.specs.Stores.{Store, store_at, new_table};
ghost use Rattle.types.specs.Views.{entry_of, request_of};
ghost use Rattle.shapes.specs.Rooted.{Good};
ghost use Rattle.types.specs.Range.{Lies};

use crate::new_page::NewPage;
use crate::put::put;
use crate::rows::fill;
use forms::words::{after_word, old_word};
use range::l1_entries::{first_entry, past_entry};
use table::board::{PAGE_WORDS, PIECE_WORDS, Word};
use table::lent::page_at;
use types::{Budget, Edit, Entry, Place};

// L1 entry i of the block, in its new page.
fn new_entry(edit: Edit, words: &mut [Word], new: NewPage, i: u64, left: Budget) -> Option<Budget>
    requires { let ss = store_at (frame_of edit.f words.old) new.page.0 i (l1_word (frame_of edit.f words.old) words.old (request_of edit.q) (entry_of new.block.e) new.block.b i) ∷ [] in
        (i < PAGE-WORDS) × Good (frame_of edit.f words.old) words.old (entry_of new.block.e) × (lent (frame_of edit.f words.old) new.page.0 ≡ true) × Ahead words.old ss }
    ensures { let ss = store_at (frame_of edit.f words.old) new.page.0 i (l1_word (frame_of edit.f words.old) words.old (request_of edit.q) (entry_of new.block.e) new.block.b i) ∷ [] in
        out result words.new ≡ run left ss words.old }
{
    let at = page_at(edit.f, words, new.page) + i as usize;
    let word = after_word(edit, words, new.block, i);
    put(words, left, at, word)
}

// The entries from .. to of a new page, in order.
fn new_entries(
    edit: Edit,
    words: &mut [Word],
    new: NewPage,
    from: u64,
    to: u64,
    left: Budget,
) -> Option<Budget>
    requires { let ss = new_run (frame_of edit.f words.old) words.old (request_of edit.q) (entry_of new.block.e) new.block.b new.page.0 (to - from) from in
        (to ≤ PAGE-WORDS) × (from ≤ to) × Good (frame_of edit.f words.old) words.old (entry_of new.block.e) × (lent (frame_of edit.f words.old) new.page.0 ≡ true) × Ahead words.old ss }
    ensures { let ss = new_run (frame_of edit.f words.old) words.old (request_of edit.q) (entry_of new.block.e) new.block.b new.page.0 (to - from) from in
        out result words.new ≡ run left ss words.old }
{
    let mut more = left;
    for i in from..to {
        more = new_entry(edit, words, new, i, more)?;
    }
    Some(more)
}

// Where the entries from i on stop being the same word, if the edit leaves them as they are: `to` at the latest.
fn same_until(e: Entry, i: u64, to: u64) -> u64
    requires { (i < to) × (to ≤ PAGE-WORDS) }
    ensures { (i < result) × (result ≤ to) × ((f : Frame) (m : List ℕ) (k : ℕ) → i ≤ k → k < result → old_word (frame_of f m) m (entry_of e) k ≡ old_word (frame_of f m) m (entry_of e) i) }
{
    let piece = (i / PIECE_WORDS + 1) * PIECE_WORDS;
    match e {
        Entry::Flat(_) => to,
        Entry::Pieces(_) => { if piece < to { piece } else { to } }
        Entry::Table(_) => i + 1,
        Entry::Invalid => to,
    }
}

// The entries from .. to, outside the range and all one word: where the limit allows for them, they are filled without asking at each.
fn old_fill(
    edit: Edit,
    words: &mut [Word],
    new: NewPage,
    from: u64,
    to: u64,
    left: Budget,
) -> Option<Budget>
    requires { let ss = new_run (frame_of edit.f words.old) words.old (request_of edit.q) (entry_of new.block.e) new.block.b new.page.0 (to - from) from in
        (to ≤ PAGE-WORDS) × (from < to) × Good (frame_of edit.f words.old) words.old (entry_of new.block.e) × (lent (frame_of edit.f words.old) new.page.0 ≡ true)
        × Lies (request_of edit.q) (new.block.b * block_pages + from * FIELDS) ((to - from) * FIELDS) Place.Outside × ((k : ℕ) → from ≤ k → k < to → old_word (frame_of edit.f words.old) words.old (entry_of new.block.e) k ≡ old_word (frame_of edit.f words.old) words.old (entry_of new.block.e) from) × Ahead words.old ss }
    ensures { let ss = new_run (frame_of edit.f words.old) words.old (request_of edit.q) (entry_of new.block.e) new.block.b new.page.0 (to - from) from in
        out result words.new ≡ run left ss words.old }
{
    let n = to - from;
    if left.more < n {
        return new_entries(edit, words, new, from, to, left);
    }
    let e = new.block.e;
    let word = old_word(edit.f, words, e, from);
    let at = page_at(edit.f, words, new.page) + from as usize;
    Some(fill(words, at, n as usize, word, left))
}

// The entries from .. to, outside the range: those that are one word at a time, so that the steps of the loop are of many lengths.
fn old_entries(
    edit: Edit,
    words: &mut [Word],
    new: NewPage,
    from: u64,
    to: u64,
    left: Budget,
) -> Option<Budget>
    requires { let ss = new_run (frame_of edit.f words.old) words.old (request_of edit.q) (entry_of new.block.e) new.block.b new.page.0 (to - from) from in
        (to ≤ PAGE-WORDS) × (from ≤ to) × Good (frame_of edit.f words.old) words.old (entry_of new.block.e) × (lent (frame_of edit.f words.old) new.page.0 ≡ true)
        × Lies (request_of edit.q) (new.block.b * block_pages + from * FIELDS) ((to - from) * FIELDS) Place.Outside × Ahead words.old ss }
    ensures { let ss = new_run (frame_of edit.f words.old) words.old (request_of edit.q) (entry_of new.block.e) new.block.b new.page.0 (to - from) from in
        out result words.new ≡ run left ss words.old }
{
    let e = new.block.e;
    let mut more = left;
    let mut i = from;
    while i < to {
        let end = same_until(e, i, to);
        more = old_fill(edit, words, new, i, end, more)?;
        i = end;
    }
    Some(more)
}

// Where the entries that the range can meet end, which is not before they begin.
fn near_end(edit: Edit, b: u64, from: u64) -> u64
    requires { (b < MAX-BLOCKS) × (from ≤ PAGE-WORDS) }
    ensures { (from ≤ result) × (result ≤ PAGE-WORDS) × Past (request_of edit.q) b result }
{
    let past = past_entry(edit.q, b);
    if past < from {
        return from;
    }
    past
}

// All entries of a new page, in order: those below the range, those that it can meet, and those above.
pub fn fill_page(edit: Edit, words: &mut [Word], new: NewPage, left: Budget) -> Option<Budget>
    requires { let ss = new_table (frame_of edit.f words.old) words.old (request_of edit.q) (entry_of new.block.e) new.block.b new.page.0 in
        Good (frame_of edit.f words.old) words.old (entry_of new.block.e) × (lent (frame_of edit.f words.old) new.page.0 ≡ true) × Ahead words.old ss }
    ensures { let ss = new_table (frame_of edit.f words.old) words.old (request_of edit.q) (entry_of new.block.e) new.block.b new.page.0 in
        out result words.new ≡ run left ss words.old }
{
    let from = first_entry(edit.q, new.block.b);
    let to = near_end(edit, new.block.b, from);
    let below = old_entries(edit, words, new, 0, from, left)?;
    let near = new_entries(edit, words, new, from, to, below)?;
    old_entries(edit, words, new, to, PAGE_WORDS as u64, near)
}
