// Rows: neighbouring entries of a root, each stored if it changes. The loops that store go by number, and not over the slice: every store of an edit
// is made by `put_next`, which is handed all the words and a place.
ghost use Rattle.std.specs.Prelude.{◌≡◌, List, ℕ, ◌+◌, ◌≤◌, ◌<◌, length, get_or, MatchOption};
ghost use Rattle.model.specs.Layout.{gib_blocks};
ghost use Rattle.model.specs.Numbers.{every};
ghost use Rattle.model.specs.Stores.{Store};
ghost use Rattle.shapes.specs.Ahead.{Ahead};
ghost use Rattle.shapes.specs.Run.{all_made, out, run};
ghost use Rattle.shapes.specs.Rows.{row_stores, fill_stores, differs, word_as_pieces, PiecesAhead};
ghost use Rattle.table.specs.Board.{board};

use crate::put::{put_changed, put_next};
use table::board::{EACH_PIECE, PIECE_ENTRY, Word, narrow};
use table::word::decode;
use types::pages::GIB_BLOCKS;
use types::{Budget, Entry, RowProgress};

// The n words from at, where as many stores may be made: nothing is asked between them.
pub fn fill(words: &mut [Word], at: usize, n: usize, word: Word, left: Budget) -> Budget
    requires { let ss = fill_stores word n at in
        (at + n ≤ length words.old) × (n ≤ left.more) × Ahead words.old ss }
    ensures { let ss = fill_stores word n at in
        all_made result words.new ≡ run left ss words.old }
{
    let mut rest = left;
    for i in 0..n {
        rest = put_next(words, rest, at + i, word);
    }
    rest
}

// Each of a GiB's words, from at on, is another than this one. All are read, with no question between them.
fn all_differ(words: &[Word], at: usize, word: Word) -> bool
    requires { at + gib_blocks ≤ length words.now }
    ensures { result ≡ every (differs words.now word) gib_blocks at }
{
    let mut differ = true;
    for &old in &words[at..at + GIB_BLOCKS as usize] {
        differ = differ & (old != word);
    }
    differ
}

// The n words from at are all to be this word.
fn flat_row(words: &mut [Word], at: usize, n: usize, word: Word, left: Budget) -> Option<Budget>
    requires { let ss = row_stores words.old (λ w. word) n at in
        (at + n ≤ length words.old) × Ahead words.old ss }
    ensures { let ss = row_stores words.old (λ w. word) n at in
        out result words.new ≡ run left ss words.old }
{
    let mut more = left;
    for i in 0..n {
        more = put_changed(words, more, at + i, word)?;
    }
    Some(more)
}

// The same. The entries of a GiB, where all change and the limit allows for them, are filled.
pub fn flat_entries(
    words: &mut [Word],
    at: usize,
    n: usize,
    word: Word,
    left: Budget,
) -> Option<Budget>
    requires { let ss = row_stores words.old (λ w. word) n at in
        (at + n ≤ length words.old) × Ahead words.old ss }
    ensures { let ss = row_stores words.old (λ w. word) n at in
        out result words.new ≡ run left ss words.old }
{
    if n != GIB_BLOCKS as usize {
        return flat_row(words, at, n, word, left);
    }
    if left.more < GIB_BLOCKS {
        return flat_row(words, at, n, word, left);
    }
    if !all_differ(words, at, word) {
        return flat_row(words, at, n, word, left);
    }
    Some(fill(words, at, GIB_BLOCKS as usize, word, left))
}

// The entry by pieces that says the same as an entry; none for one with an L1 page or an invalid one, where the contract's `word_as_pieces` is zero.
fn word_as_pieces(word: Word) -> Option<Word>
    ensures { MatchOption result (word_as_pieces board word ≡ 0) (λ w. (w ≡ word_as_pieces board word) × (w ≡ 0 → ⊥)) }
{
    match decode(word) {
        Entry::Flat(p) => Some(narrow(PIECE_ENTRY + p * EACH_PIECE)),
        Entry::Pieces(info) => Some(narrow(PIECE_ENTRY + info)),
        Entry::Table(_) | Entry::Invalid => None,
    }
}

// The words from at, n at the most, are to say the same by pieces. An entry with an L1 page ends the row.
pub fn pieces_row(words: &mut [Word], at: usize, n: usize, left: Budget) -> RowProgress
    requires { (at + n ≤ length words.old) × PiecesAhead board words.old n at }
    ensures { (result.count ≤ n) × ((k : ℕ) → at ≤ k → k < at + result.count → word_as_pieces board (get_or words.old k 0) ≡ 0 → ⊥)
        × (out result.left words.new ≡ run left (row_stores words.old (word_as_pieces board) result.count at) words.old) }
{
    let mut more = left;
    for i in 0..n {
        let Some(word) = word_as_pieces(words[at + i]) else {
            return RowProgress {
                left: Some(more),
                count: i,
            };
        };
        let Some(rest) = put_changed(words, more, at + i, word) else {
            return RowProgress {
                left: None,
                count: i + 1,
            };
        };
        more = rest;
    }
    RowProgress {
        left: Some(more),
        count: n,
    }
}
