// The lowest page that two slots share, of which one reaches it.
ghost use Rattle.std.specs.Prelude.{◌≡◌, true, IfSome, ℕ, ◌+◌, ◌*◌, ◌/◌, ◌≤◌, ◌<◌, length};
ghost use Rattle.model.specs.Frame as frame;
ghost use Rattle.model.specs.Layout.{block_pages, slot_count};
ghost use Rattle.model.specs.Register.{ppn_of};
ghost use Rattle.model.specs.Sound.{is_open};
ghost use Rattle.shapes.specs.Rooted.{Good};
ghost use Rattle.sharing.specs.Crowds.{is_crowd, BlockOf, InPages, table_opens, table_reaches, full_at, entry_of_slot, info_by, StartBy, GatheredAll, AllRooted, crowded};
ghost use Rattle.sharing.specs.First.{FirstOf};
ghost use Rattle.sharing.specs.Masks.{Counted};
ghost use Rattle.table.specs.Bounds.{Small};
ghost use Rattle.table.specs.Board.{board, MAX-BLOCKS, PIECE-WORDS, PIECE-PAGES, frame_of};
ghost use Rattle.types.specs.Views.{entry_of, strength_of};

use crate::masks;
use marks::lowest_bit;
use table::board::{EACH_FIELD, EACH_PIECE, FIELDS, PIECE_PAGES, PIECE_WORDS, PIECES, Word, wide};
use table::word::{FIELD_BITS, PERMISSION_BITS};
use table::{lent, register, root};
use types::pages::BLOCK_PAGES;
use types::{Entry, Frame, Masks, Shares, Strength};

// What the slots have of the pages of L1 entry k: to what the others have, given in base, comes what these L1 pages say.
fn at_entry(words: &[Word], tables: &[usize], base: Masks, k: usize, s: Strength) -> Masks
    requires { (k < board.words) × InPages board words.now tables.now (length tables.now) }
    ensures { (i c d : ℕ) → i < board.fields → Counted base (4 * i) c d
        → Counted result (4 * i) (c + table_opens board words.now tables.now (length tables.now) (k * board.fields + i))
        (d + table_reaches board words.now tables.now (strength_of s) (length tables.now) (k * board.fields + i)) }
{
    let mut all = base;
    for &at in tables {
        all = masks::add(all, wide(words[at + k]), s);
    }
    all
}

// The first page of L1 entry k that is crowded, counted from its first, if one is.
fn in_entry(words: &[Word], tables: &[usize], base: Masks, k: usize, s: Strength) -> Option<u64>
    requires { (k < board.words) × InPages board words.now tables.now (length tables.now) }
    ensures { IfSome result (λ r. r < board.fields) × ((c d : ℕ) → ((i : ℕ) → i < board.fields → Counted base (4 * i) c d)
        → FirstOf (full_at board words.now tables.now (strength_of s) (length tables.now) c d) (k * board.fields) board.fields result) }
{
    let found = masks::crowds(at_entry(words, tables, base, k, s), EACH_FIELD);
    if found == 0 {
        return None;
    }
    Some(lowest_bit(found) as u64 / FIELD_BITS)
}

// The same of the piece whose first L1 entry is number first: base is what the slots without an L1 page have of it.
fn in_piece(words: &[Word], tables: &[usize], base: Masks, first: usize, s: Strength) -> Option<u64>
    requires { (first + PIECE-WORDS ≤ board.words) × InPages board words.now tables.now (length tables.now) }
    ensures { IfSome result (λ r. r < PIECE-PAGES) × ((c d : ℕ) → ((i : ℕ) → i < board.fields → Counted base (4 * i) c d)
        → FirstOf (full_at board words.now tables.now (strength_of s) (length tables.now) c d) (first * board.fields) PIECE-PAGES result) }
{
    for k in 0..PIECE_WORDS as usize {
        if let Some(r) = in_entry(words, tables, base, first + k, s) {
            return Some(k as u64 * FIELDS + r);
        }
    }
    None
}

// The same of a block, piece by piece.
fn in_tables(words: &[Word], tables: &[usize], even: Masks, s: Strength) -> Option<u64>
    requires { InPages board words.now tables.now (length tables.now) }
    ensures { (opened reached : ℕ → ℕ) → ((j : ℕ) → j < board.pieces → Counted even (2 * j) (opened j) (reached j))
        → FirstOf (λ q. full_at board words.now tables.now (strength_of s) (length tables.now) (opened (q / PIECE-PAGES)) (reached (q / PIECE-PAGES)) q) 0 block_pages result }
{
    for i in 0..PIECES {
        let base = masks::of_piece(even, i);
        if let Some(r) = in_piece(words, tables, base, (i * PIECE_WORDS) as usize, s) {
            return Some(i * PIECE_PAGES + r);
        }
    }
    None
}

// The entry of a slot for block b; one that opens nothing if the slot is empty.
fn slot_entry(f: Frame, words: &[Word], register: Word, b: u64) -> Entry
    requires { (b < MAX-BLOCKS) × (is_open register ≡ true → frame.lent (frame_of f words.now) (ppn_of board register) ≡ true) }
    ensures { (entry_of result ≡ entry_of_slot (frame_of f words.now) words.now register b) × Small (entry_of result) }
{
    if register == 0 {
        return Entry::Flat(0);
    }
    root::entry_at(f, words, register::ppn(register), b)
}

// The permissions of a block's pieces by its entry; none, if it has an L1 page.
fn even_info(e: Entry) -> u64
    requires { Small (entry_of e) }
    ensures { result ≡ info_by board (entry_of e) }
{
    match e {
        Entry::Flat(p) => p * EACH_PIECE,
        Entry::Pieces(info) => info,
        Entry::Table(_) | Entry::Invalid => 0,
    }
}

// Where the words of a block's L1 page begin, if its entry names one.
fn l1_start(f: Frame, words: &[Word], e: Entry) -> Option<usize>
    requires { Good (frame_of f words.now) words.now (entry_of e) }
    ensures { StartBy (frame_of f words.now) words.now (entry_of e) result }
{
    match e {
        Entry::Table(page) => Some(lent::page_at(f, words, page)),
        Entry::Flat(_) | Entry::Pieces(_) | Entry::Invalid => None,
    }
}

// What the slots have of block b.
fn gather(f: Frame, words: &[Word], slots: [Word; 8], b: u64, s: Strength) -> Shares
    requires { (b < MAX-BLOCKS) × BlockOf (frame_of f words.now) b × AllRooted (frame_of f words.now) words.now slots }
    ensures { GatheredAll (frame_of f words.now) words.now (strength_of s) slots b slot_count result }
{
    let mut even = masks::none();
    let mut tables = [0usize; 8];
    let mut count = 0usize;
    for r in slots {
        let e = slot_entry(f, words, r, b);
        even = masks::add(even, even_info(e), s);
        if let Some(at) = l1_start(f, words, e) {
            tables[count] = at;
            count += 1;
        }
    }
    Shares {
        even,
        tables,
        count,
    }
}

// The first page of a block that is crowded by slots that have no L1 page there, counted from its first, if one is.
fn in_pieces(even: Masks) -> Option<u64>
    ensures { (opened reached : ℕ → ℕ) → ((j : ℕ) → j < board.pieces → Counted even (2 * j) (opened j) (reached j))
        → FirstOf (λ q. is_crowd (opened (q / PIECE-PAGES)) (reached (q / PIECE-PAGES))) 0 block_pages result }
{
    let found = masks::crowds(even, EACH_PIECE);
    if found == 0 {
        return None;
    }
    Some(lowest_bit(found) as u64 / PERMISSION_BITS * PIECE_PAGES)
}

// One slot alone has anything of a block: it has an L1 page there, and nothing is open to the others.
fn alone(even: Masks, count: usize) -> bool
    ensures { result ≡ true → (count ≡ 1) × ((j c d : ℕ) → j < board.pieces → Counted even (2 * j) c d → c ≡ 0) }
{
    if count == 1 {
        return even.once & EACH_PIECE == 0;
    }
    false
}

// The first page of block b that is crowded, counted from its first, if one is: by what is gathered of the block. What is gathered is handed on by value, since
// a compiler cleared its whole place before it was gathered there, on RISC-V by a call of `memset`. f, slots and b are there for the contract alone.
fn in_shares(
    f: Frame,
    words: &[Word],
    slots: [Word; 8],
    b: u64,
    s: Strength,
    shares: Shares,
) -> Option<u64>
    requires { (b < MAX-BLOCKS) × BlockOf (frame_of f words.now) b × GatheredAll (frame_of f words.now) words.now (strength_of s) slots b slot_count shares }
    ensures { FirstOf (crowded (frame_of f words.now) words.now slots (strength_of s)) (b * block_pages) block_pages result }
{
    if shares.count == 0 {
        return in_pieces(shares.even);
    }
    if alone(shares.even, shares.count) {
        return None;
    }
    in_tables(words, &shares.tables[..shares.count], shares.even, s)
}

// The same, where nothing is gathered of the block yet.
fn in_block(f: Frame, words: &[Word], slots: [Word; 8], b: u64, s: Strength) -> Option<u64>
    requires { (b < MAX-BLOCKS) × BlockOf (frame_of f words.now) b × AllRooted (frame_of f words.now) words.now slots }
    ensures { FirstOf (crowded (frame_of f words.now) words.now slots (strength_of s)) (b * block_pages) block_pages result }
{
    let shares = gather(f, words, slots, b, s);
    in_shares(f, words, slots, b, s, shares)
}

// The lowest page that is crowded, if one is: open to two slots, one of which reaches it.
pub fn crowded_page(f: Frame, words: &[Word], slots: [Word; 8], s: Strength) -> Option<u64>
    requires { (frame.bounds_ok (frame_of f words.now) ≡ true) × AllRooted (frame_of f words.now) words.now slots }
    ensures { FirstOf (crowded (frame_of f words.now) words.now slots (strength_of s)) 0 (frame.space (frame_of f words.now)) result }
{
    let n = lent::block_count(f, words.len()) as u64;
    for b in 0..n {
        if let Some(r) = in_block(f, words, slots, b, s) {
            return Some(b * BLOCK_PAGES + r);
        }
    }
    None
}
