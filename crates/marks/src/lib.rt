// Marks, one bit each. A mark stands if its bit is 1, and says then that a page, or an SDID, is free.
#![tactic(auto)]

ghost use Rattle.std.specs.Prelude.{◌≡◌, ◌<◌};
ghost use Rattle.marks.specs.Marks.{MARKS, mark_at, unmark, no_marks, all_marks, LowestBit, LowestMark};

use types::bits::pow2;

// 256 marks, the lowest first: no frame lends more pages, and there are 64 SDIDs.
pub type Marks = [u64; 4];

const WORDS: usize = 4;

const WORD_MARKS: usize = 64;

// None of them stands: no page, and no SDID, is free.
pub fn no_marks() -> Marks
    ensures { result ≡ no_marks }
{
    [0; WORDS]
}

// All of them stand.
pub fn all_marks() -> Marks
    ensures { result ≡ all_marks }
{
    [0xFFFF_FFFF_FFFF_FFFF; WORDS]
}

// Mark i stands.
pub fn stands(marks: &Marks, i: usize) -> bool
    requires { i < MARKS }
    ensures { result ≡ mark_at marks.now i }
{
    let word = marks[i / WORD_MARKS];
    word / pow2((i % WORD_MARKS) as u64) % 2 == 1
}

// Takes mark i away, and says whether it stood.
pub fn take(marks: &mut Marks, i: usize) -> bool
    requires { i < MARKS }
    ensures { (result ≡ mark_at marks.old i) × (marks.new ≡ unmark marks.old i) }
{
    let at = i / WORD_MARKS;
    let bit = pow2((i % WORD_MARKS) as u64);
    let word = marks[at];
    if word / bit % 2 == 0 {
        return false;
    }
    marks[at] = word - bit;
    true
}

// The lowest set bit of a word that has one.
pub fn lowest_bit(word: u64) -> usize
    requires { 0 < word }
    ensures { LowestBit word result }
{
    u64::trailing_zeros(word) as usize
}

// The lowest mark that stands, if one does.
pub fn lowest(marks: &Marks) -> Option<usize>
    ensures { LowestMark marks.now result }
{
    for (i, &word) in marks.iter().enumerate() {
        if word != 0 {
            return Some(WORD_MARKS * i + lowest_bit(word));
        }
    }
    None
}
