// Are the domains kept apart? Pages that several slots share are found block by block and by words; table pages are walked to.
// `apart` is an outward call, which `monitor` brings out.
#![tactic(auto)]

mod crowd;
mod masks;
mod who;

ghost use Rattle.std.specs.Prelude.{◌≡◌, ◌+◌, ◌/◌, ◌<◌, length};
ghost use Rattle.model.specs.Apart.{separation, apart_answer};
ghost use Rattle.model.specs.Frame.{space};
ghost use Rattle.scan.specs.Admission.{Admitted};
ghost use Rattle.sharing.specs.Faults.{some, table_faults};
ghost use Rattle.sharing.specs.First.{FirstOf};
ghost use Rattle.table.specs.Board.{PAGE-WORDS, frame_of};
ghost use Rattle.types.specs.Views.{strength_of, separation_of};

use crate::crowd::crowded_page;
use crate::who::{pair_fault, reached_by, table_fault};
use marks::{Marks, no_marks, stands};
use sound::admit;
use table::board::{PAGE_WORDS, Word};
use types::{Frame, PageNumber, Refusal, Separation, Strength};

// Lent page number k is a table page, and a slot reaches it.
fn at_fault(f: Frame, words: &[Word], slots: [Word; 8], free: &Marks, k: usize, s: Strength) -> bool
    requires { Admitted (frame_of f words.now) words.now slots free.now × (k < length words.now / PAGE-WORDS) }
    ensures { result ≡ some (table_faults (frame_of f words.now) words.now slots (strength_of s) (f.first.0 + k)) }
{
    if stands(free, k) {
        return false;
    }
    reached_by(f, words, slots, PageNumber(f.first.0 + k as u64), s).is_some()
}

// The lowest table page that a slot reaches, if there is one.
fn reached_table(
    f: Frame,
    words: &[Word],
    slots: [Word; 8],
    free: &Marks,
    s: Strength,
) -> Option<u64>
    requires { Admitted (frame_of f words.now) words.now slots free.now }
    ensures { FirstOf (λ page. some (table_faults (frame_of f words.now) words.now slots (strength_of s) page)) 0 (space (frame_of f words.now)) result }
{
    let first = f.first.0;
    for k in 0..words.len() / PAGE_WORDS {
        if at_fault(f, words, slots, free, k, s) {
            return Some(first + k as u64);
        }
    }
    None
}

// Of a sound table, whose marks are at hand: the lowest page at fault, as a table page or as one that two slots share.
fn apart_admitted(
    f: Frame,
    words: &[Word],
    slots: [Word; 8],
    free: &Marks,
    s: Strength,
) -> Separation
    requires { Admitted (frame_of f words.now) words.now slots free.now }
    ensures { separation_of (Ok result) ≡ separation (frame_of f words.now) words.now slots (strength_of s) }
{
    let table = reached_table(f, words, slots, free, s);
    let shared = crowded_page(f, words, slots, s);
    match (table, shared) {
        (None, None) => Separation::Apart,
        (Some(table), None) => table_fault(f, words, slots, PageNumber(table), s),
        (None, Some(shared)) => pair_fault(f, words, slots, PageNumber(shared), s),
        (Some(table), Some(shared)) => {
            if shared < table {
                return pair_fault(f, words, slots, PageNumber(shared), s);
            }
            table_fault(f, words, slots, PageNumber(table), s)
        }
    }
}

// Whether the domains are kept apart, as strictly as is asked; strict is "no page open to two domains, no table page open to any". Refusals 1, 3
// here, and then as above.
pub fn apart(f: Frame, words: &[Word], slots: [Word; 8], s: Strength) -> Result<Separation, Refusal>
    ensures { separation_of result ≡ apart_answer (frame_of f words.now) words.now slots (strength_of s) }
{
    let mut marks = no_marks();
    admit(f, words, slots, &mut marks)?;
    Ok(apart_admitted(f, words, slots, &marks, s))
}
