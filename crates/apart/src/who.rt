// Who has a page: what each slot may do there, by the walk.
ghost use Rattle.std.specs.Prelude.{◌≡◌, true, ◌<◌};
ghost use mathlib.Core.List.{head_d};
ghost use Rattle.model.specs.Access.{write};
ghost use Rattle.model.specs.Apart as apart;
ghost use Rattle.model.specs.Entry.{perm};
ghost use Rattle.model.specs.Frame.{bounds_ok};
ghost use Rattle.model.specs.Layout.{slot_count};
ghost use Rattle.sharing.specs.Crowds.{reach_of};
ghost use Rattle.sharing.specs.Faults.{slot_grants, some, meet, table_faults, pair_faults};
ghost use Rattle.sharing.specs.First.{FirstOf};
ghost use Rattle.table.specs.Board.{frame_of};
ghost use Rattle.types.specs.Views.{permission_number, strength_of, separation_of};

use lookup::{granted, walk};
use table::board::Word;
use table::register;
use types::rights::may;
use types::{Frame, Need, PageNumber, Permission, Separation, Strength};

// What a slot may do with a page; nothing, if it is empty.
fn has(f: Frame, words: &[Word], register: Word, page: PageNumber) -> Permission
    requires { bounds_ok (frame_of f words.now) ≡ true }
    ensures { permission_number result ≡ slot_grants (frame_of f words.now) words.now register page.0 }
{
    if register == 0 {
        return Permission::None;
    }
    granted(walk(f, words, register::ppn(register), page))
}

fn writes(p: Permission) -> bool
    ensures { result ≡ apart.grants (perm (permission_number p)) write }
{
    may(p, Need::Write)
}

fn opens(p: Permission) -> bool
    ensures { result ≡ apart.grants_any (perm (permission_number p)) }
{
    p != Permission::None
}

fn reaches(p: Permission, s: Strength) -> bool
    ensures { result ≡ reach_of (strength_of s) (perm (permission_number p)) }
{
    match s {
        Strength::Strict => opens(p),
        Strength::Sharing => writes(p),
    }
}

// Two slots with these permissions for a page: it is open to one, and the other reaches it.
fn meets(p: Permission, q: Permission, s: Strength) -> bool
    ensures { result ≡ meet (strength_of s) (permission_number p) (permission_number q) }
{
    (opens(p) & reaches(q, s)) | (reaches(p, s) & opens(q))
}

// The first slot that reaches a page, if one does.
pub fn reached_by(
    f: Frame,
    words: &[Word],
    slots: [Word; 8],
    page: PageNumber,
    s: Strength,
) -> Option<usize>
    requires { bounds_ok (frame_of f words.now) ≡ true }
    ensures { FirstOf (λ i. apart.by_slot (frame_of f words.now) words.now slots (apart.reaches (frame_of f words.now) words.now (strength_of s)) i page.0) 0 slot_count result }
{
    for (i, &r) in slots.iter().enumerate() {
        if reaches(has(f, words, r, page), s) {
            return Some(i);
        }
    }
    None
}

// What is at fault with a table page, and the first slot with which it is.
pub fn table_fault(
    f: Frame,
    words: &[Word],
    slots: [Word; 8],
    page: PageNumber,
    s: Strength,
) -> Separation
    requires { (bounds_ok (frame_of f words.now) ≡ true) × (apart.table_page (frame_of f words.now) words.now slots page.0 ≡ true) }
    ensures { separation_of (Ok result) ≡ head_d (table_faults (frame_of f words.now) words.now slots (strength_of s) page.0) apart.apart }
{
    let Some(i) = reached_by(f, words, slots, page, s) else {
        return Separation::Apart;
    };
    Separation::TableOpen(page, i as u64, writes(has(f, words, slots[i], page)))
}

// The first slot after slot i with which it shares a page, one of the two reaching it, if there is one. By number, as in `pair_fault`: slots are
// told by their numbers, and each is asked beside another.
fn partner(
    f: Frame,
    words: &[Word],
    slots: [Word; 8],
    page: PageNumber,
    i: usize,
    s: Strength,
) -> Option<usize>
    requires { (bounds_ok (frame_of f words.now) ≡ true) × (i < 8) }
    ensures { FirstOf (λ j. some (apart.pair_fault (frame_of f words.now) words.now slots (strength_of s) page.0 i j)) 0 slot_count result }
{
    let p = has(f, words, slots[i], page);
    for j in i + 1..8 {
        if meets(p, has(f, words, slots[j], page), s) {
            return Some(j);
        }
    }
    None
}

// What is at fault with a page that two slots share, and the first two with which it is.
pub fn pair_fault(
    f: Frame,
    words: &[Word],
    slots: [Word; 8],
    page: PageNumber,
    s: Strength,
) -> Separation
    requires { bounds_ok (frame_of f words.now) ≡ true }
    ensures { separation_of (Ok result) ≡ head_d (pair_faults (frame_of f words.now) words.now slots (strength_of s) page.0) apart.apart }
{
    for i in 0..8usize {
        if let Some(j) = partner(f, words, slots, page, i, s) {
            let written = writes(has(f, words, slots[i], page))
                | writes(has(f, words, slots[j], page));
            return Separation::PageShared(page, i as u64, j as u64, written);
        }
    }
    Separation::Apart
}
