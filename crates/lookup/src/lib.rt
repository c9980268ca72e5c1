// The lookup: frame, register, privilege, Bare, walk, permission.
#![tactic(auto)]

ghost use Rattle.std.specs.Prelude.{◌≡◌, true, ◌<◌, if◌then◌else◌};
ghost use Rattle.model.specs.Entry.{perm};
ghost use Rattle.model.specs.Frame.{bounds_ok, page_of};
ghost use Rattle.model.specs.Register.{is_bare, ppn_of};
ghost use Rattle.model.specs.Walk as walk;
ghost use Rattle.model.specs.Access as access;
ghost use Rattle.model.specs.Lookup as lookup;
ghost use Rattle.table.specs.Board.{board, MAX-BLOCKS, frame_of};
ghost use Rattle.types.specs.Views.{entry_of, found_of, permission_number, need_view, kind_of, cause_number, privilege_of, answer_of};
ghost use Rattle.lookup.specs.Granted.{granted_of};
ghost use Rattle.table.specs.Bounds.{Small};

use table::board::Word;
use table::{lent, place, register, root, word};
use types::{
    Address, Answer, Cause, Entry, Frame, Kind, Need, PageNumber, Permission, Privilege, Refusal,
    pages, rights,
};

// The first stage: L2 entry b of a root, decoded once. It says nothing where the root page is not lent.
fn l2_entry(f: Frame, words: &[Word], root: PageNumber, b: u64) -> Entry
    requires { b < MAX-BLOCKS }
    ensures { (entry_of result ≡ walk.entry_at (frame_of f words.now) words.now root.0 b) × Small (entry_of result) }
{
    if lent::is_lent(f, words.len(), root) {
        return root::entry_at(f, words, root, b);
    }
    Entry::Invalid
}

// The field of an L1 page that speaks for a page: the entry by pn[1], its field by pn[0].
fn in_table(f: Frame, words: &[Word], table: PageNumber, number: PageNumber) -> Option<Permission>
    ensures { found_of result ≡ walk.found (frame_of f words.now) words.now (entry_of (Entry.Table table)) number.0 }
{
    if lent::is_lent(f, words.len(), table) {
        let at = lent::page_at(f, words, table) + place::pn1(number) as usize;
        return word::field_found(words[at], place::pn0(number));
    }
    None
}

// The second stage: what an L2 entry finds for a page of its block.
fn found(f: Frame, words: &[Word], e: Entry, number: PageNumber) -> Option<Permission>
    requires { Small (entry_of e) }
    ensures { found_of result ≡ walk.found (frame_of f words.now) words.now (entry_of e) number.0 }
{
    match e {
        Entry::Flat(p) => Some(rights::permission_of(p)),
        Entry::Pieces(info) => {
            Some(rights::permission_of(word::piece(info, place::piece_of(number))))
        }
        Entry::Table(table) => in_table(f, words, table, number),
        Entry::Invalid => None,
    }
}

// "An address of 2^PAW or more faults."
pub fn walk(f: Frame, words: &[Word], root: PageNumber, number: PageNumber) -> Option<Permission>
    requires { bounds_ok (frame_of f words.now) ≡ true }
    ensures { found_of result ≡ walk.walk (frame_of f words.now) words.now root.0 number.0 }
{
    if number.0 < lent::page_count(f, words.len()) {
        return found(
            f,
            words,
            l2_entry(f, words, root, pages::pn2(number)),
            number,
        );
    }
    None
}

// What the walk finds, as a permission: a walk that faults serves no access, and neither does none. No `unwrap_or`: by it a lookup missed its goal, at
// 1.02 to 1.04 times what the plain program takes, where it takes 0.99 so.
pub fn granted(found: Option<Permission>) -> Permission
    ensures { permission_number result ≡ granted_of (found_of found) }
{
    match found {
        Some(p) => p,
        None => Permission::None,
    }
}

// What an access is answered that has this need, and whose fault has this cause.
fn judge(found: Option<Permission>, need: Need, cause: Cause) -> Answer
    ensures { (k : access.Kind) → need_view need ≡ access.need_of k → cause_number cause ≡ access.cause_of (access.original_of k)
        → answer_of (Ok result) ≡ access.judge (found_of found) k }
{
    if rights::may(granted(found), need) {
        return Answer::Allowed;
    }
    Answer::Fault(cause)
}

// "effective privilege M is allowed; Bare is allowed; else the walk": what is allowed is found as rwx, which serves every access. So there is one place at which
// an access is judged, and a compiler makes that choice without a branch.
fn reached(
    f: Frame,
    words: &[Word],
    register: Word,
    privilege: Privilege,
    a: Address,
) -> Option<Permission>
    requires { bounds_ok (frame_of f words.now) ≡ true }
    ensures { found_of result ≡ (if lookup.is_machine (privilege_of privilege) then perm 3 else if is_bare board register then perm 3 else
        walk.walk (frame_of f words.now) words.now (ppn_of board register) (page_of a.0)) }
{
    if privilege == Privilege::Machine {
        return Some(Permission::Rwx);
    }
    if register::is_bare(register) {
        return Some(Permission::Rwx);
    }
    walk(f, words, register::ppn(register), pages::page_of(a))
}

// "A lookup checks the frame, then the register, then: effective privilege M is allowed; Bare is allowed; else the walk." What the access
// needs, and its fault, are asked before the walk: the answer is then one choice between two values at hand.
pub fn lookup(
    f: Frame,
    words: &[Word],
    register: Word,
    privilege: Privilege,
    kind: Kind,
    a: Address,
) -> Result<Answer, Refusal>
    ensures { answer_of result ≡ lookup.lookup (frame_of f words.now) words.now register (privilege_of privilege) a.0 (kind_of kind) }
{
    let need = rights::need_of(kind);
    let cause = rights::cause_of(kind);
    if !lent::frame_ok(f, words) {
        return Err(Refusal::Frame);
    }
    if !register::register_ok(register) {
        return Err(Refusal::Register);
    }
    let found = reached(f, words, register, privilege, a);
    Ok(judge(found, need, cause))
}
