// Kinds of access, what each needs, who may do what, and the cause of a fault.
ghost use Rattle.std.specs.Prelude.{◌≡◌, ◌<◌};
ghost use Rattle.model.specs.Access as access;
ghost use Rattle.model.specs.Lookup as lookup;
ghost use Rattle.types.specs.Views.{permission_number, need_view, access_of, kind_of, privilege_of, cause_number};

use crate::{Access, Cause, Kind, Need, Permission, Privilege};

// "a small table of four permissions by three needs, kept as rows": none, rx, rw, rwx; read, write, execute.
const MAY_ROWS: [[bool; 3]; 4] = [
    [false, false, false],
    [true, false, true],
    [true, true, false],
    [true, true, true],
];

// A permission from its two bits. No `TryFrom`: of two bits it cannot fail.
pub fn permission_of(bits: u64) -> Permission
    requires { bits < 4 }
    ensures { permission_number result ≡ bits }
{
    match bits {
        0 => Permission::None,
        1 => Permission::Rx,
        2 => Permission::Rw,
        _ => Permission::Rwx,
    }
}

// Its two bits, as an entry holds them.
impl From<Permission> for u64 {
    ghost from_gives = { λ p n. (n ≡ permission_number p) × (n < 4) };

    fn from(p: Permission) -> u64 {
        match p {
            Permission::None => 0,
            Permission::Rx => 1,
            Permission::Rw => 2,
            Permission::Rwx => 3,
        }
    }
}

// The place of a need in a row of the paper's table: no other form of the need, and so no `From`.
#[tactic(auto, unfolding(model::specs::Access::column_of))]
fn column(n: Need) -> usize
    ensures { (result ≡ access.column_of (need_view n)) × (result < 3) }
{
    match n {
        Need::Read => 0,
        Need::Write => 1,
        Need::Execute => 2,
    }
}

#[tactic(auto, unfolding(model::specs::Access::may, model::specs::Access::may_rows))]
pub fn may(p: Permission, n: Need) -> bool
    ensures { result ≡ access.may (permission_number p) (need_view n) }
{
    let i = u64::from(p) as usize;
    let j = column(n);
    MAY_ROWS[i][j]
}

// "A fetch needs execute, a load and a page-table read need read, a store and an A/D update need write." No
// `From`: this is a rule of the paper, and not the kind in another form.
#[tactic(auto, unfolding(model::specs::Access::need_of))]
pub fn need_of(kind: Kind) -> Need
    ensures { need_view result ≡ access.need_of (kind_of kind) }
{
    match kind {
        Kind::Itself(a) => match a {
            Access::Fetch => Need::Execute,
            Access::Load => Need::Read,
            Access::Store => Need::Write,
        },
        Kind::TableRead(_) => Need::Read,
        Kind::Update(_) => Need::Write,
    }
}

impl From<Access> for Cause {
    ghost from_gives = { λ a c. cause_number c ≡ access.cause_of (access_of a) };

    #[tactic(auto, unfolding(model::specs::Access::cause_of))]
    fn from(a: Access) -> Cause {
        match a {
            Access::Fetch => Cause::Fetch,
            Access::Load => Cause::Load,
            Access::Store => Cause::Store,
        }
    }
}

// "The fault is that of the original access: fetch 1, load 5, store 7." No `From`, as in `need_of`: it is a rule of the paper.
#[tactic(auto, unfolding(model::specs::Access::original_of))]
pub fn cause_of(kind: Kind) -> Cause
    ensures { cause_number result ≡ access.cause_of (access.original_of (kind_of kind)) }
{
    match kind {
        Kind::Itself(a) => Cause::from(a),
        Kind::TableRead(a) => Cause::from(a),
        Kind::Update(a) => Cause::from(a),
    }
}

// A lookup of M is allowed whatever it is of, and walks no table.
#[tactic(auto, unfolding(model::specs::Lookup::is_machine))]
pub fn is_machine(privilege: Privilege) -> bool
    ensures { result ≡ lookup.is_machine (privilege_of privilege) }
{
    privilege == Privilege::Machine
}
