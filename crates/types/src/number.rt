// The papers' numbers for what a call answers.
ghost use Rattle.std.specs.Prelude.{◌≡◌};
ghost use Rattle.types.specs.Views.{cause_number, refusal_number};

use crate::{Cause, Refusal};

// "fetch 1, load 5, store 7"
impl From<Cause> for u64 {
    ghost from_gives = { λ c n. n ≡ cause_number c };

    fn from(c: Cause) -> u64 {
        match c {
            Cause::Fetch => 1,
            Cause::Load => 5,
            Cause::Store => 7,
        }
    }
}

// The numbers of "When the monitor says no", and document 02's.
impl From<Refusal> for u64 {
    ghost from_gives = { λ why n. n ≡ refusal_number why };

    fn from(why: Refusal) -> u64 {
        match why {
            Refusal::Frame => 1,
            Refusal::Register => 2,
            Refusal::NotSound => 3,
            Refusal::Slot => 4,
            Refusal::Range => 5,
            Refusal::LentPages => 6,
            Refusal::NoRoom => 7,
            Refusal::Sdid => 8,
            Refusal::WriteExecute => 10,
        }
    }
}
