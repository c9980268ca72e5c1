// Pages side by side in a number, their permissions in its fields: what some slots have of all of them at once.
ghost use Rattle.std.specs.Prelude.{◌≡◌, true, ◌&&◌, ℕ, ◌+◌, ◌*◌, ◌<◌};
ghost use Rattle.sharing.specs.Crowds.{is_crowd};
ghost use Rattle.sharing.specs.Masks.{bit, open_bit, reach_bit, one, Counted};
ghost use Rattle.table.specs.Board.{board};
ghost use Rattle.types.specs.Views.{strength_of};

use table::board::EACH_FIELD;
use table::word::PERMISSION_BITS;
use types::{Masks, Strength};

// No slot yet. No derived `Default`, of which no clause would say that it counts none.
pub fn none() -> Masks
    ensures { (k : ℕ) → Counted result k 0 0 }
{
    Masks {
        once: 0,
        twice: 0,
        reached: 0,
    }
}

// By the bits of the permissions: either opens its page; the upper one is that of a write.
fn opened(bits: u64) -> u64
    ensures { (k : ℕ) → bit result k ≡ open_bit bits k }
{
    bits | (bits >> 1)
}

fn reached(bits: u64, s: Strength) -> u64
    ensures { (k : ℕ) → bit result k ≡ reach_bit (strength_of s) bits k }
{
    match s {
        Strength::Strict => opened(bits),
        Strength::Sharing => bits >> 1,
    }
}

// One slot more, whose permissions are these.
pub fn add(masks: Masks, bits: u64, s: Strength) -> Masks
    ensures { (k c d : ℕ) → Counted masks k c d → Counted result k (c + one (open_bit bits k)) (d + one (reach_bit (strength_of s) bits k)) }
{
    let more = opened(bits);
    Masks {
        once: masks.once | more,
        twice: masks.twice | (masks.once & more),
        reached: masks.reached | reached(bits, s),
    }
}

// The pages that are open to two slots of which one reaches it. each has a bit for each page.
pub fn crowds(masks: Masks, each: u64) -> u64
    ensures { ((k : ℕ) → bit result k ≡ true → bit each k ≡ true) × ((k c d : ℕ) → Counted masks k c d → bit result k ≡ (is_crowd c d && bit each k)) }
{
    masks.twice & masks.reached & each
}

// What stands for piece i, in each field.
fn spread(bits: u64, i: u64) -> u64
    requires { i < board.pieces }
    ensures { (j : ℕ) → j < board.fields → bit result (4 * j) ≡ bit bits (2 * i) }
{
    (bits >> (PERMISSION_BITS * i)) % 2 * EACH_FIELD
}

// Masks by pieces, for the L1 entries of piece i.
pub fn of_piece(masks: Masks, i: u64) -> Masks
    requires { i < board.pieces }
    ensures { (j c d : ℕ) → j < board.fields → Counted masks (2 * i) c d → Counted result (4 * j) c d }
{
    Masks {
        once: spread(masks.once, i),
        twice: spread(masks.twice, i),
        reached: spread(masks.reached, i),
    }
}
