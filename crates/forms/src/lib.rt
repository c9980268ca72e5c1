// The finished form of each block that an edit touches, worked out by words and not page by page. What is asked of an entry or a root (`Good`,
// `Rooted`) speaks of the lent words, which stand beside it by reference: so it is a clause of each function, and no field of a type.
#![tactic(auto)]

pub mod block;
pub mod blocks;
mod even;
pub mod gibs;
mod pieces;
pub mod words;
