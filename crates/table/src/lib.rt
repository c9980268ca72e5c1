// The leaves, each on one word or one number. What differs between the boards is in `board`.
#![tactic(auto)]

pub mod board;
pub mod lent;
pub mod place;
pub mod register;
pub mod root;
pub mod store;
pub mod word;
