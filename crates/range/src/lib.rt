// What an edit asks: whether it may have the range and the permission, and which L1 entries the range can meet.
#![tactic(auto)]

pub mod bounds;
pub mod l1_entries;
