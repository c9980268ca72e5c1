// Stores of entries up to a limit: one, a row of neighbours, all of an L1 page. Each function asks that its own stores are ahead (`Ahead`), of the
// words as they stand: a list that is another for each, so it is a clause of each and no field of a type. Each loop that stores is written out, for
// a reader of the text sees which function stores, and in one over a closure would not.
#![tactic(auto)]

mod fresh;
pub mod link;
pub mod new_page;
pub mod own;
pub mod put;
pub mod rows;
