// Stores of items: what a reading and a growing one mean, and four of words, of which the lent one serves
// bytes as well.
#![tactic(auto)]

pub mod heap;
pub mod lent;
pub mod part;
pub mod reading;
pub mod table;
