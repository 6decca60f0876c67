// Columns of plain items, one after the other in a store, and how those of words are stored.
#![tactic(auto)]

pub mod items;
pub mod kind;
pub mod writing;
