// The indexed store: slices of bytes in words, behind a table of their ends.
#![tactic(auto)]

pub mod laws;
pub mod store;
pub mod table;
pub mod worked;
