// Forward walks over a bit column.
#![tactic(auto)]

pub mod cursor;
pub mod laws;
