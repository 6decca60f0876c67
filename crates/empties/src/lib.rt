// Columns of units: only their number is kept.
#![tactic(auto)]

pub mod empties;
pub mod kind;
pub mod writing;
