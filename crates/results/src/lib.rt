// Columns of results: marks that tell Ok from Err, and the items of each variant one after the other.
#![tactic(auto)]

pub mod fault;
pub mod growing;
pub mod kind;
pub mod results;
pub mod writing;
