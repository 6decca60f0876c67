// Columns of options: marks that tell Some from None, and the Some items one after the other.
#![tactic(auto)]

pub mod fault;
pub mod growing;
pub mod kind;
pub mod options;
pub mod writing;
