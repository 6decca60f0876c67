// What a column of items is: one that reads, one that grows, and how its list is stored.
#![tactic(auto)]

pub mod asking;
pub mod column;
pub mod granted;
pub mod kind;
pub mod marks;
pub mod stored;
pub mod writing;
