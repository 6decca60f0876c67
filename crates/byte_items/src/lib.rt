// Bytes: how they are stored in words, the store that reads them there, and columns of them.
#![tactic(auto)]

pub mod kind;
pub mod part;
