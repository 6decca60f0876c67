// Bit columns over any word stores: `Bools` holds the bits, `RankSelect` counts them too.
#![tactic(auto)]

pub mod bools;
pub mod group;
mod in_word;
pub mod rank_select;
pub mod tail;
