// Small examples that a reader can work by hand, made by real calls and proved as one table.
#![tactic(auto)]

mod bit_columns;
mod routes;
pub mod table;
mod writing;
