//! Rows by the numbers of their keys: two rows have one number exactly where they are equal on all of some columns.
#![tactic(auto)]

mod columns;
mod numbers;
mod rows;
mod symbols;

pub use numbers::Numbers;
pub use rows::key_numbers;
