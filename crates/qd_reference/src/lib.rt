//! Plain programs beside the definitions of `qd_base`: each contract is the definition, on every input.
//!
//! They are slow on purpose: rows are looked through from first to last and copied, more than once. Tests of faster
//! bodies compare their answers with these; no program calls them.
//!
//! `compare` asks whether cells and rows are equal, and when a row was; `rows` puts rows into the rows of a table.
#![tactic(auto)]

mod compare;
mod rows;

pub use rows::{put, put_all};
