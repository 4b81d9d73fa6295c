//! Statements that write: the transaction that CREATE TABLE, INSERT or ALTER TABLE makes over the tables that are there, or
//! why it is refused.
//!
//! What they mean is defined in `qd_meaning`: `Write`, `Creating`, `Inserting`, `Altering`, and which of several refusals is
//! answered in `Refusals`. Here each refusal is looked for by a function of its own.
#![tactic(auto)]

mod alter;
mod check;
mod create;
mod insert;
mod judge;
mod keys;
mod literal;
mod met;
mod names;
mod rows;
mod tuple;

pub use check::{StmtFault, check_write};
