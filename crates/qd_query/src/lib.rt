//! Queries: a statement that asks is answered over any source of the parts of tables, by its rows or by the refusal that
//! goes first.
//!
//! `run_query` makes the plan of the statement, and runs it: the rows of the table or of the join, those that pass the test,
//! the last of each key, what is made of them, and their order. Its answer is that of the plain meaning of statements, which
//! `specs/Answers` names; SHOW PARTITIONS counts rows as `specs/Counted` says. It asks for those parts of tables alone that
//! the statement needs (`specs/Needs`), by the times that WHERE allows (`specs/Times`). Each cell of an answer is of its
//! column's type (`specs/Typed`).
#![tactic(auto)]

mod answer;
mod interval;
mod laws;
mod lengths;
mod output;
mod partitions;
mod plans;
mod queries;
mod sources;

pub use answer::Answer;
pub use laws::answers_are_typed;
pub use queries::run_query;
