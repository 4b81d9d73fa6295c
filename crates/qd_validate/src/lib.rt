//! Whether a transaction is lawful over the schemas that are there, and the schemas behind it.
//!
//! What is lawful is defined in `qd_base`, in `specs/Lawful`. It says two things of each change: that it fits the schemas
//! before it, and that it is of good form there; and of a transaction, that it inserts no more cells than it may, and that
//! a change that sets keys is its only one.
#![tactic(auto)]

mod cells;
mod lawful;
mod schema;

pub use lawful::follow;
