//! Transactions made ready to be committed: the bytes of their entry, and the schemas that they leave.
//!
//! What a batch or a statement does is defined below: in `qd_ilp`'s `specs/Transaction` and `qd_meaning`'s `specs/Write`.
//! Here it becomes the bytes that a log takes, `qd_wal_entry`'s `specs/Spelling`. No volume is written.
#![tactic(auto)]

mod fits;
mod prepare;
mod schemas;
mod sink;
mod write;

pub use prepare::{Prepared, prepare_lines, prepare_stmt};
