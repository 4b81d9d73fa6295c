//! The sequencer of a store: it commits transactions, one behind another, so that each is there for good once it is answered,
//! and knows the schemas that all of them leave.
//!
//! A transaction's entry is put behind the others of its writer in the write-ahead log (`qd_wal`), then its place is appended
//! to the log of references (`qd_seq`). What that leaves at each moment stands in `specs/Calls`, and what holds between two
//! calls in `specs/Sequences`, as `IsSequence`.
#![tactic(auto)]

mod behind;
mod entering;
mod fault;
mod laws;
mod sequencer;
mod writers;

pub use fault::{CommitFault, Committed};
pub use laws::{other_files_leave_the_sequence, what_a_sequence_holds};
pub use sequencer::Sequencer;
