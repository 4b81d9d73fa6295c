//! What the next version of a store is: transactions merged into the parts of a version.
//!
//! `specs/Arrivals` says what transactions bring, `specs/Next` what the next version is, and `specs/Stands` which
//! database a version stands for. A `Draft` takes transactions; its `Plan` tells the parts that rows are merged into, and
//! what of each stays as it lies, and makes from the rows behind the next version's tables, its new blocks, and the rows
//! that go behind those of old ones.
#![tactic(auto)]

mod batching;
mod drafts;
mod laws;
mod merging;
mod olds;
mod planning;
mod plans;
mod tables;
mod waiting;

pub use drafts::{Draft, schemas_of};
pub use laws::{arrivals_are_replayed, merging_stands, rows_are_few, worked_examples};
pub use merging::Grown;
pub use olds::{Late, OldPart, Stay};
pub use planning::{Merged, Plan};
