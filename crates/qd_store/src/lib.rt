//! A store: one owner of a volume, which commits transactions, applies them as new versions, removes what no version lists, and
//! opens after any stop with every acknowledged transaction and at most one more.
#![tactic(auto)]

mod accepting;
mod book;
mod calls;
mod drafting;
mod fault;
mod laws;
mod mark;
mod merging;
mod opening;
mod reading;
mod store;

pub use drafting::Draft;
pub use fault::{OpenFault, PublishFault};
pub use laws::{applied_is_all, crashed_is_whole, one_is_found, stores_are_whole, writers_go_on};
pub use merging::Merged;
pub use qd_durable::LogFault;
pub use qd_sequencer::{CommitFault, Committed};
pub use store::{Store, Unmade};
