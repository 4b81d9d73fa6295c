//! The versions of a store on a volume: the durable root, the live versions with their blocks, and the column
//! files of those blocks.
//!
//! The current version stands in the version files, as `qd_txnfile` keeps them, by its manifest; the columns of
//! its parts stand in the files of their blocks. A publication writes the files of new blocks first, and rows
//! behind those of older ones, then the version, and then makes it the current one. Each version shows a
//! beginning of its blocks' files. A block's files are removed once no live version lists it.
//! `specs/Stores` says what is known of a volume, `specs/Calls` what each call may leave of it.
#![tactic(auto)]

mod catalog;
mod fault;
mod growing;
mod keeping;
mod laws;
mod opening;
mod published;
mod store;
mod undoing;
mod writing;

pub use fault::PublishFault;
pub use keeping::{MAX_KEPT, MAX_KEPT_TEXTS};
pub use laws::{
    damaged_gives_no_store, other_files_leave_tails, other_files_leave_versions,
    what_is_known_is_given,
};
pub use published::{GrownBlock, NewBlock};
pub use qd_durable::LogFault;
pub use store::{MAX_SHOWN, VersionStore};
