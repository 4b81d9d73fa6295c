//! A durable log of references to transactions: the sequencer log of a volume, whose records count one by one, each once its
//! gate is open.
//!
//! File 1 begins with a mark of 8 bytes. Record n begins 25·n bytes behind it: a gate in one byte, and the place of a
//! transaction's bytes in the write-ahead log. The list is that of the records before the first gate that isn't 1. A record's
//! body is written together with the closed gate behind it, and synced; then its own gate is opened by a write of one byte, and
//! synced.
#![tactic(auto)]

mod laws;
mod layout;
mod log;
mod reading;

pub use laws::{
    damage_has_one_place, damaged_gives_none, one_list_is_given, other_files_leave_it,
    what_is_known_is_given,
};
pub use layout::{LOG, MAX_SEGMENTS};
pub use log::SeqLog;
pub use qd_durable::LogFault;
