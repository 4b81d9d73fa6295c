//! Write-ahead logs: entries of transactions, one behind another in the segments of a log, with what a crash leaves of them
//! at every moment.
//!
//! Segment s of log w is the file 2^63 + w·2^24 + s of a volume. It holds entries alone, as `qd_wal_entry` spells them. Where an
//! entry lies is a [`qd_base::WalRef`]; what no one refers to is of no account.
#![tactic(auto)]

mod laws;
mod reading;
mod writer;

pub use laws::{
    damage_has_one_place, damaged_is_unspelled, entries_stay, one_entry_is_read, segments_are_files,
};
pub use reading::{ReadFault, read_entry};
pub use writer::{WalWriter, segment_file};
