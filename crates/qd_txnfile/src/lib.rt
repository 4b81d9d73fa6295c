//! A durable root: two version files of a volume, each behind a gate, which give one version at every moment.
//!
//! File 2 and file 3 each hold a gate in one byte, the number of a version in 8, the length of its manifest in 8, and the
//! manifest. The version is that of the greater number among the files whose gate is 1. A new version is written into the
//! file that doesn't hold the current one, behind a gate that is closed on the disk, and synced; then its gate is opened by
//! a write of its own, and synced.
#![tactic(auto)]

mod half;
mod head;
mod laws;
mod opening;
mod reading;
mod root;

pub use half::{FIRST, Half, Other, SECOND};
pub use laws::{
    damage_has_one_place, damaged_give_none, one_version_is_given, what_is_known_is_given,
};
pub use opening::Found;
pub use qd_durable::LogFault;
pub use root::TxnFile;
