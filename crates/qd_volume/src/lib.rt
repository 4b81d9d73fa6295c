//! Stored bytes: a volume of files as a trait, with a written meaning of what a crash may leave, with one in memory that
//! tests can crash, one in memory that keeps no record, one that fails after a number of calls, and one over a folder of the
//! file system.
#![tactic(auto)]

mod folder;
mod fuse;
mod laws;
mod memory;
#[cfg(test)]
mod tests;
mod traits;

pub use folder::{Act, Failure, FolderVolume, Refusal};
pub use fuse::FuseVolume;
pub use laws::{
    moments_go_on, now_is_a_moment_since, other_files_stay, reads_as_an_image, synced_as_it_reads,
};
pub use memory::{HeapVolume, MemVolume};
pub use traits::Volume;

/// Want of memory, where it is all that can go wrong.
pub type Memory = std::alloc::AllocError;
