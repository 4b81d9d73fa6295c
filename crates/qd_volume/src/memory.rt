//! Volumes in memory: one that tells all that happened to it and fails where it is told to, and one that keeps its bytes alone.
mod bytes;
mod contents;
mod heap;
mod note;
mod saved;
mod volume;

pub use heap::HeapVolume;
pub use volume::MemVolume;
