//! What stands outside the database, as traits with a written meaning: byte sources, byte sinks and clocks,
//! with those over memory that tests use, and those over the standard streams and the system's time.
//!
//! Each device counts its failures in a number that never falls. A caller that is answered
//! [`IoFault::Failed`] knows that the device's count has risen in that call, so every fault that a program
//! reports has its cause outside.
#![tactic(auto)]

mod fault;
mod lent;
mod memory;
mod pair;
mod standard;
#[cfg(test)]
mod tests;
mod traits;
mod writing;

pub use fault::IoFault;
pub use memory::{FailurePlan, MemClock, MemSink, MemSource};
pub use pair::Both;
pub use standard::{StdClock, StdSink, StdSource};
pub use traits::{Clock, Ends, Sink, Source};
pub use writing::write_all;

/// Want of memory, where it is all that can go wrong.
pub type Memory = std::alloc::AllocError;
