//! What a program is given of the machine beside its two standard streams, as a trait with a written meaning: clocks,
//! a volume and listeners, lent and taken back, with a host in memory for tests, and the machine itself.
#![tactic(auto)]

mod hosts;
mod laws;
mod lent;
mod memory;
mod standard;
#[cfg(test)]
mod tests;

pub use hosts::Host;
pub use laws::faults_come_back;
pub use lent::Lent;
pub use memory::{MemHost, MemWire};
pub use standard::{StdHost, StdVolume, Trouble};

/// Want of memory, where it is all that can go wrong.
pub type Memory = std::alloc::AllocError;
