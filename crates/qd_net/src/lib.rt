//! Where connections come from: a trait with a written meaning, with one over wires in memory that tests use, and one over a
//! port of this machine.
#![tactic(auto)]

mod count;
mod memory;
mod tcp;
#[cfg(test)]
mod tests;
mod traits;

pub use memory::MemDoor;
pub use tcp::{DRAIN_SECONDS, DRAINED_BYTES, MOST_DRAINED, TIMEOUT_SECONDS, TcpDoor, TcpEnd};
pub use traits::{Listener, Wire};
