//! What logs and roots on a volume are made of: bytes written over a range of a file and waited for, with what a crash at
//! any moment of that leaves, and why a log isn't opened.
#![tactic(auto)]

mod fault;
mod laws;
#[cfg(test)]
mod tests;
mod writing;

pub use fault::LogFault;
pub use laws::{calls_join, pieces_stay, ranges_widen};
pub use writing::{write_both, write_through};
