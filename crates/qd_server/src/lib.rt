//! A server: each connection that a listener gives is served by a job in a thread of its own, so many at once at most.
#![tactic(auto)]

mod accept;
mod maker;
#[cfg(test)]
mod tests;

pub use accept::accept_all;
pub use maker::{MOST, Maker};
