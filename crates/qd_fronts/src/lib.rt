//! The protocols that a connection may speak, as one front.
#![tactic(auto)]

mod front;

pub use front::{AnyFront, FrontKind};

#[cfg(test)]
mod tests;
