//! Connections to a shared store: each is served by a session in a thread of its own, with a pass of its own.
#![tactic(auto)]

mod away;
mod maker;
mod serving;
mod visit;

pub use maker::Connections;
pub use serving::{Served, serve_connections};
pub use visit::{Visit, Visited};
