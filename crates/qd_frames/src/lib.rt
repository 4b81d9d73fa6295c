//! The frame grammar: a front that takes requests from bytes in any pieces, and prints replies as lines.
#![tactic(auto)]

mod buffer;
mod front;
mod head;
mod laws;
mod queue;

pub use front::FrameFront;
