//! HTTP/1.0 and HTTP/1.1: a front that takes requests from bytes in any pieces, and answers them with JSON.
#![tactic(auto)]

mod escape;
mod fields;
mod front;
mod head;
mod laws;
mod limits;
mod lines;
mod queue;
mod reader;
mod reply;
mod rows;
mod target;
mod wanted;

pub use front::HttpFront;
pub use limits::{MAX_BODY_BYTES, MAX_FIELDS, MAX_HEAD_BYTES};

#[cfg(test)]
mod tests;
