//! Jobs that run in threads of their own: each has a promise about what it gives, and one whose thread can't be started is
//! handed back as it was.
#![tactic(auto)]

mod job;
#[cfg(test)]
mod tests;
mod threads;

pub use job::{Job, Started};
pub use threads::{STACK_BYTES, Threads};
