//! A session's backend over a store that many threads share: requests are committed, applied and answered through a pass.
//!
//! `specs/Shared` has the rule of such a session, `specs/Passed` what it shows.
#![tactic(auto)]

mod asking;
mod back;
mod memo;
mod parts;

pub use back::PassBack;
