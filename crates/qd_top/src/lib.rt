//! The top call of the program: it reads the words, serves the input, and gives the status.
//!
//! `specs/Run` says what each status means.
#![tactic(auto)]

mod arguments;
mod opening;
mod ports;
mod program;
mod serving;
mod status;

pub use arguments::run_program;
pub use program::top;
