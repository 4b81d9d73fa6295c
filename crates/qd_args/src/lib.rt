//! The words of a command line, and the command that they ask for.
//!
//! `specs/Words` says which words ask for which command.
#![tactic(auto)]

mod command;
mod laws;
mod line;
mod number;
mod piece;
mod reading;
#[cfg(test)]
mod tests;

pub use command::{Command, MAX_CONNECTIONS, MAX_GEN_LINES, Spoken};
pub use laws::words_ask_for_one;
pub use reading::read_words;
