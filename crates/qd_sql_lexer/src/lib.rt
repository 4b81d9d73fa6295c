//! The texts of SQL: what their tokens are.
#![tactic(auto)]

mod cut;
mod laws;
mod token;

pub use cut::tokens;
pub use laws::{texts_have_tokens, tokens_are_the_only_ones};
pub use token::{Kind, Token};

#[cfg(test)]
mod tests;
