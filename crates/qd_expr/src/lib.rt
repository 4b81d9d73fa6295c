//! Expressions on the rows of a set, read where they lie, and the rows that pass a test.
#![tactic(auto)]

mod cells;
mod columns;
mod filters;
mod numbers;
mod on_set;
mod runs;

pub use cells::Joined;
pub use filters::filter;
pub use on_set::{eval, scalar, test};
pub use runs::truths;
