//! What an expression means on a row: the tree of a bound expression, its value, and whether a row passes a test.
//!
//! The definitions stand in `specs/`: `Cells` (arithmetic and comparisons of two cells), `Value` (the value of an expression)
//! and `Laws` (what holds of every expression and every row).
#![tactic(auto)]

mod bound;
mod laws;
mod on_row;
mod scalars;
#[cfg(test)]
mod tests;

pub use bound::{Arithmetic, Bound, Comparison, Operand};
pub use laws::{
    arithmetic_is_exact, equality_has_an_opposite, in_is_many_equals, not_turns_and_and_or,
    orderings_are_by_class, tests_are_truths,
};
pub use on_row::{eval, scalar, test};
pub use scalars::{Scalar, arithmetic, compares, equal, is_among, is_within, negated, order};
pub use sqlite_items::{Boxed, Items};
