//! Columns of cells, kept as numbers, ids of symbols or one buffer of text.
//!
//! Contracts see a column as its kind and the list of its cells; `specs/Cells` says which number stands for which cell.
#![tactic(auto)]

mod column;
mod copying;
mod gather;
mod parts;
mod reading;
mod runs;
mod symbols;
mod texts;

pub use column::Column;
pub use gather::{gathered, part_of};
pub use runs::{Run, Side, spliced};
pub use symbols::Symbols;
pub use texts::Texts;
