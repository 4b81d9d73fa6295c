//! Result rows over shared blocks: each row is known by its place, and its cells are read where they lie.
#![tactic(auto)]

mod runs;
mod set;

pub use runs::{Place, Run};
pub use set::RowSet;
