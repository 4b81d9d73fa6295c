//! The last row of each key.
#![tactic(auto)]

mod lasts;
mod laws;
mod linked;
mod nulls;
mod parts;
mod rows;
mod walk;

pub use laws::{chains_are_latest_first, latest_rows_are_last};
pub use linked::chains;
pub use rows::latest;
