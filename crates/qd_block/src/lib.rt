//! Blocks: rows in order of time, kept by columns.
#![tactic(auto)]

mod block;
mod builder;
mod order;
mod rows;

pub use block::{Block, ColumnView};
pub use builder::Builder;
pub use order::{rises, time_order};
