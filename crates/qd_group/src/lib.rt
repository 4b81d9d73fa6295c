//! Groups of rows: the rows of a set by the values of some expressions, and what aggregates make of each group.
#![tactic(auto)]

mod answers;
mod by_groups;
mod classes;
mod extremes;
mod groups;
mod keeping;
mod keys;
mod laws;
mod longs;
mod pairs;
mod sums;
mod symbols;
mod tallies;
mod tallying;

pub use answers::{columns_of, group};
pub use classes::{grouped_rows, numbered, refined};
pub use groups::Groups;
pub use keys::{Key, keys_of};
pub use laws::{extremes_go_first, groups_split_rows};
