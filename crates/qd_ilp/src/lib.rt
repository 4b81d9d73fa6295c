//! Lines of InfluxDB's line protocol: how a batch of them is read.
//!
//! The definitions stand in `specs/`: `Cut` (where a name, a value or a text ends, and what it stands for), `Line`
//! (what a line is) and `Whole` (what a whole text is).
#![tactic(auto)]

mod batch;
mod cut;
mod item;
mod lanes;
mod laws;
mod row;
mod stop;
mod tail;
#[cfg(test)]
mod tests;
mod value;
mod view;

pub use batch::{Batch, lacks_time, parse_batch};
pub use laws::{escapes_are_undone, parts_are_cut, texts_are_read, worked_lines};
pub use value::When;
pub use view::{ItemView, RowView, ValueView};
