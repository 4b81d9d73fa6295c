//! What batches of lines do: the transaction of a batch over the tables that are there, made at once or taken change by
//! change.
//!
//! The definitions stand in `qd_ilp`'s `specs/Transaction` (what a line does, its codes, and what all lines say).
#![tactic(auto)]

mod cells;
mod changes;
mod codes;
mod draft;
mod fault;
mod laws;
mod lent;
mod names;
mod overlay;
mod own;
mod sink;
mod values;
mod walk;

pub use fault::LineFault;
pub use laws::{
    answers_fit, batches_are_lawful, every_batch_is_answered, lines_act_in_turn, one_answer,
};
pub use lent::CellView;
pub use sink::OpSink;
pub use walk::{entry_of, walk_batch};
