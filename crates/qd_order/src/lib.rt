//! ORDER BY and LIMIT: which rows are the answer, and in what order.
#![tactic(auto)]

mod columns;
mod compare;
mod keys;
mod laws;
mod ordering;
mod outputs;
mod places;
mod selecting;
mod sorting;

pub use laws::ordered_sorts;
pub use ordering::{order_of_rows, order_of_set};
pub use outputs::{output_of_place, output_of_row, output_width};
pub use places::Places;
