//! Scans: the rows of a table with a time in an interval, from any source of the table's parts.
#![tactic(auto)]

mod fault;
mod scans;
mod source;

pub use fault::PartFault;
pub use scans::scan;
pub use source::PartSource;
