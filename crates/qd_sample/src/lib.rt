//! Samples: the rows of a set by buckets of time and by the values of some expressions, what aggregates make of each, and
//! what stands for buckets without rows.
#![tactic(auto)]

mod buckets;
mod cells;
mod fault;
mod filling;
mod groups;
mod laws;
mod rows;
mod sampling;
mod times;

pub use fault::SampleFault;
pub use laws::{each_bucket_has_each_key, sample_is_grouping, starts_are_all, sums_of_buckets};
pub use sampling::sample;
