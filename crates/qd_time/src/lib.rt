//! Time: the calendar, the texts of moments and intervals, and the buckets of samples.
//!
//! A timestamp is a number of microseconds since 1970-01-01T00:00:00Z, from 0 to [`MAX_TIME`]. The
//! calendar is the proleptic Gregorian one of ISO 8601, and a day has 24 hours.
#![tactic(auto)]

mod buckets;
mod calendar;
mod fault;
mod fields;
mod parse;
mod partition;
mod print;
mod reading;
mod suffix;
mod units;

pub use buckets::{Align, Stride, bucket_of, next_bucket};
pub use fault::TimeFault;
pub use parse::{parse_interval, parse_time};
pub use partition::{floor_unit, next_unit, partition_name};
pub use print::print_time;
pub use qd_base::MAX_TIME;
