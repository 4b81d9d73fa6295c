//! The ends over std's readers and writers, and the clock over the system's time: the edge to the outside, a few
//! lines each.
mod clock;
mod failures;
mod sink;
mod source;

pub use clock::StdClock;
pub use sink::StdSink;
pub use source::StdSource;
