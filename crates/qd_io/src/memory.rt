//! Devices over memory, which tell all that they hold and fail where they are told to.
mod clock;
mod plan;
mod sink;
mod source;

pub use clock::MemClock;
pub use plan::FailurePlan;
pub use sink::MemSink;
pub use source::MemSource;
