//! A clock over the system's time.
ghost use Rattle.std.specs.Prelude.{◌≡◌, ◌≤◌, ◌/◌, ◌^◌, MatchOption};
ghost use Rattle.std.specs.Time.{system_time_nanos};

use super::failures::{Failures, fault_of};
use crate::fault::IoFault;
use crate::traits::Clock;
use std::time::{SystemTime, UNIX_EPOCH};

/// The system's clock. It counts the calls that fail.
///
/// It tells nothing of its times: a real device tells nothing. They may stand still or go back.
#[derive(Drop)]
pub struct StdClock<R> {
    rt: R,
    failures: Failures,
}

impl<R: std::time::Clock> StdClock<R> {
    /// The system's clock, with no failures so far. It reads nothing yet and takes no memory.
    pub fn new(rt: R) -> StdClock<R>
        ensures none_failed { (⟦<StdClock<R> as Clock>⟧.timeline result).faults ≡ 0 }
    {
        StdClock {
            rt,
            failures: Failures { count: 0 },
        }
    }

    /// How many of its calls have failed.
    pub(crate) fn faults(&self) -> u64
        ensures { result ≡ self.now.failures.count }
    {
        self.failures.count
    }
}

impl<R: std::time::Clock> Clock for StdClock<R> {
    ghost use Rattle.std.specs.Prelude.{None};

    ghost timeline = { λ clock. record { ahead = None; faults = clock.failures.count } };

    /// Reads the system's time once. Where that fails, as for a time before 1970, or the time is 2^64 microseconds or
    /// more, it is [`IoFault::Failed`] and is counted, up to the greatest `u64`, but for want of memory, which is
    /// [`IoFault::Memory`].
    fn now(&mut self) -> Result<u64, IoFault> {
        let fault = match SystemTime::now(&self.rt) {
            Ok(time) => match micros_of(time) {
                Some(micros) => return Ok(micros),
                None => IoFault::Failed,
            },
            Err(error) => fault_of(&error).unwrap_or(IoFault::Failed),
        };
        Err(self.failures.counted(fault))
    }
}

/// A time of the system in whole microseconds since 1970, or `None` where a `u64` can't hold them.
fn micros_of(time: SystemTime) -> Option<u64>
    ensures { MatchOption result (2 ^ 64 ≤ system_time_nanos time / 1_000) (λ micros. micros ≡ system_time_nanos time / 1_000) }
{
    let since = time.duration_since(UNIX_EPOCH).ok()?;
    let micros = since.as_micros();
    if micros > u64::MAX as u128 {
        return None;
    }
    Some(micros as u64)
}
