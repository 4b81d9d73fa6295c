//! A clock over memory.
ghost use Rattle.std.specs.Prelude.{◌≡◌, ◌<◌, ◌++◌, ◌∷◌, [], length, IfOk, Some};
ghost use Rattle.qd_io.specs.Clocks.{GivesTime};
ghost use Rattle.qd_io.specs.Ends.{Counts};
ghost use Rattle.qd_io.specs.Memory.{MemGivesTime, steady};

use super::plan::FailurePlan;
use crate::Memory;
use crate::fault::IoFault;
use crate::traits::Clock;
use std::alloc::Global;
use std::marker::Model;

/// A clock over times in memory, for tests: it gives them in order, and then the last one again and again; it tells
/// which are ahead, and fails at the calls that it was made to fail at.
#[derive(Drop)]
pub struct MemClock {
    coming: Vec<u64>,
    at: usize,
    last: u64,
    plan: FailurePlan,
}

impl Model for MemClock {
    ghost use Rattle.std.specs.Prelude.{◌≤◌, drop, vec_len};
    ghost use Rattle.qd_io.specs.Memory.{Ticking};

    ghost Value = { Ticking };

    ghost view = { λ s. record { times = record { coming = drop s.at s.coming.items; last = s.last }; plan = s.plan } };

    ghost invariant = { λ s. s.at ≤ vec_len s.coming };
}

impl MemClock {
    /// A clock that gives `times`, one a call, in microseconds since 1970-01-01T00:00:00Z, and answers
    /// [`IoFault::Failed`] at the calls whose numbers, counted from 0, are in `fails`. Behind the last time it gives
    /// that one again and again.
    ///
    /// It copies both slices, and answers [`Memory`] where there is no room for them.
    pub fn new(alloc: Global, times: &[u64], fails: &[u64]) -> Result<MemClock, Memory>
        requires { 0 < length times.now }
        ensures times { IfOk result (λ clock. clock.times.coming ++ clock.times.last ∷ [] ≡ times.now) }
        ensures plan { IfOk result (λ clock. clock.plan ≡ record { calls = 0; fails = fails.now; failed = 0 }) }
    {
        let end = times.len() - 1;
        let coming = Vec::from_slice(alloc, &times[..end])?;
        let plan = FailurePlan::new(alloc, fails)?;
        Ok(MemClock {
            coming,
            at: 0,
            last: times[end],
            plan,
        })
    }

    /// A clock that gives the same time at each call. It takes no memory.
    pub fn steady(alloc: Global, time: u64) -> MemClock
        ensures { result ≡ steady time }
    {
        MemClock {
            coming: Vec::new(alloc),
            at: 0,
            last: time,
            plan: FailurePlan::none(alloc),
        }
    }

    /// How many of its calls have failed.
    pub(crate) fn faults(&self) -> u64
        ensures { result ≡ self.now.plan.failed }
    {
        self.plan.failed()
    }
}

impl Clock for MemClock {
    ghost use Rattle.std.specs.Prelude.{Some};

    ghost timeline = { λ clock. record { ahead = Some clock.times; faults = clock.plan.failed } };

    /// Gives the next time, or fails where this call's number is among those that do, and the same time is next then.
    /// The number and the count of failures stand still at the greatest `u64`. It takes time in the number of failing
    /// calls.
    fn now(&mut self) -> Result<u64, IoFault>
        ensures exact { MemGivesTime self.old self.new result }
        ensures told { GivesTime (Some self.old.times) (Some self.new.times) result }
        ensures counted { Counts self.old.plan.failed self.new.plan.failed result }
    {
        if self.plan.fails_now() {
            self.plan.fail();
            return Err(IoFault::Failed);
        }
        let mut time = self.last;
        if self.at < self.coming.len() {
            time = self.coming[self.at];
            self.at += 1;
        }
        self.plan.pass();
        Ok(time)
    }
}
