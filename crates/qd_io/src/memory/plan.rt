//! When the calls of a device over memory fail.
ghost use Rattle.std.specs.Prelude.{◌≡◌, ◌≤◌, [], IfOk};

use std::alloc::{AllocError, Global};
use std::marker::Model;

/// When a device over memory fails: the numbers of the calls that do, counted from 0, and how many calls were made and
/// have failed. The two counts stand still at the greatest `u64`.
#[derive(Drop)]
pub struct FailurePlan {
    calls: u64,
    fails: Vec<u64>,
    failed: u64,
}

impl Model for FailurePlan {
    ghost use Rattle.qd_io.specs.Memory.{Plan};

    ghost Value = { Plan };

    ghost view = { λ s. record { calls = s.calls; fails = s.fails.items; failed = s.failed } };
}

impl FailurePlan {
    ghost use Rattle.qd_io.specs.Memory.{after_failure, after_pass, fails_now};

    /// Copies the numbers. It is at its first call, of number 0.
    pub fn new(alloc: Global, fails: &[u64]) -> Result<FailurePlan, AllocError>
        ensures { IfOk result (λ plan. plan ≡ record { calls = 0; fails = fails.now; failed = 0 }) }
    {
        Ok(FailurePlan {
            calls: 0,
            fails: Vec::from_slice(alloc, fails)?,
            failed: 0,
        })
    }

    /// No call fails. It takes no memory.
    pub fn none(alloc: Global) -> FailurePlan
        ensures { result ≡ record { calls = 0; fails = []; failed = 0 } }
    {
        FailurePlan {
            calls: 0,
            fails: Vec::new(alloc),
            failed: 0,
        }
    }

    /// How many calls were made.
    pub fn calls(&self) -> u64
        ensures { result ≡ self.now.calls }
    {
        self.calls
    }

    /// How many calls have failed.
    pub fn failed(&self) -> u64
        ensures { result ≡ self.now.failed }
    {
        self.failed
    }

    /// Whether the next call fails. It looks at each number that was given.
    pub fn fails_now(&self) -> bool
        ensures { result ≡ fails_now self.now }
    {
        self.fails.contains(&self.calls)
    }

    /// Counts a call that did what it was asked.
    pub fn pass(&mut self)
        ensures { self.new ≡ after_pass self.old }
    {
        self.calls = self.calls.saturating_add(1);
    }

    /// Counts a call that failed.
    pub fn fail(&mut self)
        ensures counted { self.new ≡ after_failure self.old }
        ensures never_falls { self.old.failed ≤ self.new.failed }
    {
        self.calls = self.calls.saturating_add(1);
        self.failed = self.failed.saturating_add(1);
    }
}
