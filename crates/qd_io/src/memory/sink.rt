//! A sink over memory.
ghost use Rattle.std.specs.Prelude.{◌≡◌, ◌≤◌, ◌<◌, length, IfOk, []};
ghost use Rattle.qd_io.specs.Ends.{Counts, Writes};
ghost use Rattle.qd_io.specs.Memory.{MemWrites};

use super::plan::FailurePlan;
use crate::Memory;
use crate::fault::IoFault;
use crate::traits::{Ends, Sink};
use std::alloc::Global;
use std::marker::Model;

/// A sink into memory, for tests: it takes a piece at a time, tells what it has taken, and fails at the
/// writes that it was made to fail at.
#[derive(Drop)]
pub struct MemSink {
    taken: Vec<u8>,
    piece: usize,
    plan: FailurePlan,
}

impl Model for MemSink {
    ghost use Rattle.std.specs.Prelude.{◌≤◌};
    ghost use Rattle.qd_io.specs.Memory.{Written};

    ghost Value = { Written };

    ghost view = { λ s. record { taken = s.taken.items; piece = s.piece; plan = s.plan } };

    ghost invariant = { λ s. 1 ≤ s.piece };
}

impl MemSink {
    /// An empty sink that takes at most `piece` bytes a write, and answers [`IoFault::Failed`] at the
    /// writes whose numbers, counted from 0, are in `fails`.
    ///
    /// It copies `fails`, and answers [`Memory`] where there is no room for it.
    pub fn new(alloc: Global, piece: usize, fails: &[u64]) -> Result<MemSink, Memory>
        requires { 1 ≤ piece }
        ensures taken { IfOk result (λ sink. sink.taken ≡ []) }
        ensures piece { IfOk result (λ sink. sink.piece ≡ piece) }
        ensures plan { IfOk result (λ sink. sink.plan ≡ record { calls = 0; fails = fails.now; failed = 0 }) }
    {
        Ok(MemSink {
            taken: Vec::new(alloc),
            piece,
            plan: FailurePlan::new(alloc, fails)?,
        })
    }

    /// The bytes that writes have taken, in their order.
    pub fn bytes(&self) -> &[u8]
        ensures { result.now ≡ self.now.taken }
    {
        &self.taken
    }
}

impl Ends for MemSink {
    ghost use Rattle.std.specs.Prelude.{Some, None, []};

    ghost stream = { λ sink. record {
      input = None;
      output = Some sink.taken;
      reads_failed = 0;
      writes_failed = sink.plan.failed;
      input_lent = [];
      output_lent = [];
    } };
}

impl Sink for MemSink {
    /// Takes as many of the bytes as a piece has, or fails where this write's number is among those that
    /// do. The number and the count of failures stand still at the greatest `u64`. It takes time in the
    /// bytes taken and in the number of failing writes, and memory for the bytes: where there is none it
    /// answers [`IoFault::Memory`], and the sink stands as before.
    fn write(&mut self, bytes: &[u8]) -> Result<usize, IoFault>
        ensures exact { MemWrites self.old self.new bytes.now result }
        ensures within { IfOk result (λ n. n ≤ length bytes.now) }
        ensures some { IfOk result (λ n. 0 < length bytes.now → 0 < n) }
        ensures told { Writes (Some self.old.taken) (Some self.new.taken) bytes.now result }
        ensures counted { Counts self.old.plan.failed self.new.plan.failed result }
    {
        if self.plan.fails_now() {
            self.plan.fail();
            return Err(IoFault::Failed);
        }
        let n = self.piece.min(bytes.len());
        self.taken.extend_from_slice(&bytes[..n])?;
        self.plan.pass();
        Ok(n)
    }
}
