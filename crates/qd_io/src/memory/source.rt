//! A source over memory.
ghost use Rattle.std.specs.Prelude.{◌≡◌, ◌≤◌, length, IfOk};
ghost use Rattle.qd_io.specs.Ends.{Counts, Reads};
ghost use Rattle.qd_io.specs.Memory.{MemReads};

use super::plan::FailurePlan;
use crate::Memory;
use crate::fault::IoFault;
use crate::traits::{Ends, Source};
use std::alloc::Global;
use std::marker::Model;

/// A source over bytes in memory, for tests: it gives them a piece at a time, tells what it has left, and
/// fails at the reads that it was made to fail at.
#[derive(Drop)]
pub struct MemSource {
    bytes: Vec<u8>,
    at: usize,
    piece: usize,
    plan: FailurePlan,
}

impl Model for MemSource {
    ghost use Rattle.std.specs.Prelude.{◌≤◌, drop, vec_len};
    ghost use Rattle.qd_io.specs.Memory.{Unread};

    ghost Value = { Unread };

    ghost view = { λ s. record { left = drop s.at s.bytes.items; piece = s.piece; plan = s.plan } };

    ghost invariant = { λ s. (s.at ≤ vec_len s.bytes) × (1 ≤ s.piece) };
}

impl MemSource {
    /// A source that gives `bytes`, at most `piece` of them a read, and answers [`IoFault::Failed`] at the
    /// reads whose numbers, counted from 0, are in `fails`.
    ///
    /// It copies both slices, and answers [`Memory`] where there is no room for them.
    pub fn new(
        alloc: Global,
        bytes: &[u8],
        piece: usize,
        fails: &[u64],
    ) -> Result<MemSource, Memory>
        requires { 1 ≤ piece }
        ensures left { IfOk result (λ source. source.left ≡ bytes.now) }
        ensures piece { IfOk result (λ source. source.piece ≡ piece) }
        ensures plan { IfOk result (λ source. source.plan ≡ record { calls = 0; fails = fails.now; failed = 0 }) }
    {
        let bytes = Vec::from_slice(alloc, bytes)?;
        let plan = FailurePlan::new(alloc, fails)?;
        Ok(MemSource {
            bytes,
            at: 0,
            piece,
            plan,
        })
    }
}

impl Ends for MemSource {
    ghost use Rattle.std.specs.Prelude.{Some, None, []};

    ghost stream = { λ source. record {
      input = Some source.left;
      output = None;
      reads_failed = source.plan.failed;
      writes_failed = 0;
      input_lent = [];
      output_lent = [];
    } };
}

impl Source for MemSource {
    /// Gives as many of the bytes left as a piece has and `buf` has room for, or fails where this read's
    /// number is among those that do. The number and the count of failures stand still at the greatest
    /// `u64`. It takes time in the bytes given and in the number of failing reads.
    fn read(&mut self, buf: &mut [u8]) -> Result<usize, IoFault>
        ensures exact { MemReads self.old self.new buf.old buf.new result }
        ensures within { IfOk result (λ n. n ≤ length buf.old) }
        ensures told { Reads (Some self.old.left) (Some self.new.left) buf.new result }
        ensures counted { Counts self.old.plan.failed self.new.plan.failed result }
    {
        if self.plan.fails_now() {
            self.plan.fail();
            return Err(IoFault::Failed);
        }
        let left = self.bytes.len() - self.at;
        let n = self.piece.min(buf.len()).min(left);
        buf[..n].copy_from_slice(&self.bytes[self.at..self.at + n]);
        self.at += n;
        self.plan.pass();
        Ok(n)
    }
}
