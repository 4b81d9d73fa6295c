//! A listener over wires in memory.
ghost use Rattle.std.specs.Prelude.{◌≡◌, false, Some, IfOk, IfErr, length};
ghost use Rattle.qd_io.specs.Ends.{Counts};
ghost use Rattle.qd_net.specs.Arrivals.{Arrives, Closes};
ghost use Rattle.qd_net.specs.Memory.{MemArrives, nobody};

use crate::traits::{Listener, Wire};
use qd_io::{Both, FailurePlan, IoFault, Sink, Source};
use std::alloc::Global;
use std::collections::VecDeque;
use std::marker::Model;

/// Two ends in memory have no peer that waits.
impl<S: Source, K: Sink> Wire for Both<S, K> {
    fn hang_up(&mut self) {}
}

/// A listener over wires in memory, for tests: it gives them in order, tells which are left, and fails at the calls that it
/// was made to fail at.
#[derive(Drop)]
pub struct MemDoor<W> {
    wires: VecDeque<W>,
    plan: FailurePlan,
    closed: bool,
}

impl<W> Model for MemDoor<W> {
    ghost use Rattle.qd_net.specs.Memory.{Waiting};

    ghost Value = { Waiting W };

    ghost view = { λ door. record { ahead = door.wires.items; plan = door.plan; closed = door.closed } };
}

impl<W> MemDoor<W> {
    /// A listener that gives these wires, and answers [`IoFault::Failed`] at the calls whose numbers, counted from 0, are in
    /// `fails`. It copies the numbers. Where there is no room for them the wires come back.
    pub fn new(alloc: Global, wires: VecDeque<W>, fails: &[u64]) -> Result<MemDoor<W>, VecDeque<W>>
        ensures waits { IfOk result (λ door. door ≡ record { ahead = wires.items; plan = record { calls = 0; fails = fails.now; failed = 0 }; closed = false }) }
        ensures back { IfErr result (λ back. back.items ≡ wires.items) }
    {
        let Ok(plan) = FailurePlan::new(alloc, fails) else {
            return Err(wires);
        };
        Ok(MemDoor {
            wires,
            plan,
            closed: false,
        })
    }

    /// A listener without wires, no call of which fails. It takes no memory.
    pub fn none(alloc: Global) -> MemDoor<W>
        ensures { result ≡ nobody }
    {
        MemDoor {
            wires: VecDeque::new(alloc),
            plan: FailurePlan::none(alloc),
            closed: false,
        }
    }

    /// How many wires it may still give.
    pub fn left(&self) -> usize
        ensures { result ≡ length self.now.ahead }
    {
        self.wires.len()
    }
}

impl<W: Wire + Send + Drop + 'static> Listener for MemDoor<W> {
    type Wire = W;

    ghost use Rattle.std.specs.Prelude.{Some};

    ghost arrivals = { λ door. record { ahead = Some door.ahead; faults = door.plan.failed; closed = door.closed } };

    /// Gives the first of the wires left, or `None` where none is left, or fails where this call's number is among those
    /// that do. It takes time in the number of failing calls.
    fn next_wire(&mut self) -> Result<Option<W>, IoFault>
        ensures exact { MemArrives self.old self.new result }
        ensures told { Arrives (Some self.old.ahead) (Some self.new.ahead) result }
        ensures closed { Closes self.new.closed result }
        ensures counted { Counts self.old.plan.failed self.new.plan.failed result }
    {
        self.closed = false;
        if self.plan.fails_now() {
            self.plan.fail();
            return Err(IoFault::Failed);
        }
        self.plan.pass();
        match self.wires.pop_front() {
            Some(wire) => Ok(Some(wire)),
            None => {
                self.closed = true;
                Ok(None)
            }
        }
    }
}
