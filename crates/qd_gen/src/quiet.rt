//! A front that prints no acknowledgements.
ghost use Rattle.std.specs.Prelude.{◌≡◌};
ghost use Rattle.qd_gen.specs.Quieted.{quiet_protocol};

use qd_base::{Front, Memory, Reply, Step, Txt};
use std::alloc::Global;

/// A front that reads what another one reads, and prints its replies but for acknowledgements: the reply to an accepted
/// write, `Done`, has no bytes. So a session over it writes nothing for such a write.
///
/// It costs nothing beside the other front.
#[derive(Drop)]
pub struct Quiet<F> {
    /// The front that reads, and prints the other replies.
    pub front: F,
}

impl<F> Quiet<F> {
    /// Makes such a front of another one. It takes no memory.
    pub fn new(front: F) -> Quiet<F>
        ensures given { result.front ≡ front }
    {
        Quiet { front }
    }
}

impl<F: Front> Front for Quiet<F> {
    ghost protocol = { λ quiet. quiet_protocol (F.protocol quiet.front) };

    fn feed(&mut self, alloc: Global, piece: &[u8]) -> Result<(), Memory> {
        self.front.feed(alloc, piece)
    }

    fn next_step(&mut self, alloc: Global) -> Result<Step, Memory> {
        self.front.next_step(alloc)
    }

    fn finish(&mut self) -> Step {
        self.front.finish()
    }

    fn reply(&mut self, alloc: Global, reply: &Reply) -> Result<Txt, Memory> {
        match reply {
            Reply::Done { .. } => Ok(Txt::from_vec(Vec::new(alloc))),
            _ => self.front.reply(alloc, reply),
        }
    }

    fn one_script(&self) {
        self.front.one_script();
    }
}
