//! What a commit answers.
ghost use Rattle.qd_sequencer.specs.declared.fault.CommitFault.TheVariants.{Memory as OutOfMemory};
ghost use Rattle.std.specs.Prelude.{◌≡◌};

use qd_base::{Code, Memory};
use qd_io::IoFault;
use thiserror::Error;

/// A transaction that is there for good.
#[derive(Clone, Copy, Debug, PartialEq, Eq)]
pub struct Committed {
    /// How many transactions there are with it.
    pub n: u64,
    /// The number of the log that it was written to: the writer to name at the next commit.
    pub writer: u32,
}

/// Why nothing is committed.
#[derive(Clone, Copy, Debug, PartialEq, Eq, Error)]
pub enum CommitFault {
    /// The batch or the statement is refused.
    #[error("refused at {place}: {code:?}")]
    Refused {
        /// Why.
        code: Code,
        /// The number of the line, counted from 1; of a statement the offset of what is refused.
        place: u64,
    },
    /// There are as many transactions as there may be.
    #[error("the history is full")]
    Full,
    /// The volume failed: its count of faults has risen in the call.
    #[error("the volume failed")]
    Vol,
    /// There was no memory.
    #[error("out of memory")]
    Memory,
}

impl From<IoFault> for CommitFault {
    ghost use Rattle.qd_sequencer.specs.Faults.{fault_of};

    ghost from_gives = { λ cause fault. fault ≡ fault_of cause };

    fn from(cause: IoFault) -> CommitFault {
        match cause {
            IoFault::Failed => CommitFault::Vol,
            IoFault::Memory => CommitFault::Memory,
        }
    }
}

impl From<Memory> for CommitFault {
    ghost from_gives = { λ _ fault. fault ≡ OutOfMemory };

    fn from(_: Memory) -> CommitFault {
        CommitFault::Memory
    }
}
