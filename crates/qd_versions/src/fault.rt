//! Why a version isn't published.
ghost use Rattle.qd_versions.specs.declared.fault.PublishFault.TheVariants.{Memory as OutOfMemory};
ghost use Rattle.std.specs.Prelude.{◌≡◌};

use qd_durable::LogFault;
use qd_io::IoFault;
use std::alloc::AllocError;
use thiserror::Error;

/// Why a version isn't published.
#[derive(Clone, Copy, Debug, PartialEq, Eq, Error)]
pub enum PublishFault {
    /// All rows of versions are live: one has to be retired first.
    #[error("all rows of versions are live")]
    NoRow,
    /// The files of a block that was to grow are damaged: nothing was written.
    #[error("file {file} is damaged at byte {at}")]
    Damaged {
        /// The number of the file.
        file: u64,
        /// The first byte of the field that breaks the layout, or the file's length where bytes are missing.
        at: u64,
    },
    /// The volume failed: its count of faults has risen in the call.
    #[error("the volume failed")]
    Vol,
    /// There was no memory.
    #[error("out of memory")]
    Memory,
    /// The publication failed, and so did the removal of the files that it had put: some of them may be left.
    /// The volume failed at one or the other where this says so, and there was no memory else.
    #[error("files of blocks that are in no version may be left")]
    Unremoved(IoFault),
}

impl From<IoFault> for PublishFault {
    ghost use Rattle.qd_versions.specs.Faults.{publish_fault};

    ghost from_gives = { λ cause fault. fault ≡ publish_fault cause };

    fn from(cause: IoFault) -> PublishFault {
        match cause {
            IoFault::Failed => PublishFault::Vol,
            IoFault::Memory => PublishFault::Memory,
        }
    }
}

impl From<LogFault> for PublishFault {
    ghost use Rattle.qd_versions.specs.Faults.{read_fault};

    ghost from_gives = { λ cause fault. fault ≡ read_fault cause };

    fn from(cause: LogFault) -> PublishFault {
        match cause {
            LogFault::Damaged { file, at } => PublishFault::Damaged { file, at },
            LogFault::Vol => PublishFault::Vol,
            LogFault::Memory => PublishFault::Memory,
        }
    }
}

impl From<AllocError> for PublishFault {
    ghost from_gives = { λ _ fault. fault ≡ OutOfMemory };

    fn from(_: AllocError) -> PublishFault {
        PublishFault::Memory
    }
}
