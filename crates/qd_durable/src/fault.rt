//! Why a log isn't opened.
ghost use Rattle.qd_durable.specs.declared.fault.LogFault.TheVariants.{Memory as OutOfMemory};
ghost use Rattle.std.specs.Prelude.{◌≡◌};

use qd_io::IoFault;
use std::alloc::{AllocError, AllocFailed};
use thiserror::Error;

/// Why files of a volume are not opened.
#[derive(Clone, Copy, Debug, PartialEq, Eq, Error)]
pub enum LogFault {
    /// The volume failed: its count of faults has risen in the call.
    #[error("the volume failed")]
    Vol,
    /// The bytes of a file break its layout.
    #[error("file {file} is damaged at byte {at}")]
    Damaged {
        /// The number of the file.
        file: u64,
        /// The first byte of the field that breaks the layout, or the file's length where bytes are missing.
        at: u64,
    },
    /// There was no memory.
    #[error("out of memory")]
    Memory,
}

impl From<IoFault> for LogFault {
    ghost use Rattle.qd_durable.specs.Faults.{vol_of};

    ghost from_gives = { λ cause fault. fault ≡ vol_of cause };

    fn from(cause: IoFault) -> LogFault {
        match cause {
            IoFault::Failed => LogFault::Vol,
            IoFault::Memory => LogFault::Memory,
        }
    }
}

impl From<AllocError> for LogFault {
    ghost from_gives = { λ _ fault. fault ≡ OutOfMemory };

    fn from(_: AllocError) -> LogFault {
        LogFault::Memory
    }
}

impl<T: Drop> From<AllocFailed<T>> for LogFault {
    ghost from_gives = { λ _ fault. fault ≡ OutOfMemory };

    fn from(_: AllocFailed<T>) -> LogFault {
        LogFault::Memory
    }
}
