//! Why a part isn't given.
ghost use Rattle.qd_scan.specs.declared.fault.PartFault.TheVariants.{Memory as OutOfMemory};
ghost use Rattle.std.specs.Prelude.{◌≡◌};

use std::alloc::AllocError;
use thiserror::Error;

/// Why a source gives no part.
#[derive(Clone, Copy, Debug, PartialEq, Eq, Error)]
pub enum PartFault {
    /// The volume failed: the source's count of faults has risen in the call.
    #[error("the volume failed")]
    Vol,
    /// The bytes of a file break its layout: the source's count of damages has risen in the call.
    #[error("file {file} is damaged at byte {at}")]
    Damaged {
        /// The number of the file.
        file: u64,
        /// The first byte of the field that breaks the layout, or the file's length where bytes are missing.
        at: u64,
    },
    /// There was no memory.
    #[error("out of memory")]
    Memory,
}

impl From<AllocError> for PartFault {
    ghost from_gives = { λ _ fault. fault ≡ OutOfMemory };

    fn from(_: AllocError) -> PartFault {
        PartFault::Memory
    }
}
