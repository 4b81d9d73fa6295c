//! The one error of all device calls.
ghost use Rattle.qd_io.specs.declared.fault.IoFault.TheVariants.{Memory as OutOfMemory};
ghost use Rattle.std.specs.Prelude.{◌≡◌};

use std::alloc::AllocError;
use thiserror::Error;

/// Why a call of a device gave no answer.
#[derive(Clone, Copy, Debug, PartialEq, Eq, Error)]
pub enum IoFault {
    /// The device failed. This comes only where the device's count of failures has risen in that call, or
    /// stands at the greatest `u64`.
    #[error("the device failed")]
    Failed,

    /// There was no memory for the call. No byte was moved.
    #[error("out of memory")]
    Memory,
}

impl From<AllocError> for IoFault {
    ghost from_gives = { λ _ fault. fault ≡ OutOfMemory };

    fn from(_: AllocError) -> IoFault {
        IoFault::Memory
    }
}
