//! Why a field isn't read.
ghost use Rattle.std.specs.Prelude.{◌≡◌};
ghost use Rattle.qd_fields.specs.declared.stop.Stop.TheVariants.{Memory as OutOfMemory};

use std::alloc::{AllocError, AllocFailed};

/// Why a field isn't read.
#[derive(Clone, Copy, Debug, PartialEq, Eq)]
pub enum Stop {
    /// It breaks its rule, or bytes are missing.
    Damage {
        /// How many bytes there are from the damage on: 0 where bytes are missing.
        left: usize,
    },
    /// There was no memory.
    Memory,
}

impl From<AllocError> for Stop {
    ghost from_gives = { λ _ stop. stop ≡ OutOfMemory };

    fn from(_: AllocError) -> Stop {
        Stop::Memory
    }
}

impl<T: Drop> From<AllocFailed<T>> for Stop {
    ghost from_gives = { λ _ stop. stop ≡ OutOfMemory };

    fn from(_: AllocFailed<T>) -> Stop {
        Stop::Memory
    }
}
