//! Why no line was read.
ghost use Rattle.std.specs.Prelude.{◌≡◌};
ghost use Rattle.qd_ilp.specs.declared.stop.Stop.TheVariants.{Memory};

use std::alloc::{AllocError, AllocFailed};

/// Why a part of a line was not read.
#[derive(Debug, Drop)]
pub(crate) enum Stop {
    /// No memory was found.
    Memory,
    /// What stands there is no such part.
    Syntax,
}

impl From<AllocError> for Stop {
    ghost from_gives = { λ _ e. e ≡ Memory };

    fn from(_e: AllocError) -> Stop {
        Stop::Memory
    }
}

impl<T: Drop> From<AllocFailed<T>> for Stop {
    ghost from_gives = { λ _ e. e ≡ Memory };

    fn from(_e: AllocFailed<T>) -> Stop {
        Stop::Memory
    }
}
