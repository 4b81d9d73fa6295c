//! Why rows aren't sampled.
ghost use Rattle.std.specs.Prelude.{◌≡◌};
ghost use Rattle.qd_sample.specs.declared.fault.SampleFault.TheVariants.{Memory as OutOfMemory};

use qd_base::Memory;
use thiserror::Error;

/// Why rows aren't sampled.
#[derive(Clone, Copy, Debug, PartialEq, Eq, Error)]
pub enum SampleFault {
    /// There are more than 1,000,000 sampled rows.
    #[error("more than 1000000 sampled rows")]
    TooMany,
    /// There was no memory.
    #[error("out of memory")]
    Memory,
}

impl From<Memory> for SampleFault {
    ghost from_gives = { λ _ fault. fault ≡ OutOfMemory };

    fn from(_: Memory) -> SampleFault {
        SampleFault::Memory
    }
}
