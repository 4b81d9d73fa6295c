//! Why bytes are no column.
ghost use Rattle.std.specs.Prelude.{◌≡◌};
ghost use Rattle.qd_column_format.specs.declared.fault.ColumnFault.TheVariants.{Memory as OutOfMemory};
ghost use Rattle.qd_column_format.specs.declared.fault.LoadFault.TheVariants.{Memory as NoMemory};

use std::alloc::{AllocError, AllocFailed};
use thiserror::Error;

/// The half of a column that its main file is.
pub const MAIN: u8 = 0;

/// The half of a column that its second file is.
pub const AUX: u8 = 1;

/// Why the bytes of two files give no column.
#[derive(Clone, Copy, Debug, PartialEq, Eq, Error)]
pub enum ColumnFault {
    /// They spell none.
    #[error("half {half} of a column is damaged at byte {at}")]
    Damaged {
        /// `MAIN` or `AUX`.
        half: u8,
        /// The first byte of the first field that breaks the layout, or the file's length where bytes are missing.
        at: u64,
    },
    /// There was no memory.
    #[error("out of memory")]
    Memory,
}

impl From<AllocError> for ColumnFault {
    ghost from_gives = { λ _ fault. fault ≡ OutOfMemory };

    fn from(_: AllocError) -> ColumnFault {
        ColumnFault::Memory
    }
}

impl<T: Drop> From<AllocFailed<T>> for ColumnFault {
    ghost from_gives = { λ _ fault. fault ≡ OutOfMemory };

    fn from(_: AllocFailed<T>) -> ColumnFault {
        ColumnFault::Memory
    }
}

/// Why bytes give no dictionary.
#[derive(Clone, Copy, Debug, PartialEq, Eq, Error)]
pub enum LoadFault {
    /// They hold fewer distinct texts than asked for.
    #[error("a dictionary is damaged at byte {at}")]
    Damaged {
        /// The first byte of the text that repeats one before it, or the length where bytes are missing.
        at: u64,
    },
    /// There was no memory.
    #[error("out of memory")]
    Memory,
}

impl From<AllocError> for LoadFault {
    ghost from_gives = { λ _ fault. fault ≡ NoMemory };

    fn from(_: AllocError) -> LoadFault {
        LoadFault::Memory
    }
}

/// Why columns are no block.
#[derive(Clone, Copy, Debug, PartialEq, Eq, Error)]
pub enum BlockFault {
    /// The time of a row is NULL or less than the one before.
    #[error("row {row} is out of order of time")]
    Unsorted {
        /// The number of the first such row, counted from 0.
        row: u64,
    },
}
