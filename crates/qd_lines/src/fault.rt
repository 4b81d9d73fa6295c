//! Why lines make no transaction.
ghost use Rattle.std.specs.Prelude.{◌≡◌};
ghost use Rattle.qd_lines.specs.declared.fault.LineFault.TheVariants as line_fault;
ghost use Rattle.qd_lines.specs.declared.fault.RowFault.TheVariants as row_fault;

use qd_base::Code;
use std::alloc::{AllocError, AllocFailed};

/// Why a batch makes no transaction.
#[derive(Debug, Drop)]
pub enum LineFault {
    /// A line is refused.
    Refused {
        /// The least of its codes.
        code: Code,
        /// Its number, counted from 1.
        line: u64,
    },
    /// No memory was found.
    Memory,
}

/// Why a line changes nothing.
#[derive(Debug, Drop)]
pub(crate) enum RowFault {
    /// It has this code, and none that is less.
    Code(Code),
    /// No memory was found.
    Memory,
}

impl From<AllocError> for LineFault {
    ghost from_gives = { λ _ e. e ≡ line_fault.Memory };

    fn from(_e: AllocError) -> LineFault {
        LineFault::Memory
    }
}

impl From<AllocError> for RowFault {
    ghost from_gives = { λ _ e. e ≡ row_fault.Memory };

    fn from(_e: AllocError) -> RowFault {
        RowFault::Memory
    }
}

impl<T: Drop> From<AllocFailed<T>> for RowFault {
    ghost from_gives = { λ _ e. e ≡ row_fault.Memory };

    fn from(_e: AllocFailed<T>) -> RowFault {
        RowFault::Memory
    }
}
