//! Why a store isn't opened, why nothing is committed, and why a version isn't published.
ghost use Rattle.qd_store.specs.Faults.{line_fault, stmt_fault};
ghost use Rattle.qd_store.specs.declared.fault.OpenFault.TheVariants.{Memory as OutOfMemory};
ghost use Rattle.std.specs.Prelude.{◌≡◌};

use qd_durable::LogFault;
use qd_io::IoFault;
use qd_lines::LineFault;
use qd_sequencer::CommitFault;
use qd_versions as versions;
use qd_writes::StmtFault;
use std::alloc::AllocError;
use thiserror::Error;

/// Why the store of a volume is not opened.
#[derive(Clone, Copy, Debug, PartialEq, Eq, Error)]
pub enum OpenFault {
    /// The volume holds no store: the first byte of its mark isn't there.
    #[error("the volume holds no store")]
    NotMade,
    /// The volume failed: its count of faults has risen in the call.
    #[error("the volume failed")]
    Vol,
    /// The bytes of a file break its layout.
    #[error("file {file} is damaged at byte {at}")]
    Damaged {
        /// The number of the file.
        file: u64,
        /// The first byte of the field that breaks the layout, or the file's length where bytes are missing.
        at: u64,
    },
    /// There was no memory.
    #[error("out of memory")]
    Memory,
}

impl From<IoFault> for OpenFault {
    ghost use Rattle.qd_store.specs.Faults.{open_fault};

    ghost from_gives = { λ cause fault. fault ≡ open_fault cause };

    fn from(cause: IoFault) -> OpenFault {
        match cause {
            IoFault::Failed => OpenFault::Vol,
            IoFault::Memory => OpenFault::Memory,
        }
    }
}

impl From<LogFault> for OpenFault {
    ghost use Rattle.qd_store.specs.Faults.{open_damage};

    ghost from_gives = { λ cause fault. fault ≡ open_damage cause };

    fn from(cause: LogFault) -> OpenFault {
        match cause {
            LogFault::Vol => OpenFault::Vol,
            LogFault::Damaged { file, at } => OpenFault::Damaged { file, at },
            LogFault::Memory => OpenFault::Memory,
        }
    }
}

impl From<AllocError> for OpenFault {
    ghost from_gives = { λ _ fault. fault ≡ OutOfMemory };

    fn from(_: AllocError) -> OpenFault {
        OpenFault::Memory
    }
}

/// Why a merge is not published.
#[derive(Clone, Copy, Debug, PartialEq, Eq, Error)]
pub enum PublishFault {
    /// The current version isn't the one that was merged into.
    #[error("the current version is of {n} transactions")]
    Moved {
        /// How many transactions the current version shows.
        n: u64,
    },
    /// All rows of versions are live: one has to be retired first.
    #[error("all rows of versions are live")]
    NoRow,
    /// The volume failed: its count of faults has risen in the call.
    #[error("the volume failed")]
    Vol,
    /// The files of a block that rows are put behind break their layout.
    #[error("file {file} is damaged at byte {at}")]
    Damaged {
        /// The number of the file.
        file: u64,
        /// The first byte of the field that breaks the layout, or the file's length where bytes are missing.
        at: u64,
    },
    /// There was no memory.
    #[error("out of memory")]
    Memory,
}

impl From<versions::PublishFault> for PublishFault {
    ghost use Rattle.qd_store.specs.Faults.{root_fault};

    ghost from_gives = { λ cause fault. fault ≡ root_fault cause };

    fn from(cause: versions::PublishFault) -> PublishFault {
        match cause {
            versions::PublishFault::NoRow => PublishFault::NoRow,
            versions::PublishFault::Vol | versions::PublishFault::Unremoved(IoFault::Failed) => {
                PublishFault::Vol
            }
            versions::PublishFault::Damaged { file, at } => PublishFault::Damaged { file, at },
            versions::PublishFault::Memory | versions::PublishFault::Unremoved(IoFault::Memory) => {
                PublishFault::Memory
            }
        }
    }
}

/// The fault of a batch, as that of its commit.
pub(crate) fn of_lines(cause: LineFault) -> CommitFault
    ensures fault { result ≡ line_fault cause }
{
    match cause {
        LineFault::Refused { code, line } => CommitFault::Refused { code, place: line },
        LineFault::Memory => CommitFault::Memory,
    }
}

/// The fault of a statement, as that of its commit.
pub(crate) fn of_stmt(cause: StmtFault) -> CommitFault
    ensures fault { result ≡ stmt_fault cause }
{
    match cause {
        StmtFault::Refused { code, place } => CommitFault::Refused { code, place },
        StmtFault::Memory => CommitFault::Memory,
    }
}
