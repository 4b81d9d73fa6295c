//! Why a folder isn't opened, and which call of its volume failed: for a person, in words.
use qd_io::IoFault;
use std::alloc::AllocError;
use std::fmt::{Display, Formatter, Result as FmtResult, Write};
use std::io::{Error, ErrorKind};

/// Why a folder isn't opened.
#[derive(Drop)]
pub enum Refusal {
    /// Its name isn't UTF-8.
    Name,

    /// Another volume, of this process or another, has it open.
    InUse,

    /// A store is in it that has lost its mark.
    Unmarked,

    /// The system refused a call.
    System(Error),
}

impl Refusal {
    /// The fault that it is. Want of memory is none of the folder.
    pub fn fault(&self) -> IoFault {
        match self {
            Refusal::System(error) if error.kind() == ErrorKind::OutOfMemory => IoFault::Memory,
            _ => IoFault::Failed,
        }
    }
}

impl From<Error> for Refusal {
    fn from(error: Error) -> Refusal {
        Refusal::System(error)
    }
}

impl From<AllocError> for Refusal {
    fn from(error: AllocError) -> Refusal {
        Refusal::System(error.into())
    }
}

/// What a call of a volume was to do with a file.
#[derive(Clone, Copy)]
pub enum Act {
    Read,
    Write,
    Cut,
    Sync,
    Remove,
    Measure,
}

impl Act {
    /// What was done to a file that this was done to.
    fn done(self) -> &'static str {
        match self {
            Act::Read => "read",
            Act::Write => "written",
            Act::Cut => "cut",
            Act::Sync => "synced",
            Act::Remove => "removed",
            Act::Measure => "measured",
        }
    }
}

/// A call of a volume that failed.
#[derive(Drop)]
pub struct Failure {
    pub act: Act,
    /// The file's number.
    pub file: u64,
    pub error: Error,
}

impl Display for Failure {
    /// As `file 0000000000000001 can't be synced: Input/output error (os error 5)`.
    fn fmt<W: Write>(&self, f: &mut Formatter<W>) -> FmtResult {
        let done = self.act.done();
        write!(f, "file {:016x} can't be {done}: {}", self.file, self.error)
    }
}
