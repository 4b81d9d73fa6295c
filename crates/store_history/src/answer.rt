//! What calls of a store answer, as words.
use crate::rounds::RoundFault;
use crate::trouble::Trouble;
use qd_sequencer::{CommitFault, Committed};
use qd_store::{LogFault, OpenFault, PublishFault};

/// What the device answers where it fails.
const FAILED: &str = "failed";

/// Adds what a commit answers. Says whether the device failed.
pub fn push_commit(
    out: &mut String,
    done: &Result<Committed, CommitFault>,
) -> Result<bool, Trouble> {
    match done {
        Ok(Committed { n, writer }) => write!(out, "n {n} writer {writer}")?,
        Err(CommitFault::Refused { code, place }) => {
            let code = code.number();
            write!(out, "refused {code} at {place}")?
        }
        Err(CommitFault::Full) => out.push_str("full")?,
        Err(CommitFault::Vol) => {
            out.push_str(FAILED)?;
            return Ok(true);
        }
        Err(CommitFault::Memory) => return Err(Trouble::Memory),
    }
    Ok(false)
}

/// Adds what a round answers. Says whether the device failed.
pub fn push_round(out: &mut String, done: Result<Option<u8>, RoundFault>) -> Result<bool, Trouble> {
    match done {
        Ok(Some(row)) => write!(out, "row {row}")?,
        Ok(None) => out.push_str("nothing")?,
        Err(RoundFault::Drafting(cause)) => return push_fault(out, cause),
        Err(RoundFault::Publishing(cause)) => return push_publish(out, cause),
        Err(RoundFault::Memory) => return Err(Trouble::Memory),
    }
    Ok(false)
}

/// Adds why a merge isn't published. Says whether the device failed.
fn push_publish(out: &mut String, cause: PublishFault) -> Result<bool, Trouble> {
    match cause {
        PublishFault::Moved { n } => write!(out, "moved {n}")?,
        PublishFault::NoRow => out.push_str("no row")?,
        PublishFault::Vol => {
            out.push_str(FAILED)?;
            return Ok(true);
        }
        PublishFault::Damaged { file, at } => write!(out, "damaged {file} {at}")?,
        PublishFault::Memory => return Err(Trouble::Memory),
    }
    Ok(false)
}

/// Adds why nothing is read. Says whether the device failed.
pub fn push_fault(out: &mut String, cause: LogFault) -> Result<bool, Trouble> {
    match cause {
        LogFault::Damaged { file, at } => {
            write!(out, "damaged {file} {at}")?;
            Ok(false)
        }
        LogFault::Vol => {
            out.push_str(FAILED)?;
            Ok(true)
        }
        LogFault::Memory => Err(Trouble::Memory),
    }
}

/// Adds why a store isn't opened. Says whether the device failed.
pub fn push_open(out: &mut String, why: OpenFault) -> Result<bool, Trouble> {
    match why {
        OpenFault::NotMade => {
            out.push_str("not made")?;
            Ok(false)
        }
        OpenFault::Damaged { file, at } => push_fault(out, LogFault::Damaged { file, at }),
        OpenFault::Vol => push_fault(out, LogFault::Vol),
        OpenFault::Memory => Err(Trouble::Memory),
    }
}
