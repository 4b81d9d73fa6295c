//! What was committed, and the tables that the plain replay makes of it.
use crate::plain::Plain;
use crate::trouble::{Trouble, hold};
use qd_base::{Memory, Txt};
use qd_sequencer::{CommitFault, Committed};
use qd_wal_entry::decode_entry;
use std::alloc::Global;

/// The transactions of a history, each as the bytes that its log has to hold.
#[derive(Drop)]
pub struct Record {
    alloc: Global,
    /// Those that were acknowledged, in order.
    acknowledged: Vec<Txt>,
    /// Those whose commits failed since the last that was acknowledged. A crash may leave one of them.
    tried: Vec<Txt>,
    /// The tables after each number of the first transactions: those after none stand first.
    states: Vec<Plain>,
}

impl Record {
    /// Nothing was committed.
    pub fn new(alloc: Global) -> Result<Record, Memory> {
        let mut states = Vec::new(alloc);
        states.push(Plain::new(alloc))?;
        Ok(Record {
            alloc,
            acknowledged: Vec::new(alloc),
            tried: Vec::new(alloc),
            states,
        })
    }

    /// How many transactions were acknowledged.
    pub fn len(&self) -> u64 {
        self.acknowledged.len() as u64
    }

    /// The tables after the first `n` transactions.
    pub fn state(&self, n: u64) -> Result<&Plain, Trouble> {
        match self.states.get(n as usize) {
            Some(state) => Ok(state),
            None => Err(Trouble::Wrong("a version of more transactions than there are")),
        }
    }

    /// Goes on by the answer to a commit of what these bytes spell; none, where it is to be refused.
    pub fn follow(
        &mut self,
        said: Option<Txt>,
        done: &Result<Committed, CommitFault>,
    ) -> Result<(), Trouble> {
        match (said, done) {
            (Some(bytes), Ok(done)) => {
                self.keep(bytes)?;
                hold(done.n == self.len(), "a number that isn't the next one")
            }
            (Some(bytes), Err(CommitFault::Vol)) => {
                self.tried.push(bytes)?;
                Ok(())
            }
            (None, Err(CommitFault::Refused { .. })) | (Some(_), Err(CommitFault::Full)) => {
                self.tried.clear();
                Ok(())
            }
            (None, Err(CommitFault::Vol)) => Ok(()),
            (_, Err(CommitFault::Memory)) => Err(Trouble::Memory),
            _ => Err(Trouble::Wrong("a commit that is answered otherwise than its text says")),
        }
    }

    /// Adds a transaction behind the others.
    fn keep(&mut self, bytes: Txt) -> Result<(), Trouble> {
        let Ok(entry) = decode_entry(self.alloc, bytes.bytes()) else {
            return Err(Trouble::Wrong("a transaction that isn't spelled"));
        };
        let Some(last) = self.states.last() else {
            return Err(Trouble::Memory);
        };
        let next = last.after(self.alloc, &entry)?;
        self.states.push(next)?;
        self.acknowledged.push(bytes)?;
        self.tried.clear();
        Ok(())
    }

    /// Compares what an opening found with what was committed: all that was acknowledged in order, and at most one more, which was
    /// tried. Says whether there is one more, and keeps it.
    pub fn find(&mut self, found: Vec<Txt>) -> Result<bool, Trouble> {
        let n = self.acknowledged.len();
        hold(found.len() >= n, "an acknowledged transaction is gone")?;
        let mut more = None;
        for (i, bytes) in found.into_iter().enumerate() {
            match self.acknowledged.get(i) {
                Some(wanted) => {
                    hold(bytes.bytes() == wanted.bytes(), "another transaction")?;
                }
                None => {
                    hold(more.is_none(), "more than one transaction more")?;
                    hold(self.was_tried(&bytes), "a transaction that nobody tried")?;
                    more = Some(bytes);
                }
            }
        }
        self.tried.clear();
        match more {
            Some(bytes) => {
                self.keep(bytes)?;
                Ok(true)
            }
            None => Ok(false),
        }
    }

    /// Whether a commit of this transaction failed.
    fn was_tried(&self, bytes: &Txt) -> bool {
        for tried in &self.tried {
            if tried.bytes() == bytes.bytes() {
                return true;
            }
        }
        false
    }
}
