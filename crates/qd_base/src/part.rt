//! Where transactions and partitions lie.
use crate::seq::{Duplicate, Memory, Seq};

/// Where the bytes of one transaction lie in the write-ahead log.
#[derive(Clone, Copy, Debug, PartialEq, Eq)]
pub struct WalRef {
    /// The number of the writer's log.
    pub wal: u32,
    /// The number of the segment in that log.
    pub segment: u32,
    /// The offset of the first byte in the segment.
    pub start: u64,
    /// The number of bytes.
    pub len: u64,
}

impl Duplicate for WalRef {
    fn copy(&self) -> Result<WalRef, Memory> {
        Ok(*self)
    }
}

/// Places of transactions, in commit order.
pub type RefList = Seq<WalRef>;

/// One piece of a table: rows of one partition that lie in one block.
#[derive(Clone, Copy, Debug, PartialEq, Eq)]
pub struct Part {
    /// The number of the block.
    pub block: u64,
    /// How many of the block's first rows are shown, at least 1.
    pub rows: u64,
    /// How many columns the block has.
    pub cols: u32,
    /// The first row's time, in microseconds.
    pub lo: u64,
    /// The last row's time, in microseconds.
    pub hi: u64,
}

impl Duplicate for Part {
    fn copy(&self) -> Result<Part, Memory> {
        Ok(*self)
    }
}

/// The parts of one table, in order of time.
pub type PartList = Seq<Part>;
