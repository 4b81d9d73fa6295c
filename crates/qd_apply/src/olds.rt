//! What a merge reads of the parts of a version that rows are merged into: what of each stays as it lies, and the rows behind.
ghost use Rattle.std.specs.Prelude.{◌≡◌, ◌≤◌, length};
ghost use Rattle.std.specs.List.Sorted.{IsNonDecreasing};
ghost use Rattle.qd_merge.specs.Acts.{before};
ghost use Rattle.qd_apply.specs.Olds.{rows_staying, stay_of};

use qd_block::Block;
use qd_symbols::SymbolMap;

/// A part of a version that rows are merged into. Of its rows, a merge reads those that don't stand before all of these, and
/// the others where they are few.
#[derive(Clone, Copy, Debug, PartialEq, Eq)]
pub struct Late {
    /// The number of the table.
    pub table: usize,
    /// The number of the part in its table.
    pub part: usize,
    /// The time of the first of the rows that are merged into it, in microseconds.
    pub first: u64,
}

/// What of a part that rows are merged into stays as it lies.
#[derive(Clone, Copy, Debug, PartialEq, Eq)]
pub enum Stay {
    /// Nothing: all of its rows are written anew.
    Nothing,
    /// Its first rows.
    First {
        /// How many.
        rows: u64,
        /// The time of the last of them, in microseconds.
        hi: u64,
    },
    /// All of its rows.
    All,
}

/// A part that rows are merged into, as a merge reads it.
#[derive(Drop)]
pub struct OldPart {
    /// What of it stays as it lies.
    pub stay: Stay,
    /// The rows behind that.
    pub rest: Block<SymbolMap>,
}

impl Stay {
    /// Gives how many of a part's rows, of which there are so many, stay as they lie: the rows behind are those that a merge
    /// reads.
    pub fn rows(&self, all: u64) -> u64
        ensures rows { result ≡ rows_staying self.now all }
    {
        match *self {
            Stay::Nothing => 0,
            Stay::First { rows, hi: _ } => rows,
            Stay::All => all,
        }
    }
}

/// What stays of a part whose rows have these times where rows are merged into it, the first of which has a time: the rows
/// before that, where there are some, and `split_rows` or more.
pub(crate) fn stay_of(split_rows: u64, first: u64, times: &[u64]) -> Stay
    requires order { IsNonDecreasing times.now }
    ensures stay { result ≡ stay_of split_rows first times.now }
{
    let count = count_before(times, first);
    if count == 0 || (count as u64) < split_rows {
        return Stay::Nothing;
    }
    if count == times.len() {
        return Stay::All;
    }
    Stay::First {
        rows: count as u64,
        hi: times[count - 1],
    }
}

/// How many times are before a moment. It takes logarithmic time.
fn count_before(times: &[u64], moment: u64) -> usize
    requires order { IsNonDecreasing times.now }
    ensures count { result ≡ before moment times.now }
    ensures within { result ≤ length times.now }
{
    times.partition_point(|time| *time < moment)
}
