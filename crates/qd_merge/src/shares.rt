//! Which rows of a batch belong to which part of a table, and what becomes of a part with some.
ghost use Rattle.std.specs.Prelude.{◌≡◌, ◌<◌, ◌≤◌, ◌++◌, IfOk, OnOk, All, length, map};
ghost use Rattle.std.specs.List.Sorted.{IsNonDecreasing};
ghost use Rattle.qd_base.specs.declared.limits.TheConstants.{MAX_TIME as greatest};
ghost use Rattle.qd_time.specs.Units.{unit_of};
ghost use Rattle.qd_merge.specs.Acts.{before, between, partitions};
ghost use Rattle.qd_merge.specs.Owners.{AreInOrder};
ghost use Rattle.qd_merge.specs.Shares.{first_rows, goes_behind, is_behind, new_share, share_on, shares, split_acts, split_on};

use crate::plan::{Act, count_before, end_of_part, end_of_partition};
use qd_base::{MAX_TIME, Memory, Part, PartUnit};
use qd_time::floor_unit;
use std::alloc::Global;

/// What a plan goes by.
#[derive(Clone, Copy, Debug)]
pub struct Rules {
    /// The unit of the table's partitions.
    pub unit: PartUnit,
    /// Whether rows replace earlier ones that are equal on keys.
    pub keyed: bool,
    /// How many columns the table has.
    pub cols: u32,
    /// From how many rows on those that stand before all late ones stay where they lie.
    pub split_rows: u64,
}

/// What becomes of a part of a table, or of a partition without parts, as far as that is known without the part's rows.
#[derive(Clone, Copy, Debug, PartialEq, Eq)]
pub enum Share {
    /// The part has no rows in the batch.
    Keep {
        /// The number of the part.
        part: usize,
    },
    /// The part's rows of the batch go behind those that its files hold.
    Append {
        /// The number of the part.
        part: usize,
        /// The first of these rows.
        from: usize,
        /// The row behind the last.
        to: usize,
    },
    /// The part's rows of the batch are merged with its own.
    Merge {
        /// The number of the part.
        part: usize,
        /// The first of these rows.
        from: usize,
        /// The row behind the last.
        to: usize,
    },
    /// A partition without parts gets one.
    New {
        /// The first of its rows in the batch.
        from: usize,
        /// The row behind the last.
        to: usize,
    },
}

/// What becomes of a part whose rows are merged with those of a batch.
#[derive(Clone, Copy, Debug)]
pub struct Split {
    /// What becomes of the part itself, where it stays.
    pub stays: Option<Act>,
    /// The part that is written.
    pub write: Act,
}

/// Shares the rows of a batch out among the parts of a table, which stand in order of time, by the rows' times in
/// ascending order. `written` has for each part the number of rows that its block's files hold.
///
/// A row belongs to the part of its partition that begins last and no later than the row, else to the first one. Rows go
/// behind a part's own where that shows all that its files hold, and all columns, and where they replace none of its rows
/// and stand behind them. It costs logarithmic time in the number of rows for each part and each new partition. Want of
/// memory is the only error.
pub fn share_batch(
    alloc: Global,
    rules: &Rules,
    parts: &[Part],
    written: &[u64],
    times: &[u64],
) -> Result<Vec<Share>, Memory>
    requires parts_in_order { AreInOrder parts.now }
    requires parts { All (λ p. p.lo ≤ greatest) parts.now }
    requires written { length written.now ≡ length parts.now }
    requires in_order { IsNonDecreasing times.now }
    requires times { All (λ t. t ≤ greatest) times.now }
    ensures shares { IfOk result (λ list. list.items ≡ shares rules.now parts.now written.now times.now) }
{
    let mut list = Vec::new(alloc);
    let mut done: u64 = 0;
    for number in 0..parts.len() {
        let from = done.max(floor_unit(parts[number].lo, rules.unit));
        let to = end_of_part(parts, number, rules.unit);
        push_new_shares(&mut list, times, done, from, rules.unit)?;
        let first = count_before(times, from);
        let last = count_before(times, to);
        list.push(share_on(
            rules,
            number,
            &parts[number],
            written[number],
            times,
            first,
            last,
        ))?;
        done = to;
    }
    push_new_shares(&mut list, times, done, MAX_TIME + 1, rules.unit)?;
    Ok(list)
}

/// What becomes of a part over the rows of a batch from one up to another.
fn share_on(
    rules: &Rules,
    number: usize,
    part: &Part,
    written: u64,
    times: &[u64],
    from: usize,
    to: usize,
) -> Share
    requires within { to ≤ length times.now }
    ensures share { result ≡ share_on rules.now number part.now written times.now from to }
{
    if to <= from {
        return Share::Keep { part: number };
    }
    if goes_behind(rules, part, written, times[from]) {
        return Share::Append {
            part: number,
            from,
            to,
        };
    }
    Share::Merge {
        part: number,
        from,
        to,
    }
}

/// Whether rows from a time on may be appended to a part: it shows all rows that its files hold, and all columns, and the
/// rows stand behind its own and replace none of them.
fn goes_behind(rules: &Rules, part: &Part, written: u64, time: u64) -> bool
    ensures behind { result ≡ goes_behind rules.now part.now written time }
{
    part.rows == written && part.cols == rules.cols && is_behind(rules.keyed, part, time)
}

/// Whether rows from a time on stand behind all rows of a part, and replace none of them.
fn is_behind(keyed: bool, part: &Part, time: u64) -> bool
    ensures behind { result ≡ is_behind keyed part.now time }
{
    if keyed {
        part.hi < time
    } else {
        part.hi <= time
    }
}

/// Adds a new part for each partition of the times from one moment up to another.
fn push_new_shares(
    list: &mut Vec<Share>,
    times: &[u64],
    from: u64,
    to: u64,
    unit: PartUnit,
) -> Result<(), Memory>
    requires in_order { IsNonDecreasing times.now }
    requires times { All (λ t. t ≤ greatest) times.now }
    ensures added { OnOk result (list.new.items ≡ list.old.items ++ map (new_share (unit_of unit) times.now) (partitions (unit_of unit) (between from to times.now))) }
{
    let last = count_before(times, to);
    let mut place = count_before(times, from);
    while place < last {
        let start = floor_unit(times[place], unit);
        let end = count_before(times, end_of_partition(start, unit));
        list.push(Share::New {
            from: count_before(times, start),
            to: end,
        })?;
        place = end;
    }
    Ok(())
}

/// Splits a part at the first of the batch's rows among or before its own, `first` being that one's time and `rows` the
/// times of the part's own: where some of them, and enough, stand before it, they stay as they lie, and those behind are written with
/// the batch's rows; else all are. It costs logarithmic time in the number of rows.
pub fn split_part(
    rules: &Rules,
    part: usize,
    rows: &[u64],
    first: u64,
    from: usize,
    to: usize,
) -> Split
    requires in_order { IsNonDecreasing rows.now }
    ensures split { split_acts result ≡ split_on rules.now part (before first rows.now) (length rows.now) from to }
{
    let count = count_before(rows, first);
    if count == 0 || (count as u64) < rules.split_rows {
        return Split {
            stays: None,
            write: Act::Write {
                part: Some(part),
                skip: 0,
                from,
                to,
            },
        };
    }
    Split {
        stays: Some(first_rows(part, count, rows.len())),
        write: Act::Write {
            part: Some(part),
            skip: count as u64,
            from,
            to,
        },
    }
}

/// What becomes of a part of which the first rows stay, of so many.
fn first_rows(part: usize, count: usize, rows: usize) -> Act
    ensures act { result ≡ first_rows part count rows }
{
    if count == rows {
        Act::Keep { part }
    } else {
        Act::Shorten {
            part,
            rows: count as u64,
        }
    }
}
