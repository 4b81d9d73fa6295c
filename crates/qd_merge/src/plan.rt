//! Which parts of a table a batch touches, and how.
ghost use Rattle.std.specs.Prelude.{◌≡◌, ◌+◌, ◌<◌, ◌≤◌, ◌++◌, IfOk, OnOk, All, length, map, drop, slice_index_or};
ghost use Rattle.std.specs.List.Sorted.{IsNonDecreasing};
ghost use Rattle.qd_base.specs.declared.limits.TheConstants.{MAX_TIME as greatest};
ghost use Rattle.qd_base.specs.Laws.{IsInOrder};
ghost use Rattle.qd_base.specs.Rows.{time_of};
ghost use Rattle.qd_time.specs.Units.{unit_of};
ghost use Rattle.qd_merge.specs.Acts.{acts, before, between, partition_end, partitions, new_part, on_part, part_end};

use crate::batch::times_of;
use crate::merge::Block;
use qd_base::{
    Duplicate, Limits, MAX_TIME, Memory, Part, PartList, PartUnit, RowList, Schema, Seq,
};
use qd_time::{floor_unit, next_unit};
use std::alloc::Global;

/// What becomes of one part of a table, over a batch in order of time.
#[derive(Clone, Copy, Debug, PartialEq, Eq)]
pub enum Act {
    /// The part stays as it is.
    Keep {
        /// The number of the part.
        part: usize,
    },
    /// Rows of the batch are written behind the part's rows.
    Append {
        /// The number of the part.
        part: usize,
        /// The first of these rows.
        from: usize,
        /// The row behind the last.
        to: usize,
    },
    /// The part shows fewer rows.
    Shorten {
        /// The number of the part.
        part: usize,
        /// How many rows it shows then.
        rows: u64,
    },
    /// A new part is written, of the rows of an old one from `skip` on, merged with rows of the batch.
    Write {
        /// The number of the old part, where there is one.
        part: Option<usize>,
        /// The first of the old part's rows.
        skip: u64,
        /// The first of the batch's rows.
        from: usize,
        /// The row behind the last.
        to: usize,
    },
}

impl Duplicate for Act {
    fn copy(&self) -> Result<Act, Memory> {
        Ok(*self)
    }
}

/// Acts, in order of time.
pub type ActList = Seq<Act>;

/// Blocks of the parts that have rows in a batch, in the order of the parts.
pub type BlockList = Seq<Block>;

/// Plans what becomes of a table's parts for a batch in order of time. Each row belongs to the partition of its time,
/// there to the last part that begins no later, or to the first; a part with rows is written anew, whole, merged with
/// them, each other one is kept; a partition without parts gets one.
///
/// `written` has for each part the number of rows that its block's files hold. It costs logarithmic time in the
/// batch's size for each part and each new partition, and linear time for the batch's times. Want of memory is the
/// only error.
pub fn plan_merge(
    alloc: Global,
    parts: &PartList,
    _blocks: &BlockList,
    _written: &[u64],
    batch: &RowList,
    schema: &Schema,
    _limits: &Limits,
) -> Result<ActList, Memory>
    requires in_order { IsInOrder schema.now.time_col batch.now }
    requires times { All (λ r. time_of schema.now.time_col r ≤ greatest) batch.now }
    requires parts { All (λ p. p.lo ≤ greatest) parts.now }
    ensures acts { IfOk result (λ a. a ≡ acts (unit_of schema.now.unit) parts.now (map (time_of schema.now.time_col) batch.now)) }
{
    let times = times_of(alloc, batch.as_slice(), schema.time_col)?;
    plan_times(alloc, parts.as_slice(), times.as_slice(), schema.unit)
}

/// The same for the times of a batch, in ascending order: gives the acts on parts. It costs logarithmic time in the
/// number of times for each part and each new partition.
pub fn plan_times(
    alloc: Global,
    parts: &[Part],
    times: &[u64],
    unit: PartUnit,
) -> Result<ActList, Memory>
    requires in_order { IsNonDecreasing times.now }
    requires times { All (λ t. t ≤ greatest) times.now }
    requires parts { All (λ p. p.lo ≤ greatest) parts.now }
    ensures acts { IfOk result (λ a. a ≡ acts (unit_of unit) parts.now times.now) }
{
    let mut acts = ActList::new(alloc);
    let mut done: u64 = 0;
    for number in 0..parts.len() {
        let from = done.max(floor_unit(parts[number].lo, unit));
        let to = end_of_part(parts, number, unit);
        push_new_parts(&mut acts, times, done, from, unit)?;
        acts.push(act_on(number, count_before(times, from), count_before(times, to)))?;
        done = to;
    }
    push_new_parts(&mut acts, times, done, MAX_TIME + 1, unit)?;
    Ok(acts)
}

/// Where a part's rows of a batch end.
pub(crate) fn end_of_part(parts: &[Part], number: usize, unit: PartUnit) -> u64
    requires there { number < length parts.now }
    requires parts { All (λ p. p.lo ≤ greatest) parts.now }
    ensures end { result ≡ part_end (unit_of unit) (slice_index_or parts.now number (record { block = 0; rows = 0; cols = 0; lo = 0; hi = 0 })) (drop (number + 1) parts.now) }
{
    let end = end_of_partition(parts[number].lo, unit);
    if number + 1 < parts.len() {
        parts[number + 1].lo.min(end)
    } else {
        end
    }
}

/// The first moment behind a partition.
pub(crate) fn end_of_partition(time: u64, unit: PartUnit) -> u64
    requires { time ≤ greatest }
    ensures end { result ≡ partition_end (unit_of unit) time }
{
    match next_unit(time, unit) {
        Some(end) => end,
        None => MAX_TIME + 1,
    }
}

/// What becomes of a part over some rows of the batch.
fn act_on(part: usize, from: usize, to: usize) -> Act
    ensures act { result ≡ on_part part from to }
{
    if from == to {
        Act::Keep { part }
    } else {
        Act::Write {
            part: Some(part),
            skip: 0,
            from,
            to,
        }
    }
}

/// Adds a new part for each partition of the times from one moment up to another.
fn push_new_parts(
    acts: &mut ActList,
    times: &[u64],
    from: u64,
    to: u64,
    unit: PartUnit,
) -> Result<(), Memory>
    requires in_order { IsNonDecreasing times.now }
    requires times { All (λ t. t ≤ greatest) times.now }
    ensures added { OnOk result (acts.new ≡ acts.old ++ map (new_part (unit_of unit) times.now) (partitions (unit_of unit) (between from to times.now))) }
{
    let last = count_before(times, to);
    let mut place = count_before(times, from);
    while place < last {
        let start = floor_unit(times[place], unit);
        let end = count_before(times, end_of_partition(start, unit));
        acts.push(Act::Write {
            part: None,
            skip: 0,
            from: count_before(times, start),
            to: end,
        })?;
        place = end;
    }
    Ok(())
}

/// How many times are before a moment. It takes logarithmic time.
pub(crate) fn count_before(times: &[u64], moment: u64) -> usize
    requires { IsNonDecreasing times.now }
    ensures count { result ≡ before moment times.now }
    ensures within { result ≤ length times.now }
{
    times.partition_point(|time| *time < moment)
}
