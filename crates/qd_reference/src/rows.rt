//! Rows put into the rows of a table.
ghost use Rattle.std.specs.Prelude.{◌≡◌, ◌++◌, not, nat_le, nat_lt, filter, IfOk, OnOk};
ghost use Rattle.std.specs.List.{fold};
ghost use Rattle.qd_base.specs.Rows.{put, in_time, without_equals, same_on, time_of};

use crate::compare::{equal_on, time_of};
use qd_base::{Duplicate, KeyList, Memory, Row, RowList};
use std::alloc::Global;

/// Puts a row into the rows of a table: those that are equal to it on all of the keys go, and it comes behind those of
/// its time or an earlier one. With no keys all rows stay.
///
/// `time_col` is the position of the designated timestamp, and `keys` are positions of columns, counted from 0. A column
/// that a row lacks holds NULL, and a row without a moment in `time_col` has the time 0. It costs time and memory linear in
/// all rows' size. The one error is want of memory; what was given stays as it is, then too.
///
/// The rule is QuestDB's of designated timestamps and of deduplication (UPSERT KEYS).
pub fn put(
    alloc: Global,
    rows: &RowList,
    row: &Row,
    time_col: u32,
    keys: &KeyList,
) -> Result<RowList, Memory>
    ensures put { IfOk result (λ out. out ≡ put time_col keys.now rows.now row.now) }
{
    let rest = without_equals(alloc, rows, row, keys)?;
    in_time(alloc, &rest, row, time_col)
}

/// Puts rows into the rows of a table, one after the other, each as `put` does.
///
/// It costs time linear in the number of new rows times all rows' size, and memory linear in that size. The one error is
/// want of memory; what was given stays as it is, then too.
pub fn put_all(
    alloc: Global,
    rows: &RowList,
    new: &[Row],
    time_col: u32,
    keys: &KeyList,
) -> Result<RowList, Memory>
    ensures put { IfOk result (λ out. out ≡ fold (put time_col keys.now) rows.now new.now) }
{
    let mut out = rows.copy()?;
    for row in new {
        out = put(alloc, &out, row, time_col, keys)?;
    }
    Ok(out)
}

/// The rows that a row leaves: all without keys, else those that differ from it on a key.
fn without_equals(
    alloc: Global,
    rows: &RowList,
    row: &Row,
    keys: &KeyList,
) -> Result<RowList, Memory>
    ensures rest { IfOk result (λ out. out ≡ without_equals keys.now rows.now row.now) }
{
    match keys.as_slice() {
        [] => rows.copy(),
        _ => differing(alloc, rows, row, keys),
    }
}

/// The rows that differ from a row on a key.
fn differing(alloc: Global, rows: &RowList, row: &Row, keys: &KeyList) -> Result<RowList, Memory>
    ensures rest { IfOk result (λ out. out ≡ filter (λ x. not (same_on keys.now x row.now)) rows.now) }
{
    let mut out = RowList::new(alloc);
    for other in rows.as_slice() {
        if !equal_on(keys, other, row) {
            out.push(other.copy()?)?;
        }
    }
    Ok(out)
}

/// The rows with a time at most the row's, then the row, then the rest.
fn in_time(alloc: Global, rows: &RowList, row: &Row, time_col: u32) -> Result<RowList, Memory>
    ensures rows { IfOk result (λ out. out ≡ in_time time_col rows.now row.now) }
{
    let (mut out, later) = apart(alloc, rows, time_of(row, time_col), time_col)?;
    out.push(row.copy()?)?;
    push_copies(&mut out, &later)?;
    Ok(out)
}

/// The rows of a time or an earlier one, and those of later times.
fn apart(
    alloc: Global,
    rows: &RowList,
    time: u64,
    time_col: u32,
) -> Result<(RowList, RowList), Memory>
    ensures up_to { IfOk result (λ out. out.0 ≡ filter (λ x. nat_le (time_of time_col x) time) rows.now) }
    ensures later { IfOk result (λ out. out.1 ≡ filter (λ x. nat_lt time (time_of time_col x)) rows.now) }
{
    let mut up_to = RowList::new(alloc);
    let mut later = RowList::new(alloc);
    for other in rows.as_slice() {
        if time_of(other, time_col) <= time {
            up_to.push(other.copy()?)?;
        } else {
            later.push(other.copy()?)?;
        }
    }
    Ok((up_to, later))
}

/// Adds copies of rows at the end of others.
fn push_copies(out: &mut RowList, rows: &RowList) -> Result<(), Memory>
    ensures more { OnOk result (out.new ≡ out.old ++ rows.now) }
{
    for row in rows.as_slice() {
        out.push(row.copy()?)?;
    }
    Ok(())
}
