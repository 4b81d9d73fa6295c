//! Batches: rows that come together become sorted and deduplicated.
ghost use Rattle.std.specs.Prelude.{◌≡◌, ℕ, ◌<◌, List, [], IfOk, All, map, length, slice_index_or};
ghost use Rattle.qd_base.specs.Rows.{Row, time_of};
ghost use Rattle.qd_block.specs.Blocks.{in_time_order};
ghost use Rattle.qd_merge.specs.Batch.{batch, last_of_equals};
ghost use Rattle.qd_merge.specs.Classes.{kept};

use crate::classes::{classes_of_rows, repeated};
use qd_base::{Cell, KeyList, Memory, Row, RowList};
use qd_block::{rises, time_order};
use std::alloc::Global;

/// Sorts rows by their designated timestamp; those of one time keep their order. A row without a moment in the column
/// `time_col` has the time 0.
///
/// Rows that are in order already are handed back as they are, in linear time; else it costs n log n and a copy. Want
/// of memory is the only error.
pub fn sort_batch(alloc: Global, rows: RowList, time_col: u32) -> Result<RowList, Memory>
    ensures sorted { IfOk result (λ out. out ≡ in_time_order time_col rows) }
{
    let times = times_of(alloc, rows.as_slice(), time_col)?;
    if rises(times.as_slice()) {
        return Ok(rows);
    }
    let places = time_order(alloc, times.as_slice())?;
    rows_at(alloc, rows.as_slice(), places.as_slice())
}

/// Drops each row behind which a row stands that is equal on all of the keys; NULL is equal to NULL, and a column that
/// a row lacks holds NULL. With no keys all rows stay.
///
/// It costs n log n for each key, whatever the rows are, and a copy of the rows that stay. Want of memory is the only
/// error.
pub fn dedup_batch(alloc: Global, rows: RowList, keys: &KeyList) -> Result<RowList, Memory>
    ensures last { IfOk result (λ out. out ≡ last_of_equals keys.now rows) }
    ensures of_sorted { (time_col : ℕ) (came : List Row) → rows ≡ in_time_order time_col came → IfOk result (λ out. out ≡ batch time_col keys.now came) }
{
    if keys.is_empty() {
        return Ok(rows);
    }
    let classes = classes_of_rows(alloc, rows.as_slice(), keys)?;
    let gone = repeated(alloc, classes.as_slice())?;
    kept_rows(alloc, rows.as_slice(), gone.as_slice())
}

/// The designated timestamps of rows.
pub(crate) fn times_of(alloc: Global, rows: &[Row], time_col: u32) -> Result<Vec<u64>, Memory>
    ensures times { IfOk result (λ v. v.items ≡ map (time_of time_col) rows.now) }
{
    let mut times = Vec::with_capacity(alloc, rows.len())?;
    for row in rows {
        times.push(time_of(row, time_col as usize))?;
    }
    Ok(times)
}

/// The designated timestamp of a row; 0 where it has none.
fn time_of(row: &Row, col: usize) -> u64
    ensures time { result ≡ time_of col row.now }
{
    if row.len() <= col {
        return 0;
    }
    match row.get(col) {
        Cell::Time(time) => *time,
        _ => 0,
    }
}

/// Copies the rows at some places, in the order of the places.
fn rows_at(alloc: Global, rows: &[Row], places: &[usize]) -> Result<RowList, Memory>
    requires { All (λ i. i < length rows.now) places.now }
    ensures rows { IfOk result (λ out. out ≡ map (λ i. slice_index_or rows.now i []) places.now) }
{
    let mut chosen = RowList::new(alloc);
    for place in places {
        chosen.push(rows[*place].copy()?)?;
    }
    Ok(chosen)
}

/// Copies the rows that aren't gone.
fn kept_rows(alloc: Global, rows: &[Row], gone: &[bool]) -> Result<RowList, Memory>
    requires { length gone.now ≡ length rows.now }
    ensures rows { IfOk result (λ out. out ≡ kept gone.now rows.now) }
{
    let mut stay = RowList::new(alloc);
    for place in 0..rows.len() {
        if !gone[place] {
            stay.push(rows[place].copy()?)?;
        }
    }
    Ok(stay)
}
