//! The times of rows.
ghost use Rattle.std.specs.Prelude.{◌≡◌, ◌≤◌, ◌++◌, None, IfOk, IfSome, OnOk, length, map, slice_range};
ghost use Rattle.qd_base.specs.Rows.{cell_at as cell_of_col, time_in, time_of};
ghost use Rattle.qd_column.specs.Cells.{time_cell};
ghost use Rattle.qd_rows.specs.Runs.{places_of_run};
ghost use Rattle.qd_rows.specs.Sets.{row_of_place, rows_in, IsPlaced, IsRunOf};
ghost use Rattle.qd_value.specs.Scalars.{cell_of};

use qd_base::{ColType, Dictionary, Memory, NULL_TIME};
use qd_column::Column;
use qd_expr::{Joined, scalar};
use qd_rows::{RowSet, Run};
use qd_value::{Bound, Scalar};
use std::alloc::Global;

/// The times of a set's rows, in order, of which a column is named. It takes 8 bytes a row. In a set without right
/// columns it copies them from the column's moments, run by run.
pub(crate) fn times_of<D: Dictionary>(
    alloc: Global,
    rows: &RowSet<D>,
    time_col: usize,
) -> Result<Vec<u64>, Memory>
    ensures times { IfOk result (λ v. v.items ≡ map (time_of time_col) (rows_in rows.now)) }
{
    match rows.right_cols() {
        Some(_) => times_by_row(alloc, rows, time_col),
        None => times_by_runs(alloc, rows, time_col),
    }
}

/// The times of a set's rows, one row after another.
fn times_by_row<D: Dictionary>(
    alloc: Global,
    rows: &RowSet<D>,
    time_col: usize,
) -> Result<Vec<u64>, Memory>
    ensures times { IfOk result (λ v. v.items ≡ map (time_of time_col) (rows_in rows.now)) }
{
    let mut times = Vec::with_capacity(alloc, rows.len())?;
    for i in 0..rows.len() {
        times.push(time_at(rows, time_col, rows.places(i)))?;
    }
    Ok(times)
}

/// The times of the rows of a set without right columns, run by run.
fn times_by_runs<D: Dictionary>(
    alloc: Global,
    rows: &RowSet<D>,
    time_col: usize,
) -> Result<Vec<u64>, Memory>
    requires { rows.now.right ≡ None }
    ensures times { IfOk result (λ v. v.items ≡ map (time_of time_col) (rows_in rows.now)) }
{
    let mut times = Vec::with_capacity(alloc, rows.len())?;
    for run in rows.runs() {
        push_run(&mut times, rows, time_col, *run)?;
    }
    Ok(times)
}

/// Adds the times of a run's rows.
fn push_run<D: Dictionary>(
    times: &mut Vec<u64>,
    rows: &RowSet<D>,
    time_col: usize,
    run: Run,
) -> Result<(), Memory>
    requires { IsRunOf rows.now run }
    ensures times { OnOk result (times.new.items ≡ times.old.items ++ map (λ p. time_of time_col (row_of_place rows.now (p, None))) (places_of_run run)) }
{
    match moments_of_run(rows, run, time_col) {
        Some(moments) => push_moments(times, moments),
        None => push_rows(times, rows, time_col, run),
    }
}

/// Adds moments, as a TIMESTAMP column keeps them.
fn push_moments(times: &mut Vec<u64>, moments: &[u64]) -> Result<(), Memory>
    ensures times { OnOk result (times.new.items ≡ times.old.items ++ map (λ t. time_in (time_cell t)) moments.now) }
{
    for moment in moments {
        times.push(kept_moment(*moment))?;
    }
    Ok(())
}

/// Adds the times of a run's rows, one row after another.
fn push_rows<D: Dictionary>(
    times: &mut Vec<u64>,
    rows: &RowSet<D>,
    time_col: usize,
    run: Run,
) -> Result<(), Memory>
    requires { IsRunOf rows.now run }
    ensures times { OnOk result (times.new.items ≡ times.old.items ++ map (λ p. time_of time_col (row_of_place rows.now (p, None))) (places_of_run run)) }
{
    for i in run.from..run.to {
        times.push(time_at(rows, time_col, ((run.block, i), None)))?;
    }
    Ok(())
}

/// Lends the moments that the column of a run's block keeps for the run's rows, in constant time; `None` where the
/// block lacks the column, or it isn't TIMESTAMP.
fn moments_of_run<'a, D: Dictionary>(rows: &'a RowSet<D>, run: Run, at: usize) -> Option<&'a [u64]>
    requires { IsRunOf rows.now run }
    ensures moments { IfSome result (λ ts. map time_cell ts.now ≡ map (λ p. cell_of_col (row_of_place rows.now (p, None)) at) (places_of_run run)) }
{
    let block = rows.block(run.block);
    block.is_whole();
    if block.cols() as usize <= at {
        return None;
    }
    let column = block.column(at as u32);
    part_of_moments(column, run.from as usize, run.to as usize)
}

/// Lends the moments from one row up to another; `None` for a column that isn't TIMESTAMP.
fn part_of_moments<'a, D: Dictionary>(
    column: &'a Column<D>,
    from: usize,
    to: usize,
) -> Option<&'a [u64]>
    requires ordered { from ≤ to }
    requires within { to ≤ length column.now.cells }
    ensures moments { IfSome result (λ ts. map time_cell ts.now ≡ slice_range column.now.cells from to) }
{
    match column.kind() {
        ColType::Time => Some(&column.times()[from..to]),
        _ => None,
    }
}

/// The time of the row of a place.
fn time_at<D: Dictionary>(rows: &RowSet<D>, time_col: usize, place: Joined) -> u64
    requires { IsPlaced rows.now place }
    ensures { result ≡ time_of time_col (row_of_place rows.now place) }
{
    moment(scalar(&Bound::Column(time_col), rows, place))
}

/// The time of a moment as a TIMESTAMP column keeps it: 0 for NULL.
#[inline(always)]
fn kept_moment(moment: u64) -> u64
    ensures { result ≡ time_in (time_cell moment) }
{
    if moment == NULL_TIME { 0 } else { moment }
}

/// The moment that a value of a TIMESTAMP column is.
fn moment(value: Scalar<'_>) -> u64
    ensures { result ≡ time_in (cell_of value.entry) }
{
    match value {
        Scalar::Time(time) => time,
        Scalar::Null | Scalar::Long(_) | Scalar::Bool(_) | Scalar::Text(_) => 0,
    }
}
