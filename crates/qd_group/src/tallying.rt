//! The tally of all rows of a set.
ghost use Rattle.std.specs.Prelude.{◌≡◌, None, IfOk, IfSome, fold, map, pos};
ghost use Rattle.qd_base.specs.Rows.{cell_at as cell_of_col, Row};
ghost use Rattle.qd_group.specs.Tallied.{state_of};
ghost use Rattle.qd_group.specs.Tallies.{argument as argument_of, counted, next, tallied};
ghost use Rattle.qd_rows.specs.Runs.{places_of_run};
ghost use Rattle.qd_rows.specs.Sets.{row_of_place, rows_in, IsPlaced, IsRunOf};
ghost use Rattle.qd_value.specs.Scalars.{cell_of};
ghost use Rattle.qd_value.specs.Value.{value};

use crate::longs::longs_of_run;
use crate::tallies::Tally;
use qd_base::{Dictionary, Memory};
use qd_expr::{Joined, scalar};
use qd_meaning::Agg;
use qd_rows::{RowSet, Run};
use qd_value::{Bound, Scalar};
use std::alloc::{AllocError, Global};

/// The tally of all rows of a set. A count takes constant time; a sum, the least and the greatest value of a LONG column
/// go over the column's numbers, in a set without right columns. Any other takes the time of an expression a row.
pub(crate) fn tally_of_all<'a, D: Dictionary>(
    agg: &'a Agg,
    rows: &'a RowSet<D>,
) -> Result<Tally<'a>, Memory>
    ensures tally { IfOk result (λ t. state_of t ≡ tallied agg.now (rows_in rows.now)) }
{
    match agg {
        Agg::Count => count_of(rows.len()),
        _ => tally_of_values(agg, rows),
    }
}

/// The tally of so many rows that are counted.
fn count_of<'a>(rows: usize) -> Result<Tally<'a>, Memory>
    ensures tally { IfOk result (λ t. state_of t ≡ counted (pos rows)) }
{
    if rows > i64::MAX as usize {
        return Err(AllocError);
    }
    Ok(Tally::Count(rows as i64))
}

/// The tally of all rows, of an aggregate that takes a value of each.
fn tally_of_values<'a, D: Dictionary>(
    agg: &'a Agg,
    rows: &'a RowSet<D>,
) -> Result<Tally<'a>, Memory>
    ensures tally { IfOk result (λ t. state_of t ≡ tallied agg.now (rows_in rows.now)) }
{
    match rows.right_cols() {
        Some(_) => tally_by_row(agg, rows),
        None => match column_of_agg(agg) {
            Some(at) => tally_by_runs(agg, at, rows),
            None => tally_by_row(agg, rows),
        },
    }
}

/// The tally of all rows, one after another.
fn tally_by_row<'a, D: Dictionary>(agg: &'a Agg, rows: &'a RowSet<D>) -> Result<Tally<'a>, Memory>
    ensures tally { IfOk result (λ t. state_of t ≡ tallied agg.now (rows_in rows.now)) }
{
    let mut tally = Tally::new(agg);
    for i in 0..rows.len() {
        tally = tally.after(argument(agg, rows, rows.places(i)))?;
    }
    Ok(tally)
}

/// The tally of all rows of a set without right columns, of an aggregate over a column.
fn tally_by_runs<'a, D: Dictionary>(
    agg: &'a Agg,
    at: usize,
    rows: &'a RowSet<D>,
) -> Result<Tally<'a>, Memory>
    requires single { rows.now.right ≡ None }
    requires column { (row : Row) → argument_of agg.now row ≡ cell_of_col row at }
    ensures tally { IfOk result (λ t. state_of t ≡ tallied agg.now (rows_in rows.now)) }
{
    let mut tally = Tally::new(agg);
    for run in rows.runs() {
        tally = after_run(tally, agg, at, rows, *run)?;
    }
    Ok(tally)
}

/// A tally after the rows of a run, of an aggregate over a column: over the numbers of a LONG column, and else row by row.
fn after_run<'a, D: Dictionary>(
    tally: Tally<'a>,
    agg: &'a Agg,
    at: usize,
    rows: &'a RowSet<D>,
    run: Run,
) -> Result<Tally<'a>, Memory>
    requires there { IsRunOf rows.now run }
    requires column { (row : Row) → argument_of agg.now row ≡ cell_of_col row at }
    ensures tally { IfOk result (λ t. state_of t ≡ fold next (state_of tally.entry) (map (λ p. argument_of agg.now (row_of_place rows.now (p, None))) (places_of_run run))) }
{
    match longs_of_run(rows, run, at) {
        Some(numbers) => tally.after_longs(numbers),
        None => after_rows(tally, agg, rows, run),
    }
}

/// A tally after the rows of a run, one after another.
fn after_rows<'a, D: Dictionary>(
    tally: Tally<'a>,
    agg: &'a Agg,
    rows: &'a RowSet<D>,
    run: Run,
) -> Result<Tally<'a>, Memory>
    requires { IsRunOf rows.now run }
    ensures tally { IfOk result (λ t. state_of t ≡ fold next (state_of tally.entry) (map (λ p. argument_of agg.now (row_of_place rows.now (p, None))) (places_of_run run))) }
{
    let mut after = tally;
    for i in run.from..run.to {
        after = after.after(argument(agg, rows, ((run.block, i), None)))?;
    }
    Ok(after)
}

/// The column whose values an aggregate takes.
pub(crate) fn column_of_agg(agg: &Agg) -> Option<usize>
    ensures { IfSome result (λ at. (row : Row) → argument_of agg.now row ≡ cell_of_col row at) }
{
    match agg {
        Agg::Sum(x) | Agg::Min(x) | Agg::Max(x) | Agg::First(x) | Agg::Last(x) => column_of(x),
        Agg::Count => None,
    }
}

/// The column that an expression is.
pub(crate) fn column_of(expr: &Bound) -> Option<usize>
    ensures { IfSome result (λ at. (row : Row) → value expr.now row ≡ cell_of_col row at) }
{
    match expr {
        Bound::Column(at) => Some(*at),
        _ => None,
    }
}

/// The value that an aggregate takes of the row of a place; NULL where it takes none.
pub(crate) fn argument<'a, D: Dictionary>(
    agg: &'a Agg,
    rows: &'a RowSet<D>,
    place: Joined,
) -> Scalar<'a>
    requires { IsPlaced rows.now place }
    ensures { cell_of result ≡ argument_of agg.now (row_of_place rows.now place) }
{
    match agg {
        Agg::Count => Scalar::Null,
        Agg::Sum(x) | Agg::Min(x) | Agg::Max(x) | Agg::First(x) | Agg::Last(x) => {
            scalar(x, rows, place)
        }
    }
}
