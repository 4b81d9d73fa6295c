//! The rows of a set that pass a test.
ghost use Rattle.std.specs.Prelude.{◌≡◌, ℕ, ◌++◌, ◌-◌, ◌<◌, ◌≤◌, [], false, None, IfOk, OnOk, filter as filtered, length, slice_index_or};
ghost use Rattle.qd_expr.specs.Passing.{chosen, passes_at, passing, with_places};
ghost use Rattle.qd_rows.specs.Runs.{places_of_run};
ghost use Rattle.qd_rows.specs.Sets.{alone, rows_in, IsRunOf};
ghost use Rattle.qd_value.specs.Value.{passes};

use crate::on_set::test_at;
use crate::runs::truths;
use qd_base::{Dictionary, Memory};
use qd_rows::{RowSet, Run};
use qd_value::Bound;
use std::alloc::Global;

/// How many rows are tested together.
const TOGETHER: u64 = 4096;

/// Gives the rows of a set that pass a test, in their order, over the same columns and blocks. No row and no cell is
/// made, and memory is taken for runs alone, and some thousand bytes for each level of the test's depth.
///
/// It costs time linear in the rows and in the test's size: in a set without right columns in the time of `truths`, and
/// else, row by row, in that of `test`.
pub fn filter<D: Dictionary>(
    alloc: Global,
    rows: &RowSet<D>,
    expr: &Bound,
) -> Result<RowSet<D>, Memory>
    ensures rows { IfOk result (λ set. rows_in set ≡ filtered (passes expr.now) (rows_in rows.now)) }
    ensures set { IfOk result (λ set. set ≡ passing expr.now rows.now) }
{
    let mut kept = without_rows(alloc, rows)?;
    keep(alloc, &mut kept, rows, expr)?;
    Ok(kept)
}

/// The set without its rows.
fn without_rows<D: Dictionary>(alloc: Global, rows: &RowSet<D>) -> Result<RowSet<D>, Memory>
    ensures { IfOk result (λ set. set ≡ with_places rows.now []) }
{
    let mut empty = RowSet::over(alloc, rows.left_cols(), rows.right_cols())?;
    for b in 0..rows.blocks() {
        empty.add_block(rows.block(b).clone()?)?;
    }
    Ok(empty)
}

/// Adds the rows that pass to a set.
fn keep<D: Dictionary>(
    alloc: Global,
    kept: &mut RowSet<D>,
    rows: &RowSet<D>,
    expr: &Bound,
) -> Result<(), Memory>
    requires { kept.old ≡ with_places rows.now [] }
    ensures ok { OnOk result (kept.new ≡ passing expr.now rows.now) }
{
    match rows.right_cols() {
        None => keep_runs(alloc, kept, rows, expr),
        Some(_) => keep_joined(kept, rows, expr),
    }
}

/// Adds the rows that pass to a set, one by one.
fn keep_joined<D: Dictionary>(
    kept: &mut RowSet<D>,
    rows: &RowSet<D>,
    expr: &Bound,
) -> Result<(), Memory>
    requires { kept.old ≡ with_places rows.now [] }
    ensures ok { OnOk result (kept.new ≡ passing expr.now rows.now) }
{
    for i in 0..rows.len() {
        let place = rows.places(i);
        if test_at(expr, rows, place) {
            kept.push_row(place.0, place.1)?;
        }
    }
    Ok(())
}

/// Adds the rows that pass to a set without right columns, run by run.
fn keep_runs<D: Dictionary>(
    alloc: Global,
    kept: &mut RowSet<D>,
    rows: &RowSet<D>,
    expr: &Bound,
) -> Result<(), Memory>
    requires single { rows.now.right ≡ None }
    requires empty { kept.old ≡ with_places rows.now [] }
    ensures ok { OnOk result (kept.new ≡ passing expr.now rows.now) }
{
    for run in rows.runs() {
        keep_run(alloc, kept, rows, expr, *run)?;
    }
    Ok(())
}

/// Adds the rows of a run that pass, some thousand rows at a time.
fn keep_run<D: Dictionary>(
    alloc: Global,
    kept: &mut RowSet<D>,
    rows: &RowSet<D>,
    expr: &Bound,
    run: Run,
) -> Result<(), Memory>
    requires single { rows.now.right ≡ None }
    requires same { kept.old ≡ with_places rows.now kept.old.places }
    requires there { IsRunOf rows.now run }
    ensures ok { OnOk result (kept.new ≡ with_places rows.now (kept.old.places ++ filtered (passes_at expr.now rows.now) (alone (places_of_run run)))) }
{
    let mut from = run.from;
    while from < run.to {
        let part = part_of(run, from);
        let found = truths(alloc, expr, rows, part)?;
        keep_part(kept, part, found.as_slice())?;
        from = part.to;
    }
    Ok(())
}

/// The next rows of a run that are tested together.
fn part_of(run: Run, from: u64) -> Run
    requires { from < run.to }
    ensures block { result.block ≡ run.block }
    ensures begins { result.from ≡ from }
    ensures some { from < result.to }
    ensures within { result.to ≤ run.to }
{
    let to = if run.to - from > TOGETHER {
        from + TOGETHER
    } else {
        run.to
    };
    Run { from, to, ..run }
}

/// Adds the rows of a run at which a truth is true, neighbours together.
fn keep_part<D: Dictionary>(kept: &mut RowSet<D>, part: Run, found: &[bool]) -> Result<(), Memory>
    requires single { kept.old.right ≡ None }
    requires there { IsRunOf kept.old part }
    requires size { length found.now ≡ part.to - part.from }
    ensures ok { OnOk result (kept.new ≡ with_places kept.old (kept.old.places ++ chosen found.now (alone (places_of_run part)))) }
{
    let mut from = 0;
    while from < found.len() {
        let to = end_of(found, from);
        let passes = found[from];
        if passes {
            kept.push_run(part.block, part.from + from as u64, part.from + to as u64)?;
        }
        from = to;
    }
    Ok(())
}

/// Where the truths end that are the same as one, from that one on.
fn end_of(found: &[bool], from: usize) -> usize
    requires { from < length found.now }
    ensures more { from < result }
    ensures within { result ≤ length found.now }
    ensures same { (i : ℕ) → from ≤ i → i < result → slice_index_or found.now i false ≡ slice_index_or found.now from false }
{
    let truth = found[from];
    for to in from + 1..found.len() {
        if found[to] != truth {
            return to;
        }
    }
    found.len()
}
