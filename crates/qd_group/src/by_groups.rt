//! What an aggregate makes of each group's rows: one loop over the rows for each form of what is kept.
ghost use Rattle.std.specs.Prelude.{◌≡◌, ℕ, ◌+◌, ◌-◌, ◌<◌, ◌≤◌, None, All, IfOk, OnOk, length, map, pos, replicate, slice_index_or, slice_set};
ghost use Rattle.std.specs.List.{range_with_len};
ghost use Rattle.qd_base.specs.Rows.{cell_at as cell_of_col, Row};
ghost use Rattle.qd_column.specs.Cells.{long_cell};
ghost use Rattle.qd_expr.specs.Passing.{row_in};
ghost use Rattle.qd_group.specs.Grouping.{answers_of, members};
ghost use Rattle.qd_group.specs.Kept.{AreKept, CountsAll, KeepsMore};
ghost use Rattle.qd_group.specs.Tallies.{answer as answer_of, argument as argument_of, counted, next, start as start_of, tallied};
ghost use Rattle.qd_meaning.specs.declared.parts.Agg.TheVariants as agg_of;
ghost use Rattle.qd_rows.specs.Sets.{row_of_place, rows_in, IsRunOf};
ghost use Rattle.qd_value.specs.Scalars.{cell_of};

use crate::groups::Groups;
use crate::keeping::{Count, Greatest, Keeping, Least, Total};
use crate::longs::longs_of_run;
use crate::tallies::Tally;
use crate::tallying::{argument, column_of_agg};
use qd_base::{Dictionary, Memory};
use qd_meaning::Agg;
use qd_rows::{RowSet, Run};
use qd_value::Scalar;
use std::alloc::Global;

/// What an aggregate makes of each group's rows. A count goes over the numbers of the groups alone; an aggregate over a
/// LONG column goes over the column's numbers, in a set without right columns. Any other takes the time of an
/// expression a row. It takes at most 72 bytes a group.
pub(crate) fn answers_of_groups<'a, D: Dictionary>(
    alloc: Global,
    agg: &'a Agg,
    rows: &'a RowSet<D>,
    groups: &Groups,
) -> Result<Vec<Scalar<'a>>, Memory>
    requires count { length groups.now.numbers.items ≡ length rows.now.places }
    requires below { All (λ n. n < length groups.now.firsts.items) groups.now.numbers.items }
    ensures answers { IfOk result (λ v. map cell_of v.items ≡ answers_of groups.now.numbers.items (length groups.now.firsts.items) (rows_in rows.now) agg.now) }
{
    match agg {
        Agg::Count => answers_of_counts(alloc, agg, rows, groups),
        Agg::Sum(_) => answers_from(alloc, Total::new(), agg, rows, groups),
        Agg::Min(_) => answers_from(alloc, Least::new(), agg, rows, groups),
        Agg::Max(_) => answers_from(alloc, Greatest::new(), agg, rows, groups),
        Agg::First(_) | Agg::Last(_) => answers_from(alloc, Tally::new(agg), agg, rows, groups),
    }
}

/// How many rows each group has.
fn answers_of_counts<'a, D: Dictionary>(
    alloc: Global,
    agg: &'a Agg,
    rows: &'a RowSet<D>,
    groups: &Groups,
) -> Result<Vec<Scalar<'a>>, Memory>
    requires counts { agg.now ≡ agg_of.Count }
    requires count { length groups.now.numbers.items ≡ length rows.now.places }
    requires below { All (λ n. n < length groups.now.firsts.items) groups.now.numbers.items }
    ensures answers { IfOk result (λ v. map cell_of v.items ≡ answers_of groups.now.numbers.items (length groups.now.firsts.items) (rows_in rows.now) agg.now) }
{
    let mut tallies = repeated(alloc, Count::new(), groups.firsts.len())?;
    add_counts(&mut tallies, groups)?;
    outcomes(alloc, tallies.as_slice())
}

/// What an aggregate makes of each group's rows, from what it keeps before the first row.
fn answers_from<'a, K: Keeping<'a>, D: Dictionary>(
    alloc: Global,
    start: K,
    agg: &'a Agg,
    rows: &'a RowSet<D>,
    groups: &Groups,
) -> Result<Vec<Scalar<'a>>, Memory>
    requires start { K.state start ≡ start_of agg.now }
    requires count { length groups.now.numbers.items ≡ length rows.now.places }
    requires below { All (λ n. n < length groups.now.firsts.items) groups.now.numbers.items }
    ensures answers { IfOk result (λ v. map cell_of v.items ≡ answers_of groups.now.numbers.items (length groups.now.firsts.items) (rows_in rows.now) agg.now) }
{
    let tallies = tallies_of_groups(alloc, start, agg, rows, groups)?;
    outcomes(alloc, tallies.as_slice())
}

/// What is kept of each group's rows.
fn tallies_of_groups<'a, K: Keeping<'a>, D: Dictionary>(
    alloc: Global,
    start: K,
    agg: &'a Agg,
    rows: &'a RowSet<D>,
    groups: &Groups,
) -> Result<Vec<K>, Memory>
    requires start { K.state start ≡ start_of agg.now }
    requires count { length groups.now.numbers.items ≡ length rows.now.places }
    requires below { All (λ n. n < length groups.now.firsts.items) groups.now.numbers.items }
    ensures tallies { IfOk result (λ v. map K.state v.items ≡ map (λ n. tallied agg.now (members n groups.now.numbers.items (rows_in rows.now))) (range_with_len 0 (length groups.now.firsts.items))) }
{
    match rows.right_cols() {
        Some(_) => tallies_by_row(alloc, start, agg, rows, groups),
        None => match column_of_agg(agg) {
            Some(at) => tallies_by_runs(alloc, start, agg, at, rows, groups),
            None => tallies_by_row(alloc, start, agg, rows, groups),
        },
    }
}

/// What is kept of each group's rows, run by run, of an aggregate over a column.
fn tallies_by_runs<'a, K: Keeping<'a>, D: Dictionary>(
    alloc: Global,
    start: K,
    agg: &'a Agg,
    at: usize,
    rows: &'a RowSet<D>,
    groups: &Groups,
) -> Result<Vec<K>, Memory>
    requires start { K.state start ≡ start_of agg.now }
    requires single { rows.now.right ≡ None }
    requires column { (row : Row) → argument_of agg.now row ≡ cell_of_col row at }
    requires count { length groups.now.numbers.items ≡ length rows.now.places }
    requires below { All (λ n. n < length groups.now.firsts.items) groups.now.numbers.items }
    ensures tallies { IfOk result (λ v. map K.state v.items ≡ map (λ n. tallied agg.now (members n groups.now.numbers.items (rows_in rows.now))) (range_with_len 0 (length groups.now.firsts.items))) }
{
    let mut tallies = repeated(alloc, start, groups.firsts.len())?;
    add_runs(&mut tallies, agg, at, rows, groups)?;
    Ok(tallies)
}

/// What is kept of each group's rows, one row after another.
fn tallies_by_row<'a, K: Keeping<'a>, D: Dictionary>(
    alloc: Global,
    start: K,
    agg: &'a Agg,
    rows: &'a RowSet<D>,
    groups: &Groups,
) -> Result<Vec<K>, Memory>
    requires start { K.state start ≡ start_of agg.now }
    requires count { length groups.now.numbers.items ≡ length rows.now.places }
    requires below { All (λ n. n < length groups.now.firsts.items) groups.now.numbers.items }
    ensures tallies { IfOk result (λ v. map K.state v.items ≡ map (λ n. tallied agg.now (members n groups.now.numbers.items (rows_in rows.now))) (range_with_len 0 (length groups.now.firsts.items))) }
{
    let mut tallies = repeated(alloc, start, groups.firsts.len())?;
    for i in 0..rows.len() {
        let value = argument(agg, rows, rows.places(i));
        add_value(&mut tallies, groups.numbers[i], value)?;
    }
    Ok(tallies)
}

/// An item, so many times.
pub(crate) fn repeated<K: Copy>(alloc: Global, item: K, count: usize) -> Result<Vec<K>, Memory>
    ensures items { IfOk result (λ v. v.items ≡ replicate count item) }
{
    let mut items = Vec::with_capacity(alloc, count)?;
    for _ in 0..count {
        items.push(item)?;
    }
    Ok(items)
}

/// What an aggregate answers, from what it has kept of each group.
fn outcomes<'a, K: Keeping<'a>>(alloc: Global, tallies: &[K]) -> Result<Vec<Scalar<'a>>, Memory>
    ensures answers { IfOk result (λ v. map cell_of v.items ≡ map (λ t. answer_of (K.state t)) tallies.now) }
{
    let mut answers = Vec::with_capacity(alloc, tallies.len())?;
    for tally in tallies {
        answers.push(tally.outcome())?;
    }
    Ok(answers)
}

/// Adds the rows of a set without right columns to the tallies of their groups, of an aggregate over a column: over the
/// numbers of LONG columns, and else row by row.
fn add_runs<'a, K: Keeping<'a>, D: Dictionary>(
    tallies: &mut Vec<K>,
    agg: &'a Agg,
    at: usize,
    rows: &'a RowSet<D>,
    groups: &Groups,
) -> Result<(), Memory>
    requires single { rows.now.right ≡ None }
    requires column { (row : Row) → argument_of agg.now row ≡ cell_of_col row at }
    requires count { length groups.now.numbers.items ≡ length rows.now.places }
    requires below { All (λ n. n < length groups.now.firsts.items) groups.now.numbers.items }
    requires none { AreKept agg.now groups.now.numbers.items (rows_in rows.now) 0 (length groups.now.firsts.items) (map K.state tallies.old.items) }
    ensures kept { OnOk result (AreKept agg.now groups.now.numbers.items (rows_in rows.now) (length rows.now.places) (length groups.now.firsts.items) (map K.state tallies.new.items)) }
{
    for run in rows.runs() {
        add_run(tallies, agg, at, rows, groups, *run)?;
    }
    Ok(())
}

/// Adds the rows of a run.
fn add_run<'a, K: Keeping<'a>, D: Dictionary>(
    tallies: &mut Vec<K>,
    agg: &'a Agg,
    at: usize,
    rows: &'a RowSet<D>,
    groups: &Groups,
    run: Run,
) -> Result<(), Memory>
    requires there { IsRunOf rows.now run }
    requires column { (row : Row) → argument_of agg.now row ≡ cell_of_col row at }
    requires count { length groups.now.numbers.items ≡ length rows.now.places }
    requires inside { run.before + (run.to - run.from) ≤ length rows.now.places }
    requires rows { (k : ℕ) → k < run.to - run.from → row_of_place rows.now ((run.block, run.from + k), None) ≡ row_in rows.now (run.before + k) }
    requires below { All (λ n. n < length groups.now.firsts.items) groups.now.numbers.items }
    requires before { AreKept agg.now groups.now.numbers.items (rows_in rows.now) run.before (length groups.now.firsts.items) (map K.state tallies.old.items) }
    ensures kept { OnOk result (AreKept agg.now groups.now.numbers.items (rows_in rows.now) (run.before + (run.to - run.from)) (length groups.now.firsts.items) (map K.state tallies.new.items)) }
{
    match longs_of_run(rows, run, at) {
        Some(numbers) => add_longs(tallies, groups, run.before, numbers),
        None => add_rows(tallies, agg, rows, groups, run),
    }
}

/// Adds the numbers of rows, as a LONG column keeps them, behind so many rows.
fn add_longs<'a, K: Keeping<'a>>(
    tallies: &mut Vec<K>,
    groups: &Groups,
    before: usize,
    numbers: &[i64],
) -> Result<(), Memory>
    requires inside { before + length numbers.now ≤ length groups.now.numbers.items }
    requires below { All (λ n. n < length groups.now.firsts.items) groups.now.numbers.items }
    requires size { length tallies.old.items ≡ length groups.now.firsts.items }
    ensures kept { OnOk result (KeepsMore groups.now.numbers.items before (length numbers.now) (length groups.now.firsts.items) (λ k. long_cell (slice_index_or numbers.now k (pos 0))) (map K.state tallies.old.items) (map K.state tallies.new.items)) }
{
    for k in 0..numbers.len() {
        add_long(tallies, groups.numbers[before + k], numbers[k])?;
    }
    Ok(())
}

/// Adds the rows of a run, one after another.
fn add_rows<'a, K: Keeping<'a>, D: Dictionary>(
    tallies: &mut Vec<K>,
    agg: &'a Agg,
    rows: &'a RowSet<D>,
    groups: &Groups,
    run: Run,
) -> Result<(), Memory>
    requires there { IsRunOf rows.now run }
    requires count { length groups.now.numbers.items ≡ length rows.now.places }
    requires inside { run.before + (run.to - run.from) ≤ length rows.now.places }
    requires rows { (k : ℕ) → k < run.to - run.from → row_of_place rows.now ((run.block, run.from + k), None) ≡ row_in rows.now (run.before + k) }
    requires below { All (λ n. n < length groups.now.firsts.items) groups.now.numbers.items }
    requires before { AreKept agg.now groups.now.numbers.items (rows_in rows.now) run.before (length groups.now.firsts.items) (map K.state tallies.old.items) }
    ensures kept { OnOk result (AreKept agg.now groups.now.numbers.items (rows_in rows.now) (run.before + (run.to - run.from)) (length groups.now.firsts.items) (map K.state tallies.new.items)) }
{
    for i in run.from..run.to {
        let value = argument(agg, rows, ((run.block, i), None));
        let number = groups.numbers[run.before + (i - run.from) as usize];
        add_value(tallies, number, value)?;
    }
    Ok(())
}

/// Adds a value to the tally of a group.
#[inline(always)]
fn add_value<'a, K: Keeping<'a>>(
    tallies: &mut Vec<K>,
    number: usize,
    value: Scalar<'a>,
) -> Result<(), Memory>
    requires { number < length tallies.old.items }
    ensures next { OnOk result (map K.state tallies.new.items ≡ slice_set (map K.state tallies.old.items) number (next (slice_index_or (map K.state tallies.old.items) number (counted (pos 0))) (cell_of value.entry))) }
    ensures size { OnOk result (length tallies.new.items ≡ length tallies.old.items) }
{
    tallies[number] = tallies[number].after_value(value)?;
    Ok(())
}

/// Adds a number, as a LONG column keeps it, to the tally of a group.
#[inline(always)]
fn add_long<'a, K: Keeping<'a>>(
    tallies: &mut Vec<K>,
    number: usize,
    long: i64,
) -> Result<(), Memory>
    requires { number < length tallies.old.items }
    ensures next { OnOk result (map K.state tallies.new.items ≡ slice_set (map K.state tallies.old.items) number (next (slice_index_or (map K.state tallies.old.items) number (counted (pos 0))) (long_cell long))) }
    ensures size { OnOk result (length tallies.new.items ≡ length tallies.old.items) }
{
    tallies[number] = tallies[number].after_long(long)?;
    Ok(())
}

/// Adds each row to the count of its group.
fn add_counts<'a, K: Keeping<'a>>(tallies: &mut Vec<K>, groups: &Groups) -> Result<(), Memory>
    requires below { All (λ n. n < length groups.now.firsts.items) groups.now.numbers.items }
    requires size { length tallies.old.items ≡ length groups.now.firsts.items }
    ensures kept { OnOk result (CountsAll groups.now.numbers.items (length groups.now.firsts.items) (map K.state tallies.old.items) (map K.state tallies.new.items)) }
{
    for i in 0..groups.numbers.len() {
        add_value(tallies, groups.numbers[i], Scalar::Null)?;
    }
    Ok(())
}
