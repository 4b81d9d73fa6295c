//! A row for each group: its keys, then what the aggregates make of its rows.
ghost use Rattle.std.specs.Prelude.{◌≡◌, ◌<◌, ◌++◌, All, IfOk, length, map, slice_index_or};
ghost use Rattle.qd_base.specs.declared.cell.Cell.TheVariants as cell;
ghost use Rattle.qd_expr.specs.Passing.{row_in};
ghost use Rattle.qd_group.specs.Grouping.{answers_of, same_rows, AreGroups};
ghost use Rattle.qd_meaning.specs.Grouped.{aggregates, grouped, key_of};
ghost use Rattle.qd_rows.specs.Sets.{rows_in};
ghost use Rattle.qd_value.specs.Scalars.{cell_of};

use crate::by_groups::answers_of_groups;
use crate::classes::grouped_rows;
use crate::groups::Groups;
use crate::tallying::tally_of_all;
use qd_base::{Dictionary, Memory, Row, RowList};
use qd_expr::eval;
use qd_meaning::{Agg, GroupSpec};
use qd_rows::RowSet;
use qd_value::{Bound, Scalar};
use std::alloc::Global;

/// Gives one row for each group of rows that are equal on all of the keys, NULL being equal to NULL, in order of first
/// appearance: the group's keys, then what the aggregates make of its rows.
///
/// Without keys all rows are one group, also where there is none. `count` counts rows; a sum passes NULL over, and is NULL
/// for no number and outside of the range of LONG, of which the whole sum is judged; the least and the greatest value
/// pass NULL over; the first and the last are those of the first and the last row, NULL or not.
///
/// It costs the time of an expression a row for each key and each aggregate, and n log n comparisons for each key,
/// whatever the values are. In a set without right columns less is enough: a key that is a SYMBOL column costs a look
/// into a table a row, each further key a look into a table of pairs where that is small, and an aggregate of a LONG
/// column goes over the column's numbers; a count goes over no column. It takes at most some 100 bytes a row, and at
/// most 72 a group and aggregate; texts are copied and cells made for the answer alone.
pub fn group<D: Dictionary>(
    alloc: Global,
    rows: &RowSet<D>,
    spec: &GroupSpec,
) -> Result<RowList, Memory>
    ensures rows { IfOk result (λ made. made ≡ grouped spec.now (rows_in rows.now)) }
{
    if spec.keys.is_empty() {
        let mut made = RowList::new(alloc);
        made.push(row_of_all(alloc, spec.aggs.as_slice(), rows)?)?;
        return Ok(made);
    }
    let groups = grouped_rows(alloc, spec.keys.as_slice(), rows)?;
    let columns = columns_of(alloc, spec.aggs.as_slice(), rows, &groups)?;
    let mut made = RowList::new(alloc);
    for n in 0..groups.firsts.len() {
        let row = keys_at(alloc, spec.keys.as_slice(), rows, groups.firsts[n])?;
        made.push(with_answers(alloc, row, columns.as_slice(), n)?)?;
    }
    Ok(made)
}

/// What aggregates make of all rows.
fn row_of_all<D: Dictionary>(alloc: Global, aggs: &[Agg], rows: &RowSet<D>) -> Result<Row, Memory>
    ensures { IfOk result (λ row. row ≡ aggregates aggs.now (rows_in rows.now)) }
{
    let mut row = Row::new(alloc);
    for agg in aggs {
        let tally = tally_of_all(agg, rows)?;
        row.push(tally.answer().to_cell(alloc)?)?;
    }
    Ok(row)
}

/// What each aggregate makes of each group's rows: for each aggregate a column with one value a group. It costs the time of
/// an expression a row and aggregate, and takes 24 bytes a group and aggregate beside the tallies of one aggregate.
pub fn columns_of<'a, D: Dictionary>(
    alloc: Global,
    aggs: &'a [Agg],
    rows: &'a RowSet<D>,
    groups: &Groups,
) -> Result<Vec<Vec<Scalar<'a>>>, Memory>
    requires count { length groups.now.numbers.items ≡ length rows.now.places }
    requires below { All (λ n. n < length groups.now.firsts.items) groups.now.numbers.items }
    ensures answers { IfOk result (λ v. map (λ c. map cell_of c.items) v.items ≡ map (answers_of groups.now.numbers.items (length groups.now.firsts.items) (rows_in rows.now)) aggs.now) }
{
    let mut columns = Vec::with_capacity(alloc, aggs.len())?;
    for agg in aggs {
        columns.push(answers_of_groups(alloc, agg, rows, groups)?)?;
    }
    Ok(columns)
}

/// The keys of a row.
fn keys_at<D: Dictionary>(
    alloc: Global,
    keys: &[Bound],
    rows: &RowSet<D>,
    i: usize,
) -> Result<Row, Memory>
    requires { i < length rows.now.places }
    ensures { IfOk result (λ row. row ≡ key_of keys.now (row_in rows.now i)) }
{
    let mut row = Row::new(alloc);
    for key in keys {
        row.push(eval(alloc, key, rows, i)?)?;
    }
    Ok(row)
}

/// A row with the answers of a group behind its cells.
fn with_answers(
    alloc: Global,
    row: Row,
    columns: &[Vec<Scalar<'_>>],
    n: usize,
) -> Result<Row, Memory>
    requires { All (λ c. n < length c.items) columns.now }
    ensures { IfOk result (λ made. made ≡ row ++ map (λ c. slice_index_or (map cell_of c.items) n cell.Null) columns.now) }
{
    let mut row = row;
    for column in columns {
        row.push(column[n].to_cell(alloc)?)?;
    }
    Ok(row)
}
