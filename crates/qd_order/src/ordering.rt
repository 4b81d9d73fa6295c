//! Which rows are the answer of a query, and in what order.
ghost use Rattle.std.specs.Prelude.{◌≡◌, ◌<◌, [], All, IfOk, drop, length, map, slice_index_or, take};
ghost use Rattle.std.specs.List.{range_with_len};
ghost use Rattle.qd_meaning.specs.Answer.{finished};
ghost use Rattle.qd_meaning.specs.Grouped.{key_of};
ghost use Rattle.qd_order.specs.Cuts.{cut_places, shown_rows};
ghost use Rattle.qd_order.specs.Orders.{arranged, before};
ghost use Rattle.qd_order.specs.Seen.{seen};
ghost use Rattle.qd_rows.specs.Sets.{rows_in};

use crate::columns::{KeyColumn, columns_of_rows, columns_of_set};
use crate::compare::orders_alike;
use crate::places::{Places, least};
use crate::selecting::first_in_order;
use crate::sorting::{all_in_order, one_by_one};
use qd_base::{Dictionary, Memory, Row};
use qd_meaning::{AskPlan, Cut};
use qd_rows::RowSet;
use qd_value::Bound;
use std::alloc::Global;

/// Gives the positions of the rows of a set that are the answer of a query, in its order. The query makes a row of values
/// for each row of the set, and its picks and output columns are read in that row.
///
/// NULL is the least value, and false is less than true; rows that are equal on all keys keep their order.
///
/// Without ORDER BY it takes constant time and memory. Else keys are taken once from each row, 24 bytes each, and it costs
/// n log n comparisons; with a LIMIT of the first n rows no more than 2n positions are kept, and one comparison a row is
/// made beside those among the first. Where a key has values of several classes, as none of a column has, it costs as many
/// comparisons as there are pairs of rows.
pub fn order_of_set<D: Dictionary>(
    alloc: Global,
    plan: &AskPlan,
    exprs: &[Bound],
    rows: &RowSet<D>,
) -> Result<Places, Memory>
    ensures rows { IfOk result (λ places. map (λ i. slice_index_or (shown_rows plan.now (map (key_of exprs.now) (rows_in rows.now))) i []) places ≡ (finished plan.now (map (key_of exprs.now) (rows_in rows.now))).rows) }
    ensures within { IfOk result (λ places. All (λ i. i < length rows.now.places) places) }
{
    if plan.order.is_empty() {
        return Ok(Places::of_first(rows.len(), plan.limit));
    }
    let columns = columns_of_set(alloc, plan, exprs, rows)?;
    let places = given(alloc, columns.as_slice(), rows.len(), plan.limit)?;
    Ok(Places::listed(places))
}

/// Gives the positions of those of some rows that are the answer of a query, in its order. The query's picks and output
/// columns are read in these rows, as of groups and samples. It costs what `order_of_set` costs.
pub fn order_of_rows(alloc: Global, plan: &AskPlan, rows: &[Row]) -> Result<Places, Memory>
    ensures rows { IfOk result (λ places. map (λ i. slice_index_or (shown_rows plan.now rows.now) i []) places ≡ (finished plan.now rows.now).rows) }
    ensures within { IfOk result (λ places. All (λ i. i < length rows.now) places) }
{
    if plan.order.is_empty() {
        return Ok(Places::of_first(rows.len(), plan.limit));
    }
    let columns = columns_of_rows(alloc, plan, rows)?;
    let places = given(alloc, columns.as_slice(), rows.len(), plan.limit)?;
    Ok(Places::listed(places))
}

/// The positions that a LIMIT leaves of so many rows in order.
fn given(
    alloc: Global,
    columns: &[KeyColumn<'_>],
    count: usize,
    limit: Option<Cut>,
) -> Result<Vec<usize>, Memory>
    ensures places { IfOk result (λ v. v.items ≡ cut_places limit (arranged (before (map seen columns.now)) (range_with_len 0 count))) }
{
    match limit {
        None => in_order(alloc, columns, count),
        Some(Cut::First(n)) => first(alloc, columns, count, n as usize),
        Some(Cut::Last(n)) => {
            let places = in_order(alloc, columns, count)?;
            let passed = places.len().saturating_sub(n as usize);
            without_first(places, passed)
        }
        Some(Cut::Between(a, b)) => {
            let places = first(alloc, columns, count, b as usize)?;
            without_first(places, a as usize)
        }
    }
}

/// The positions of so many rows in order.
fn in_order(alloc: Global, columns: &[KeyColumn<'_>], count: usize) -> Result<Vec<usize>, Memory>
    ensures { IfOk result (λ v. v.items ≡ arranged (before (map seen columns.now)) (range_with_len 0 count)) }
{
    if orders_alike(columns) {
        all_in_order(alloc, columns, count)
    } else {
        one_by_one(alloc, columns, count)
    }
}

/// The positions of the first of so many rows in order, at most a number of them.
fn first(
    alloc: Global,
    columns: &[KeyColumn<'_>],
    count: usize,
    most: usize,
) -> Result<Vec<usize>, Memory>
    ensures { IfOk result (λ v. v.items ≡ take most (arranged (before (map seen columns.now)) (range_with_len 0 count))) }
{
    if orders_alike(columns) {
        return first_in_order(alloc, columns, count, most);
    }
    let mut places = one_by_one(alloc, columns, count)?;
    places.truncate(most);
    Ok(places)
}

/// Positions without the first ones, so many.
fn without_first(places: Vec<usize>, passed: usize) -> Result<Vec<usize>, Memory>
    ensures { IfOk result (λ v. v.items ≡ drop passed places.items) }
{
    let mut places = places;
    let at = least(passed, places.len());
    places.split_off(at)
}
