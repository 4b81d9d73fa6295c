//! The values of an order's keys, taken once from the rows.
ghost use Rattle.std.specs.Prelude.{◌≡◌, IfOk, map};
ghost use Rattle.qd_base.specs.Rows.{cell_at};
ghost use Rattle.qd_meaning.specs.Grouped.{key_of};
ghost use Rattle.qd_order.specs.Cuts.{shown_rows};
ghost use Rattle.qd_order.specs.Keys.{lent};
ghost use Rattle.qd_order.specs.Orders.{keyed};
ghost use Rattle.qd_order.specs.Seen.{seen};
ghost use Rattle.qd_rows.specs.Sets.{rows_in};

use crate::keys::Key;
use crate::outputs::{output_of_place, output_of_row};
use qd_base::{Dictionary, Memory, Row};
use qd_meaning::AskPlan;
use qd_rows::RowSet;
use qd_value::Bound;
use std::alloc::Global;

/// The values that rows have for a key, in the rows' order. It takes 24 bytes a row.
#[derive(Drop)]
pub(crate) struct KeyColumn<'a> {
    pub(crate) values: Vec<Key<'a>>,
    /// Whether the greatest value comes first.
    pub(crate) descending: bool,
}

/// The columns of a query's keys, over a row of values for each row of a set.
pub(crate) fn columns_of_set<'a, D: Dictionary>(
    alloc: Global,
    plan: &AskPlan,
    exprs: &'a [Bound],
    rows: &'a RowSet<D>,
) -> Result<Vec<KeyColumn<'a>>, Memory>
    ensures columns { IfOk result (λ v. map seen v.items ≡ map (keyed (shown_rows plan.now (map (key_of exprs.now) (rows_in rows.now)))) plan.now.order) }
{
    let mut columns = Vec::with_capacity(alloc, plan.order.len())?;
    for key in plan.order.as_slice() {
        let values = keys_of_set(alloc, plan, exprs, rows, key.0 as usize)?;
        let descending = key.1;
        columns.push(KeyColumn { values, descending })?;
    }
    Ok(columns)
}

/// The columns of a query's keys, over rows.
pub(crate) fn columns_of_rows<'a>(
    alloc: Global,
    plan: &AskPlan,
    rows: &'a [Row],
) -> Result<Vec<KeyColumn<'a>>, Memory>
    ensures columns { IfOk result (λ v. map seen v.items ≡ map (keyed (shown_rows plan.now rows.now)) plan.now.order) }
{
    let mut columns = Vec::with_capacity(alloc, plan.order.len())?;
    for key in plan.order.as_slice() {
        let values = keys_of_rows(alloc, plan, rows, key.0 as usize)?;
        let descending = key.1;
        columns.push(KeyColumn { values, descending })?;
    }
    Ok(columns)
}

/// What the rows of a set have in an output column.
fn keys_of_set<'a, D: Dictionary>(
    alloc: Global,
    plan: &AskPlan,
    exprs: &'a [Bound],
    rows: &'a RowSet<D>,
    at: usize,
) -> Result<Vec<Key<'a>>, Memory>
    ensures keys { IfOk result (λ v. map lent v.items ≡ map (λ r. cell_at r at) (shown_rows plan.now (map (key_of exprs.now) (rows_in rows.now)))) }
{
    let mut keys = Vec::with_capacity(alloc, rows.len())?;
    for i in 0..rows.len() {
        let value = output_of_place(plan, exprs, rows, rows.places(i), at);
        keys.push(Key::of(value))?;
    }
    Ok(keys)
}

/// What rows have in an output column.
fn keys_of_rows<'a>(
    alloc: Global,
    plan: &AskPlan,
    rows: &'a [Row],
    at: usize,
) -> Result<Vec<Key<'a>>, Memory>
    ensures keys { IfOk result (λ v. map lent v.items ≡ map (λ r. cell_at r at) (shown_rows plan.now rows.now)) }
{
    let mut keys = Vec::with_capacity(alloc, rows.len())?;
    for row in rows {
        keys.push(Key::of(output_of_row(plan, row, at)))?;
    }
    Ok(keys)
}
