//! The output rows of a query, counted as CSV, and made once.
ghost use Rattle.std.specs.Prelude.{◌≡◌, ◌<◌, [], All, IfOk, length, map, min, nat_lt, slice_index_or};
ghost use Rattle.qd_meaning.specs.Answer.{output_row};
ghost use Rattle.qd_meaning.specs.Grouped.{key_of};
ghost use Rattle.qd_order.specs.Cuts.{shown_rows};
ghost use Rattle.qd_print.specs.Printed.{csv, csv_cell, csv_line};
ghost use Rattle.qd_query.specs.Answers.{table_at};
ghost use Rattle.qd_rows.specs.Sets.{row_of_place, rows_in, IsPlaced};

use crate::lengths::value_len;
use qd_base::{Dictionary, MAX_RESULT_BYTES, Memory, Row, RowList};
use qd_expr::Joined;
use qd_meaning::AskPlan;
use qd_order::{Places, output_of_place, output_of_row, output_width};
use qd_print::header_len;
use qd_rows::RowSet;
use qd_value::Bound;
use std::alloc::Global;

/// Whether the output rows of some positions of a set have more bytes as CSV, with the line of the columns' names, than a result may
/// have. It costs the time of an expression a row for each column, up to the row by which they have more.
pub(crate) fn is_set_too_large<D: Dictionary>(
    plan: &AskPlan,
    exprs: &[Bound],
    rows: &RowSet<D>,
    places: &Places,
) -> bool
    requires { All (λ i. i < length rows.now.places) places.now }
    ensures { result ≡ nat_lt MAX_RESULT_BYTES (length (csv (table_at plan.now (map (key_of exprs.now) (rows_in rows.now)) places.now))) }
{
    let mut len = header_len(plan.out.as_slice());
    for k in 0..places.len() {
        let place = rows.places(places.get(k));
        len = len.saturating_add(line_of_place(plan, exprs, rows, place));
        if is_too_large(len) {
            return true;
        }
    }
    let large = is_too_large(len);
    large
}

/// Whether the output rows of some positions of rows have more bytes as CSV, with the line of the columns' names, than a result may have.
/// It costs a row's values, up to the row by which they have more.
pub(crate) fn are_rows_too_large(plan: &AskPlan, rows: &[Row], places: &Places) -> bool
    requires { All (λ i. i < length rows.now) places.now }
    ensures { result ≡ nat_lt MAX_RESULT_BYTES (length (csv (table_at plan.now rows.now places.now))) }
{
    let mut len = header_len(plan.out.as_slice());
    for k in 0..places.len() {
        len = len.saturating_add(line_of_row(plan, &rows[places.get(k)]));
        if is_too_large(len) {
            return true;
        }
    }
    let large = is_too_large(len);
    large
}

/// Whether so many bytes are more than a result may have.
fn is_too_large(bytes: usize) -> bool
    ensures { result ≡ nat_lt MAX_RESULT_BYTES bytes }
{
    MAX_RESULT_BYTES < bytes as u64
}

/// The output rows of some positions of a set.
pub(crate) fn rows_of_set<D: Dictionary>(
    alloc: Global,
    plan: &AskPlan,
    exprs: &[Bound],
    rows: &RowSet<D>,
    places: &Places,
) -> Result<RowList, Memory>
    requires { All (λ i. i < length rows.now.places) places.now }
    ensures rows { IfOk result (λ list. list ≡ map (λ i. slice_index_or (shown_rows plan.now (map (key_of exprs.now) (rows_in rows.now))) i []) places.now) }
{
    let mut list = RowList::with_capacity(alloc, places.len())?;
    for k in 0..places.len() {
        let place = rows.places(places.get(k));
        list.push(output_of(alloc, plan, exprs, rows, place)?)?;
    }
    Ok(list)
}

/// The output rows of some positions of rows.
pub(crate) fn rows_of_rows(
    alloc: Global,
    plan: &AskPlan,
    rows: &[Row],
    places: &Places,
) -> Result<RowList, Memory>
    requires { All (λ i. i < length rows.now) places.now }
    ensures rows { IfOk result (λ list. list ≡ map (λ i. slice_index_or (shown_rows plan.now rows.now) i []) places.now) }
{
    let mut list = RowList::with_capacity(alloc, places.len())?;
    for k in 0..places.len() {
        list.push(output_of_one(alloc, plan, &rows[places.get(k)])?)?;
    }
    Ok(list)
}

/// The length of the output row of a place as a line.
fn line_of_place<D: Dictionary>(
    plan: &AskPlan,
    exprs: &[Bound],
    rows: &RowSet<D>,
    place: Joined,
) -> usize
    requires { IsPlaced rows.now place }
    ensures { result ≡ min (length (csv_line (map csv_cell (output_row plan.now.picks plan.now.out (key_of exprs.now (row_of_place rows.now place)))))) usize.MAX }
{
    let mut len: usize = 0;
    for at in 0..output_width(plan) {
        let value = output_of_place(plan, exprs, rows, place, at);
        len = len.saturating_add(value_len(value)).saturating_add(1);
    }
    len.max(1)
}

/// The length of the output row of a row as a line.
fn line_of_row(plan: &AskPlan, row: &Row) -> usize
    ensures { result ≡ min (length (csv_line (map csv_cell (output_row plan.now.picks plan.now.out row.now)))) usize.MAX }
{
    let mut len: usize = 0;
    for at in 0..output_width(plan) {
        let value = output_of_row(plan, row, at);
        len = len.saturating_add(value_len(value)).saturating_add(1);
    }
    len.max(1)
}

/// The output row of a place.
fn output_of<D: Dictionary>(
    alloc: Global,
    plan: &AskPlan,
    exprs: &[Bound],
    rows: &RowSet<D>,
    place: Joined,
) -> Result<Row, Memory>
    requires { IsPlaced rows.now place }
    ensures { IfOk result (λ row. row ≡ output_row plan.now.picks plan.now.out (key_of exprs.now (row_of_place rows.now place))) }
{
    let width = output_width(plan);
    let mut made = Row::with_capacity(alloc, width)?;
    for at in 0..width {
        let value = output_of_place(plan, exprs, rows, place, at);
        made.push(value.to_cell(alloc)?)?;
    }
    Ok(made)
}

/// The output row of a row.
fn output_of_one(alloc: Global, plan: &AskPlan, row: &Row) -> Result<Row, Memory>
    ensures { IfOk result (λ made. made ≡ output_row plan.now.picks plan.now.out row.now) }
{
    let width = output_width(plan);
    let mut made = Row::with_capacity(alloc, width)?;
    for at in 0..width {
        let value = output_of_row(plan, row, at);
        made.push(value.to_cell(alloc)?)?;
    }
    Ok(made)
}
