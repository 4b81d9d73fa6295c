//! The rows of a sample.
ghost use Rattle.std.specs.Prelude.{◌≡◌, ◌<◌, ◌++◌, [], All, IfOk, OnOk, fold, length, map, replicate, slice_index};
ghost use Rattle.std.specs.List.{flat_map, range_with_len};
ghost use Rattle.qd_base.specs.declared.cell.Cell.TheVariants as cell;
ghost use Rattle.qd_expr.specs.Passing.{row_in};
ghost use Rattle.qd_meaning.specs.Grouped.{key_of};
ghost use Rattle.qd_meaning.specs.Sampled as meaning;
ghost use Rattle.qd_sample.specs.Cells.{bucket_rows, group_row, key_rows, with_bucket};
ghost use Rattle.qd_value.specs.Scalars.{cell_of};

use crate::cells::answers_of;
use crate::filling::{all_null, cells_in_bucket};
use qd_base::{Cell, Dictionary, Memory, Row, RowList};
use qd_expr::eval;
use qd_meaning::Fill;
use qd_rows::RowSet;
use qd_value::{Bound, Scalar};
use std::alloc::Global;

/// The keys of a sample's rows: what they are, the rows that have them, and the first row of each key.
#[derive(Drop)]
pub(crate) struct Heads<'a, D: Dictionary> {
    /// The rows.
    pub(crate) rows: &'a RowSet<D>,
    /// The keys' expressions.
    pub(crate) keys: &'a [Bound],
    /// For each key the position of the first row that has it.
    pub(crate) firsts: &'a [usize],
}

/// The rows of the groups of each bucket, bucket after bucket.
pub(crate) fn rows_of_groups<D: Dictionary>(
    alloc: Global,
    heads: &Heads<'_, D>,
    starts: &[u64],
    lists: &[Vec<usize>],
    keys: &[usize],
    columns: &[Vec<Scalar<'_>>],
) -> Result<RowList, Memory>
    requires firsts { All (λ f. f < length heads.now.rows.now.places) heads.now.firsts.now }
    requires count { length lists.now ≡ length starts.now }
    requires groups { All (λ l. All (λ g. g < length keys.now) l.items) lists.now }
    requires columns { All (λ c. length c.items ≡ length keys.now) columns.now }
    requires keys { All (λ k. k < length heads.now.firsts.now) keys.now }
    ensures rows { IfOk result (λ made. made ≡ flat_map (bucket_rows heads.now.rows.now heads.now.keys.now heads.now.firsts.now (map (λ c. map cell_of c.items) columns.now) keys.now starts.now (map (λ l. l.items) lists.now)) (range_with_len 0 (length starts.now))) }
{
    let mut made = RowList::new(alloc);
    for b in 0..starts.len() {
        let groups = lists[b].as_slice();
        push_groups(alloc, &mut made, heads, starts[b], groups, keys, columns)?;
    }
    Ok(made)
}

/// The rows of the keys in each bucket, bucket after bucket.
pub(crate) fn rows_of_keys<D: Dictionary>(
    alloc: Global,
    heads: &Heads<'_, D>,
    starts: &[u64],
    lists: &[Vec<usize>],
    keys: &[usize],
    columns: &[Vec<Scalar<'_>>],
    fills: &[Fill],
) -> Result<RowList, Memory>
    requires firsts { All (λ f. f < length heads.now.rows.now.places) heads.now.firsts.now }
    requires count { length lists.now ≡ length starts.now }
    requires groups { All (λ l. All (λ g. g < length keys.now) l.items) lists.now }
    requires columns { All (λ c. length c.items ≡ length keys.now) columns.now }
    requires fills { length fills.now ≡ length columns.now }
    requires keys { All (λ k. k < length heads.now.firsts.now) keys.now }
    ensures rows { IfOk result (λ made. made ≡ (fold (with_bucket heads.now.rows.now heads.now.keys.now heads.now.firsts.now (map (λ c. map cell_of c.items) columns.now) keys.now fills.now starts.now (map (λ l. l.items) lists.now)) ([], replicate (length heads.now.firsts.now) (replicate (length fills.now) cell.Null)) (range_with_len 0 (length starts.now))).0) }
{
    let mut made = RowList::new(alloc);
    let mut cells = all_null(alloc, heads.firsts.len(), fills.len())?;
    for b in 0..starts.len() {
        let groups = lists[b].as_slice();
        cells = cells_in_bucket(alloc, fills, cells.as_slice(), columns, keys, groups)?;
        push_keys(alloc, &mut made, heads, starts[b], cells.as_slice())?;
    }
    Ok(made)
}

/// Adds a row for each group of a bucket.
fn push_groups<D: Dictionary>(
    alloc: Global,
    made: &mut RowList,
    heads: &Heads<'_, D>,
    start: u64,
    groups: &[usize],
    keys: &[usize],
    columns: &[Vec<Scalar<'_>>],
) -> Result<(), Memory>
    requires firsts { All (λ f. f < length heads.now.rows.now.places) heads.now.firsts.now }
    requires groups { All (λ g. g < length keys.now) groups.now }
    requires columns { All (λ c. length c.items ≡ length keys.now) columns.now }
    requires keys { All (λ k. k < length heads.now.firsts.now) keys.now }
    ensures rows { OnOk result (made.new ≡ made.old ++ map (group_row heads.now.rows.now heads.now.keys.now heads.now.firsts.now (map (λ c. map cell_of c.items) columns.now) keys.now start) groups.now) }
{
    for group in groups {
        let cells = answers_of(alloc, columns, *group)?;
        made.push(head_row(alloc, heads, start, keys[*group], cells.as_slice())?)?;
    }
    Ok(())
}

/// Adds a row for each key of a bucket.
fn push_keys<D: Dictionary>(
    alloc: Global,
    made: &mut RowList,
    heads: &Heads<'_, D>,
    start: u64,
    cells: &[Vec<Scalar<'_>>],
) -> Result<(), Memory>
    requires firsts { All (λ f. f < length heads.now.rows.now.places) heads.now.firsts.now }
    requires count { length cells.now ≡ length heads.now.firsts.now }
    ensures rows { OnOk result (made.new ≡ made.old ++ key_rows heads.now.rows.now heads.now.keys.now heads.now.firsts.now (map (λ c. map cell_of c.items) cells.now) start) }
{
    for k in 0..cells.len() {
        made.push(head_row(alloc, heads, start, k, cells[k].as_slice())?)?;
    }
    Ok(())
}

/// The row of a bucket and key: the bucket's start, the key, and cells behind it.
fn head_row<D: Dictionary>(
    alloc: Global,
    heads: &Heads<'_, D>,
    start: u64,
    key: usize,
    cells: &[Scalar<'_>],
) -> Result<Row, Memory>
    requires firsts { All (λ f. f < length heads.now.rows.now.places) heads.now.firsts.now }
    requires key { key < length heads.now.firsts.now }
    ensures row { IfOk result (λ row. row ≡ meaning.sample_row start (key_of heads.now.keys.now (row_in heads.now.rows.now (slice_index heads.now.firsts.now key))) (map cell_of cells.now)) }
{
    let mut row = Row::new(alloc);
    row.push(Cell::Time(start))?;
    let row = with_keys(alloc, row, heads.keys, heads.rows, heads.firsts[key])?;
    with_cells(alloc, row, cells)
}

/// A row with the keys of a set's row behind its cells.
fn with_keys<D: Dictionary>(
    alloc: Global,
    row: Row,
    keys: &[Bound],
    rows: &RowSet<D>,
    i: usize,
) -> Result<Row, Memory>
    requires { i < length rows.now.places }
    ensures { IfOk result (λ made. made ≡ row ++ key_of keys.now (row_in rows.now i)) }
{
    let mut row = row;
    for key in keys {
        row.push(eval(alloc, key, rows, i)?)?;
    }
    Ok(row)
}

/// A row with values behind its cells.
fn with_cells(alloc: Global, row: Row, cells: &[Scalar<'_>]) -> Result<Row, Memory>
    ensures { IfOk result (λ made. made ≡ row ++ map cell_of cells.now) }
{
    let mut row = row;
    for cell in cells {
        row.push(cell.to_cell(alloc)?)?;
    }
    Ok(row)
}
