//! The rows that an INSERT puts into its table, and their refusals.
ghost use Rattle.std.specs.Prelude.{◌≡◌, ◌==◌, ℕ, Some, List, IfOk, length, map, All, slice_get, slice_set, unwrap_or};
ghost use Rattle.std.specs.List.{list_any};
ghost use Rattle.std.specs.Option.{option_copied};
ghost use Rattle.qd_base.specs.Database as database;
ghost use Rattle.qd_sql_ast.specs.declared.tree.Lit.{Lit};
ghost use Rattle.qd_meaning.specs.Refusals.{least};
ghost use Rattle.qd_meaning.specs.Inserting.{Target};
ghost use Rattle.qd_writes.specs.Filling.{filled_rows, row_faults};
ghost use Rattle.qd_writes.specs.Literals.{lent_cell, IsFit};
ghost use Rattle.qd_writes.specs.Placing.{cells_of, placed, view_cell, ArePlaces};

use crate::insert::targets_of;
use crate::judge::both;
use crate::literal::{Lent, missing, owned};
use crate::tuple::{Target, judged_tuple};
use qd_base::{Col, Memory, Row, RowList, Schema};
use qd_meaning::Refusal;
use qd_sql_ast::Insert;
use std::alloc::Global;

/// What the rows of an INSERT become.
#[derive(Drop)]
pub(crate) struct Filled {
    /// The rows; what stands in them is of use where none is refused.
    pub(crate) rows: RowList,
    /// The refusal that is answered for them.
    pub(crate) found: Option<Refusal>,
}

/// Reads the rows of an INSERT into its table, where that is there. Each literal is read once. It costs time and memory linear
/// in the statement and in the rows.
pub(crate) fn fill(alloc: Global, table: Option<&Schema>, insert: &Insert) -> Result<Filled, Memory>
    ensures rows { IfOk result (λ made. made.rows ≡ filled_rows (option_copied table.entry) insert.now) }
    ensures fit { IfOk result (λ made. All (All IsFit) made.rows) }
    ensures least { IfOk result (λ made. made.found ≡ least (row_faults (option_copied table.entry) insert.now)) }
{
    match table {
        Some(schema) => rows_of(alloc, schema, insert),
        None => Ok(Filled {
            rows: RowList::new(alloc),
            found: None,
        }),
    }
}

/// Reads the rows of an INSERT into a table.
fn rows_of(alloc: Global, schema: &Schema, insert: &Insert) -> Result<Filled, Memory>
    ensures rows { IfOk result (λ made. made.rows ≡ filled_rows (Some schema.now) insert.now) }
    ensures fit { IfOk result (λ made. All (All IsFit) made.rows) }
    ensures least { IfOk result (λ made. made.found ≡ least (row_faults (Some schema.now) insert.now)) }
{
    let cols = schema.cols.as_slice();
    let targets = targets_of(alloc, schema, &insert.columns)?;
    let targets = targets.as_slice();
    let time_col = schema.time_col as usize;
    let timed = is_timed(time_col, targets);
    let places = places_of(alloc, cols.len(), targets)?;
    let tuples = insert.tuples.as_slice();
    let mut rows = RowList::with_capacity(alloc, tuples.len())?;
    let mut found = None;
    for tuple in tuples {
        let judged = judged_tuple(alloc, time_col, timed, targets, tuple)?;
        let row = row_of(alloc, cols, places.as_slice(), judged.views.as_slice())?;
        rows.push(row)?;
        found = both(found, judged.found);
    }
    Ok(Filled { rows, found })
}

/// Says whether the designated column is among these.
fn is_timed(time_col: usize, targets: &[Target]) -> bool
    ensures timed { result ≡ list_any (λ (x : Target). x.0 == time_col) targets.now }
{
    targets.iter().any(|(col, _)| *col == time_col)
}

/// Gives for each of so many columns which literal of a row is its value, where one is.
fn places_of(alloc: Global, count: usize, targets: &[Target]) -> Result<Vec<Option<usize>>, Memory>
    ensures places { IfOk result (λ v. ArePlaces targets.now count v.items) }
{
    let mut places = Vec::from_elem(alloc, None, count)?;
    let mut place = targets.len();
    while 0 < place {
        place -= 1;
        mark(places.as_mut_slice(), targets[place].0, place);
    }
    Ok(places)
}

/// Marks a column, where it is there.
fn mark(places: &mut [Option<usize>], col: usize, place: usize)
    ensures marked { places.new ≡ slice_set places.old col (Some place) }
{
    if col < places.len() {
        places[col] = Some(place);
    }
}

/// Makes the row of some literals.
fn row_of(
    alloc: Global,
    cols: &[Col],
    places: &[Option<usize>],
    views: &[Lent<'_>],
) -> Result<Row, Memory>
    requires size { length places.now ≡ length cols.now }
    requires fit { All IsFit (map lent_cell views.now) }
    ensures row { (targets : List Target) (lits : List Lit) → ArePlaces targets (length cols.now) places.now → map lent_cell views.now ≡ cells_of targets lits → IfOk result (λ row. row ≡ placed cols.now targets lits) }
    ensures fit { IfOk result (All IsFit) }
{
    let mut row = Row::with_capacity(alloc, cols.len())?;
    for at in 0..cols.len() {
        let view = view_of(&cols[at], places[at], views);
        row.push(owned(alloc, view)?)?;
    }
    Ok(row)
}

/// Lends the cell of a column whose value stands at a place, where it has one.
fn view_of<'a>(col: &Col, place: Option<usize>, views: &[Lent<'a>]) -> Lent<'a>
    requires { All IsFit (map lent_cell views.now) }
    ensures cell { lent_cell result ≡ view_cell col.now place (map lent_cell views.now) }
    ensures fit { IsFit (lent_cell result) }
{
    match place {
        Some(place) => view_at(col, views, place),
        None => missing(col.kind),
    }
}

/// Lends the cell at a place, where one is there.
fn view_at<'a>(col: &Col, views: &[Lent<'a>], place: usize) -> Lent<'a>
    requires { All IsFit (map lent_cell views.now) }
    ensures cell { lent_cell result ≡ unwrap_or (slice_get (map lent_cell views.now) place) (database.missing col.now.kind) }
    ensures fit { IsFit (lent_cell result) }
{
    if place < views.len() {
        views[place]
    } else {
        missing(col.kind)
    }
}
