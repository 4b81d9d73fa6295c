//! Cells and rows, as a table may hold them.
ghost use Rattle.std.specs.Prelude.{◌≡◌, ◌<◌, ◌≤◌, ◌↔◌, length, All, IsTrue};
ghost use Rattle.qd_base.specs.declared.cell.Cell.TheVariants as cell;
ghost use Rattle.qd_base.specs.declared.schema.ColType.TheVariants as kind;
ghost use Rattle.qd_base.specs.Rows.{cell_at};
ghost use Rattle.qd_base.specs.Lawful.{HasKinds, IsRowOf, IsText, Takes};

use qd_base::{Cell, Col, ColType, MAX_TEXT_BYTES, MAX_TIME, NULL_LONG, Row, Schema};

/// Whether a LONG column takes a cell.
fn is_long(cell: &Cell) -> bool
    ensures taken { IsTrue result ↔ Takes kind.Long cell.now }
{
    match cell {
        Cell::Null => true,
        Cell::Long(value) => NULL_LONG < *value,
        _ => false,
    }
}

/// Whether a SYMBOL or VARCHAR column takes a cell.
fn is_text(cell: &Cell) -> bool
    ensures symbol { IsTrue result ↔ Takes kind.Symbol cell.now }
    ensures varchar { IsTrue result ↔ Takes kind.Varchar cell.now }
{
    match cell {
        Cell::Null => true,
        Cell::Text(text) => is_short(text.bytes()),
        _ => false,
    }
}

/// Whether a text is short enough to be stored.
fn is_short(text: &[u8]) -> bool
    ensures short { IsTrue result ↔ IsText text.now }
{
    text.len() <= MAX_TEXT_BYTES
}

/// Whether a TIMESTAMP column takes a cell.
fn is_time(cell: &Cell) -> bool
    ensures taken { IsTrue result ↔ Takes kind.Time cell.now }
{
    match cell {
        Cell::Null => true,
        Cell::Time(time) => *time <= MAX_TIME,
        _ => false,
    }
}

/// Whether a BOOLEAN column takes a cell.
fn is_bool(cell: &Cell) -> bool
    ensures taken { IsTrue result ↔ Takes kind.Bool cell.now }
{
    matches!(cell, Cell::Bool(_))
}

/// Whether a column of a type takes a cell.
fn takes(kind: ColType, cell: &Cell) -> bool
    ensures taken { IsTrue result ↔ Takes kind cell.now }
{
    match kind {
        ColType::Long => is_long(cell),
        ColType::Bool => is_bool(cell),
        ColType::Symbol => is_text(cell),
        ColType::Varchar => is_text(cell),
        ColType::Time => is_time(cell),
    }
}

/// Whether there is one cell for each column, of its kind.
fn cells_fit(cols: &[Col], row: &[Cell]) -> bool
    ensures fit { IsTrue result ↔ HasKinds cols.now row.now }
{
    if cols.len() != row.len() {
        return false;
    }
    for (i, cell) in row.iter().enumerate() {
        if !takes(cols[i].kind, cell) {
            return false;
        }
    }
    true
}

/// Whether a row has a cell in a column, and no NULL there.
fn is_timed(at: u32, row: &[Cell]) -> bool
    ensures timed { IsTrue result ↔ ((cell_at row.now at ≡ cell.Null) → ⊥) }
{
    match row.get(at as usize) {
        Some(Cell::Null) => false,
        Some(_) => true,
        None => false,
    }
}

/// Whether a row may stand in a table.
fn is_row_of(schema: &Schema, row: &Row) -> bool
    ensures row { IsTrue result ↔ IsRowOf schema.now row.now }
{
    cells_fit(schema.cols.as_slice(), row.as_slice()) && is_timed(schema.time_col, row.as_slice())
}

/// Whether each of these rows may stand in a table.
pub(crate) fn rows_fit(schema: &Schema, rows: &[Row]) -> bool
    ensures rows { IsTrue result ↔ All (IsRowOf schema.now) rows.now }
{
    for row in rows {
        if !is_row_of(schema, row) {
            return false;
        }
    }
    true
}
