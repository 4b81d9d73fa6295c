//! Results in JSON.
ghost use Rattle.std.specs.Prelude.{◌≡◌, ◌==◌, [], ◌∷◌, ◌++◌, map, if◌then◌else◌, OnOk};
ghost use Rattle.qd_base.specs.declared.cell.Cell.TheVariants as cell;
ghost use Rattle.qd_http.specs.Json as spec;
ghost use Rattle.qd_http.specs.Json.{json_cell, json_column, json_row, json_rows, listed};

use crate::escape::push_text;
use itoa::{Buffer, Integer};
use qd_base::{Cell, Col, ColType, MAX_TIME, Memory, Row, Table};
use qd_time::print_time;

/// Appends a number in decimal.
pub(crate) fn push_number<I: Integer>(out: &mut Vec<u8>, n: I) -> Result<(), Memory>
    ensures { OnOk result (out.new.items ≡ out.old.items ++ I.text n) }
{
    out.extend_from_slice(Buffer::new().format(n).as_bytes())
}

/// Appends the rows of a query over the first `n` transactions, in time linear in what it appends.
pub(crate) fn push_rows(
    out: &mut Vec<u8>,
    statement: &[u8],
    n: u64,
    table: &Table,
) -> Result<(), Memory>
    ensures { OnOk result (out.new.items ≡ out.old.items ++ json_rows statement.now n table.now) }
{
    out.extend_from_slice(b"{\"query\":")?;
    push_text(out, statement)?;
    out.extend_from_slice(b",\"columns\":[")?;
    push_columns(out, table.cols.as_slice())?;
    out.extend_from_slice(b"],\"dataset\":[")?;
    push_dataset(out, table.rows.as_slice())?;
    out.extend_from_slice(b"],\"count\":")?;
    push_number(out, table.rows.len() as u64)?;
    out.extend_from_slice(b",\"txn\":")?;
    push_number(out, n)?;
    out.push(b'}')?;
    Ok(())
}

// Appends the columns with commas between them.
fn push_columns(out: &mut Vec<u8>, cols: &[Col]) -> Result<(), Memory>
    ensures { OnOk result (out.new.items ≡ out.old.items ++ listed (map json_column cols.now)) }
{
    for (i, col) in cols.iter().enumerate() {
        push_comma(out, i)?;
        push_column(out, col)?;
    }
    Ok(())
}

// Appends a column.
fn push_column(out: &mut Vec<u8>, col: &Col) -> Result<(), Memory>
    ensures { OnOk result (out.new.items ≡ out.old.items ++ json_column col.now) }
{
    out.extend_from_slice(b"{\"name\":")?;
    push_text(out, col.name.bytes())?;
    out.extend_from_slice(b",\"type\":\"")?;
    out.extend_from_slice(kind_name(col.kind))?;
    out.extend_from_slice(b"\"}")
}

// The name of a type.
fn kind_name(kind: ColType) -> &'static [u8]
    ensures { result.now ≡ spec.kind_name kind }
{
    match kind {
        ColType::Long => b"LONG",
        ColType::Bool => b"BOOLEAN",
        ColType::Symbol => b"SYMBOL",
        ColType::Varchar => b"VARCHAR",
        ColType::Time => b"TIMESTAMP",
    }
}

// Appends the rows with commas between them.
fn push_dataset(out: &mut Vec<u8>, rows: &[Row]) -> Result<(), Memory>
    ensures { OnOk result (out.new.items ≡ out.old.items ++ listed (map json_row rows.now)) }
{
    for (i, row) in rows.iter().enumerate() {
        push_comma(out, i)?;
        push_row(out, row)?;
    }
    Ok(())
}

// Appends a row: an array of its cells.
fn push_row(out: &mut Vec<u8>, row: &Row) -> Result<(), Memory>
    ensures { OnOk result (out.new.items ≡ out.old.items ++ json_row row.now) }
{
    out.push(b'[')?;
    push_cells(out, row.as_slice())?;
    out.push(b']')?;
    Ok(())
}

// Appends the cells with commas between them.
fn push_cells(out: &mut Vec<u8>, cells: &[Cell]) -> Result<(), Memory>
    ensures { OnOk result (out.new.items ≡ out.old.items ++ listed (map json_cell cells.now)) }
{
    for (i, cell) in cells.iter().enumerate() {
        push_comma(out, i)?;
        push_cell(out, cell)?;
    }
    Ok(())
}

// Appends the comma before the item at position `i`, which the first lacks.
fn push_comma(out: &mut Vec<u8>, i: usize) -> Result<(), Memory>
    ensures { OnOk result (out.new.items ≡ out.old.items ++ (if i == 0 then [] else 44 ∷ [])) }
{
    if i > 0 {
        out.push(b',')?;
    }
    Ok(())
}

// Appends one cell.
fn push_cell(out: &mut Vec<u8>, cell: &Cell) -> Result<(), Memory>
    ensures { OnOk result (out.new.items ≡ out.old.items ++ json_cell cell.now) }
{
    match cell {
        Cell::Null => out.extend_from_slice(b"null"),
        Cell::Long(value) => push_number(out, *value),
        Cell::Bool(true) => out.extend_from_slice(b"true"),
        Cell::Bool(false) => out.extend_from_slice(b"false"),
        Cell::Text(text) => push_text(out, text.bytes()),
        Cell::Time(ts) => push_time(out, *ts),
    }
}

// Appends a moment as a text, or null for a number that is none.
fn push_time(out: &mut Vec<u8>, ts: u64) -> Result<(), Memory>
    ensures { OnOk result (out.new.items ≡ out.old.items ++ json_cell (cell.Time ts)) }
{
    if ts <= MAX_TIME {
        push_text(out, &print_time(ts))
    } else {
        out.extend_from_slice(b"null")
    }
}
