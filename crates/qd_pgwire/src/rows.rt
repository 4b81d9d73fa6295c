//! The messages of a query's rows.
ghost use Rattle.std.specs.Prelude.{◌≡◌, ◌++◌, codes, decimal, flat_map, OnOk};
ghost use Rattle.qd_base.specs.declared.cell.Cell.TheVariants as cell;
ghost use Rattle.qd_pgwire.specs.Replies as spec;
ghost use Rattle.qd_pgwire.specs.Replies.{cell_value, column_field, data_row, parameter, query_rows, row_description};

use crate::message::{begin, end, push_count, push_string, push_u16, push_u32};
use crate::reply::{push_complete, push_number};
use crate::said::push_ready;
use itoa::Buffer;
use qd_base::{Cell, Col, ColType, MAX_TIME, Memory, Row, Table};
use qd_time::print_time;
use std::alloc::AllocError;

/// -1 in four bytes.
const MINUS_ONE: u32 = u32::MAX;

/// Appends the rows of a query over the first `n` transactions, in time linear in what it appends.
pub(crate) fn push_rows(out: &mut Vec<u8>, n: u64, table: &Table) -> Result<(), Memory>
    ensures { OnOk result (out.new.items ≡ out.old.items ++ query_rows n table.now) }
{
    push_txn(out, n)?;
    push_description(out, table.cols.as_slice())?;
    push_data(out, table.rows.as_slice())?;
    push_complete(out, b"SELECT ", table.rows.len() as u64)?;
    push_ready(out)?;
    Ok(())
}

// Appends the number of transactions as a parameter.
fn push_txn(out: &mut Vec<u8>, n: u64) -> Result<(), Memory>
    ensures { OnOk result (out.new.items ≡ out.old.items ++ parameter (codes "txn") (decimal n)) }
{
    let at = begin(out, b'S')?;
    out.extend_from_slice(b"txn\0")?;
    push_number(out, n)?;
    out.push(0)?;
    end(out, at)?;
    Ok(())
}

// Appends the description of the columns.
fn push_description(out: &mut Vec<u8>, cols: &[Col]) -> Result<(), Memory>
    ensures { OnOk result (out.new.items ≡ out.old.items ++ row_description cols.now) }
{
    let at = begin(out, b'T')?;
    push_count(out, cols.len())?;
    push_columns(out, cols)?;
    end(out, at)?;
    Ok(())
}

// Appends what is said of each column.
fn push_columns(out: &mut Vec<u8>, cols: &[Col]) -> Result<(), Memory>
    ensures { OnOk result (out.new.items ≡ out.old.items ++ flat_map column_field cols.now) }
{
    for col in cols {
        push_column(out, col)?;
    }
    Ok(())
}

// Appends what is said of a column.
fn push_column(out: &mut Vec<u8>, col: &Col) -> Result<(), Memory>
    ensures { OnOk result (out.new.items ≡ out.old.items ++ column_field col.now) }
{
    push_string(out, col.name.bytes())?;
    push_u32(out, 0)?;
    push_u16(out, 0)?;
    push_u32(out, type_of(col.kind))?;
    push_u16(out, size_of(col.kind))?;
    push_u32(out, MINUS_ONE)?;
    push_u16(out, 0)
}

// The number of a type in PostgreSQL's catalogue.
fn type_of(kind: ColType) -> u32
    ensures { result ≡ spec.type_of kind }
{
    match kind {
        ColType::Long => 20,
        ColType::Bool => 16,
        ColType::Symbol | ColType::Varchar => 1043,
        ColType::Time => 1114,
    }
}

// The size of a type in bytes; the greatest number is -1, and says that it varies.
fn size_of(kind: ColType) -> u16
    ensures { result ≡ spec.size_of kind }
{
    match kind {
        ColType::Long | ColType::Time => 8,
        ColType::Bool => 1,
        ColType::Symbol | ColType::Varchar => u16::MAX,
    }
}

// Appends the rows.
fn push_data(out: &mut Vec<u8>, rows: &[Row]) -> Result<(), Memory>
    ensures { OnOk result (out.new.items ≡ out.old.items ++ flat_map data_row rows.now) }
{
    for row in rows {
        push_row(out, row.as_slice())?;
    }
    Ok(())
}

// Appends a row.
fn push_row(out: &mut Vec<u8>, row: &[Cell]) -> Result<(), Memory>
    ensures { OnOk result (out.new.items ≡ out.old.items ++ data_row row.now) }
{
    let at = begin(out, b'D')?;
    push_count(out, row.len())?;
    push_cells(out, row)?;
    end(out, at)?;
    Ok(())
}

// Appends the values of cells.
fn push_cells(out: &mut Vec<u8>, cells: &[Cell]) -> Result<(), Memory>
    ensures { OnOk result (out.new.items ≡ out.old.items ++ flat_map cell_value cells.now) }
{
    for cell in cells {
        push_cell(out, cell)?;
    }
    Ok(())
}

// Appends the value of a cell.
fn push_cell(out: &mut Vec<u8>, cell: &Cell) -> Result<(), Memory>
    ensures { OnOk result (out.new.items ≡ out.old.items ++ cell_value cell.now) }
{
    match cell {
        Cell::Null => push_u32(out, MINUS_ONE),
        Cell::Long(number) => push_value(out, Buffer::new().format(*number).as_bytes()),
        Cell::Bool(true) => push_value(out, b"t"),
        Cell::Bool(false) => push_value(out, b"f"),
        Cell::Text(text) => push_value(out, text.bytes()),
        Cell::Time(ts) => push_time(out, *ts),
    }
}

// Appends a text with its length before it. One that is too long for a message finds no memory.
fn push_value(out: &mut Vec<u8>, text: &[u8]) -> Result<(), Memory>
    ensures { OnOk result (out.new.items ≡ out.old.items ++ spec.value text.now) }
{
    let Ok(len) = u32::try_from(text.len()) else {
        return Err(AllocError);
    };
    push_u32(out, len)?;
    out.extend_from_slice(text)
}

// Appends a moment as a text, or NULL for a number that is none.
fn push_time(out: &mut Vec<u8>, ts: u64) -> Result<(), Memory>
    ensures { OnOk result (out.new.items ≡ out.old.items ++ cell_value (cell.Time ts)) }
{
    if ts <= MAX_TIME {
        let mut text = print_time(ts);
        text[10] = b' ';
        push_value(out, &text[..26])
    } else {
        push_u32(out, MINUS_ONE)
    }
}
