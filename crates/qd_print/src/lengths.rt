//! How many bytes a result has as CSV, counted without printing it.
//!
//! A count that no `usize` holds stops at the greatest one.
ghost use Rattle.std.specs.Prelude.{◌≡◌, ◌≤◌, ◌==◌, count_by, length, map, min};
ghost use Rattle.std.specs.Fmt.{decimal, signed_decimal};
ghost use Rattle.qd_base.specs.declared.schema.Col.{Col};
ghost use Rattle.qd_print.specs.Printed.{csv, csv_cell, csv_line, csv_text};

use super::is_quoted;
use qd_base::{Cell, Col, MAX_TIME, Row, Table};

/// The number of bytes of a table's CSV. It costs time linear in the number of cells and in the texts, and no memory.
pub(super) fn csv_len(table: &Table) -> usize
    ensures { result ≡ min (length (csv table.now)) usize.MAX }
{
    let mut len = header_len(table.cols.as_slice());
    for row in table.rows.as_slice() {
        len = len.saturating_add(row_len(row));
    }
    len
}

/// The length of the line of the columns' names. It costs time linear in the names.
pub fn header_len(cols: &[Col]) -> usize
    ensures { result
        ≡ min (length (csv_line (map (λ (c : Col). csv_text c.name) cols.now))) usize.MAX }
{
    let mut len: usize = 0;
    for col in cols {
        len = len.saturating_add(text_len(col.name.bytes()));
        len = len.saturating_add(1);
    }
    len.max(1)
}

/// The length of a row's line: a byte behind each cell, and LF alone where there is none.
fn row_len(row: &Row) -> usize
    ensures { result ≡ min (length (csv_line (map csv_cell row.now))) usize.MAX }
{
    let mut len: usize = 0;
    for cell in row.as_slice() {
        len = len.saturating_add(cell_len(cell));
        len = len.saturating_add(1);
    }
    len.max(1)
}

fn cell_len(cell: &Cell) -> usize
    ensures { result ≡ min (length (csv_cell cell.now)) usize.MAX }
{
    match cell {
        Cell::Null => 0,
        Cell::Long(value) => long_len(*value),
        Cell::Bool(true) => 4,
        Cell::Bool(false) => 5,
        Cell::Text(text) => text_len(text.bytes()),
        Cell::Time(ts) => { if *ts <= MAX_TIME { 27 } else { 0 } }
    }
}

/// The length of a text, with its quotes. It costs time linear in the text.
pub fn text_len(text: &[u8]) -> usize
    ensures { result ≡ min (length (csv_text text.now)) usize.MAX }
{
    if is_quoted(text) {
        let doubled = text.len().saturating_add(quotes_in(text));
        doubled.saturating_add(2)
    } else {
        text.len()
    }
}

fn quotes_in(text: &[u8]) -> usize
    ensures { result ≡ count_by (λ b. b == 34) text.now }
{
    text.iter().filter(|b| **b == b'"').count()
}

/// The length of a LONG in decimal, with its sign.
pub fn long_len(n: i64) -> usize
    ensures { result ≡ length (signed_decimal n) }
{
    let digits = decimal_len(n.unsigned_abs());
    if n < 0 { digits + 1 } else { digits }
}

fn decimal_len(n: u64) -> usize
    ensures length { result ≡ length (decimal n) }
    ensures short { result ≤ 20 }
{
    match n.checked_ilog10() {
        Some(power) => power as usize + 1,
        None => 1,
    }
}
