//! Rows as plain values, to compare them.
use qd_base::{Cell, Memory, Row, RowList};
use qd_merge::Block;
use std::alloc::Global;

/// What stands in a row: its moment, its number, the letter of its name or 0, its truth value.
pub(super) type Shown = (u64, i64, u8, bool);

/// What stands in rows of the table.
pub(super) fn shown(alloc: Global, rows: &RowList) -> Result<Vec<Shown>, Memory> {
    let mut out = Vec::new(alloc);
    for row in rows.as_slice() {
        out.push(shown_row(row))?;
    }
    Ok(out)
}

/// What stands in a row of the table. One of another form has the number -1.
fn shown_row(row: &Row) -> Shown {
    match row.as_slice() {
        [
            Cell::Time(time),
            Cell::Long(number),
            name,
            Cell::Bool(truth),
        ] => { (*time, *number, letter_of(name), *truth) }
        _ => (0, -1, 0, false),
    }
}

/// The letter of a name; 0 where there is none.
fn letter_of(name: &Cell) -> u8 {
    match name {
        Cell::Text(text) if text.bytes().len() == 1 => text.bytes()[0],
        _ => 0,
    }
}

/// The rows of a block.
pub(super) fn rows_of(alloc: Global, block: &Block) -> Result<RowList, Memory> {
    let mut rows = RowList::new(alloc);
    for i in 0..block.rows() {
        rows.push(block.with_cells(i, Row::new(alloc))?)?;
    }
    Ok(rows)
}
