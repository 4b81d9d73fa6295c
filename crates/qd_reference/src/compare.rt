//! Cells and rows, compared.
ghost use Rattle.std.specs.Prelude.{◌≡◌};
ghost use Rattle.qd_base.specs.Rows.{cell_eq, cell_at, same_on, time_of};
ghost use Rattle.qd_base.specs.declared.cell.Cell.TheVariants as cell;

use qd_base::{Cell, KeyList, Row};

/// Whether two cells are equal; NULL is equal to NULL. It costs time linear in the shorter text.
pub fn cells_equal(a: &Cell, b: &Cell) -> bool
    ensures equal { result ≡ cell_eq a.now b.now }
{
    match (a, b) {
        (Cell::Null, Cell::Null) => true,
        (Cell::Long(x), Cell::Long(y)) => *x == *y,
        (Cell::Bool(x), Cell::Bool(y)) => *x == *y,
        (Cell::Text(x), Cell::Text(y)) => x.bytes() == y.bytes(),
        (Cell::Time(x), Cell::Time(y)) => *x == *y,
        _ => false,
    }
}

/// Whether two rows are equal on all of the keys. It costs time linear in the number of keys and in the texts there.
pub fn equal_on(keys: &KeyList, a: &Row, b: &Row) -> bool
    ensures equal { result ≡ same_on keys.now a.now b.now }
{
    keys.as_slice().iter().all(|key| equal_at(a, b, *key))
}

/// The designated timestamp of a row, in microseconds since 1970-01-01T00:00Z; 0 where the column `time_col` holds
/// no moment. It takes constant time.
pub fn time_of(row: &Row, time_col: u32) -> u64
    ensures time { result ≡ time_of time_col row.now }
{
    let null = Cell::Null;
    match cell_or(row, time_col, &null) {
        Cell::Time(time) => *time,
        _ => 0,
    }
}

/// Whether two rows are equal in one column.
fn equal_at(a: &Row, b: &Row, col: u32) -> bool
    ensures equal { result ≡ cell_eq (cell_at a.now col) (cell_at b.now col) }
{
    let null = Cell::Null;
    cells_equal(cell_or(a, col, &null), cell_or(b, col, &null))
}

/// The cell in a column; a column that the row lacks holds `null`, which is to be NULL.
fn cell_or<'a>(row: &'a Row, col: u32, null: &'a Cell) -> &'a Cell
    requires { null.now ≡ cell.Null }
    ensures cell { result.now ≡ cell_at row.now col }
{
    let col = col as usize;
    if col < row.len() { row.get(col) } else { null }
}
