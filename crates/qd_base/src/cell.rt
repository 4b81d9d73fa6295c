//! Cells and rows.
use crate::seq::{Duplicate, Memory, Seq};
use crate::txt::Txt;

/// What stands in one column of one row.
///
/// The kinds are those of QuestDB's LONG, BOOLEAN, SYMBOL and VARCHAR (both `Text`), and TIMESTAMP columns.
#[derive(Debug, Drop)]
pub enum Cell {
    /// No value. A BOOLEAN column has none.
    Null,
    /// A signed 64-bit number. The least one stands for NULL where rows are stored, so no cell has it.
    Long(i64),
    /// A truth value.
    Bool(bool),
    /// The text of a SYMBOL or VARCHAR cell, at most 65,535 bytes.
    Text(Txt),
    /// Microseconds since 1970-01-01T00:00Z, at most `MAX_TIME`.
    Time(u64),
}

impl Duplicate for Cell {
    fn copy(&self) -> Result<Cell, Memory> {
        Ok(match self {
            Cell::Null => Cell::Null,
            Cell::Long(value) => Cell::Long(*value),
            Cell::Bool(value) => Cell::Bool(*value),
            Cell::Text(value) => Cell::Text(value.copy()?),
            Cell::Time(value) => Cell::Time(*value),
        })
    }
}

/// One cell for each column of a table, in the columns' order.
pub type Row = Seq<Cell>;

/// Rows, in order.
pub type RowList = Seq<Row>;
