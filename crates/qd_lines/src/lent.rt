//! Cells that are lent from a batch.
ghost use Rattle.std.specs.Prelude.{◌≡◌, IfOk};
ghost use Rattle.qd_ilp.specs.View.{value_of};
ghost use Rattle.qd_ilp.specs.Transaction as line;
ghost use Rattle.qd_base.specs.Database as database;
ghost use Rattle.qd_lines.specs.Sinks.{cell_lent};

use qd_base::{Cell, ColType, Memory, Txt};
use qd_ilp::ValueView;
use std::alloc::Global;

/// What stands in one column of one row, as `Cell`, with a text that is lent.
#[derive(Clone, Copy, Debug)]
pub enum CellView<'a> {
    /// No value.
    Null,
    /// A signed 64-bit number.
    Long(i64),
    /// A truth value.
    Bool(bool),
    /// The text of a SYMBOL or VARCHAR cell.
    Text(&'a [u8]),
    /// Microseconds since 1970-01-01T00:00Z.
    Time(u64),
}

/// Lends the cell of a value, in constant time.
pub(crate) fn cell_of<'a>(value: ValueView<'a>) -> CellView<'a>
    ensures cell { cell_lent result ≡ line.cell_of (value_of value.entry) }
{
    match value {
        ValueView::Tag(text) => CellView::Text(text),
        ValueView::Text(text) => CellView::Text(text),
        ValueView::Long(number) => CellView::Long(number),
        ValueView::Huge => CellView::Null,
        ValueView::Truth(truth) => CellView::Bool(truth),
        ValueView::Other => CellView::Null,
    }
}

/// Gives what a row holds in a column that no tag or field names: false, or NULL.
pub(crate) fn missing(kind: ColType) -> CellView<'static>
    ensures missing { cell_lent result ≡ database.missing kind }
{
    match kind {
        ColType::Bool => CellView::Bool(false),
        _ => CellView::Null,
    }
}

/// Makes the cell that is lent. A text is copied.
pub(crate) fn owned(alloc: Global, cell: CellView<'_>) -> Result<Cell, Memory>
    ensures cell { IfOk result (λ made. made ≡ cell_lent cell.entry) }
{
    Ok(match cell {
        CellView::Null => Cell::Null,
        CellView::Long(number) => Cell::Long(number),
        CellView::Bool(truth) => Cell::Bool(truth),
        CellView::Text(text) => Cell::Text(Txt::from_bytes(alloc, text)?),
        CellView::Time(micros) => Cell::Time(micros),
    })
}
