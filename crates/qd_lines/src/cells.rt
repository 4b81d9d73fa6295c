//! The cells of the row that a line gives.
ghost use Rattle.std.specs.Prelude.{◌≡◌, ◌≤◌, ℕ, List, false, length, map, ◌++◌, [], OnOk};
ghost use Rattle.qd_base.specs.declared.limits.TheConstants.{MAX_COLUMNS};
ghost use Rattle.qd_base.specs.declared.cell.Cell.{Cell};
ghost use Rattle.qd_base.specs.declared.op.Op.{Op};
ghost use Rattle.qd_base.specs.declared.schema.Schema.{Schema};
ghost use Rattle.qd_base.specs.Schemas.{schema_of};
ghost use Rattle.qd_ilp.specs.Transaction as line;
ghost use Rattle.qd_lines.specs.Cells.{named_cell, row_of};
ghost use Rattle.qd_lines.specs.Codes.{IsPlaceOf};
ghost use Rattle.qd_lines.specs.Drafts.{Draws, Usable, mark};
ghost use Rattle.qd_lines.specs.Sinks.{cell_lent, with_row};

use crate::codes::Place;
use crate::draft::{Columns, Draft};
use crate::lent::{CellView, cell_of, missing};
use crate::sink::OpSink;
use qd_base::{Col, Memory};
use qd_ilp::RowView;

/// Pushes the row of a line without a code: a cell for each column after it, into a row that is begun. It costs time linear
/// in the columns.
pub(crate) fn push_row<T: OpSink>(
    sink: &mut T,
    place: Place<'_>,
    draft: &Draft,
    row: &RowView<'_>,
    micros: u64,
) -> Result<(), Memory>
    requires usable { Usable place.columns }
    requires draws { Draws place.columns row.now.items draft.now }
    requires few { length draft.now.marks.items ≤ MAX_COLUMNS }
    requires once { draft.now.faults.twice ≡ false }
    ensures cells { (schemas : List Schema) (now : ℕ) → IsPlaceOf schemas row.now place.entry → micros ≡ line.micros_of (line.moment_of now row.now.moment) →
        (table : List ℕ) (ops : List Op) → T.taken sink.old (with_row table [] ops) → OnOk result (T.taken sink.new (with_row table (row_of (schema_of schemas row.now.table) now row.now) ops)) }
{
    let Columns { cols, time } = place.columns;
    let cols = cols.as_slice();
    let before = cols.len();
    let added = draft.added.as_slice();
    let marks = draft.marks.as_slice();
    if place.fresh {
        push_cells(sink, added, &marks[before..], row)?;
        return sink.push_cell(CellView::Time(micros));
    }
    push_cells(sink, &cols[..time], &marks[..time], row)?;
    sink.push_cell(CellView::Time(micros))?;
    push_cells(sink, &cols[time + 1..], &marks[time + 1..before], row)?;
    push_cells(sink, added, &marks[before..], row)
}

/// Pushes the cells of some columns, of which none is the designated one, with the tags and fields that name them.
fn push_cells<T: OpSink>(
    sink: &mut T,
    cols: &[Col],
    marks: &[Option<usize>],
    row: &RowView<'_>,
) -> Result<(), Memory>
    requires marks { marks.now ≡ map (mark row.now.items) cols.now }
    ensures cells { (table : List ℕ) (cells : List Cell) (ops : List Op) → T.taken sink.old (with_row table cells ops) →
        OnOk result (T.taken sink.new (with_row table (cells ++ map (named_cell row.now.items) cols.now) ops)) }
{
    for j in 0..cols.len() {
        sink.push_cell(named(row, &cols[j], marks[j]))?;
    }
    Ok(())
}

/// Lends the cell of a column that isn't the designated one, with the tag or field that names it, where there is one.
fn named<'a>(row: &RowView<'a>, col: &Col, place: Option<usize>) -> CellView<'a>
    requires place { place ≡ mark row.now.items col.now }
    ensures cell { cell_lent result ≡ named_cell row.now.items col.now }
{
    match place {
        Some(at) => cell_of(row.item(at).value),
        None => missing(col.kind),
    }
}
