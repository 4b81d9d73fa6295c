//! What takes the changes of a batch one by one.
ghost use Rattle.std.specs.Prelude.{◌∷◌, [], List, OnOk};
ghost use Rattle.qd_base.specs.declared.op.Op.{Op};
ghost use Rattle.qd_base.specs.declared.op.Op.TheVariants as op;
ghost use Rattle.qd_ilp.specs.Transaction.{joined};
ghost use Rattle.qd_lines.specs.Sinks.{cell_lent, with_cells, with_row};

use crate::lent::CellView;
use qd_base::{Col, Memory, Schema};

/// What takes the changes of a batch one by one, in order, as a log does that makes no rows.
///
/// Its meaning is the list of changes that it has taken so far. Each call adds to it, exactly as is said, or finds no
/// memory; then nothing need be said of it.
pub trait OpSink {
    /// Whether what it has taken so far is this list of changes.
    ghost taken: { Self → List Op → Type 0 };

    /// Takes a new table.
    fn create(&mut self, schema: &Schema) -> Result<(), Memory>
        ensures ok { (ops : List Op) → taken self.old ops → OnOk result (taken self.new (joined ops (op.Create schema.now))) };

    /// Takes a new column of a table, by the table's name.
    fn add_column(&mut self, table: &[u8], col: &Col) -> Result<(), Memory>
        ensures ok { (ops : List Op) → taken self.old ops → OnOk result (taken self.new (joined ops (op.AddColumn table.now col.now))) };

    /// Begins a row of a table, without a cell so far: a further row of the insertion that was taken last, where that is
    /// into the same table, and else the first row of a new one.
    fn begin_row(&mut self, table: &[u8]) -> Result<(), Memory>
        ensures ok { (ops : List Op) → taken self.old ops → OnOk result (taken self.new (with_row table.now [] ops)) };

    /// Takes the next cell of the row that was begun last.
    fn push_cell(&mut self, cell: CellView<'_>) -> Result<(), Memory>
        ensures ok { (ops : List Op) → taken self.old ops → OnOk result (taken self.new (with_cells (cell_lent cell.entry ∷ []) ops)) };

    /// Ends the row that was begun last: it has all of its cells.
    fn end_row(&mut self) -> Result<(), Memory>
        ensures ok { (ops : List Op) → taken self.old ops → OnOk result (taken self.new ops) };
}
