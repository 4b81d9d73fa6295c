//! How blocks are made of rows and cells, and how their rows are read.
ghost use Rattle.std.specs.Prelude.{◌≡◌, ◌≢◌, ◌<◌, ◌≤◌, [], ◌∷◌, ◌++◌, Some, length, All, IfOk, OnOk, OnErr, slice_get, slice_index_or};
ghost use Rattle.qd_base.specs.declared.cell.Cell.TheVariants as cell;
ghost use Rattle.qd_base.specs.declared.schema.ColType.TheVariants as kind;
ghost use Rattle.qd_base.specs.Lawful.{Takes, HasKinds};
ghost use Rattle.qd_base.specs.Laws.{IsInOrder};
ghost use Rattle.qd_block.specs.Blocks.{kinds_in, with_open, in_time_order, FitsKinds, HasFront, IsTimed};

use crate::block::Block;
use crate::builder::Builder;
use qd_base::{Cell, ColList, Dictionary, MAX_COLUMNS, Memory, Row, RowList};
use std::alloc::Global;

impl<D: Dictionary> Block<D> {
    /// Makes the block of rows that come in any order of time: they lie in order of time, those of one time in the
    /// order in which they came. It costs time and memory linear in their size where they come in order, else n log n
    /// and a copy. Want of memory is its only refusal.
    pub fn from_rows(
        alloc: Global,
        cols: &ColList,
        time_col: u32,
        rows: &RowList,
    ) -> Result<Block<D>, Memory>
        requires few { length cols.now ≤ MAX_COLUMNS }
        requires designated { slice_get (kinds_in cols.now) time_col ≡ Some kind.Time }
        requires fit { All (HasKinds cols.now) rows.now }
        requires timed { All (IsTimed time_col) rows.now }
        ensures block { IfOk result (λ b. b ≡ record { kinds = kinds_in cols.now; time_col = time_col; rows = in_time_order time_col rows.now }) }
        ensures in_order { IsInOrder time_col rows.now → IfOk result (λ b. b.rows ≡ rows.now) }
    {
        let mut builder = Builder::new(alloc, cols, time_col)?;
        for row in rows.as_slice() {
            builder.push_row(row)?;
        }
        builder.finish()
    }

    /// Gives a row with the cells of one of the block's behind its own. It costs time and memory linear in their
    /// texts.
    pub fn with_cells(&self, i: u64, row: Row) -> Result<Row, Memory>
        requires { i < length self.now.rows }
        ensures cells { IfOk result (λ r. r ≡ row ++ slice_index_or self.now.rows i []) }
    {
        let mut row = row;
        for column in &self.columns {
            row.push(column.cell(self.alloc, i as usize)?)?;
        }
        Ok(row)
    }
}

impl<D: Dictionary> Builder<D> {
    /// Adds a cell that its column takes, the designated timestamp not being NULL. Where no memory is found, nothing is
    /// changed.
    pub fn push_cell(&mut self, item: &Cell) -> Result<(), Memory>
        requires there { length self.old.open_row < length self.old.kinds }
        requires takes { Takes (slice_index_or self.old.kinds (length self.old.open_row) kind.Long) item.now }
        requires timed { length self.old.open_row ≡ self.old.time_col → item.now ≢ cell.Null }
        ensures ok { OnOk result (self.new ≡ with_open self.old item.now) }
        ensures err { OnErr result (self.new ≡ self.old) }
    {
        match item {
            Cell::Null => self.push_missing(),
            Cell::Long(value) => self.push_long(*value),
            Cell::Bool(value) => self.push_truth(*value),
            Cell::Text(text) => self.push_text(text.bytes()),
            Cell::Time(value) => self.push_time(*value),
        }
    }

    /// Adds a whole row behind those so far. Where no memory is found, the cells that found room stand as the row that
    /// isn't whole yet.
    pub fn push_row(&mut self, row: &Row) -> Result<(), Memory>
        requires begun { self.old.open_row ≡ [] }
        requires fits { FitsKinds self.old.kinds row.now }
        requires timed { IsTimed self.old.time_col row.now }
        ensures ok { OnOk result (self.new ≡ record self.old { rows = self.old.rows ++ row.now ∷ [] }) }
        ensures err { OnErr result (HasFront self.old row.now self.new) }
    {
        for item in row.as_slice() {
            self.push_cell(item)?;
        }
        self.end_row();
        Ok(())
    }
}
