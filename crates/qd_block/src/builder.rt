//! How blocks are made: cell by cell, in any order of time.
ghost use Rattle.std.specs.Prelude.{◌≡◌, ◌≢◌, ◌<◌, ◌≤◌, ◌⊎◌, [], ◌∷◌, ◌++◌, Some, length, map, All, IfOk, IfNone, OnOk, OnErr, slice_get, slice_index_or};
ghost use Rattle.qd_base.specs.declared.cell.Cell.TheVariants as cell;
ghost use Rattle.qd_base.specs.declared.schema.ColType.TheVariants as kind;
ghost use Rattle.qd_base.specs.declared.limits.TheConstants.{NULL_LONG as least, NULL_TIME as last};
ghost use Rattle.qd_base.specs.Database.{missing};
ghost use Rattle.qd_column.specs.Cells.{cells_at};
ghost use Rattle.qd_block.specs.Blocks.{kinds_in, with_open, in_time_order};

use crate::block::Block;
use crate::order::{places_in_order, rises};
use qd_base::{ColList, ColType, Dictionary, MAX_COLUMNS, MAX_TEXT_BYTES, Memory};
use qd_column::Column;
use std::alloc::Global;
use std::marker::Model;

/// A block in the making. Contracts see the kinds of its columns, which of them is the designated timestamp, the rows
/// so far in the order in which they came, and the cells of the row that isn't whole yet.
///
/// Cells are pushed in the order of the columns, and a whole row is ended by `end_row`. No row and no cell is made on
/// the way: each goes into its column.
#[derive(Drop)]
pub struct Builder<D: Dictionary> {
    alloc: Global,
    columns: Vec<Column<D>>,
    rows: usize,
    filled: usize,
    time_col: usize,
}

impl<D: Dictionary> Model for Builder<D> {
    ghost use Rattle.qd_block.specs.Blocks.{Building, building_of, IsBuilding};

    ghost Value = { Building };

    ghost view = { λ b. building_of b.rows b.filled b.time_col b.columns.items };

    ghost invariant = { λ b. IsBuilding b.rows b.filled b.time_col b.columns.items };
}

impl<D: Dictionary> Builder<D> {
    /// Begins a block without rows, with at most 256 columns, a designated timestamp among them.
    pub fn new(alloc: Global, cols: &ColList, time_col: u32) -> Result<Builder<D>, Memory>
        requires few { length cols.now ≤ MAX_COLUMNS }
        requires designated { slice_get (kinds_in cols.now) time_col ≡ Some kind.Time }
        ensures empty { IfOk result (λ b. b ≡ record { kinds = kinds_in cols.now; time_col = time_col; rows = []; open_row = [] }) }
    {
        let mut columns = Vec::with_capacity(alloc, cols.len())?;
        for col in cols.as_slice() {
            columns.push(Column::new(alloc, col.kind)?)?;
        }
        Ok(Builder {
            alloc,
            columns,
            rows: 0,
            filled: 0,
            time_col: time_col as usize,
        })
    }

    /// Gives the number of whole rows, in constant time.
    pub fn rows(&self) -> u64
        ensures count { result ≡ length self.now.rows }
    {
        self.rows as u64
    }

    /// Gives the number of cells of the row that isn't whole yet: the column that the next cell goes into.
    pub fn next_col(&self) -> u32
        ensures count { result ≡ length self.now.open_row }
    {
        self.filled as u32
    }

    /// Gives the kind of the column that the next cell goes into, or none where the row is whole, in constant time.
    pub fn next_kind(&self) -> Option<ColType>
        ensures kind { result ≡ slice_get self.now.kinds (length self.now.open_row) }
        ensures whole { IfNone result (length self.now.open_row ≡ length self.now.kinds) }
    {
        if self.filled < self.columns.len() {
            Some(self.columns[self.filled].kind())
        } else {
            None
        }
    }

    /// Adds a number to a LONG column. Where no memory is found, nothing is changed.
    pub fn push_long(&mut self, value: i64) -> Result<(), Memory>
        requires kind { slice_get self.old.kinds (length self.old.open_row) ≡ Some kind.Long }
        requires value { value ≢ least }
        ensures ok { OnOk result (self.new ≡ with_open self.old (cell.Long value)) }
        ensures err { OnErr result (self.new ≡ self.old) }
    {
        self.columns[self.filled].push_long(value)?;
        self.filled += 1;
        Ok(())
    }

    /// Adds a truth value to a BOOLEAN column. Where no memory is found, nothing is changed.
    pub fn push_truth(&mut self, value: bool) -> Result<(), Memory>
        requires kind { slice_get self.old.kinds (length self.old.open_row) ≡ Some kind.Bool }
        ensures ok { OnOk result (self.new ≡ with_open self.old (cell.Bool value)) }
        ensures err { OnErr result (self.new ≡ self.old) }
    {
        self.columns[self.filled].push_truth(value)?;
        self.filled += 1;
        Ok(())
    }

    /// Adds a moment to a TIMESTAMP column. Where no memory is found, nothing is changed.
    pub fn push_time(&mut self, value: u64) -> Result<(), Memory>
        requires kind { slice_get self.old.kinds (length self.old.open_row) ≡ Some kind.Time }
        requires value { value ≢ last }
        ensures ok { OnOk result (self.new ≡ with_open self.old (cell.Time value)) }
        ensures err { OnErr result (self.new ≡ self.old) }
    {
        self.columns[self.filled].push_time(value)?;
        self.filled += 1;
        Ok(())
    }

    /// Adds a text of at most 65,535 bytes to a SYMBOL or VARCHAR column. Where no memory is found, nothing is changed.
    pub fn push_text(&mut self, text: &[u8]) -> Result<(), Memory>
        requires kind { (slice_get self.old.kinds (length self.old.open_row) ≡ Some kind.Symbol) ⊎ (slice_get self.old.kinds (length self.old.open_row) ≡ Some kind.Varchar) }
        requires short { length text.now ≤ MAX_TEXT_BYTES }
        ensures ok { OnOk result (self.new ≡ with_open self.old (cell.Text text.now)) }
        ensures err { OnErr result (self.new ≡ self.old) }
    {
        self.columns[self.filled].push_text(text)?;
        self.filled += 1;
        Ok(())
    }

    /// Adds what a row holds that lacks the column, NULL or false. The designated timestamp is never missing. Where no
    /// memory is found, nothing is changed.
    pub fn push_missing(&mut self) -> Result<(), Memory>
        requires there { length self.old.open_row < length self.old.kinds }
        requires timed { length self.old.open_row ≢ self.old.time_col }
        ensures ok { OnOk result (self.new ≡ with_open self.old (missing (slice_index_or self.old.kinds (length self.old.open_row) kind.Long))) }
        ensures err { OnErr result (self.new ≡ self.old) }
    {
        self.columns[self.filled].push_missing()?;
        self.filled += 1;
        Ok(())
    }

    /// Ends a row that has a cell for each column. It takes no memory.
    pub fn end_row(&mut self)
        requires whole { length self.old.open_row ≡ length self.old.kinds }
        ensures added { self.new ≡ record self.old { rows = self.old.rows ++ self.old.open_row ∷ []; open_row = [] } }
    {
        self.rows = self.columns[self.time_col].len();
        self.filled = 0;
    }

    /// Makes the block of the rows so far, in order of time, those of one time in the order in which they came. Where
    /// they came in order, nothing is moved; else it costs n log n and a copy.
    pub fn finish(self) -> Result<Block<D>, Memory>
        requires whole { self.open_row ≡ [] }
        ensures block { IfOk result (λ b. b ≡ record { kinds = self.kinds; time_col = self.time_col; rows = in_time_order self.time_col self.rows }) }
    {
        let Builder {
            alloc,
            columns,
            rows,
            filled: _,
            time_col,
        } = self;
        if rises(columns[time_col].times()) {
            return Ok(Block {
                alloc,
                columns,
                rows,
                time_col,
            });
        }
        let places = places_in_order(alloc, columns[time_col].times())?;
        let columns = gathered_columns(alloc, columns.as_slice(), places.as_slice())?;
        Ok(Block {
            alloc,
            columns,
            rows,
            time_col,
        })
    }
}

/// Copies the rows at some places of each column.
fn gathered_columns<D: Dictionary>(
    alloc: Global,
    columns: &[Column<D>],
    places: &[usize],
) -> Result<Vec<Column<D>>, Memory>
    requires { All (λ c. All (λ i. i < length c.cells) places.now) columns.now }
    ensures columns { IfOk result (λ v. v.items ≡ map (λ c. cells_at c places.now) columns.now) }
{
    let mut chosen = Vec::with_capacity(alloc, columns.len())?;
    for column in columns {
        chosen.push(column.gathered(alloc, places)?)?;
    }
    Ok(chosen)
}
