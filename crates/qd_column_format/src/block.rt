//! Blocks made of whole columns.
ghost use Rattle.std.specs.Prelude.{◌≡◌, ℕ, ◌<◌, ◌≤◌, [], ◌∷◌, ◌++◌, Some, length, map, All, IfOk, IfErr, IfNone, IfSome, OnOk, OnErr, slice_get};
ghost use Rattle.std.specs.List.Sorted.{IsNonDecreasing};
ghost use Rattle.qd_base.specs.declared.schema.ColType.TheVariants as kind;
ghost use Rattle.qd_column.specs.Cells.{time_cell};
ghost use Rattle.qd_block.specs.Blocks.{kinds_of, block_of};
ghost use Rattle.qd_column_format.specs.Unsorted.{times_in, IsFirstUnsorted, AreSorted};
ghost use Rattle.qd_column_format.specs.declared.fault.BlockFault.TheVariants as fault;

use crate::fault::BlockFault;
use qd_base::{Dictionary, MAX_COLUMNS, Memory, NULL_TIME};
use qd_block::Block;
use qd_column::Column;
use std::alloc::Global;
use std::marker::Model;

/// Columns, in order. Contracts see the list of them.
#[derive(Drop)]
pub struct ColumnList<D: Dictionary> {
    items: Vec<Column<D>>,
}

impl<D: Dictionary> Model for ColumnList<D> {
    ghost use Rattle.std.specs.Prelude.{List};
    ghost use Rattle.qd_column.specs.Cells.{CellsOf};

    ghost Value = { List CellsOf };

    ghost view = { λ l. l.items.items };
}

impl<D: Dictionary> ColumnList<D> {
    /// Makes the empty list. It takes no memory until a column is pushed.
    pub fn new(alloc: Global) -> ColumnList<D>
        ensures empty { result ≡ [] }
    {
        ColumnList {
            items: Vec::new(alloc),
        }
    }

    /// Adds a column at the end, in amortised constant time. Where no memory is found, the list stays as it is.
    pub fn push(&mut self, column: Column<D>) -> Result<(), Memory>
        ensures ok { OnOk result (self.new ≡ self.old ++ column ∷ []) }
        ensures err { OnErr result (self.new ≡ self.old) }
    {
        self.items.push(column)?;
        Ok(())
    }

    /// Gives the number of columns, in constant time.
    pub fn len(&self) -> usize
        ensures count { result ≡ length self.now }
    {
        self.items.len()
    }

    /// Lends the column at position `i`, counted from 0, in constant time.
    pub fn get(&self, i: usize) -> &Column<D>
        requires { i < length self.now }
        ensures column { slice_get self.now i ≡ Some result.now }
    {
        &self.items[i]
    }
}

/// Makes a block of columns of one length, of which `time_col` is the designated timestamp, with no copy. It is refused
/// exactly where a time is NULL or less than the one before. It costs time linear in the rows, and takes no memory.
pub fn from_columns<D: Dictionary>(
    alloc: Global,
    columns: ColumnList<D>,
    time_col: u32,
) -> Result<Block<D>, BlockFault>
    requires few { length columns ≤ MAX_COLUMNS }
    requires designated { slice_get (kinds_of columns) time_col ≡ Some kind.Time }
    requires even { All (λ c. length c.cells ≡ length (times_in time_col columns)) columns }
    ensures block { IfOk result (λ b. b ≡ block_of (length (times_in time_col columns)) time_col columns) }
    ensures sorted { OnOk result (AreSorted (times_in time_col columns)) }
    ensures unsorted { IfErr result (λ e. (row : ℕ) × (e ≡ fault.Unsorted row) × IsFirstUnsorted (times_in time_col columns) row) }
{
    let ColumnList { items: columns } = columns;
    let times = columns[time_col as usize].times();
    let rows = times.len();
    match first_unsorted(times) {
        Some(row) => Err(BlockFault::Unsorted { row: row as u64 }),
        None => Ok(Block::of_columns(alloc, columns, rows, time_col)),
    }
}

/// The first place of a time that is NULL or less than the one before.
fn first_unsorted(times: &[u64]) -> Option<usize>
    ensures none { IfNone result (AreSorted (map time_cell times.now)) }
    ensures rises { IfNone result (IsNonDecreasing times.now) }
    ensures some { IfSome result (λ row. IsFirstUnsorted (map time_cell times.now) row) }
{
    let mut last = 0;
    for i in 0..times.len() {
        let time = times[i];
        if time == NULL_TIME {
            return Some(i);
        }
        if time < last {
            return Some(i);
        }
        last = time;
    }
    None
}
