//! Merges of a batch into a block.
ghost use Rattle.std.specs.Prelude.{◌≡◌, ◌<◌, ◌≤◌, Some, All, IfOk, length, slice_get, take};
ghost use Rattle.qd_base.specs.declared.schema.ColType.TheVariants as kind;
ghost use Rattle.qd_base.specs.Lawful.{HasKinds};
ghost use Rattle.qd_base.specs.Laws.{IsInOrder};
ghost use Rattle.qd_block.specs.Blocks.{column_in, kinds_in, IsTimed};
ghost use Rattle.qd_merge.specs.Laws.{AreKeys, IsBatch};
ghost use Rattle.qd_merge.specs.Merged.{block_in, laid_rows, merged};
ghost use Rattle.qd_merge.specs.Order.{AreRunsOf};

use crate::order::merge_order;
use crate::replaced::replaced;
use qd_base::{KeyList, MAX_COLUMNS, Memory, RowList, Schema};
use qd_column::{Column, Run};
use qd_symbols::SymbolMap;
use std::alloc::Global;

/// A block whose SYMBOL columns have dictionaries of their own.
pub type Block = qd_block::Block<SymbolMap>;

/// Merges rows of a batch into the rows of a block from `skip` on, as putting them in one by one would: rows of an
/// earlier or the same time stand before a row of the batch, and with keys an old row with a batch row's keys goes
/// out. A column that the old block lacks holds NULL in its rows, or false.
///
/// It makes a block of the batch and merges that as [`merge_blocks`] does; beside that it costs time and memory linear
/// in the batch's size. Want of memory is the only error.
pub fn merge_block(
    alloc: Global,
    old: &Block,
    skip: u64,
    batch: &RowList,
    schema: &Schema,
) -> Result<Block, Memory>
    requires few { length schema.now.cols ≤ MAX_COLUMNS }
    requires designated { slice_get (kinds_in schema.now.cols) schema.now.time_col ≡ Some kind.Time }
    requires keys { AreKeys schema.now.time_col schema.now.keys }
    requires kinds { take (length old.now.kinds) (kinds_in schema.now.cols) ≡ old.now.kinds }
    requires time_col { old.now.time_col ≡ schema.now.time_col }
    requires skip { skip ≤ length old.now.rows }
    requires fit { All (HasKinds schema.now.cols) batch.now }
    requires timed { All (IsTimed schema.now.time_col) batch.now }
    requires batch { IsBatch schema.now.time_col schema.now.keys batch.now }
    ensures merged { IfOk result (λ b. b ≡ merged schema.now.keys old.now skip (block_in schema.now batch.now)) }
{
    let batch = Block::from_rows(alloc, &schema.cols, schema.time_col, batch)?;
    merge_blocks(alloc, old, skip, &batch, &schema.keys)
}

/// Merges the rows of a batch, which lie in a block, into the rows of another block from `skip` on, as putting them in
/// one by one would. The result has the batch's columns; one that the old block lacks holds NULL in its rows, or false.
///
/// First the order of the result is found as runs of rows, from times and keys alone; then each column is copied by
/// runs. It costs time linear in the two blocks' sizes, and with keys n log n in the number of rows whose time is in
/// both; the memory of the result, and a byte a row and 24 a run for the order. Want of memory is the only error.
pub fn merge_blocks(
    alloc: Global,
    old: &Block,
    skip: u64,
    batch: &Block,
    keys: &KeyList,
) -> Result<Block, Memory>
    requires keys { AreKeys batch.now.time_col keys.now }
    requires kinds { take (length old.now.kinds) batch.now.kinds ≡ old.now.kinds }
    requires time_col { old.now.time_col ≡ batch.now.time_col }
    requires skip { skip ≤ length old.now.rows }
    requires batch { IsBatch batch.now.time_col keys.now batch.now.rows }
    ensures merged { IfOk result (λ b. b ≡ merged keys.now old.now skip batch.now) }
{
    old.is_whole();
    batch.is_whole();
    let gone = replaced(alloc, old, batch, keys)?;
    let runs = merge_order(
        alloc,
        old.times(),
        skip as usize,
        gone.as_slice(),
        batch.times(),
    )?;
    spliced_block(alloc, old, batch, runs.as_slice())
}

/// Copies rows of two blocks, in the order of the runs. A column that the first lacks is missing in its rows.
pub(crate) fn spliced_block(
    alloc: Global,
    old: &Block,
    batch: &Block,
    runs: &[Run],
) -> Result<Block, Memory>
    requires kinds { take (length old.now.kinds) batch.now.kinds ≡ old.now.kinds }
    requires time_col { old.now.time_col ≡ batch.now.time_col }
    requires runs { AreRunsOf (length old.now.rows) (length batch.now.rows) runs.now }
    requires order { IsInOrder batch.now.time_col (laid_rows old.now batch.now runs.now) }
    ensures block { IfOk result (λ b. b ≡ record batch.now { rows = laid_rows old.now batch.now runs.now }) }
{
    old.is_whole();
    batch.is_whole();
    let mut columns = Vec::with_capacity(alloc, batch.cols() as usize)?;
    for col in 0..batch.cols() {
        columns.push(spliced_column(alloc, old, batch, col, runs)?)?;
    }
    let rows = columns[batch.time_col() as usize].len();
    Ok(Block::of_columns(alloc, columns, rows, batch.time_col()))
}

/// Copies one column of rows of two blocks, in the order of the runs.
fn spliced_column(
    alloc: Global,
    old: &Block,
    batch: &Block,
    col: u32,
    runs: &[Run],
) -> Result<Column<SymbolMap>, Memory>
    requires there { col < length batch.now.kinds }
    requires kinds { take (length old.now.kinds) batch.now.kinds ≡ old.now.kinds }
    requires runs { AreRunsOf (length old.now.rows) (length batch.now.rows) runs.now }
    ensures column { IfOk result (λ c. c ≡ column_in (record batch.now { rows = laid_rows old.now batch.now runs.now }) col) }
{
    old.is_whole();
    if col < old.cols() {
        return Column::spliced(alloc, old.column(col), batch.column(col), runs);
    }
    let lacking = Column::missing(alloc, batch.column(col).kind(), old.rows() as usize)?;
    Column::spliced(alloc, &lacking, batch.column(col), runs)
}
