//! The batch of the rows that wait in one table.
ghost use Rattle.std.specs.Prelude.{◌≡◌, ◌++◌, IfOk};
ghost use Rattle.std.specs.List.{AllByRecursion};
ghost use Rattle.qd_base.specs.Laws.{IsInOrder};
ghost use Rattle.qd_block.specs.Blocks.{in_time_order, kinds_in};
ghost use Rattle.qd_merge.specs.Merged.{block_in};
ghost use Rattle.qd_apply.specs.Next.{batch_of};
ghost use Rattle.qd_apply.specs.Waiting.{staged, IsStage};

use crate::waiting::{Waiting, begun};
use qd_base::{KeyList, Memory, Schema};
use qd_block::Builder;
use qd_merge::{Block, dedup_block, merge_blocks};
use qd_symbols::SymbolMap;
use std::alloc::Global;

/// A table's batch: rows in order of time, with all columns, without those that a later one replaces.
#[derive(Drop)]
pub(crate) struct TableBatch {
    pub(crate) schema: Schema,
    pub(crate) block: Block,
}

/// Makes the batch of the rows that wait in a table.
pub(crate) fn batched(alloc: Global, table: Waiting) -> Result<TableBatch, Memory>
    ensures schema { IfOk result (λ b. b.schema ≡ table.schema) }
    ensures block { IfOk result (λ b. b.block ≡ block_in table.schema (batch_of table)) }
{
    let Waiting {
        schema,
        stages,
        current,
    } = table;
    let last = begun(alloc, &schema, current)?.finish()?;
    let sorted = joined(alloc, &schema, stages, last)?;
    let block = dedup_block(alloc, &sorted, &schema.keys)?;
    Ok(TableBatch { schema, block })
}

/// Puts the rows of earlier blocks in the making, made as wide as the table, in front of the last ones. For each of
/// these blocks it costs time and memory linear in it and in those behind.
fn joined(
    alloc: Global,
    schema: &Schema,
    stages: Vec<Builder<SymbolMap>>,
    last: Block,
) -> Result<Block, Memory>
    requires stages { AllByRecursion (IsStage schema.now) stages.items }
    requires kinds { last.kinds ≡ kinds_in schema.now.cols }
    requires time_col { last.time_col ≡ schema.now.time_col }
    requires order { IsInOrder schema.now.time_col last.rows }
    ensures block { IfOk result (λ b. b ≡ block_in schema.now (in_time_order schema.now.time_col (staged schema.now.cols stages.items ++ last.rows))) }
{
    let mut stages = stages;
    let mut batch = last;
    let keys = KeyList::new(alloc);
    while let Some(stage) = stages.pop() {
        batch = merge_blocks(alloc, &stage.finish()?, 0, &batch, &keys)?;
        batch.is_whole();
    }
    Ok(batch)
}
