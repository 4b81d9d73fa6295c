//! Merges by the calls on rows, which no program makes. Their answers are worked out by hand, from QuestDB's rules of
//! designated timestamps and deduplication.
ghost use Rattle.std.specs.Prelude.{All, IfOk};
ghost use Rattle.qd_merge.specs.Laws.{IsBatch};
ghost use Rattle.qd_vectors.specs.Tables.{IsOfTable, IsTable, IsTableRow};

mod samples;
mod shown;

use qd_base::{Limits, Memory, PartList, RowList, Schema};
use qd_merge::{ActList, Block, BlockList, dedup_batch, merge_block, plan_merge, sort_batch};
use samples::{block, rows, table};
use shown::{Shown, rows_of, shown};
use std::alloc::Global;
use std::process::Abort;
use std::test::Fail;

/// Sorts rows as they came, and takes out those that a later one replaces.
fn batch_of(alloc: Global, came: RowList, schema: &Schema) -> Result<RowList, Memory>
    requires table { IsTable schema.now }
    requires rows { All IsTableRow came }
    ensures batch { IfOk result (IsBatch 0 schema.now.keys) }
    ensures rows { IfOk result (All IsTableRow) }
{
    let sorted = sort_batch(alloc, came, schema.time_col)?;
    dedup_batch(alloc, sorted, &schema.keys)
}

/// Merges a batch into a block's rows.
fn merged(alloc: Global, old: &Block, batch: &RowList, schema: &Schema) -> Result<Block, Memory>
    requires table { IsTable schema.now }
    requires old { IsOfTable old.now }
    requires rows { All IsTableRow batch.now }
    requires batch { IsBatch 0 schema.now.keys batch.now }
{
    merge_block(alloc, old, 0, batch, schema)
}

/// The rows of a block of old rows after a batch is merged into it.
fn merged_rows(
    alloc: Global,
    old: &RowList,
    batch: &RowList,
    schema: &Schema,
) -> Result<RowList, Memory>
    requires table { IsTable schema.now }
    requires old { All IsTableRow old.now }
    requires rows { All IsTableRow batch.now }
    requires batch { IsBatch 0 schema.now.keys batch.now }
{
    let old = block(alloc, old)?;
    let merged = merged(alloc, &old, batch, schema)?;
    rows_of(alloc, &merged)
}

/// The plan of a batch for a table without parts.
fn planned(alloc: Global, batch: &RowList, schema: &Schema) -> Result<ActList, Memory>
    requires table { IsTable schema.now }
    requires rows { All IsTableRow batch.now }
    requires batch { IsBatch 0 schema.now.keys batch.now }
{
    let parts = PartList::new(alloc);
    let blocks = BlockList::new(alloc);
    plan_merge(alloc, &parts, &blocks, &[], batch, schema, &Limits::usual())
}

/// Compares what stands in rows.
fn shows(rt: &impl Abort, alloc: Global, rows: &RowList, wanted: &[Shown]) -> Result<(), Memory> {
    let found = shown(alloc, rows)?;
    assert_eq!(rt; found.as_slice(), wanted);
    Ok(())
}

#[test]
fn the_last_of_equal_keys_stays(rt: HostRuntime) -> Result<(), Fail> {
    let alloc = rt.alloc();
    let schema = table(alloc, true)?;
    let came = rows(alloc, &[(1, 1, b'a'), (1, 2, b'b'), (1, 3, b'a')])?;
    let batch = batch_of(alloc, came, &schema)?;
    let wanted = [(1, 2, b'b', false), (1, 3, b'a', true)];
    shows(&rt, alloc, &batch, &wanted)?;
    assert_eq!(rt; planned(alloc, &batch, &schema)?.len(), 1);
    let old = rows(alloc, &[(0, 9, b'a'), (1, 7, b'b'), (2, 8, b'a')])?;
    let wanted = [
        (0, 9, b'a', true),
        (1, 2, b'b', false),
        (1, 3, b'a', true),
        (2, 8, b'a', false),
    ];
    shows(
        &rt,
        alloc,
        &merged_rows(alloc, &old, &batch, &schema)?,
        &wanted,
    )?;
    Ok(())
}

#[test]
fn rows_of_one_time_keep_the_order_in_which_they_came(rt: HostRuntime) -> Result<(), Fail> {
    let alloc = rt.alloc();
    let schema = table(alloc, false)?;
    let came = rows(alloc, &[(10, 1, b'a'), (10, 2, b'a'), (9, 3, b'a')])?;
    let batch = batch_of(alloc, came, &schema)?;
    let wanted = [
        (9, 3, b'a', true),
        (10, 1, b'a', true),
        (10, 2, b'a', false),
    ];
    shows(&rt, alloc, &batch, &wanted)?;
    let old = rows(alloc, &[(10, 4, b'a'), (11, 5, b'a')])?;
    let wanted = [
        (9, 3, b'a', true),
        (10, 4, b'a', false),
        (10, 1, b'a', true),
        (10, 2, b'a', false),
        (11, 5, b'a', true),
    ];
    shows(
        &rt,
        alloc,
        &merged_rows(alloc, &old, &batch, &schema)?,
        &wanted,
    )?;
    Ok(())
}
