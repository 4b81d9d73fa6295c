//! Plans of all tables, and their merge.
ghost use Rattle.std.specs.Prelude.{◌≡◌, ◌+◌, ◌^◌, ◌<◌, ◌≤◌, ◌∷◌, [], ◌++◌, All, IfOk, OnOk, drop, length, map};
ghost use Rattle.std.specs.Arc.{arc_value};
ghost use Rattle.qd_manifest.specs.Spelling.{AreParts};
ghost use Rattle.qd_merge.specs.Owners.{AreInOrder};
ghost use Rattle.qd_base.specs.declared.limits.TheConstants.{MAX_TIME as greatest};
ghost use Rattle.qd_base.specs.Lawful.{IsSchema};
ghost use Rattle.qd_apply.specs.Given.{reads};
ghost use Rattle.qd_apply.specs.Laws.{CountsParts};
ghost use Rattle.qd_apply.specs.Next.{first_counts, first_parts, rules_of};
ghost use Rattle.qd_apply.specs.Olds.{late_by, times_of};
ghost use Rattle.qd_apply.specs.Plans.{all_by, all_reads, all_writes, grown_by_all, growth_of, late_from, plan_late, shape_by, AreEarlier, ArePlanned, ArePlansOf, IsPlanOf};

use crate::batching::{TableBatch, batched};
use crate::merging::{Made, carried_out, reads_of, time_at};
use crate::olds::{Late, OldPart};
use crate::waiting::Waiting;
use qd_base::{Duplicate, Memory, Part, Schema};
use qd_manifest::{Shape, TableParts};
use qd_merge::{Block, Rules, Share, share_batch};
use std::alloc::Global;

/// A table's batch, and how it is shared out among the table's parts.
#[derive(Drop)]
pub(crate) struct Planned {
    pub(crate) schema: Schema,
    pub(crate) batch: Block,
    pub(crate) rules: Rules,
    pub(crate) shares: Vec<Share>,
}

/// Plans the merge of the rows that wait in a table: finishes its batch, and shares it out among the parts. It costs
/// the time and memory of the batch, and logarithmic time in its rows for each part and each new partition.
pub(crate) fn plan_table(
    alloc: Global,
    parts: &[Part],
    counts: &[u64],
    table: Waiting,
    split_rows: u64,
) -> Result<Planned, Memory>
    requires order { AreInOrder parts.now }
    requires parts { All (λ p. p.lo ≤ greatest) parts.now }
    requires counts { length counts.now ≡ length parts.now }
    ensures plan { IfOk result (λ p. IsPlanOf counts.now split_rows parts.now table p) }
{
    table.waits();
    let made = batched(alloc, table)?;
    let TableBatch { schema, block } = made;
    let rules = rules_of(&schema, split_rows);
    let shares = share_batch(alloc, &rules, parts, counts, block.times())?;
    Ok(Planned {
        schema,
        batch: block,
        rules,
        shares,
    })
}

/// What a table's plan goes by.
fn rules_of(schema: &Schema, split_rows: u64) -> Rules
    requires schema { IsSchema schema.now }
    ensures rules { result ≡ rules_of split_rows schema.now }
{
    Rules {
        unit: schema.unit,
        keyed: !schema.keys.is_empty(),
        cols: schema.cols.len() as u32,
        split_rows,
    }
}

/// Plans the merge of the rows that wait in each table.
pub(crate) fn plan_tables(
    alloc: Global,
    shape: &Shape,
    written: &[Vec<u64>],
    tables: Vec<Waiting>,
    split_rows: u64,
) -> Result<Vec<Planned>, Memory>
    requires parts { All (λ t. AreParts t.schema t.parts) shape.now }
    requires counts { CountsParts shape.now (map (λ c. c.items) written.now) }
    ensures plans { IfOk result (λ v. ArePlansOf (map (λ c. c.items) written.now) split_rows shape.now tables.items v.items) }
{
    let mut left = tables;
    left.reverse();
    let mut plans = Vec::new(alloc);
    while let Some(table) = left.pop() {
        let number = plans.len();
        let parts = parts_of(shape, number);
        let counts = counts_of(written, number);
        let plan = plan_table(alloc, parts, counts, table, split_rows)?;
        plans.push(plan)?;
    }
    Ok(plans)
}

/// Carries out plans on the parts of a version: gives the new tables, and adds what is written. New blocks are numbered
/// by their places, from `first` on. `given` has the parts that rows are merged into, in order.
pub(crate) fn merged_tables(
    alloc: Global,
    shape: &Shape,
    tables: &[Planned],
    given: &[OldPart],
    first: u64,
    made: &mut Made,
) -> Result<Shape, Memory>
    requires planned { ArePlanned shape.now tables.now }
    requires given { AreEarlier tables.now given.now }
    requires enough { all_reads tables.now ≤ length given.now }
    requires room { first + length made.old.blocks.items + all_writes tables.now < 2 ^ 64 }
    ensures shape { IfOk result (λ s. s ≡ shape_by shape.now tables.now (first + length made.old.blocks.items) given.now) }
    ensures blocks { IfOk result (λ _. map arc_value made.new.blocks.items ≡ map arc_value made.old.blocks.items ++ all_by tables.now given.now) }
    ensures grown { IfOk result (λ _. map growth_of made.new.grown.items ≡ map growth_of made.old.grown.items ++ grown_by_all 0 tables.now) }
{
    let mut after = Shape::new(alloc);
    let mut read = 0;
    for i in 0..tables.len() {
        let table = &tables[i];
        let end = read + reads_in(table.shares.as_slice());
        let parts = carried_out(
            alloc,
            table,
            i,
            parts_of(shape, i),
            &given[read..end],
            first,
            made,
        )?;
        let schema = table.schema.copy()?;
        after.push(TableParts { schema, parts })?;
        read = end;
    }
    Ok(after)
}

/// How many old parts shares read.
fn reads_in(shares: &[Share]) -> usize
    ensures reads { result ≡ reads shares.now }
{
    let mut count = 0;
    for share in shares {
        count += reads_of(share);
    }
    count
}

/// The parts of a version's table; a table that it doesn't have has none.
fn parts_of(shape: &Shape, table: usize) -> &[Part]
    ensures parts { result.now ≡ first_parts (drop table shape.now) }
{
    if table < shape.len() {
        shape.get(table).parts.as_slice()
    } else {
        &[]
    }
}

/// How many rows the files of the blocks of a table's parts hold; a table that there isn't has no parts.
fn counts_of(written: &[Vec<u64>], table: usize) -> &[u64]
    ensures counts { result.now ≡ first_counts (drop table (map (λ c. c.items) written.now)) }
{
    if table < written.len() {
        written[table].as_slice()
    } else {
        &[]
    }
}

/// The parts that plans merge rows into, in order of tables and parts.
pub(crate) fn late_of(alloc: Global, plans: &[Planned]) -> Result<Vec<Late>, Memory>
    ensures late { IfOk result (λ v. v.items ≡ late_from 0 plans.now) }
{
    let mut list = Vec::new(alloc);
    for i in 0..plans.len() {
        push_late(&mut list, i, &plans[i])?;
    }
    Ok(list)
}

/// Adds the parts that a plan merges rows into.
fn push_late(list: &mut Vec<Late>, table: usize, plan: &Planned) -> Result<(), Memory>
    ensures added { OnOk result (list.new.items ≡ list.old.items ++ plan_late table plan.now) }
{
    for share in plan.shares.as_slice() {
        push_share(list, table, &plan.batch, share)?;
    }
    Ok(())
}

/// Adds the part that rows of a batch are merged into by a share, where it is of one.
fn push_share(
    list: &mut Vec<Late>,
    table: usize,
    batch: &Block,
    share: &Share,
) -> Result<(), Memory>
    ensures added { OnOk result (list.new.items ≡ list.old.items ++ late_by table (times_of batch.now) (share.now ∷ [])) }
{
    match *share {
        Share::Merge { part, from, to: _ } => {
            let first = time_at(batch, from as u64);
            list.push(Late { table, part, first })?;
            Ok(())
        }
        _ => Ok(()),
    }
}
