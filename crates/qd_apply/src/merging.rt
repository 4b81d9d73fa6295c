//! Shares carried out on the parts of one table.
ghost use Rattle.std.specs.Prelude.{◌≡◌, ◌+◌, ◌-◌, ◌^◌, ◌<◌, ◌≤◌, ◌++◌, ◌∷◌, [], IfOk, OnOk, length, map, slice_index_or, slice_range};
ghost use Rattle.std.specs.Arc.{arc_value};
ghost use Rattle.std.specs.List.{AllByRecursion};
ghost use Rattle.qd_base.specs.Lawful.{IsSchema};
ghost use Rattle.qd_base.specs.declared.schema.Schema.{Schema as Table};
ghost use Rattle.qd_base.specs.Rows.{time_of};
ghost use Rattle.qd_merge.specs.Merged.{block_in};
ghost use Rattle.qd_apply.specs.Next.{in_table, new_piece};
ghost use Rattle.qd_apply.specs.Given.{all_grown_by, all_made_by, grown_by, made_by, merged_into, part_with, parts_by, parts_left, read_by, reads, staying, writes, IsBatchBlock, IsEarlier, IsOld, IsShareOf};
ghost use Rattle.qd_apply.specs.Plans.{growth_of, IsPlanned};

use crate::olds::{OldPart, Stay};
use crate::plans::Planned;
use qd_base::{Memory, Part, PartList};
use qd_block::Builder;
use qd_merge::{Block, Share, merge_blocks};
use std::alloc::{AllocError, Global};
use std::sync::Arc;

/// Rows that are put behind those of a part of a version, which shows all rows that its block's files hold.
#[derive(Drop)]
pub struct Grown {
    /// The number of the table.
    pub table: usize,
    /// The number of the part in its table.
    pub part: usize,
    /// The rows, in order of time, with the part's columns.
    pub rows: Arc<Block>,
}

/// What a merge writes: new blocks, and rows behind those of old ones.
#[derive(Drop)]
pub(crate) struct Made {
    pub(crate) blocks: Vec<Arc<Block>>,
    pub(crate) grown: Vec<Grown>,
}

/// Carries out the shares of a plan on the parts of its table: gives the new parts, and adds what is written. New blocks
/// are numbered by their places, from `first` on. `given` has the parts that rows are merged into, in order.
///
/// A part that is kept costs a copy of its record; one that is appended to, time and memory linear in the rows that it gets.
/// One that rows are merged into costs time and memory linear in these and in its rows behind those that stay.
pub(crate) fn carried_out(
    alloc: Global,
    plan: &Planned,
    table: usize,
    parts: &[Part],
    given: &[OldPart],
    first: u64,
    made: &mut Made,
) -> Result<PartList, Memory>
    requires plan { IsPlanned parts.now plan.now }
    requires given { AllByRecursion (IsOld plan.now.schema) given.now }
    requires enough { reads plan.now.shares.items ≤ length given.now }
    requires room { first + length made.old.blocks.items + writes plan.now.shares.items < 2 ^ 64 }
    ensures parts { IfOk result (λ p. p ≡ parts_by plan.now.schema parts.now plan.now.batch.rows (first + length made.old.blocks.items) plan.now.shares.items given.now) }
    ensures blocks { IfOk result (λ _. map arc_value made.new.blocks.items ≡ map arc_value made.old.blocks.items ++ all_made_by plan.now.schema plan.now.batch.rows plan.now.shares.items given.now) }
    ensures grown { IfOk result (λ _. map growth_of made.new.grown.items ≡ map growth_of made.old.grown.items ++ map (in_table table) (all_grown_by plan.now.schema plan.now.batch.rows plan.now.shares.items)) }
{
    let mut kept = PartList::with_capacity(alloc, plan.shares.len())?;
    let mut read = 0;
    for share in plan.shares.as_slice() {
        carry_out(
            alloc,
            plan,
            table,
            parts,
            share,
            &given[read..],
            first,
            &mut kept,
            made,
        )?;
        read += reads_of(share);
    }
    Ok(kept)
}

/// How many old parts a share reads.
pub(crate) fn reads_of(share: &Share) -> usize
    ensures reads { result ≡ read_by share.now }
{
    match share {
        Share::Merge {
            part: _,
            from: _,
            to: _,
        } => 1,
        _ => 0,
    }
}

/// Carries out one share: adds the parts that it leaves, and what it writes.
fn carry_out(
    alloc: Global,
    plan: &Planned,
    table: usize,
    parts: &[Part],
    share: &Share,
    given: &[OldPart],
    first: u64,
    kept: &mut PartList,
    made: &mut Made,
) -> Result<(), Memory>
    requires plan { IsPlanned parts.now plan.now }
    requires share { IsShareOf (length parts.now) share.now }
    requires given { AllByRecursion (IsOld plan.now.schema) given.now }
    requires enough { read_by share.now ≤ length given.now }
    requires room { first + length made.old.blocks.items < 2 ^ 64 }
    ensures parts { OnOk result (kept.new ≡ kept.old ++ parts_left plan.now.schema parts.now plan.now.batch.rows (first + length made.old.blocks.items) share.now given.now) }
    ensures blocks { OnOk result (map arc_value made.new.blocks.items ≡ map arc_value made.old.blocks.items ++ made_by plan.now.schema plan.now.batch.rows share.now given.now) }
    ensures grown { OnOk result (map growth_of made.new.grown.items ≡ map growth_of made.old.grown.items ++ map (in_table table) (grown_by plan.now.schema plan.now.batch.rows share.now)) }
{
    match *share {
        Share::Keep { part } => kept.push(parts[part]),
        Share::Append { part, from, to } => {
            append(alloc, plan, table, part, parts[part], from, to, kept, made)
        }
        Share::Merge { part, from, to } => {
            push_stay(kept, parts[part], given[0].stay)?;
            write(alloc, plan, &given[0].rest, from, to, first, kept, made)
        }
        Share::New { from, to } => {
            let none = Builder::new(alloc, &plan.schema.cols, plan.schema.time_col)?.finish()?;
            write(alloc, plan, &none, from, to, first, kept, made)
        }
    }
}

/// Puts rows of a plan's batch behind those of a part of a number: adds the part, and the rows.
fn append(
    alloc: Global,
    plan: &Planned,
    table: usize,
    part: usize,
    old: Part,
    from: usize,
    to: usize,
    kept: &mut PartList,
    made: &mut Made,
) -> Result<(), Memory>
    requires batch { IsBatchBlock plan.now.schema plan.now.batch }
    ensures parts { OnOk result (kept.new ≡ kept.old ++ part_with plan.now.schema old plan.now.batch.rows from to ∷ []) }
    ensures blocks { OnOk result (made.new.blocks ≡ made.old.blocks) }
    ensures grown { OnOk result (map growth_of made.new.grown.items ≡ map growth_of made.old.grown.items ++ record { table = table; part = part; rows = block_in plan.now.schema (slice_range plan.now.batch.rows from to) } ∷ []) }
{
    let rows = Arc::new(alloc, rows_within(&plan.batch, from, to)?)?;
    kept.push(appended(old, &plan.batch, from, to)?)?;
    made.grown.push(Grown { table, part, rows })?;
    Ok(())
}

/// Adds what stays of a part.
fn push_stay(kept: &mut PartList, part: Part, stay: Stay) -> Result<(), Memory>
    ensures parts { OnOk result (kept.new ≡ kept.old ++ staying part stay) }
{
    match stay {
        Stay::Nothing => Ok(()),
        Stay::First { rows, hi } => kept.push(Part { rows, hi, ..part }),
        Stay::All => kept.push(part),
    }
}

/// Writes rows of a plan's batch, merged into those of a block: adds the new block, and its part.
fn write(
    alloc: Global,
    plan: &Planned,
    old: &Block,
    from: usize,
    to: usize,
    first: u64,
    kept: &mut PartList,
    made: &mut Made,
) -> Result<(), Memory>
    requires schema { IsSchema plan.now.schema }
    requires batch { IsBatchBlock plan.now.schema plan.now.batch }
    requires block { IsEarlier plan.now.schema old.now }
    requires room { first + length made.old.blocks.items < 2 ^ 64 }
    ensures parts { OnOk result (kept.new ≡ kept.old ++ (new_piece plan.now.schema (first + length made.old.blocks.items) (merged_into plan.now.schema old.now plan.now.batch.rows from to)).part ∷ []) }
    ensures blocks { OnOk result (map arc_value made.new.blocks.items ≡ map arc_value made.old.blocks.items ++ merged_into plan.now.schema old.now plan.now.batch.rows from to ∷ []) }
    ensures grown { OnOk result (made.new.grown ≡ made.old.grown) }
{
    let rows = rows_within(&plan.batch, from, to)?;
    rows.is_whole();
    let block = merge_blocks(alloc, old, 0, &rows, &plan.schema.keys)?;
    let number = first + made.blocks.len() as u64;
    kept.push(part_of(number, &block))?;
    made.blocks.push(Arc::new(alloc, block)?)?;
    Ok(())
}

/// Copies the rows of a batch from one up to another: none where that comes before, and none behind the last.
fn rows_within(batch: &Block, from: usize, to: usize) -> Result<Block, Memory>
    ensures rows { IfOk result (λ b. b ≡ record batch.now { rows = slice_range batch.now.rows from to }) }
{
    let to = (to as u64).min(batch.rows());
    let from = (from as u64).min(to);
    batch.slice_rows(from, to)
}

/// The part of all rows and columns of a block with a number.
fn part_of(number: u64, block: &Block) -> Part
    ensures part { (s : Table) → s.time_col ≡ block.now.time_col → result ≡ (new_piece s number block.now).part }
{
    let rows = block.rows();
    Part {
        block: number,
        rows,
        cols: block.cols(),
        lo: time_at(block, 0),
        hi: time_at(block, rows.saturating_sub(1)),
    }
}

/// A part with rows of a batch behind its own. A number of rows that no file has is want of memory.
fn appended(part: Part, batch: &Block, from: usize, to: usize) -> Result<Part, Memory>
    ensures part { IfOk result (λ p. p ≡ record part { rows = part.rows + (to - from); hi = time_of batch.now.time_col (slice_index_or batch.now.rows (to - 1) []) }) }
{
    let more = to.saturating_sub(from) as u64;
    match part.rows.checked_add(more) {
        Some(rows) => Ok(Part {
            rows,
            hi: time_at(batch, to.saturating_sub(1) as u64),
            ..part
        }),
        None => Err(AllocError),
    }
}

/// The time of a row of a block; 0 where there is no such row.
pub(crate) fn time_at(block: &Block, i: u64) -> u64
    ensures time { result ≡ time_of block.now.time_col (slice_index_or block.now.rows i []) }
{
    if i < block.rows() { block.time(i) } else { 0 }
}
