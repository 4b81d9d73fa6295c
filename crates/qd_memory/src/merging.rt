//! Batches of rows put into the partitions that they touch.
ghost use Rattle.std.specs.Prelude.{◌≡◌, ◌≢◌, ℕ, ◌+◌, ◌<◌, ◌≤◌, [], ◌∷◌, ◌++◌, IfOk, OnOk, All, drop, fold, length, slice_index_or};
ghost use Rattle.std.specs.Bool.{OnFalse, OnTrue};
ghost use Rattle.std.specs.List.{AllByRecursion};
ghost use Rattle.std.specs.List.Sorted.{IsNonDecreasing};
ghost use Rattle.qd_base.specs.declared.limits.TheConstants.{MAX_TIME as greatest};
ghost use Rattle.qd_base.specs.Lawful.{IsRowOf, IsSchema};
ghost use Rattle.qd_base.specs.Rows.{put};
ghost use Rattle.qd_time.specs.Units.{end_of, start_of, unit_of};
ghost use Rattle.qd_scan.specs.Sources.{table_rows};
ghost use Rattle.qd_merge.specs.Batch.{batch};
ghost use Rattle.qd_memory.specs.Kept.{joined, partition_of, AreSlots, HasPut, IsBatchOf, IsBegun, IsOldOf, IsPiece, IsPlace, IsSlot};

use crate::slots::{Slot, count_before, share_slots, slot_of};
use qd_base::{MAX_TIME, Memory, PartUnit, RowList, Schema};
use qd_block::{Block as Rows, Builder};
use qd_merge::{Block, dedup_block, merge_blocks};
use qd_symbols::SymbolMap;
use qd_time::{floor_unit, next_unit};
use std::alloc::Global;

/// Makes the batch of rows that wait: in order of time, without those that a later one replaces.
pub(crate) fn batch_of(
    alloc: Global,
    schema: &Schema,
    waiting: Builder<SymbolMap>,
) -> Result<Block, Memory>
    requires schema { IsSchema schema.now }
    requires begun { IsBegun schema.now waiting }
    requires fit { All (IsRowOf schema.now) waiting.rows }
    ensures batch { IfOk result (λ b. IsBatchOf schema.now b) }
    ensures rows { IfOk result (λ b. b.rows ≡ batch schema.now.time_col schema.now.keys waiting.rows) }
{
    let block = waiting.finish()?;
    let batch = dedup_block(alloc, &block, &schema.keys)?;
    batch.is_whole();
    Ok(batch)
}

/// Puts a batch into slots. Each partition that it touches gets a block made anew, all others keep theirs. It is one
/// pass over the slots and the batch; for each partition that it touches it costs time and memory linear in that one.
pub(crate) fn with_batch(
    alloc: Global,
    schema: &Schema,
    old: &[Slot],
    batch: &Block,
) -> Result<Vec<Slot>, Memory>
    requires schema { IsSchema schema.now }
    requires slots { AreSlots schema.now old.now }
    requires batch { IsBatchOf schema.now batch.now }
    ensures put { IfOk result (λ v. HasPut schema.now old.now batch.now.rows v.items) }
{
    let mut slots = Vec::with_capacity(alloc, old.len())?;
    let mut passed = 0;
    let mut from = 0;
    while from < batch.rows() {
        let to = piece_end(schema, batch, from);
        let piece = batch.slice_rows(from, to)?;
        piece.is_whole();
        passed += put_piece(alloc, schema, &mut slots, &old[passed..], &piece)?;
        from = to;
    }
    share_slots(&mut slots, &old[passed..])?;
    Ok(slots)
}

/// Finds the row behind those that lie in the partition of a row.
fn piece_end(schema: &Schema, batch: &Block, from: u64) -> u64
    requires batch { IsBatchOf schema.now batch.now }
    requires there { from < length batch.now.rows }
    ensures some { from < result }
    ensures within { result ≤ length batch.now.rows }
    ensures together { (k : ℕ) → from ≤ k → k < result → partition_of schema.now (slice_index_or batch.now.rows k []) ≡ partition_of schema.now (slice_index_or batch.now.rows from []) }
    ensures apart { result < length batch.now.rows → partition_of schema.now (slice_index_or batch.now.rows from []) < partition_of schema.now (slice_index_or batch.now.rows result []) }
{
    batch.is_whole();
    let end = end_of_partition(batch.time(from), schema.unit);
    times_before(batch.times(), end) as u64
}

/// A moment behind a partition, with no moment between them.
fn end_of_partition(time: u64, unit: PartUnit) -> u64
    requires { time ≤ greatest }
    ensures after { time < result }
    ensures end { (t : ℕ) → t ≤ greatest → t < result → t < end_of (unit_of unit) time }
    ensures later { (t : ℕ) → t ≤ greatest → result ≤ t → start_of (unit_of unit) time < start_of (unit_of unit) t }
{
    match next_unit(time, unit) {
        Some(end) => end,
        None => MAX_TIME + 1,
    }
}

/// How many times are before a moment. It takes logarithmic time.
fn times_before(times: &[u64], moment: u64) -> usize
    requires { IsNonDecreasing times.now }
    ensures within { result ≤ length times.now }
    ensures before { (k : ℕ) → k < result → slice_index_or times.now k 0 < moment }
    ensures behind { (k : ℕ) → result ≤ k → k < length times.now → moment ≤ slice_index_or times.now k 0 }
{
    times.partition_point(|time| *time < moment)
}

/// Adds the later slots up to a partition, and the one of the partition with more rows. It gives the number of the later
/// slots that are passed.
fn put_piece(
    alloc: Global,
    schema: &Schema,
    slots: &mut Vec<Slot>,
    later: &[Slot],
    piece: &Block,
) -> Result<usize, Memory>
    requires schema { IsSchema schema.now }
    requires slots { AreSlots schema.now (slots.old.items ++ later.now) }
    requires piece { IsPiece schema.now piece.now }
    requires before { AllByRecursion (λ x. x.start < partition_of schema.now (slice_index_or piece.now.rows 0 [])) slots.old.items }
    ensures within { IfOk result (λ n. n ≤ length later.now) }
    ensures put { IfOk result (λ n. HasPut schema.now (slots.old.items ++ later.now) piece.now.rows (slots.new.items ++ drop n later.now)) }
    ensures last { OnOk result (AllByRecursion (λ x. x.start ≤ partition_of schema.now (slice_index_or piece.now.rows 0 [])) slots.new.items) }
{
    let start = floor_unit(piece.time(0), schema.unit);
    let at = count_before(later, start);
    if starts_at(later, at, start) {
        put_in(alloc, schema, slots, later, at, piece)?;
        return Ok(at + 1);
    }
    put_new(alloc, schema, slots, later, at, piece)?;
    Ok(at)
}

/// Whether there is a slot at a place that starts at a moment.
fn starts_at(slots: &[Slot], at: usize, start: u64) -> bool
    ensures there { OnTrue result (at < length slots.now) }
    ensures same { OnTrue result ((d : Slot) → (slice_index_or slots.now at d).start ≡ start) }
    ensures other { OnFalse result ((d : Slot) → at < length slots.now → (slice_index_or slots.now at d).start ≢ start) }
{
    if slots.len() <= at {
        return false;
    }
    slots[at].start == start
}

/// Adds the later slots up to one, and that one with more rows of its partition.
fn put_in(
    alloc: Global,
    schema: &Schema,
    slots: &mut Vec<Slot>,
    later: &[Slot],
    at: usize,
    piece: &Block,
) -> Result<(), Memory>
    requires schema { IsSchema schema.now }
    requires slots { AreSlots schema.now (slots.old.items ++ later.now) }
    requires piece { IsPiece schema.now piece.now }
    requires there { at < length later.now }
    requires start { (d : Slot) → (slice_index_or later.now at d).start ≡ partition_of schema.now (slice_index_or piece.now.rows 0 []) }
    requires place { IsPlace (partition_of schema.now (slice_index_or piece.now.rows 0 [])) later.now at }
    requires before { AllByRecursion (λ x. x.start < partition_of schema.now (slice_index_or piece.now.rows 0 [])) slots.old.items }
    ensures put { OnOk result (HasPut schema.now (slots.old.items ++ later.now) piece.now.rows (slots.new.items ++ drop (at + 1) later.now)) }
    ensures last { OnOk result (AllByRecursion (λ x. x.start ≤ partition_of schema.now (slice_index_or piece.now.rows 0 [])) slots.new.items) }
{
    share_slots(slots, &later[..at])?;
    let old = &later[at];
    let slot = grown(alloc, schema, old.start, old.block.get(), piece)?;
    slots.push(slot)?;
    Ok(())
}

/// Adds the later slots up to a place, and one of a partition that has none yet.
fn put_new(
    alloc: Global,
    schema: &Schema,
    slots: &mut Vec<Slot>,
    later: &[Slot],
    at: usize,
    piece: &Block,
) -> Result<(), Memory>
    requires schema { IsSchema schema.now }
    requires slots { AreSlots schema.now (slots.old.items ++ later.now) }
    requires piece { IsPiece schema.now piece.now }
    requires place { IsPlace (partition_of schema.now (slice_index_or piece.now.rows 0 [])) later.now at }
    requires none { (d : Slot) → at < length later.now → (slice_index_or later.now at d).start ≢ partition_of schema.now (slice_index_or piece.now.rows 0 []) }
    requires before { AllByRecursion (λ x. x.start < partition_of schema.now (slice_index_or piece.now.rows 0 [])) slots.old.items }
    ensures put { OnOk result (HasPut schema.now (slots.old.items ++ later.now) piece.now.rows (slots.new.items ++ drop at later.now)) }
    ensures last { OnOk result (AllByRecursion (λ x. x.start ≤ partition_of schema.now (slice_index_or piece.now.rows 0 [])) slots.new.items) }
{
    share_slots(slots, &later[..at])?;
    let none: Block = Rows::from_rows(alloc, &schema.cols, schema.time_col, &RowList::new(alloc))?;
    let start = floor_unit(piece.time(0), schema.unit);
    let slot = grown(alloc, schema, start, &none, piece)?;
    slots.push(slot)?;
    Ok(())
}

/// Makes the slot of a partition: its old rows, with new ones merged into them.
fn grown(
    alloc: Global,
    schema: &Schema,
    start: u64,
    old: &Block,
    piece: &Block,
) -> Result<Slot, Memory>
    requires schema { IsSchema schema.now }
    requires old { IsOldOf schema.now start old.now }
    requires piece { IsPiece schema.now piece.now }
    requires start { start ≡ partition_of schema.now (slice_index_or piece.now.rows 0 []) }
    ensures slot { IfOk result (λ s. IsSlot schema.now s) }
    ensures start { IfOk result (λ s. s.start ≡ start) }
    ensures rows { IfOk result (λ s. joined schema.now.cols (s ∷ []) ≡ fold (put schema.now.time_col schema.now.keys) (table_rows schema.now.cols old.now) piece.now.rows) }
{
    old.is_whole();
    let merged = merge_blocks(alloc, old, 0, piece, &schema.keys)?;
    merged.is_whole();
    slot_of(alloc, schema, start, merged)
}
