//! The rows of one partition: a part and its block.
ghost use Rattle.std.specs.Prelude.{◌≡◌, ◌++◌, IfOk, OnOk, map};
ghost use Rattle.std.specs.List.Sorted.{IsNonDecreasingBy};
ghost use Rattle.qd_base.specs.Lawful.{IsSchema};
ghost use Rattle.qd_memory.specs.Kept.{IsFull, IsPlace, IsSlot};

use crate::shared::SharedBlock;
use qd_base::{Memory, Part, PartList, Schema};
use qd_block::Block;
use qd_symbols::SymbolMap;
use std::alloc::Global;

/// The rows of one partition.
#[derive(Drop)]
pub(crate) struct Slot {
    /// The first moment of the partition.
    pub(crate) start: u64,
    pub(crate) part: Part,
    pub(crate) block: SharedBlock,
}

/// Keeps the block of a partition's rows, which has all of the table's columns.
pub(crate) fn slot_of(
    alloc: Global,
    schema: &Schema,
    start: u64,
    block: Block<SymbolMap>,
) -> Result<Slot, Memory>
    requires schema { IsSchema schema.now }
    requires full { IsFull schema.now start block }
    ensures slot { IfOk result (λ s. IsSlot schema.now s) }
    ensures start { IfOk result (λ s. s.start ≡ start) }
    ensures block { IfOk result (λ s. s.block ≡ block) }
{
    block.is_whole();
    let rows = block.rows();
    let cols = block.cols();
    let lo = block.time(0);
    let hi = block.time(rows - 1);
    let part = Part {
        block: 0,
        rows,
        cols,
        lo,
        hi,
    };
    let block = SharedBlock::new(alloc, block)?;
    Ok(Slot { start, part, block })
}

/// Shares slots: their blocks aren't copied.
pub(crate) fn shared_slots(alloc: Global, slots: &[Slot]) -> Result<Vec<Slot>, Memory>
    ensures same { IfOk result (λ v. v.items ≡ slots.now) }
{
    let mut copies = Vec::with_capacity(alloc, slots.len())?;
    share_slots(&mut copies, slots)?;
    Ok(copies)
}

/// Shares slots, behind others.
pub(crate) fn share_slots(copies: &mut Vec<Slot>, slots: &[Slot]) -> Result<(), Memory>
    ensures more { OnOk result (copies.new.items ≡ copies.old.items ++ slots.now) }
{
    for slot in slots {
        copies.push(shared_slot(slot)?)?;
    }
    Ok(())
}

/// Shares a slot.
fn shared_slot(slot: &Slot) -> Result<Slot, Memory>
    ensures same { IfOk result (λ s. s ≡ slot.now) }
{
    let block = slot.block.share()?;
    Ok(Slot {
        start: slot.start,
        part: slot.part,
        block,
    })
}

/// The parts of slots, in order.
pub(crate) fn parts_of(alloc: Global, slots: &[Slot]) -> Result<PartList, Memory>
    ensures parts { IfOk result (λ parts. parts ≡ map (λ s. s.part) slots.now) }
{
    let mut parts = PartList::with_capacity(alloc, slots.len())?;
    for slot in slots {
        parts.push(slot.part)?;
    }
    Ok(parts)
}

/// How many slots are of partitions before the one that starts at a moment. It takes logarithmic time.
pub(crate) fn count_before(slots: &[Slot], start: u64) -> usize
    requires { IsNonDecreasingBy (λ s. s.start) slots.now }
    ensures place { IsPlace start slots.now result }
{
    slots.partition_point(|slot| slot.start < start)
}
