//! Deduplication of a batch that lies in a block.
ghost use Rattle.std.specs.Prelude.{◌≡◌, ◌≤◌, ◌++◌, List, IfOk, OnOk, Contains, length, slice_range};
ghost use Rattle.qd_base.specs.Rows.{Row};
ghost use Rattle.qd_block.specs.Blocks.{in_time_order};
ghost use Rattle.qd_merge.specs.Batch.{batch, last_of_equals};
ghost use Rattle.qd_merge.specs.Laws.{AreKeys};
ghost use Rattle.qd_merge.specs.Outdated.{outdated};

use crate::classes::repeated;
use crate::group::{FEW, Group, classes_of_group, has_equal};
use crate::merge::{Block, spliced_block};
use crate::order::{first_later, push_kept};
use qd_base::{KeyList, Memory};
use std::alloc::Global;

/// Drops each row of a block behind which a row stands that is equal on all of the keys, as
/// [`dedup_batch`](crate::dedup_batch) does; NULL is equal to NULL. With no keys all rows stay.
///
/// Rows are compared within one time alone. It costs time and memory linear in the block's size and, for each key,
/// n log n in the number of rows that share their time with others. Want of memory is the only error.
pub fn dedup_block(alloc: Global, block: &Block, keys: &KeyList) -> Result<Block, Memory>
    requires keys { AreKeys block.now.time_col keys.now }
    ensures last { IfOk result (λ b. b ≡ record block.now { rows = last_of_equals keys.now block.now.rows }) }
    ensures of_sorted { (came : List Row) → block.now.rows ≡ in_time_order block.now.time_col came → IfOk result (λ b. b ≡ record block.now { rows = batch block.now.time_col keys.now came }) }
{
    if keys.is_empty() {
        return block.copy();
    }
    block.is_whole();
    let gone = outdated(alloc, block, keys)?;
    let mut runs = Vec::new(alloc);
    push_kept(&mut runs, gone.as_slice(), 0, gone.len())?;
    spliced_block(alloc, block, block, runs.as_slice())
}

/// For each row of a block whether a row behind it is equal to it on all of the keys.
fn outdated(alloc: Global, block: &Block, keys: &KeyList) -> Result<Vec<bool>, Memory>
    requires keys { Contains keys.now block.now.time_col }
    ensures flags { IfOk result (λ v. v.items ≡ outdated keys.now block.now.rows) }
{
    block.is_whole();
    let times = block.times();
    let mut gone = Vec::with_capacity(alloc, times.len())?;
    let mut place = 0;
    while place < times.len() {
        let end = first_later(times, place, times[place]);
        push_outdated(alloc, &mut gone, block, place, end, keys)?;
        place = end;
    }
    Ok(gone)
}

/// Adds for each of some rows whether one of them behind it is equal to it on all of the keys.
fn push_outdated(
    alloc: Global,
    gone: &mut Vec<bool>,
    block: &Block,
    from: usize,
    to: usize,
    keys: &KeyList,
) -> Result<(), Memory>
    requires ordered { from ≤ to }
    requires within { to ≤ length block.now.rows }
    ensures added { OnOk result (gone.new.items ≡ gone.old.items ++ outdated keys.now (slice_range block.now.rows from to)) }
{
    if to - from <= FEW {
        return push_compared(gone, block, from, to, keys);
    }
    let group = Group {
        block,
        from,
        to: from,
        batch: block,
        start: from,
        end: to,
    };
    let classes = classes_of_group(alloc, &group, keys)?;
    let flags = repeated(alloc, classes.as_slice())?;
    push_flags(gone, flags.as_slice())
}

/// The same, each row compared with each behind it.
fn push_compared(
    gone: &mut Vec<bool>,
    block: &Block,
    from: usize,
    to: usize,
    keys: &KeyList,
) -> Result<(), Memory>
    requires ordered { from ≤ to }
    requires within { to ≤ length block.now.rows }
    ensures added { OnOk result (gone.new.items ≡ gone.old.items ++ outdated keys.now (slice_range block.now.rows from to)) }
{
    block.is_whole();
    for place in from..to {
        let behind = Group {
            block,
            from: place,
            to: place,
            batch: block,
            start: place + 1,
            end: to,
        };
        gone.push(has_equal(&behind, place, keys))?;
    }
    Ok(())
}

/// Adds flags.
fn push_flags(gone: &mut Vec<bool>, flags: &[bool]) -> Result<(), Memory>
    ensures added { OnOk result (gone.new.items ≡ gone.old.items ++ flags.now) }
{
    for flag in flags {
        gone.push(*flag)?;
    }
    Ok(())
}
