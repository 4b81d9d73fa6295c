//! Which rows of a block the rows of a batch replace.
ghost use Rattle.std.specs.Prelude.{◌≡◌, ◌<◌, ◌≤◌, ◌++◌, false, IfOk, OnOk, Contains, length, replicate};
ghost use Rattle.qd_merge.specs.Laws.{AreKeys};
ghost use Rattle.qd_merge.specs.Replaced.{flags_of, FlagsSoFar};

use crate::group::{Group, push_equals};
use crate::merge::Block;
use crate::order::{first_from, first_later};
use qd_base::{KeyList, Memory};
use std::alloc::Global;

/// For each row of a block whether a row of the batch is equal to it on all of the keys, a column that the block lacks
/// being NULL in its rows, or false. With no keys no row is.
///
/// Rows are compared within one time alone. It costs time linear in the number of rows, and n log n for each key in
/// that of the rows whose time is in both blocks.
pub(crate) fn replaced(
    alloc: Global,
    old: &Block,
    batch: &Block,
    keys: &KeyList,
) -> Result<Vec<bool>, Memory>
    requires keys { AreKeys batch.now.time_col keys.now }
    requires time_col { old.now.time_col ≡ batch.now.time_col }
    requires narrow { length old.now.kinds ≤ length batch.now.kinds }
    ensures flags { IfOk result (λ v. v.items ≡ flags_of keys.now batch.now.kinds batch.now.rows old.now.rows) }
{
    let rows = old.rows() as usize;
    if keys.is_empty() {
        return Vec::from_elem(alloc, false, rows);
    }
    old.is_whole();
    let coming = batch.rows() as usize;
    let mut gone = Vec::with_capacity(alloc, rows)?;
    let mut place = 0;
    while place < coming {
        place = push_group(alloc, &mut gone, old, batch, place, keys)?;
    }
    let left = rows - gone.len();
    push_false(&mut gone, left)?;
    Ok(gone)
}

/// Adds the flags of the rows that are no later than the batch's next row, and gives the place of the batch's first
/// row of a later time.
fn push_group(
    alloc: Global,
    gone: &mut Vec<bool>,
    old: &Block,
    batch: &Block,
    place: usize,
    keys: &KeyList,
) -> Result<usize, Memory>
    requires there { place < length batch.now.rows }
    requires keys { Contains keys.now batch.now.time_col }
    requires time_col { old.now.time_col ≡ batch.now.time_col }
    requires narrow { length old.now.kinds ≤ length batch.now.kinds }
    requires so_far { FlagsSoFar batch.now.time_col keys.now batch.now.kinds batch.now.rows old.now.rows place gone.old.items }
    ensures further { IfOk result (λ end. place < end) }
    ensures within { IfOk result (λ end. end ≤ length batch.now.rows) }
    ensures so_far { IfOk result (λ end. FlagsSoFar batch.now.time_col keys.now batch.now.kinds batch.now.rows old.now.rows end gone.new.items) }
{
    old.is_whole();
    batch.is_whole();
    let moments = old.times();
    let coming = batch.times();
    let time = coming[place];
    let end = first_later(coming, place, time);
    let from = first_from(moments, gone.len(), time);
    let to = first_later(moments, from, time);
    let left = from - gone.len();
    push_false(gone, left)?;
    if from < to {
        let group = Group {
            block: old,
            from,
            to,
            batch,
            start: place,
            end,
        };
        push_equals(alloc, gone, &group, keys)?;
    }
    Ok(end)
}

/// Adds flags that aren't set.
fn push_false(gone: &mut Vec<bool>, count: usize) -> Result<(), Memory>
    ensures added { OnOk result (gone.new.items ≡ gone.old.items ++ replicate count false) }
{
    for _ in 0..count {
        gone.push(false)?;
    }
    Ok(())
}
