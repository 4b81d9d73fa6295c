//! Rows of one time, of a block and of a batch, compared on keys where they lie.
ghost use Rattle.std.specs.Prelude.{◌≡◌, ◌+◌, ◌<◌, ◌≤◌, ◌++◌, [], IfOk, OnOk, length, map, replicate, slice_index_or};
ghost use Rattle.std.specs.List.{list_any};
ghost use Rattle.qd_base.specs.Rows.{cell_at, same_on};
ghost use Rattle.qd_merge.specs.Classes.{AreClasses, cell_of};
ghost use Rattle.qd_merge.specs.Equals.{firsts, seconds, rows_in, taken, IsWithin};
ghost use Rattle.qd_merge.specs.Merged.{with_missing};
ghost use Rattle.qd_merge.specs.Replaced.{stand_behind};

use crate::cells::{Lent, lent_in, lent_wide, same_cell};
use crate::classes::classes_apart;
use crate::merge::Block;
use crate::taken::push_taken;
use qd_base::{KeyList, Memory};
use std::alloc::Global;

/// Each row of a block is compared with each of a batch where one of them has no more rows than this of a time.
pub(crate) const FEW: usize = 8;

/// Rows of one time: some of a block, as wide as those of a batch, and some of the batch.
#[derive(Clone, Copy)]
pub(crate) struct Group<'a> {
    /// The block.
    pub(crate) block: &'a Block,
    /// The first of its rows.
    pub(crate) from: usize,
    /// The row behind the last.
    pub(crate) to: usize,
    /// The batch.
    pub(crate) batch: &'a Block,
    /// The first of its rows.
    pub(crate) start: usize,
    /// The row behind the last.
    pub(crate) end: usize,
}

/// Adds for each of the block's rows in a group whether one of the batch's is equal to it on all of the keys.
///
/// It costs time linear in the group's size where the block or the batch has few rows in it, else n log n for each
/// key.
pub(crate) fn push_equals(
    alloc: Global,
    gone: &mut Vec<bool>,
    group: &Group<'_>,
    keys: &KeyList,
) -> Result<(), Memory>
    requires within { IsWithin group.now }
    ensures added { OnOk result (gone.new.items ≡ gone.old.items ++ taken keys.now (firsts group.now) (seconds group.now)) }
{
    let count = group.to - group.from;
    if count <= FEW || group.end - group.start <= FEW {
        return push_compared(gone, group, keys);
    }
    let classes = classes_of_group(alloc, group, keys)?;
    push_taken(alloc, gone, classes.as_slice(), count)
}

/// The same, each of the block's rows compared with each of the batch's.
fn push_compared(gone: &mut Vec<bool>, group: &Group<'_>, keys: &KeyList) -> Result<(), Memory>
    requires within { IsWithin group.now }
    ensures added { OnOk result (gone.new.items ≡ gone.old.items ++ taken keys.now (firsts group.now) (seconds group.now)) }
{
    for place in group.from..group.to {
        gone.push(has_equal(group, place, keys))?;
    }
    Ok(())
}

/// Whether one of the batch's rows in a group is equal to a row of the block on all of the keys.
pub(crate) fn has_equal(group: &Group<'_>, place: usize, keys: &KeyList) -> bool
    requires within { IsWithin group.now }
    requires there { place < length group.now.block.now.rows }
    ensures equal { result ≡ list_any (same_on keys.now (with_missing group.now.batch.now.kinds (slice_index_or group.now.block.now.rows place []))) (seconds group.now) }
{
    for other in group.start..group.end {
        if same_rows(group.block, place, group.batch, other, keys) {
            return true;
        }
    }
    false
}

/// Whether a row of a block is equal to one of a batch on all of the keys.
fn same_rows(block: &Block, place: usize, batch: &Block, other: usize, keys: &KeyList) -> bool
    requires there { place < length block.now.rows }
    requires other { other < length batch.now.rows }
    requires narrow { length block.now.kinds ≤ length batch.now.kinds }
    ensures same { result ≡ same_on keys.now (with_missing batch.now.kinds (slice_index_or block.now.rows place [])) (slice_index_or batch.now.rows other []) }
{
    for key in keys.as_slice() {
        if !same_cell(
            lent_wide(block, place, *key, batch),
            lent_in(batch, other, *key),
        ) {
            return false;
        }
    }
    true
}

/// Numbers the classes of a group's rows that are equal on all of the keys. It costs n log n for each key.
pub(crate) fn classes_of_group(
    alloc: Global,
    group: &Group<'_>,
    keys: &KeyList,
) -> Result<Vec<usize>, Memory>
    requires within { IsWithin group.now }
    ensures classes { IfOk result (λ v. AreClasses keys.now (rows_in group.now) v.items) }
{
    let mut classes = one_class(alloc, group)?;
    for key in keys.as_slice() {
        let cells = lent_cells(alloc, group, *key)?;
        classes = classes_apart(alloc, classes.as_slice(), cells.as_slice())?;
    }
    Ok(classes)
}

/// One class for all rows of a group.
fn one_class(alloc: Global, group: &Group<'_>) -> Result<Vec<usize>, Memory>
    requires within { IsWithin group.now }
    ensures classes { IfOk result (λ v. v.items ≡ replicate (length (rows_in group.now)) 0) }
{
    let mut classes = Vec::from_elem(alloc, 0, group.to - group.from)?;
    for _ in group.start..group.end {
        classes.push(0)?;
    }
    Ok(classes)
}

/// Lends the cells that a group's rows have in a column.
fn lent_cells<'a>(alloc: Global, group: &Group<'a>, col: u32) -> Result<Vec<Lent<'a>>, Memory>
    requires within { IsWithin group.now }
    ensures cells { IfOk result (λ v. map cell_of v.items ≡ map (λ r. cell_at r col) (rows_in group.now)) }
{
    let mut cells = Vec::new(alloc);
    for place in group.from..group.to {
        cells.push(lent_wide(group.block, place, col, group.batch))?;
    }
    for place in group.start..group.end {
        cells.push(lent_in(group.batch, place, col))?;
    }
    Ok(cells)
}
