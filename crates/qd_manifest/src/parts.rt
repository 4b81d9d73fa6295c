//! The parts of tables read from bytes.
ghost use Rattle.std.specs.Prelude.{◌≡◌, ◌+◌, ◌^◌, ◌<◌, ◌≤◌, [], ◌++◌, IfOk};
ghost use Rattle.indexmap.specs.IndexSet.{keys};
ghost use Rattle.qd_manifest.specs.Spelling.{blocks_in, rows_shown};
ghost use Rattle.qd_fields.specs.Layout.{items};
ghost use Rattle.qd_fields.specs.Reading.{Gives};
ghost use Rattle.qd_manifest.specs.Layout.{part_from, part_in, parts_from};

use crate::checks::{may_be_block, may_be_rows, may_be_width, may_begin, may_end};
use indexmap::IndexSet;
use qd_base::{Part, PartList, Schema};
use qd_fields::{Stop, damage, u16_at, u64_at};
use std::alloc::Global;

/// The parts of a table of at most so many rows. Their blocks are put to those that tables before it name.
#[tactic(auto, unfolding(crate::specs::Layout::parts_from))]
pub(crate) fn parts_from<'a>(
    alloc: Global,
    most: u128,
    next: u64,
    named: &mut IndexSet<u64>,
    schema: &Schema,
    bytes: &'a [u8],
) -> Result<(PartList, &'a [u8]), Stop>
    requires few { most < 2 ^ 100 }
    ensures read { Gives (λ x. (x.0, x.1.now)) result (parts_from most next (keys named.old) schema.now bytes.now) }
    ensures named { IfOk result (λ x. keys named.new ≡ keys named.old ++ blocks_in x.0) }
{
    let (count, rest) = u64_at(bytes)?;
    parts(alloc, count, most, next, named, schema, rest)
}

/// So many parts.
fn parts<'a>(
    alloc: Global,
    count: u64,
    most: u128,
    next: u64,
    named: &mut IndexSet<u64>,
    schema: &Schema,
    bytes: &'a [u8],
) -> Result<(PartList, &'a [u8]), Stop>
    requires few { most < 2 ^ 100 }
    ensures read { Gives (λ x. (x.0, x.1.now)) result (items (part_in most next (keys named.old) schema.now) count [] bytes.now) }
    ensures named { IfOk result (λ x. keys named.new ≡ keys named.old ++ blocks_in x.0) }
{
    let mut parts = PartList::new(alloc);
    let mut shown = 0u128;
    let mut rest = bytes;
    for _ in 0..count {
        let (part, after) = part_from(most, shown, next, named, schema, parts.as_slice(), rest)?;
        shown += part.rows as u128;
        named.insert(part.block)?;
        parts.push(part)?;
        rest = after;
    }
    Ok((parts, rest))
}

/// A part, by the blocks that are taken and by the parts before, which show so many rows.
#[tactic(auto, unfolding(crate::specs::Layout::part_from))]
fn part_from<'a>(
    most: u128,
    shown: u128,
    next: u64,
    taken: &IndexSet<u64>,
    schema: &Schema,
    before: &[Part],
    bytes: &'a [u8],
) -> Result<(Part, &'a [u8]), Stop>
    requires shown { shown ≡ rows_shown before.now }
    requires room { shown < 2 ^ 127 }
    ensures read { Gives (λ x. (x.0, x.1.now)) result (part_from most next (keys taken.now) schema.now before.now bytes.now) }
    ensures few { IfOk result (λ x. shown + x.0.rows ≤ most) }
{
    let (block, after_block) = u64_at(bytes)?;
    if !may_be_block(next, taken, block) {
        return Err(damage(bytes));
    }
    let (rows, after_rows) = u64_at(after_block)?;
    if !may_be_rows(most, shown, rows) {
        return Err(damage(after_block));
    }
    let (cols, after_cols) = u16_at(after_rows)?;
    if !may_be_width(schema, cols) {
        return Err(damage(after_rows));
    }
    let (lo, after_lo) = u64_at(after_cols)?;
    if !may_begin(before, lo) {
        return Err(damage(after_cols));
    }
    let (hi, rest) = u64_at(after_lo)?;
    if !may_end(schema.unit, rows, lo, hi) {
        return Err(damage(after_lo));
    }
    let part = Part {
        block,
        rows,
        cols: cols as u32,
        lo,
        hi,
    };
    Ok((part, rest))
}
