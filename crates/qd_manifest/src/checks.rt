//! The rules of fields that are numbers.
ghost use Rattle.std.specs.Prelude.{◌≡◌, ◌+◌, ◌^◌, ◌<◌, ◌&&◌, ◌||◌, not, nat_eq, nat_le, slice_get};
ghost use Rattle.std.specs.List.{list_any};
ghost use Rattle.indexmap.specs.IndexSet.{keys};
ghost use Rattle.qd_manifest.specs.Rules.{may_be_next, is_time, is_timed, may_be_key, may_be_block, may_be_one, may_be_width, may_begin, may_end};

use crate::shape::BLOCKS_PER_TRANSACTION;
use indexmap::IndexSet;
use qd_base::{ColList, ColType, MAX_TIME, Part, PartUnit, Schema};
use qd_time::floor_unit;

/// Whether a number may be the next block of a version of `n` transactions.
pub(crate) fn may_be_next(n: u64, next: u64) -> bool
    ensures rule { result ≡ may_be_next n next }
{
    next as u128 <= n as u128 * BLOCKS_PER_TRANSACTION as u128
}

/// Whether a column of this number is there, and holds times.
pub(crate) fn is_time(cols: &ColList, at: u16) -> bool
    ensures rule { result ≡ is_time (slice_get cols.now at) }
{
    match cols.as_slice().get(at as usize) {
        Some(col) => col.kind == ColType::Time,
        None => false,
    }
}

/// Whether a number may be the next key of so many.
pub(crate) fn may_be_key(columns: usize, time: u16, count: u16, before: &[u32], key: u16) -> bool
    ensures rule { result ≡ may_be_key columns time count before.now key }
{
    (key as usize) < columns && may_follow(time as u32, count as usize, before, key as u32)
}

/// Whether a column may be the next key of so many: it is none of those before, and one of all is the time column.
fn may_follow(time: u32, count: usize, before: &[u32], key: u32) -> bool
    ensures rule { result ≡ (not (list_any (nat_eq key) before.now) && is_timed time count before.now key) }
{
    !is_among(before, key) && is_timed(time, count, before, key)
}

/// Whether there are more keys to come, or one of those so far is the time column.
fn is_timed(time: u32, count: usize, before: &[u32], key: u32) -> bool
    ensures rule { result ≡ is_timed time count before.now key }
{
    before.len() + 1 < count || is_time_key(time, before, key)
}

/// Whether one of the keys so far is the time column.
fn is_time_key(time: u32, before: &[u32], key: u32) -> bool
    ensures rule { result ≡ (nat_eq key time || list_any (nat_eq time) before.now) }
{
    key == time || is_among(before, time)
}

/// Whether a key is among others.
fn is_among(keys: &[u32], key: u32) -> bool
    ensures among { result ≡ list_any (nat_eq key) keys.now }
{
    keys.iter().any(|other| key == *other)
}

/// Whether a number may be the block of the next part.
pub(crate) fn may_be_block(next: u64, named: &IndexSet<u64>, block: u64) -> bool
    ensures rule { result ≡ may_be_block next (keys named.now) block }
{
    block < next && !named.contains(&block)
}

/// Whether the next part of a table that shows some rows so far may have so many more, where the table has at most `most`.
pub(crate) fn may_be_rows(most: u128, shown: u128, rows: u64) -> bool
    requires room { shown < 2 ^ 127 }
    ensures rule { result ≡ (nat_le 1 rows && nat_le (shown + rows) most) }
{
    1 <= rows && shown + rows as u128 <= most
}

/// Whether a part may have so many columns.
pub(crate) fn may_be_width(schema: &Schema, cols: u16) -> bool
    ensures rule { result ≡ may_be_width schema.now cols }
{
    schema.time_col < cols as u32 && cols as usize <= schema.cols.len()
}

/// Whether the next part may begin at a time.
pub(crate) fn may_begin(before: &[Part], lo: u64) -> bool
    ensures rule { result ≡ may_begin before.now lo }
{
    lo <= MAX_TIME && (before.is_empty() || before[before.len() - 1].hi < lo)
}

/// Whether a part of so many rows that begins at a time may end at another.
pub(crate) fn may_end(unit: PartUnit, rows: u64, lo: u64, hi: u64) -> bool
    ensures rule { result ≡ may_end unit rows lo hi }
{
    lo <= hi
        && hi <= MAX_TIME
        && floor_unit(lo, unit) == floor_unit(hi, unit)
        && may_be_one(rows, lo, hi)
}

/// Whether a part of so many rows may have these times: one row has one.
fn may_be_one(rows: u64, lo: u64, hi: u64) -> bool
    ensures rule { result ≡ may_be_one rows lo hi }
{
    rows != 1 || lo == hi
}
