//! Schemas read from bytes.
ghost use Rattle.std.specs.Prelude.{◌≡◌, [], length};
ghost use Rattle.qd_fields.specs.Layout.{items};
ghost use Rattle.qd_fields.specs.Reading.{Gives};
ghost use Rattle.qd_manifest.specs.Layout.{column_from, columns_from, key_from, keys_from, schema_from};

use crate::checks::{is_time, may_be_key};
use crate::names::{may_be_column, may_be_table};
use crate::shape::Shape;
use qd_base::{Col, ColList, KeyList, MAX_COLUMNS, Schema, Txt};
use qd_fields::{Stop, damage, kind_at, name_at, u16_at, unit_at};
use std::alloc::Global;

/// A schema, by the tables before.
#[tactic(auto, unfolding(crate::specs::Layout::schema_from))]
pub(crate) fn schema_from<'a>(
    alloc: Global,
    before: &Shape,
    bytes: &'a [u8],
) -> Result<(Schema, &'a [u8]), Stop>
    ensures read { Gives (λ x. (x.0, x.1.now)) result (schema_from before.now bytes.now) }
{
    let (name, after_name) = name_at(bytes)?;
    if !may_be_table(before, name) {
        return Err(damage(bytes));
    }
    let name = Txt::from_bytes(alloc, name)?;
    let (cols, after_cols) = columns_from(alloc, after_name)?;
    let (time, after_time) = u16_at(after_cols)?;
    if !is_time(&cols, time) {
        return Err(damage(after_cols));
    }
    let (unit, after_unit) = unit_at(after_time)?;
    let (keys, rest) = keys_from(alloc, cols.len(), time, after_unit)?;
    let schema = Schema {
        name,
        cols,
        time_col: time as u32,
        unit,
        keys,
    };
    Ok((schema, rest))
}

/// The columns of a schema.
#[tactic(auto, unfolding(crate::specs::Layout::columns_from))]
fn columns_from(alloc: Global, bytes: &[u8]) -> Result<(ColList, &[u8]), Stop>
    ensures read { Gives (λ x. (x.0, x.1.now)) result (columns_from bytes.now) }
{
    let (count, rest) = u16_at(bytes)?;
    if MAX_COLUMNS < count as usize {
        return Err(damage(bytes));
    }
    columns(alloc, count, rest)
}

/// So many columns.
fn columns(alloc: Global, count: u16, bytes: &[u8]) -> Result<(ColList, &[u8]), Stop>
    ensures read { Gives (λ x. (x.0, x.1.now)) result (items column_from count [] bytes.now) }
{
    let mut cols = ColList::new(alloc);
    let mut rest = bytes;
    for _ in 0..count {
        let (col, after) = column_from(alloc, &cols, rest)?;
        cols.push(col)?;
        rest = after;
    }
    Ok((cols, rest))
}

/// A column, by those before.
#[tactic(auto, unfolding(crate::specs::Layout::column_from))]
fn column_from<'a>(
    alloc: Global,
    before: &ColList,
    bytes: &'a [u8],
) -> Result<(Col, &'a [u8]), Stop>
    ensures read { Gives (λ x. (x.0, x.1.now)) result (column_from before.now bytes.now) }
{
    let (kind, after) = kind_at(bytes)?;
    let (name, rest) = name_at(after)?;
    if !may_be_column(before, name) {
        return Err(damage(after));
    }
    let name = Txt::from_bytes(alloc, name)?;
    Ok((Col { name, kind }, rest))
}

/// The keys of a schema, by the number of its columns and its time column.
#[tactic(auto, unfolding(crate::specs::Layout::keys_from))]
fn keys_from(
    alloc: Global,
    columns: usize,
    time: u16,
    bytes: &[u8],
) -> Result<(KeyList, &[u8]), Stop>
    ensures read { Gives (λ x. (x.0, x.1.now)) result (keys_from columns time bytes.now) }
{
    let (count, rest) = u16_at(bytes)?;
    keys(alloc, columns, time, count, rest)
}

/// So many keys.
fn keys(
    alloc: Global,
    columns: usize,
    time: u16,
    count: u16,
    bytes: &[u8],
) -> Result<(KeyList, &[u8]), Stop>
    ensures read { Gives (λ x. (x.0, x.1.now)) result (items (key_from columns time count) count [] bytes.now) }
{
    let mut keys = KeyList::new(alloc);
    let mut rest = bytes;
    for _ in 0..count {
        let (key, after) = key_from(columns, time, count, keys.as_slice(), rest)?;
        keys.push(key as u32)?;
        rest = after;
    }
    Ok((keys, rest))
}

/// A key among so many, by those before.
#[tactic(auto, unfolding(crate::specs::Layout::key_from))]
fn key_from<'a>(
    columns: usize,
    time: u16,
    count: u16,
    before: &[u32],
    bytes: &'a [u8],
) -> Result<(u16, &'a [u8]), Stop>
    ensures read { Gives (λ x. (x.0, x.1.now)) result (key_from columns time count before.now bytes.now) }
{
    let (key, rest) = u16_at(bytes)?;
    if !may_be_key(columns, time, count, before, key) {
        return Err(damage(bytes));
    }
    Ok((key, rest))
}
