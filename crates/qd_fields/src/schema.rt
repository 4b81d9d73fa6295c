//! Schemas, of whatever names, columns and keys.
ghost use Rattle.std.specs.Prelude.{◌≡◌, ◌^◌, ◌<◌, ◌++◌, [], length, All, OnOk};
ghost use Rattle.std.specs.List.{flat_map};
ghost use Rattle.std.specs.Int.{w16};
ghost use Rattle.qd_fields.specs.Spelling.{u16_bytes, column_bytes, keys_bytes, schema_bytes, FitsColumn, FitsKeys, FitsSchema};
ghost use Rattle.qd_fields.specs.Layout.{items, each, listed, number_at, column_at, keys_at, schema_at};
ghost use Rattle.qd_fields.specs.Reading.{Gives};

use crate::codes::{kind_at, push_kind, push_unit, unit_at};
use crate::numbers::{push_u16, u16_at};
use crate::stop::Stop;
use crate::texts::{name_at, push_name};
use qd_base::{Col, ColList, KeyList, Memory, Schema, Txt};
use std::alloc::Global;

/// Reads a schema, of whatever names, columns and keys: whether it may be a table's is not judged. Damage is where bytes are
/// missing, or at a code that stands for nothing.
///
/// It costs time and memory linear in the bytes, and what `NamedList::push` costs for each column. No memory is reserved for
/// what the bytes don't hold.
#[tactic(auto, unfolding(crate::specs::Layout::schema_at))]
pub fn schema_at(alloc: Global, bytes: &[u8]) -> Result<(Schema, &[u8]), Stop>
    ensures read { Gives (λ x. (x.0, x.1.now)) result (schema_at bytes.now) }
{
    let (name, rest) = name_at(bytes)?;
    let name = Txt::from_bytes(alloc, name)?;
    let (cols, rest) = columns_at(alloc, rest)?;
    let (time, rest) = u16_at(rest)?;
    let (unit, rest) = unit_at(rest)?;
    let (keys, rest) = keys_at(alloc, rest)?;
    let schema = Schema {
        name,
        cols,
        time_col: time as u32,
        unit,
        keys,
    };
    Ok((schema, rest))
}

/// Reads a column, of whatever name. Damage is where bytes are missing, or at a code that is no type's.
#[tactic(auto, unfolding(crate::specs::Layout::column_at))]
pub fn column_at(alloc: Global, bytes: &[u8]) -> Result<(Col, &[u8]), Stop>
    ensures read { Gives (λ x. (x.0, x.1.now)) result (column_at bytes.now) }
{
    let (kind, rest) = kind_at(bytes)?;
    let (name, rest) = name_at(rest)?;
    let name = Txt::from_bytes(alloc, name)?;
    Ok((Col { name, kind }, rest))
}

/// Adds a schema whose parts are short enough for their fields.
#[tactic(auto, unfolding(crate::specs::Spelling::schema_bytes))]
pub fn push_schema(bytes: &mut Vec<u8>, schema: &Schema) -> Result<(), Memory>
    requires fits { FitsSchema schema.now }
    ensures bytes { OnOk result (bytes.new.items ≡ bytes.old.items ++ schema_bytes schema.now) }
{
    push_name(bytes, schema.name.bytes())?;
    push_columns(bytes, schema.cols.as_slice())?;
    push_u16(bytes, schema.time_col as u16)?;
    push_unit(bytes, schema.unit)?;
    push_keys(bytes, schema.keys.as_slice())
}

/// Adds a column whose name is short enough for its field.
#[tactic(auto, unfolding(crate::specs::Spelling::column_bytes))]
pub fn push_column(bytes: &mut Vec<u8>, col: &Col) -> Result<(), Memory>
    requires fits { FitsColumn col.now }
    ensures bytes { OnOk result (bytes.new.items ≡ bytes.old.items ++ column_bytes col.now) }
{
    push_kind(bytes, col.kind)?;
    push_name(bytes, col.name.bytes())
}

/// The columns behind their number.
fn columns_at(alloc: Global, bytes: &[u8]) -> Result<(ColList, &[u8]), Stop>
    ensures read { Gives (λ x. (x.0, x.1.now)) result (listed column_at bytes.now) }
{
    let (count, rest) = u16_at(bytes)?;
    columns(alloc, count, rest)
}

/// So many columns.
fn columns(alloc: Global, count: u16, bytes: &[u8]) -> Result<(ColList, &[u8]), Stop>
    ensures read { Gives (λ x. (x.0, x.1.now)) result (items (each column_at) count [] bytes.now) }
{
    let mut cols = ColList::new(alloc);
    let mut rest = bytes;
    for _ in 0..count {
        let (col, after) = column_at(alloc, rest)?;
        cols.push(col)?;
        rest = after;
    }
    Ok((cols, rest))
}

/// Reads keys behind their number, of whatever columns. Damage is where bytes are missing.
///
/// It costs time and memory linear in the bytes. No memory is reserved for what the bytes don't hold.
pub fn keys_at(alloc: Global, bytes: &[u8]) -> Result<(KeyList, &[u8]), Stop>
    ensures read { Gives (λ x. (x.0, x.1.now)) result (keys_at bytes.now) }
{
    let (count, rest) = u16_at(bytes)?;
    keys(alloc, count, rest)
}

/// So many keys.
fn keys(alloc: Global, count: u16, bytes: &[u8]) -> Result<(KeyList, &[u8]), Stop>
    ensures read { Gives (λ x. (x.0, x.1.now)) result (items (each (number_at w16)) count [] bytes.now) }
{
    let mut keys = KeyList::new(alloc);
    let mut rest = bytes;
    for _ in 0..count {
        let (key, after) = u16_at(rest)?;
        keys.push(key as u32)?;
        rest = after;
    }
    Ok((keys, rest))
}

/// Adds the number of columns, and the columns.
fn push_columns(bytes: &mut Vec<u8>, cols: &[Col]) -> Result<(), Memory>
    requires few { length cols.now < 2 ^ 16 }
    requires fit { All FitsColumn cols.now }
    ensures bytes { OnOk result (bytes.new.items ≡ bytes.old.items ++ (u16_bytes (length cols.now) ++ flat_map column_bytes cols.now)) }
{
    push_u16(bytes, cols.len() as u16)?;
    for col in cols {
        push_column(bytes, col)?;
    }
    Ok(())
}

/// Adds the number of keys, and the keys, where they are few enough and small enough for their fields.
pub fn push_keys(bytes: &mut Vec<u8>, keys: &[u32]) -> Result<(), Memory>
    requires fits { FitsKeys keys.now }
    ensures bytes { OnOk result (bytes.new.items ≡ bytes.old.items ++ keys_bytes keys.now) }
{
    push_u16(bytes, keys.len() as u16)?;
    for key in keys {
        push_u16(bytes, *key as u16)?;
    }
    Ok(())
}
