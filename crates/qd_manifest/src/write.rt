//! Manifests as bytes.
ghost use Rattle.std.specs.Prelude.{◌≡◌, ℕ, ◌++◌, length, All, OnOk, IfOk};
ghost use Rattle.std.specs.List.{flat_map};
ghost use Rattle.qd_fields.specs.Spelling.{u16_bytes, u64_bytes};
ghost use Rattle.qd_manifest.specs.Spelling.{part_bytes, table_bytes, manifest_bytes, IsManifest};
ghost use Rattle.qd_manifest.specs.Writing.{FitsPart, FitsTable, FitsShape};

use crate::shape::{Shape, TableParts};
use qd_base::{Memory, Part, Txt};
use qd_fields::{push_schema, push_u16, push_u64};
use std::alloc::Global;

/// Gives the bytes of a manifest that has a spelling for some number of transactions. It costs time and memory linear in
/// them.
#[tactic(auto, unfolding(crate::specs::Spelling::manifest_bytes))]
pub fn manifest_of(alloc: Global, next_block: u64, shape: &Shape) -> Result<Txt, Memory>
    requires { (n : ℕ) × IsManifest n (record { next_block = next_block; shape = shape.now }) }
    ensures bytes { IfOk result (λ bytes. bytes ≡ manifest_bytes (record { next_block = next_block; shape = shape.now })) }
{
    let mut bytes = Vec::new(alloc);
    push_u64(&mut bytes, next_block)?;
    push_tables(&mut bytes, shape.as_slice())?;
    Ok(Txt::from_vec(bytes))
}

/// Adds the number of tables, and the tables.
fn push_tables(bytes: &mut Vec<u8>, tables: &[TableParts]) -> Result<(), Memory>
    requires fits { FitsShape tables.now }
    ensures bytes { OnOk result (bytes.new.items ≡ bytes.old.items ++ (u16_bytes (length tables.now) ++ flat_map table_bytes tables.now)) }
{
    push_u16(bytes, tables.len() as u16)?;
    for table in tables {
        push_table(bytes, table)?;
    }
    Ok(())
}

/// Adds a table.
#[tactic(auto, unfolding(crate::specs::Spelling::table_bytes))]
fn push_table(bytes: &mut Vec<u8>, table: &TableParts) -> Result<(), Memory>
    requires fits { FitsTable table.now }
    ensures bytes { OnOk result (bytes.new.items ≡ bytes.old.items ++ table_bytes table.now) }
{
    push_schema(bytes, &table.schema)?;
    push_parts(bytes, table.parts.as_slice())
}

/// Adds the number of parts, and the parts.
fn push_parts(bytes: &mut Vec<u8>, parts: &[Part]) -> Result<(), Memory>
    requires fit { All FitsPart parts.now }
    ensures bytes { OnOk result (bytes.new.items ≡ bytes.old.items ++ (u64_bytes (length parts.now) ++ flat_map part_bytes parts.now)) }
{
    push_u64(bytes, parts.len() as u64)?;
    for part in parts {
        push_part(bytes, part)?;
    }
    Ok(())
}

/// Adds a part.
#[tactic(auto, unfolding(crate::specs::Spelling::part_bytes))]
fn push_part(bytes: &mut Vec<u8>, part: &Part) -> Result<(), Memory>
    requires fits { FitsPart part.now }
    ensures bytes { OnOk result (bytes.new.items ≡ bytes.old.items ++ part_bytes part.now) }
{
    push_u64(bytes, part.block)?;
    push_u64(bytes, part.rows)?;
    push_u16(bytes, part.cols as u16)?;
    push_times(bytes, part.lo, part.hi)
}

/// Adds the first and the last time of a part.
fn push_times(bytes: &mut Vec<u8>, lo: u64, hi: u64) -> Result<(), Memory>
    ensures bytes { OnOk result (bytes.new.items ≡ bytes.old.items ++ (u64_bytes lo ++ u64_bytes hi)) }
{
    push_u64(bytes, lo)?;
    push_u64(bytes, hi)
}
