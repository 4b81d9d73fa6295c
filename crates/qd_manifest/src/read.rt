//! Manifests read from bytes.
ghost use Rattle.std.specs.Prelude.{◌≡◌, ℕ, ◌^◌, ◌<◌, ◌≤◌, [], ◌∷◌, ◌++◌, List, length, IfOk, IfErr};
ghost use Rattle.indexmap.specs.IndexSet.{keys};
ghost use Rattle.qd_manifest.specs.Spelling.{blocks_of, SpellsManifest};
ghost use Rattle.qd_fields.specs.Layout.{items};
ghost use Rattle.qd_fields.specs.Reading.{Gives};
ghost use Rattle.qd_manifest.specs.Layout.{table_from, manifest_from};
ghost use Rattle.qd_manifest.specs.Reading.{IsFault, IsUnspelled};

use crate::checks::may_be_next;
use crate::fault::ManifestFault;
use crate::parts::parts_from;
use crate::schema::schema_from;
use crate::shape::{BLOCKS_PER_TRANSACTION, Manifest, Shape, TableParts};
use indexmap::IndexSet;
use qd_base::MAX_TABLES;
use qd_fields::{Stop, damage, u16_at, u64_at};
use std::alloc::Global;

/// Reads the manifest of a version of `n` transactions. It is refused exactly where the bytes spell none: at the first byte
/// of the first field that breaks the layout, or at their number where bytes are missing.
///
/// It costs time linear in the bytes, on average, and logarithmic in the number of tables for each of them. No memory is
/// reserved for what the bytes don't hold.
pub fn read_manifest(alloc: Global, n: u64, bytes: &[u8]) -> Result<Manifest, ManifestFault>
    // What is read is spelled so.
    ensures spelled { IfOk result (λ m. SpellsManifest n bytes.now m) }

    // Bytes that spell a manifest are read, unless memory is wanting; what else is refused, is so at the place of the damage.
    ensures unspelled { IfErr result (λ e. IsUnspelled n bytes.now e) }
    ensures damaged { IfErr result (λ e. IsFault n bytes.now e) }
{
    match manifest_from(alloc, n, bytes) {
        Ok(manifest) => Ok(manifest),
        Err(Stop::Memory) => Err(ManifestFault::Memory),
        Err(Stop::Damage { left }) => Err(ManifestFault::Damaged {
            at: bytes.len().saturating_sub(left) as u64,
        }),
    }
}

/// All of the bytes.
#[tactic(auto, unfolding(crate::specs::Layout::manifest_from))]
fn manifest_from(alloc: Global, n: u64, bytes: &[u8]) -> Result<Manifest, Stop>
    ensures read { Gives (λ m. m) result (manifest_from n bytes.now) }
{
    let (next_block, after_next) = u64_at(bytes)?;
    if !may_be_next(n, next_block) {
        return Err(damage(bytes));
    }
    let (count, after_count) = u16_at(after_next)?;
    if MAX_TABLES < count as usize {
        return Err(damage(after_next));
    }
    let most = n as u128 * BLOCKS_PER_TRANSACTION as u128;
    let (shape, rest) = tables(alloc, count, most, next_block, after_count)?;
    if !rest.is_empty() {
        return Err(damage(rest));
    }
    Ok(Manifest { next_block, shape })
}

/// So many tables, each of at most so many rows.
fn tables(
    alloc: Global,
    count: u16,
    most: u128,
    next: u64,
    bytes: &[u8],
) -> Result<(Shape, &[u8]), Stop>
    requires few { most < 2 ^ 100 }
    ensures read { Gives (λ x. (x.0, x.1.now)) result (items (table_from most next) count [] bytes.now) }
{
    let mut named = IndexSet::new(alloc);
    let mut tables = Shape::new(alloc);
    let mut rest = bytes;
    for _ in 0..count {
        let (table, after) = table_from(alloc, most, next, &mut named, &tables, rest)?;
        tables.push(table)?;
        rest = after;
    }
    Ok((tables, rest))
}

/// A table, by those before, whose blocks are named.
#[tactic(auto, unfolding(crate::specs::Layout::table_from))]
fn table_from<'a>(
    alloc: Global,
    most: u128,
    next: u64,
    named: &mut IndexSet<u64>,
    before: &Shape,
    bytes: &'a [u8],
) -> Result<(TableParts, &'a [u8]), Stop>
    requires few { most < 2 ^ 100 }
    requires named { keys named.old ≡ blocks_of before.now }
    ensures read { Gives (λ x. (x.0, x.1.now)) result (table_from most next before.now bytes.now) }
    ensures named { IfOk result (λ x. keys named.new ≡ blocks_of (before.now ++ x.0 ∷ [])) }
{
    let (schema, after) = schema_from(alloc, before, bytes)?;
    let (parts, rest) = parts_from(alloc, most, next, named, &schema, after)?;
    Ok((TableParts { schema, parts }, rest))
}
