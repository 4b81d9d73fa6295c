//! What a publication needs of the catalogue.
ghost use Rattle.qd_catalog.specs.Versions.{Adds, MayAdd, SameVersions, Versions, version_at};
ghost use Rattle.qd_manifest.specs.Spelling.{IsManifest, manifest_bytes};
ghost use Rattle.qd_versions.specs.Publishing.{IsFull};
ghost use Rattle.qd_versions.specs.Stores.{manifest_in};
ghost use Rattle.std.specs.Prelude.{◌≡◌, ℕ, ◌+◌, ◌^◌, ◌<◌, ◌≤◌, true, false, length, None, IfOk, IsTrue, OnOk};

use qd_base::{Memory, Txt};
use qd_catalog::{Catalog, manifest_of};
use qd_manifest::Shape;
use std::alloc::Global;

/// How many rows a catalogue has.
const ROWS: u8 = 64;

/// Whether a row is free.
pub(crate) fn has_free_row(catalog: &Catalog) -> bool
    requires rows { length catalog.now.versions ≡ 64 }
    ensures free { result ≡ true → (row : ℕ) × (row < 64) × (version_at catalog.now row ≡ None) }
    ensures full { result ≡ false → IsFull catalog.now }
{
    for row in 0..ROWS {
        if catalog.n_of(row).is_none() {
            return true;
        }
    }
    false
}

/// Takes all memory that a publication of so many new blocks needs: the bytes of the manifest, a copy of the
/// shape, and room in the catalogue.
pub(crate) fn prepare(
    alloc: Global,
    catalog: &mut Catalog,
    shape: &Shape,
    count: usize,
) -> Result<(Txt, Shape), Memory>
    requires sound { (n : ℕ) × IsManifest n (manifest_in (catalog.old.next_block + count) shape.now) }
    ensures same { SameVersions catalog.old catalog.new }
    ensures room { OnOk result (count ≤ catalog.new.spare) }
    ensures manifest { IfOk result (λ made. made.0 ≡ manifest_bytes (manifest_in (catalog.old.next_block + count) shape.now)) }
    ensures copy { IfOk result (λ made. made.1 ≡ shape.now) }
{
    let manifest = manifest_of(alloc, catalog.next_block() + count as u64, shape)?;
    let copy = shape.copy()?;
    catalog.reserve(count)?;
    Ok((manifest, copy))
}

/// Adds a version to a catalogue that has a free row.
pub(crate) fn add_row(catalog: &mut Catalog, n: u64, shape: Shape) -> u8
    requires may { MayAdd catalog.old n shape }
    requires free { (row : ℕ) × (row < 64) × (version_at catalog.old row ≡ None) }
    requires rows { length catalog.old.versions ≡ 64 }
    ensures added { Adds catalog.old catalog.new n shape result }
{
    match catalog.add_version(n, shape) {
        Ok(row) => row,
        Err(_) => unreachable!(),
    }
}
