//! The version that a store is opened with.
ghost use Rattle.qd_catalog.specs.Versions as catalog;
ghost use Rattle.qd_durable.specs.declared.fault.LogFault.TheVariants as fault;
ghost use Rattle.qd_manifest.specs.declared.shape.Manifest.{Manifest};
ghost use Rattle.qd_manifest.specs.Spelling.{SpellsManifest};
ghost use Rattle.qd_versions.specs.Opening.{IsRefused};
ghost use Rattle.std.specs.Prelude.{◌≡◌, ℕ, ◌<◌, ◌≤◌, IfErr, IfOk, OnErr, OnOk};

use qd_catalog::{CatFault, Catalog};
use qd_durable::LogFault;
use std::alloc::Global;

/// How many bytes stand before the manifest in a version file.
const HEAD: u64 = 17;

/// The catalogue of the version that a file gives: one that shows at most so many transactions, and whose
/// manifest is spelled.
pub(crate) fn catalog_of(
    alloc: Global,
    file: u64,
    n: u64,
    manifest: &[u8],
    records: u64,
) -> Result<Catalog, LogFault>
    ensures shown { OnOk result (n ≤ records) }
    ensures opened { IfOk result (λ c. (m : Manifest) × SpellsManifest n manifest.now m × catalog.IsOpened c n m.next_block m.shape) }
    ensures refused { IfErr result (λ e. IsRefused file n manifest.now records e) }
{
    if records < n {
        return Err(LogFault::Damaged { file, at: 1 });
    }
    match Catalog::from_manifest(alloc, n, manifest) {
        Ok(catalog) => Ok(catalog),
        Err(CatFault::Memory) => Err(LogFault::Memory),
        Err(CatFault::Damaged { at }) => Err(LogFault::Damaged {
            file,
            at: HEAD + at,
        }),
    }
}
