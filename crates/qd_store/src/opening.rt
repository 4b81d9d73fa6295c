//! A store that is opened.
ghost use Rattle.qd_catalog.specs.Versions.{IsLive};
ghost use Rattle.qd_durable.specs.Moments.{Told};
ghost use Rattle.qd_store.specs.Faults.{CountsOpen};
ghost use Rattle.qd_store.specs.Opening.{HasFirstRow, Opens};
ghost use Rattle.qd_store.specs.Stores.{AreLimits};
ghost use Rattle.std.specs.Prelude.{◌≡◌, ℕ, IfOk, None};

use crate::book::Book;
use crate::fault::OpenFault;
use crate::mark::{MARK, is_marked};
use qd_apply::schemas_of;
use qd_base::Limits;
use qd_manifest::laws::one_manifest_is_spelled;
use qd_seq::{SeqLog, damaged_gives_none, one_list_is_given, other_files_leave_it};
use qd_sequencer::Sequencer;
use qd_txnfile::one_version_is_given;
use qd_versions::{VersionStore, damaged_gives_no_store};
use qd_volume::Volume;
use std::alloc::Global;

/// Opens the store of a volume. It costs four syncs, the log in large reads, the version files, and two calls of the volume for
/// each entry behind the version; time and memory linear in what it reads, but that entries are kept one at a time.
pub(crate) fn open<V: Volume>(
    alloc: Global,
    volume: &mut V,
    limits: Limits,
) -> Result<Book, OpenFault>
    requires limits { AreLimits limits }
    ensures limits { IfOk result (λ b. b.limits ≡ limits) }
    ensures clean { IfOk result (λ b. b.sequence.pending ≡ None) }
    ensures alone { IfOk result (λ b. (row : ℕ) → IsLive b.versions.versions row → row ≡ b.versions.versions.current) }
    ensures first { IfOk result (λ b. HasFirstRow b.versions.versions) }
    ensures told { Told (V.storage volume.old).disk (V.storage volume.new).disk (Opens result) }
    ensures counted { CountsOpen (V.storage volume.old).faults (V.storage volume.new).faults result }
{
    one_list_is_given();
    one_version_is_given();
    one_manifest_is_spelled();
    damaged_gives_none();
    damaged_gives_no_store();
    other_files_leave_it();
    if !is_marked(volume)? {
        return Err(OpenFault::NotMade);
    }
    volume.sync(MARK)?;
    let log = SeqLog::open_log(alloc, volume)?;
    let versions = VersionStore::open(alloc, volume, log.refs().len() as u64)?;
    let row = versions.current();
    let n = versions.n_of(row).unwrap_or(0);
    let schemas = schemas_of(alloc, versions.shape_of(row))?;
    let sequencer = Sequencer::over(alloc, volume, log, n, schemas)?;
    Ok(Book {
        limits,
        sequencer,
        versions,
    })
}
