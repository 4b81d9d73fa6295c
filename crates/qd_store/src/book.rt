//! What a store keeps beside its volume.
ghost use Rattle.qd_catalog.specs.Versions.{IsLive};
ghost use Rattle.qd_durable.specs.Moments.{Told};
ghost use Rattle.qd_io.specs.Ends.{Counts};
ghost use Rattle.qd_store.specs.Calls.{Creates};
ghost use Rattle.qd_store.specs.Opening.{HasFirstRow};
ghost use Rattle.qd_store.specs.Stores.{AreLimits, IsBook};
ghost use Rattle.qd_versions.specs.Stores as versions;
ghost use Rattle.std.specs.Prelude.{◌≡◌, ℕ, [], IfOk, None};

use crate::mark::write_mark;
use qd_base::Limits;
use qd_io::IoFault;
use qd_sequencer::{Sequencer, other_files_leave_the_sequence};
use qd_versions::VersionStore;
use qd_volume::Volume;
use std::alloc::Global;
use std::marker::Model;

/// The sequencer, which commits transactions, and the versions that show them, of one volume that is handed to each call.
#[derive(Drop)]
pub(crate) struct Book {
    pub(crate) limits: Limits,
    pub(crate) sequencer: Sequencer,
    pub(crate) versions: VersionStore,
}

impl Model for Book {
    ghost use Rattle.qd_store.specs.Stores.{Book, IsBook};

    ghost Value = { Book };

    ghost view = { λ b. record { sequence = b.sequencer; versions = b.versions; limits = b.limits } };

    ghost invariant = { λ b. IsBook (record { sequence = b.sequencer; versions = b.versions; limits = b.limits }) };
}

impl Book {
    /// Makes a store without a transaction on a volume without a store. It costs five writes and four syncs.
    pub(crate) fn create<V: Volume>(
        alloc: Global,
        volume: &mut V,
        limits: Limits,
    ) -> Result<Book, IoFault>
        requires limits { AreLimits limits }
        ensures limits { IfOk result (λ b. b.limits ≡ limits) }
        ensures empty { IfOk result (λ b. (b.sequence.refs ≡ []) × (b.versions.root.n ≡ 0)) }
        ensures clean { IfOk result (λ b. b.sequence.pending ≡ None) }
        ensures alone { IfOk result (λ b. (row : ℕ) → IsLive b.versions.versions row → row ≡ b.versions.versions.current) }
        ensures first { IfOk result (λ b. HasFirstRow b.versions.versions) }
        ensures told { Told (V.storage volume.old).disk (V.storage volume.new).disk (Creates result) }
        ensures counted { Counts (V.storage volume.old).faults (V.storage volume.new).faults result }
    {
        other_files_leave_the_sequence();
        let sequencer = Sequencer::create(alloc, volume)?;
        let versions = VersionStore::create(alloc, volume)?;
        versions.keeps_its_law();
        write_mark(volume)?;
        Ok(Book {
            limits,
            sequencer,
            versions,
        })
    }

    /// Tells what every book keeps. It does nothing.
    pub(crate) fn keeps_its_law(&self)
        ensures book { IsBook self.now }
        ensures versions { versions.IsStore self.now.versions }
    {
        self.versions.keeps_its_law();
    }
}
