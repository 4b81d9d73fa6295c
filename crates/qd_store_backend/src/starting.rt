//! The store of a volume: it is opened where there is one, and made where there is none.
ghost use Rattle.qd_store_backend.specs.Backs.{AreUsual};
ghost use Rattle.qd_store_backend.specs.Rounds.{IsOnlyOne};
ghost use Rattle.qd_store_backend.specs.Volumes.{Starts};
ghost use Rattle.qd_durable.specs.Moments.{Told};
ghost use Rattle.qd_store.specs.declared.fault.OpenFault.TheVariants as fault;
ghost use Rattle.qd_store.specs.Faults.{CountsOpen};
ghost use Rattle.qd_store.specs.Opening.{HasFirstRow};
ghost use Rattle.qd_store.specs.Owned.{storage_in, store_in};
ghost use Rattle.std.specs.Prelude.{◌≡◌, ◌≢◌, IfErr, IfOk, None};

use qd_base::Limits;
use qd_store::{OpenFault, Store, Unmade};
use qd_volume::Volume;
use std::alloc::Global;

/// Opens the store of a volume, with the usual limits, and makes it where there is none. It costs what [`Store::open_store`] does,
/// and where there is none what [`Store::create`] does.
///
/// Where the volume holds a history, the store stands behind it, and shows as much of it as the volume's version. An `Err` gives the
/// volume back: [`OpenFault::Damaged`] only where its files are damaged at that place, with each file as it was. Behind
/// [`OpenFault::Vol`] and [`OpenFault::Memory`] each file is as it was too, or there was no store, and a crash leaves none, or one
/// without a transaction; the call may be made again. [`OpenFault::NotMade`] never comes.
pub fn open_or_create<V: Volume>(alloc: Global, volume: V) -> Result<Store<V>, Unmade<V>>
    ensures usual { IfOk result (λ s. AreUsual s.store.limits) }
    ensures alone { IfOk result (λ s. IsOnlyOne s.store.versions.versions) }
    ensures first { IfOk result (λ s. HasFirstRow s.store.versions.versions) }
    ensures settled { IfOk result (λ s. s.store.sequence.pending ≡ None) }
    ensures made { IfErr result (λ unmade. unmade.why ≢ fault.NotMade) }
    ensures told { Told (V.storage volume).disk (storage_in result).disk (Starts (store_in result)) }
    ensures counted { CountsOpen (V.storage volume).faults (storage_in result).faults (store_in result) }
{
    match Store::open_store(alloc, volume, Limits::usual()) {
        Ok(store) => Ok(store),
        Err(
            Unmade {
                volume,
                why: OpenFault::NotMade,
            },
        ) => Store::create(alloc, volume, Limits::usual()),
        Err(unmade) => Err(unmade),
    }
}
