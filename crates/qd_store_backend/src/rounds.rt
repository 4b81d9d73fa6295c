//! A round: transactions behind the current version of a store are merged, and shown in place of it.
ghost use Rattle.std.specs.Prelude.{◌≡◌, ◌≢◌, ◌<◌, ◌≤◌, ℕ, Err, List, Some, length, IfOk, IfSome};
ghost use Rattle.qd_store_backend.specs.Backs.{current, n_in, IsDamageTold, IsGrowthDamaged, IsTold, LeavesNoOther};
ghost use Rattle.qd_store_backend.specs.Rounds.{fault_of, IsNextFrom, IsOfVolume, IsOnlyOne, IsSwept, IsTurned, StaysTold};
ghost use Rattle.qd_base.specs.declared.op.Entry.{Entry};
ghost use Rattle.qd_catalog.specs.Versions.{current_n};
ghost use Rattle.qd_durable.specs.declared.fault.LogFault.TheVariants as damage;
ghost use Rattle.qd_durable.specs.Faults.{CountsVol};
ghost use Rattle.qd_store.specs.Damage.{IsDraftDamage};
ghost use Rattle.qd_store.specs.Drafts.{IsMergedOver, IsNextOf};
ghost use Rattle.qd_store.specs.Stores.{IsStore};
ghost use Rattle.qd_txnfile.specs.Versions.{Version};

use qd_durable::LogFault;
use qd_io::IoFault;
use qd_store::{Merged, PublishFault, Store};
use qd_volume::Volume;
use std::alloc::Global;

/// Merges transactions behind the current version, up to a number: those of one round, which ends before the next transaction that
/// sets keys, as [`Store::draft`] says. It costs what that and the merge cost; after an `Err` the store is as it was, and the call may
/// be made again, but behind damage, which is no whole store's.
pub fn next_of<V: Volume>(
    store: &mut Store<V>,
    alloc: Global,
    upto: u64,
) -> Result<Merged, LogFault>
    requires more { (n : ℕ) → current_n store.old.store.versions.versions ≡ Some n → n < upto }
    requires few { upto ≤ length store.old.store.sequence.refs }
    ensures over { IfOk result (λ m. IsMergedOver store.old.store.versions.versions m) }
    ensures upto { IfOk result (λ m. (n_in (current store.old.store) < m.upto) × (m.upto ≤ upto)) }
    ensures told { IfSome store.old.storage.disk (λ disk. (h : List Entry) (next : Version) → IsStore store.old.store h next disk → IsNextFrom result store.old.store h) }
    ensures store { store.new.store ≡ store.old.store }
    ensures damaged { (file : ℕ) (at : ℕ) → result ≡ Err (damage.Damaged file at) → IsDamageTold store.old (IsDraftDamage store.old.store upto) file at }
    ensures stays { store.new.storage.disk ≡ store.old.storage.disk }
    ensures counted { CountsVol store.old.storage.faults store.new.storage.faults result }
{
    let draft = store.draft(alloc, upto)?;
    let merged = draft.merge(alloc)?;
    Ok(merged)
}

/// Publishes a merge into the current version, and lets that go: the new one is the only live version then.
pub(crate) fn turn_to<V: Volume>(
    store: &mut Store<V>,
    alloc: Global,
    merged: &Merged,
) -> Result<(), LogFault>
    requires few { merged.now.upto ≤ length store.old.store.sequence.refs }
    requires over { IsMergedOver store.old.store.versions.versions merged.now }
    requires alone { IsOnlyOne store.old.store.versions.versions }
    ensures alone { IsOnlyOne store.new.store.versions.versions }
    ensures turned { IsTurned result store.old.store store.new.store merged.now }
    ensures sequence { store.new.store.sequence ≡ store.old.store.sequence }
    ensures limits { store.new.store.limits ≡ store.old.store.limits }
    ensures told { (h : List Entry) → IsTold store.old h → IsNextOf store.old.store h merged.now → IsTold store.new h }
    ensures left { LeavesNoOther store.old store.new }
    ensures damaged { (file : ℕ) (at : ℕ) → result ≡ Err (damage.Damaged file at) → IsGrowthDamaged store.old file at }
    ensures unwritten { (file : ℕ) (at : ℕ) → result ≡ Err (damage.Damaged file at) → (store.new.storage.disk ≡ store.old.storage.disk) × (store.new.store ≡ store.old.store) }
    ensures whole { (h : List Entry) → IsTold store.old h → (file : ℕ) (at : ℕ) → result ≢ Err (damage.Damaged file at) }
    ensures counted { CountsVol store.old.storage.faults store.new.storage.faults result }
{
    store.keeps_its_law();
    let before = store.current();
    match store.publish(alloc, merged) {
        Ok(_) => {
            store.retire(before);
            Ok(())
        }
        // The version that was merged into is the current one still, and 63 rows are free.
        Err(cause) => Err(of_publish(cause)),
    }
}

/// The fault of a publication that nothing stood against but the volume, its files and memory, as that of a file.
fn of_publish(cause: PublishFault) -> LogFault
    requires of_volume { IsOfVolume cause }
    ensures fault { result ≡ fault_of cause }
{
    match cause {
        PublishFault::Vol => LogFault::Vol,
        PublishFault::Damaged { file, at } => LogFault::Damaged { file, at },
        PublishFault::Memory => LogFault::Memory,
        PublishFault::Moved { .. } | PublishFault::NoRow => unreachable!(),
    }
}

/// Removes the blocks that no version of a store lists any more, until none is left, the volume fails or there is no memory.
pub(crate) fn sweep_queue<V: Volume>(store: &mut Store<V>) -> Result<(), IoFault>
    ensures swept { IsSwept result store.old store.new }
    ensures alone { IsOnlyOne store.old.store.versions.versions → IsOnlyOne store.new.store.versions.versions }
    ensures shown { current store.new.store ≡ current store.old.store }
    ensures sequence { store.new.store.sequence ≡ store.old.store.sequence }
    ensures limits { store.new.store.limits ≡ store.old.store.limits }
    ensures told { StaysTold store.old store.new }
    ensures left { LeavesNoOther store.old store.new }
    ensures faults { store.old.storage.faults ≤ store.new.storage.faults }
{
    'sweeps: loop {
        match store.sweep() {
            Ok(true) => {}
            Ok(false) => return Ok(()),
            Err(fault) => return Err(fault),
        }
    }
}
