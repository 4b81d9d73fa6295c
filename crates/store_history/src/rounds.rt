//! Rounds: transactions that are drafted, merged and published.
ghost use Rattle.qd_catalog.specs.Versions.{current_n};
ghost use Rattle.qd_store.specs.Drafts.{IsMergedOver};
ghost use Rattle.std.specs.Prelude.{◌≡◌, ◌<◌, ◌≤◌, ℕ, Some, length, IfOk};

use qd_base::Memory;
use qd_store::{LogFault, Merged, PublishFault, Store};
use qd_volume::Volume;
use std::alloc::Global;

/// Why a round isn't made.
#[derive(Clone, Copy, Debug, PartialEq, Eq, Drop)]
pub enum RoundFault {
    /// There is no draft.
    Drafting(LogFault),
    /// There is no memory for the merge.
    Memory,
    /// The merge isn't published.
    Publishing(PublishFault),
}

impl From<LogFault> for RoundFault {
    fn from(cause: LogFault) -> RoundFault {
        RoundFault::Drafting(cause)
    }
}

impl From<Memory> for RoundFault {
    fn from(_: Memory) -> RoundFault {
        RoundFault::Memory
    }
}

impl From<PublishFault> for RoundFault {
    fn from(cause: PublishFault) -> RoundFault {
        RoundFault::Publishing(cause)
    }
}

/// Drafts and merges the transactions behind the current version, up to a number, or before the next one that sets keys.
pub fn merge_up_to<V: Volume>(
    alloc: Global,
    store: &mut Store<V>,
    upto: u64,
) -> Result<Merged, RoundFault>
    requires more { (n : ℕ) → current_n store.old.store.versions.versions ≡ Some n → n < upto }
    requires few { upto ≤ length store.old.store.sequence.refs }
    ensures store { store.new.store ≡ store.old.store }
    ensures over { IfOk result (λ m. IsMergedOver store.old.store.versions.versions m) }
    ensures upto { IfOk result (λ m. m.upto ≤ upto) }
{
    let draft = store.draft(alloc, upto)?;
    let merged = draft.merge(alloc)?;
    Ok(merged)
}

/// Drafts, merges and publishes the transactions behind the current version, up to a number, or before the next one that sets
/// keys. It does nothing where they are shown already, or where there are fewer.
pub fn round<V: Volume>(
    alloc: Global,
    store: &mut Store<V>,
    upto: u64,
) -> Result<Option<u8>, RoundFault> {
    if upto <= store.version_n() || store.hist_len() < upto {
        return Ok(None);
    }
    let merged = merge_up_to(alloc, store, upto)?;
    let row = store.publish(alloc, &merged)?;
    Ok(Some(row))
}

/// Merges the transactions up to a number twice, publishes one merge, and gives what the publication of the other one answers. It
/// does nothing where they are shown already, or where there are fewer.
pub fn publish_twice<V: Volume>(
    alloc: Global,
    store: &mut Store<V>,
    upto: u64,
) -> Result<Option<u8>, RoundFault> {
    if upto <= store.version_n() || store.hist_len() < upto {
        return Ok(None);
    }
    let first = merge_up_to(alloc, store, upto)?;
    let second = merge_up_to(alloc, store, upto)?;
    let _row = store.publish(alloc, &first)?;
    let row = store.publish(alloc, &second)?;
    Ok(Some(row))
}
