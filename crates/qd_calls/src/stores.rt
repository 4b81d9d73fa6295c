//! The calls that neither the program nor its histories make, each once where it succeeds.
use qd_base::{Limits, MAX_TXNS};
use qd_ilp::parse_batch;
use qd_store::{Merged, Store, Unmade};
use qd_volume::MemVolume;
use std::alloc::Global;
use std::test::Fail;

/// A store on a new volume in memory.
fn new_store(alloc: Global) -> Result<Box<Store<MemVolume>>, Fail> {
    match Store::create(alloc, MemVolume::new(alloc, &[])?, Limits::usual()) {
        Ok(store) => Ok(Box::new(alloc, store)?),
        Err(Unmade { volume: _, why }) => Err(Fail::from(why)),
    }
}

/// Commits a line.
fn commit(alloc: Global, store: &mut Store<MemVolume>) -> Result<(), Fail> {
    let batch = parse_batch(alloc, b"t v=1i 1000\n")?;
    let _done = store.accept_lines(alloc, None, &batch, 0, None)?;
    Ok(())
}

/// Drafts and merges all transactions, where some aren't shown.
fn merge(alloc: Global, store: &mut Store<MemVolume>) -> Result<Box<Merged>, Fail> {
    let upto = store.hist_len();
    if upto <= store.version_n() {
        return Err(Fail::from("all are shown"));
    }
    let draft = store.draft(alloc, upto)?;
    Ok(Box::new(alloc, draft.merge(alloc)?)?)
}

#[test]
fn calls_that_no_history_makes(rt: HostRuntime) -> Result<(), Fail> {
    let alloc = rt.alloc();
    let mut store = new_store(alloc)?;
    commit(alloc, &mut store)?;
    store.end_writer(0);
    let merged = merge(alloc, &mut store)?;
    let told = (merged.base(), merged.upto(), merged.shape().len());
    assert_eq!(rt; told, (0, 1, 1));
    assert_eq!(rt;
        (store.refs().len(), store.limits().max_txns),
        (1, MAX_TXNS)
    );
    Ok(())
}
