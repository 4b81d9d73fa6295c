//! Each call of the volume of a shared store fails once: the call of a pass within which it did says so, and no other.
ghost use Rattle.std.specs.Prelude.{◌≡◌, ◌≢◌};
ghost use Rattle.qd_score_model.specs.declared.view.Mode.TheVariants.{Keeper};
ghost use Rattle.qd_shared.specs.Passes.{view_of};

use qd_base::Limits;
use qd_ghost::Telling;
use qd_ilp::parse_batch;
use qd_io::IoFault;
use qd_shared::{Pass, RoundFault, Shared};
use qd_store::{CommitFault, Store};
use qd_volume::MemVolume;
use std::alloc::Global;
use std::sync::Wait;
use std::test::Fail;

/// A row, and one of the same day before it, for which the block of the first one is written anew.
const LATER: &[u8] = b"t v=1i 2000000000\n";

const EARLIER: &[u8] = b"t v=2i 1000000000\n";

/// Commits lines, once more where the volume failed, and gives how often it did.
fn commit_through<R: Wait>(
    rt: &R,
    alloc: Global,
    shared: &Shared<MemVolume>,
    pass: &mut Pass<MemVolume>,
    lines: &[u8],
) -> Result<u64, Fail>
    requires table { pass.old.table ≡ shared.now }
    requires kind { (view_of pass.old).mode ≢ Keeper }
    ensures table { pass.new.table ≡ pass.old.table }
    ensures mode { (view_of pass.new).mode ≡ (view_of pass.old).mode }
{
    let batch = parse_batch(alloc, lines)?;
    match shared.commit_lines(rt, alloc, pass, &batch, 0) {
        Ok(_) => Ok(0),
        Err(CommitFault::Vol) => {
            shared.commit_lines(rt, alloc, pass, &batch, 0)?;
            Ok(1)
        }
        Err(other) => Err(Fail::from(other)),
    }
}

/// Applies, once more where the volume failed, and gives how often it did.
fn apply_through<R: Wait>(
    rt: &R,
    alloc: Global,
    shared: &Shared<MemVolume>,
    pass: &mut Pass<MemVolume>,
) -> Result<u64, Fail>
    requires table { pass.old.table ≡ shared.now }
    ensures table { pass.new.table ≡ pass.old.table }
    ensures mode { (view_of pass.new).mode ≡ (view_of pass.old).mode }
{
    match shared.catch_up(rt, alloc, pass) {
        Ok(_) => Ok(0),
        Err(RoundFault::Vol) => {
            shared.catch_up(rt, alloc, pass)?;
            Ok(1)
        }
        Err(other) => Err(Fail::from(other)),
    }
}

/// Purges, once more where the volume failed, and gives how often it did.
fn purge_through<R: Wait>(
    rt: &R,
    shared: &Shared<MemVolume>,
    pass: &mut Pass<MemVolume>,
) -> Result<u64, Fail>
    requires table { pass.old.table ≡ shared.now }
    ensures table { pass.new.table ≡ pass.old.table }
{
    match shared.purge(rt, pass) {
        Ok(_) => Ok(0),
        Err(IoFault::Failed) => {
            shared.purge(rt, pass)?;
            Ok(1)
        }
        Err(other) => Err(Fail::from(other)),
    }
}

/// Commits two rows, shows each, and removes the block that nobody lists any more. It gives how often the volume failed.
fn commit_apply_and_purge<R: Wait>(
    rt: &R,
    alloc: Global,
    shared: &Shared<MemVolume>,
    pass: &mut Pass<MemVolume>,
) -> Result<u64, Fail>
    requires table { pass.old.table ≡ shared.now }
    requires kind { (view_of pass.old).mode ≢ Keeper }
    ensures table { pass.new.table ≡ pass.old.table }
{
    let first = commit_through(rt, alloc, shared, pass, LATER)?;
    let shown = apply_through(rt, alloc, shared, pass)?;
    let second = commit_through(rt, alloc, shared, pass, EARLIER)?;
    let both = apply_through(rt, alloc, shared, pass)?;
    let purged = purge_through(rt, shared, pass)?;
    Ok(
        first
            .saturating_add(shown)
            .saturating_add(second)
            .saturating_add(both)
            .saturating_add(purged),
    )
}

/// What there is behind calls of which some failed.
#[derive(Clone, Copy, Debug, PartialEq, Eq)]
struct Outcome {
    failed: u64,
    committed: u64,
    shown: u64,
}

/// What becomes of a new store whose volume's calls of these numbers fail, and how many calls there were; nothing where it isn't made.
fn outcome_with<R: Wait>(
    rt: &R,
    alloc: Global,
    fails: &[u64],
) -> Result<Option<(Outcome, u64)>, Fail> {
    let volume = MemVolume::new(alloc, fails)?;
    let Ok(store) = Store::create(alloc, volume, Limits::usual()) else {
        return Ok(None);
    };
    let Ok((shared, mut pass)) = Shared::start(alloc, store, &Telling::of(&())) else {
        return Err(Fail::from("no memory"));
    };
    let failed = commit_apply_and_purge(rt, alloc, &shared, &mut pass)?;
    let store = shared.close(rt, pass);
    let found = Outcome {
        failed,
        committed: store.hist_len(),
        shown: store.version_n(),
    };
    Ok(Some((found, store.into_volume().calls())))
}

#[test]
fn each_call_of_a_shared_volume_fails(rt: HostRuntime) -> Result<(), Fail> {
    let alloc = rt.alloc();
    let all = Outcome {
        failed: 0,
        committed: 2,
        shown: 2,
    };
    let Some((whole, calls)) = outcome_with(&rt, alloc, &[])? else {
        panic!(rt; "no store is made")
    };
    assert_eq!(rt; whole, all);
    let mut unmade: u64 = 0;
    for number in 0..calls {
        match outcome_with(&rt, alloc, &[number])? {
            Some((found, _)) => {
                assert_eq!(rt; found, Outcome { failed: 1, ..all });
            }
            None => unmade = unmade.saturating_add(1),
        }
    }
    assert!(rt; unmade < 20 && unmade < calls);
    Ok(())
}
