//! A round shows all that was committed at once.
ghost use Rattle.std.specs.Prelude.{◌≡◌, ◌≢◌};
ghost use Rattle.qd_score_model.specs.declared.view.Mode.TheVariants.{Keeper};
ghost use Rattle.qd_score_model.specs.declared.view.Phase.TheVariants.{Idle};
ghost use Rattle.qd_shared.specs.Passes.{view_of};
ghost use Rattle.qd_shared.specs.Snaps.{pinned_at, IsPinned};

use crate::shareds::{commit, pin, start_new};
use qd_base::Part;
use qd_manifest::Shape;
use qd_score::Pin;
use qd_shared::{Pass, Shared};
use qd_volume::MemVolume;
use std::alloc::Global;
use std::sync::Wait;
use std::test::Fail;

/// How many batches there are, each of one line.
const BATCHES: u64 = 100;

/// Commits a line for each second, from the last one down to the first.
fn commit_backwards<R: Wait>(
    rt: &R,
    alloc: Global,
    shared: &Shared<MemVolume>,
    pass: &mut Pass<MemVolume>,
) -> Result<(), Fail>
    requires table { pass.old.table ≡ shared.now }
    requires kind { (view_of pass.old).mode ≢ Keeper }
    ensures table { pass.new.table ≡ pass.old.table }
    ensures mode { (view_of pass.new).mode ≡ (view_of pass.old).mode }
    ensures phase { (view_of pass.new).phase ≡ (view_of pass.old).phase }
{
    for later in 0..BATCHES {
        let line = format!(in alloc; "t v=1i {}000000000\n", BATCHES - later)?;
        commit(rt, alloc, shared, pass, line.as_bytes())?;
    }
    Ok(())
}

/// The one part of the one table, where there is no other.
fn only_part(shape: &Shape) -> Option<Part> {
    if shape.len() != 1 {
        return None;
    }
    let parts = &shape.get(0).parts;
    if parts.len() != 1 {
        return None;
    }
    Some(*parts.get(0))
}

/// The one part of the version that is pinned.
fn pinned_part<R: Wait>(
    rt: &R,
    alloc: Global,
    shared: &Shared<MemVolume>,
    pass: &mut Pass<MemVolume>,
    pinned: &Pin,
) -> Result<Option<Part>, Fail>
    requires table { pass.old.table ≡ shared.now }
    requires pinned { IsPinned pass.old (pinned_at pinned.now) }
    ensures table { pass.new.table ≡ pass.old.table }
    ensures pinned { IsPinned pass.new (pinned_at pinned.now) }
{
    let snap = shared.snap(rt, alloc, pass, pinned)?;
    Ok(only_part(&snap.shape))
}

/// The one part of the current version.
fn current_part<R: Wait>(
    rt: &R,
    alloc: Global,
    shared: &Shared<MemVolume>,
    pass: &mut Pass<MemVolume>,
) -> Result<Option<Part>, Fail>
    requires table { pass.old.table ≡ shared.now }
    requires kind { (view_of pass.old).mode ≢ Keeper }
    requires idle { (view_of pass.old).phase ≡ Idle }
{
    let pinned = pin(rt, shared, pass);
    let part = pinned_part(rt, alloc, shared, pass, &pinned);
    shared.release(pass, pinned);
    part
}

// A round that showed each batch by a version of its own would leave the hundredth block.
#[test]
fn all_batches_are_shown_in_one_block(rt: HostRuntime) -> Result<(), Fail> {
    let alloc = rt.alloc();
    let (shared, mut pass) = start_new(alloc)?;
    commit_backwards(&rt, alloc, &shared, &mut pass)?;
    assert_eq!(rt; shared.catch_up(&rt, alloc, &mut pass)?, BATCHES);
    let Some(part) = current_part(&rt, alloc, &shared, &mut pass)? else {
        panic!(rt; "there isn't one part")
    };
    assert_eq!(rt; (part.block, part.rows), (0, BATCHES));
    assert_eq!(rt; (part.lo, part.hi), (1_000_000, 100_000_000));
    Ok(())
}
