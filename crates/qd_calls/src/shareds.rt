//! A store that passes share: what its tests begin with, pins, and the end.
ghost use Rattle.std.specs.Prelude.{◌≡◌, ◌≢◌, IfOk};
ghost use Rattle.qd_score_model.specs.declared.limits.TheConstants.{MAX_SPLITS};
ghost use Rattle.qd_score_model.specs.declared.view.Mode.TheVariants.{Keeper, Sole, Writer};
ghost use Rattle.qd_score_model.specs.declared.view.Phase.TheVariants.{Idle};
ghost use Rattle.qd_shared.specs.Passes.{view_of};
ghost use Rattle.qd_shared.specs.Snaps.{pinned_at, IsPinned};

use qd_base::Limits;
use qd_ghost::Telling;
use qd_ilp::parse_batch;
use qd_score::Pin;
use qd_shared::{Pass, Shared};
use qd_store::{Store, Unmade};
use qd_volume::MemVolume;
use std::alloc::Global;
use std::sync::Wait;
use std::test::Fail;

/// A new store in memory, which is shared, and its first pass, a Sole one.
pub(crate) fn start_new(alloc: Global) -> Result<(Shared<MemVolume>, Pass<MemVolume>), Fail>
    ensures table { IfOk result (λ r. r.1.table ≡ r.0) }
    ensures kind { IfOk result (λ r. (view_of r.1).mode ≡ Sole) }
    ensures idle { IfOk result (λ r. (view_of r.1).phase ≡ Idle) }
    ensures room { IfOk result (λ r. (view_of r.1).room ≡ MAX_SPLITS) }
{
    let store = match Store::create(alloc, MemVolume::new(alloc, &[])?, Limits::usual()) {
        Ok(store) => store,
        Err(Unmade { volume: _, why }) => return Err(Fail::from(why)),
    };
    let Ok((shared, pass)) = Shared::start(alloc, store, &Telling::of(&())) else {
        return Err(Fail::from("no memory"));
    };
    Ok((shared, pass))
}

/// A new store in memory, which is shared, and its first pass, a Writer.
pub(crate) fn share_new(alloc: Global) -> Result<(Shared<MemVolume>, Pass<MemVolume>), Fail>
    ensures table { IfOk result (λ r. r.1.table ≡ r.0) }
    ensures kind { IfOk result (λ r. (view_of r.1).mode ≡ Writer) }
    ensures idle { IfOk result (λ r. (view_of r.1).phase ≡ Idle) }
    ensures room { IfOk result (λ r. (view_of r.1).room ≡ MAX_SPLITS) }
{
    let (shared, mut pass) = start_new(alloc)?;
    shared.share(&mut pass);
    Ok((shared, pass))
}

/// Commits lines, and gives the number of their transaction.
pub(crate) fn commit<R: Wait>(
    rt: &R,
    alloc: Global,
    shared: &Shared<MemVolume>,
    pass: &mut Pass<MemVolume>,
    lines: &[u8],
) -> Result<u64, Fail>
    requires table { pass.old.table ≡ shared.now }
    requires kind { (view_of pass.old).mode ≢ Keeper }
    ensures table { pass.new.table ≡ pass.old.table }
    ensures mode { (view_of pass.new).mode ≡ (view_of pass.old).mode }
    ensures phase { (view_of pass.new).phase ≡ (view_of pass.old).phase }
    ensures room { (view_of pass.new).room ≡ (view_of pass.old).room }
{
    let batch = parse_batch(alloc, lines)?;
    let done = shared.commit_lines(rt, alloc, pass, &batch, 0)?;
    Ok(done.n)
}

/// Pins the current version, in a hold of the lock where it must be.
pub(crate) fn pin<R: Wait>(rt: &R, shared: &Shared<MemVolume>, pass: &mut Pass<MemVolume>) -> Pin
    requires table { pass.old.table ≡ shared.now }
    requires kind { (view_of pass.old).mode ≢ Keeper }
    requires idle { (view_of pass.old).phase ≡ Idle }
    ensures table { pass.new.table ≡ pass.old.table }
    ensures pinned { IsPinned pass.new (pinned_at result) }
{
    match shared.pin(pass) {
        Ok(pin) => pin,
        Err(moved) => shared.pin_held(rt, pass, moved),
    }
}

/// How many transactions and tables the version has that is pinned, once another pass has shown a newer one.
fn pinned_meanwhile<R: Wait>(
    rt: &R,
    alloc: Global,
    shared: &Shared<MemVolume>,
    reader: &mut Pass<MemVolume>,
    writer: &mut Pass<MemVolume>,
    pin: &Pin,
) -> Result<(u64, usize, u64), Fail>
    requires reader { reader.old.table ≡ shared.now }
    requires writer { writer.old.table ≡ shared.now }
    requires pinned { IsPinned reader.old (pinned_at pin.now) }
    requires kind { (view_of writer.old).mode ≢ Keeper }
    ensures table { reader.new.table ≡ reader.old.table }
    ensures pinned { IsPinned reader.new (pinned_at pin.now) }
{
    commit(rt, alloc, shared, writer, b"t v=3i 250\n")?;
    let shown = shared.catch_up(rt, alloc, writer)?;
    let snap = shared.snap(rt, alloc, reader, pin)?;
    Ok((snap.n, snap.shape.len(), shown))
}

/// What was seen of a pinned version, once its pin is released.
fn pin_and_look<R: Wait>(
    rt: &R,
    alloc: Global,
    shared: &Shared<MemVolume>,
    reader: &mut Pass<MemVolume>,
    writer: &mut Pass<MemVolume>,
) -> Result<(u64, usize, u64), Fail>
    requires reader { reader.old.table ≡ shared.now }
    requires writer { writer.old.table ≡ shared.now }
    requires idle { (view_of reader.old).phase ≡ Idle }
    requires reader_kind { (view_of reader.old).mode ≢ Keeper }
    requires kind { (view_of writer.old).mode ≢ Keeper }
{
    let pinned = pin(rt, shared, reader);
    let seen = pinned_meanwhile(rt, alloc, shared, reader, writer, &pinned);
    shared.release(reader, pinned);
    seen
}

#[test]
fn a_pinned_version_stays_beside_a_newer_one(rt: HostRuntime) -> Result<(), Fail> {
    let alloc = rt.alloc();
    let (shared, mut writer) = share_new(alloc)?;
    let mut reader = shared.split(alloc, &mut writer);
    let one = commit(&rt, alloc, &shared, &mut writer, b"t v=1i 1000\n")?;
    let two = commit(&rt, alloc, &shared, &mut reader, b"t v=2i 500\n")?;
    assert_eq!(rt; (one, two), (1, 2));
    assert_eq!(rt; shared.catch_up(&rt, alloc, &mut writer)?, 2);
    let seen = pin_and_look(&rt, alloc, &shared, &mut reader, &mut writer)?;
    assert_eq!(rt; seen, (2, 1, 3));
    Ok(())
}

#[test]
fn nothing_is_removed_where_nothing_was_written(rt: HostRuntime) -> Result<(), Fail> {
    let alloc = rt.alloc();
    let (shared, mut pass) = start_new(alloc)?;
    assert_eq!(rt; shared.purge(&rt, &mut pass)?, 0);
    assert_eq!(rt; shared.catch_up(&rt, alloc, &mut pass)?, 0);
    Ok(())
}

#[test]
fn the_store_comes_back_with_what_was_committed(rt: HostRuntime) -> Result<(), Fail> {
    let alloc = rt.alloc();
    let (shared, mut one) = share_new(alloc)?;
    let mut two = shared.split(alloc, &mut one);
    commit(&rt, alloc, &shared, &mut one, b"t v=1i 1000\n")?;
    commit(&rt, alloc, &shared, &mut two, b"t v=2i 500\nt v=3i 250\n")?;
    assert_eq!(rt; shared.catch_up(&rt, alloc, &mut two)?, 2);
    commit(&rt, alloc, &shared, &mut one, b"u v=4i 1000\n")?;
    shared.look(&rt, &mut two);
    shared.join(&mut one, two);
    let store = shared.close(&rt, one);
    assert_eq!(rt; (store.hist_len(), store.version_n()), (3, 2));
    Ok(())
}
