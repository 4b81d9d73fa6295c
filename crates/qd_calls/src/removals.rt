//! A block that a pinned version lists is there until the pin is released. Two threads, each with a pass of its own.
ghost use Rattle.std.specs.Arc.{arc_value};
ghost use Rattle.std.specs.Bool.{OnTrue};
ghost use Rattle.std.specs.Prelude.{◌≡◌, ◌≢◌};
ghost use Rattle.qd_base.specs.declared.part.Part.{Part};
ghost use Rattle.qd_manifest.specs.declared.shape.TableParts.{TableParts};
ghost use Rattle.qd_score_model.specs.declared.view.Mode.TheVariants.{Keeper};
ghost use Rattle.qd_score_model.specs.declared.view.Phase.TheVariants.{Idle};
ghost use Rattle.qd_shared.specs.Passes.{view_of};
ghost use Rattle.qd_shared.specs.Snaps.{pinned_at, HasPart, IsPinned, Notes};

use crate::shareds::{commit, pin, share_new};
use qd_block::Block;
use qd_manifest::Shape;
use qd_score::Pin;
use qd_shared::{Pass, Shared, Snap};
use qd_symbols::SymbolMap;
use qd_volume::MemVolume;
use std::alloc::Global;
use std::sync::atomic::{AtomicBool, Ordering};
use std::sync::{Arc, Wait};
use std::test::Fail;
use std::thread;

/// How often a thread looks at a flag before it gives up.
const TURNS: u64 = 20_000_000;

/// A row at noon of each of two days.
const TWO_DAYS: &[u8] = b"t v=1i 43200000000000\nt v=2i 129600000000000\n";

/// A row of the second day, before the one that is there.
const EARLIER: &[u8] = b"t v=3i 108000000000000\n";

/// What the two threads tell each other.
#[derive(Drop)]
struct Signs {
    /// The reader has read the first part.
    read: AtomicBool,
    /// The writer has shown a newer version, and has removed what it could.
    shown: AtomicBool,
}

/// What the reader has seen: how many transactions its version has, and of each part how many rows it has and the time of its first
/// one.
#[derive(Clone, Copy, Debug, PartialEq, Eq)]
struct Sight {
    n: u64,
    one: (u64, u64),
    two: (u64, u64),
}

/// Whether the flag is set in time.
fn is_set(flag: &AtomicBool) -> bool {
    for _ in 0..TURNS {
        if flag.load(Ordering::SeqCst) {
            return true;
        }
        thread::yield_now();
    }
    false
}

/// How many rows a block has, and the time of its first one.
fn rows_and_time(block: &Block<SymbolMap>) -> (u64, u64) {
    let rows = block.rows();
    if rows == 0 {
        return (0, 0);
    }
    (rows, block.time(0))
}

/// Whether there is a table, and it has a part at a position.
fn has_part(shape: &Shape, i: usize) -> bool
    ensures { OnTrue result ((t : TableParts) × (p : Part) × HasPart shape.now 0 i t p) }
{
    if shape.is_empty() {
        return false;
    }
    if shape.get(0).parts.len() <= i {
        return false;
    }
    true
}

/// What is to be seen of a part of a pinned version, read in a hold of its own.
fn sees_part<R: Wait>(
    rt: &R,
    alloc: Global,
    shared: &Shared<MemVolume>,
    pass: &mut Pass<MemVolume>,
    pinned: &Pin,
    snap: &Snap,
    i: usize,
) -> Option<(u64, u64)>
    requires table { pass.old.table ≡ shared.now }
    requires pinned { IsPinned pass.old (pinned_at pinned.now) }
    requires noted { Notes pass.old pinned.now.n snap.now.shape }
    ensures table { pass.new.table ≡ pass.old.table }
    ensures pinned { IsPinned pass.new (pinned_at pinned.now) }
    ensures noted { Notes pass.new pinned.now.n snap.now.shape }
{
    if !has_part(&snap.shape, i) {
        return None;
    }
    match shared.read_part(rt, alloc, pass, pinned, snap, 0, i) {
        Ok(block) => Some(rows_and_time(&block)),
        Err(_) => None,
    }
}

/// Reads the first part of a pinned version at once, and the second one when a newer version is shown.
fn sees_both<R: Wait>(
    rt: &R,
    alloc: Global,
    shared: &Shared<MemVolume>,
    pass: &mut Pass<MemVolume>,
    pinned: &Pin,
    signs: &Signs,
) -> Option<Sight>
    requires table { pass.old.table ≡ shared.now }
    requires pinned { IsPinned pass.old (pinned_at pinned.now) }
    ensures table { pass.new.table ≡ pass.old.table }
    ensures pinned { IsPinned pass.new (pinned_at pinned.now) }
{
    let Ok(snap) = shared.snap(rt, alloc, pass, pinned) else {
        return None;
    };
    let one = sees_part(rt, alloc, shared, pass, pinned, &snap, 0)?;
    signs.read.store(true, Ordering::SeqCst);
    if !is_set(&signs.shown) {
        return None;
    }
    let two = sees_part(rt, alloc, shared, pass, pinned, &snap, 1)?;
    Some(Sight {
        n: snap.n,
        one,
        two,
    })
}

/// The reader: it pins the current version, and lets it go once it has seen both parts.
fn reads<R: Wait>(
    rt: &R,
    alloc: Global,
    shared: &Shared<MemVolume>,
    mut pass: Pass<MemVolume>,
    signs: &Signs,
) -> Option<Sight>
    requires table { pass.table ≡ shared.now }
    requires kind { (view_of pass).mode ≢ Keeper }
    requires idle { (view_of pass).phase ≡ Idle }
{
    let pinned = pin(rt, shared, &mut pass);
    let sight = sees_both(rt, alloc, shared, &mut pass, &pinned, signs);
    shared.release(&mut pass, pinned);
    sight
}

/// The writer: once the first part was read it commits a row of the second day, and shows it. It gives how many transactions are shown
/// and how many blocks were removed.
fn overtakes<R: Wait>(
    rt: &R,
    alloc: Global,
    shared: &Shared<MemVolume>,
    pass: &mut Pass<MemVolume>,
    signs: &Signs,
) -> Result<(u64, u64), Fail>
    requires table { pass.old.table ≡ shared.now }
    requires kind { (view_of pass.old).mode ≢ Keeper }
    ensures table { pass.new.table ≡ pass.old.table }
{
    if !is_set(&signs.read) {
        return Err(Fail::from("nothing was read in time"));
    }
    commit(rt, alloc, shared, pass, EARLIER)?;
    let shown = shared.catch_up(rt, alloc, pass)?;
    let removed = shared.purge(rt, pass)?;
    signs.shown.store(true, Ordering::SeqCst);
    Ok((shown, removed))
}

/// Both threads.
fn both<R: thread::Threads + Wait + Copy + Send + Drop + 'static>(
    rt: R,
    alloc: Global,
    shared: &Arc<Shared<MemVolume>>,
    writer: &mut Pass<MemVolume>,
    reader: Pass<MemVolume>,
) -> Result<((u64, u64), Option<Sight>), Fail>
    requires table { writer.old.table ≡ arc_value shared.now }
    requires kind { (view_of writer.old).mode ≢ Keeper }
    requires reader { reader.table ≡ arc_value shared.now }
    requires reader_kind { (view_of reader).mode ≢ Keeper }
    requires idle { (view_of reader).phase ≡ Idle }
    ensures table { writer.new.table ≡ writer.old.table }
{
    let signs = Arc::new(
        alloc,
        Signs {
            read: AtomicBool::new(false),
            shown: AtomicBool::new(false),
        },
    )?;
    let their_signs = Arc::try_clone(&signs)?;
    let theirs = Arc::try_clone(shared)?;
    let child = thread::spawn(
        &rt,
        move || -> Option<Sight>
            requires { (reader.table ≡ arc_value theirs) × ((view_of reader).mode ≢ Keeper) × ((view_of reader).phase ≡ Idle) }
        { reads(&rt, alloc, &theirs, reader, &their_signs) },
    )?;
    let done = overtakes(&rt, alloc, shared, writer, &signs);
    let sight = child.join(&rt);
    Ok((done?, sight))
}

#[test]
fn a_pinned_block_is_there_until_its_pin_is_released(rt: HostRuntime) -> Result<(), Fail> {
    let alloc = rt.alloc();
    let (shared, mut writer) = share_new(alloc)?;
    let shared = Arc::new(alloc, shared)?;
    commit(&rt, alloc, &shared, &mut writer, TWO_DAYS)?;
    assert_eq!(rt; shared.catch_up(&rt, alloc, &mut writer)?, 1);
    let reader = shared.split(alloc, &mut writer);
    let (done, sight) = both(rt, alloc, &shared, &mut writer, reader)?;
    assert_eq!(rt; done, (2, 0));
    let wanted = Sight {
        n: 1,
        one: (1, 43_200_000_000),
        two: (1, 129_600_000_000),
    };
    assert_eq!(rt; sight, Some(wanted));
    assert_eq!(rt; shared.purge(&rt, &mut writer)?, 1);
    Ok(())
}
