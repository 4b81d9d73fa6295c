//! Every row of versions holds one, and each but the current one is pinned.
ghost use Rattle.std.specs.Prelude.{◌≡◌, ◌+◌, ◌<◌, ◌≤◌};
ghost use Rattle.qd_score_model.specs.declared.view.Mode.TheVariants.{Writer};
ghost use Rattle.qd_shared.specs.Passes.{view_of};

use crate::shareds::{commit, pin, share_new};
use qd_score::Pin;
use qd_shared::{Pass, RoundFault, Shared};
use qd_volume::MemVolume;
use std::alloc::Global;
use std::marker::Model;
use std::sync::Wait;
use std::test::Fail;

/// How many versions are pinned: one in each row but one.
const READERS: u64 = 63;

/// A pass that has pinned a version, which is released where the reader is dropped. Contracts see how many transactions the version
/// has.
struct Reader<'a> {
    shared: &'a Shared<MemVolume>,
    pass: Pass<MemVolume>,
    pin: Pin,
}

impl<'a> Model for Reader<'a> {
    ghost use Rattle.std.specs.Prelude.{◌≡◌, ℕ};
    ghost use Rattle.qd_shared.specs.Snaps.{pinned_at, IsPinned};

    ghost Value = { ℕ };

    ghost view = { λ r. r.pin.n };

    ghost invariant = { λ r. (r.pass.table ≡ r.shared.now) × IsPinned r.pass (pinned_at r.pin) };
}

impl<'a> Drop for Reader<'a> {
    fn drop(self) {
        let Reader {
            shared,
            mut pass,
            pin,
        } = self;
        shared.release(&mut pass, pin);
    }
}

impl<'a> Reader<'a> {
    /// Splits a pass off the writer's, and pins the current version with it.
    fn new<R: Wait>(
        rt: &R,
        alloc: Global,
        shared: &'a Shared<MemVolume>,
        writer: &mut Pass<MemVolume>,
    ) -> Reader<'a>
        requires table { writer.old.table ≡ shared.now }
        requires kind { (view_of writer.old).mode ≡ Writer }
        requires room { 0 < (view_of writer.old).room }
        ensures table { writer.new.table ≡ writer.old.table }
        ensures mode { (view_of writer.new).mode ≡ (view_of writer.old).mode }
        ensures room { (view_of writer.old).room ≡ (view_of writer.new).room + 1 }
    {
        let mut pass = shared.split(alloc, writer);
        let pin = pin(rt, shared, &mut pass);
        Reader { shared, pass, pin }
    }

    /// How many transactions the version has.
    fn n(&self) -> u64
        ensures { result ≡ self.now }
    {
        self.pin.n()
    }
}

/// Commits a line and shows it by a version of its own. It gives how many transactions that has.
fn show_next<R: Wait>(
    rt: &R,
    alloc: Global,
    shared: &Shared<MemVolume>,
    writer: &mut Pass<MemVolume>,
) -> Result<u64, Fail>
    requires table { writer.old.table ≡ shared.now }
    requires kind { (view_of writer.old).mode ≡ Writer }
    ensures table { writer.new.table ≡ writer.old.table }
    ensures mode { (view_of writer.new).mode ≡ (view_of writer.old).mode }
    ensures room { (view_of writer.new).room ≡ (view_of writer.old).room }
{
    commit(rt, alloc, shared, writer, b"t v=1i 1000\n")?;
    Ok(shared.catch_up(rt, alloc, writer)?)
}

/// Pins each version that is shown, and shows the next one.
fn pin_all<'a, R: Wait>(
    rt: &R,
    alloc: Global,
    shared: &'a Shared<MemVolume>,
    writer: &mut Pass<MemVolume>,
) -> Result<Vec<Reader<'a>>, Fail>
    requires table { writer.old.table ≡ shared.now }
    requires kind { (view_of writer.old).mode ≡ Writer }
    requires room { READERS ≤ (view_of writer.old).room }
    ensures table { writer.new.table ≡ writer.old.table }
    ensures mode { (view_of writer.new).mode ≡ (view_of writer.old).mode }
{
    let mut readers = Vec::new(alloc);
    for n in 0..READERS {
        let reader = Reader::new(rt, alloc, shared, writer);
        let shown = show_next(rt, alloc, shared, writer)?;
        if reader.n() != n || shown != n + 1 {
            return Err(Fail::from("another version was shown"));
        }
        readers.push(reader)?;
    }
    Ok(readers)
}

#[test]
fn a_round_finds_no_row_where_each_version_is_pinned(rt: HostRuntime) -> Result<(), Fail> {
    let alloc = rt.alloc();
    let (shared, mut writer) = share_new(alloc)?;
    let mut readers = pin_all(&rt, alloc, &shared, &mut writer)?;
    commit(&rt, alloc, &shared, &mut writer, b"t v=1i 1000\n")?;
    assert_eq!(rt;
        shared.catch_up(&rt, alloc, &mut writer),
        Err(RoundFault::NoRow)
    );
    drop(readers.pop());
    assert_eq!(rt; shared.catch_up(&rt, alloc, &mut writer), Ok(READERS + 1));
    Ok(())
}
