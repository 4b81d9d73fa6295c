//! The version that was asked over last.
ghost use Rattle.std.specs.Prelude.{◌≡◌, IfOk, IfSome};
ghost use Rattle.qd_shared.specs.Snaps.{pinned_at, IsPinned};
ghost use Rattle.qd_pass.specs.Memos.{IsMemoOf};
ghost use Rattle.qd_pass.specs.Passed.{GoesStill, IsCounted, IsReady, Pins};

use qd_base::Memory;
use qd_score::Pin;
use qd_shared::{Pass, Shared, Snap};
use qd_store_backend::KeptBlocks;
use qd_volume::Volume;
use std::alloc::Global;
use std::sync::Wait;

/// The version that was asked over last: what was copied of it, and blocks that were read of its parts.
#[derive(Drop)]
pub(crate) struct Memo {
    pub(crate) snap: Snap,
    pub(crate) kept: KeptBlocks,
}

/// Pins the current version: without the lock, or in a hold of it where a newer one was published meanwhile. A memo of what was noted
/// before is kept only in the first case.
pub(crate) fn pin_current<R: Wait, V: Volume + Drop>(
    rt: &R,
    shared: &Shared<V>,
    pass: &mut Pass<V>,
    memo: Option<Memo>,
) -> (Pin, Option<Memo>)
    requires pass { pass.old.table ≡ shared.now }
    requires ready { IsReady pass.old }
    requires memo { IfSome memo (IsMemoOf pass.old) }
    ensures pinned { IsPinned pass.new (pinned_at result.0) }
    ensures goes { Pins pass.old pass.new result.0.n }
    ensures memo { IfSome result.1 (IsMemoOf pass.new) }
{
    match shared.pin(pass) {
        Ok(pin) => (pin, memo),
        Err(moved) => (shared.pin_held(rt, pass, moved), None),
    }
}

/// The memo of the version that is pinned: the one that there is, where it is of that version, or else it is copied.
pub(crate) fn memo_of<R: Wait, V: Volume + Drop>(
    rt: &R,
    alloc: Global,
    shared: &Shared<V>,
    pass: &mut Pass<V>,
    pin: &Pin,
    memo: Option<Memo>,
) -> Result<Memo, Memory>
    requires pass { pass.old.table ≡ shared.now }
    requires counted { IsCounted pass.old }
    requires pinned { IsPinned pass.old (pinned_at pin.now) }
    requires memo { IfSome memo (IsMemoOf pass.old) }
    ensures pinned { IsPinned pass.new (pinned_at pin.now) }
    ensures goes { GoesStill pass.old pass.new }
    ensures counted { IsCounted pass.new }
    ensures memo { IfOk result (IsMemoOf pass.new) }
    ensures number { IfOk result (λ m. m.snap.n ≡ pin.now.n) }
{
    if let Some(memo) = memo {
        if memo.snap.n == pin.n() {
            return Ok(memo);
        }
    }
    let snap = shared.snap(rt, alloc, pass, pin)?;
    Ok(Memo {
        snap,
        kept: KeptBlocks::none(alloc)?,
    })
}
