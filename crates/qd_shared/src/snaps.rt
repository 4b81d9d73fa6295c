//! Pinned versions: what is copied of them, and their parts.
ghost use Rattle.std.specs.Prelude.{◌≡◌, IfOk};
ghost use Rattle.qd_base.specs.declared.part.Part.{Part};
ghost use Rattle.qd_block.specs.Blocks.{IsWhole};
ghost use Rattle.qd_manifest.specs.declared.shape.TableParts.{TableParts};
ghost use Rattle.qd_shared.specs.Passes.{Looks};
ghost use Rattle.qd_shared.specs.Snaps.{pinned_at, HasPart, IsPinned, IsSnapOf, Notes, ReadsPart};

use crate::pass::Pass;
use crate::shared::Shared;
use crate::snap::Snap;
use qd_base::Memory;
use qd_block::Block;
use qd_durable::LogFault;
use qd_score::Pin;
use qd_symbols::SymbolMap;
use qd_volume::Volume;
use std::alloc::Global;
use std::sync::Wait;

impl<V: Volume + Drop> Shared<V> {
    /// Copies the tables of the version that the pass has pinned, in one hold of the lock. It costs time and memory linear in the
    /// lists of their parts. Want of memory is the only error; the pin stays.
    pub fn snap<R: Wait>(
        &self,
        rt: &R,
        alloc: Global,
        pass: &mut Pass<V>,
        pin: &Pin,
    ) -> Result<Snap, Memory>
        requires pass { pass.old.table ≡ self.now }
        requires pinned { IsPinned pass.old (pinned_at pin.now) }
        ensures holds { Looks pass.old pass.new }
        ensures snap { IfOk result (IsSnapOf pass.new (pinned_at pin.now)) }
    {
        let mut hold = self.take(rt, &mut pass.seat);
        let snap = hold.book().snap_of(alloc, pin.row(), pin.n());
        self.give(&mut pass.seat, hold);
        snap
    }

    /// Reads a part of the version that the pass has pinned, of which `_snap` was copied, in one hold of the lock, as
    /// [`Store::read_part`](qd_store::Store::read_part) does.
    pub fn read_part<R: Wait>(
        &self,
        rt: &R,
        alloc: Global,
        pass: &mut Pass<V>,
        pin: &Pin,
        _snap: &Snap,
        table: usize,
        i: usize,
    ) -> Result<Block<SymbolMap>, LogFault>
        requires pass { pass.old.table ≡ self.now }
        requires pinned { IsPinned pass.old (pinned_at pin.now) }
        requires noted { Notes pass.old pin.now.n _snap.now.shape }
        requires there { (t : TableParts) × (p : Part) × HasPart _snap.now.shape table i t p }
        ensures reads { ReadsPart result pass.old pass.new (pinned_at pin.now) _snap.now.shape table i }
        ensures whole { IfOk result (λ b. IsWhole b) }
    {
        let mut hold = self.take(rt, &mut pass.seat);
        let block = hold.book().read_part(alloc, pin.row(), table, i);
        self.give(&mut pass.seat, hold);
        block
    }
}
