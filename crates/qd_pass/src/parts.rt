//! A pinned version as a source of the parts of tables.
ghost use Rattle.std.specs.Prelude.{◌≡◌, None};
ghost use Rattle.qd_shared.specs.Snaps.{pinned_at, IsPinned};
ghost use Rattle.qd_pass.specs.Memos.{IsMemoOf};
ghost use Rattle.qd_pass.specs.Passed.{IsCounted};
ghost use Rattle.qd_pass.specs.Reading.{shown_of, fixed_of, IsEnded, IsReading};

use crate::memo::Memo;
use qd_base::{PartList, Schemas};
use qd_block::Block;
use qd_durable::LogFault;
use qd_ghost::Seen;
use qd_scan::{PartFault, PartSource};
use qd_score::Pin;
use qd_shared::{Pass, Shared};
use qd_symbols::SymbolMap;
use qd_volume::Volume;
use std::alloc::Global;
use std::marker::Model;
use std::sync::{Arc, Wait};

/// The version that a pass has pinned, as a source of parts. The blocks that were asked for last are kept; each other one is read in
/// a hold of the lock.
pub(crate) struct PinnedParts<'a, R, V: Volume + Drop> {
    rt: &'a R,
    shared: &'a Shared<V>,
    pass: Pass<V>,
    pin: Pin,
    memo: Memo,
    from: Seen<Pass<V>>,
    damages: u64,
    last_damage: Option<(u64, u64)>,
}

impl<'a, R, V: Volume + Drop> Model for PinnedParts<'a, R, V> {
    ghost use Rattle.std.specs.Prelude.{◌≡◌};
    ghost use Rattle.qd_shared.specs.Snaps.{pinned_at};
    ghost use Rattle.qd_pass.specs.Reading.{IsReading, Reading};

    ghost Value = { Reading };

    ghost view = { λ p. record { from = p.from.was; pass = p.pass; pin = pinned_at p.pin; memo = p.memo; damages = p.damages; last_damage = p.last_damage } };

    ghost invariant = { λ p. (p.pass.table ≡ p.shared.now) × IsReading (record { from = p.from.was; pass = p.pass; pin = pinned_at p.pin; memo = p.memo; damages = p.damages; last_damage = p.last_damage }) };
}

impl<'a, R: Wait, V: Volume + Drop> PinnedParts<'a, R, V> {
    /// The version that the pass has pinned, with its memo.
    pub(crate) fn over(
        rt: &'a R,
        shared: &'a Shared<V>,
        pass: Pass<V>,
        pin: Pin,
        memo: Memo,
    ) -> PinnedParts<'a, R, V>
        requires pass { pass.table ≡ shared.now }
        requires counted { IsCounted pass }
        requires pinned { IsPinned pass (pinned_at pin) }
        requires number { memo.snap.n ≡ pin.n }
        requires memo { IsMemoOf pass memo }
        ensures { result ≡ record { from = pass; pass = pass; pin = pinned_at pin; memo = memo; damages = 0; last_damage = None } }
    {
        PinnedParts {
            from: Seen::of(&pass),
            rt,
            shared,
            pass,
            pin,
            memo,
            damages: 0,
            last_damage: None,
        }
    }

    /// Lets the version go, and gives the pass back, and what is kept of the version.
    pub(crate) fn end(self) -> (Pass<V>, Memo)
        ensures reading { IsReading self.entry }
        ensures ended { IsEnded self.entry result.0 }
        ensures memo { IsMemoOf result.0 result.1 }
    {
        let PinnedParts {
            rt: _,
            shared,
            mut pass,
            pin,
            memo,
            from: _,
            damages: _,
            last_damage: _,
        } = self;
        shared.release(&mut pass, pin);
        (pass, memo)
    }
}

impl<R: Wait, V: Volume + Drop> PartSource for PinnedParts<'_, R, V> {
    type Fixed = Pass<V>;

    ghost shown = { shown_of };

    ghost asked = { λ _. None };

    ghost fixed = { fixed_of };

    fn schemas(&self) -> &Schemas {
        &self.memo.snap.schemas
    }

    fn parts(&self, table: usize) -> &PartList {
        &self.memo.snap.shape.get(table).parts
    }

    /// Gives the block of a part: the one that is kept, or else it is read in a hold of the lock, and kept.
    fn part(
        &mut self,
        alloc: Global,
        table: usize,
        i: usize,
    ) -> Result<Arc<Block<SymbolMap>>, PartFault> {
        if let Some(block) = self.memo.kept.find(table, i)? {
            return Ok(block);
        }
        match self.shared.read_part(
            self.rt,
            alloc,
            &mut self.pass,
            &self.pin,
            &self.memo.snap,
            table,
            i,
        ) {
            Ok(block) => Ok(self.memo.kept.share(alloc, table, i, block)?),
            Err(LogFault::Vol) => Err(PartFault::Vol),
            Err(LogFault::Damaged { file, at }) => {
                self.damages = self.damages.saturating_add(1);
                self.last_damage = Some((file, at));
                Err(PartFault::Damaged { file, at })
            }
            Err(LogFault::Memory) => Err(PartFault::Memory),
        }
    }

    fn keeps_its_law(&self) {
        let _ = &self.memo;
    }
}
