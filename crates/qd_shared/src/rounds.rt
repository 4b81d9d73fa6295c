//! Applies, in rounds.
ghost use Rattle.std.specs.Prelude.{◌≡◌, ◌≢◌, ◌<◌, ◌≤◌, ℕ, Err, IfSome, length};
ghost use Rattle.qd_catalog.specs.Versions.{version_at};
ghost use Rattle.qd_manifest.specs.Spelling.{blocks_of};
ghost use Rattle.qd_score.specs.Calls.{IsSeatOf, known_by};
ghost use Rattle.qd_score.specs.Calls as seats;
ghost use Rattle.qd_shared.specs.Desks.{items_in};
ghost use Rattle.qd_score_model.specs.declared.view.Mode.TheVariants.{Sole};
ghost use Rattle.qd_score_model.specs.declared.view.Phase.TheVariants.{Idle};
ghost use Rattle.qd_shared.specs.Holding.{IsLonely, MayEnd, SeesAll, Steps};
ghost use Rattle.qd_shared.specs.Passes.{history_of, view_of, Looks};
ghost use Rattle.qd_shared.specs.declared.rounds.RoundFault.TheVariants as fault;
ghost use Rattle.qd_shared.specs.Publishing.{IsNext, IsNextAt, IsRound};
ghost use Rattle.qd_shared.specs.Rounds.{current_row, Applies, BeginsRound, IsAnswered, IsApplied, IsThin, Passes, Purges};
ghost use Rattle.qd_store_backend.specs.Backs.{current, n_in};

use crate::desk::Desk;
use crate::pass::Pass;
use crate::shared::Shared;
use qd_io::IoFault;
use qd_score::{Hold, Seat};
use qd_store::{Draft, Merged};
use qd_volume::Volume;
use std::alloc::Global;
use std::sync::Wait;
use thiserror::Error;

/// Why an apply shows no more transactions.
#[derive(Clone, Copy, Debug, PartialEq, Eq, Error)]
pub enum RoundFault {
    /// The volume failed.
    #[error("the volume failed")]
    Vol,
    /// A file is damaged at a byte.
    #[error("file {file} is damaged at byte {at}")]
    Damaged { file: u64, at: u64 },
    /// All 64 rows hold live versions, and each but the current one is pinned.
    #[error("all rows of versions are pinned")]
    NoRow,
    /// There was no memory.
    #[error("out of memory")]
    Memory,
}

/// What a round begins with.
pub(crate) enum Begun {
    /// All transactions that are there are shown: so many.
    Shown { n: u64 },
    /// Some aren't: the first ones of them are drafted. The next new block gets this number.
    Drafted { draft: Draft, next_block: u64 },
}

/// The rows of versions.
const ROWS: u8 = 64;

impl<V: Volume + Drop> Shared<V> {
    /// Lets the version of a row go, where it is live, isn't the current one, and nobody has it pinned.
    fn retire_row(&self, seat: &mut Seat<Desk<V>>, hold: Hold<Desk<V>>, row: u8) -> Hold<Desk<V>>
        requires seat { IsSeatOf blocks_of self.now seat.old }
        requires may { MayEnd (known_by seat.old) hold.book }
        ensures seat { IsSeatOf blocks_of self.now seat.new }
        ensures may { MayEnd (known_by seat.new) result.book }
        ensures steps { Steps (known_by seat.old) (known_by seat.new) hold.book result.book }
        ensures items { items_in result.book ≡ items_in hold.book }
        ensures history { result.book.history ≡ hold.book.history }
        ensures shown { current result.book.owned.store ≡ current hold.book.owned.store }
        ensures current { current_row result.book ≡ current_row hold.book }
        ensures thin { IsThin result.book (known_by seat.new).view.refused row }
        ensures removed { result.book.removed ≡ hold.book.removed }
        ensures alone { IsLonely (known_by seat.old) (known_by seat.new) }
        ensures others { (other : ℕ) → other ≢ row → version_at result.book.owned.store.versions.versions other ≡ version_at hold.book.owned.store.versions.versions other }
    {
        let mut hold = hold;
        if !hold.book().may_retire(row) {
            return hold;
        }
        match self.score.retire(seat, &hold, row) {
            Ok(()) => hold.book().retire(row),
            Err(_) => {}
        }
        hold
    }

    /// Lets each version go that isn't the current one, and that nobody has pinned.
    fn retire_rows(&self, seat: &mut Seat<Desk<V>>, hold: Hold<Desk<V>>) -> Hold<Desk<V>>
        requires seat { IsSeatOf blocks_of self.now seat.old }
        requires may { MayEnd (known_by seat.old) hold.book }
        ensures seat { IsSeatOf blocks_of self.now seat.new }
        ensures may { MayEnd (known_by seat.new) result.book }
        ensures steps { Steps (known_by seat.old) (known_by seat.new) hold.book result.book }
        ensures items { items_in result.book ≡ items_in hold.book }
        ensures history { result.book.history ≡ hold.book.history }
        ensures shown { current result.book.owned.store ≡ current hold.book.owned.store }
        ensures removed { result.book.removed ≡ hold.book.removed }
        ensures alone { IsLonely (known_by seat.old) (known_by seat.new) }
        ensures thin { (row : ℕ) → row < 64 → IsThin result.book (known_by seat.new).view.refused row }
    {
        let mut hold = hold;
        for row in 0..ROWS {
            hold = self.retire_row(seat, hold, row);
        }
        hold
    }

    /// Shows a merge into the current version by a version that takes its place.
    fn show_merged(
        &self,
        alloc: Global,
        seat: &mut Seat<Desk<V>>,
        hold: Hold<Desk<V>>,
        merged: &Merged,
    ) -> (Hold<Desk<V>>, Result<u64, RoundFault>)
        requires seat { IsSeatOf blocks_of self.now seat.old }
        requires may { MayEnd (known_by seat.old) hold.book }
        requires thin { (row : ℕ) → row < 64 → IsThin hold.book (known_by seat.old).view.refused row }
        requires sees { SeesAll (known_by seat.old) hold.book }
        requires few { merged.now.upto ≤ length hold.book.owned.store.sequence.refs }
        requires next { IsNext hold.book merged.now }
        requires more { n_in (current hold.book.owned.store) < merged.now.upto }
        ensures seat { IsSeatOf blocks_of self.now seat.new }
        ensures may { MayEnd (known_by seat.new) result.0.book }
        ensures steps { Steps (known_by seat.old) (known_by seat.new) hold.book result.0.book }
        ensures items { items_in result.0.book ≡ items_in hold.book }
        ensures history { result.0.book.history ≡ hold.book.history }
        ensures shown { n_in (current hold.book.owned.store) ≤ n_in (current result.0.book.owned.store) }
        ensures applied { IsApplied merged.now.upto result.1 hold.book result.0.book (known_by seat.new).view.refused }
        ensures refused { (known_by seat.new).view.refused ≡ (known_by seat.old).view.refused }
    {
        let mut hold = hold;
        let number = merged.upto();
        match hold.book().show_merged(alloc, merged) {
            Ok(row) => {
                let hold = self.score.go_live(seat, hold, row);
                self.score.set_current(seat, &hold, number, row);
                (hold, Ok(number))
            }
            Err(fault) => (hold, Err(fault)),
        }
    }

    /// Shows a merge where it is still one into the current version; else another pass has shown more meanwhile, and nothing is done. It
    /// gives how many transactions are shown then.
    fn show(
        &self,
        alloc: Global,
        seat: &mut Seat<Desk<V>>,
        hold: Hold<Desk<V>>,
        merged: &Merged,
        next_block: u64,
    ) -> (Hold<Desk<V>>, Result<u64, RoundFault>)
        requires seat { IsSeatOf blocks_of self.now seat.old }
        requires may { MayEnd (known_by seat.old) hold.book }
        requires thin { (row : ℕ) → row < 64 → IsThin hold.book (known_by seat.old).view.refused row }
        requires sees { SeesAll (known_by seat.old) hold.book }
        requires few { merged.now.upto ≤ length hold.book.owned.store.sequence.refs }
        requires more { merged.now.base < merged.now.upto }
        requires next { IsNextAt hold.book merged.now next_block }
        ensures seat { IsSeatOf blocks_of self.now seat.new }
        ensures may { MayEnd (known_by seat.new) result.0.book }
        ensures steps { Steps (known_by seat.old) (known_by seat.new) hold.book result.0.book }
        ensures items { items_in result.0.book ≡ items_in hold.book }
        ensures history { result.0.book.history ≡ hold.book.history }
        ensures shown { n_in (current hold.book.owned.store) ≤ n_in (current result.0.book.owned.store) }
        ensures applied { IsApplied 0 result.1 hold.book result.0.book (known_by seat.new).view.refused }
        ensures refused { (known_by seat.new).view.refused ≡ (known_by seat.old).view.refused }
    {
        let mut hold = hold;
        if hold.book().fits(merged, next_block) {
            return self.show_merged(alloc, seat, hold, merged);
        }
        let n = hold.book().shown_n();
        (hold, Ok(n))
    }

    /// Drafts transactions that the current version lacks, in one hold of the lock, or says how many it shows where it lacks none.
    fn begin_round<R: Wait>(
        &self,
        rt: &R,
        alloc: Global,
        pass: &mut Pass<V>,
    ) -> Result<Begun, RoundFault>
        requires pass { pass.old.table ≡ self.now }
        ensures begins { BeginsRound result pass.old pass.new }
    {
        let mut hold = self.take(rt, &mut pass.seat);
        let begun = hold.book().begin_round(alloc);
        self.give(&mut pass.seat, hold);
        begun
    }

    /// Shows what was merged without the lock, in one hold of it, where no other pass has shown more meanwhile. It gives how many
    /// transactions are shown then.
    fn end_round<R: Wait>(
        &self,
        rt: &R,
        alloc: Global,
        pass: &mut Pass<V>,
        merged: &Merged,
        next_block: u64,
    ) -> Result<u64, RoundFault>
        requires pass { pass.old.table ≡ self.now }
        requires round { IsRound pass.old merged.now next_block }
        ensures passes { Passes pass.old pass.new }
        ensures answered { IsAnswered 0 result pass.old pass.new }
        ensures alone { (view_of pass.old).mode ≡ Sole → (view_of pass.old).phase ≡ Idle → result ≢ Err fault.NoRow }
    {
        let hold = self.take(rt, &mut pass.seat);
        let hold = self.retire_rows(&mut pass.seat, hold);
        let (hold, done) = self.show(alloc, &mut pass.seat, hold, merged, next_block);
        self.give(&mut pass.seat, hold);
        done
    }

    /// Makes one round, and gives how many transactions are shown behind it.
    fn make_round<R: Wait>(
        &self,
        rt: &R,
        alloc: Global,
        pass: &mut Pass<V>,
    ) -> Result<u64, RoundFault>
        requires pass { pass.old.table ≡ self.now }
        ensures passes { Passes pass.old pass.new }
        ensures answered { IsAnswered 0 result pass.old pass.new }
        ensures alone { (view_of pass.old).mode ≡ Sole → (view_of pass.old).phase ≡ Idle → result ≢ Err fault.NoRow }
    {
        match self.begin_round(rt, alloc, pass) {
            Ok(Begun::Shown { n }) => Ok(n),
            Ok(Begun::Drafted { draft, next_block }) => match draft.merge(alloc) {
                Ok(merged) => self.end_round(rt, alloc, pass, &merged, next_block),
                Err(_) => Err(RoundFault::Memory),
            },
            Err(fault) => Err(fault),
        }
    }

    /// Makes rounds until so many transactions are shown.
    fn make_rounds<R: Wait>(
        &self,
        rt: &R,
        alloc: Global,
        pass: &mut Pass<V>,
        least: u64,
    ) -> Result<u64, RoundFault>
        requires pass { pass.old.table ≡ self.now }
        requires counted { IfSome (history_of pass.old) (λ h. length (view_of pass.old).seen ≡ length h) }
        ensures passes { Passes pass.old pass.new }
        ensures answered { IsAnswered least result pass.old pass.new }
        ensures alone { (view_of pass.old).mode ≡ Sole → (view_of pass.old).phase ≡ Idle → result ≢ Err fault.NoRow }
    {
        'rounds: for _ in rt.forever() {
            match self.make_round(rt, alloc, pass) {
                Ok(n) => {
                    if n >= least {
                        return Ok(n);
                    }
                }
                Err(fault) => return Err(fault),
            }
        }
        unreachable!()
    }

    /// How many transactions there are, as one hold of the lock finds it.
    fn count<R: Wait>(&self, rt: &R, pass: &mut Pass<V>) -> u64
        requires pass { pass.old.table ≡ self.now }
        ensures looks { Looks pass.old pass.new }
        ensures count { result ≡ length (view_of pass.new).seen }
    {
        let mut hold = self.take(rt, &mut pass.seat);
        let count = hold.book().hist_len();
        self.give(&mut pass.seat, hold);
        count
    }

    /// Makes the transactions that are there the current version, and gives how many that shows. It goes on in rounds of some of them: they
    /// are read and planned in one hold of the lock, merged without it, and shown in another one; where another pass has shown more
    /// meanwhile, the next round begins with what is left. Each version that isn't the current one and that nobody has pinned is let go.
    ///
    /// A round takes [`Store::draft`](qd_store::Store::draft), the merge and [`Store::publish`](qd_store::Store::publish), over transactions
    /// of 16 MiB or one that is larger, and ends before the next one that sets keys. After an `Err` no fewer are shown than before. `NoRow` comes only where each row but the current
    /// one was found pinned, and never to a Sole pass without a pin; all may be asked again.
    pub fn catch_up<R: Wait>(
        &self,
        rt: &R,
        alloc: Global,
        pass: &mut Pass<V>,
    ) -> Result<u64, RoundFault>
        requires pass { pass.old.table ≡ self.now }
        ensures applies { Applies result pass.old pass.new }
        ensures alone { (view_of pass.old).mode ≡ Sole → (view_of pass.old).phase ≡ Idle → result ≢ Err fault.NoRow }
    {
        let least = self.count(rt, pass);
        self.make_rounds(rt, alloc, pass, least)
    }

    /// Lets each version go that isn't the current one and that nobody has pinned, and removes the blocks that no version lists any
    /// more, in one hold of the lock. It gives how many blocks were removed. After an `Err` those that are left are queued as before,
    /// and it may be asked again.
    pub fn purge<R: Wait>(&self, rt: &R, pass: &mut Pass<V>) -> Result<u64, IoFault>
        requires pass { pass.old.table ≡ self.now }
        ensures purges { Purges result pass.old pass.new }
    {
        let hold = self.take(rt, &mut pass.seat);
        let mut hold = self.retire_rows(&mut pass.seat, hold);
        let done = hold.book().sweep_all();
        self.give(&mut pass.seat, hold);
        done
    }
}
