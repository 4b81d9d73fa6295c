//! A store that many threads share.
ghost use Rattle.std.specs.Prelude.{◌≡◌, ◌≢◌, IfErr, IfOk, [], None};
ghost use Rattle.qd_manifest.specs.Spelling.{blocks_of};
ghost use Rattle.qd_score.specs.Calls as seats;
ghost use Rattle.qd_score.specs.Calls.{IsSeatOf, known_by};
ghost use Rattle.qd_score.specs.Rule.{first_seat, with_view};
ghost use Rattle.qd_score_model.specs.declared.view.Mode.TheVariants.{Keeper, Sole, Writer};
ghost use Rattle.qd_score_model.specs.declared.view.Phase.TheVariants.{Idle};
ghost use Rattle.qd_score_model.specs.Machine as machine;
ghost use Rattle.qd_score_model.specs.Machine.{MaySplit, lent, newcomer};
ghost use Rattle.qd_shared.specs.Commits.{IsCounted};
ghost use Rattle.qd_shared.specs.Holding.{Along, Begins, Comes, Finds, Gives, MayEnd};
ghost use Rattle.qd_shared.specs.Passes.{view_of, Closes, IsJoined, IsPart, Looks, Starts};
ghost use Rattle.qd_store.specs.Opening.{HasFirstRow};
ghost use Rattle.qd_store_backend.specs.Backs.{AreUsual, BeginsWith};

use crate::bell::Bell;
use crate::desk::Desk;
use crate::pass::Pass;
use qd_ghost::Telling;
use qd_score::{Hold, Score, Seat};
use qd_score_model::Mode;
use qd_store::Store;
use qd_volume::Volume;
use std::alloc::Global;
use std::marker::Model;
use std::sync::Wait;

/// A store that many threads share, each with a [`Pass`].
///
/// Contracts see which scoreboard it is.
#[derive(Drop)]
pub struct Shared<V: Volume + Drop> {
    pub(crate) score: Score<Desk<V>>,
    pub(crate) bell: Bell,
}

impl<V: Volume + Drop> Model for Shared<V> {
    ghost use Rattle.atomic_table.specs.Seated.{TableId};

    ghost Value = { TableId };

    ghost view = { λ s. s.score.table.shared.table_id };
}

impl<V: Volume + Drop> Shared<V> {
    /// Shares a store, whose first row is its one live one, with one pass: a Sole one, which may be made a Writer by
    /// [`Shared::share`]. Where a history is told of the store, `told` has that. Where there is no memory the store comes back.
    pub fn start(
        alloc: Global,
        store: Store<V>,
        told: &Telling,
    ) -> Result<(Shared<V>, Pass<V>), Store<V>>
        requires usual { AreUsual store.store.limits }
        requires first { HasFirstRow store.store.versions.versions }
        requires told { BeginsWith told.now.history store }
        ensures pass { IfOk result (λ r. r.1.table ≡ r.0) }
        ensures starts { IfOk result (λ r. Starts r.1 store told.now.history) }
        ensures back { IfErr result (λ s. s ≡ store) }
    {
        store.keeps_its_law();
        match Score::start(alloc, Desk::of(store, told)) {
            Ok((score, seat)) => Ok((
                Shared {
                    score,
                    bell: Bell::new(),
                },
                Pass {
                    seat,
                    schemas: None,
                },
            )),
            Err(desk) => Err(desk.into_store()),
        }
    }

    /// Makes a Sole pass a Writer, for good.
    pub fn share(&self, pass: &mut Pass<V>)
        requires pass { pass.old.table ≡ self.now }
        requires sole { (view_of pass.old).mode ≡ Sole }
        ensures table { pass.new.table ≡ pass.old.table }
        ensures origin { pass.new.knows.origin ≡ pass.old.knows.origin }
        ensures view { view_of pass.new ≡ machine.shared (view_of pass.old) }
    {
        self.score.share(&mut pass.seat);
    }

    /// Splits a Writer off a Writer. The new pass has seen what this one has.
    pub fn split(&self, alloc: Global, pass: &mut Pass<V>) -> Pass<V>
        requires pass { pass.old.table ≡ self.now }
        requires may { MaySplit (view_of pass.old) Writer }
        ensures table { pass.new.table ≡ pass.old.table }
        ensures origin { pass.new.knows.origin ≡ pass.old.knows.origin }
        ensures lent { view_of pass.new ≡ lent (view_of pass.old) }
        ensures part { IsPart Writer pass.old result }
    {
        match self.score.split(alloc, &mut pass.seat, Mode::Writer) {
            Ok(seat) => Pass {
                seat,
                schemas: None,
            },
            Err(_) => unreachable!(),
        }
    }

    /// Splits a Keeper off: a pass that applies and purges, and neither writes nor pins. It has seen what this one has.
    pub fn split_keeper(&self, alloc: Global, pass: &mut Pass<V>) -> Pass<V>
        requires pass { pass.old.table ≡ self.now }
        requires may { MaySplit (view_of pass.old) Keeper }
        ensures table { pass.new.table ≡ pass.old.table }
        ensures origin { pass.new.knows.origin ≡ pass.old.knows.origin }
        ensures lent { view_of pass.new ≡ lent (view_of pass.old) }
        ensures part { IsPart Keeper pass.old result }
    {
        match self.score.split(alloc, &mut pass.seat, Mode::Keeper) {
            Ok(seat) => Pass {
                seat,
                schemas: None,
            },
            Err(_) => unreachable!(),
        }
    }

    /// The bell that each commit rings, for a worker that applies.
    pub fn bell(&self) -> &Bell {
        &self.bell
    }

    /// Takes in another pass, which has no pin: what that one has seen and knows.
    pub fn join(&self, pass: &mut Pass<V>, other: Pass<V>)
        requires pass { pass.old.table ≡ self.now }
        requires other { other.table ≡ self.now }
        requires idle { (view_of other).phase ≡ Idle }
        ensures joined { IsJoined pass.old other pass.new }
    {
        let Pass { seat, schemas: _ } = other;
        self.score.join(&mut pass.seat, seat);
    }

    /// Looks at the store: takes the lock, and gives it back with the desk as it is.
    pub fn look<R: Wait>(&self, rt: &R, pass: &mut Pass<V>)
        requires pass { pass.old.table ≡ self.now }
        ensures holds { Looks pass.old pass.new }
    {
        let hold = self.take(rt, &mut pass.seat);
        self.give(&mut pass.seat, hold);
    }

    /// Takes the lock, and the desk with it; waits while another thread holds it.
    pub(crate) fn take<R: Wait>(&self, rt: &R, seat: &mut Seat<Desk<V>>) -> Hold<Desk<V>>
        requires seat { IsSeatOf blocks_of self.now seat.old }
        requires free { (seats.view_of seat.old).hold ≡ None }
        ensures seat { IsSeatOf blocks_of self.now seat.new }
        ensures begins { Begins (known_by seat.old) result.book }
        ensures finds { Finds (known_by seat.old) result.book }
        ensures along { Along (known_by seat.old) (known_by seat.new) result.book }
        ensures may { MayEnd (known_by seat.new) result.book }
        ensures comes { Comes (known_by seat.new) result.book }
        ensures counted { IsCounted result.book }
        ensures fresh { (seats.view_of seat.new).refused ≡ [] }
    {
        let mut hold = self.score.take(rt, seat);
        hold.book().is_told();
        hold
    }

    /// Gives the lock back, and the desk with it.
    pub(crate) fn give(&self, seat: &mut Seat<Desk<V>>, hold: Hold<Desk<V>>)
        requires seat { IsSeatOf blocks_of self.now seat.old }
        requires may { MayEnd (known_by seat.old) hold.book }
        requires comes { Comes (known_by seat.old) hold.book }
        ensures seat { IsSeatOf blocks_of self.now seat.new }
        ensures free { (seats.view_of seat.new).hold ≡ None }
        ensures gave { Gives (known_by seat.old) (known_by seat.new) hold.book }
        ensures counted { IsCounted hold.book }
    {
        let mut hold = hold;
        hold.book().is_told();
        self.score.give(seat, hold);
    }

    /// Takes the lock for good, and gives the store. What the pass had seen is the beginning of the store's history, where that is
    /// told, and its version is no older than the pass knew. Whoever asks for the lock behind that waits without end: it is for the
    /// last pass, which has joined all others.
    pub fn close<R: Wait>(&self, rt: &R, pass: Pass<V>) -> Store<V>
        requires pass { pass.table ≡ self.now }
        ensures closes { Closes pass result }
    {
        let Pass {
            mut seat,
            schemas: _,
        } = pass;
        let hold = self.take(rt, &mut seat);
        hold.into_book().into_store()
    }
}
