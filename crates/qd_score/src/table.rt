//! The table of words, what its seats know, and what each step tells.
use crate::booked::Booked;
use atomic_table::{Join, Play, Split, TableRule};
use qd_score_model::View;
use std::snapshot::Snapshot;

/// What a seat at the table knows: its view, and the book that the score was started over. No value of it is made.
pub struct Knows<I, S, B> {
    pub view: View<I, S>,
    pub origin: Option<B>,
}

/// What a seat of a score over this book knows.
pub type KnowsOf<B> = Knows<<B as Booked>::Item, <B as Booked>::Shape, B>;

/// The rule of the table.
pub struct Scored;

impl<B: Booked> TableRule<Option<B>, KnowsOf<B>, Snapshot<B>> for Scored {
    ghost use Rattle.qd_score.specs.Rule.{Ruled, first_seat};

    ghost holds = { λ _. Ruled B.book B.sound B.fixed B.blocks };

    ghost first = { λ key. first_seat B.book B.sound B.fixed key.value };
}

/// The lock is taken, or found taken.
pub(crate) struct Take;

impl<B: Booked> Play<Option<B>, KnowsOf<B>> for Take {
    ghost use Rattle.qd_score.specs.Plays.{Takes};

    ghost then = { Takes B.book B.sound B.fixed B.blocks };
}

/// The lock is given back.
pub(crate) struct Give;

impl<B: Booked> Play<Option<B>, KnowsOf<B>> for Give {
    ghost use Rattle.qd_score.specs.Plays.{Gives};

    ghost then = { Gives B.book B.sound B.fixed B.blocks };
}

/// A look that changes nothing.
pub(crate) struct Learn;

impl<B: Booked> Play<Option<B>, KnowsOf<B>> for Learn {
    ghost use Rattle.qd_score.specs.Plays.{Learns};

    ghost then = { Learns B.blocks };
}

/// A Sole seat becomes a Writer.
pub(crate) struct Share;

impl<B: Booked> Play<Option<B>, KnowsOf<B>> for Share {
    ghost use Rattle.qd_score.specs.Plays.{Shares};

    ghost then = { Shares B.blocks };
}

/// A Keeper is split off.
pub(crate) struct KeeperOff;

impl<B: Booked> Split<KnowsOf<B>> for KeeperOff {
    ghost use Rattle.qd_score_model.specs.Machine.{lent, newcomer};
    ghost use Rattle.qd_score_model.specs.declared.view.Mode.TheVariants.{Keeper};
    ghost use Rattle.qd_score.specs.Rule.{with_view};

    ghost left = { λ k. with_view k (lent k.view) };

    ghost right = { λ k. with_view k (newcomer k.view Keeper) };
}

/// A Writer is split off a Writer.
pub(crate) struct WriterOff;

impl<B: Booked> Split<KnowsOf<B>> for WriterOff {
    ghost use Rattle.qd_score_model.specs.Machine.{lent, newcomer};
    ghost use Rattle.qd_score_model.specs.declared.view.Mode.TheVariants.{Writer};
    ghost use Rattle.qd_score.specs.Rule.{with_view};

    ghost left = { λ k. with_view k (lent k.view) };

    ghost right = { λ k. with_view k (newcomer k.view Writer) };
}

/// One seat goes into another.
pub(crate) struct Merge;

impl<B: Booked> Join<KnowsOf<B>> for Merge {
    ghost use Rattle.qd_score_model.specs.Machine.{joined};
    ghost use Rattle.qd_score.specs.Rule.{with_view, nobody};

    ghost both = { λ k other. with_view k (joined k.view other.view) };

    ghost spent = { nobody };
}

/// The current place is looked at.
pub(crate) struct Look;

impl<B: Booked> Play<Option<B>, KnowsOf<B>> for Look {
    ghost use Rattle.qd_score.specs.Pinning.{Looks};

    ghost then = { Looks B.blocks };
}

/// A row is counted on.
pub(crate) struct Raise;

impl<B: Booked> Play<Option<B>, KnowsOf<B>> for Raise {
    ghost use Rattle.qd_score.specs.Pinning.{Raises};

    ghost then = { Raises B.blocks };
}

/// The current place is looked at again.
pub(crate) struct Confirm;

impl<B: Booked> Play<Option<B>, KnowsOf<B>> for Confirm {
    ghost use Rattle.qd_score.specs.Pinning.{Confirms};

    ghost then = { Confirms B.blocks };
}

/// A row is no longer counted on.
pub(crate) struct Release;

impl<B: Booked> Play<Option<B>, KnowsOf<B>> for Release {
    ghost use Rattle.qd_score.specs.Pinning.{Releases};

    ghost then = { Releases B.blocks };
}

/// The holder of the lock reads the current place.
pub(crate) struct Read;

impl<B: Booked> Play<Option<B>, KnowsOf<B>> for Read {
    ghost use Rattle.qd_score.specs.Pinning.{Reads};

    ghost then = { Reads B.blocks };
}

/// The holder of the lock counts on the current row.
pub(crate) struct HeldRaise;

impl<B: Booked> Play<Option<B>, KnowsOf<B>> for HeldRaise {
    ghost use Rattle.qd_score.specs.Pinning.{HeldRaises};

    ghost then = { HeldRaises B.blocks };
}

/// A version goes live in a row.
pub(crate) struct GoLive;

impl<B: Booked> Play<Option<B>, KnowsOf<B>> for GoLive {
    ghost use Rattle.qd_score.specs.Publishing.{GoesLive};

    ghost then = { GoesLive B.book B.blocks };
}

/// A place becomes the current one.
pub(crate) struct SetCurrent;

impl<B: Booked> Play<Option<B>, KnowsOf<B>> for SetCurrent {
    ghost use Rattle.qd_score.specs.Publishing.{SetsCurrent};

    ghost then = { SetsCurrent B.blocks };
}

/// A row is retired, or found pinned.
pub(crate) struct Retire;

impl<B: Booked> Play<Option<B>, KnowsOf<B>> for Retire {
    ghost use Rattle.qd_score.specs.Publishing.{Retires};

    ghost then = { Retires B.blocks };
}
