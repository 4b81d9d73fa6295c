//! What a thread uses a shared store with.
use crate::desk::Desk;
use qd_base::Schemas;
use qd_score::Seat;
use qd_volume::Volume;
use std::marker::Model;

/// What a thread uses a shared store with. It holds the lock in no call's end, and keeps a copy of the schemas that it found last, so
/// that a batch is made ready before the lock is taken.
///
/// Contracts see of which scoreboard it is, and what it knows.
#[derive(Drop)]
pub struct Pass<V: Volume + Drop> {
    pub(crate) seat: Seat<Desk<V>>,
    pub(crate) schemas: Option<Schemas>,
}

impl<V: Volume + Drop> Model for Pass<V> {
    ghost use Rattle.std.specs.Prelude.{◌≡◌, None, IfSome};
    ghost use Rattle.qd_base.specs.Lawful.{AreSchemas};
    ghost use Rattle.qd_manifest.specs.Spelling.{blocks_of};
    ghost use Rattle.qd_score.specs.Calls.{IsSeatOf, known_by, view_of};
    ghost use Rattle.qd_shared.specs.Passes.{HasDesk, Pass};

    ghost Value = { Pass };

    ghost view = { λ p. record { table = p.seat.table_id; knows = known_by p.seat } };

    ghost invariant = { λ p. IsSeatOf blocks_of p.seat.table_id p.seat × ((view_of p.seat).hold ≡ None) × HasDesk (known_by p.seat) × IfSome p.schemas AreSchemas };
}
