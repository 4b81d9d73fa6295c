//! One connection, as a job for a thread.
ghost use Rattle.std.specs.Arc.{arc_value};
ghost use Rattle.std.specs.Prelude.{◌≡◌, ◌≢◌};
ghost use Rattle.qd_shared.specs.Passes.{view_of};
ghost use Rattle.qd_connections.specs.Visits.{IsServed, MayVisit};

use qd_fronts::{AnyFront, FrontKind};
use qd_io::Clock;
use qd_net::Wire;
use qd_pass::PassBack;
use qd_session::{Ended, serve};
use qd_shared::{Pass, Shared};
use qd_threads::Job;
use qd_volume::Volume;
use std::alloc::Global;
use std::marker::Model;
use std::sync::{Arc, Wait};

/// A connection, and what its session needs: the protocol that it speaks, a clock, and a pass of the store.
///
/// Contracts see what they show.
#[derive(Drop)]
pub struct Visit<W: Wire, C: Clock, V: Volume + Drop> {
    alloc: Global,
    front: FrontKind,
    wire: W,
    clock: C,
    shared: Arc<Shared<V>>,
    pass: Pass<V>,
}

impl<W: Wire, C: Clock, V: Volume + Drop> Model for Visit<W, C, V> {
    ghost use Rattle.std.specs.Arc.{arc_value};
    ghost use Rattle.std.specs.Prelude.{◌≡◌};
    ghost use Rattle.qd_connections.specs.Visits.{MayVisit, Visit};

    ghost Value = { Visit };

    ghost view = { λ v. record { front = v.front; wire = W.stream v.wire; clock = C.timeline v.clock; pass = v.pass } };

    ghost invariant = { λ v. (v.pass.table ≡ arc_value v.shared) × MayVisit v.pass };
}

impl<W: Wire, C: Clock, V: Volume + Drop> Visit<W, C, V> {
    /// A connection that speaks this protocol, with a clock and a pass of this store.
    pub fn new(
        alloc: Global,
        front: FrontKind,
        wire: W,
        clock: C,
        shared: Arc<Shared<V>>,
        pass: Pass<V>,
    ) -> Visit<W, C, V>
        requires pass { pass.table ≡ arc_value shared }
        requires may { MayVisit pass }
        ensures { result ≡ record { front = front; wire = W.stream wire; clock = C.timeline clock; pass = pass } }
    {
        Visit {
            alloc,
            front,
            wire,
            clock,
            shared,
            pass,
        }
    }

    /// Gives its wire, its clock and its pass.
    pub fn into_parts(self) -> (W, C, Pass<V>)
        ensures wire { W.stream result.0 ≡ self.wire }
        ensures clock { C.timeline result.1 ≡ self.clock }
        ensures pass { result.2 ≡ self.pass }
        ensures may { MayVisit result.2 }
    {
        let Visit {
            alloc: _,
            front: _,
            wire,
            clock,
            shared: _,
            pass,
        } = self;
        (wire, clock, pass)
    }
}

/// What a session gives back of its connection, and how it ended.
#[derive(Drop)]
pub struct Visited<W: Wire, C: Clock, V: Volume + Drop> {
    pub wire: W,
    pub clock: C,
    pub pass: Pass<V>,
    pub ended: Ended,
}

impl<W: Wire, C: Clock, V: Volume + Drop> Model for Visited<W, C, V> {
    ghost use Rattle.qd_connections.specs.Visits.{Visited};

    ghost Value = { Visited };

    ghost view = { λ v. record { wire = W.stream v.wire; clock = C.timeline v.clock; pass = v.pass; ended = v.ended } };
}

impl<
    W: Wire + Send + Drop + 'static,
    C: Clock + Send + Drop + 'static,
    V: Volume + Send + Drop + 'static,
> Job for Visit<W, C, V> {
    type Out = Visited<W, C, V>;

    ghost use Rattle.qd_connections.specs.Visits.{IsServed};

    ghost gives = { IsServed };

    /// Holds the session, from its first request to the end of the input, a fault, or a request for the end.
    fn run<R: Wait>(self, rt: &R) -> Visited<W, C, V>
        ensures given { IsServed self result }
    {
        let Visit {
            alloc,
            front,
            mut wire,
            mut clock,
            shared,
            pass,
        } = self;
        let mut front = AnyFront::new(alloc, front);
        let mut back = PassBack::new(rt, shared, pass);
        let ended = serve(alloc, &mut front, &mut back, &mut wire, &mut clock);
        wire.hang_up();
        Visited {
            wire,
            clock,
            pass: back.end(),
            ended,
        }
    }
}
