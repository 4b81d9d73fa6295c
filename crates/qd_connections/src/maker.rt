//! What makes the works of connections, and takes back what they give.
ghost use Rattle.std.specs.Arc.{arc_value};
ghost use Rattle.std.specs.Prelude.{◌≡◌, false};

use crate::away::turn_away;
use crate::visit::{Visit, Visited};
use qd_fronts::FrontKind;
use qd_ghost::Seen;
use qd_host::Host;
use qd_io::Memory;
use qd_net::Listener;
use qd_server::Maker;
use qd_shared::{Pass, Shared};
use qd_threads::Job;
use std::alloc::Global;
use std::sync::Arc;

/// Serves the connections of a host over a shared store, by one protocol: each gets a clock of the host, and a pass that is split off the main one. What
/// comes back is given back to the host, and joined to the main pass.
pub struct Connections<'a, H: Host> {
    pub(crate) alloc: Global,
    pub(crate) kind: FrontKind,
    pub(crate) host: &'a mut H,
    pub(crate) shared: Arc<Shared<H::Vol>>,
    pub(crate) main: Pass<H::Vol>,
    /// There was no memory for a connection.
    pub(crate) starved: bool,
    pub(crate) began: Seen<&'a mut H>,
    pub(crate) first: Seen<Pass<H::Vol>>,
}

impl<'a, H: Host> Connections<'a, H> {
    /// Serves none yet.
    pub fn new(
        alloc: Global,
        kind: FrontKind,
        host: &'a mut H,
        shared: Arc<Shared<H::Vol>>,
        main: Pass<H::Vol>,
    ) -> Connections<'a, H>
        ensures host { result.host ≡ host.entry }
        ensures began { result.began.was ≡ host.entry }
        ensures first { result.first.was ≡ main }
        ensures main { result.main ≡ main }
        ensures shared { arc_value result.shared ≡ arc_value shared }
        ensures fed { result.starved ≡ false }
        ensures kind { result.kind ≡ kind }
    {
        Connections {
            began: Seen::of(&host),
            first: Seen::of(&main),
            alloc,
            kind,
            host,
            shared,
            main,
            starved: false,
        }
    }
}

impl<'a, H: Host> Maker<<H::Lst as Listener>::Wire> for Connections<'a, H> {
    type Work = Visit<<H::Lst as Listener>::Wire, H::Clk, H::Vol>;

    type Fixed = (Seen<&'a mut H>, Seen<Pass<H::Vol>>, FrontKind);

    ghost use Rattle.std.specs.Arc.{arc_value};
    ghost use Rattle.qd_shared.specs.Passes.{view_of};
    ghost use Rattle.qd_connections.specs.Making.{IsLent, IsCounted};

    ghost works = { λ m s. IsLent m.began.was.ghost_name m.host.ghost_name (H.supply m.began.was.now) (H.supply m.host.now) (arc_value m.shared) m.first.was m.main × IsCounted H.Lst.Wire.stream m.kind (view_of m.first.was).room (H.supply m.began.was.now) (H.supply m.host.now) m.main m.starved s };

    ghost fixed = { λ m. (m.began, m.first, m.kind) };

    /// Gives a connection a clock and a pass. Where there is no memory for it the host is given it back.
    fn make(&mut self, wire: <H::Lst as Listener>::Wire) -> Result<Self::Work, Memory> {
        let shared = match Arc::try_clone(&self.shared) {
            Ok(shared) => shared,
            Err(fault) => {
                self.starved = true;
                self.host.give_back(wire);
                return Err(fault);
            }
        };
        let clock = self.host.clock();
        let pass = self.shared.split(self.alloc, &mut self.main);
        Ok(Visit::new(self.alloc, self.kind, wire, clock, shared, pass))
    }

    /// Turns a connection away, and takes it back.
    fn refused(&mut self, work: Self::Work) {
        let (mut wire, clock, pass) = work.into_parts();
        turn_away(self.alloc, self.kind, &mut wire);
        self.host.clock_back(clock);
        self.host.give_back(wire);
        self.shared.join(&mut self.main, pass);
    }

    /// Takes a connection back whose session is over.
    fn done(&mut self, out: <Self::Work as Job>::Out) {
        let Visited {
            wire,
            clock,
            pass,
            ended: _,
        } = out;
        self.host.clock_back(clock);
        self.host.give_back(wire);
        self.shared.join(&mut self.main, pass);
    }
}
