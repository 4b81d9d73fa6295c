//! All connections of a listener are served.
ghost use Rattle.std.specs.Arc.{arc_value};
ghost use Rattle.std.specs.Prelude.{◌≡◌, []};
ghost use Rattle.qd_io.specs.Ends.{Counts};
ghost use Rattle.qd_server.specs.declared.maker.TheConstants.{MOST};
ghost use Rattle.qd_shared.specs.Passes.{view_of};
ghost use Rattle.qd_connections.specs.Accounts.{IsMain};
ghost use Rattle.qd_connections.specs.Serving.{ServesAll};

use crate::maker::Connections;
use qd_fronts::FrontKind;
use qd_host::Host;
use qd_io::IoFault;
use qd_net::Listener;
use qd_server::accept_all;
use qd_shared::{Pass, Shared};
use qd_threads::Threads;
use qd_volume::Volume;
use std::alloc::Global;
use std::sync::{Arc, Wait};
use std::thread;
use std::time::Clock;

/// What serving the connections of a listener came to.
#[derive(Drop)]
pub struct Served<V: Volume + Drop> {
    /// How many were taken, up to the greatest `u64`, or why no more were.
    pub ended: Result<u64, IoFault>,
    /// There was no memory for one of them, which was given back as it came.
    pub starved: bool,
    /// The store.
    pub shared: Arc<Shared<V>>,
    /// The pass that those of all sessions were joined to.
    pub main: Pass<V>,
}

/// Serves the connections of a listener over a shared store, each by a session of this protocol in a thread of its own, and at most 64 at once, until
/// `most` were taken, which 0 never is, none comes any more, or the listener fails or finds no memory. Then it waits for the sessions
/// that go on.
///
/// Each connection is given back to the host, once, when its session is over; where no thread can be started for it, it is refused
/// by code 50. The sessions' passes are split off `main`, and joined to it again.
pub fn serve_connections<R: thread::Threads + Wait + Clock + Copy + Send + Drop + 'static, H: Host>(
    rt: &R,
    alloc: Global,
    kind: FrontKind,
    host: &mut H,
    listener: &mut H::Lst,
    shared: Arc<Shared<H::Vol>>,
    main: Pass<H::Vol>,
    most: u64,
) -> Served<H::Vol>
    requires pass { main.table ≡ arc_value shared }
    requires main { IsMain main 0 MOST }
    requires new { (view_of main).own ≡ [] }
    ensures serves { ServesAll H.Lst.Wire.stream kind (H.supply host.old) (H.supply host.new) (H.Lst.arrivals listener.old) (H.Lst.arrivals listener.new) main result.main result.starved most result.ended }
    ensures shared { arc_value result.shared ≡ arc_value shared }
    ensures counted { Counts (H.Lst.arrivals listener.old).faults (H.Lst.arrivals listener.new).faults result.ended }
{
    let mut threads = Threads::new(*rt, alloc);
    threads.set_refuses(host.refuses_starts());
    let mut maker = Connections::new(alloc, kind, host, shared, main);
    let ended = accept_all(rt, alloc, listener, &mut threads, &mut maker, most);
    let Connections {
        alloc: _,
        kind: _,
        host,
        shared,
        main,
        starved,
        began: _,
        first: _,
    } = maker;
    host.starts_back(threads.starts_failed());
    Served {
        ended,
        starved,
        shared,
        main,
    }
}
