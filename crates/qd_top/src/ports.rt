//! The connections of a port are served over the store of the host's volume.
ghost use Rattle.std.specs.Arc.{arc_value};
ghost use Rattle.std.specs.Prelude.{◌≡◌, List, [], Option, Some, IfSome};
ghost use Rattle.qd_base.specs.declared.op.Entry.{Entry};
ghost use Rattle.qd_connections.specs.Accounts.{IsMain};
ghost use Rattle.qd_host.specs.Hosts.{after_volume};
ghost use Rattle.qd_io.specs.Ends.{Stream};
ghost use Rattle.qd_score_model.specs.declared.limits.TheConstants.{MAX_SPLITS};
ghost use Rattle.qd_server.specs.declared.maker.TheConstants.{MOST};
ghost use Rattle.qd_shared.specs.Passes.{history_of, view_of};
ghost use Rattle.qd_store.specs.Opening.{HasFirstRow};
ghost use Rattle.qd_store_backend.specs.Backs.{AreUsual, BeginsWith, IsTold};
ghost use Rattle.qd_store_backend.specs.Volumes.{MayFind};
ghost use Rattle.qd_top.specs.Ports.{listener_status, serving_status, IsFirst, Listens, ServedBy};
ghost use Rattle.qd_top.specs.Run.{CountsWrites, KeepsSome, ServedAll, ServedPort, traffic};
ghost use Rattle.qd_top.specs.Stores.{Names};

use crate::opening::{open_host, refuse_store};
use crate::status::Status;
use qd_connections::{Served, serve_connections};
use qd_fronts::FrontKind;
use qd_ghost::Telling;
use qd_host::{Host, faults_come_back};
use qd_io::{IoFault, Sink};
use qd_shared::{Pass, Shared};
use qd_store::{Store, stores_are_whole};
use qd_wal::one_entry_is_read;
use qd_worker::Worker;
use std::alloc::Global;
use std::sync::{Arc, Wait};
use std::thread;
use std::time::Clock;

/// Opens the store of the volume that the host gives for a folder, or makes it, serves the connections of a port over it, and gives the
/// volume back. Where there is no such store, no port is asked for, and only the place of a damage is written.
pub(crate) fn serve_port<
    R: thread::Threads + Wait + Clock + Copy + Send + Drop + 'static,
    K: Sink,
    H: Host,
>(
    rt: &R,
    alloc: Global,
    told: &Telling,
    kind: FrontKind,
    port: u16,
    dir: &[u8],
    most: u64,
    output: &mut K,
    host: &mut H,
) -> Status
    requires found { MayFind told.now.history (H.supply host.old).shelf }
    ensures served { (input : Stream) → ServedPort kind told.now.history (H.supply host.old) (H.supply host.new) port most (traffic input input (K.stream output.old) (K.stream output.new)) result }
    ensures named { Names (H.supply host.old).folders (H.supply host.new).folders (Some dir.now) (result ≡ Status.NoMemory) }
    ensures writes { CountsWrites (K.stream output.old).writes_failed (K.stream output.new).writes_failed result }
{
    match open_host(alloc, told, Some(dir), host) {
        Ok(store) => serve_shared(rt, alloc, told, kind, store, port, most, host),
        Err(why) => refuse_store(alloc, why, output),
    }
}

/// Shares a store whose volume the host has lent, serves the connections of a port over it, and gives the volume back.
fn serve_shared<R: thread::Threads + Wait + Clock + Copy + Send + Drop + 'static, H: Host>(
    rt: &R,
    alloc: Global,
    told: &Telling,
    kind: FrontKind,
    store: Store<H::Vol>,
    port: u16,
    most: u64,
    host: &mut H,
) -> Status
    requires usual { AreUsual store.store.limits }
    requires first { HasFirstRow store.store.versions.versions }
    requires told { BeginsWith told.now.history store }
    ensures served { ServedAll kind told.now.history (H.supply host.old) (H.supply host.new) most result }
    ensures listens { Listens (H.supply host.old) (H.supply host.new) port result }
{
    match Shared::start(alloc, store, told) {
        Ok((shared, pass)) => {
            let mut main = pass;
            shared.share(&mut main);
            serve_passes(rt, alloc, kind, shared, main, port, most, host)
        }
        Err(store) => {
            put_back(store, host);
            Status::NoMemory
        }
    }
}

/// Serves the connections of a port over a shared store, takes the store back, and gives its volume back to the host.
fn serve_passes<R: thread::Threads + Wait + Clock + Copy + Send + Drop + 'static, H: Host>(
    rt: &R,
    alloc: Global,
    kind: FrontKind,
    shared: Shared<H::Vol>,
    main: Pass<H::Vol>,
    port: u16,
    most: u64,
    host: &mut H,
) -> Status
    requires pass { main.table ≡ shared }
    requires first { IsFirst main }
    requires main { IsMain main 0 MAX_SPLITS }
    requires new { (view_of main).own ≡ [] }
    ensures served { ServedAll kind (history_of main) (H.supply host.old) (H.supply host.new) most result }
    ensures listens { Listens (H.supply host.old) (H.supply host.new) port result }
{
    match Arc::new(alloc, shared) {
        Ok(shared) => {
            let (status, shared, main) = serve_beside_worker(
                rt, alloc, kind, shared, main, port, most, host,
            );
            put_back(shared.close(rt, main), host);
            status
        }
        Err(unshared) => {
            put_back(unshared.value.close(rt, main), host);
            Status::NoMemory
        }
    }
}

/// Serves the connections of a port over a shared store, while a worker applies what they commit. Where no thread can be started for the
/// worker, each session applies where it is asked to.
fn serve_beside_worker<R: thread::Threads + Wait + Clock + Copy + Send + Drop + 'static, H: Host>(
    rt: &R,
    alloc: Global,
    kind: FrontKind,
    shared: Arc<Shared<H::Vol>>,
    main: Pass<H::Vol>,
    port: u16,
    most: u64,
    host: &mut H,
) -> (Status, Arc<Shared<H::Vol>>, Pass<H::Vol>)
    requires pass { main.table ≡ arc_value shared }
    requires main { IsMain main 0 MAX_SPLITS }
    requires new { (view_of main).own ≡ [] }
    ensures shared { arc_value result.1 ≡ arc_value shared }
    ensures table { result.2.table ≡ main.table }
    ensures served { ServedBy kind main result.2 (H.supply host.old) (H.supply host.new) most result.0 }
    ensures listens { Listens (H.supply host.old) (H.supply host.new) port result.0 }
{
    let mut main = main;
    let worker = Worker::start(rt, alloc, host.refuses_starts(), &shared, &mut main);
    let (status, shared, main) = serve_listener(rt, alloc, kind, shared, main, port, most, host);
    let mut main = main;
    worker.stop(rt, &shared, &mut main);
    (status, shared, main)
}

/// Serves the connections of a port over a shared store.
fn serve_listener<R: thread::Threads + Wait + Clock + Copy + Send + Drop + 'static, H: Host>(
    rt: &R,
    alloc: Global,
    kind: FrontKind,
    shared: Arc<Shared<H::Vol>>,
    main: Pass<H::Vol>,
    port: u16,
    most: u64,
    host: &mut H,
) -> (Status, Arc<Shared<H::Vol>>, Pass<H::Vol>)
    requires pass { main.table ≡ arc_value shared }
    requires main { IsMain main 0 MOST }
    requires new { (view_of main).own ≡ [] }
    ensures shared { arc_value result.1 ≡ arc_value shared }
    ensures table { result.2.table ≡ main.table }
    ensures served { ServedBy kind main result.2 (H.supply host.old) (H.supply host.new) most result.0 }
    ensures listens { Listens (H.supply host.old) (H.supply host.new) port result.0 }
{
    let mut listener = match host.listener(port) {
        Ok(listener) => listener,
        Err(fault) => return (without_listener(fault), shared, main),
    };
    faults_come_back();
    let Served {
        ended,
        starved,
        shared,
        main,
    } = serve_connections(rt, alloc, kind, host, &mut listener, shared, main, most);
    host.listener_back(listener);
    (served_as(ended, starved), shared, main)
}

/// The status where a listener fails, or there is no memory for one.
fn without_listener(fault: IoFault) -> Status
    ensures status { result ≡ listener_status fault }
{
    match fault {
        IoFault::Failed => Status::NoListener,
        IoFault::Memory => Status::NoMemory,
    }
}

/// The status of serving that ended so.
fn served_as(ended: Result<u64, IoFault>, starved: bool) -> Status
    ensures status { result ≡ serving_status starved ended }
{
    if starved {
        return Status::NoMemory;
    }
    match ended {
        Ok(_) => Status::Finished,
        Err(fault) => without_listener(fault),
    }
}

/// Gives the volume of a store back to the host.
fn put_back<H: Host>(store: Store<H::Vol>, host: &mut H)
    ensures back { H.supply host.new ≡ after_volume store.storage (H.supply host.old) }
    ensures kept { (history : Option (List Entry)) → IfSome history (IsTold store) → IfSome history (KeepsSome store.storage.disk) }
{
    stores_are_whole();
    one_entry_is_read();
    store.keeps_its_law();
    host.put_back(store.into_volume());
}
