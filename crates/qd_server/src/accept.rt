//! Connections are taken one after another, and each is given to a job of its own.
ghost use Rattle.std.specs.Prelude.{◌≡◌, ◌≢◌, ◌+◌, ◌<◌, ◌≤◌, ℕ, List, [], ◌∷◌, length, true, false, IfSome};
ghost use Rattle.std.specs.VecDeque.{deque_capacity};
ghost use Rattle.qd_io.specs.Ends.{Counts};
ghost use Rattle.qd_server.specs.Accepting.{Accepts, GoesOn, HasOut, Takes, Round};

use crate::maker::{MOST, Maker};
use qd_io::{IoFault, Memory};
use qd_net::Listener;
use qd_threads::{Job, Started, Threads};
use std::alloc::Global;
use std::collections::VecDeque;
use std::sync::Wait;
use std::thread;
use std::time::{Clock, Duration};

/// How long a server waits where no work has finished, before it looks again, in milliseconds.
const PAUSE: u64 = 1;

/// The place of the first work that has finished, where one has.
fn finished_in<J: Job>(outs: &VecDeque<Started<J>>) -> Option<usize>
    ensures { IfSome result (λ place. place < length outs.now.items) }
{
    for place in 0..outs.len() {
        if outs[place].is_finished() {
            return Some(place);
        }
    }
    None
}

/// Waits until a work has finished, and gives its place.
fn wait_for_one<R: Wait + Clock, J: Job>(rt: &R, outs: &VecDeque<Started<J>>) -> usize
    ensures { result < length outs.now.items }
{
    for _ in rt.forever() {
        if let Some(place) = finished_in(outs) {
            return place;
        }
        thread::sleep(rt, Duration::from_millis(PAUSE));
    }
    unreachable!()
}

/// Joins the work at this place.
fn settle<R: thread::Threads + Wait, W, M: Maker<W>>(
    rt: &R,
    maker: &mut M,
    outs: &mut VecDeque<Started<M::Work>>,
    place: usize,
)
    requires out { HasOut M.works maker.old outs.old.items }
    requires there { place < length outs.old.items }
    ensures goes_on { (failed : ℕ) → GoesOn M.works maker.old maker.new outs.old.items outs.new.items [] failed failed }
    ensures fewer { length outs.new.items + 1 ≡ length outs.old.items }
    ensures capacity { deque_capacity outs.new ≡ deque_capacity outs.old }
    ensures fixed { M.fixed maker.new ≡ M.fixed maker.old }
{
    if let Some(started) = outs.remove(place) {
        maker.done(started.join(rt));
    }
}

/// Joins a work where as many are out as may be.
fn make_room<R: thread::Threads + Wait + Clock, W, M: Maker<W>>(
    rt: &R,
    maker: &mut M,
    outs: &mut VecDeque<Started<M::Work>>,
)
    requires out { HasOut M.works maker.old outs.old.items }
    requires few { length outs.old.items ≤ MOST }
    ensures goes_on { (failed : ℕ) → GoesOn M.works maker.old maker.new outs.old.items outs.new.items [] failed failed }
    ensures room { length outs.new.items < MOST }
    ensures capacity { deque_capacity outs.new ≡ deque_capacity outs.old }
    ensures fixed { M.fixed maker.new ≡ M.fixed maker.old }
{
    if outs.len() == MOST {
        let place = wait_for_one(rt, outs);
        settle::<R, W, M>(rt, maker, outs, place);
    }
}

/// Starts the work of a wire. One that can't be started goes back to its maker.
fn admit<R: thread::Threads + Wait + Clock + Copy + Send + Drop + 'static, W, M: Maker<W>>(
    threads: &mut Threads<R>,
    maker: &mut M,
    outs: &mut VecDeque<Started<M::Work>>,
    wire: W,
) -> Result<(), Memory>
    requires out { HasOut M.works maker.old outs.old.items }
    requires few { length outs.old.items < MOST }
    requires capacity { deque_capacity outs.old ≡ MOST }
    ensures goes_on { GoesOn M.works maker.old maker.new outs.old.items outs.new.items (wire ∷ []) threads.old.failed threads.new.failed }
    ensures few { length outs.new.items ≤ MOST }
    ensures capacity { deque_capacity outs.new ≡ MOST }
    ensures fixed { M.fixed maker.new ≡ M.fixed maker.old }
{
    let work = maker.make(wire)?;
    match threads.start(work) {
        Ok(started) => outs.push_back_reserved(started),
        Err(work) => maker.refused(work),
    }
    Ok(())
}

/// Takes the next wire and starts its work, and says whether there was one.
fn accept_next<
    R: thread::Threads + Wait + Clock + Copy + Send + Drop + 'static,
    L: Listener,
    M: Maker<L::Wire>,
>(
    rt: &R,
    listener: &mut L,
    threads: &mut Threads<R>,
    maker: &mut M,
    outs: &mut VecDeque<Started<M::Work>>,
) -> Result<bool, IoFault>
    requires out { HasOut M.works maker.old outs.old.items }
    requires few { length outs.old.items ≤ MOST }
    requires capacity { deque_capacity outs.old ≡ MOST }
    ensures accepts { (wires : List L.Wire) × Takes wires (L.arrivals listener.old).ahead (L.arrivals listener.new).ahead × GoesOn M.works maker.old maker.new outs.old.items outs.new.items wires threads.old.failed threads.new.failed × Round wires (L.arrivals listener.old).ahead (L.arrivals listener.new).ahead (L.arrivals listener.new).closed result }
    ensures counted { Counts (L.arrivals listener.old).faults (L.arrivals listener.new).faults result }
    ensures few { length outs.new.items ≤ MOST }
    ensures capacity { deque_capacity outs.new ≡ MOST }
    ensures fixed { M.fixed maker.new ≡ M.fixed maker.old }
{
    make_room::<R, L::Wire, M>(rt, maker, outs);
    let Some(wire) = listener.next_wire()? else {
        return Ok(false);
    };
    admit::<R, L::Wire, M>(threads, maker, outs, wire)?;
    Ok(true)
}

/// Whether as many wires were taken as were asked for, where 0 is no end.
fn is_enough(taken: u64, most: u64) -> bool
    ensures yes { result ≡ true → (most ≢ 0) × (taken ≡ most) }
    ensures no { result ≡ false → most ≢ 0 → taken ≢ most }
{
    most != 0 && taken == most
}

/// Takes wires until none comes, or as many as are asked for.
fn accept_on<
    R: thread::Threads + Wait + Clock + Copy + Send + Drop + 'static,
    L: Listener,
    M: Maker<L::Wire>,
>(
    rt: &R,
    listener: &mut L,
    threads: &mut Threads<R>,
    maker: &mut M,
    outs: &mut VecDeque<Started<M::Work>>,
    most: u64,
) -> Result<u64, IoFault>
    requires out { HasOut M.works maker.old outs.old.items }
    requires few { length outs.old.items ≤ MOST }
    requires capacity { deque_capacity outs.old ≡ MOST }
    ensures accepts { Accepts M.works (record { listener = L.arrivals listener.old; maker = maker.old; outs = outs.old.items; failed = threads.old.failed }) (record { listener = L.arrivals listener.new; maker = maker.new; outs = outs.new.items; failed = threads.new.failed }) most result }
    ensures counted { Counts (L.arrivals listener.old).faults (L.arrivals listener.new).faults result }
    ensures fixed { M.fixed maker.new ≡ M.fixed maker.old }
{
    let mut taken: u64 = 0;
    for _ in rt.forever() {
        if is_enough(taken, most) {
            return Ok(taken);
        }
        if !accept_next::<R, L, M>(rt, listener, threads, maker, outs)? {
            return Ok(taken);
        }
        taken = taken.saturating_add(1);
    }
    unreachable!()
}

/// Joins all works that are out.
fn settle_all<R: thread::Threads + Wait, W, M: Maker<W>>(
    rt: &R,
    maker: &mut M,
    outs: &mut VecDeque<Started<M::Work>>,
)
    requires out { HasOut M.works maker.old outs.old.items }
    ensures goes_on { (failed : ℕ) → GoesOn M.works maker.old maker.new outs.old.items [] [] failed failed }
    ensures fixed { M.fixed maker.new ≡ M.fixed maker.old }
{
    while !outs.is_empty() {
        settle::<R, W, M>(rt, maker, outs, 0);
    }
}

/// Serves the wires of a listener: each goes to one `make` of the maker, and its work is started in a thread of its own.
///
/// It ends with `Ok` where `most` wires were taken, which 0 never is, or the listener answers that none comes any more, and
/// gives how many were taken, up to the greatest `u64`. It ends with `Failed` where the listener fails, and with `Memory`
/// where there is no memory, for the maker or for the listener too. Then all works are joined, so that none is out.
///
/// At most [`MOST`] works are out. Where as many are out, the next wire is waited for once one of them has finished, which is looked for
/// every millisecond, and is joined. It takes memory for so many started works, once.
pub fn accept_all<
    R: thread::Threads + Wait + Clock + Copy + Send + Drop + 'static,
    L: Listener,
    M: Maker<L::Wire>,
>(
    rt: &R,
    alloc: Global,
    listener: &mut L,
    threads: &mut Threads<R>,
    maker: &mut M,
    most: u64,
) -> Result<u64, IoFault>
    requires none_out { HasOut M.works maker.old [] }
    ensures accepts { Accepts M.works (record { listener = L.arrivals listener.old; maker = maker.old; outs = []; failed = threads.old.failed }) (record { listener = L.arrivals listener.new; maker = maker.new; outs = []; failed = threads.new.failed }) most result }
    ensures counted { Counts (L.arrivals listener.old).faults (L.arrivals listener.new).faults result }
    ensures fixed { M.fixed maker.new ≡ M.fixed maker.old }
{
    let mut outs = VecDeque::with_capacity(alloc, MOST)?;
    let ended = accept_on::<R, L, M>(rt, listener, threads, maker, &mut outs, most);
    settle_all::<R, L::Wire, M>(rt, maker, &mut outs);
    ended
}
