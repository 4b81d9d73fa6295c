//! The worker's thread.
ghost use Rattle.std.specs.Arc.{arc_value};
ghost use Rattle.std.specs.Prelude.{◌≡◌, ◌+◌, ◌<◌, ◌≤◌, IfErr, IfOk, IfSome};
ghost use Rattle.qd_shared.specs.Passes.{view_of};
ghost use Rattle.qd_worker.specs.Worker.{kept_by, GoesBeside, IsHelper, StaysMain};

use crate::gate::BellGate;
use crate::house::House;
use crate::rounds::keep_house;
use qd_shared::{Pass, Shared};
use qd_threads::{Job, Started, Threads};
use qd_volume::Volume;
use std::alloc::Global;
use std::marker::Model;
use std::sync::{Arc, Wait};
use std::thread;
use std::time::Clock;

/// The rounds of a shared store, as a job for a thread. Contracts see its pass.
#[derive(Drop)]
pub struct Keeping<R, V: Volume + Drop> {
    rt: R,
    alloc: Global,
    shared: Arc<Shared<V>>,
    pass: Pass<V>,
}

impl<R, V: Volume + Drop> Model for Keeping<R, V> {
    ghost use Rattle.std.specs.Arc.{arc_value};
    ghost use Rattle.std.specs.Prelude.{◌≡◌};
    ghost use Rattle.qd_shared.specs.Passes.{Pass};

    ghost Value = { Pass };

    ghost view = { λ k. k.pass };

    ghost invariant = { λ k. k.pass.table ≡ arc_value k.shared };
}

impl<R: Drop, V: Volume + Drop> Keeping<R, V> {
    /// Gives its pass back, where no round was made.
    fn into_pass(self) -> Pass<V>
        ensures { result ≡ self }
    {
        let Keeping {
            rt: _,
            alloc: _,
            shared: _,
            pass,
        } = self;
        pass
    }
}

impl<R: Wait + Clock + Send + Drop + 'static, V: Volume + Send + Drop + 'static> Job
    for Keeping<R, V> {
    type Out = Pass<V>;

    ghost use Rattle.qd_worker.specs.Worker.{GoesBeside};

    ghost gives = { GoesBeside };

    /// Makes rounds until the bell is stopped.
    fn run<Q: Wait>(self, rt: &Q) -> Pass<V>
        ensures given { GoesBeside self result }
    {
        let Keeping {
            rt: own,
            alloc,
            shared,
            pass,
        } = self;
        let house = House::of(shared, pass);
        match house.shared() {
            Ok(shared) => keep_house(rt, alloc, house, BellGate::new(own, shared)).end(),
            Err(_) => house.end(),
        }
    }
}

/// Names a job, which threads may be started for.
trait Works {
    /// The job.
    type Work: Job;
}

impl<R: Wait + Clock + Send + Drop + 'static, V: Volume + Send + Drop + 'static> Works
    for Keeping<R, V> {
    type Work = Keeping<R, V>;
}

/// Starts a job in a thread, or gives it back where there is no thread or no memory for it, and where starts are refused.
fn start_work<R: thread::Threads + Wait + Copy + Send + Drop + 'static, K: Works>(
    rt: &R,
    alloc: Global,
    refuses: bool,
    work: K::Work,
) -> Result<Started<K::Work>, K::Work>
    ensures started { IfOk result (λ s. s ≡ work) }
    ensures back { IfErr result (λ j. j ≡ work) }
{
    let mut threads = Threads::new(*rt, alloc);
    threads.set_refuses(refuses);
    threads.start(work)
}

/// Waits for the end of a job, and gives what that gave.
fn join_work<R: thread::Threads + Wait, K: Works>(
    rt: &R,
    started: Started<K::Work>,
) -> <K::Work as Job>::Out
    ensures given { K.Work.gives started result }
{
    started.join(rt)
}

/// The worker of a shared store, or none where no thread could be started for it, or no memory was found. Contracts see with which pass
/// it was started.
///
/// One that is dropped works on.
#[derive(Drop)]
pub struct Worker<R: Wait + Clock + Send + Drop + 'static, V: Volume + Send + Drop + 'static> {
    started: Option<Started<Keeping<R, V>>>,
}

impl<R: Wait + Clock + Send + Drop + 'static, V: Volume + Send + Drop + 'static> Model
    for Worker<R, V> {
    ghost use Rattle.std.specs.Prelude.{Option};
    ghost use Rattle.qd_shared.specs.Passes.{Pass};

    ghost Value = { Option Pass };

    ghost view = { λ w. w.started };
}

impl<
    R: thread::Threads + Wait + Clock + Copy + Send + Drop + 'static,
    V: Volume + Send + Drop + 'static,
> Worker<R, V> {
    /// Starts a worker over a shared store, by a pass that is split off the main one. It begins with a round. Where there is no memory
    /// or no thread for it, and where starts are refused, there is none.
    pub fn start(
        rt: &R,
        alloc: Global,
        refuses: bool,
        shared: &Arc<Shared<V>>,
        main: &mut Pass<V>,
    ) -> Worker<R, V>
        requires pass { main.old.table ≡ arc_value shared.now }
        requires room { 0 < (view_of main.old).room }
        ensures main { StaysMain main.old main.new }
        ensures room { (view_of main.old).room ≤ (view_of main.new).room + kept_by result }
        ensures helper { IfSome result (IsHelper main.new.table) }
    {
        let Ok(own) = Arc::try_clone(shared) else {
            return Worker { started: None };
        };
        let pass = shared.split_keeper(alloc, main);
        let keeping = Keeping {
            rt: *rt,
            alloc,
            shared: own,
            pass,
        };
        shared.bell().ring(rt);
        match start_work::<R, Keeping<R, V>>(rt, alloc, refuses, keeping) {
            Ok(started) => Worker {
                started: Some(started),
            },
            Err(refused) => {
                shared.join(main, refused.into_pass());
                Worker { started: None }
            }
        }
    }

    /// Stops the worker behind the round that is under way, waits for its end, and joins its pass to the main one.
    pub fn stop(self, rt: &R, shared: &Shared<V>, main: &mut Pass<V>)
        requires pass { main.old.table ≡ shared.now }
        requires helper { IfSome self (IsHelper main.old.table) }
        ensures main { StaysMain main.old main.new }
        ensures room { (view_of main.old).room + kept_by self ≤ (view_of main.new).room }
    {
        let Worker { started } = self;
        let Some(started) = started else {
            return;
        };
        shared.bell().stop(rt);
        let pass = join_work::<R, Keeping<R, V>>(rt, started);
        shared.join(main, pass);
    }
}
