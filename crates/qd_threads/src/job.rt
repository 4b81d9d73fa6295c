//! Jobs, and those that were started.
ghost use Rattle.std.specs.Prelude.{◌≡◌};
ghost use Rattle.qd_threads.specs.Jobs.{IsHanded};

use std::alloc::Global;
use std::marker::Model;
use std::snapshot::Snapshot;
use std::sync::atomic::{AtomicBool, Ordering};
use std::sync::{Arc, Wait};
use std::thread;
use std::thread::{Promise, PromisedHandle};

/// Work for a thread of its own.
///
/// `gives` is what it promises: it relates the job, as it was when it was started, to what it gives.
pub trait Job: Send + Drop + 'static {
    /// What it gives.
    type Out: Send + Drop + 'static;

    ghost gives: { Self → Self.Out → Type 0 };

    /// Does the work, which may wait.
    fn run<R: Wait>(self, rt: &R) -> Self::Out
        ensures given { gives self result };
}

/// What a thread hands back of a job: what the job gave, or the job, which wasn't run.
#[derive(Drop)]
pub enum Handed<J, O> {
    /// What it gave.
    Ran(O),
    /// The job as it was.
    Unrun(J),
}

/// What a thread promises of a job that it was given.
#[derive(Drop)]
pub struct Pledge<J: Job> {
    job: Snapshot<J>,
}

impl<J: Job> Pledge<J> {
    /// The promise about this job.
    pub(crate) fn of(job: &J) -> Pledge<J>
        ensures { result.job.value ≡ job.now }
    {
        Pledge {
            job: Snapshot::of(job),
        }
    }
}

impl<J: Job> Promise<Handed<J, J::Out>> for Pledge<J> {
    ghost use Rattle.qd_threads.specs.Jobs.{IsHanded};

    ghost kept_by = { λ pledge handed. IsHanded J.gives pledge.job.value handed };
}

/// What a job and the one that started it tell each other.
#[derive(Drop)]
pub(crate) struct Signs {
    /// The job is to be handed back, and not to be run.
    pub back: AtomicBool,
    /// The job's thread has nothing left to do.
    pub finished: AtomicBool,
}

/// A job that was started, and is to be joined. Contracts see it as the job that it is.
///
/// One that is dropped runs on, and nobody learns what it gives.
#[derive(Drop)]
pub struct Started<J: Job> {
    // in its thread, or what it gave where it has run already
    work: Result<PromisedHandle<Handed<J, J::Out>, Pledge<J>>, J::Out>,
    job: Snapshot<J>,
    signs: Arc<Signs, Global>,
}

impl<J: Job> Model for Started<J> {
    ghost use Rattle.std.specs.Result.{MatchResult};
    ghost use Rattle.std.specs.Prelude.{◌≡◌};

    ghost Value = { J };

    ghost view = { λ s. s.job.value };

    ghost invariant = { λ s. MatchResult s.work (λ child. child.promise.job.value ≡ s.job.value) (λ out. J.gives s.job.value out) };
}

impl<J: Job> Started<J> {
    /// The job runs in a thread.
    pub(crate) fn in_thread(
        child: PromisedHandle<Handed<J, J::Out>, Pledge<J>>,
        job: Snapshot<J>,
        signs: Arc<Signs, Global>,
    ) -> Started<J>
        requires { child.promise.job.value ≡ job.value }
        ensures { result ≡ job.value }
    {
        Started {
            work: Ok(child),
            job,
            signs,
        }
    }

    /// The job has run.
    pub(crate) fn at_once(out: J::Out, job: Snapshot<J>, signs: Arc<Signs, Global>) -> Started<J>
        requires given { J.gives job.value out }
        ensures { result ≡ job.value }
    {
        Started {
            work: Err(out),
            job,
            signs,
        }
    }

    /// Whether the job has nothing left to do, so that a join waits for no more than the end of its thread. It is a hint,
    /// which costs one load.
    pub fn is_finished(&self) -> bool {
        self.signs.finished.load(Ordering::SeqCst)
    }

    /// Waits for the job's end, and gives what it gave. Where its thread handed it back unrun, it is run here.
    pub fn join<R: thread::Threads + Wait>(self, rt: &R) -> J::Out
        ensures given { J.gives self result }
    {
        let Started {
            work,
            job: _,
            signs: _,
        } = self;
        match work {
            Ok(child) => match child.join(rt) {
                Handed::Ran(out) => out,
                Handed::Unrun(job) => job.run(rt),
            },
            Err(out) => out,
        }
    }
}
