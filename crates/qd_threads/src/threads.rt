//! Threads of the machine, which jobs are started in.
ghost use Rattle.std.specs.Prelude.{◌≡◌, true, false, IsErr, IfOk, IfErr};
ghost use Rattle.std.specs.Result.{MatchResult};
ghost use Rattle.qd_threads.specs.Jobs.{IsHanded, refuse_one};

use crate::job::{Handed, Job, Pledge, Signs, Started};
use std::alloc::{AllocError, Global};
use std::marker::Model;
use std::snapshot::Snapshot;
use std::sync::atomic::{AtomicBool, Ordering};
use std::sync::{Arc, Wait};
use std::thread;

/// The stack of each thread, in bytes. The deepest text of SQL takes less than a quarter of it.
pub const STACK_BYTES: usize = 8 << 20;

/// Starts jobs in threads of their own, and counts the starts that are refused. Contracts see whether it refuses all starts,
/// and that count.
#[derive(Drop)]
pub struct Threads<R> {
    rt: R,
    alloc: Global,
    refuses: bool,
    failed: u64,
}

impl<R> Model for Threads<R> {
    ghost use Rattle.qd_threads.specs.Jobs.{Starter};

    ghost Value = { Starter };

    ghost view = { λ t. record { refuses = t.refuses; failed = t.failed } };
}

/// Runs a job, unless it is to be handed back, and says so last.
fn hand<R: Wait + Drop, J: Job>(rt: R, signs: Arc<Signs, Global>, job: J) -> Handed<J, J::Out>
    ensures handed { IsHanded J.gives job result }
{
    if signs.back.load(Ordering::SeqCst) {
        return Handed::Unrun(job);
    }
    let out = job.run(&rt);
    signs.finished.store(true, Ordering::SeqCst);
    Handed::Ran(out)
}

/// The signs of a job that is to be run.
fn signs_of(alloc: Global) -> Result<(Arc<Signs, Global>, Arc<Signs, Global>), AllocError> {
    let ours = Arc::new(
        alloc,
        Signs {
            back: AtomicBool::new(false),
            finished: AtomicBool::new(false),
        },
    )?;
    let theirs = Arc::try_clone(&ours)?;
    Ok((ours, theirs))
}

/// Starts a job in a thread, or hands it back where there is no memory or no thread for it.
///
/// The system hands back what the thread was to do and not the job in it: so the job is told to be handed back, and is
/// called.
fn start_thread<R: thread::Threads + Wait + Copy + Send + Drop + 'static, J: Job>(
    rt: R,
    alloc: Global,
    job: J,
) -> Result<Started<J>, J>
    ensures started { IfOk result (λ s. s ≡ job) }
    ensures back { IfErr result (λ j. j ≡ job) }
{
    let Ok((ours, theirs)) = signs_of(alloc) else {
        return Err(job);
    };
    let pledge = Pledge::of(&job);
    let kept = Snapshot::of(&job);
    let builder = thread::Builder::new().stack_size(STACK_BYTES);
    match builder.spawn_with(&rt, pledge, move || hand(rt, theirs, job)) {
        Ok(child) => Ok(Started::in_thread(child, kept, ours)),
        Err(refused) => {
            ours.back.store(true, Ordering::SeqCst);
            match (refused.value)() {
                Handed::Unrun(job) => Err(job),
                Handed::Ran(out) => Ok(Started::at_once(out, kept, ours)),
            }
        }
    }
}

impl<R: thread::Threads + Wait + Copy + Send + Drop + 'static> Threads<R> {
    /// Threads of this runtime, each with a stack of [`STACK_BYTES`]. It starts none yet and takes no memory.
    pub fn new(rt: R, alloc: Global) -> Threads<R>
        ensures { result ≡ record { refuses = false; failed = 0 } }
    {
        Threads {
            rt,
            alloc,
            refuses: false,
            failed: 0,
        }
    }

    /// Refuses every start from now on, or no more, for tests.
    pub fn set_refuses(&mut self, refuses: bool)
        ensures { self.new ≡ record self.old { refuses = refuses } }
    {
        self.refuses = refuses;
    }

    /// How many starts were refused. The count stands still at the greatest `u64`.
    pub fn starts_failed(&self) -> u64
        ensures { result ≡ self.now.failed }
    {
        self.failed
    }

    /// Starts a job in a thread of its own. Where there is no memory or no thread for it, the job is handed back as it was,
    /// and that is counted.
    pub fn start<J: Job>(&mut self, job: J) -> Result<Started<J>, J>
        ensures started { IfOk result (λ s. s ≡ job) }
        ensures back { IfErr result (λ j. j ≡ job) }
        ensures counted { MatchResult result (λ _. self.new ≡ self.old) (λ _. self.new ≡ refuse_one self.old) }
        ensures refuses { self.old.refuses ≡ true → IsErr result }
    {
        let started = if self.refuses {
            Err(job)
        } else {
            start_thread(self.rt, self.alloc, job)
        };
        if started.is_err() {
            self.failed = self.failed.saturating_add(1);
        }
        started
    }
}
