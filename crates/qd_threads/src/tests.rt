//! A job that is started and joined, and one whose start is refused.
ghost use Rattle.std.specs.Prelude.{◌≡◌, ◌+◌, ◌<◌};

use crate::{Job, Started, Threads};
use std::sync::Wait;
use std::test::Fail;
use std::thread;

/// Doubles a number.
#[derive(Drop)]
struct Doubling {
    number: u64,
    ghost small: { number < 1000 },
}

impl Job for Doubling {
    type Out = u64;

    ghost use Rattle.std.specs.Prelude.{◌≡◌, ◌+◌};

    ghost gives = { λ job out. out ≡ job.number + job.number };

    fn run<R: Wait>(self, rt: &R) -> u64
        ensures given { result ≡ self.number + self.number }
    {
        let _ = rt;
        self.number + self.number
    }
}

/// Waits until the job says that it has finished, for so many turns at most.
fn finishes(started: &Started<Doubling>) -> bool {
    for _ in 0..20_000_000 {
        if started.is_finished() {
            return true;
        }
        thread::yield_now();
    }
    false
}

#[test]
fn a_job_runs_in_a_thread(rt: HostRuntime) -> Result<(), Fail> {
    let mut threads = Threads::new(rt, rt.alloc());
    let Ok(started) = threads.start(Doubling { number: 21 }) else {
        panic!(rt; "no thread")
    };
    assert!(rt; finishes(&started));
    assert_eq!(rt; started.join(&rt), 42);
    assert_eq!(rt; threads.starts_failed(), 0);
    Ok(())
}

#[test]
fn a_refused_job_comes_back(rt: HostRuntime) -> Result<(), Fail> {
    let mut threads = Threads::new(rt, rt.alloc());
    threads.set_refuses(true);
    let Err(job) = threads.start(Doubling { number: 21 }) else {
        panic!(rt; "it was started")
    };
    assert_eq!(rt; job.number, 21);
    assert_eq!(rt; threads.starts_failed(), 1);
    threads.set_refuses(false);
    assert!(rt; threads.start(job).is_ok());
    assert_eq!(rt; threads.starts_failed(), 1);
    Ok(())
}
