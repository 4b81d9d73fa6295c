//! A bell: what tells a worker that there is something to do.
use std::sync::{Condvar, Mutex, Wait};
use std::time::{Clock, Duration};

/// What was asked of whoever waits for a bell.
#[derive(Drop)]
struct Asked {
    rung: bool,
    stopped: bool,
}

/// What tells a worker that there is something to do, or that it is to stop. Rings that come while nobody waits count as one, and a
/// stop stays.
#[derive(Drop)]
pub struct Bell {
    asked: Mutex<Asked>,
    changed: Condvar,
}

impl Bell {
    /// A bell that wasn't rung. It takes no memory of its own.
    pub(crate) fn new() -> Bell {
        Bell {
            asked: Mutex::new(Asked {
                rung: false,
                stopped: false,
            }),
            changed: Condvar::new(),
        }
    }

    /// Rings. It wakes whoever waits for that, where it wasn't rung before; else it costs a lock.
    pub fn ring<R: Wait>(&self, rt: &R) {
        if self.asks_anew(rt) {
            self.changed.notify_one();
        }
    }

    /// Says whether it wasn't rung, and makes it so.
    fn asks_anew<R: Wait>(&self, rt: &R) -> bool {
        let mut asked = self.asked.lock(rt);
        let anew = !asked.rung;
        asked.rung = true;
        anew
    }

    /// Stops whoever waits, now and later.
    pub fn stop<R: Wait>(&self, rt: &R) {
        self.asked.lock(rt).stopped = true;
        self.changed.notify_all();
    }

    /// Waits until it was rung, or stopped, and says whether it wasn't stopped. What was rung before counts, once.
    pub fn wait<R: Wait>(&self, rt: &R) -> bool {
        let mut asked = self.changed.wait_while(rt, self.asked.lock(rt), |asked| {
            !asked.rung && !asked.stopped
        });
        asked.rung = false;
        !asked.stopped
    }

    /// Waits so long, or until it was stopped, and says whether it wasn't stopped.
    pub fn rest<R: Wait + Clock>(&self, rt: &R, time: Duration) -> bool {
        let (asked, _) = self
            .changed
            .wait_timeout_while(rt, self.asked.lock(rt), time, |asked| !asked.stopped);
        !asked.stopped
    }
}
