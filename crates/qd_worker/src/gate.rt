//! A gate that waits for commits.
use crate::rounds::{Gate, Point};
use qd_shared::Shared;
use qd_volume::Volume;
use std::sync::{Arc, Wait};
use std::time::{Clock, Duration, Instant};

/// How many times as long as a round took nothing is done behind it. So a worker takes a fifth of the time, whatever a round costs, and
/// rows are seen within some six times what it takes to show them.
pub const REST: u32 = 4;

/// A gate that lets a round begin once something was committed, and the last round is so long ago as [`REST`] says; and that lets nothing
/// go on once the bell was stopped.
#[derive(Drop)]
pub struct BellGate<R, V: Volume + Drop> {
    rt: R,
    shared: Arc<Shared<V>>,
    began: Option<Instant>,
    rest: Duration,
}

impl<R: Wait + Clock, V: Volume + Drop> BellGate<R, V> {
    /// A gate that waits for the bell of a shared store, by a clock.
    pub fn new(rt: R, shared: Arc<Shared<V>>) -> BellGate<R, V> {
        BellGate {
            rt,
            shared,
            began: None,
            rest: Duration::from_secs(0),
        }
    }

    /// Rests, and waits for a ring.
    fn begin(&mut self) -> bool {
        let bell = self.shared.bell();
        if !bell.rest(&self.rt, self.rest) || !bell.wait(&self.rt) {
            return false;
        }
        self.began = Instant::now(&self.rt).ok();
        true
    }

    /// How long to rest behind the round that ends now: not at all, where the clock can't be read.
    fn rest_behind(&self) -> Duration {
        let took = match &self.began {
            Some(began) => began.elapsed(&self.rt).ok(),
            None => None,
        };
        took.unwrap_or(Duration::from_secs(0)).saturating_mul(REST)
    }
}

impl<R: Wait + Clock, V: Volume + Drop> Gate for BellGate<R, V> {
    fn pass<Q: Wait>(&mut self, rt: &Q, point: Point) -> bool {
        let _ = rt;
        match point {
            Point::Begin => self.begin(),
            Point::Applied => self.shared.bell().rest(&self.rt, Duration::from_secs(0)),
            Point::Purged => {
                self.rest = self.rest_behind();
                true
            }
        }
    }
}
