//! The rounds of a worker.

use qd_io::IoFault;
use qd_shared::RoundFault;
use qd_worker::{Gate, Housekeep, Point, keep_house};
use std::alloc::Global;
use std::sync::Wait;
use std::test::Fail;

/// Counts what it is asked for.
#[derive(Clone, Copy, Debug, PartialEq, Eq)]
struct Counting {
    applies: u64,
    purges: u64,
}

impl Housekeep for Counting {
    type Fixed = ();

    ghost fixed = { λ _. tt };

    fn catch_up<R: Wait>(&mut self, rt: &R, alloc: Global) -> Result<u64, RoundFault> {
        let _ = rt;
        let _ = alloc;
        self.applies = self.applies.saturating_add(1);
        Ok(0)
    }

    fn purge<R: Wait>(&mut self, rt: &R) -> Result<u64, IoFault> {
        let _ = rt;
        self.purges = self.purges.saturating_add(1);
        Err(IoFault::Failed)
    }
}

/// Lets so many points pass, and keeps them all.
#[derive(Drop)]
struct Counted<'a> {
    left: u32,
    points: &'a mut Vec<Point>,
}

impl Gate for Counted<'_> {
    fn pass<R: Wait>(&mut self, rt: &R, point: Point) -> bool {
        let _ = rt;
        if self.points.push(point).is_err() || self.left == 0 {
            return false;
        }
        self.left -= 1;
        true
    }
}

#[test]
fn rounds_go_on_for_as_long_as_the_gate_lets_them(rt: HostRuntime) -> Result<(), Fail> {
    let alloc = rt.alloc();
    let mut points = Vec::new(alloc);
    let gate = Counted {
        left: 7,
        points: &mut points,
    };
    let house = Counting {
        applies: 0,
        purges: 0,
    };
    let kept = keep_house(&rt, alloc, house, gate);
    assert_eq!(rt; (kept.applies, kept.purges), (3, 2));
    let asked = [
        Point::Begin,
        Point::Applied,
        Point::Purged,
        Point::Begin,
        Point::Applied,
        Point::Purged,
        Point::Begin,
        Point::Applied,
    ];
    assert_eq!(rt; points.as_slice(), asked.as_slice());
    Ok(())
}
