//! Rounds: an apply, and a purge behind it.
ghost use Rattle.std.specs.Prelude.{◌≡◌};

use qd_io::IoFault;
use qd_shared::RoundFault;
use std::alloc::Global;
use std::sync::Wait;

/// Where in a round somebody is asked whether to go on.
#[derive(Clone, Copy, Debug, PartialEq, Eq)]
pub enum Point {
    /// Before a round.
    Begin,
    /// Behind its apply.
    Applied,
    /// Behind its purge.
    Purged,
}

/// What rounds are made of.
pub trait Housekeep {
    /// What they leave alone.
    type Fixed;

    /// What no call changes.
    ghost fixed: { Self → Self.Fixed };

    /// Shows all transactions that are there, and gives how many these are.
    fn catch_up<R: Wait>(&mut self, rt: &R, alloc: Global) -> Result<u64, RoundFault>
        ensures fixed { Self.fixed self.new ≡ Self.fixed self.old };

    /// Removes what no version lists any more, and gives how many blocks these were.
    fn purge<R: Wait>(&mut self, rt: &R) -> Result<u64, IoFault>
        ensures fixed { Self.fixed self.new ≡ Self.fixed self.old };
}

/// Who lets rounds go on, and when.
pub trait Gate {
    /// Says whether to go on; it may wait.
    fn pass<R: Wait>(&mut self, rt: &R, point: Point) -> bool;
}

/// Makes rounds for as long as the gate lets it: it asks it before a round, behind its apply and behind its purge. What fails isn't told:
/// a later round tries it again, and each request of a session reports its own faults.
pub fn keep_house<R: Wait, T: Housekeep, G: Gate + Drop>(
    rt: &R,
    alloc: Global,
    house: T,
    gate: G,
) -> T
    ensures fixed { T.fixed result ≡ T.fixed house }
{
    let mut house = house;
    let mut gate = gate;
    'rounds: for _ in rt.forever() {
        if !make_round(rt, alloc, &mut house, &mut gate) {
            break;
        }
    }
    house
}

/// Makes one round, and says whether the gate let it go on to its end.
fn make_round<R: Wait, T: Housekeep, G: Gate>(
    rt: &R,
    alloc: Global,
    house: &mut T,
    gate: &mut G,
) -> bool
    ensures fixed { T.fixed house.new ≡ T.fixed house.old }
{
    if !gate.pass(rt, Point::Begin) {
        return false;
    }
    let _shown = house.catch_up(rt, alloc);
    if !gate.pass(rt, Point::Applied) {
        return false;
    }
    let _removed = house.purge(rt);
    gate.pass(rt, Point::Purged)
}
