//! How the refusals of a statement's parts come together.
ghost use Rattle.std.specs.Prelude.{◌≡◌, List};
ghost use Rattle.std.specs.List.{flat_map};
ghost use Rattle.qd_meaning.specs.Refusals as spec;
ghost use Rattle.qd_meaning.specs.Refusals.{least};
ghost use Rattle.qd_meaning.specs.Judging.{JudgesBy};

use crate::refusal::{Refusal, sooner};
use qd_base::Code;

/// Gives no refusal where a test holds, else the one with this code and place.
pub fn unless(holds: bool, code: Code, place: u64) -> Option<Refusal>
    ensures least { result ≡ least (spec.unless holds code place) }
{
    if holds {
        None
    } else {
        Some(Refusal { code, place })
    }
}

/// Gives the refusal that is answered for several parts, where a function gives the one that is answered for each. It costs
/// the time of the function for each part, and takes no memory.
pub fn soonest<T, F: Fn(&T) -> Option<Refusal>>(parts: &[T], judge: F) -> Option<Refusal>
    requires { F.IsAlwaysCallable judge }
    ensures least { (faults : T → List Refusal) → JudgesBy faults (F.post judge) → result ≡ least (flat_map faults parts.now) }
{
    let mut found = None;
    for part in parts {
        found = sooner(found, judge(part));
    }
    found
}
