//! The refusal that is answered for the parts of a query, as far as they are read.
ghost use Rattle.std.specs.Prelude.{◌≡◌, ◌++◌, List, None};
ghost use Rattle.qd_meaning.specs.declared.refusal.Refusal.{Refusal};
ghost use Rattle.qd_meaning.specs.Refusals as spec;
ghost use Rattle.qd_meaning.specs.Refusals.{least};

use qd_base::{Code, Memory};
use qd_meaning::{Refusal, least_is_answered, sooner, unless};

/// Why there is no plan.
#[derive(Clone, Copy, Debug, PartialEq, Eq)]
pub enum PlanFault {
    /// The statement is refused.
    Refused {
        /// `UnknownTable`, `UnknownColumn`, `Ambiguous`, `Keys`, `Types` or `TimeLiteral`.
        code: Code,
        /// The offset of what is refused.
        place: u64,
    },
    /// No memory was found.
    Memory,
}

impl From<Memory> for PlanFault {
    ghost use Rattle.std.specs.Prelude.{◌≡◌};
    ghost use Rattle.qd_plan.specs.declared.fault.PlanFault.TheVariants.{Memory};

    ghost from_gives = { λ _ e. e ≡ Memory };

    fn from(_: Memory) -> PlanFault {
        PlanFault::Memory
    }
}

/// The refusal that is answered, where there is one.
#[derive(Clone, Copy)]
pub(crate) struct Faults {
    pub(crate) first: Option<Refusal>,
}

impl Faults {
    /// None yet.
    pub(crate) fn none() -> Faults
        ensures none { result.first ≡ None }
    {
        Faults { first: None }
    }

    /// One more part with its refusal.
    pub(crate) fn add(&mut self, fault: Option<Refusal>)
        ensures added { self.new.first ≡ spec.sooner self.old.first fault }
    {
        self.first = sooner(self.first, fault);
    }

    /// One more part that is refused where a test fails.
    pub(crate) fn unless(&mut self, holds: bool, code: Code, place: u64)
        ensures added { self.new.first ≡ spec.sooner self.old.first (least (spec.unless holds code place)) }
    {
        self.add(unless(holds, code, place));
    }
}

/// Gives the refusal that is answered for two parts, of which the first stands before the second.
pub(crate) fn both(first: Option<Refusal>, second: Option<Refusal>) -> Option<Refusal>
    ensures least { (xs ys : List Refusal) → first ≡ least xs → second ≡ least ys → result ≡ least (xs ++ ys) }
{
    least_is_answered();
    sooner(first, second)
}
