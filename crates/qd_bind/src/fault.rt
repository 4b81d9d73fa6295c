//! Why an expression isn't bound.
use qd_base::Memory;

/// Why an expression isn't bound.
#[derive(Clone, Copy, Debug, PartialEq, Eq)]
pub enum BindFault {
    /// No memory was found.
    Memory,
    /// Its brackets, NOTs and signs nest deeper than `MAX_NESTING`.
    TooDeep,
}

impl From<Memory> for BindFault {
    ghost use Rattle.std.specs.Prelude.{◌≡◌};
    ghost use Rattle.qd_bind.specs.declared.fault.BindFault.TheVariants.{Memory};

    ghost from_gives = { λ _ e. e ≡ Memory };

    fn from(_: Memory) -> BindFault {
        BindFault::Memory
    }
}
