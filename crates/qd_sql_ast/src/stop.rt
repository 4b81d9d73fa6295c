//! Why reading stops.
use qd_base::Memory;

/// Where a text has no statement.
#[derive(Clone, Copy, Debug, PartialEq, Eq)]
pub enum Halt {
    /// Brackets nest deeper than `MAX_NESTING`.
    TooDeep,
    /// No text goes on with the token at this offset, or where there is none, ends here.
    At(Option<u64>),
}

/// Why a rule reads no further. The reading is over then.
#[derive(Clone, Copy, Debug, PartialEq, Eq)]
pub enum Stop {
    /// No memory was found.
    Memory,
    /// The text has no statement.
    Halted(Halt),
}

impl From<Memory> for Stop {
    ghost use Rattle.std.specs.Prelude.{◌≡◌};
    ghost use Rattle.qd_sql_ast.specs.declared.stop.Stop.TheVariants.{Memory};

    ghost from_gives = { λ _ e. e ≡ Memory };

    fn from(_: Memory) -> Stop {
        Stop::Memory
    }
}
