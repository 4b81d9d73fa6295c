//! Numbers of statements with their sign.
ghost use Rattle.std.specs.Prelude.{◌≡◌, ℤ, pos, neg_ℤ, unsigned_abs, ◌≤◌};

use qd_sql_ast::Magnitude;
use std::marker::Model;

/// A number from -9223372036854775807 to 9223372036854775807. Contracts see the number.
#[derive(Debug, Drop)]
pub struct Whole {
    value: i64,
}

impl Model for Whole {
    ghost use Rattle.std.specs.Prelude.{ℤ, unsigned_abs, ◌≤◌};
    ghost use Rattle.qd_base.specs.declared.limits.TheConstants.{MAX_NUMBER};

    ghost Value = { ℤ };

    ghost view = { λ w. w.value };

    ghost invariant = { λ w. unsigned_abs w.value ≤ MAX_NUMBER };
}

impl Whole {
    /// Gives a number that a statement holds without a sign.
    pub fn of(number: &Magnitude) -> Whole
        ensures same { result ≡ pos number.now }
    {
        Whole {
            value: number.get() as i64,
        }
    }

    /// Gives the number with the other sign.
    pub fn opposite(&self) -> Whole
        ensures opposite { result ≡ neg_ℤ self.now }
    {
        Whole { value: -self.value }
    }

    /// Gives the number.
    pub fn get(&self) -> i64
        ensures same { result ≡ self.now }
    {
        self.value
    }
}
