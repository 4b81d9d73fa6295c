//! Numbers of statements, which are in their range by their types.
ghost use Rattle.std.specs.Prelude.{◌≡◌, ◌<◌, ◌≤◌};
ghost use Rattle.qd_sql_ast.specs.Ranges as spec;

use qd_base::{MAX_NUMBER, MAX_STRIDE};
use std::marker::Model;

/// A number from 0 to 9223372036854775807.
#[derive(Drop)]
pub struct Magnitude {
    value: u64,
}

impl Model for Magnitude {
    ghost use Rattle.std.specs.Prelude.{ℕ, ◌≤◌};
    ghost use Rattle.qd_base.specs.declared.limits.TheConstants.{MAX_NUMBER};

    ghost Value = { ℕ };

    ghost view = { λ m. m.value };

    ghost invariant = { λ m. m.value ≤ MAX_NUMBER };
}

impl Magnitude {
    /// Gives this number, or the greatest where it is above.
    pub fn at_most(value: u64) -> Magnitude
        ensures { result ≡ spec.magnitude value }
    {
        Magnitude {
            value: value.min(MAX_NUMBER),
        }
    }

    /// Gives the number.
    pub fn get(&self) -> u64
        ensures value { result ≡ self.now }
        ensures range { result ≤ MAX_NUMBER }
    {
        self.value
    }
}

/// The count of a stride, from 1 to 1,000,000.
#[derive(Drop)]
pub struct StrideCount {
    value: u64,
}

impl Model for StrideCount {
    ghost use Rattle.std.specs.Prelude.{ℕ, ◌≤◌};
    ghost use Rattle.qd_base.specs.declared.limits.TheConstants.{MAX_STRIDE};

    ghost Value = { ℕ };

    ghost view = { λ c. c.value };

    ghost invariant = { λ c. (1 ≤ c.value) × (c.value ≤ MAX_STRIDE) };
}

impl StrideCount {
    /// Gives this count, or where it is out of range the nearest one that is in it.
    pub fn nearest(value: u64) -> StrideCount
        ensures { result ≡ spec.stride_count value }
    {
        StrideCount {
            value: value.max(1).min(MAX_STRIDE),
        }
    }

    /// Gives the count.
    pub fn get(&self) -> u64
        ensures value { result ≡ self.now }
        ensures range { (1 ≤ result) × (result ≤ MAX_STRIDE) }
    {
        self.value
    }
}
