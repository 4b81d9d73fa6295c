//! Sets of numbers.
use std::alloc::{AllocError, Global};
use std::collections::BTreeSet;
use std::fmt;

/// A set of numbers, shown in order.
#[derive(Drop)]
pub struct Numbers {
    of: BTreeSet<u64>,
}

impl Numbers {
    /// No number.
    pub fn new(alloc: Global) -> Numbers {
        Numbers {
            of: BTreeSet::new(alloc),
        }
    }

    /// Adds a number.
    pub fn add(&mut self, n: u64) -> Result<(), AllocError> {
        self.of.insert(n)?;
        Ok(())
    }
}

impl fmt::Display for Numbers {
    fn fmt<W: fmt::Write>(&self, f: &mut fmt::Formatter<W>) -> fmt::Result {
        for n in &self.of {
            write!(f, " {n}")?;
        }
        Ok(())
    }
}
