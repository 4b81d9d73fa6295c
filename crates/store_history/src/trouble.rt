//! Why a history isn't gone through to its end.
use std::alloc::{AllocError, AllocFailed};

/// Why a history isn't gone through to its end.
#[derive(Clone, Copy, Debug, PartialEq, Eq, Drop)]
pub enum Trouble {
    /// Something doesn't hold that holds of every store, or a step can't be taken where it stands.
    Wrong(&'static str),
    /// There was no memory.
    Memory,
}

impl From<AllocError> for Trouble {
    fn from(_: AllocError) -> Trouble {
        Trouble::Memory
    }
}

impl<T: Drop> From<AllocFailed<T>> for Trouble {
    fn from(_: AllocFailed<T>) -> Trouble {
        Trouble::Memory
    }
}

/// Stops where something doesn't hold.
pub fn hold(holds: bool, what: &'static str) -> Result<(), Trouble> {
    if holds {
        Ok(())
    } else {
        Err(Trouble::Wrong(what))
    }
}
