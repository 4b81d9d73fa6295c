//! Positions as plans hold them.
ghost use Rattle.std.specs.Prelude.{◌≡◌, ◌+◌, IfOk};

use qd_base::Memory;
use std::alloc::AllocError;

/// A position as plans hold it. One that they can't hold finds no memory.
pub(crate) fn position(at: usize) -> Result<u32, Memory>
    ensures same { IfOk result (λ held. held ≡ at) }
{
    match u32::try_from(at) {
        Ok(at) => Ok(at),
        Err(_) => Err(AllocError),
    }
}

/// A sum. One that no memory has so many cells for finds none.
pub(crate) fn sum(a: usize, b: usize) -> Result<usize, Memory>
    ensures sum { IfOk result (λ made. made ≡ a + b) }
{
    match a.checked_add(b) {
        Some(sum) => Ok(sum),
        None => Err(AllocError),
    }
}
