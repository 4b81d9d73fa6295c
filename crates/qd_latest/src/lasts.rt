//! The last place of each number.
ghost use Rattle.std.specs.Prelude.{◌≡◌, ◌<◌, All, IfOk, length};
ghost use Rattle.qd_latest.specs.Lasts.{AreLast};

use qd_base::Memory;
use std::alloc::Global;

/// The place at which each number stands last. It costs time linear in the numbers, and takes 8 bytes for each number
/// below the bound.
pub(crate) fn last_places(
    alloc: Global,
    numbers: &[usize],
    bound: usize,
) -> Result<Vec<usize>, Memory>
    requires { All (λ k. k < bound) numbers.now }
    ensures last { IfOk result (λ v. AreLast numbers.now (length numbers.now) v.items) }
    ensures size { IfOk result (λ v. length v.items ≡ bound) }
{
    let mut last = Vec::from_elem(alloc, 0, bound)?;
    for i in 0..numbers.len() {
        last[numbers[i]] = i;
    }
    Ok(last)
}
