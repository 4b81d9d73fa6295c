//! Items at some places of a list.
ghost use Rattle.std.specs.Prelude.{◌≡◌, ◌-◌, ◌<◌, ◌≤◌, length, map, All, IfOk, slice_index_or, slice_range};

use qd_base::Memory;
use std::alloc::Global;

/// Copies the items at some places, in the order of the places. It costs time and memory linear in their number.
pub fn gathered<T: Copy>(alloc: Global, items: &[T], places: &[usize]) -> Result<Vec<T>, Memory>
    requires { All (λ i. i < length items.now) places.now }
    ensures items { IfOk result (λ v. (d : T) → v.items ≡ map (λ i. slice_index_or items.now i d) places.now) }
{
    let mut chosen = Vec::with_capacity(alloc, places.len())?;
    for place in places {
        chosen.push(items[*place])?;
    }
    Ok(chosen)
}

/// Copies the items from one place up to another. It costs time and memory linear in their number.
pub fn part_of<T: Copy>(
    alloc: Global,
    items: &[T],
    from: usize,
    to: usize,
) -> Result<Vec<T>, Memory>
    requires ordered { from ≤ to }
    requires within { to ≤ length items.now }
    ensures items { IfOk result (λ v. v.items ≡ slice_range items.now from to) }
{
    Vec::from_slice(alloc, &items[from..to])
}
