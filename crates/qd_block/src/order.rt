//! Places in order of time.
ghost use Rattle.std.specs.Prelude.{◌≡◌, ℕ, ◌+◌, ◌<◌, List, [], IfOk, All, map, length, slice_index, slice_index_or, OnOk, OnErr};
ghost use Rattle.std.specs.Bool.{OnTrue, OnFalse};
ghost use Rattle.std.specs.List.Sorted.{IsNonDecreasing};
ghost use Rattle.qd_base.specs.Rows.{Row, time_of};
ghost use Rattle.qd_block.specs.Blocks.{in_time_order};
ghost use Rattle.qd_block.specs.Order.{placed, IsOrderOf, IsSortedFrom};
ghost use Rattle.qd_block.specs.declared.order.Placed.{Placed as Moment};

use qd_base::Memory;
use std::alloc::Global;

/// A row's time and its number.
#[derive(Clone, Copy, Debug)]
pub(crate) struct Placed {
    pub(crate) time: u64,
    pub(crate) place: usize,
}

/// Says whether no time is less than the one before it. It costs time linear in their number.
pub fn rises(times: &[u64]) -> bool
    ensures rises { OnTrue result (IsNonDecreasing times.now) }
    ensures falls { OnFalse result ((k : ℕ) × (k + 1 < length times.now) × (slice_index times.now (k + 1) < slice_index times.now k)) }
{
    times.is_sorted()
}

/// Gives the places of times in order of time, those of one time in the order of their numbers: so rows with these
/// times come to stand as if they were put one by one. It costs n log n and memory linear in their number.
pub fn time_order(alloc: Global, times: &[u64]) -> Result<Vec<usize>, Memory>
    ensures within { IfOk result (λ v. All (λ i. i < length times.now) v.items) }
    ensures order { (col : ℕ) (rows : List Row) → map (time_of col) rows ≡ times.now → IfOk result (λ v. map (λ i. slice_index_or rows i []) v.items ≡ in_time_order col rows) }
{
    places_in_order(alloc, times)
}

/// Gives the places of times in order of time, those of one time in the order of their numbers. It costs n log n.
pub(crate) fn places_in_order(alloc: Global, times: &[u64]) -> Result<Vec<usize>, Memory>
    ensures order { IfOk result (λ v. (places : List Moment) × IsOrderOf times.now places × (v.items ≡ map (λ p. p.place) places)) }
{
    let mut placed = places_of(alloc, times)?;
    sort_by_time(&mut placed)?;
    let mut places = Vec::with_capacity(alloc, placed.len())?;
    for moment in &placed {
        places.push(moment.place)?;
    }
    Ok(places)
}

/// Each place with its time.
fn places_of(alloc: Global, times: &[u64]) -> Result<Vec<Placed>, Memory>
    ensures placed { IfOk result (λ v. v.items ≡ placed times.now) }
{
    let mut places = Vec::with_capacity(alloc, times.len())?;
    for (place, time) in times.iter().enumerate() {
        places.push(Placed { time: *time, place })?;
    }
    Ok(places)
}

/// Sorts places by time. Those of one time keep their order.
fn sort_by_time(places: &mut Vec<Placed>) -> Result<(), Memory>
    ensures ok { OnOk result (IsSortedFrom places.old.items places.new.items) }
{
    places.sort_by_key(|moment| moment.time)
}
