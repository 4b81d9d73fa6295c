//! All rows in order.
ghost use Rattle.std.specs.Prelude.{◌≡◌, ◌++◌, ◌∷◌, [], filter, if◌then◌else◌, map, IfOk, OnOk};
ghost use Rattle.std.specs.List.{range_with_len};
ghost use Rattle.qd_order.specs.Orders.{arranged, before, placed_by, OrdersAlike};
ghost use Rattle.qd_order.specs.Seen.{seen};

use crate::columns::KeyColumn;
use crate::compare::{comes_first, compare};
use qd_base::Memory;
use std::alloc::Global;

/// Sorts positions by their rows' keys; those that tie keep their order. It costs n log n comparisons, and memory for as
/// many positions.
pub(crate) fn sort_places(columns: &[KeyColumn<'_>], places: &mut Vec<usize>) -> Result<(), Memory>
    requires { OrdersAlike (map seen columns.now) }
    ensures ok { OnOk result (places.new.items ≡ arranged (before (map seen columns.now)) places.old.items) }
{
    places.sort_by(|i, j| compare(columns, *i, *j))
}

/// The positions of so many rows in order. It costs n log n comparisons.
pub(crate) fn all_in_order(
    alloc: Global,
    columns: &[KeyColumn<'_>],
    count: usize,
) -> Result<Vec<usize>, Memory>
    requires { OrdersAlike (map seen columns.now) }
    ensures places { IfOk result (λ v. v.items ≡ arranged (before (map seen columns.now)) (range_with_len 0 count)) }
{
    let mut places = Vec::with_capacity(alloc, count)?;
    for place in 0..count {
        places.push(place)?;
    }
    sort_places(columns, &mut places)?;
    Ok(places)
}

/// The positions of so many rows in order, where a key has values of several classes: each is put behind all that it
/// doesn't stand before. It costs as many comparisons as there are pairs of rows.
pub(crate) fn one_by_one(
    alloc: Global,
    columns: &[KeyColumn<'_>],
    count: usize,
) -> Result<Vec<usize>, Memory>
    ensures places { IfOk result (λ v. v.items ≡ arranged (before (map seen columns.now)) (range_with_len 0 count)) }
{
    let mut places = Vec::new(alloc);
    for place in 0..count {
        places = with_place(alloc, columns, places.as_slice(), place)?;
    }
    Ok(places)
}

/// Positions in order, and one more.
fn with_place(
    alloc: Global,
    columns: &[KeyColumn<'_>],
    places: &[usize],
    place: usize,
) -> Result<Vec<usize>, Memory>
    ensures { IfOk result (λ v. v.items ≡ placed_by (before (map seen columns.now)) places.now place) }
{
    let mut all = Vec::with_capacity(alloc, places.len())?;
    for other in places {
        push_if(&mut all, *other, !comes_first(columns, place, *other))?;
    }
    all.push(place)?;
    push_behind(&mut all, columns, places, place)?;
    Ok(all)
}

/// Adds those of some positions before which one stands.
fn push_behind(
    all: &mut Vec<usize>,
    columns: &[KeyColumn<'_>],
    places: &[usize],
    place: usize,
) -> Result<(), Memory>
    ensures { OnOk result (all.new.items ≡ all.old.items ++ filter (λ y. before (map seen columns.now) place y) places.now) }
{
    for other in places {
        push_if(all, *other, comes_first(columns, place, *other))?;
    }
    Ok(())
}

/// Adds a position where it is wanted.
fn push_if(all: &mut Vec<usize>, place: usize, wanted: bool) -> Result<(), Memory>
    ensures { OnOk result (all.new.items ≡ all.old.items ++ (if wanted then place ∷ [] else [])) }
{
    if wanted {
        all.push(place)?;
    }
    Ok(())
}
