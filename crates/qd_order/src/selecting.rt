//! The first rows in order.
ghost use Rattle.std.specs.Prelude.{◌≡◌, ◌<◌, map, take, IfOk, OnOk};
ghost use Rattle.std.specs.List.{range_with_len};
ghost use Rattle.qd_order.specs.Orders.{arranged, before, OrdersAlike};
ghost use Rattle.qd_order.specs.Selected.{goes_before, HasFirst, KeepsFirst};
ghost use Rattle.qd_order.specs.Seen.{seen};

use crate::columns::KeyColumn;
use crate::compare::compare;
use crate::sorting::sort_places;
use qd_base::Memory;
use std::alloc::Global;

/// The positions of the first rows in order, at most so many. No more than twice as many positions are kept at a time; it
/// costs one comparison a row, and n log n of them for each n rows that come in between the first ones.
pub(crate) fn first_in_order(
    alloc: Global,
    columns: &[KeyColumn<'_>],
    count: usize,
    most: usize,
) -> Result<Vec<usize>, Memory>
    requires { OrdersAlike (map seen columns.now) }
    ensures places { IfOk result (λ v. v.items ≡ take most (arranged (before (map seen columns.now)) (range_with_len 0 count))) }
{
    let mut kept = Vec::new(alloc);
    if most == 0 {
        return Ok(kept);
    }
    let mut last = None;
    for place in 0..count {
        last = add_place(columns, &mut kept, most, place, last)?;
    }
    sort_places(columns, &mut kept)?;
    kept.truncate(most);
    Ok(kept)
}

/// Adds a position where it may be among the first ones, and gives one behind which no other one can be among them.
fn add_place(
    columns: &[KeyColumn<'_>],
    kept: &mut Vec<usize>,
    most: usize,
    place: usize,
    last: Option<usize>,
) -> Result<Option<usize>, Memory>
    requires alike { OrdersAlike (map seen columns.now) }
    requires some { 0 < most }
    requires bound { HasFirst (before (map seen columns.now)) most kept.old.items last }
    ensures same { OnOk result (KeepsFirst (before (map seen columns.now)) most place kept.old.items kept.new.items) }
    ensures bound { IfOk result (HasFirst (before (map seen columns.now)) most kept.new.items) }
{
    if !is_before(columns, place, last) {
        return Ok(last);
    }
    kept.push(place)?;
    cut_if_full(columns, kept, most, last)
}

/// Whether the row of a position stands before that of another one, if there is one.
fn is_before(columns: &[KeyColumn<'_>], place: usize, last: Option<usize>) -> bool
    requires { OrdersAlike (map seen columns.now) }
    ensures { result ≡ goes_before (before (map seen columns.now)) place last }
{
    match last {
        Some(last) => compare(columns, place, last).is_lt(),
        None => true,
    }
}

/// Keeps the first positions alone where twice as many are kept, and gives one behind which no other one can be among
/// them.
fn cut_if_full(
    columns: &[KeyColumn<'_>],
    kept: &mut Vec<usize>,
    most: usize,
    last: Option<usize>,
) -> Result<Option<usize>, Memory>
    requires alike { OrdersAlike (map seen columns.now) }
    requires some { 0 < most }
    requires bound { HasFirst (before (map seen columns.now)) most kept.old.items last }
    ensures same { OnOk result (take most (arranged (before (map seen columns.now)) kept.new.items) ≡ take most (arranged (before (map seen columns.now)) kept.old.items)) }
    ensures bound { IfOk result (HasFirst (before (map seen columns.now)) most kept.new.items) }
{
    if kept.len() / 2 < most {
        return Ok(last);
    }
    sort_places(columns, kept)?;
    kept.truncate(most);
    Ok(Some(kept[most - 1]))
}
