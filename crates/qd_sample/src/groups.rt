//! The rows of each bucket and key, as numbers.
ghost use Rattle.std.specs.Prelude.{◌≡◌, ℕ, ◌<◌, ◌==◌, true, [], All, IfOk, filter, length, map, slice_index};
ghost use Rattle.std.specs.List.{flat_map, range_with_len};
ghost use Rattle.qd_group.specs.Grouping.{same_rows, AreGroups};

use qd_base::{Dictionary, Memory};
use qd_group::{Groups, grouped_rows};
use qd_rows::RowSet;
use qd_value::Bound;
use std::alloc::Global;

/// Rows by their keys. Without keys all rows are one group.
pub(crate) fn keyed<D: Dictionary>(
    alloc: Global,
    keys: &[Bound],
    rows: &RowSet<D>,
) -> Result<Groups, Memory>
    ensures groups { IfOk result (λ g. AreGroups (same_rows keys.now rows.now) (length rows.now.places) g.numbers.items g.firsts.items) }
{
    if keys.is_empty() {
        return one_group(alloc, rows.len());
    }
    grouped_rows(alloc, keys, rows)
}

/// So many rows as one group.
fn one_group(alloc: Global, count: usize) -> Result<Groups, Memory>
    ensures groups { IfOk result (λ g. AreGroups (λ i j. true) count g.numbers.items g.firsts.items) }
{
    let mut groups = Groups::new(alloc);
    for _ in 0..count {
        groups.push(0)?;
    }
    Ok(groups)
}

/// The numbers at some places.
pub(crate) fn taken(
    alloc: Global,
    numbers: &[usize],
    places: &[usize],
) -> Result<Vec<usize>, Memory>
    requires there { All (λ i. i < length numbers.now) places.now }
    ensures taken { IfOk result (λ v. v.items ≡ map (λ i. slice_index numbers.now i) places.now) }
{
    let mut found = Vec::with_capacity(alloc, places.len())?;
    for place in places {
        found.push(numbers[*place])?;
    }
    Ok(found)
}

/// The numbers below a bound.
pub(crate) fn numbers_below(alloc: Global, bound: usize) -> Result<Vec<usize>, Memory>
    ensures numbers { IfOk result (λ v. v.items ≡ range_with_len 0 bound) }
{
    let mut numbers = Vec::with_capacity(alloc, bound)?;
    for n in 0..bound {
        numbers.push(n)?;
    }
    Ok(numbers)
}

/// Items by their classes, of which there are so many: those of a class stand in their order. It costs linear time.
pub(crate) fn dealt(
    alloc: Global,
    count: usize,
    classes: &[usize],
    items: &[usize],
) -> Result<Vec<Vec<usize>>, Memory>
    requires there { All (λ x. x < length classes.now) items.now }
    requires below { All (λ c. c < count) classes.now }
    ensures dealt { IfOk result (λ v. map (λ l. l.items) v.items ≡ map (λ c. filter (λ x. slice_index classes.now x == c) items.now) (range_with_len 0 count)) }
{
    let mut lists = no_lists(alloc, count)?;
    for item in items {
        lists[classes[*item]].push(*item)?;
    }
    Ok(lists)
}

/// So many empty lists.
fn no_lists(alloc: Global, count: usize) -> Result<Vec<Vec<usize>>, Memory>
    ensures empty { IfOk result (λ v. map (λ l. l.items) v.items ≡ map (λ c. []) (range_with_len 0 count)) }
{
    let mut lists = Vec::with_capacity(alloc, count)?;
    for _ in 0..count {
        lists.push(Vec::new(alloc))?;
    }
    Ok(lists)
}

/// Lists one after another.
pub(crate) fn flattened(alloc: Global, lists: &[Vec<usize>]) -> Result<Vec<usize>, Memory>
    ensures flat { IfOk result (λ v. v.items ≡ flat_map (λ l. l.items) lists.now) }
{
    let mut flat = Vec::new(alloc);
    for list in lists {
        flat.extend_from_slice(list.as_slice())?;
    }
    Ok(flat)
}
