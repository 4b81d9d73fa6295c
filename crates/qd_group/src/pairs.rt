//! Pairs of numbers by groups, by a table with a place for each pair.
ghost use Rattle.std.specs.Prelude.{◌≡◌, ◌+◌, ◌*◌, ◌<◌, ◌≤◌, None, Some, All, IfOk, IfSome, length, slice_index_or, slice_set, unwrap_or};
ghost use Rattle.qd_group.specs.Grouping.{same_numbers, AreGroups};

use crate::by_groups::repeated;
use crate::groups::Groups;
use qd_base::Memory;
use std::alloc::Global;

/// How a table of pairs is laid out: a row for each first number, with a place for each second one.
#[derive(Clone, Copy)]
pub(crate) struct Layout {
    /// How many places a row has.
    pub(crate) width: usize,
    /// How many places there are.
    pub(crate) places: usize,
}

/// The layout of a table of pairs, if that takes no more than four places a pair. It takes linear time.
pub(crate) fn layout_of(numbers: &[usize], further: &[usize]) -> Option<Layout>
    ensures narrow { IfSome result (λ l. All (λ b. b < l.width) further.now) }
    ensures room { IfSome result (λ l. All (λ a. a * l.width + l.width ≤ l.places) numbers.now) }
{
    let width = bound_of(further)?;
    let places = bound_of(numbers)?.checked_mul(width)?;
    if places / 4 > numbers.len() {
        return None;
    }
    Some(Layout { width, places })
}

/// The number behind the greatest of some numbers, if there is one.
fn bound_of(numbers: &[usize]) -> Option<usize>
    ensures { IfSome result (λ bound. All (λ n. n < bound) numbers.now) }
{
    let mut greatest = 0;
    for number in numbers {
        if greatest < *number {
            greatest = *number;
        }
    }
    greatest.checked_add(1)
}

/// The groups of equal pairs. It takes linear time, and 16 bytes for each place of the table.
pub(crate) fn grouped_by_table(
    alloc: Global,
    numbers: &[usize],
    further: &[usize],
    layout: Layout,
) -> Result<Groups, Memory>
    requires count { length numbers.now ≡ length further.now }
    requires narrow { All (λ b. b < layout.width) further.now }
    requires room { All (λ a. a * layout.width + layout.width ≤ layout.places) numbers.now }
    ensures groups { IfOk result (λ g. AreGroups (same_numbers numbers.now further.now) (length numbers.now) g.numbers.items g.firsts.items) }
{
    let mut table = repeated(alloc, None, layout.places)?;
    let mut groups = Groups::for_rows(alloc, numbers.len())?;
    for i in 0..numbers.len() {
        let place = numbers[i] * layout.width + further[i];
        let number = number_at(&mut table, place, groups.firsts.len());
        groups.push(number)?;
    }
    Ok(groups)
}

/// The number at a place of a table: the one that is there, or else the next one, which is there then.
#[inline(always)]
fn number_at(table: &mut Vec<Option<usize>>, place: usize, next: usize) -> usize
    requires { place < length table.old.items }
    ensures number { result ≡ unwrap_or (slice_index_or table.old.items place None) next }
    ensures table { table.new.items ≡ slice_set table.old.items place (Some result) }
{
    let number = table[place].unwrap_or(next);
    table[place] = Some(number);
    number
}
