//! Which rows are one group: those that are equal on all of the keys.
ghost use Rattle.std.specs.Prelude.{◌≡◌, ◌<◌, ◌+◌, ◌==◌, Some, if◌then◌else◌, IfOk, is_some, length, unwrap_or};
ghost use Rattle.std.specs.BTreeMap.{btree_map_len, get, is_at};
ghost use Rattle.qd_group.specs.Grouping.{AreGroups, same_items, same_numbers, same_rows, same_values};

use crate::groups::Groups;
use crate::keys::keys_of;
use crate::pairs::{grouped_by_table, layout_of};
use crate::symbols::grouped_by_column;
use crate::tallying::column_of;
use qd_base::{Dictionary, Memory};
use qd_rows::RowSet;
use qd_value::Bound;
use std::alloc::Global;
use std::collections::BTreeMap;

/// The groups of rows that are equal on all of some keys, NULL being equal to NULL.
///
/// It costs n log n comparisons for each key, whatever the values are, and takes at most some 100 bytes a row. In a set
/// without right columns a key that is a SYMBOL column costs a look into a table a row; texts are compared where an id
/// of a block is met for the first time. Each further key costs a look into a table of pairs a row, where that is
/// small.
pub fn grouped_rows<D: Dictionary>(
    alloc: Global,
    keys: &[Bound],
    rows: &RowSet<D>,
) -> Result<Groups, Memory>
    requires { 0 < length keys.now }
    ensures groups { IfOk result (λ g. AreGroups (same_rows keys.now rows.now) (length rows.now.places) g.numbers.items g.firsts.items) }
{
    let mut groups = grouped_by(alloc, &keys[0], rows)?;
    for k in 1..keys.len() {
        let further = grouped_by(alloc, &keys[k], rows)?;
        groups = refined(alloc, groups.numbers.as_slice(), further.numbers.as_slice())?;
    }
    Ok(groups)
}

/// The groups of rows that are equal on one key.
fn grouped_by<D: Dictionary>(alloc: Global, key: &Bound, rows: &RowSet<D>) -> Result<Groups, Memory>
    ensures groups { IfOk result (λ g. AreGroups (same_values key.now rows.now) (length rows.now.places) g.numbers.items g.firsts.items) }
{
    match rows.right_cols() {
        Some(_) => grouped_by_keys(alloc, key, rows),
        None => match column_of(key) {
            Some(at) => grouped_by_column(alloc, key, at, rows),
            None => grouped_by_keys(alloc, key, rows),
        },
    }
}

/// The groups of rows that are equal on one key, by the order of its values.
fn grouped_by_keys<D: Dictionary>(
    alloc: Global,
    key: &Bound,
    rows: &RowSet<D>,
) -> Result<Groups, Memory>
    ensures groups { IfOk result (λ g. AreGroups (same_values key.now rows.now) (length rows.now.places) g.numbers.items g.firsts.items) }
{
    let keys = keys_of(alloc, key, rows)?;
    numbered(alloc, keys.as_slice())
}

/// Tells groups apart further: two rows are of one group then where they are of one in both.
///
/// It takes linear time and at most some 80 bytes a row where the numbers are small ones, so that a table of all pairs
/// has no more than four places a row; else it costs n log n comparisons, and takes some 50 bytes a row.
pub fn refined(alloc: Global, numbers: &[usize], further: &[usize]) -> Result<Groups, Memory>
    requires { length numbers.now ≡ length further.now }
    ensures groups { IfOk result (λ g. AreGroups (same_numbers numbers.now further.now) (length numbers.now) g.numbers.items g.firsts.items) }
{
    match layout_of(numbers, further) {
        Some(layout) => grouped_by_table(alloc, numbers, further, layout),
        None => grouped_by_pairs(alloc, numbers, further),
    }
}

/// The groups of equal pairs, by the order of pairs.
fn grouped_by_pairs(alloc: Global, numbers: &[usize], further: &[usize]) -> Result<Groups, Memory>
    requires { length numbers.now ≡ length further.now }
    ensures groups { IfOk result (λ g. AreGroups (same_numbers numbers.now further.now) (length numbers.now) g.numbers.items g.firsts.items) }
{
    let mut pairs = Vec::with_capacity(alloc, numbers.len())?;
    for i in 0..numbers.len() {
        pairs.push((numbers[i], further[i]))?;
    }
    numbered(alloc, pairs.as_slice())
}

/// The groups of equal keys, by the order of their type. It costs n log n comparisons, whatever the keys are, and takes
/// some 50 bytes a key.
pub fn numbered<K: Ord + Copy>(alloc: Global, keys: &[K]) -> Result<Groups, Memory>
    ensures groups { IfOk result (λ g. (d : K) → AreGroups (same_items K.cmp keys.now d) (length keys.now) g.numbers.items g.firsts.items) }
{
    let mut numbers = BTreeMap::new(alloc);
    let mut groups = Groups::new(alloc);
    for key in keys {
        let number = number_of(&mut numbers, *key)?;
        groups.push(number)?;
    }
    Ok(groups)
}

/// Gives the number of a key: the one that it has, or the next one.
pub(crate) fn number_of<K: Ord + Copy>(
    numbers: &mut BTreeMap<K, usize>,
    key: K,
) -> Result<usize, Memory>
    ensures number { IfOk result (λ n. n ≡ unwrap_or (get K.cmp numbers.old key) (btree_map_len numbers.old)) }
    ensures known { IfOk result (λ n. (q : K) → get K.cmp numbers.new q ≡ (if is_at (K.cmp key) q then Some n else get K.cmp numbers.old q)) }
    ensures count { IfOk result (λ n. btree_map_len numbers.new ≡ btree_map_len numbers.old + (if is_some (get K.cmp numbers.old key) then 0 else 1)) }
{
    match numbers.get(&key) {
        Some(number) => Ok(*number),
        None => {
            let number = numbers.len();
            numbers.insert(key, number)?;
            Ok(number)
        }
    }
}
