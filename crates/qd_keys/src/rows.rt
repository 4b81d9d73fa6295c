//! Rows by the numbers of all of their keys.
ghost use Rattle.std.specs.Prelude.{◌≡◌, ◌+◌, [], length, IfOk};
ghost use Rattle.std.specs.List.{zip};
ghost use Rattle.qd_group.specs.Grouping.{same_numbers};
ghost use Rattle.qd_keys.specs.Keys.{same_keys, Tells};
ghost use Rattle.qd_rows.specs.Sets.{rows_in};

use crate::columns::numbers_by;
use crate::numbers::Numbers;
use qd_base::{Dictionary, Memory};
use qd_group::refined;
use qd_rows::RowSet;
use std::alloc::{AllocError, Global};

/// Numbers the rows of a set, and behind them those of another: two rows have one number exactly where they are equal on
/// all of the keys, NULL being equal to NULL. The keys are columns of both, pair by pair; what one has more is left out.
///
/// It costs n log n comparisons for each key, whatever the values are. It takes some 80 bytes a row.
pub fn key_numbers<D: Dictionary>(
    alloc: Global,
    first: &RowSet<D>,
    first_keys: &[u32],
    second: &RowSet<D>,
    second_keys: &[u32],
) -> Result<Numbers, Memory>
    ensures tell { IfOk result (λ n. Tells (same_keys (zip first_keys.now second_keys.now) (rows_in first.now) (rows_in second.now)) (length first.now.places + length second.now.places) n.bound n.numbers.items) }
{
    let count = first_keys.len().min(second_keys.len());
    if count == 0 {
        return alike(alloc, first, second);
    }
    let mut numbers = numbers_by(
        alloc,
        first,
        first_keys[0] as usize,
        second,
        second_keys[0] as usize,
    )?;
    for k in 1..count {
        let further = numbers_by(
            alloc,
            first,
            first_keys[k] as usize,
            second,
            second_keys[k] as usize,
        )?;
        numbers = further_apart(alloc, &numbers, &further)?;
    }
    Ok(numbers)
}

/// Numbers rows without keys: all are the same.
fn alike<D: Dictionary>(
    alloc: Global,
    first: &RowSet<D>,
    second: &RowSet<D>,
) -> Result<Numbers, Memory>
    ensures tell { IfOk result (λ n. Tells (same_keys [] (rows_in first.now) (rows_in second.now)) (length first.now.places + length second.now.places) n.bound n.numbers.items) }
{
    match first.len().checked_add(second.len()) {
        Some(count) => Ok(Numbers {
            numbers: Vec::from_elem(alloc, 0, count)?,
            bound: 1,
        }),
        None => Err(AllocError),
    }
}

/// Tells items apart that are told apart by either of two lists of numbers.
fn further_apart(alloc: Global, numbers: &Numbers, further: &Numbers) -> Result<Numbers, Memory>
    requires { length numbers.now.numbers.items ≡ length further.now.numbers.items }
    ensures tell { IfOk result (λ n. Tells (same_numbers numbers.now.numbers.items further.now.numbers.items) (length numbers.now.numbers.items) n.bound n.numbers.items) }
{
    let groups = refined(
        alloc,
        numbers.numbers.as_slice(),
        further.numbers.as_slice(),
    )?;
    Ok(Numbers {
        bound: groups.firsts.len(),
        numbers: groups.numbers,
    })
}
