//! Rows by the numbers of one key.
ghost use Rattle.std.specs.Prelude.{◌+◌, ◌++◌, IfOk, length, map};
ghost use Rattle.qd_keys.specs.Keys.{same_cells, same_in, Tells};
ghost use Rattle.qd_rows.specs.Sets.{rows_in};
ghost use Rattle.qd_value.specs.Value.{value};

use crate::numbers::Numbers;
use crate::symbols::{has_symbols, symbol_numbers};
use qd_base::{Dictionary, Memory};
use qd_group::{keys_of, numbered};
use qd_rows::RowSet;
use qd_value::Bound;
use std::alloc::Global;

/// Tells the rows of a set, and behind them those of another, apart by one column of each.
pub(crate) fn numbers_by<'a, D: Dictionary>(
    alloc: Global,
    first: &'a RowSet<D>,
    first_at: usize,
    second: &'a RowSet<D>,
    second_at: usize,
) -> Result<Numbers, Memory>
    ensures tell { IfOk result (λ n. Tells (same_cells (first_at, second_at) (rows_in first.now) (rows_in second.now)) (length first.now.places + length second.now.places) n.bound n.numbers.items) }
{
    if has_symbols(first, first_at) && has_symbols(second, second_at) {
        return symbol_numbers(alloc, first, first_at, second, second_at);
    }
    let of_first = Bound::Column(first_at);
    let of_second = Bound::Column(second_at);
    value_numbers(alloc, &of_first, first, &of_second, second)
}

/// Tells the rows of a set, and behind them those of another, apart by the values of an expression on each.
fn value_numbers<'a, D: Dictionary>(
    alloc: Global,
    of_first: &'a Bound,
    first: &'a RowSet<D>,
    of_second: &'a Bound,
    second: &'a RowSet<D>,
) -> Result<Numbers, Memory>
    ensures tell { IfOk result (λ n. Tells (same_in (map (value of_first.now) (rows_in first.now) ++ map (value of_second.now) (rows_in second.now))) (length first.now.places + length second.now.places) n.bound n.numbers.items) }
{
    let mut keys = keys_of(alloc, of_first, first)?;
    let more = keys_of(alloc, of_second, second)?;
    keys.extend_from_slice(more.as_slice())?;
    let groups = numbered(alloc, keys.as_slice())?;
    Ok(Numbers {
        bound: groups.firsts.len(),
        numbers: groups.numbers,
    })
}
