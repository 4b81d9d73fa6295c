//! The rows after which no row has the same keys.
ghost use Rattle.std.specs.Prelude.{◌≡◌, ◌<◌, ◌==◌, [], ◌∷◌, None, All, IfOk, IfSome, OnOk, IsSorted, length};
ghost use Rattle.std.specs.List.{list_any};
ghost use Rattle.std.specs.Ordering.{nat_cmp};
ghost use Rattle.qd_expr.specs.Passing.{with_places};
ghost use Rattle.qd_keys.specs.Symbols.{is_symbol as symbolic, IsSymbols};
ghost use Rattle.qd_latest.specs.Chains.{cells_of};
ghost use Rattle.qd_latest.specs.Lasts.{places_where, stands};
ghost use Rattle.qd_latest.specs.Walks.{KeepsAll, KeepsTexts};
ghost use Rattle.qd_meaning.specs.Latest.{latest as last_rows};
ghost use Rattle.qd_rows.specs.Sets.{rows_in};

use crate::lasts::last_places;
use crate::nulls::last_null;
use crate::walk::rows_of_texts;
use qd_base::{ColType, Dictionary, KeyList, Memory};
use qd_keys::key_numbers;
use qd_rows::RowSet;
use std::alloc::Global;

/// Gives the rows of a set after which no row has the same keys, NULL being equal to NULL, in their order and over the
/// same columns and blocks. Without keys that is the last row. No cell and no row is made.
///
/// Rows of one side by one SYMBOL column: it goes back from the last row until each text and NULL is met, at some
/// nanoseconds a row. Where rows lie in so short runs that this would not pay, and for other keys, it costs n log n
/// comparisons for each key, whatever the values are, and takes some 80 bytes a row.
pub fn latest<D: Dictionary>(
    alloc: Global,
    rows: &RowSet<D>,
    keys: &KeyList,
) -> Result<RowSet<D>, Memory>
    ensures rows { IfOk result (λ set. rows_in set ≡ last_rows keys.now (rows_in rows.now)) }
    ensures over { IfOk result (λ set. set ≡ with_places rows.now set.places) }
{
    let keys = keys.as_slice();
    match latest_symbols(alloc, rows, keys)? {
        Some(kept) => Ok(kept),
        None => latest_by_numbers(alloc, rows, keys),
    }
}

/// Goes back from the last row, where one column of symbols is the key and the rows have no right side. There are none
/// where that can't be done, or would not pay.
fn latest_symbols<D: Dictionary>(
    alloc: Global,
    rows: &RowSet<D>,
    keys: &[u32],
) -> Result<Option<RowSet<D>>, Memory>
    ensures rows { IfOk result (λ found. IfSome found (λ set. rows_in set ≡ last_rows keys.now (rows_in rows.now))) }
    ensures over { IfOk result (λ found. IfSome found (λ set. set ≡ with_places rows.now set.places)) }
{
    match symbol_key(rows, keys) {
        Some(col) => match rows_of_symbols(alloc, rows, col)? {
            Some(places) => Ok(Some(rows_at(alloc, rows, places.as_slice())?)),
            None => Ok(None),
        },
        None => Ok(None),
    }
}

/// The one key of rows without a right side, if it is a column of symbols.
fn symbol_key<D: Dictionary>(rows: &RowSet<D>, keys: &[u32]) -> Option<u32>
    ensures single { IfSome result (λ col. rows.now.right ≡ None) }
    ensures key { IfSome result (λ col. keys.now ≡ col ∷ []) }
    ensures symbols { IfSome result (λ col. IsSymbols rows.now.left col) }
{
    let cols = rows.left_cols().as_slice();
    if keys.len() != 1 || rows.right_cols().is_some() || keys[0] as usize >= cols.len() {
        return None;
    }
    match cols[keys[0] as usize].kind {
        ColType::Symbol => Some(keys[0]),
        _ => None,
    }
}

/// The places of the rows at which the texts of a column of symbols and NULL stand last, in order.
fn rows_of_symbols<D: Dictionary>(
    alloc: Global,
    rows: &RowSet<D>,
    col: u32,
) -> Result<Option<Vec<usize>>, Memory>
    requires single { rows.now.right ≡ None }
    requires symbols { IsSymbols rows.now.left col }
    ensures sorted { IfOk result (λ found. IfSome found (λ places. IsSorted nat_cmp places.items)) }
    ensures kept { IfOk result (λ found. IfSome found (λ places. KeepsAll (cells_of rows.now col) places.items)) }
{
    match rows_of_texts(alloc, rows, col)? {
        Some(mut places) => {
            if let Some(i) = last_null(rows, col as usize) {
                places.push(i)?;
            }
            places.sort_unstable();
            Ok(Some(places))
        }
        None => Ok(None),
    }
}

/// The rows of a set at some places, which stand in order.
fn rows_at<D: Dictionary>(
    alloc: Global,
    rows: &RowSet<D>,
    places: &[usize],
) -> Result<RowSet<D>, Memory>
    requires { IsSorted nat_cmp places.now }
    ensures { IfOk result (λ set. set ≡ with_places rows.now (places_where (λ i. list_any (λ k. i == k) places.now) 0 rows.now.places)) }
{
    let mut kept = without_rows(alloc, rows)?;
    add_rows(&mut kept, rows, places)?;
    Ok(kept)
}

/// Adds the rows of a set at some places to one without rows. A place may be given more than once.
fn add_rows<D: Dictionary>(
    kept: &mut RowSet<D>,
    rows: &RowSet<D>,
    places: &[usize],
) -> Result<(), Memory>
    requires empty { kept.old ≡ with_places rows.now [] }
    requires sorted { IsSorted nat_cmp places.now }
    ensures { OnOk result (kept.new ≡ with_places rows.now (places_where (λ i. list_any (λ k. i == k) places.now) 0 rows.now.places)) }
{
    let count = rows.len();
    let mut next = 0;
    for place in places {
        if next <= *place && *place < count {
            let (left, right) = rows.places(*place);
            kept.push_row(left, right)?;
            next = *place + 1;
        }
    }
    Ok(())
}

/// Numbers all rows by their keys, and keeps the last one of each number.
fn latest_by_numbers<D: Dictionary>(
    alloc: Global,
    rows: &RowSet<D>,
    keys: &[u32],
) -> Result<RowSet<D>, Memory>
    ensures rows { IfOk result (λ set. rows_in set ≡ last_rows keys.now (rows_in rows.now)) }
    ensures over { IfOk result (λ set. set ≡ with_places rows.now set.places) }
{
    let mut kept = without_rows(alloc, rows)?;
    let told = key_numbers(alloc, rows, keys, &kept, keys)?;
    let numbers = told.numbers.as_slice();
    let last = last_places(alloc, numbers, told.bound)?;
    keep_last(&mut kept, rows, numbers, last.as_slice())?;
    Ok(kept)
}

/// The set without its rows.
fn without_rows<D: Dictionary>(alloc: Global, rows: &RowSet<D>) -> Result<RowSet<D>, Memory>
    ensures { IfOk result (λ set. set ≡ with_places rows.now []) }
{
    let mut empty = RowSet::over(alloc, rows.left_cols(), rows.right_cols())?;
    for b in 0..rows.blocks() {
        empty.add_block(rows.block(b).clone()?)?;
    }
    Ok(empty)
}

/// Adds the rows to a set whose number stands last at them.
fn keep_last<D: Dictionary>(
    kept: &mut RowSet<D>,
    rows: &RowSet<D>,
    numbers: &[usize],
    last: &[usize],
) -> Result<(), Memory>
    requires empty { kept.old ≡ with_places rows.now [] }
    requires count { length numbers.now ≡ length rows.now.places }
    requires below { All (λ k. k < length last.now) numbers.now }
    ensures ok { OnOk result (kept.new ≡ with_places rows.now (places_where (stands numbers.now last.now) 0 rows.now.places)) }
{
    for i in 0..numbers.len() {
        if last[numbers[i]] == i {
            let (left, right) = rows.places(i);
            kept.push_row(left, right)?;
        }
    }
    Ok(())
}
