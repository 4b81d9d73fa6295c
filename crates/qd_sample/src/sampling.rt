//! Samples.
ghost use Rattle.std.specs.Prelude.{◌≡◌, ℕ, ◌<◌, ◌≤◌, ◌==◌, All, IfOk, Err, filter, length, map, slice_index};
ghost use Rattle.std.specs.List.{range_with_len};
ghost use Rattle.qd_base.specs.Laws.{IsInOrder};
ghost use Rattle.qd_base.specs.Rows.{time_of};
ghost use Rattle.qd_meaning.specs.Grouped.{keys_of};
ghost use Rattle.qd_meaning.specs.Sampled as meaning;
ghost use Rattle.qd_rows.specs.Sets.{rows_in};
ghost use Rattle.qd_sample.specs.declared.fault.SampleFault.TheVariants.{TooMany};
ghost use Rattle.qd_sample.specs.Sampling.{filled_whole, starts_of, FillsFit, IsOffset};
ghost use Rattle.qd_sample.specs.Cells.{by_key};
ghost use Rattle.qd_sample.specs.Starts.{AreTimes};
ghost use Rattle.qd_time.specs.Buckets.{IsAlign, IsStride};

use crate::buckets::{bucket_numbers, starts_between, starts_with_rows};
use crate::cells::{Pairs, paired};
use crate::fault::SampleFault;
use crate::filling::{each_fill, skips};
use crate::groups::{dealt, flattened, keyed, numbers_below};
use crate::rows::{Heads, rows_of_groups, rows_of_keys};
use crate::times::times_of;
use qd_base::{Dictionary, MAX_SAMPLED_ROWS, MAX_TIME, Memory, RowList};
use qd_group::columns_of;
use qd_meaning::SampleSpec;
use qd_rows::RowSet;
use qd_time::Align;
use std::alloc::Global;

/// Gives one row for each bucket of time and key, in order of time, and of the keys' first appearance within a bucket: the
/// bucket's start, the keys, then what the aggregates make of the rows. No rows give none.
///
/// Buckets start on the calendar at the offset, or at the first row's time. Without a fill, or where it skips, a bucket and
/// key without rows gives no row. Else each bucket from the first row's to the last row's has one row for each key: NULL, a
/// number, or what the key had in the bucket before, which is NULL in the first one, stands for the aggregates of no rows.
///
/// The rows stand in order of time, of which `time_col` is the column. `TooMany` is answered exactly where there are more
/// than 1,000,000 sampled rows, and costs no more than that many of them, however many buckets have no row.
///
/// It costs the time of an expression a row for each key and each aggregate, and n log n comparisons. It takes some 100
/// bytes a row and 24 for each aggregate of a bucket and key; texts are copied and cells made for the answer alone.
pub fn sample<D: Dictionary>(
    alloc: Global,
    rows: &RowSet<D>,
    spec: &SampleSpec,
    time_col: usize,
) -> Result<RowList, SampleFault>
    requires stride { IsStride spec.now.stride }
    requires offset { IsOffset spec.now.offset }
    requires fills { FillsFit spec.now }
    requires order { IsInOrder time_col (rows_in rows.now) }
    requires high { All (λ row. time_of time_col row ≤ MAX_TIME) (rows_in rows.now) }
    ensures rows { IfOk result (λ made. made ≡ meaning.sampled spec.now time_col (rows_in rows.now)) }
    ensures few { IfOk result (λ made. length made ≤ MAX_SAMPLED_ROWS) }
    ensures too_many { result ≡ Err TooMany → MAX_SAMPLED_ROWS < length (meaning.sampled spec.now time_col (rows_in rows.now)) }
{
    if rows.is_empty() {
        return Ok(RowList::new(alloc));
    }
    let times = times_of(alloc, rows, time_col)?;
    let align = align_of(spec.offset, times[0]);
    if skips(spec.fills.as_slice()) {
        unfilled(alloc, rows, spec, times.as_slice(), align)
    } else {
        filled(alloc, rows, spec, times.as_slice(), align)
    }
}

/// Where buckets begin: on the calendar, or at the first row's time.
fn align_of(offset: Option<i32>, first: u64) -> Align
    ensures { result ≡ meaning.align_of offset first }
{
    match offset {
        Some(minutes) => Align::Calendar { minutes },
        None => Align::First { t0: first },
    }
}

/// A sample without rows for what has none.
fn unfilled<D: Dictionary>(
    alloc: Global,
    rows: &RowSet<D>,
    spec: &SampleSpec,
    times: &[u64],
    align: Align,
) -> Result<RowList, SampleFault>
    requires stride { IsStride spec.now.stride }
    requires align { IsAlign align }
    requires times { AreTimes align times.now }
    requires some { 0 < length times.now }
    requires count { length times.now ≡ length rows.now.places }
    ensures rows { (time_col : ℕ) → times.now ≡ map (time_of time_col) (rows_in rows.now) → IfOk result (λ made. made ≡ meaning.unfilled spec.now align time_col (keys_of spec.now.group.keys (rows_in rows.now)) (starts_of spec.now align times.now) (rows_in rows.now)) }
    ensures few { (time_col : ℕ) → times.now ≡ map (time_of time_col) (rows_in rows.now) → IfOk result (λ made. length made ≤ MAX_SAMPLED_ROWS) }
    ensures too_many { result ≡ Err TooMany → (time_col : ℕ) → times.now ≡ map (time_of time_col) (rows_in rows.now) → MAX_SAMPLED_ROWS < length (meaning.unfilled spec.now align time_col (keys_of spec.now.group.keys (rows_in rows.now)) (starts_of spec.now align times.now) (rows_in rows.now)) }
{
    let starts = starts_with_rows(alloc, times, spec.stride, align)?;
    let buckets = bucket_numbers(alloc, times, starts.as_slice())?;
    let keys = keyed(alloc, spec.group.keys.as_slice(), rows)?;
    let pairs = paired(alloc, buckets.as_slice(), keys.numbers.as_slice())?;
    if MAX_SAMPLED_ROWS < pairs.groups.firsts.len() as u64 {
        return Err(SampleFault::TooMany);
    }
    let lists = in_key_order(alloc, &pairs, starts.len(), keys.firsts.len())?;
    let columns = columns_of(alloc, spec.group.aggs.as_slice(), rows, &pairs.groups)?;
    let heads = Heads {
        rows,
        keys: spec.group.keys.as_slice(),
        firsts: keys.firsts.as_slice(),
    };
    let made = rows_of_groups(
        alloc,
        &heads,
        starts.as_slice(),
        lists.as_slice(),
        pairs.keys.as_slice(),
        columns.as_slice(),
    )?;
    Ok(made)
}

/// A sample with a row for each bucket and key.
fn filled<D: Dictionary>(
    alloc: Global,
    rows: &RowSet<D>,
    spec: &SampleSpec,
    times: &[u64],
    align: Align,
) -> Result<RowList, SampleFault>
    requires stride { IsStride spec.now.stride }
    requires align { IsAlign align }
    requires times { AreTimes align times.now }
    requires some { 0 < length times.now }
    requires count { length times.now ≡ length rows.now.places }
    requires fills { FillsFit spec.now }
    ensures rows { (time_col : ℕ) → times.now ≡ map (time_of time_col) (rows_in rows.now) → IfOk result (λ made. made ≡ filled_whole spec.now align time_col (starts_of spec.now align times.now) (rows_in rows.now)) }
    ensures few { (time_col : ℕ) → times.now ≡ map (time_of time_col) (rows_in rows.now) → IfOk result (λ made. length made ≤ MAX_SAMPLED_ROWS) }
    ensures too_many { result ≡ Err TooMany → (time_col : ℕ) → MAX_SAMPLED_ROWS < length (filled_whole spec.now align time_col (starts_of spec.now align times.now) (rows_in rows.now)) }
{
    let keys = keyed(alloc, spec.group.keys.as_slice(), rows)?;
    let most = MAX_SAMPLED_ROWS as usize / keys.firsts.len();
    let last = times[times.len() - 1];
    let starts = starts_between(alloc, times[0], last, spec.stride, align, most)?;
    let buckets = bucket_numbers(alloc, times, starts.as_slice())?;
    let pairs = paired(alloc, buckets.as_slice(), keys.numbers.as_slice())?;
    let lists = in_order(alloc, &pairs, starts.len())?;
    let columns = columns_of(alloc, spec.group.aggs.as_slice(), rows, &pairs.groups)?;
    let fills = each_fill(alloc, spec.fills.as_slice(), spec.group.aggs.len())?;
    let heads = Heads {
        rows,
        keys: spec.group.keys.as_slice(),
        firsts: keys.firsts.as_slice(),
    };
    let made = rows_of_keys(
        alloc,
        &heads,
        starts.as_slice(),
        lists.as_slice(),
        pairs.keys.as_slice(),
        columns.as_slice(),
        fills.as_slice(),
    )?;
    Ok(made)
}

/// The groups of each bucket, in order.
fn in_order(alloc: Global, pairs: &Pairs, buckets: usize) -> Result<Vec<Vec<usize>>, Memory>
    requires count { length pairs.now.buckets.items ≡ length pairs.now.groups.firsts.items }
    requires below { All (λ b. b < buckets) pairs.now.buckets.items }
    ensures lists { IfOk result (λ v. map (λ l. l.items) v.items ≡ map (λ b. filter (λ g. slice_index pairs.now.buckets.items g == b) (range_with_len 0 (length pairs.now.groups.firsts.items))) (range_with_len 0 buckets)) }
{
    let all = numbers_below(alloc, pairs.groups.firsts.len())?;
    dealt(alloc, buckets, pairs.buckets.as_slice(), all.as_slice())
}

/// The groups of each bucket, in order of their keys.
fn in_key_order(
    alloc: Global,
    pairs: &Pairs,
    buckets: usize,
    keys: usize,
) -> Result<Vec<Vec<usize>>, Memory>
    requires count { length pairs.now.buckets.items ≡ length pairs.now.groups.firsts.items }
    requires keyed { length pairs.now.keys.items ≡ length pairs.now.groups.firsts.items }
    requires below { All (λ b. b < buckets) pairs.now.buckets.items }
    requires known { All (λ k. k < keys) pairs.now.keys.items }
    ensures lists { IfOk result (λ v. map (λ l. l.items) v.items ≡ map (λ b. filter (λ g. slice_index pairs.now.buckets.items g == b) (by_key pairs.now.keys.items (length pairs.now.groups.firsts.items) keys)) (range_with_len 0 buckets)) }
{
    let all = numbers_below(alloc, pairs.groups.firsts.len())?;
    let of_keys = dealt(alloc, keys, pairs.keys.as_slice(), all.as_slice())?;
    let ordered = flattened(alloc, of_keys.as_slice())?;
    dealt(alloc, buckets, pairs.buckets.as_slice(), ordered.as_slice())
}
