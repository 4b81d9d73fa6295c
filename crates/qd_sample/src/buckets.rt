//! Where buckets start, and the bucket of each time.
ghost use Rattle.std.specs.Prelude.{◌≡◌, ℕ, ◌+◌, ◌<◌, ◌≤◌, ◌++◌, ◌∷◌, [], IfOk, OnOk, Err, length, slice_index};
ghost use Rattle.qd_meaning.specs.Sampled as meaning;
ghost use Rattle.qd_sample.specs.declared.fault.SampleFault.TheVariants.{TooMany};
ghost use Rattle.qd_sample.specs.Starts.{is_past, AreNumbers, AreStarts, AreTimes, IsWithin, StartsOfRows};
ghost use Rattle.qd_time.specs.Buckets.{IsAlign, IsReached, IsStride};

use crate::fault::SampleFault;
use qd_base::{MAX_TIME, Memory};
use qd_time::{Align, Stride, bucket_of, next_bucket};
use std::alloc::Global;

/// The starts of the buckets that have one of some times, which come in order. A bucket without a time costs nothing.
pub(crate) fn starts_with_rows(
    alloc: Global,
    times: &[u64],
    stride: Stride,
    align: Align,
) -> Result<Vec<u64>, Memory>
    requires stride { IsStride stride }
    requires align { IsAlign align }
    requires times { AreTimes align times.now }
    ensures starts { IfOk result (λ v. AreStarts stride align times.now v.items) }
    ensures rows { IfOk result (λ v. StartsOfRows stride align times.now v.items) }
{
    let mut starts = Vec::new(alloc);
    let mut end = Some(0);
    for time in times {
        if is_behind(end, *time) {
            starts.push(bucket_of(*time, stride, align))?;
            end = next_bucket(*time, stride, align);
        }
    }
    Ok(starts)
}

/// Whether a time is at the end of a bucket or behind it. A bucket without an end goes on to the last timestamp.
fn is_behind(end: Option<u64>, time: u64) -> bool
    ensures { result ≡ is_past end time }
{
    match end {
        Some(end) => end <= time,
        None => false,
    }
}

/// The starts of the buckets from the one of a moment to the one of another, or `TooMany` where there are more than `most`:
/// it takes no memory for more, and looks at one more.
pub(crate) fn starts_between(
    alloc: Global,
    first: u64,
    last: u64,
    stride: Stride,
    align: Align,
    most: usize,
) -> Result<Vec<u64>, SampleFault>
    requires order { first ≤ last }
    requires high { last ≤ MAX_TIME }
    requires stride { IsStride stride }
    requires align { IsAlign align }
    requires reached { IsReached align first }
    ensures starts { IfOk result (λ v. v.items ≡ meaning.starts stride align first last) }
    ensures few { IfOk result (λ v. length v.items ≤ most) }
    ensures too_many { result ≡ Err TooMany → most < length (meaning.starts stride align first last) }
{
    let mut starts = Vec::new(alloc);
    let mut next = Some(bucket_of(first, stride, align));
    for _ in 0..most {
        match within(next, last) {
            Some(start) => {
                add(&mut starts, start)?;
                next = next_bucket(start, stride, align);
            }
            None => return Ok(starts),
        }
    }
    match within(next, last) {
        Some(_) => Err(SampleFault::TooMany),
        None => Ok(starts),
    }
}

/// Adds a start.
fn add(starts: &mut Vec<u64>, start: u64) -> Result<(), Memory>
    ensures { OnOk result (starts.new.items ≡ starts.old.items ++ start ∷ []) }
{
    starts.push(start)?;
    Ok(())
}

/// A start that isn't after a moment.
fn within(start: Option<u64>, last: u64) -> Option<u64>
    ensures { IsWithin start last result }
{
    match start {
        Some(start) => (start <= last).then_some(start),
        None => None,
    }
}

/// For each of some times, which come in order, the position of its bucket's start.
pub(crate) fn bucket_numbers(
    alloc: Global,
    times: &[u64],
    starts: &[u64],
) -> Result<Vec<usize>, Memory>
    requires some { 0 < length starts.now }
    requires first { (i : ℕ) → i < length times.now → slice_index starts.now 0 ≤ slice_index times.now i }
    requires order { (i j : ℕ) → i ≤ j → j < length times.now → slice_index times.now i ≤ slice_index times.now j }
    ensures numbers { IfOk result (λ v. AreNumbers times.now starts.now v.items) }
{
    let mut numbers = Vec::with_capacity(alloc, times.len())?;
    let mut number = 0;
    for time in times {
        number = last_at(starts, number, *time);
        numbers.push(number)?;
    }
    Ok(numbers)
}

/// The position of the last start that isn't after a time, from one that isn't.
fn last_at(starts: &[u64], from: usize, time: u64) -> usize
    requires there { from < length starts.now }
    requires reached { slice_index starts.now from ≤ time }
    ensures there { result < length starts.now }
    ensures reached { slice_index starts.now result ≤ time }
    ensures last { result + 1 < length starts.now → time < slice_index starts.now (result + 1) }
{
    for next in from + 1..starts.len() {
        if time < starts[next] {
            return next - 1;
        }
    }
    starts.len() - 1
}
