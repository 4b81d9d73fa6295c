//! Which right row each left row takes, by numbers of keys and times.
ghost use Rattle.std.specs.Prelude.{◌≡◌, ℕ, ◌<◌, ◌≤◌, true, false, All, IfOk, length, map, slice_index};
ghost use Rattle.std.specs.List.{range_with_len};
ghost use Rattle.qd_asof.specs.Choices.{choice, AreLast, IsRising};
ghost use Rattle.qd_meaning.specs.Joined.{is_early as early};

use qd_base::Memory;
use std::alloc::Global;

/// The position of the last right row that each left row takes: one with its number and a time that is early enough.
///
/// Both sides are passed once, in order of time, and for each number the last right row so far is kept. It costs time
/// linear in the rows, and takes 16 bytes for each left row and for each number below the bound.
pub(crate) fn taken_rows(
    alloc: Global,
    bound: usize,
    left_numbers: &[usize],
    left_times: &[u64],
    right_numbers: &[usize],
    right_times: &[u64],
    strict: bool,
) -> Result<Vec<Option<usize>>, Memory>
    requires left_size { length left_numbers.now ≡ length left_times.now }
    requires right_size { length right_numbers.now ≡ length right_times.now }
    requires left_below { All (λ n. n < bound) left_numbers.now }
    requires right_below { All (λ n. n < bound) right_numbers.now }
    requires left_order { IsRising left_times.now }
    requires right_order { IsRising right_times.now }
    ensures choices { IfOk result (λ v. v.items ≡ map (choice strict left_numbers.now left_times.now right_numbers.now right_times.now) (range_with_len 0 (length left_times.now))) }
{
    let mut last = Vec::from_elem(alloc, None, bound)?;
    let mut taken = Vec::with_capacity(alloc, left_times.len())?;
    let mut next = 0;
    for i in 0..left_times.len() {
        next = pass_early(
            &mut last,
            right_numbers,
            right_times,
            next,
            left_times[i],
            strict,
        );
        taken.push(last[left_numbers[i]])?;
    }
    Ok(taken)
}

/// Goes on over right rows that are early enough for a left row's time, and gives the position of the first that isn't.
fn pass_early(
    last: &mut Vec<Option<usize>>,
    numbers: &[usize],
    times: &[u64],
    from: usize,
    time: u64,
    strict: bool,
) -> usize
    requires within { from ≤ length times.now }
    requires count { length numbers.now ≡ length times.now }
    requires below { All (λ n. n < length last.old.items) numbers.now }
    requires known { AreLast numbers.now from last.old.items }
    ensures size { length last.new.items ≡ length last.old.items }
    ensures known { AreLast numbers.now result last.new.items }
    ensures more { from ≤ result }
    ensures within { result ≤ length times.now }
    ensures passed { (j : ℕ) → from ≤ j → j < result → early strict time (slice_index times.now j) ≡ true }
    ensures stops { result < length times.now → early strict time (slice_index times.now result) ≡ false }
{
    for next in from..times.len() {
        if !is_early(strict, time, times[next]) {
            return next;
        }
        last[numbers[next]] = Some(next);
    }
    times.len()
}

/// Whether a right row's time is early enough for a left row's.
fn is_early(strict: bool, left: u64, right: u64) -> bool
    ensures { result ≡ early strict left right }
{
    if strict { right < left } else { right <= left }
}
