//! The order of a merge: which rows of two blocks stand one behind another, as runs.
ghost use Rattle.std.specs.Prelude.{◌≡◌, ℕ, ◌<◌, ◌≤◌, true, All, OnOk, IfOk, length, slice_index};
ghost use Rattle.std.specs.List.Sorted.{IsNonDecreasing};
ghost use Rattle.qd_merge.specs.Order.{AddsRun, AddsKept, IsMergeOrder};

use qd_base::Memory;
use qd_column::{Run, Side};
use std::alloc::Global;

/// Finds the order in which the rows of two blocks stand when those of the second are put into those of the first from
/// `skip` on, by their times alone. The rows of the first that are `gone` stand nowhere. It costs time linear in the
/// number of rows, and memory in that of the runs.
pub(crate) fn merge_order(
    alloc: Global,
    old: &[u64],
    skip: usize,
    gone: &[bool],
    new: &[u64],
) -> Result<Vec<Run>, Memory>
    requires skip { skip ≤ length old.now }
    requires flags { length gone.now ≡ length old.now }
    requires old_in_order { IsNonDecreasing old.now }
    requires new_in_order { IsNonDecreasing new.now }
    ensures order { IfOk result (λ v. IsMergeOrder old.now skip gone.now new.now v.items) }
{
    let mut runs = Vec::new(alloc);
    let mut next = skip;
    for place in 0..new.len() {
        let from = next;
        next = first_later(old, from, new[place]);
        push_kept(&mut runs, gone, from, next)?;
        push_run(&mut runs, run(Side::Second, place, place + 1))?;
    }
    push_kept(&mut runs, gone, next, old.len())?;
    Ok(runs)
}

/// The first place from one on at which a later time stands, or the number of times.
pub(crate) fn first_later(times: &[u64], from: usize, time: u64) -> usize
    requires { from ≤ length times.now }
    ensures from { from ≤ result }
    ensures within { result ≤ length times.now }
    ensures upto { (k : ℕ) → from ≤ k → k < result → slice_index times.now k ≤ time }
    ensures later { result < length times.now → time < slice_index times.now result }
{
    for place in from..times.len() {
        if time < times[place] {
            return place;
        }
    }
    times.len()
}

/// The first place from one on at which no earlier time stands, or the number of times.
pub(crate) fn first_from(times: &[u64], from: usize, time: u64) -> usize
    requires { from ≤ length times.now }
    ensures from { from ≤ result }
    ensures within { result ≤ length times.now }
    ensures earlier { (k : ℕ) → from ≤ k → k < result → slice_index times.now k < time }
    ensures no_earlier { result < length times.now → time ≤ slice_index times.now result }
{
    for place in from..times.len() {
        if time <= times[place] {
            return place;
        }
    }
    times.len()
}

/// Adds the rows of the first block from one place up to another that aren't gone.
pub(crate) fn push_kept(
    runs: &mut Vec<Run>,
    gone: &[bool],
    from: usize,
    to: usize,
) -> Result<(), Memory>
    requires ordered { from ≤ to }
    requires within { to ≤ length gone.now }
    requires runs { All (λ r. r.from ≤ r.to) runs.old.items }
    ensures added { OnOk result (AddsKept runs.old.items gone.now from to runs.new.items) }
    ensures runs { OnOk result (All (λ r. r.from ≤ r.to) runs.new.items) }
{
    for place in from..to {
        if !gone[place] {
            push_run(runs, run(Side::First, place, place + 1))?;
        }
    }
    Ok(())
}

/// Adds a run. One that goes on where the last one ends makes that longer.
fn push_run(runs: &mut Vec<Run>, run: Run) -> Result<(), Memory>
    requires ordered { run.from ≤ run.to }
    requires runs { All (λ r. r.from ≤ r.to) runs.old.items }
    ensures added { OnOk result (AddsRun runs.old.items run runs.new.items) }
    ensures runs { OnOk result (All (λ r. r.from ≤ r.to) runs.new.items) }
{
    let count = runs.len();
    if 0 < count && goes_on(runs[count - 1], run) {
        runs[count - 1].to = run.to;
        return Ok(());
    }
    runs.push(run)?;
    Ok(())
}

/// Whether a run begins where another one ends.
fn goes_on(before: Run, run: Run) -> bool
    ensures side { result ≡ true → before.side ≡ run.side }
    ensures place { result ≡ true → before.to ≡ run.from }
{
    before.side == run.side && before.to == run.from
}

/// Rows of a side from one up to another.
fn run(side: Side, from: usize, to: usize) -> Run
    ensures run { result ≡ record { side = side; from = from; to = to } }
{
    Run { side, from, to }
}
