//! Runs: which rows of two columns stand one behind another in a third.
ghost use Rattle.std.specs.Prelude.{◌≡◌, length, All, IfOk};
ghost use Rattle.qd_column.specs.Runs.{items_in, laid, IsRunOf};

use qd_base::Memory;
use std::alloc::Global;

/// One of two lists.
#[derive(Clone, Copy, Debug, PartialEq, Eq)]
pub enum Side {
    /// The first of them.
    First,
    /// The second of them.
    Second,
}

/// Rows of one of two lists that stand together: from one up to another.
#[derive(Clone, Copy, Debug, PartialEq, Eq)]
pub struct Run {
    /// The list.
    pub side: Side,
    /// The first row.
    pub from: usize,
    /// The row behind the last.
    pub to: usize,
}

/// Copies the items of runs, one run behind another. It costs time and memory linear in their number.
pub fn spliced<T: Copy>(
    alloc: Global,
    first: &[T],
    second: &[T],
    runs: &[Run],
) -> Result<Vec<T>, Memory>
    requires { All (IsRunOf (length first.now) (length second.now)) runs.now }
    ensures items { IfOk result (λ v. v.items ≡ laid first.now second.now runs.now) }
{
    let mut items = Vec::with_capacity(alloc, room(runs))?;
    for run in runs {
        items.extend_from_slice(items_of(first, second, *run))?;
    }
    Ok(items)
}

/// Lends the items of a run.
fn items_of<'a, T>(first: &'a [T], second: &'a [T], run: Run) -> &'a [T]
    requires { IsRunOf (length first.now) (length second.now) run }
    ensures items { result.now ≡ items_in first.now second.now run }
{
    match run.side {
        Side::First => &first[run.from..run.to],
        Side::Second => &second[run.from..run.to],
    }
}

/// How many rows runs have, as far as it can be counted.
fn room(runs: &[Run]) -> usize {
    let mut rows: usize = 0;
    for run in runs {
        rows = rows.saturating_add(run.to.saturating_sub(run.from));
    }
    rows
}
