//! The last row of a set that holds NULL in a column of symbols.
ghost use Rattle.std.specs.Prelude.{◌≡◌, ◌≢◌, ℕ, ◌+◌, ◌-◌, ◌<◌, false, length, slice_index};
ghost use Rattle.qd_keys.specs.Symbols.{IsSymbols};
ghost use Rattle.qd_latest.specs.Chains.{cells_of, IsPart};
ghost use Rattle.qd_latest.specs.Walks.{IsLastNull, IsLastId};
ghost use Rattle.qd_base.specs.declared.limits.TheConstants.{NULL_ID as no_id};

use crate::parts::{ids_of, last_part, symbols_of};
use qd_base::{Dictionary, NULL_ID};
use qd_rows::{RowSet, Run};

/// How many rows are looked at together.
const TOGETHER: usize = 4_096;

/// The last row that holds NULL in a column of symbols. No chain is made: it costs less than 1 ns for each row behind it.
pub(crate) fn last_null<D: Dictionary>(rows: &RowSet<D>, at: usize) -> Option<usize>
    requires single { rows.now.right ≡ None }
    requires symbols { IsSymbols rows.now.left at }
    ensures { IsLastNull (cells_of rows.now at) 0 (length rows.now.places) result }
{
    let mut end = rows.len();
    while 0 < end {
        let part = last_part(rows, end.saturating_sub(TOGETHER), end);
        if let Some(i) = null_of_part(rows, part, end, at) {
            return Some(i);
        }
        end = part.before;
    }
    None
}

/// The last one of neighbours up to a row that holds NULL.
fn null_of_part<D: Dictionary>(rows: &RowSet<D>, part: Run, to: usize, at: usize) -> Option<usize>
    requires part { IsPart rows.now part }
    requires ends { part.before + (part.to - part.from) ≡ to }
    requires symbols { IsSymbols rows.now.left at }
    ensures { IsLastNull (cells_of rows.now at) part.before to result }
{
    match symbols_of(rows, part, at) {
        Some(column) => match last_no_id(ids_of(column, part.from, part.to)) {
            Some(k) => Some(part.before + k),
            None => None,
        },
        None => Some(to - 1),
    }
}

/// The last place without an id.
fn last_no_id(ids: &[u64]) -> Option<usize>
    ensures { IsLastId ids.now no_id result }
{
    if !lack_some(ids) {
        return None;
    }
    let mut i = ids.len();
    while 0 < i {
        i -= 1;
        if ids[i] == NULL_ID {
            return Some(i);
        }
    }
    None
}

/// Whether a place has no id. Each place is looked at, without a way out, so that several are looked at at once.
fn lack_some(ids: &[u64]) -> bool
    ensures { result ≡ false → (k : ℕ) → k < length ids.now → slice_index ids.now k ≢ no_id }
{
    let mut found = false;
    for id in ids {
        found |= *id == NULL_ID;
    }
    found
}
