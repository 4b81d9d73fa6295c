//! Whether the times of a column are as a part asks.
ghost use Rattle.qd_column.specs.Cells.{time_cell};
ghost use Rattle.qd_base.specs.Rows.{time_in};
ghost use Rattle.qd_column_files.specs.Columns.{AreTimely, HasEnds, IsUntimelyAt};
ghost use Rattle.qd_column_files.specs.Damage.{IsFirstUntimely, IsMistimedAt};
ghost use Rattle.qd_column_format.specs.Unsorted.{IsUnsortedAt};
ghost use Rattle.std.specs.Bool.{OnFalse, OnTrue};
ghost use Rattle.std.specs.Prelude.{◌≡◌, ◌<◌, ◌≤◌, length, map, IfNone, IfSome};

use qd_base::{MAX_TIME, NULL_TIME, Part};

/// The row whose time isn't as a part asks: the first that breaks the rules of its column, and of the designated one
/// the first row or the last, where the part begins or ends at another time.
pub(crate) fn mistimed(times: &[u64], is_designated: bool, part: Part) -> Option<usize>
    requires rows { length times.now ≡ part.rows }
    requires some { 1 ≤ part.rows }
    ensures there { IfSome result (λ row. row < length times.now) }
    ensures mistimed { IfSome result (λ row. IsMistimedAt is_designated part (map time_cell times.now) row) }
    ensures timely { IfNone result (AreTimely is_designated (map time_cell times.now)) }
    ensures ends { IfNone result (HasEnds is_designated part (map time_cell times.now)) }
{
    if let Some(row) = first_untimely(times, is_designated) {
        return Some(row);
    }
    if !is_designated {
        return None;
    }
    let last = times.len() - 1;
    if shown(times[0]) != part.lo {
        return Some(0);
    }
    if shown(times[last]) != part.hi {
        return Some(last);
    }
    None
}

/// The first row whose time breaks the rules of its column.
pub(crate) fn first_untimely(times: &[u64], is_designated: bool) -> Option<usize>
    ensures first { IfSome result (λ row. IsFirstUntimely is_designated (map time_cell times.now) row) }
    ensures none { IfNone result (AreTimely is_designated (map time_cell times.now)) }
{
    for i in 0..times.len() {
        if is_untimely(times, i, is_designated) {
            return Some(i);
        }
    }
    None
}

/// Whether the time of a row breaks the rules of its column.
fn is_untimely(times: &[u64], i: usize, is_designated: bool) -> bool
    requires { i < length times.now }
    ensures yes { OnTrue result (IsUntimelyAt is_designated (map time_cell times.now) i) }
    ensures no { OnFalse result (IsUntimelyAt is_designated (map time_cell times.now) i → ⊥) }
{
    if MAX_TIME < shown(times[i]) {
        return true;
    }
    if is_designated {
        return is_unsorted(times, i);
    }
    false
}

/// Whether the time of a row is NULL, or less than the one before.
fn is_unsorted(times: &[u64], i: usize) -> bool
    requires { i < length times.now }
    ensures yes { OnTrue result (IsUnsortedAt (map time_cell times.now) i) }
    ensures no { OnFalse result (IsUnsortedAt (map time_cell times.now) i → ⊥) }
{
    if times[i] == NULL_TIME {
        return true;
    }
    if i == 0 {
        return false;
    }
    shown(times[i]) < shown(times[i - 1])
}

/// A stored time, which is 0 where it is NULL.
fn shown(time: u64) -> u64
    ensures time { result ≡ time_in (time_cell time) }
{
    if time == NULL_TIME {
        return 0;
    }
    time
}
