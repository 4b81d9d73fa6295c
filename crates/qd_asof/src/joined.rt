//! Joins in order of time.
ghost use Rattle.std.specs.Prelude.{◌≡◌, IfOk, None, Some};
ghost use Rattle.qd_base.specs.Laws.{IsInOrder};
ghost use Rattle.qd_meaning.specs.Joined.{joined};
ghost use Rattle.qd_rows.specs.Sets.{absent, rows_in};

use crate::choices::taken_rows;
use crate::sides::beside;
use crate::times::times_of;
use qd_base::{Dictionary, Memory};
use qd_keys::key_numbers;
use qd_meaning::JoinSpec;
use qd_rows::RowSet;
use std::alloc::Global;

/// Joins each left row, in order, with the last right row that has its keys, NULL being equal to NULL, and whose time is
/// at most its own, or below it in a strict join; where there is none, with NULLs, and false in BOOLEAN columns. The two
/// numbers are the designated columns of both sides. No cell and no row is made.
///
/// Both sides are passed once, in order of time. It costs time linear in the rows, and n log n comparisons for each key,
/// whatever the values are. It takes some 80 bytes a row.
pub fn asof<D: Dictionary>(
    alloc: Global,
    left: &RowSet<D>,
    right: &RowSet<D>,
    spec: &JoinSpec,
    left_time: u32,
    right_time: u32,
) -> Result<RowSet<D>, Memory>
    requires left_alone { left.now.right ≡ None }
    requires right_alone { right.now.right ≡ None }
    requires left_order { IsInOrder left_time (rows_in left.now) }
    requires right_order { IsInOrder right_time (rows_in right.now) }
    ensures left { IfOk result (λ set. set.left ≡ left.now.left) }
    ensures right { IfOk result (λ set. set.right ≡ Some right.now.left) }
    ensures rows { IfOk result (λ set. rows_in set ≡ joined spec.now left_time right_time (absent right.now.left) (rows_in left.now) (rows_in right.now)) }
{
    let told = key_numbers(
        alloc,
        left,
        spec.left.as_slice(),
        right,
        spec.right.as_slice(),
    )?;
    let left_times = times_of(alloc, left, left_time as usize)?;
    let right_times = times_of(alloc, right, right_time as usize)?;
    let numbers = told.numbers.as_slice();
    let taken = taken_rows(
        alloc,
        told.bound,
        &numbers[..left.len()],
        left_times.as_slice(),
        &numbers[left.len()..],
        right_times.as_slice(),
        spec.strict,
    )?;
    beside(alloc, left, right, taken.as_slice())
}
