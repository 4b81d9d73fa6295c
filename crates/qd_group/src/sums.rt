//! Sums of the numbers of LONG columns.
ghost use Rattle.std.specs.Prelude.{◌≡◌, IfOk, fold};
ghost use Rattle.qd_column.specs.Cells.{long_cell};
ghost use Rattle.qd_meaning.specs.Grouped.{plus};

use qd_base::{Memory, NULL_LONG};
use std::alloc::AllocError;

/// A sum with numbers more, as a LONG column keeps them, in one pass. Where the sum passes 128 bits, which takes more rows
/// than memory holds, want of memory is answered.
pub(crate) fn total_after_longs(
    total: Option<i128>,
    numbers: &[i64],
) -> Result<Option<i128>, Memory>
    ensures { IfOk result (λ t. t ≡ fold (λ t x. plus (long_cell x) t) total numbers.now) }
{
    let mut sum = total;
    for number in numbers {
        sum = total_after_long(sum, *number)?;
    }
    Ok(sum)
}

/// A sum with one number more.
#[inline(always)]
pub(crate) fn total_after_long(total: Option<i128>, number: i64) -> Result<Option<i128>, Memory>
    ensures { IfOk result (λ t. t ≡ plus (long_cell number) total) }
{
    if number == NULL_LONG {
        return Ok(total);
    }
    match total {
        None => Ok(Some(number as i128)),
        Some(total) => match total.checked_add(number as i128) {
            Some(total) => Ok(Some(total)),
            None => Err(AllocError),
        },
    }
}
