//! How many bytes a value has as CSV, counted before it is made.
//!
//! A count that no `usize` holds stops at the greatest one.
ghost use Rattle.std.specs.Prelude.{◌≡◌, length, min};
ghost use Rattle.qd_print.specs.Printed.{csv_cell};
ghost use Rattle.qd_value.specs.Scalars.{cell_of};

use qd_base::MAX_TIME;
use qd_print::{long_len, text_len};
use qd_value::Scalar;

/// The length of a value.
pub(crate) fn value_len(value: Scalar<'_>) -> usize
    ensures value { result ≡ min (length (csv_cell (cell_of value.entry))) usize.MAX }
{
    match value {
        Scalar::Null => 0,
        Scalar::Long(number) => long_len(number),
        Scalar::Bool(true) => 4,
        Scalar::Bool(false) => 5,
        Scalar::Text(text) => text_len(text),
        Scalar::Time(time) => { if time <= MAX_TIME { 27 } else { 0 } }
    }
}
