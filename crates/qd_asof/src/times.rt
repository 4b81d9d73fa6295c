//! The times of rows.
ghost use Rattle.std.specs.Prelude.{◌≡◌, IfOk, map};
ghost use Rattle.qd_base.specs.Rows.{time_in, time_of};
ghost use Rattle.qd_rows.specs.Sets.{rows_in};
ghost use Rattle.qd_value.specs.Scalars.{cell_of};
ghost use Rattle.qd_value.specs.Value.{value};

use qd_base::{Dictionary, Memory};
use qd_expr::scalar;
use qd_rows::RowSet;
use qd_value::{Bound, Scalar};
use std::alloc::Global;

/// The moments in a column on the rows of a set, in order; 0 where there is none. It takes 8 bytes a row.
pub(crate) fn times_of<D: Dictionary>(
    alloc: Global,
    rows: &RowSet<D>,
    at: usize,
) -> Result<Vec<u64>, Memory>
    ensures times { IfOk result (λ v. v.items ≡ map (time_of at) (rows_in rows.now)) }
{
    times_by(alloc, &Bound::Column(at), rows)
}

/// The moments that an expression has on the rows of a set, in order; 0 where it has none.
fn times_by<D: Dictionary>(
    alloc: Global,
    expr: &Bound,
    rows: &RowSet<D>,
) -> Result<Vec<u64>, Memory>
    ensures times { IfOk result (λ v. v.items ≡ map (λ r. time_in (value expr.now r)) (rows_in rows.now)) }
{
    let mut times = Vec::with_capacity(alloc, rows.len())?;
    for i in 0..rows.len() {
        times.push(moment(scalar(expr, rows, rows.places(i))))?;
    }
    Ok(times)
}

/// The moment that a value is, or 0.
fn moment<'a>(value: Scalar<'a>) -> u64
    ensures { result ≡ time_in (cell_of value.entry) }
{
    match value {
        Scalar::Time(time) => time,
        _ => 0,
    }
}
