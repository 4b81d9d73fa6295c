//! Values that are lent, as keys that can be ordered.
ghost use Rattle.std.specs.Prelude.{◌≡◌, IfOk, map};
ghost use Rattle.qd_group.specs.Keys.{lent};
ghost use Rattle.qd_rows.specs.Sets.{rows_in};
ghost use Rattle.qd_value.specs.Scalars.{cell_of};
ghost use Rattle.qd_value.specs.Value.{value};

use qd_base::{Dictionary, Memory};
use qd_expr::scalar;
use qd_rows::RowSet;
use qd_value::{Bound, Scalar};
use std::alloc::Global;

/// A value that is lent, and can be ordered.
#[derive(Clone, Copy, PartialEq, Eq, PartialOrd, Ord)]
pub enum Key<'a> {
    /// NULL.
    Null,
    /// A number.
    Long(i64),
    /// A truth value.
    Truth(bool),
    /// The bytes of a text.
    Text(&'a [u8]),
    /// Microseconds since 1970-01-01T00:00Z.
    Time(u64),
}

/// The values of an expression on the rows of a set, in order. No cell is made. It takes 24 bytes a row.
pub fn keys_of<'a, D: Dictionary>(
    alloc: Global,
    expr: &'a Bound,
    rows: &'a RowSet<D>,
) -> Result<Vec<Key<'a>>, Memory>
    ensures keys { IfOk result (λ v. map lent v.items ≡ map (value expr.now) (rows_in rows.now)) }
{
    let mut keys = Vec::with_capacity(alloc, rows.len())?;
    for i in 0..rows.len() {
        keys.push(key_of(scalar(expr, rows, rows.places(i))))?;
    }
    Ok(keys)
}

/// A value as a key.
pub(crate) fn key_of<'a>(value: Scalar<'a>) -> Key<'a>
    ensures same { lent result ≡ cell_of value.entry }
{
    match value {
        Scalar::Null => Key::Null,
        Scalar::Long(x) => Key::Long(x),
        Scalar::Bool(x) => Key::Truth(x),
        Scalar::Text(x) => Key::Text(x),
        Scalar::Time(x) => Key::Time(x),
    }
}
