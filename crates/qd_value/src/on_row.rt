//! The value of an expression on a row of cells.
ghost use Rattle.std.specs.Prelude.{◌≡◌, IfOk, map};
ghost use Rattle.std.specs.List.{list_all, list_any};
ghost use Rattle.qd_base.specs.Rows.{cell_at};
ghost use Rattle.qd_value.specs.Cells.{is_true};
ghost use Rattle.qd_value.specs.Scalars.{cell_of};
ghost use Rattle.qd_value.specs.Value as spec;

use crate::bound::{Bound, Operand};
use crate::scalars::{Scalar, arithmetic, compares, is_among, is_within, negated};
use qd_base::{Cell, Memory};
use std::alloc::Global;

/// The value of an expression on a row. A text is copied; else no memory is taken.
///
/// It costs time linear in the expression's size and in the texts that are compared, and calls itself once for each level
/// of the expression's depth.
pub fn eval(alloc: Global, expr: &Bound, row: &[Cell]) -> Result<Cell, Memory>
    ensures value { IfOk result (λ cell. cell ≡ spec.value expr.now row.now) }
{
    scalar(expr, row).to_cell(alloc)
}

/// Whether a row passes a test: where its value is true. NULL counts as false. It costs the time of `eval`, and no memory.
pub fn test(expr: &Bound, row: &[Cell]) -> bool
    ensures truth { result ≡ spec.passes expr.now row.now }
{
    scalar(expr, row).is_true()
}

/// The value of an expression on a row, without memory of its own. It costs the time of `eval`.
#[cycle(scalar)]
pub fn scalar<'a>(expr: &'a Bound, row: &'a [Cell]) -> Scalar<'a>
    ensures value { cell_of result ≡ spec.value expr.now row.now }
{
    match expr {
        Bound::Column(at) => cell_at(row, *at),
        Bound::Literal(cell) => Scalar::of(cell),
        Bound::Negated(x) => negated(scalar(x.get(), row)),
        Bound::Chain(x, steps) => chained(scalar(x.get(), row), steps.as_slice(), row),
        Bound::Compare(op, x, y) => {
            let x = scalar(x.get(), row);
            Scalar::Bool(compares(*op, x, scalar(y.get(), row)))
        }
        Bound::InList(x, literals) => {
            Scalar::Bool(is_among(scalar(x.get(), row), literals.as_slice()))
        }
        Bound::InInterval(x, lo, hi) => Scalar::Bool(is_within(scalar(x.get(), row), *lo, *hi)),
        Bound::IsNull(x) => Scalar::Bool(scalar(x.get(), row).is_null()),
        Bound::Not(x) => Scalar::Bool(!scalar(x.get(), row).is_true()),
        Bound::All(xs) => Scalar::Bool(all(xs.as_slice(), row)),
        Bound::Any(xs) => Scalar::Bool(any(xs.as_slice(), row)),
    }
}

/// The cell in a column; NULL where the row is shorter.
fn cell_at<'a>(row: &'a [Cell], at: usize) -> Scalar<'a>
    ensures value { cell_of result ≡ cell_at row.now at }
{
    match row.get(at) {
        Some(cell) => Scalar::of(cell),
        None => Scalar::Null,
    }
}

/// The value of a chain, from that of its first part.
#[cycle(scalar)]
fn chained<'a>(first: Scalar<'a>, steps: &'a [Operand], row: &'a [Cell]) -> Scalar<'a>
    ensures value { cell_of result ≡ spec.chained (cell_of first.entry) (map (spec.operand_value row.now) steps.now) }
{
    let mut found = first;
    for step in steps {
        found = arithmetic(step.op, found, scalar(&step.right, row));
    }
    found
}

/// Whether all of some tests are true.
#[cycle(scalar)]
fn all(tests: &[Bound], row: &[Cell]) -> bool
    ensures value { result ≡ list_all is_true (map (λ e. spec.value e row.now) tests.now) }
{
    for test in tests {
        if !scalar(test, row).is_true() {
            return false;
        }
    }
    true
}

/// Whether one of some tests is true.
#[cycle(scalar)]
fn any(tests: &[Bound], row: &[Cell]) -> bool
    ensures value { result ≡ list_any is_true (map (λ e. spec.value e row.now) tests.now) }
{
    for test in tests {
        if scalar(test, row).is_true() {
            return true;
        }
    }
    false
}
