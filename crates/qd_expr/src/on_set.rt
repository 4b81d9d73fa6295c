//! The value of an expression on a row of a set.
ghost use Rattle.std.specs.Prelude.{◌≡◌, ◌<◌, IfOk, length, map};
ghost use Rattle.std.specs.List.{list_all, list_any};
ghost use Rattle.qd_expr.specs.Passing.{passes_at, row_in};
ghost use Rattle.qd_rows.specs.Sets.{row_of_place, IsPlaced};
ghost use Rattle.qd_value.specs.Cells.{is_true};
ghost use Rattle.qd_value.specs.Scalars.{cell_of};
ghost use Rattle.qd_value.specs.Value as spec;

use crate::cells::{Joined, cell_at};
use qd_base::{Cell, Dictionary, Memory};
use qd_rows::RowSet;
use qd_value::{Bound, Operand, Scalar, arithmetic, compares, is_among, is_within, negated};
use std::alloc::Global;

/// The value of an expression on a row of a set. No row is made; a text is copied, and else no memory is taken.
///
/// It costs time linear in the expression's size and in the texts that are compared, and logarithmic in the number of
/// the set's runs. It calls itself once for each level of the expression's depth.
pub fn eval<D: Dictionary>(
    alloc: Global,
    expr: &Bound,
    rows: &RowSet<D>,
    i: usize,
) -> Result<Cell, Memory>
    requires { i < length rows.now.places }
    ensures value { IfOk result (λ cell. cell ≡ spec.value expr.now (row_in rows.now i)) }
{
    scalar(expr, rows, rows.places(i)).to_cell(alloc)
}

/// Whether a row of a set passes a test: where its value is true. NULL counts as false. It costs the time of `eval`, and
/// no memory.
pub fn test<D: Dictionary>(expr: &Bound, rows: &RowSet<D>, i: usize) -> bool
    requires { i < length rows.now.places }
    ensures truth { result ≡ spec.passes expr.now (row_in rows.now i) }
{
    scalar(expr, rows, rows.places(i)).is_true()
}

/// Whether the row of a place passes a test.
pub(crate) fn test_at<D: Dictionary>(expr: &Bound, rows: &RowSet<D>, place: Joined) -> bool
    requires { IsPlaced rows.now place }
    ensures truth { result ≡ passes_at expr.now rows.now place }
{
    scalar(expr, rows, place).is_true()
}

/// The value of an expression on the row of a place, without memory of its own. It costs time linear in the expression's
/// size and in the texts that are compared.
#[cycle(scalar)]
pub fn scalar<'a, D: Dictionary>(expr: &'a Bound, rows: &'a RowSet<D>, place: Joined) -> Scalar<'a>
    requires { IsPlaced rows.now place }
    ensures value { cell_of result ≡ spec.value expr.now (row_of_place rows.now place) }
{
    match expr {
        Bound::Column(at) => cell_at(rows, place, *at),
        Bound::Literal(cell) => Scalar::of(cell),
        Bound::Negated(x) => negated(scalar(x.get(), rows, place)),
        Bound::Chain(x, steps) => {
            chained(scalar(x.get(), rows, place), steps.as_slice(), rows, place)
        }
        Bound::Compare(op, x, y) => {
            let x = scalar(x.get(), rows, place);
            Scalar::Bool(compares(*op, x, scalar(y.get(), rows, place)))
        }
        Bound::InList(x, literals) => {
            Scalar::Bool(is_among(scalar(x.get(), rows, place), literals.as_slice()))
        }
        Bound::InInterval(x, lo, hi) => {
            Scalar::Bool(is_within(scalar(x.get(), rows, place), *lo, *hi))
        }
        Bound::IsNull(x) => Scalar::Bool(scalar(x.get(), rows, place).is_null()),
        Bound::Not(x) => Scalar::Bool(!scalar(x.get(), rows, place).is_true()),
        Bound::All(xs) => Scalar::Bool(all(xs.as_slice(), rows, place)),
        Bound::Any(xs) => Scalar::Bool(any(xs.as_slice(), rows, place)),
    }
}

/// The value of a chain, from that of its first part.
#[cycle(scalar)]
fn chained<'a, D: Dictionary>(
    first: Scalar<'a>,
    steps: &'a [Operand],
    rows: &'a RowSet<D>,
    place: Joined,
) -> Scalar<'a>
    requires { IsPlaced rows.now place }
    ensures value { cell_of result ≡ spec.chained (cell_of first.entry) (map (spec.operand_value (row_of_place rows.now place)) steps.now) }
{
    let mut found = first;
    for step in steps {
        found = arithmetic(step.op, found, scalar(&step.right, rows, place));
    }
    found
}

/// Whether all of some tests are true.
#[cycle(scalar)]
fn all<D: Dictionary>(tests: &[Bound], rows: &RowSet<D>, place: Joined) -> bool
    requires { IsPlaced rows.now place }
    ensures value { result ≡ list_all is_true (map (λ e. spec.value e (row_of_place rows.now place)) tests.now) }
{
    for test in tests {
        if !scalar(test, rows, place).is_true() {
            return false;
        }
    }
    true
}

/// Whether one of some tests is true.
#[cycle(scalar)]
fn any<D: Dictionary>(tests: &[Bound], rows: &RowSet<D>, place: Joined) -> bool
    requires { IsPlaced rows.now place }
    ensures value { result ≡ list_any is_true (map (λ e. spec.value e (row_of_place rows.now place)) tests.now) }
{
    for test in tests {
        if scalar(test, rows, place).is_true() {
            return true;
        }
    }
    false
}
