//! The values of output rows, lent.
ghost use Rattle.std.specs.Prelude.{◌≡◌, length, min};
ghost use Rattle.qd_base.specs.Rows.{cell_at};
ghost use Rattle.qd_meaning.specs.Answer.{output_row};
ghost use Rattle.qd_meaning.specs.Grouped.{key_of};
ghost use Rattle.qd_meaning.specs.Outputs.{null_as_false, shown_as};
ghost use Rattle.qd_rows.specs.Sets.{row_of_place, IsPlaced};
ghost use Rattle.qd_value.specs.Scalars.{cell_of};

use crate::places::least;
use qd_base::{ColType, Dictionary, Row};
use qd_expr::{Joined, scalar};
use qd_meaning::AskPlan;
use qd_rows::RowSet;
use qd_value::{Bound, Scalar};

/// Gives how many values an output row of a query has, in constant time.
pub fn output_width(plan: &AskPlan) -> usize
    ensures width { result ≡ min (length plan.now.picks) (length plan.now.out) }
{
    least(plan.picks.len(), plan.out.len())
}

/// Gives the value in a column of the output row that a query makes of the row of a place, lent; NULL where there is no
/// such column. The query makes a row of values for each row of the set. It costs the time of the column's expression.
pub fn output_of_place<'a, D: Dictionary>(
    plan: &AskPlan,
    exprs: &'a [Bound],
    rows: &'a RowSet<D>,
    place: Joined,
    at: usize,
) -> Scalar<'a>
    requires { IsPlaced rows.now place }
    ensures value { cell_of result ≡ cell_at (output_row plan.now.picks plan.now.out (key_of exprs.now (row_of_place rows.now place))) at }
{
    if at < plan.picks.len() && at < plan.out.len() {
        let pick = *plan.picks.get(at) as usize;
        shown(
            plan.out.get(at).kind,
            value_of_place(exprs, rows, place, pick),
        )
    } else {
        Scalar::Null
    }
}

/// Gives the value in a column of the output row that a query makes of a row, as of a group, lent; NULL where there is no
/// such column. It takes constant time.
pub fn output_of_row<'a>(plan: &AskPlan, row: &'a Row, at: usize) -> Scalar<'a>
    ensures value { cell_of result ≡ cell_at (output_row plan.now.picks plan.now.out row.now) at }
{
    if at < plan.picks.len() && at < plan.out.len() {
        let pick = *plan.picks.get(at) as usize;
        shown(plan.out.get(at).kind, value_of_row(row, pick))
    } else {
        Scalar::Null
    }
}

/// The value of one of some expressions on the row of a place; NULL where there is no such expression.
#[tactic(auto, using(crate::proofs::Reading::value_there, crate::proofs::Reading::value_past))]
fn value_of_place<'a, D: Dictionary>(
    exprs: &'a [Bound],
    rows: &'a RowSet<D>,
    place: Joined,
    pick: usize,
) -> Scalar<'a>
    requires { IsPlaced rows.now place }
    ensures { cell_of result ≡ cell_at (key_of exprs.now (row_of_place rows.now place)) pick }
{
    if pick < exprs.len() {
        scalar(&exprs[pick], rows, place)
    } else {
        Scalar::Null
    }
}

/// The value in a row's column; NULL where it has no such column.
#[tactic(auto, using(crate::proofs::Reading::cell_there, crate::proofs::Reading::cell_past))]
fn value_of_row<'a>(row: &'a Row, pick: usize) -> Scalar<'a>
    ensures { cell_of result ≡ cell_at row.now pick }
{
    if pick < row.len() {
        Scalar::of(row.get(pick))
    } else {
        Scalar::Null
    }
}

/// A value as an output column of a kind shows it: NULL is false in a BOOLEAN one.
fn shown<'a>(kind: ColType, value: Scalar<'a>) -> Scalar<'a>
    ensures { cell_of result ≡ shown_as kind (cell_of value.entry) }
{
    match kind {
        ColType::Bool => or_false(value),
        ColType::Long | ColType::Symbol | ColType::Varchar | ColType::Time => value,
    }
}

/// A value, or false where there is none.
fn or_false<'a>(value: Scalar<'a>) -> Scalar<'a>
    ensures { cell_of result ≡ null_as_false (cell_of value.entry) }
{
    match value {
        Scalar::Null => Scalar::Bool(false),
        Scalar::Long(x) => Scalar::Long(x),
        Scalar::Bool(x) => Scalar::Bool(x),
        Scalar::Text(x) => Scalar::Text(x),
        Scalar::Time(x) => Scalar::Time(x),
    }
}
