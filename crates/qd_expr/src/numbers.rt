//! Numbers of expressions over the neighbouring rows of a block, as a LONG column keeps them.
ghost use Rattle.std.specs.Prelude.{◌≡◌, ◌≤◌, ℤ, None, IfOk, IfSome, SomeIff, FitsSigned, map};
ghost use Rattle.std.specs.Int.{w64};
ghost use Rattle.std.specs.List.{zip};
ghost use Rattle.qd_base.specs.declared.cell.Cell.TheVariants as cell;
ghost use Rattle.qd_base.specs.Rows.{cell_at as cell_of_col};
ghost use Rattle.qd_column.specs.Cells.{long_cell};
ghost use Rattle.qd_expr.specs.Numbers.{chained_in_run, kept, on_kept, opposite_kept};
ghost use Rattle.qd_expr.specs.Passing.{values_in_run};
ghost use Rattle.qd_rows.specs.Runs.{places_of_run};
ghost use Rattle.qd_rows.specs.Sets.{row_of_place, IsRunOf};
ghost use Rattle.qd_value.specs.Cells.{long};
ghost use Rattle.qd_value.specs.declared.bound.Arithmetic.TheVariants as does;

use crate::columns::longs;
use qd_base::{Cell, Dictionary, Memory, NULL_LONG};
use qd_rows::{RowSet, Run};
use qd_value::{Arithmetic, Bound, Operand};
use std::alloc::Global;

/// The numbers of an expression on the rows of a run, where it is made of LONG columns, numbers and operators alone;
/// `None` for any other. It goes over whole lists, one operator after another, and takes eight bytes a row for each level
/// of the expression's depth. It calls itself once for each.
#[cycle(numbers)]
pub(crate) fn numbers<D: Dictionary>(
    alloc: Global,
    expr: &Bound,
    rows: &RowSet<D>,
    run: Run,
) -> Result<Option<Vec<i64>>, Memory>
    requires { IsRunOf rows.now run }
    ensures values { IfOk result (λ found. IfSome found (λ v. map long_cell v.items ≡ values_in_run expr.now rows.now run)) }
{
    match expr {
        Bound::Column(at) => column_numbers(alloc, rows, run, *at),
        Bound::Literal(cell) => literal_numbers(alloc, cell, run),
        Bound::Negated(x) => match numbers(alloc, x.get(), rows, run)? {
            Some(found) => Ok(Some(opposites(alloc, found.as_slice())?)),
            None => Ok(None),
        },
        Bound::Chain(x, steps) => match numbers(alloc, x.get(), rows, run)? {
            Some(first) => chained(alloc, first, steps.as_slice(), rows, run),
            None => Ok(None),
        },
        _ => Ok(None),
    }
}

/// The numbers of a chain, from those of its first part.
#[cycle(numbers)]
fn chained<D: Dictionary>(
    alloc: Global,
    first: Vec<i64>,
    steps: &[Operand],
    rows: &RowSet<D>,
    run: Run,
) -> Result<Option<Vec<i64>>, Memory>
    requires { IsRunOf rows.now run }
    ensures values { IfOk result (λ found. IfSome found (λ v. map long_cell v.items ≡ chained_in_run (map long_cell first.items) steps.now rows.now run)) }
{
    let mut found = first;
    for step in steps {
        match numbers(alloc, &step.right, rows, run)? {
            Some(right) => found = combined(alloc, step.op, found.as_slice(), right.as_slice())?,
            None => return Ok(None),
        }
    }
    Ok(Some(found))
}

/// The numbers of the column of a run's block; `None` where the block lacks the column, or it isn't LONG.
fn column_numbers<D: Dictionary>(
    alloc: Global,
    rows: &RowSet<D>,
    run: Run,
    at: usize,
) -> Result<Option<Vec<i64>>, Memory>
    requires { IsRunOf rows.now run }
    ensures values { IfOk result (λ found. IfSome found (λ v. map long_cell v.items ≡ map (λ p. cell_of_col (row_of_place rows.now (p, None)) at) (places_of_run run))) }
{
    let block = rows.block(run.block);
    block.is_whole();
    if block.cols() as usize <= at {
        return Ok(None);
    }
    let column = block.column(at as u32);
    longs(alloc, column, run.from as usize, run.to as usize)
}

/// A literal on each row of a run; `None` for one that is no number.
fn literal_numbers(alloc: Global, cell: &Cell, run: Run) -> Result<Option<Vec<i64>>, Memory>
    requires { run.from ≤ run.to }
    ensures values { IfOk result (λ found. IfSome found (λ v. map long_cell v.items ≡ map (λ p. cell.now) (places_of_run run))) }
{
    match cell {
        Cell::Long(number) => repeated(alloc, *number, run),
        _ => Ok(None),
    }
}

/// A number on each row of a run; `None` for the least one, which stands for NULL.
fn repeated(alloc: Global, number: i64, run: Run) -> Result<Option<Vec<i64>>, Memory>
    requires { run.from ≤ run.to }
    ensures values { IfOk result (λ found. IfSome found (λ v. map long_cell v.items ≡ map (λ p. cell.Long number) (places_of_run run))) }
{
    if number == NULL_LONG {
        return Ok(None);
    }
    let count = (run.to - run.from) as usize;
    Ok(Some(Vec::from_elem(alloc, number, count)?))
}

/// Each number with the other sign.
fn opposites(alloc: Global, xs: &[i64]) -> Result<Vec<i64>, Memory>
    ensures numbers { IfOk result (λ v. v.items ≡ map opposite_kept xs.now) }
{
    xs.iter().map(|x| opposite(*x)).collect(alloc)
}

#[inline(always)]
fn opposite(x: i64) -> i64
    ensures { result ≡ opposite_kept x }
{
    if x == NULL_LONG {
        return NULL_LONG;
    }
    kept(x.checked_neg())
}

/// What an operator makes of two lists of numbers, at each position.
fn combined(alloc: Global, op: Arithmetic, xs: &[i64], ys: &[i64]) -> Result<Vec<i64>, Memory>
    ensures numbers { IfOk result (λ v. v.items ≡ map (λ p. on_kept op p.0 p.1) (zip xs.now ys.now)) }
{
    let pairs = xs.iter().zip(ys);
    match op {
        Arithmetic::Plus => pairs.map(|(x, y)| sum(*x, *y)).collect(alloc),
        Arithmetic::Minus => pairs.map(|(x, y)| difference(*x, *y)).collect(alloc),
        Arithmetic::Times => pairs.map(|(x, y)| product(*x, *y)).collect(alloc),
        Arithmetic::Divide => pairs.map(|(x, y)| quotient(*x, *y)).collect(alloc),
        Arithmetic::Remainder => pairs.map(|(x, y)| remainder(*x, *y)).collect(alloc),
    }
}

#[inline(always)]
fn sum(x: i64, y: i64) -> i64
    ensures { result ≡ on_kept does.Plus x y }
{
    if x == NULL_LONG || y == NULL_LONG {
        return NULL_LONG;
    }
    kept(x.checked_add(y))
}

#[inline(always)]
fn difference(x: i64, y: i64) -> i64
    ensures { result ≡ on_kept does.Minus x y }
{
    if x == NULL_LONG || y == NULL_LONG {
        return NULL_LONG;
    }
    kept(x.checked_sub(y))
}

#[inline(always)]
fn product(x: i64, y: i64) -> i64
    ensures { result ≡ on_kept does.Times x y }
{
    if x == NULL_LONG || y == NULL_LONG {
        return NULL_LONG;
    }
    kept(x.checked_mul(y))
}

#[inline(always)]
fn quotient(x: i64, y: i64) -> i64
    ensures { result ≡ on_kept does.Divide x y }
{
    if x == NULL_LONG || y == NULL_LONG || y == 0 {
        return NULL_LONG;
    }
    kept(x.checked_div(y))
}

#[inline(always)]
fn remainder(x: i64, y: i64) -> i64
    ensures { result ≡ on_kept does.Remainder x y }
{
    if x == NULL_LONG || y == NULL_LONG || y == 0 {
        return NULL_LONG;
    }
    kept(x.checked_rem(y))
}

/// What a column keeps for a number that was found, or for none.
#[tactic(auto, using(crate::proofs::NumberLemmas::kept_some, crate::proofs::NumberLemmas::kept_none))]
#[inline(always)]
fn kept(found: Option<i64>) -> i64
    ensures { (exact : ℤ) → SomeIff found (FitsSigned w64 exact) exact → result ≡ kept (long exact) }
{
    match found {
        Some(number) => number,
        None => NULL_LONG,
    }
}
