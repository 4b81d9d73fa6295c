//! Tests over the neighbouring rows of a block: one level of a test at a time, each as a loop over the whole run.
ghost use Rattle.std.specs.Prelude.{◌≡◌, ◌-◌, ◌&&◌, None, IfOk, IfSome, length, map};
ghost use Rattle.std.specs.List.{list_any, zip};
ghost use Rattle.qd_base.specs.declared.cell.Cell.{Cell};
ghost use Rattle.qd_base.specs.Rows.{cell_at as cell_of_col, cell_eq};
ghost use Rattle.qd_expr.specs.Passing.{all_in_run, any_in_run, passes_at, passes_in_run};
ghost use Rattle.qd_rows.specs.Runs.{places_of_run};
ghost use Rattle.qd_rows.specs.Sets.{row_of_place, IsPlaced, IsRunOf};
ghost use Rattle.qd_value.specs.Cells as spec;
ghost use Rattle.qd_value.specs.Scalars.{cell_of};
ghost use Rattle.qd_value.specs.Value as meaning;

use crate::cells::Joined;
use crate::columns::{
    among, both, compared, compared_by_row, compared_pairs, either, nulls, opposite, trues, within,
};
use crate::numbers::numbers;
use crate::on_set::test_at;
use qd_base::{Cell, Dictionary, Memory};
use qd_rows::{RowSet, Run};
use qd_value::{Bound, Comparison, Scalar};
use std::alloc::Global;

/// Whether each row of a run passes a test, in order.
///
/// AND, OR and NOT go over lists of truths, a byte a row. A comparison of a column with a literal on either side, a column
/// IN literals or an interval, IS NULL of a column and a BOOLEAN column alone go over what the column is kept as; a SYMBOL
/// column is compared by the id of the text, which is looked up once. So do two LONG columns, and expressions of LONG
/// columns, numbers and operators. Any other test is done row by row, in the time of `test`. It takes a byte of memory a row
/// for each level of the test's depth, and eight for each of such an expression, and calls itself once for each.
#[cycle(truths)]
pub fn truths<D: Dictionary>(
    alloc: Global,
    expr: &Bound,
    rows: &RowSet<D>,
    run: Run,
) -> Result<Vec<bool>, Memory>
    requires { IsRunOf rows.now run }
    ensures truths { IfOk result (λ v. v.items ≡ passes_in_run expr.now rows.now run) }
{
    match expr {
        Bound::Not(x) => {
            let found = truths(alloc, x.get(), rows, run)?;
            opposite(alloc, found.as_slice())
        }
        Bound::All(xs) => all(alloc, xs.as_slice(), rows, run),
        Bound::Any(xs) => any(alloc, xs.as_slice(), rows, run),
        _ => leaf(alloc, expr, rows, run),
    }
}

/// Whether each row of a run passes all of some tests.
#[cycle(truths)]
fn all<D: Dictionary>(
    alloc: Global,
    tests: &[Bound],
    rows: &RowSet<D>,
    run: Run,
) -> Result<Vec<bool>, Memory>
    requires { IsRunOf rows.now run }
    ensures truths { IfOk result (λ v. v.items ≡ all_in_run tests.now rows.now run) }
{
    let mut found = Vec::from_elem(alloc, true, (run.to - run.from) as usize)?;
    for test in tests {
        if has_tests(test) {
            let more = truths(alloc, test, rows, run)?;
            found = both(alloc, found.as_slice(), more.as_slice())?;
        } else {
            found = also(alloc, found.as_slice(), test, rows, run)?;
        }
    }
    Ok(found)
}

/// Whether each row of a run passes one of some tests.
#[cycle(truths)]
fn any<D: Dictionary>(
    alloc: Global,
    tests: &[Bound],
    rows: &RowSet<D>,
    run: Run,
) -> Result<Vec<bool>, Memory>
    requires { IsRunOf rows.now run }
    ensures truths { IfOk result (λ v. v.items ≡ any_in_run tests.now rows.now run) }
{
    let mut found = Vec::from_elem(alloc, false, (run.to - run.from) as usize)?;
    for test in tests {
        let more = truths(alloc, test, rows, run)?;
        found = either(alloc, found.as_slice(), more.as_slice())?;
    }
    Ok(found)
}

/// Whether there are tests in a test.
fn has_tests(test: &Bound) -> bool {
    matches!(test, Bound::Not(_) | Bound::All(_) | Bound::Any(_))
}

/// Whether a truth is true and the row of a run passes a test without further tests in it, for each row. Where the test
/// is done row by row, it is left out at rows whose truth is false; so is one with operators, where few truths are true.
fn also<D: Dictionary>(
    alloc: Global,
    found: &[bool],
    test: &Bound,
    rows: &RowSet<D>,
    run: Run,
) -> Result<Vec<bool>, Memory>
    requires there { IsRunOf rows.now run }
    requires size { length found.now ≡ run.to - run.from }
    ensures truths { IfOk result (λ v. v.items ≡ map (λ p. p.0 && p.1) (zip found.now (passes_in_run test.now rows.now run))) }
{
    if is_dear(test) && are_few(found) {
        return also_by_row(alloc, found, test, rows, run);
    }
    match by_column(alloc, test, rows, run)? {
        Some(more) => both(alloc, found, more.as_slice()),
        None => also_by_row(alloc, found, test, rows, run),
    }
}

/// Whether a test is a comparison with operators in it.
fn is_dear(test: &Bound) -> bool {
    match test {
        Bound::Compare(_, x, y) => has_operators(x.get()) || has_operators(y.get()),
        _ => false,
    }
}

/// Whether an expression begins with operators.
fn has_operators(expr: &Bound) -> bool {
    matches!(expr, Bound::Negated(_) | Bound::Chain(_, _))
}

/// Whether less than one of sixteen truths is true.
fn are_few(truths: &[bool]) -> bool {
    truths.iter().filter(|truth| **truth).count() < truths.len() / 16
}

/// Tests the rows of a run whose truth is true.
fn also_by_row<D: Dictionary>(
    alloc: Global,
    found: &[bool],
    test: &Bound,
    rows: &RowSet<D>,
    run: Run,
) -> Result<Vec<bool>, Memory>
    requires there { IsRunOf rows.now run }
    requires size { length found.now ≡ run.to - run.from }
    ensures truths { IfOk result (λ v. v.items ≡ map (λ p. p.0 && p.1) (zip found.now (passes_in_run test.now rows.now run))) }
{
    let mut kept = Vec::with_capacity(alloc, found.len())?;
    for (k, so_far) in found.iter().enumerate() {
        let place = (run.block, run.from + k as u64);
        kept.push(also_at(*so_far, test, rows, (place, None)))?;
    }
    Ok(kept)
}

/// Whether a truth is true and the row of a place passes a test.
fn also_at<D: Dictionary>(so_far: bool, test: &Bound, rows: &RowSet<D>, place: Joined) -> bool
    requires { IsPlaced rows.now place }
    ensures { result ≡ (so_far && passes_at test.now rows.now place) }
{
    so_far && test_at(test, rows, place)
}

/// Whether each row of a run passes a test without further tests in it.
fn leaf<D: Dictionary>(
    alloc: Global,
    expr: &Bound,
    rows: &RowSet<D>,
    run: Run,
) -> Result<Vec<bool>, Memory>
    requires { IsRunOf rows.now run }
    ensures truths { IfOk result (λ v. v.items ≡ passes_in_run expr.now rows.now run) }
{
    match by_column(alloc, expr, rows, run)? {
        Some(found) => Ok(found),
        None => row_by_row(alloc, expr, rows, run),
    }
}

/// Tests the rows of a run one after another.
fn row_by_row<D: Dictionary>(
    alloc: Global,
    expr: &Bound,
    rows: &RowSet<D>,
    run: Run,
) -> Result<Vec<bool>, Memory>
    requires { IsRunOf rows.now run }
    ensures truths { IfOk result (λ v. v.items ≡ passes_in_run expr.now rows.now run) }
{
    let mut found = Vec::with_capacity(alloc, (run.to - run.from) as usize)?;
    for i in run.from..run.to {
        found.push(test_at(expr, rows, ((run.block, i), None)))?;
    }
    Ok(found)
}

/// Whether each row of a run passes a test of one column; `None` where the test has no loop of its own.
fn by_column<D: Dictionary>(
    alloc: Global,
    expr: &Bound,
    rows: &RowSet<D>,
    run: Run,
) -> Result<Option<Vec<bool>>, Memory>
    requires { IsRunOf rows.now run }
    ensures truths { IfOk result (λ found. IfSome found (λ v. v.items ≡ passes_in_run expr.now rows.now run)) }
{
    match expr {
        Bound::Column(at) => column_true(alloc, rows, run, *at),
        Bound::Compare(op, x, y) => comparison(alloc, *op, x.get(), y.get(), rows, run),
        Bound::InList(x, literals) => member(alloc, x.get(), literals.as_slice(), rows, run),
        Bound::InInterval(x, lo, hi) => interval(alloc, x.get(), *lo, *hi, rows, run),
        Bound::IsNull(x) => null(alloc, x.get(), rows, run),
        _ => Ok(None),
    }
}

/// A comparison: of a column with a literal, on either side, or with a column.
fn comparison<D: Dictionary>(
    alloc: Global,
    op: Comparison,
    x: &Bound,
    y: &Bound,
    rows: &RowSet<D>,
    run: Run,
) -> Result<Option<Vec<bool>>, Memory>
    requires { IsRunOf rows.now run }
    ensures truths { IfOk result (λ found. IfSome found (λ v. v.items ≡ map (λ p. spec.compares op (meaning.value x.now (row_of_place rows.now (p, None))) (meaning.value y.now (row_of_place rows.now (p, None)))) (places_of_run run))) }
{
    match x {
        Bound::Column(at) => match y {
            Bound::Literal(cell) => column_compared(alloc, rows, run, *at, op, Scalar::of(cell)),
            Bound::Column(other) => columns_compared(alloc, rows, run, *at, *other, op),
            _ => numbers_compared(alloc, op, x, y, rows, run),
        },
        Bound::Literal(cell) => match y {
            Bound::Column(at) => literal_compared(alloc, rows, run, Scalar::of(cell), op, *at),
            _ => numbers_compared(alloc, op, x, y, rows, run),
        },
        _ => numbers_compared(alloc, op, x, y, rows, run),
    }
}

/// A comparison of two expressions of numbers; `None` where one isn't of LONG columns, numbers and operators alone.
fn numbers_compared<D: Dictionary>(
    alloc: Global,
    op: Comparison,
    x: &Bound,
    y: &Bound,
    rows: &RowSet<D>,
    run: Run,
) -> Result<Option<Vec<bool>>, Memory>
    requires { IsRunOf rows.now run }
    ensures truths { IfOk result (λ found. IfSome found (λ v. v.items ≡ map (λ p. spec.compares op (meaning.value x.now (row_of_place rows.now (p, None))) (meaning.value y.now (row_of_place rows.now (p, None)))) (places_of_run run))) }
{
    match numbers(alloc, x, rows, run)? {
        Some(left) => match numbers(alloc, y, rows, run)? {
            Some(right) => {
                let found = compared_pairs(alloc, left.as_slice(), right.as_slice(), op)?;
                Ok(Some(found))
            }
            None => Ok(None),
        },
        None => Ok(None),
    }
}

/// The comparison that holds of two values where this one holds of them in the other order.
fn turned(op: Comparison) -> Comparison
    ensures turned { (x : Cell) → (y : Cell) → spec.compares result y x ≡ spec.compares op x y }
{
    match op {
        Comparison::Equal => Comparison::Equal,
        Comparison::NotEqual => Comparison::NotEqual,
        Comparison::Less => Comparison::Greater,
        Comparison::LessEqual => Comparison::GreaterEqual,
        Comparison::Greater => Comparison::Less,
        Comparison::GreaterEqual => Comparison::LessEqual,
    }
}

/// A value among literals: that of a column.
fn member<D: Dictionary>(
    alloc: Global,
    x: &Bound,
    literals: &[Cell],
    rows: &RowSet<D>,
    run: Run,
) -> Result<Option<Vec<bool>>, Memory>
    requires { IsRunOf rows.now run }
    ensures truths { IfOk result (λ found. IfSome found (λ v. v.items ≡ map (λ p. list_any (cell_eq (meaning.value x.now (row_of_place rows.now (p, None)))) literals.now) (places_of_run run))) }
{
    match x {
        Bound::Column(at) => column_among(alloc, rows, run, *at, literals),
        _ => Ok(None),
    }
}

/// A time in an interval: that of a column.
fn interval<D: Dictionary>(
    alloc: Global,
    x: &Bound,
    lo: u64,
    hi: u64,
    rows: &RowSet<D>,
    run: Run,
) -> Result<Option<Vec<bool>>, Memory>
    requires { IsRunOf rows.now run }
    ensures truths { IfOk result (λ found. IfSome found (λ v. v.items ≡ map (λ p. spec.is_within lo hi (meaning.value x.now (row_of_place rows.now (p, None)))) (places_of_run run))) }
{
    match x {
        Bound::Column(at) => column_within(alloc, rows, run, *at, lo, hi),
        _ => Ok(None),
    }
}

/// Whether there is no value: in a column.
fn null<D: Dictionary>(
    alloc: Global,
    x: &Bound,
    rows: &RowSet<D>,
    run: Run,
) -> Result<Option<Vec<bool>>, Memory>
    requires { IsRunOf rows.now run }
    ensures truths { IfOk result (λ found. IfSome found (λ v. v.items ≡ map (λ p. spec.is_null (meaning.value x.now (row_of_place rows.now (p, None)))) (places_of_run run))) }
{
    match x {
        Bound::Column(at) => column_null(alloc, rows, run, *at),
        _ => Ok(None),
    }
}

/// The column of a run's block against a literal; `None` where the block lacks the column.
fn column_compared<D: Dictionary>(
    alloc: Global,
    rows: &RowSet<D>,
    run: Run,
    at: usize,
    op: Comparison,
    literal: Scalar<'_>,
) -> Result<Option<Vec<bool>>, Memory>
    requires { IsRunOf rows.now run }
    ensures truths { IfOk result (λ found. IfSome found (λ v. v.items ≡ map (λ p. spec.compares op (cell_of_col (row_of_place rows.now (p, None)) at) (cell_of literal.entry)) (places_of_run run))) }
{
    let block = rows.block(run.block);
    block.is_whole();
    if block.cols() as usize <= at {
        return Ok(None);
    }
    let column = block.column(at as u32);
    let from = run.from as usize;
    let to = run.to as usize;
    Ok(Some(compared(alloc, column, from, to, op, literal)?))
}

/// A literal against the column of a run's block; `None` where the block lacks the column.
fn literal_compared<D: Dictionary>(
    alloc: Global,
    rows: &RowSet<D>,
    run: Run,
    literal: Scalar<'_>,
    op: Comparison,
    at: usize,
) -> Result<Option<Vec<bool>>, Memory>
    requires { IsRunOf rows.now run }
    ensures truths { IfOk result (λ found. IfSome found (λ v. v.items ≡ map (λ p. spec.compares op (cell_of literal.entry) (cell_of_col (row_of_place rows.now (p, None)) at)) (places_of_run run))) }
{
    column_compared(alloc, rows, run, at, turned(op), literal)
}

/// The column of a run's block among literals; `None` where the block lacks the column.
fn column_among<D: Dictionary>(
    alloc: Global,
    rows: &RowSet<D>,
    run: Run,
    at: usize,
    literals: &[Cell],
) -> Result<Option<Vec<bool>>, Memory>
    requires { IsRunOf rows.now run }
    ensures truths { IfOk result (λ found. IfSome found (λ v. v.items ≡ map (λ p. list_any (cell_eq (cell_of_col (row_of_place rows.now (p, None)) at)) literals.now) (places_of_run run))) }
{
    let block = rows.block(run.block);
    block.is_whole();
    if block.cols() as usize <= at {
        return Ok(None);
    }
    let column = block.column(at as u32);
    let from = run.from as usize;
    let to = run.to as usize;
    Ok(Some(among(alloc, column, from, to, literals)?))
}

/// Where the BOOLEAN column of a run's block is true; `None` where the block lacks the column.
fn column_true<D: Dictionary>(
    alloc: Global,
    rows: &RowSet<D>,
    run: Run,
    at: usize,
) -> Result<Option<Vec<bool>>, Memory>
    requires { IsRunOf rows.now run }
    ensures truths { IfOk result (λ found. IfSome found (λ v. v.items ≡ map (λ p. spec.is_true (cell_of_col (row_of_place rows.now (p, None)) at)) (places_of_run run))) }
{
    let block = rows.block(run.block);
    block.is_whole();
    if block.cols() as usize <= at {
        return Ok(None);
    }
    let column = block.column(at as u32);
    trues(alloc, column, run.from as usize, run.to as usize)
}

/// The column of a run's block in an interval; `None` where the block lacks the column.
fn column_within<D: Dictionary>(
    alloc: Global,
    rows: &RowSet<D>,
    run: Run,
    at: usize,
    lo: u64,
    hi: u64,
) -> Result<Option<Vec<bool>>, Memory>
    requires { IsRunOf rows.now run }
    ensures truths { IfOk result (λ found. IfSome found (λ v. v.items ≡ map (λ p. spec.is_within lo hi (cell_of_col (row_of_place rows.now (p, None)) at)) (places_of_run run))) }
{
    let block = rows.block(run.block);
    block.is_whole();
    if block.cols() as usize <= at {
        return Ok(None);
    }
    let column = block.column(at as u32);
    within(alloc, column, run.from as usize, run.to as usize, lo, hi)
}

/// Where the column of a run's block is NULL; `None` where the block lacks the column.
fn column_null<D: Dictionary>(
    alloc: Global,
    rows: &RowSet<D>,
    run: Run,
    at: usize,
) -> Result<Option<Vec<bool>>, Memory>
    requires { IsRunOf rows.now run }
    ensures truths { IfOk result (λ found. IfSome found (λ v. v.items ≡ map (λ p. spec.is_null (cell_of_col (row_of_place rows.now (p, None)) at)) (places_of_run run))) }
{
    let block = rows.block(run.block);
    block.is_whole();
    if block.cols() as usize <= at {
        return Ok(None);
    }
    let column = block.column(at as u32);
    nulls(alloc, column, run.from as usize, run.to as usize)
}

/// Two columns of a run's block against one another; `None` where the block lacks one of them.
fn columns_compared<D: Dictionary>(
    alloc: Global,
    rows: &RowSet<D>,
    run: Run,
    at: usize,
    other: usize,
    op: Comparison,
) -> Result<Option<Vec<bool>>, Memory>
    requires { IsRunOf rows.now run }
    ensures truths { IfOk result (λ found. IfSome found (λ v. v.items ≡ map (λ p. spec.compares op (cell_of_col (row_of_place rows.now (p, None)) at) (cell_of_col (row_of_place rows.now (p, None)) other)) (places_of_run run))) }
{
    let block = rows.block(run.block);
    block.is_whole();
    if block.cols() as usize <= at || block.cols() as usize <= other {
        return Ok(None);
    }
    let x = block.column(at as u32);
    let y = block.column(other as u32);
    compared_by_row(alloc, x, y, run.from as usize, run.to as usize, op)
}
