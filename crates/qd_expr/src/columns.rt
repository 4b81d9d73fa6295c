//! Tests of columns, as loops over the numbers that a column is kept as.
ghost use Rattle.std.specs.Prelude.{◌≡◌, ◌==◌, ◌≤◌, ◌&&◌, ◌||◌, IfOk, IfSome, length, map, not, slice_range};
ghost use Rattle.std.specs.List.{list_any, zip};
ghost use Rattle.qd_base.specs.declared.cell.Cell.TheVariants as cell;
ghost use Rattle.qd_base.specs.declared.schema.ColType.TheVariants as kind;
ghost use Rattle.qd_base.specs.declared.limits.TheConstants.{NULL_ID as null_id};
ghost use Rattle.qd_base.specs.Rows.{cell_eq};
ghost use Rattle.qd_column.specs.Cells.{long_cell, time_cell};
ghost use Rattle.qd_value.specs.Cells as spec;
ghost use Rattle.qd_value.specs.Scalars.{cell_of};
ghost use Rattle.qd_value.specs.declared.bound.Comparison.TheVariants as asks;

use crate::cells::of_column;
use qd_base::{Cell, ColType, Dictionary, Memory, NULL_ID, NULL_LONG, NULL_TIME};
use qd_column::Column;
use qd_value::{Comparison, Scalar, compares, is_among};
use std::alloc::Global;

/// Whether each cell from one row up to another stands in a comparison with a literal. It goes over the numbers that the
/// column is kept as, where the literal is of the column's kind, and else cell by cell.
pub(crate) fn compared<D: Dictionary>(
    alloc: Global,
    column: &Column<D>,
    from: usize,
    to: usize,
    op: Comparison,
    literal: Scalar<'_>,
) -> Result<Vec<bool>, Memory>
    requires ordered { from ≤ to }
    requires within { to ≤ length column.now.cells }
    ensures truths { IfOk result (λ v. v.items ≡ map (λ c. spec.compares op c (cell_of literal.entry)) (slice_range column.now.cells from to)) }
{
    match compared_by_kind(alloc, column, from, to, op, literal)? {
        Some(found) => Ok(found),
        None => compared_by_cell(alloc, column, from, to, op, literal),
    }
}

/// Whether each cell from one row up to another stands in a comparison with a literal, cell by cell.
fn compared_by_cell<D: Dictionary>(
    alloc: Global,
    column: &Column<D>,
    from: usize,
    to: usize,
    op: Comparison,
    literal: Scalar<'_>,
) -> Result<Vec<bool>, Memory>
    requires ordered { from ≤ to }
    requires within { to ≤ length column.now.cells }
    ensures truths { IfOk result (λ v. v.items ≡ map (λ c. spec.compares op c (cell_of literal.entry)) (slice_range column.now.cells from to)) }
{
    let mut found = Vec::with_capacity(alloc, to - from)?;
    for i in from..to {
        found.push(compares(op, of_column(column, i), literal))?;
    }
    Ok(found)
}

/// Whether each cell from one row up to another is one of some literals. Each literal is looked for in one pass; in a
/// VARCHAR column all of them are, cell by cell.
pub(crate) fn among<D: Dictionary>(
    alloc: Global,
    column: &Column<D>,
    from: usize,
    to: usize,
    literals: &[Cell],
) -> Result<Vec<bool>, Memory>
    requires ordered { from ≤ to }
    requires within { to ≤ length column.now.cells }
    ensures truths { IfOk result (λ v. v.items ≡ map (λ c. list_any (cell_eq c) literals.now) (slice_range column.now.cells from to)) }
{
    match column.kind() {
        ColType::Varchar => among_by_cell(alloc, column, from, to, literals),
        _ => among_by_literal(alloc, column, from, to, literals),
    }
}

/// Whether each cell from one row up to another is one of some literals, cell by cell.
fn among_by_cell<D: Dictionary>(
    alloc: Global,
    column: &Column<D>,
    from: usize,
    to: usize,
    literals: &[Cell],
) -> Result<Vec<bool>, Memory>
    requires ordered { from ≤ to }
    requires within { to ≤ length column.now.cells }
    ensures truths { IfOk result (λ v. v.items ≡ map (λ c. list_any (cell_eq c) literals.now) (slice_range column.now.cells from to)) }
{
    let mut found = Vec::with_capacity(alloc, to - from)?;
    for i in from..to {
        found.push(is_among(of_column(column, i), literals))?;
    }
    Ok(found)
}

/// Whether each cell from one row up to another is one of some literals, literal by literal.
fn among_by_literal<D: Dictionary>(
    alloc: Global,
    column: &Column<D>,
    from: usize,
    to: usize,
    literals: &[Cell],
) -> Result<Vec<bool>, Memory>
    requires ordered { from ≤ to }
    requires within { to ≤ length column.now.cells }
    ensures truths { IfOk result (λ v. v.items ≡ map (λ c. list_any (cell_eq c) literals.now) (slice_range column.now.cells from to)) }
{
    let mut found = Vec::from_elem(alloc, false, to - from)?;
    for literal in literals {
        let wanted = Scalar::of(literal);
        let more = compared(alloc, column, from, to, Comparison::Equal, wanted)?;
        found = either(alloc, found.as_slice(), more.as_slice())?;
    }
    Ok(found)
}

/// Whether each cell from one row up to another is true. It is `None` for a column that isn't BOOLEAN.
pub(crate) fn trues<D: Dictionary>(
    alloc: Global,
    column: &Column<D>,
    from: usize,
    to: usize,
) -> Result<Option<Vec<bool>>, Memory>
    requires ordered { from ≤ to }
    requires within { to ≤ length column.now.cells }
    ensures truths { IfOk result (λ found. IfSome found (λ v. v.items ≡ map spec.is_true (slice_range column.now.cells from to))) }
{
    match column.kind() {
        ColType::Bool => Ok(Some(Vec::from_slice(alloc, &column.truths()[from..to])?)),
        _ => Ok(None),
    }
}

/// The numbers from one row up to another, as the column keeps them. It is `None` for a column that isn't LONG.
pub(crate) fn longs<D: Dictionary>(
    alloc: Global,
    column: &Column<D>,
    from: usize,
    to: usize,
) -> Result<Option<Vec<i64>>, Memory>
    requires ordered { from ≤ to }
    requires within { to ≤ length column.now.cells }
    ensures numbers { IfOk result (λ found. IfSome found (λ v. map long_cell v.items ≡ slice_range column.now.cells from to)) }
{
    match column.kind() {
        ColType::Long => Ok(Some(Vec::from_slice(alloc, &column.longs()[from..to])?)),
        _ => Ok(None),
    }
}

/// Whether each cell from one row up to another stands in a comparison with a literal of the column's kind. It is `None`
/// for kinds that have no loop of their own.
fn compared_by_kind<D: Dictionary>(
    alloc: Global,
    column: &Column<D>,
    from: usize,
    to: usize,
    op: Comparison,
    literal: Scalar<'_>,
) -> Result<Option<Vec<bool>>, Memory>
    requires ordered { from ≤ to }
    requires within { to ≤ length column.now.cells }
    ensures truths { IfOk result (λ found. IfSome found (λ v. v.items ≡ map (λ c. spec.compares op c (cell_of literal.entry)) (slice_range column.now.cells from to))) }
{
    match literal {
        Scalar::Long(y) => against_number(alloc, column, from, to, op, y),
        Scalar::Time(y) => against_time(alloc, column, from, to, op, y),
        Scalar::Text(y) => against_text(alloc, column, from, to, op, y),
        _ => Ok(None),
    }
}

/// Whether each cell from one row up to another is a time of an interval. It is `None` for a column of another kind.
pub(crate) fn within<D: Dictionary>(
    alloc: Global,
    column: &Column<D>,
    from: usize,
    to: usize,
    lo: u64,
    hi: u64,
) -> Result<Option<Vec<bool>>, Memory>
    requires ordered { from ≤ to }
    requires within { to ≤ length column.now.cells }
    ensures truths { IfOk result (λ found. IfSome found (λ v. v.items ≡ map (λ c. spec.is_within lo hi c) (slice_range column.now.cells from to))) }
{
    match column.kind() {
        ColType::Time => Ok(Some(times_within(alloc, &column.times()[from..to], lo, hi)?)),
        _ => Ok(None),
    }
}

/// Whether each cell from one row up to another is NULL. It is `None` for kinds that have no loop of their own.
pub(crate) fn nulls<D: Dictionary>(
    alloc: Global,
    column: &Column<D>,
    from: usize,
    to: usize,
) -> Result<Option<Vec<bool>>, Memory>
    requires ordered { from ≤ to }
    requires within { to ≤ length column.now.cells }
    ensures truths { IfOk result (λ found. IfSome found (λ v. v.items ≡ map spec.is_null (slice_range column.now.cells from to))) }
{
    match column.kind() {
        ColType::Long => Ok(Some(longs_null(alloc, &column.longs()[from..to])?)),
        ColType::Time => Ok(Some(times_null(alloc, &column.times()[from..to])?)),
        ColType::Symbol => Ok(Some(ids_null(alloc, &column.symbols()[from..to])?)),
        _ => Ok(None),
    }
}

/// Whether the cells of two columns from one row up to another stand in a comparison, at each row. It is `None` unless
/// both are LONG columns.
pub(crate) fn compared_by_row<D: Dictionary>(
    alloc: Global,
    x: &Column<D>,
    y: &Column<D>,
    from: usize,
    to: usize,
    op: Comparison,
) -> Result<Option<Vec<bool>>, Memory>
    requires ordered { from ≤ to }
    requires within { to ≤ length x.now.cells }
    requires within_other { to ≤ length y.now.cells }
    ensures truths { IfOk result (λ found. IfSome found (λ v. v.items ≡ map (λ p. spec.compares op p.0 p.1) (zip (slice_range x.now.cells from to) (slice_range y.now.cells from to)))) }
{
    match x.kind() {
        ColType::Long => match y.kind() {
            ColType::Long => {
                let xs = x.longs();
                let ys = y.longs();
                Ok(Some(compared_pairs(alloc, &xs[from..to], &ys[from..to], op)?))
            }
            _ => Ok(None),
        },
        _ => Ok(None),
    }
}

/// A LONG column against a number.
fn against_number<D: Dictionary>(
    alloc: Global,
    column: &Column<D>,
    from: usize,
    to: usize,
    op: Comparison,
    y: i64,
) -> Result<Option<Vec<bool>>, Memory>
    requires ordered { from ≤ to }
    requires within { to ≤ length column.now.cells }
    ensures truths { IfOk result (λ found. IfSome found (λ v. v.items ≡ map (λ c. spec.compares op c (cell.Long y)) (slice_range column.now.cells from to))) }
{
    match column.kind() {
        ColType::Long => Ok(Some(compared_longs(alloc, &column.longs()[from..to], op, y)?)),
        _ => Ok(None),
    }
}

/// A TIMESTAMP column against a time.
fn against_time<D: Dictionary>(
    alloc: Global,
    column: &Column<D>,
    from: usize,
    to: usize,
    op: Comparison,
    y: u64,
) -> Result<Option<Vec<bool>>, Memory>
    requires ordered { from ≤ to }
    requires within { to ≤ length column.now.cells }
    ensures truths { IfOk result (λ found. IfSome found (λ v. v.items ≡ map (λ c. spec.compares op c (cell.Time y)) (slice_range column.now.cells from to))) }
{
    match column.kind() {
        ColType::Time => Ok(Some(compared_times(alloc, &column.times()[from..to], op, y)?)),
        _ => Ok(None),
    }
}

/// A SYMBOL column against a text: `=` and `!=`, by the id that the text has in the column.
fn against_text<D: Dictionary>(
    alloc: Global,
    column: &Column<D>,
    from: usize,
    to: usize,
    op: Comparison,
    y: &[u8],
) -> Result<Option<Vec<bool>>, Memory>
    requires ordered { from ≤ to }
    requires within { to ≤ length column.now.cells }
    ensures truths { IfOk result (λ found. IfSome found (λ v. v.items ≡ map (λ c. spec.compares op c (cell.Text y.now)) (slice_range column.now.cells from to))) }
{
    match column.kind() {
        ColType::Symbol => match op {
            Comparison::Equal => Ok(Some(symbols_equal(alloc, column, from, to, y)?)),
            Comparison::NotEqual => {
                let same = symbols_equal(alloc, column, from, to, y)?;
                Ok(Some(opposite(alloc, same.as_slice())?))
            }
            _ => Ok(None),
        },
        _ => Ok(None),
    }
}

/// Whether each cell of a SYMBOL column from one row up to another is a text. The text is looked up once.
fn symbols_equal<D: Dictionary>(
    alloc: Global,
    column: &Column<D>,
    from: usize,
    to: usize,
    y: &[u8],
) -> Result<Vec<bool>, Memory>
    requires kind { column.now.kind ≡ kind.Symbol }
    requires ordered { from ≤ to }
    requires within { to ≤ length column.now.cells }
    ensures truths { IfOk result (λ v. v.items ≡ map (λ c. spec.compares asks.Equal c (cell.Text y.now)) (slice_range column.now.cells from to)) }
{
    let dictionary = column.dictionary();
    let _known = dictionary.len();
    let ids = &column.symbols()[from..to];
    match dictionary.id_of(y) {
        Some(id) => ids_equal(alloc, ids, id),
        None => Ok(Vec::from_elem(alloc, false, ids.len())?),
    }
}

/// Whether each id is one.
fn ids_equal(alloc: Global, ids: &[u64], id: u64) -> Result<Vec<bool>, Memory>
    ensures truths { IfOk result (λ v. v.items ≡ map (λ x. x == id) ids.now) }
{
    ids.iter().map(|x| *x == id).collect(alloc)
}

/// Whether each id of a SYMBOL column stands for NULL.
fn ids_null(alloc: Global, ids: &[u64]) -> Result<Vec<bool>, Memory>
    ensures truths { IfOk result (λ v. v.items ≡ map (λ x. x == null_id) ids.now) }
{
    ids.iter().map(|x| *x == NULL_ID).collect(alloc)
}

/// The opposite of each truth.
pub(crate) fn opposite(alloc: Global, truths: &[bool]) -> Result<Vec<bool>, Memory>
    ensures truths { IfOk result (λ v. v.items ≡ map not truths.now) }
{
    truths.iter().map(|x| !*x).collect(alloc)
}

/// Whether both truths are true, at each position.
pub(crate) fn both(alloc: Global, a: &[bool], b: &[bool]) -> Result<Vec<bool>, Memory>
    ensures truths { IfOk result (λ v. v.items ≡ map (λ p. p.0 && p.1) (zip a.now b.now)) }
{
    a.iter().zip(b).map(|(x, y)| *x & *y).collect(alloc)
}

/// Whether one of both truths is true, at each position.
pub(crate) fn either(alloc: Global, a: &[bool], b: &[bool]) -> Result<Vec<bool>, Memory>
    ensures truths { IfOk result (λ v. v.items ≡ map (λ p. p.0 || p.1) (zip a.now b.now)) }
{
    a.iter().zip(b).map(|(x, y)| *x | *y).collect(alloc)
}

/// Numbers of a LONG column against a number.
fn compared_longs(alloc: Global, xs: &[i64], op: Comparison, y: i64) -> Result<Vec<bool>, Memory>
    ensures truths { IfOk result (λ v. v.items ≡ map (λ x. spec.compares op (long_cell x) (cell.Long y)) xs.now) }
{
    match op {
        Comparison::Equal => xs.iter().map(|x| long_equal(*x, y)).collect(alloc),
        Comparison::NotEqual => xs.iter().map(|x| !long_equal(*x, y)).collect(alloc),
        Comparison::Less => xs.iter().map(|x| long_less(*x, y)).collect(alloc),
        Comparison::LessEqual => xs.iter().map(|x| long_at_most(*x, y)).collect(alloc),
        Comparison::Greater => xs.iter().map(|x| long_greater(*x, y)).collect(alloc),
        Comparison::GreaterEqual => xs.iter().map(|x| long_at_least(*x, y)).collect(alloc),
    }
}

#[inline(always)]
fn long_equal(x: i64, y: i64) -> bool
    ensures { result ≡ spec.compares asks.Equal (long_cell x) (cell.Long y) }
{
    (x != NULL_LONG) & (x == y)
}

#[inline(always)]
fn long_less(x: i64, y: i64) -> bool
    ensures { result ≡ spec.compares asks.Less (long_cell x) (cell.Long y) }
{
    (x != NULL_LONG) & (x < y)
}

#[inline(always)]
fn long_at_most(x: i64, y: i64) -> bool
    ensures { result ≡ spec.compares asks.LessEqual (long_cell x) (cell.Long y) }
{
    (x != NULL_LONG) & (x <= y)
}

#[inline(always)]
fn long_greater(x: i64, y: i64) -> bool
    ensures { result ≡ spec.compares asks.Greater (long_cell x) (cell.Long y) }
{
    (x != NULL_LONG) & (x > y)
}

#[inline(always)]
fn long_at_least(x: i64, y: i64) -> bool
    ensures { result ≡ spec.compares asks.GreaterEqual (long_cell x) (cell.Long y) }
{
    (x != NULL_LONG) & (x >= y)
}

/// Numbers of a LONG column against those of another, at each position.
pub(crate) fn compared_pairs(
    alloc: Global,
    xs: &[i64],
    ys: &[i64],
    op: Comparison,
) -> Result<Vec<bool>, Memory>
    ensures truths { IfOk result (λ v. v.items ≡ map (λ p. spec.compares op (long_cell p.0) (long_cell p.1)) (zip xs.now ys.now)) }
{
    match op {
        Comparison::Equal => xs
            .iter()
            .zip(ys)
            .map(|(x, y)| pair_equal(*x, *y))
            .collect(alloc),
        Comparison::NotEqual => xs
            .iter()
            .zip(ys)
            .map(|(x, y)| !pair_equal(*x, *y))
            .collect(alloc),
        Comparison::Less => xs
            .iter()
            .zip(ys)
            .map(|(x, y)| pair_less(*x, *y))
            .collect(alloc),
        Comparison::LessEqual => xs
            .iter()
            .zip(ys)
            .map(|(x, y)| pair_at_most(*x, *y))
            .collect(alloc),
        Comparison::Greater => xs
            .iter()
            .zip(ys)
            .map(|(x, y)| pair_less(*y, *x))
            .collect(alloc),
        Comparison::GreaterEqual => xs
            .iter()
            .zip(ys)
            .map(|(x, y)| pair_at_most(*y, *x))
            .collect(alloc),
    }
}

#[inline(always)]
fn pair_equal(x: i64, y: i64) -> bool
    ensures { result ≡ spec.compares asks.Equal (long_cell x) (long_cell y) }
{
    x == y
}

#[inline(always)]
fn pair_less(x: i64, y: i64) -> bool
    ensures less { result ≡ spec.compares asks.Less (long_cell x) (long_cell y) }
    ensures greater { result ≡ spec.compares asks.Greater (long_cell y) (long_cell x) }
{
    (x != NULL_LONG) & (y != NULL_LONG) & (x < y)
}

#[inline(always)]
fn pair_at_most(x: i64, y: i64) -> bool
    ensures at_most { result ≡ spec.compares asks.LessEqual (long_cell x) (long_cell y) }
    ensures at_least { result ≡ spec.compares asks.GreaterEqual (long_cell y) (long_cell x) }
{
    (x != NULL_LONG) & (y != NULL_LONG) & (x <= y)
}

/// Whether each number of a LONG column stands for NULL.
fn longs_null(alloc: Global, xs: &[i64]) -> Result<Vec<bool>, Memory>
    ensures truths { IfOk result (λ v. v.items ≡ map (λ x. spec.is_null (long_cell x)) xs.now) }
{
    xs.iter().map(|x| long_null(*x)).collect(alloc)
}

#[inline(always)]
fn long_null(x: i64) -> bool
    ensures { result ≡ spec.is_null (long_cell x) }
{
    x == NULL_LONG
}

/// Moments of a TIMESTAMP column against a moment.
fn compared_times(alloc: Global, xs: &[u64], op: Comparison, y: u64) -> Result<Vec<bool>, Memory>
    ensures truths { IfOk result (λ v. v.items ≡ map (λ x. spec.compares op (time_cell x) (cell.Time y)) xs.now) }
{
    match op {
        Comparison::Equal => xs.iter().map(|x| time_equal(*x, y)).collect(alloc),
        Comparison::NotEqual => xs.iter().map(|x| !time_equal(*x, y)).collect(alloc),
        Comparison::Less => xs.iter().map(|x| time_less(*x, y)).collect(alloc),
        Comparison::LessEqual => xs.iter().map(|x| time_at_most(*x, y)).collect(alloc),
        Comparison::Greater => xs.iter().map(|x| time_greater(*x, y)).collect(alloc),
        Comparison::GreaterEqual => xs.iter().map(|x| time_at_least(*x, y)).collect(alloc),
    }
}

#[inline(always)]
fn time_equal(x: u64, y: u64) -> bool
    ensures { result ≡ spec.compares asks.Equal (time_cell x) (cell.Time y) }
{
    (x != NULL_TIME) & (x == y)
}

#[inline(always)]
fn time_less(x: u64, y: u64) -> bool
    ensures { result ≡ spec.compares asks.Less (time_cell x) (cell.Time y) }
{
    (x != NULL_TIME) & (x < y)
}

#[inline(always)]
fn time_at_most(x: u64, y: u64) -> bool
    ensures { result ≡ spec.compares asks.LessEqual (time_cell x) (cell.Time y) }
{
    (x != NULL_TIME) & (x <= y)
}

#[inline(always)]
fn time_greater(x: u64, y: u64) -> bool
    ensures { result ≡ spec.compares asks.Greater (time_cell x) (cell.Time y) }
{
    (x != NULL_TIME) & (x > y)
}

#[inline(always)]
fn time_at_least(x: u64, y: u64) -> bool
    ensures { result ≡ spec.compares asks.GreaterEqual (time_cell x) (cell.Time y) }
{
    (x != NULL_TIME) & (x >= y)
}

/// Whether each moment of a TIMESTAMP column lies in an interval, both ends included.
fn times_within(alloc: Global, xs: &[u64], lo: u64, hi: u64) -> Result<Vec<bool>, Memory>
    ensures truths { IfOk result (λ v. v.items ≡ map (λ x. spec.is_within lo hi (time_cell x)) xs.now) }
{
    xs.iter().map(|x| time_within(*x, lo, hi)).collect(alloc)
}

#[inline(always)]
fn time_within(x: u64, lo: u64, hi: u64) -> bool
    ensures { result ≡ spec.is_within lo hi (time_cell x) }
{
    (x != NULL_TIME) & (lo <= x) & (x <= hi)
}

/// Whether each moment of a TIMESTAMP column stands for NULL.
fn times_null(alloc: Global, xs: &[u64]) -> Result<Vec<bool>, Memory>
    ensures truths { IfOk result (λ v. v.items ≡ map (λ x. spec.is_null (time_cell x)) xs.now) }
{
    xs.iter().map(|x| time_null(*x)).collect(alloc)
}

#[inline(always)]
fn time_null(x: u64) -> bool
    ensures { result ≡ spec.is_null (time_cell x) }
{
    x == NULL_TIME
}
