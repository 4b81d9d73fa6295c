//! Which times the rows may have that pass a test.
ghost use Rattle.std.specs.Prelude.{◌≡◌, ◌≤◌, IfSome, max, min};
ghost use Rattle.std.specs.Bool.{OnTrue};
ghost use Rattle.qd_base.specs.declared.cell.Cell.{Cell};
ghost use Rattle.qd_base.specs.declared.cell.Cell.TheVariants as cell;
ghost use Rattle.qd_query.specs.Intervals.{is_kept, Catches, Spans};
ghost use Rattle.qd_query.specs.Times as times;
ghost use Rattle.qd_query.specs.Times.{AreAllowed, IsFrom, IsTo, TermsAllow, TestAllows, WhereAllows};
ghost use Rattle.qd_value.specs.declared.bound.Bound.TheVariants as is;
ghost use Rattle.qd_value.specs.Cells.{compares};
ghost use Rattle.qd_value.specs.Value.{passes};

use qd_base::{Cell, MAX_TIME};
use qd_value::{Bound, Comparison};

/// The times from `lo` to `hi`, both among them; none where `lo` is above `hi`.
#[derive(Clone, Copy)]
pub(crate) struct Interval {
    /// The first one.
    pub(crate) lo: u64,
    /// The last one.
    pub(crate) hi: u64,
}

/// The times that a row may have in a column which WHERE keeps: all, where there is none.
pub(crate) fn times_kept(keep: &Option<Bound>, col: usize) -> Interval
    ensures allowed { AreAllowed (WhereAllows IsFrom col keep.now) (WhereAllows IsTo col keep.now) result.lo result.hi }
    ensures caught { Catches (is_kept keep.now) col result.lo result.hi }
    ensures timely { result.hi ≤ MAX_TIME }
{
    match keep {
        Some(test) => meet(all_times(), times_passing(test, col)),
        None => all_times(),
    }
}

/// The times that a row may have in a column which passes a test.
///
/// It looks at the test, and at each part of an AND, but no deeper: at a comparison of the column with a moment, on either
/// side of it, and at IN an interval. Of anything else it takes all times. It costs constant time a part.
pub(crate) fn times_passing(test: &Bound, col: usize) -> Interval
    ensures allowed { AreAllowed (TermsAllow IsFrom col (times.terms_of test.now)) (TermsAllow IsTo col (times.terms_of test.now)) result.lo result.hi }
    ensures caught { Catches (passes test.now) col result.lo result.hi }
{
    match test {
        Bound::All(parts) => times_of_all(parts.as_slice(), col),
        _ => times_of_part(test, col),
    }
}

/// The times that a row may have which passes all of some tests.
fn times_of_all(parts: &[Bound], col: usize) -> Interval
    ensures allowed { AreAllowed (TermsAllow IsFrom col parts.now) (TermsAllow IsTo col parts.now) result.lo result.hi }
    ensures caught { Catches (passes (is.All parts.now)) col result.lo result.hi }
{
    let mut found = all_times();
    for part in parts {
        found = meet(found, times_of_part(part, col));
    }
    found
}

/// The times that a row may have which passes a test that is looked at as a whole.
fn times_of_part(test: &Bound, col: usize) -> Interval
    ensures allowed { AreAllowed (TestAllows IsFrom col test.now) (TestAllows IsTo col test.now) result.lo result.hi }
    ensures caught { Catches (passes test.now) col result.lo result.hi }
{
    match test {
        Bound::InInterval(x, lo, hi) => times_within(x.get(), *lo, *hi, col),
        Bound::Compare(op, x, y) => times_compared(*op, x.get(), y.get(), col),
        _ => all_times(),
    }
}

/// The times that a row may have on which an expression lies in an interval.
fn times_within(x: &Bound, lo: u64, hi: u64, col: usize) -> Interval
    ensures allowed { AreAllowed (TestAllows IsFrom col (is.InInterval x.now lo hi)) (TestAllows IsTo col (is.InInterval x.now lo hi)) result.lo result.hi }
    ensures caught { Catches (passes (is.InInterval x.now lo hi)) col result.lo result.hi }
{
    if is_column(x, col) {
        Interval { lo, hi }
    } else {
        all_times()
    }
}

/// The times that a row may have on which a comparison of two expressions holds.
fn times_compared(op: Comparison, x: &Bound, y: &Bound, col: usize) -> Interval
    ensures allowed { AreAllowed (TestAllows IsFrom col (is.Compare op x.now y.now)) (TestAllows IsTo col (is.Compare op x.now y.now)) result.lo result.hi }
    ensures caught { Catches (passes (is.Compare op x.now y.now)) col result.lo result.hi }
{
    if is_column(x, col) {
        times_beside(op, x, y, col)
    } else if is_column(y, col) {
        times_behind(op, x, y, col)
    } else {
        all_times()
    }
}

/// The times that a row may have on which a comparison of the column with an expression holds.
fn times_beside(op: Comparison, x: &Bound, y: &Bound, col: usize) -> Interval
    requires column { x.now ≡ is.Column col }
    ensures allowed { AreAllowed (TestAllows IsFrom col (is.Compare op x.now y.now)) (TestAllows IsTo col (is.Compare op x.now y.now)) result.lo result.hi }
    ensures caught { Catches (passes (is.Compare op x.now y.now)) col result.lo result.hi }
{
    match moment_in(y) {
        Some(moment) => times_at(op, moment),
        None => all_times(),
    }
}

/// The times that a row may have on which a comparison of an expression with the column holds.
fn times_behind(op: Comparison, x: &Bound, y: &Bound, col: usize) -> Interval
    requires column { y.now ≡ is.Column col }
    ensures allowed { AreAllowed (TestAllows IsFrom col (is.Compare op x.now y.now)) (TestAllows IsTo col (is.Compare op x.now y.now)) result.lo result.hi }
    ensures caught { Catches (passes (is.Compare op x.now y.now)) col result.lo result.hi }
{
    match moment_in(x) {
        Some(moment) => times_at(turned(op), moment),
        None => all_times(),
    }
}

/// Whether an expression is this column.
fn is_column(x: &Bound, col: usize) -> bool
    ensures is { result ≡ times.is_column col x.now }
    ensures column { OnTrue result (x.now ≡ is.Column col) }
{
    match x {
        Bound::Column(at) => *at == col,
        _ => false,
    }
}

/// The moment that an expression is, where it is a literal of one.
fn moment_in(x: &Bound) -> Option<u64>
    ensures is { result ≡ times.moment_in x.now }
    ensures moment { IfSome result (λ t. x.now ≡ is.Literal (cell.Time t)) }
{
    match x {
        Bound::Literal(Cell::Time(moment)) => Some(*moment),
        _ => None,
    }
}

/// The comparison that holds of two values where this one holds of them in the other order.
fn turned(op: Comparison) -> Comparison
    ensures is { result ≡ times.turned op }
    ensures turned { (x : Cell) → (y : Cell) → compares result y x ≡ compares op x y }
{
    match op {
        Comparison::Equal => Comparison::Equal,
        Comparison::NotEqual => Comparison::NotEqual,
        Comparison::Less => Comparison::Greater,
        Comparison::LessEqual => Comparison::GreaterEqual,
        Comparison::Greater => Comparison::Less,
        Comparison::GreaterEqual => Comparison::LessEqual,
    }
}

/// The times of which a comparison with a moment holds.
fn times_at(op: Comparison, moment: u64) -> Interval
    ensures allowed { AreAllowed (IsFrom op moment) (IsTo op moment) result.lo result.hi }
    ensures spans { Spans op moment result.lo result.hi }
{
    match op {
        Comparison::Equal => from_to(moment, moment),
        Comparison::NotEqual => all_times(),
        Comparison::Less => from_to(0, moment.saturating_sub(1)),
        Comparison::LessEqual => from_to(0, moment),
        Comparison::Greater => from_to(moment.saturating_add(1), MAX_TIME),
        Comparison::GreaterEqual => from_to(moment, MAX_TIME),
    }
}

/// The times from one to another.
fn from_to(lo: u64, hi: u64) -> Interval
    ensures lo { result.lo ≡ lo }
    ensures hi { result.hi ≡ hi }
{
    Interval { lo, hi }
}

/// The times that a row may have.
fn all_times() -> Interval
    ensures lo { result.lo ≡ 0 }
    ensures hi { result.hi ≡ MAX_TIME }
{
    from_to(0, MAX_TIME)
}

/// The times of both of two intervals.
fn meet(a: Interval, b: Interval) -> Interval
    ensures lo { result.lo ≡ max a.lo b.lo }
    ensures hi { result.hi ≡ min a.hi b.hi }
{
    Interval {
        lo: a.lo.max(b.lo),
        hi: a.hi.min(b.hi),
    }
}
