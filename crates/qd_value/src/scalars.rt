//! Values without memory of their own, and what is done with two of them.
ghost use Rattle.std.specs.Prelude.{◌≡◌, ℤ, IfOk, SomeIff, FitsSigned};
ghost use Rattle.std.specs.Int.{w64};
ghost use Rattle.std.specs.List.{list_any};
ghost use Rattle.qd_base.specs.Rows.{cell_eq};
ghost use Rattle.qd_value.specs.Cells as spec;
ghost use Rattle.qd_value.specs.Scalars.{cell_of};
ghost use Rattle.qd_value.specs.declared.bound.Arithmetic.TheVariants as does;

use crate::bound::{Arithmetic, Comparison};
use qd_base::{Cell, Memory, NULL_LONG, Txt};
use std::alloc::Global;
use std::cmp::Ordering;

/// A value of an expression. A text is lent by the row or by the expression, so that making one takes no memory.
#[derive(Clone, Copy, Debug)]
pub enum Scalar<'a> {
    /// No value.
    Null,
    /// A number.
    Long(i64),
    /// A truth value.
    Bool(bool),
    /// The bytes of a text.
    Text(&'a [u8]),
    /// Microseconds since 1970-01-01T00:00Z.
    Time(u64),
}

impl<'a> Scalar<'a> {
    /// Lends a cell's value, in constant time.
    pub fn of(cell: &'a Cell) -> Scalar<'a>
        ensures same { cell_of result ≡ cell.now }
    {
        match cell {
            Cell::Null => Scalar::Null,
            Cell::Long(value) => Scalar::Long(*value),
            Cell::Bool(value) => Scalar::Bool(*value),
            Cell::Text(value) => Scalar::Text(value.bytes()),
            Cell::Time(value) => Scalar::Time(*value),
        }
    }

    /// Makes a cell of the value. A text is copied; else no memory is taken.
    pub fn to_cell(self, alloc: Global) -> Result<Cell, Memory>
        ensures same { IfOk result (λ cell. cell ≡ cell_of self.entry) }
    {
        Ok(match self {
            Scalar::Null => Cell::Null,
            Scalar::Long(value) => Cell::Long(value),
            Scalar::Bool(value) => Cell::Bool(value),
            Scalar::Text(value) => Cell::Text(Txt::from_bytes(alloc, value)?),
            Scalar::Time(value) => Cell::Time(value),
        })
    }

    /// Says whether there is no value.
    pub fn is_null(self) -> bool
        ensures null { result ≡ spec.is_null (cell_of self.entry) }
    {
        matches!(self, Scalar::Null)
    }

    /// Says whether it is true; NULL counts as false.
    pub fn is_true(self) -> bool
        ensures truth { result ≡ spec.is_true (cell_of self.entry) }
    {
        match self {
            Scalar::Bool(value) => value,
            _ => false,
        }
    }
}

/// What an operator makes of two values: NULL where one isn't a number. It takes constant time.
pub fn arithmetic<'a>(op: Arithmetic, x: Scalar<'a>, y: Scalar<'a>) -> Scalar<'a>
    ensures value { cell_of result ≡ spec.arithmetic op (cell_of x.entry) (cell_of y.entry) }
{
    match (x, y) {
        (Scalar::Long(x), Scalar::Long(y)) => on_numbers(op, x, y),
        _ => Scalar::Null,
    }
}

/// A number with the other sign; of another value, NULL.
pub fn negated<'a>(x: Scalar<'a>) -> Scalar<'a>
    ensures value { cell_of result ≡ spec.negated (cell_of x.entry) }
{
    match x {
        Scalar::Long(x) => long(x.checked_neg()),
        _ => Scalar::Null,
    }
}

/// Whether two values are one; NULL is NULL. It costs time linear in the shorter text.
pub fn equal<'a>(x: Scalar<'a>, y: Scalar<'a>) -> bool
    ensures equal { result ≡ cell_eq (cell_of x.entry) (cell_of y.entry) }
{
    match (x, y) {
        (Scalar::Null, Scalar::Null) => true,
        (Scalar::Long(x), Scalar::Long(y)) => x == y,
        (Scalar::Bool(x), Scalar::Bool(y)) => x == y,
        (Scalar::Text(x), Scalar::Text(y)) => x == y,
        (Scalar::Time(x), Scalar::Time(y)) => x == y,
        _ => false,
    }
}

/// How two values of one class stand; `None` where one is NULL or they are of two classes. It costs time linear in the
/// shorter text.
pub fn order<'a>(x: Scalar<'a>, y: Scalar<'a>) -> Option<Ordering>
    ensures order { result ≡ spec.order (cell_of x.entry) (cell_of y.entry) }
{
    match (x, y) {
        (Scalar::Long(x), Scalar::Long(y)) => Some(x.cmp(&y)),
        (Scalar::Bool(x), Scalar::Bool(y)) => Some(x.cmp(&y)),
        (Scalar::Text(x), Scalar::Text(y)) => Some(x.cmp(y)),
        (Scalar::Time(x), Scalar::Time(y)) => Some(x.cmp(&y)),
        _ => None,
    }
}

/// Whether a comparison of two values holds. It costs time linear in the shorter text.
pub fn compares<'a>(op: Comparison, x: Scalar<'a>, y: Scalar<'a>) -> bool
    ensures holds { result ≡ spec.compares op (cell_of x.entry) (cell_of y.entry) }
{
    match op {
        Comparison::Equal => equal(x, y),
        Comparison::NotEqual => !equal(x, y),
        Comparison::Less => matches!(order(x, y), Some(Ordering::Less)),
        Comparison::LessEqual => matches!(order(x, y), Some(Ordering::Less | Ordering::Equal)),
        Comparison::Greater => matches!(order(x, y), Some(Ordering::Greater)),
        Comparison::GreaterEqual => {
            matches!(order(x, y), Some(Ordering::Greater | Ordering::Equal))
        }
    }
}

/// Whether a value is one of some literals. It looks at each until one is.
pub fn is_among<'a>(x: Scalar<'a>, literals: &'a [Cell]) -> bool
    ensures among { result ≡ list_any (cell_eq (cell_of x.entry)) literals.now }
{
    literals.iter().any(|literal| equal(x, Scalar::of(literal)))
}

/// Whether a value is a time from `lo` to `hi`, both included.
pub fn is_within(x: Scalar<'_>, lo: u64, hi: u64) -> bool
    ensures within { result ≡ spec.is_within lo hi (cell_of x.entry) }
{
    match x {
        Scalar::Time(time) => lo <= time && time <= hi,
        _ => false,
    }
}

/// A number, or NULL where it is the least one, which stands for NULL.
#[tactic(auto, using(crate::proofs::Longs::least, crate::proofs::Longs::fitting))]
fn ranged<'a>(number: i64) -> Scalar<'a>
    ensures value { cell_of result ≡ spec.long number }
{
    if number == NULL_LONG {
        Scalar::Null
    } else {
        Scalar::Long(number)
    }
}

/// A number that was found, or NULL.
#[tactic(auto, using(crate::proofs::Longs::long_some, crate::proofs::Longs::long_none))]
fn long<'a>(found: Option<i64>) -> Scalar<'a>
    ensures ranged { (exact : ℤ) → SomeIff found (FitsSigned w64 exact) exact → cell_of result ≡ spec.long exact }
{
    match found {
        Some(number) => ranged(number),
        None => Scalar::Null,
    }
}

/// Divides; by zero it gives NULL.
fn quotient<'a>(x: i64, y: i64) -> Scalar<'a>
    ensures value { cell_of result ≡ spec.on_numbers does.Divide x y }
{
    if y == 0 {
        Scalar::Null
    } else {
        long(x.checked_div(y))
    }
}

/// Gives a remainder; by zero it is NULL.
#[tactic(auto, using(crate::proofs::Longs::rem_long))]
fn remainder<'a>(x: i64, y: i64) -> Scalar<'a>
    ensures value { cell_of result ≡ spec.on_numbers does.Remainder x y }
{
    if y == 0 {
        Scalar::Null
    } else {
        Scalar::Long(x.wrapping_rem(y))
    }
}

/// What an operator makes of two numbers.
fn on_numbers<'a>(op: Arithmetic, x: i64, y: i64) -> Scalar<'a>
    ensures value { cell_of result ≡ spec.on_numbers op x y }
{
    match op {
        Arithmetic::Plus => long(x.checked_add(y)),
        Arithmetic::Minus => long(x.checked_sub(y)),
        Arithmetic::Times => long(x.checked_mul(y)),
        Arithmetic::Divide => quotient(x, y),
        Arithmetic::Remainder => remainder(x, y),
    }
}
