//! What an aggregate keeps of the values that it has seen, and its answer.
ghost use Rattle.std.specs.Prelude.{◌≡◌, IfOk, IfSome, fold, map, pos, ◌+ℤ◌};
ghost use Rattle.qd_base.specs.declared.cell.Cell.TheVariants as cell;
ghost use Rattle.qd_column.specs.Cells.{long_cell};
ghost use Rattle.qd_group.specs.Tallies as spec;
ghost use Rattle.qd_group.specs.Tallied.{lead_of, state_of};
ghost use Rattle.qd_meaning.specs.Grouped.{is_less, plus, sum_cell};
ghost use Rattle.qd_value.specs.Cells.{long};
ghost use Rattle.qd_value.specs.Scalars.{cell_of};

use crate::extremes::{greatest_of, least_of};
use crate::sums::total_after_longs;
use qd_base::{MAX_NUMBER, Memory, NULL_LONG};
use qd_meaning::Agg;
use qd_value::{Scalar, order};
use std::alloc::AllocError;
use std::cmp::Ordering;

/// What an aggregate keeps of the values that it has seen. No text is copied.
#[derive(Clone, Copy)]
pub(crate) enum Tally<'a> {
    /// How many rows there were.
    Count(i64),
    /// The sum of the numbers, where there was one.
    Sum(Option<i128>),
    /// The least value.
    Min(Lead<'a>),
    /// The greatest value.
    Max(Lead<'a>),
    /// The first value, where there was a row.
    First(Option<Scalar<'a>>),
    /// The last value; NULL where there was no row.
    Last(Scalar<'a>),
}

/// The best value so far, of those of one class: a value of another class ends them.
#[derive(Clone, Copy)]
pub(crate) struct Lead<'a> {
    /// The value; NULL where there was none.
    pub(crate) best: Scalar<'a>,
    /// Whether a value of another class has come.
    pub(crate) ended: bool,
}

impl<'a> Tally<'a> {
    /// Before the first row.
    pub(crate) fn new(agg: &Agg) -> Tally<'a>
        ensures start { state_of result ≡ spec.start agg.now }
    {
        let lead = Lead::new();
        match agg {
            Agg::Count => Tally::Count(0),
            Agg::Sum(_) => Tally::Sum(None),
            Agg::Min(_) => Tally::Min(lead),
            Agg::Max(_) => Tally::Max(lead),
            Agg::First(_) => Tally::First(None),
            Agg::Last(_) => Tally::Last(Scalar::Null),
        }
    }

    /// After one value more, in constant time. Where the count passes the greatest LONG, or the sum 128 bits, which
    /// takes more rows than memory holds, want of memory is answered.
    pub(crate) fn after(self, value: Scalar<'a>) -> Result<Tally<'a>, Memory>
        ensures next { IfOk result (λ t. state_of t ≡ spec.next (state_of self.entry) (cell_of value.entry)) }
    {
        match self {
            Tally::Count(count) => Ok(Tally::Count(one_more(count)?)),
            Tally::Sum(total) => Ok(Tally::Sum(total_after(total, value)?)),
            Tally::Min(lead) => Ok(Tally::Min(lead.after(value, less(value, lead.best)))),
            Tally::Max(lead) => Ok(Tally::Max(lead.after(value, less(lead.best, value)))),
            Tally::First(first) => Ok(Tally::First(Some(first.unwrap_or(value)))),
            Tally::Last(_) => Ok(Tally::Last(value)),
        }
    }

    /// After numbers more, as a LONG column keeps them, in their order. Sums are made in a loop of their own.
    pub(crate) fn after_longs(self, numbers: &[i64]) -> Result<Tally<'a>, Memory>
        ensures next { IfOk result (λ t. state_of t ≡ fold spec.next (state_of self.entry) (map long_cell numbers.now)) }
    {
        match self {
            Tally::Sum(total) => Ok(Tally::Sum(total_after_longs(total, numbers)?)),
            Tally::Min(lead) => match lead.number() {
                Some(first) => Ok(Tally::Min(Lead::of_number(least_of(first, numbers)))),
                None => self.after_each(numbers),
            },
            Tally::Max(lead) => match lead.number() {
                Some(first) => Ok(Tally::Max(Lead::of_number(greatest_of(first, numbers)))),
                None => self.after_each(numbers),
            },
            _ => self.after_each(numbers),
        }
    }

    /// After numbers more, one after another.
    fn after_each(self, numbers: &[i64]) -> Result<Tally<'a>, Memory>
        ensures next { IfOk result (λ t. state_of t ≡ fold spec.next (state_of self.entry) (map long_cell numbers.now)) }
    {
        let mut tally = self;
        for number in numbers {
            tally = tally.after(of_long(*number))?;
        }
        Ok(tally)
    }

    /// What the aggregate answers.
    pub(crate) fn answer(self) -> Scalar<'a>
        ensures answer { cell_of result ≡ spec.answer (state_of self.entry) }
    {
        match self {
            Tally::Count(count) => Scalar::Long(count),
            Tally::Sum(total) => sum_of(total),
            Tally::Min(lead) => lead.best,
            Tally::Max(lead) => lead.best,
            Tally::First(first) => first.unwrap_or(Scalar::Null),
            Tally::Last(last) => last,
        }
    }
}

impl<'a> Lead<'a> {
    /// Before the first value.
    pub(crate) fn new() -> Lead<'a>
        ensures none { lead_of result ≡ spec.nothing }
    {
        Lead {
            best: Scalar::Null,
            ended: false,
        }
    }

    /// Where nothing has ended it and the best value is a number or none: that number, as a LONG column keeps it.
    fn number(self) -> Option<i64>
        ensures { IfSome result (λ b. lead_of self.entry ≡ spec.leading b) }
    {
        if self.ended {
            return None;
        }
        match self.best {
            Scalar::Null => Some(NULL_LONG),
            Scalar::Long(number) => some_number(number),
            _ => None,
        }
    }

    /// What leads where the best value is a number, as a LONG column keeps it.
    fn of_number(number: i64) -> Lead<'a>
        ensures { lead_of result ≡ spec.leading number }
    {
        Lead {
            best: of_long(number),
            ended: false,
        }
    }

    /// After one value more, of which is said whether it is better than the best one.
    pub(crate) fn after(self, value: Scalar<'a>, better: bool) -> Lead<'a>
        ensures { lead_of result ≡ spec.lead_after better (lead_of self.entry) (cell_of value.entry) }
    {
        if self.ended | value.is_null() {
            return self;
        }
        if better | self.best.is_null() {
            return Lead {
                best: value,
                ended: false,
            };
        }
        Lead {
            best: self.best,
            ended: order(value, self.best).is_none(),
        }
    }
}

/// A number, if a LONG column keeps it as itself.
fn some_number(number: i64) -> Option<i64>
    ensures cell { IfSome result (λ b. long_cell b ≡ cell.Long number) }
    ensures same { IfSome result (λ b. b ≡ number) }
{
    if number == NULL_LONG {
        None
    } else {
        Some(number)
    }
}

/// The value of a number as a LONG column keeps it.
#[inline(always)]
pub(crate) fn of_long<'a>(number: i64) -> Scalar<'a>
    ensures { cell_of result ≡ long_cell number }
{
    if number == NULL_LONG {
        Scalar::Null
    } else {
        Scalar::Long(number)
    }
}

/// Whether a value is less than another of its class.
pub(crate) fn less<'a>(x: Scalar<'a>, y: Scalar<'a>) -> bool
    ensures { result ≡ is_less (cell_of x.entry) (cell_of y.entry) }
{
    matches!(order(x, y), Some(Ordering::Less))
}

/// A count with one row more.
pub(crate) fn one_more(count: i64) -> Result<i64, Memory>
    ensures { IfOk result (λ n. n ≡ count +ℤ pos 1) }
{
    count.checked_add(1).ok_or(AllocError)
}

/// A sum with one value more, if that is a number.
pub(crate) fn total_after(total: Option<i128>, value: Scalar<'_>) -> Result<Option<i128>, Memory>
    ensures { IfOk result (λ t. t ≡ plus (cell_of value.entry) total) }
{
    match (value, total) {
        (Scalar::Long(x), None) => Ok(Some(x as i128)),
        (Scalar::Long(x), Some(total)) => match total.checked_add(x as i128) {
            Some(total) => Ok(Some(total)),
            None => Err(AllocError),
        },
        _ => Ok(total),
    }
}

/// A sum, or NULL for none and for one outside of the range of LONG.
pub(crate) fn sum_of<'a>(total: Option<i128>) -> Scalar<'a>
    ensures { cell_of result ≡ sum_cell total }
{
    match total {
        Some(total) => ranged(total),
        None => Scalar::Null,
    }
}

/// A number, or NULL outside of the range of LONG.
#[tactic(auto, using(crate::proofs::TallyLemmas::long_near, crate::proofs::TallyLemmas::long_far))]
fn ranged<'a>(number: i128) -> Scalar<'a>
    ensures { cell_of result ≡ long number }
{
    if number.unsigned_abs() > MAX_NUMBER as u128 {
        return Scalar::Null;
    }
    Scalar::Long(number as i64)
}
