//! What aggregates keep of a group's rows, each kind in a form of its own.
ghost use Rattle.std.specs.Prelude.{◌≡◌, None, IfOk, pos};
ghost use Rattle.qd_column.specs.Cells.{long_cell};
ghost use Rattle.qd_group.specs.Tallied.{lead_of, state_of};
ghost use Rattle.qd_group.specs.Tallies.{answer as answer_of, counted, greatest, least, next, nothing, summed, State};
ghost use Rattle.qd_value.specs.Scalars.{cell_of};

use crate::sums::total_after_long;
use crate::tallies::{Lead, Tally, less, of_long, one_more, sum_of, total_after};
use qd_base::Memory;
use qd_value::Scalar;

/// What an aggregate keeps of the rows of a group. Loops over rows are made for each form, so that no row asks which
/// aggregate it is.
pub(crate) trait Keeping<'a>: Copy {
    /// What is kept, as the meaning has it.
    ghost state: { Self → State };

    /// After one value more, in constant time. Where a count passes the greatest LONG, or a sum 128 bits, which takes
    /// more rows than memory holds, want of memory is answered.
    fn after_value(self, value: Scalar<'a>) -> Result<Self, Memory>
        ensures next { IfOk result (λ k. state k ≡ next (state self) (cell_of value.entry)) };

    /// After one number more, as a LONG column keeps it.
    fn after_long(self, number: i64) -> Result<Self, Memory>
        ensures next { IfOk result (λ k. state k ≡ next (state self) (long_cell number)) };

    /// What the aggregate answers.
    fn outcome(self) -> Scalar<'a>
        ensures answer { cell_of result ≡ answer_of (state self) };
}

/// How many rows there were.
#[derive(Clone, Copy)]
pub(crate) struct Count {
    rows: i64,
}

impl Count {
    /// Before the first row.
    pub(crate) fn new() -> Count
        ensures none { result.rows ≡ pos 0 }
    {
        Count { rows: 0 }
    }
}

impl<'a> Keeping<'a> for Count {
    ghost state = { λ k. counted k.rows };

    #[inline(always)]
    fn after_value(self, _value: Scalar<'a>) -> Result<Count, Memory> {
        Ok(Count {
            rows: one_more(self.rows)?,
        })
    }

    #[inline(always)]
    fn after_long(self, _number: i64) -> Result<Count, Memory> {
        Ok(Count {
            rows: one_more(self.rows)?,
        })
    }

    fn outcome(self) -> Scalar<'a> {
        Scalar::Long(self.rows)
    }
}

/// The sum of the numbers, where there was one.
#[derive(Clone, Copy)]
pub(crate) struct Total {
    sum: Option<i128>,
}

impl Total {
    /// Before the first row.
    pub(crate) fn new() -> Total
        ensures none { result.sum ≡ None }
    {
        Total { sum: None }
    }
}

impl<'a> Keeping<'a> for Total {
    ghost state = { λ k. summed k.sum };

    #[inline(always)]
    fn after_value(self, value: Scalar<'a>) -> Result<Total, Memory> {
        Ok(Total {
            sum: total_after(self.sum, value)?,
        })
    }

    #[inline(always)]
    fn after_long(self, number: i64) -> Result<Total, Memory> {
        Ok(Total {
            sum: total_after_long(self.sum, number)?,
        })
    }

    fn outcome(self) -> Scalar<'a> {
        sum_of(self.sum)
    }
}

/// The least value.
#[derive(Clone, Copy)]
pub(crate) struct Least<'a> {
    lead: Lead<'a>,
}

impl<'a> Least<'a> {
    /// Before the first row.
    pub(crate) fn new() -> Least<'a>
        ensures none { lead_of result.lead ≡ nothing }
    {
        Least { lead: Lead::new() }
    }
}

impl<'a> Keeping<'a> for Least<'a> {
    ghost state = { λ k. least (lead_of k.lead) };

    #[inline(always)]
    fn after_value(self, value: Scalar<'a>) -> Result<Least<'a>, Memory> {
        Ok(Least {
            lead: self.lead.after(value, less(value, self.lead.best)),
        })
    }

    #[inline(always)]
    fn after_long(self, number: i64) -> Result<Least<'a>, Memory> {
        self.after_value(of_long(number))
    }

    fn outcome(self) -> Scalar<'a> {
        self.lead.best
    }
}

/// The greatest value.
#[derive(Clone, Copy)]
pub(crate) struct Greatest<'a> {
    lead: Lead<'a>,
}

impl<'a> Greatest<'a> {
    /// Before the first row.
    pub(crate) fn new() -> Greatest<'a>
        ensures none { lead_of result.lead ≡ nothing }
    {
        Greatest { lead: Lead::new() }
    }
}

impl<'a> Keeping<'a> for Greatest<'a> {
    ghost state = { λ k. greatest (lead_of k.lead) };

    #[inline(always)]
    fn after_value(self, value: Scalar<'a>) -> Result<Greatest<'a>, Memory> {
        Ok(Greatest {
            lead: self.lead.after(value, less(self.lead.best, value)),
        })
    }

    #[inline(always)]
    fn after_long(self, number: i64) -> Result<Greatest<'a>, Memory> {
        self.after_value(of_long(number))
    }

    fn outcome(self) -> Scalar<'a> {
        self.lead.best
    }
}

impl<'a> Keeping<'a> for Tally<'a> {
    ghost state = { state_of };

    fn after_value(self, value: Scalar<'a>) -> Result<Tally<'a>, Memory> {
        self.after(value)
    }

    fn after_long(self, number: i64) -> Result<Tally<'a>, Memory> {
        self.after(of_long(number))
    }

    fn outcome(self) -> Scalar<'a> {
        self.answer()
    }
}
