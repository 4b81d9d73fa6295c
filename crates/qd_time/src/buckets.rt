//! The buckets of samples, as in QuestDB's SAMPLE BY: aligned to the calendar with an offset, or to
//! the first observation.
ghost use Rattle.std.specs.Prelude.{◌≡◌, ℕ, ◌+◌, ◌-◌, ◌*◌, ◌/◌, nat_lt, if◌then◌else◌, ◌≤◌, ◌<◌, IfSome, pos, neg_ℤ, ◌≤ℤ◌, ◌<ℤ◌, ◌+ℤ◌, ◌-ℤ◌, ◌*ℤ◌};
ghost use Rattle.std.specs.Int.{int_div_euclid};
ghost use Rattle.qd_time.specs.Buckets.{clip, offset_micros, month_start, month_end, month_after, month_midnight, months_to, day_of_month, moved, moved_end, last_index, bucket_start, bucket_end, start_by, end_by, IsStart, IsStride, IsAlign, IsReached, IsOffset, IsNear, IsAhead, IsPeriod};
ghost use Rattle.qd_time.specs.Calendar.{day_number};
ghost use Rattle.std.specs.Option.{SomeIff};

use crate::calendar::{
    DAY, HOUR, LAST_DAY, LAST_MONTH, MILLI, MINUTE, SECOND, date_of_day, day_of_month, month_number,
};
use qd_base::{MAX_TIME, TimeUnit};

/// How far apart buckets start: `n` units, from 1 to 1,000,000.
#[derive(Clone, Copy, Debug, PartialEq, Eq)]
pub struct Stride {
    /// How many units.
    pub n: u32,
    /// The unit.
    pub unit: TimeUnit,
}

/// What buckets are aligned to.
#[derive(Clone, Copy, Debug, PartialEq, Eq)]
pub enum Align {
    /// The calendar, with an offset of -1439 to 1439 minutes.
    Calendar {
        /// The offset in minutes.
        minutes: i32,
    },
    /// The first observation, from which starts are counted.
    First {
        /// Its timestamp.
        t0: u64,
    },
}

/// The start of the bucket that contains the moment.
///
/// On the calendar, buckets start at the offset and any number of strides from 1970-01-01, and for
/// months and years at the first moment of a month or year, counted from 1970, and the offset; a
/// start below 0 is 0. From a first observation they start at it and any number of strides, and for
/// months and years at its date moved by them, with the day held to the month's last and the time
/// of day kept. All times are in microseconds since 1970-01-01T00:00:00Z.
///
/// Takes constant time and no memory: up to days a division, without the calendar.
pub fn bucket_of(ts: u64, stride: Stride, align: Align) -> u64
    requires ts_high { ts ≤ MAX_TIME }
    requires stride { IsStride stride }
    requires align { IsAlign align }
    requires reached { IsReached align ts }
    ensures value { result ≡ bucket_start stride align ts }

    // Each moment lies in exactly one bucket: this start is the last that isn't after it.
    ensures not_after { result ≤ ts }
    ensures starts { IsStart stride align result }
    ensures last { (start : ℕ) → IsStart stride align start → start ≤ ts → start ≤ result }
{
    start_in(ts, stride.period(), align)
}

/// The least start of a bucket that is greater than `start`.
///
/// `None` exactly where that is past [`MAX_TIME`]. `start` may be any timestamp; with a first
/// observation after it, that observation is the next start. Takes constant time and no memory.
pub fn next_bucket(start: u64, stride: Stride, align: Align) -> Option<u64>
    requires start_high { start ≤ MAX_TIME }
    requires stride { IsStride stride }
    requires align { IsAlign align }
    ensures next { let end = bucket_end stride align start in SomeIff result (end ≤ MAX_TIME) end }

    // It is the first start that is greater.
    ensures greater { IfSome result (λ next. start < next) }
    ensures starts { IfSome result (IsStart stride align) }
    ensures first { (other : ℕ) → IsStart stride align other → start < other
        → bucket_end stride align start ≤ other }
{
    end_in(start, stride.period(), align)
}

/// How far apart buckets start, in microseconds or in months.
#[derive(Clone, Copy)]
pub(crate) enum Period {
    Micros(u64),
    Months(u64),
}

impl Stride {
    ghost use Rattle.qd_time.specs.Buckets.{period_of};

    /// The stride as microseconds or as months.
    fn period(self) -> Period
        requires { IsStride self }
        ensures value { result ≡ period_of self }
        ensures bound { IsPeriod result }
    {
        let n = self.n as u64;
        match self.unit {
            TimeUnit::Micro => Period::Micros(n),
            TimeUnit::Milli => Period::Micros(n * MILLI),
            TimeUnit::Second => Period::Micros(n * SECOND),
            TimeUnit::Minute => Period::Micros(n * MINUTE),
            TimeUnit::Hour => Period::Micros(n * HOUR),
            TimeUnit::Day => Period::Micros(n * DAY),
            TimeUnit::Month => Period::Months(n),
            TimeUnit::Year => Period::Months(n * 12),
        }
    }
}

/// The start of the bucket that contains the moment, by the period.
fn start_in(ts: u64, period: Period, align: Align) -> u64
    requires ts_high { ts ≤ MAX_TIME }
    requires period_in { IsPeriod period }
    requires align_in { IsAlign align }
    requires reached { IsReached align ts }
    ensures { result ≡ start_by period align ts }
{
    match (period, align) {
        (Period::Micros(period), Align::Calendar { minutes }) => {
            aligned_start(ts, period, offset_micros(minutes))
        }
        (Period::Micros(period), Align::First { t0 }) => counted_start(ts, period, t0),
        (Period::Months(n), Align::Calendar { minutes }) => {
            let offset = offset_micros(minutes);
            month_start(n, offset, ahead(ts, offset))
        }
        (Period::Months(n), Align::First { t0 }) => moved(t0, last_period(ts, n, t0) * n),
    }
}

/// The start after the bucket that contains the moment, unless it is past the last timestamp.
fn end_in(ts: u64, period: Period, align: Align) -> Option<u64>
    requires ts_high { ts ≤ MAX_TIME }
    requires period_in { IsPeriod period }
    requires align_in { IsAlign align }
    ensures { let end = end_by period align ts in SomeIff result (end ≤ MAX_TIME) end }
{
    match (period, align) {
        (Period::Micros(period), Align::Calendar { minutes }) => {
            within(aligned_end(ts, period, offset_micros(minutes)))
        }
        (Period::Micros(period), Align::First { t0 }) => within(counted_end(ts, period, t0)),
        (Period::Months(n), Align::Calendar { minutes }) => {
            let offset = offset_micros(minutes);
            month_end(n, offset, ahead(ts, offset))
        }
        (Period::Months(n), Align::First { t0 }) => moved_end(ts, n, t0),
    }
}

/// The offset in microseconds.
fn offset_micros(minutes: i32) -> i64
    requires low { neg_ℤ (pos 1439) ≤ℤ minutes }
    requires high { minutes ≤ℤ pos 1439 }
    ensures value { result ≡ offset_micros minutes }
    ensures bound { IsOffset result }
{
    minutes as i64 * MINUTE as i64
}

/// How far a moment lies after the offset.
fn ahead(ts: u64, offset: i64) -> i64
    requires ts_high { ts ≤ MAX_TIME }
    requires offset_in { IsOffset offset }
    ensures value { result ≡ pos ts -ℤ offset }
    ensures bound { IsAhead result }
{
    ts as i64 - offset
}

/// The start, at the offset and a number of periods, of the bucket that contains the moment.
fn aligned_start(ts: u64, period: u64, offset: i64) -> u64
    requires ts_high { ts ≤ MAX_TIME }
    requires period_in { IsPeriod (Period.Micros period) }
    requires offset_in { IsOffset offset }
    ensures { result
        ≡ clip (offset +ℤ int_div_euclid (pos ts -ℤ offset) (pos period) *ℤ pos period) }
{
    clip(aligned(ts, period, offset))
}

/// The start after it.
fn aligned_end(ts: u64, period: u64, offset: i64) -> u64
    requires ts_high { ts ≤ MAX_TIME }
    requires period_in { IsPeriod (Period.Micros period) }
    requires offset_in { IsOffset offset }
    ensures { result
        ≡ clip (offset +ℤ int_div_euclid (pos ts -ℤ offset) (pos period) *ℤ pos period +ℤ pos period) }
{
    clip(aligned(ts, period, offset) + period as i64)
}

/// The last moment, at the offset and a number of periods, that isn't after a moment. It may lie
/// below 0.
fn aligned(ts: u64, period: u64, offset: i64) -> i64
    requires ts_high { ts ≤ MAX_TIME }
    requires period_in { IsPeriod (Period.Micros period) }
    requires offset_in { IsOffset offset }
    ensures value { result
        ≡ offset +ℤ int_div_euclid (pos ts -ℤ offset) (pos period) *ℤ pos period }
    ensures not_after { result ≤ℤ pos ts }
    ensures next_after { pos ts <ℤ (result +ℤ pos period) }
{
    offset + periods_after(ts, period, offset) * period as i64
}

/// How many whole periods a moment lies after the offset, rounded down.
fn periods_after(ts: u64, period: u64, offset: i64) -> i64
    requires ts_high { ts ≤ MAX_TIME }
    requires period_in { IsPeriod (Period.Micros period) }
    requires offset_in { IsOffset offset }
    ensures value { result ≡ int_div_euclid (pos ts -ℤ offset) (pos period) }
    ensures bound { IsNear ts offset period result }
{
    ahead(ts, offset).div_euclid(period as i64)
}

/// The start, counted from `t0`, of the bucket that contains the moment.
fn counted_start(ts: u64, period: u64, t0: u64) -> u64
    requires reached { t0 ≤ ts }
    requires period_low { 1 ≤ period }
    ensures { result ≡ t0 + (ts - t0) / period * period }
{
    t0 + (ts - t0) / period * period
}

/// The start after it.
fn counted_end(ts: u64, period: u64, t0: u64) -> u64
    requires ts_high { ts ≤ MAX_TIME }
    requires t0_high { t0 ≤ MAX_TIME }
    requires period_in { IsPeriod (Period.Micros period) }
    ensures { result ≡ (if nat_lt ts t0 then t0 else t0 + ((ts - t0) / period + 1) * period) }
{
    if ts < t0 {
        return t0;
    }
    t0 + ((ts - t0) / period + 1) * period
}

/// The start, at the offset and a number of months, of the bucket that lies so far after the
/// offset.
fn month_start(n: u64, offset: i64, ahead: i64) -> u64
    requires n_low { 1 ≤ n }
    requires offset_in { IsOffset offset }
    requires ahead_in { IsAhead ahead }
    ensures { result ≡ month_start n offset ahead }
{
    if ahead < 0 {
        return 0;
    }
    let month = month_number(ahead as u64 / DAY) / n * n;
    month_begin(month, offset)
}

/// The start after it, unless it is past the last timestamp.
fn month_end(n: u64, offset: i64, ahead: i64) -> Option<u64>
    requires n_in { IsPeriod (Period.Months n) }
    requires offset_in { IsOffset offset }
    requires ahead_in { IsAhead ahead }
    ensures { let end = month_end n offset ahead in SomeIff result (end ≤ MAX_TIME) end }
{
    let month = month_after(n, ahead);
    if month > LAST_MONTH + 1 {
        return None;
    }
    let end = month_begin(month, offset);
    (end <= MAX_TIME).then_some(end)
}

/// The first month of the next bucket.
fn month_after(n: u64, ahead: i64) -> u64
    requires n_in { IsPeriod (Period.Months n) }
    requires ahead_in { IsAhead ahead }
    ensures { result ≡ month_after n ahead }
{
    if ahead < 0 {
        return 0;
    }
    (month_number(ahead as u64 / DAY) / n + 1) * n
}

/// A month's first moment at the offset.
fn month_begin(month: u64, offset: i64) -> u64
    requires month_high { month ≤ LAST_MONTH + 1 }
    requires offset_in { IsOffset offset }
    ensures { result ≡ clip (pos (month_midnight month) +ℤ offset) }
{
    clip((first_of(month) * DAY) as i64 + offset)
}

/// The day number of a month's first day. The month may be January 10000.
fn first_of(month: u64) -> u64
    requires { month ≤ LAST_MONTH + 1 }
    ensures value { result ≡ day_number (day_of_month month 1) }
    ensures bound { result ≤ LAST_DAY + 1 }
{
    if month > LAST_MONTH {
        return LAST_DAY + 1;
    }
    day_of_month(month, 1)
}

/// A moment moved by months, within the last year that timestamps have.
fn moved(t0: u64, months: u64) -> u64
    requires t0_high { t0 ≤ MAX_TIME }
    requires months_high { months_to t0 + months ≤ LAST_MONTH }
    ensures value { result ≡ moved t0 months }
    ensures bound { result ≤ MAX_TIME }
{
    let month = month_number(t0 / DAY) + months;
    day_of_month(month, date_of_day(t0 / DAY).day) * DAY + t0 % DAY
}

/// How many strides after `t0` the bucket that contains the moment starts.
fn last_period(ts: u64, n: u64, t0: u64) -> u64
    requires ts_high { ts ≤ MAX_TIME }
    requires reached { t0 ≤ ts }
    requires n_low { 1 ≤ n }
    ensures value { result ≡ last_index (λ k. moved t0 (k * n)) ts (months_to ts) }
    ensures bound { months_to t0 + result * n ≤ LAST_MONTH }
{
    let k = strides_between(ts, n, t0);
    if moved(t0, k * n) <= ts { k } else { k - 1 }
}

/// How many strides fit between the months of `t0` and of the moment.
fn strides_between(ts: u64, n: u64, t0: u64) -> u64
    requires ts_high { ts ≤ MAX_TIME }
    requires reached { t0 ≤ ts }
    requires n_low { 1 ≤ n }
    ensures value { result ≡ (months_to ts - months_to t0) / n }
    ensures bound { months_to t0 + result * n ≤ LAST_MONTH }
{
    (month_number(ts / DAY) - month_number(t0 / DAY)) / n
}

/// The start after the bucket that contains the moment, by months from `t0`, unless it is past the
/// last timestamp.
fn moved_end(ts: u64, n: u64, t0: u64) -> Option<u64>
    requires ts_high { ts ≤ MAX_TIME }
    requires t0_high { t0 ≤ MAX_TIME }
    requires n_in { IsPeriod (Period.Months n) }
    ensures { let end = moved_end n t0 ts in SomeIff result (end ≤ MAX_TIME) end }
{
    if ts < t0 {
        return Some(t0);
    }
    let months = (last_period(ts, n, t0) + 1) * n;
    if month_number(t0 / DAY) + months > LAST_MONTH {
        return None;
    }
    Some(moved(t0, months))
}

/// A start that isn't past the last timestamp.
fn within(start: u64) -> Option<u64>
    ensures { SomeIff result (start ≤ MAX_TIME) start }
{
    (start <= MAX_TIME).then_some(start)
}

/// A start, or 0 for one that would lie below 0.
fn clip(start: i64) -> u64
    ensures { result ≡ clip start }
{
    if start < 0 { 0 } else { start as u64 }
}
