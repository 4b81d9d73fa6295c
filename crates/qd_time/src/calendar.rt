//! Dates of day numbers, and the clock's units in microseconds.
ghost use Rattle.std.specs.Prelude.{◌≡◌, ◌+◌, ◌≤◌};
ghost use Rattle.qd_time.specs.Buckets.{month_number, day_of_month};
ghost use Rattle.qd_time.specs.Calendar.{CalendarDate, date_of_day, day_number, month_first, month_after, year_first, year_after, IsDateOfDay, IsCalendarDate};

use jiff_core::civil::{self, Date};

/// A millisecond in microseconds.
pub(crate) const MILLI: u64 = 1000;

/// A second in microseconds.
pub(crate) const SECOND: u64 = 1_000_000;

/// A minute in microseconds.
pub(crate) const MINUTE: u64 = 60_000_000;

/// An hour in microseconds.
pub(crate) const HOUR: u64 = 3_600_000_000;

/// A day in microseconds: there are no leap seconds.
pub(crate) const DAY: u64 = 86_400_000_000;

/// The day number of 31 December 9999, the last day that timestamps have. 1 January 1970 is day 0.
pub(crate) const LAST_DAY: u64 = 2_932_896;

/// The last month that timestamps have, December 9999, counted from January 1970.
pub(crate) const LAST_MONTH: u64 = 96_359;

/// The date with that day number.
pub(crate) fn date_of_day(day: u64) -> Date
    requires { day ≤ LAST_DAY }
    ensures { IsDateOfDay result day }
{
    Date::from_days_since_min(day as u32 + EPOCH)
}

/// The day number of the first day of a day's month.
pub(crate) fn first_of_month(day: u64) -> u64
    requires { day ≤ LAST_DAY }
    ensures value { result ≡ day_number (month_first (date_of_day day)) }
    ensures bound { result ≤ day }
{
    day - (date_of_day(day).day as u64 - 1)
}

/// The day number of the first day of the month after a day's.
pub(crate) fn first_of_next_month(day: u64) -> u64
    requires { day ≤ LAST_DAY }
    ensures value { result ≡ day_number (month_after (date_of_day day)) }
    ensures bound { result ≤ LAST_DAY + 1 }
{
    let date = date_of_day(day);
    let length = civil::days_in_month(date.year, date.month);
    day - (date.day as u64 - 1) + length as u64
}

/// The day number of 1 January of a day's year.
pub(crate) fn first_of_year(day: u64) -> u64
    requires { day ≤ LAST_DAY }
    ensures value { result ≡ day_number (year_first (date_of_day day)) }
    ensures bound { result ≤ day }
{
    day - (date_of_day(day).day_of_year() as u64 - 1)
}

/// The day number of 1 January of the year after a day's.
pub(crate) fn first_of_next_year(day: u64) -> u64
    requires { day ≤ LAST_DAY }
    ensures value { result ≡ day_number (year_after (date_of_day day)) }
    ensures bound { result ≤ LAST_DAY + 1 }
{
    let date = date_of_day(day);
    let length = civil::days_in_year(date.year);
    day - (date.day_of_year() as u64 - 1) + length as u64
}

/// The day number of a date.
pub(crate) fn day_number(year: u16, month: u8, day: u8) -> u64
    requires year_high { year ≤ 9999 }
    requires is_date { IsCalendarDate (record { year = year; month = month; day = day }) }
    ensures value { result ≡ day_number (record { year = year; month = month; day = day }) }
    ensures bound { result ≤ LAST_DAY }
{
    let date = Date::constrain(year as i16, month, day);
    date.to_unix_epoch_day() as u64
}

/// The months from January 1970 to a day's month. The day may be 1 January 10000.
pub(crate) fn month_number(day: u64) -> u64
    requires { day ≤ LAST_DAY + 1 }
    ensures value { result ≡ month_number (date_of_day day) }
    ensures bound { result ≤ LAST_MONTH + 1 }
{
    if day > LAST_DAY {
        return LAST_MONTH + 1;
    }
    let date = date_of_day(day);
    (date.year as u64 - 1970) * 12 + (date.month as u64 - 1)
}

/// The day number of a month's day, or of its last where the month is shorter. The month, counted
/// from January 1970, lies before the year 10000.
pub(crate) fn day_of_month(month: u64, day: u8) -> u64
    requires month_high { month ≤ LAST_MONTH }
    requires day_low { 1 ≤ day }
    ensures value { result ≡ day_number (day_of_month month day) }
    ensures bound { result ≤ LAST_DAY }
{
    let (year, month) = ((1970 + month / 12) as u16, (month % 12 + 1) as u8);
    day_number(
        year,
        month,
        day.min(civil::days_in_month(year as i16, month)),
    )
}

/// The days from the first date that jiff has to 1 January 1970.
const EPOCH: u32 = 4_371_587;
