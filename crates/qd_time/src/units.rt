//! Where units of the calendar and of the clock begin.
ghost use Rattle.std.specs.Prelude.{◌≡◌, ◌+◌, ◌≤◌};
ghost use Rattle.qd_time.specs.Units.{unit_of, start_of, end_of};

use crate::calendar::{
    DAY, HOUR, MILLI, MINUTE, SECOND, first_of_month, first_of_next_month, first_of_next_year,
    first_of_year,
};
use qd_base::{MAX_TIME, PartUnit, TimeUnit};

/// The unit of a table's partitions.
pub(crate) fn unit_of(unit: PartUnit) -> TimeUnit
    ensures { result ≡ unit_of unit }
{
    match unit {
        PartUnit::Hour => TimeUnit::Hour,
        PartUnit::Day => TimeUnit::Day,
        PartUnit::Month => TimeUnit::Month,
        PartUnit::Year => TimeUnit::Year,
    }
}

/// The first microsecond of the unit that contains `ts`.
pub(crate) fn start_of(unit: TimeUnit, ts: u64) -> u64
    requires { ts ≤ MAX_TIME }
    ensures { result ≡ start_of unit ts }
{
    match unit {
        TimeUnit::Micro => ts,
        TimeUnit::Milli => ts / MILLI * MILLI,
        TimeUnit::Second => ts / SECOND * SECOND,
        TimeUnit::Minute => ts / MINUTE * MINUTE,
        TimeUnit::Hour => ts / HOUR * HOUR,
        TimeUnit::Day => ts / DAY * DAY,
        TimeUnit::Month => first_of_month(ts / DAY) * DAY,
        TimeUnit::Year => first_of_year(ts / DAY) * DAY,
    }
}

/// The first microsecond of the unit after the one that contains `ts`.
pub(crate) fn end_of(unit: TimeUnit, ts: u64) -> u64
    requires { ts ≤ MAX_TIME }
    ensures value { result ≡ end_of unit ts }
    ensures bound { result ≤ MAX_TIME + 1 }
{
    match unit {
        TimeUnit::Micro => ts + 1,
        TimeUnit::Milli => (ts / MILLI + 1) * MILLI,
        TimeUnit::Second => (ts / SECOND + 1) * SECOND,
        TimeUnit::Minute => (ts / MINUTE + 1) * MINUTE,
        TimeUnit::Hour => (ts / HOUR + 1) * HOUR,
        TimeUnit::Day => (ts / DAY + 1) * DAY,
        TimeUnit::Month => first_of_next_month(ts / DAY) * DAY,
        TimeUnit::Year => first_of_next_year(ts / DAY) * DAY,
    }
}
