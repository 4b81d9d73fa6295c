//! Reads texts of moments.
ghost use Rattle.std.specs.Prelude.{◌≡◌, ℕ, ◌≤◌, ◌↔◌, Ok, Err};
ghost use Rattle.qd_time.specs.Printed.{time_text};
ghost use Rattle.qd_time.specs.Reading.{Answers, AnswersInterval, interval_of, year_at};
ghost use Rattle.qd_time.specs.Spelled.{SpellsTime, SpellsEarly, IsNoTime, SpellsInterval, SpellsOutside, IsNoInterval};

use crate::calendar::DAY;
use crate::fault::TimeFault;
use crate::reading::{Reading, read_year};
use crate::suffix::read_suffix;
use crate::units::end_of;
use qd_base::{MAX_SUFFIX_COUNT, MAX_TIME, TimeUnit};

/// The first moment that the text names, in microseconds since 1970-01-01T00:00:00Z.
///
/// The forms are those of ISO 8601's extended format, as QuestDB takes them: `2024`, `2024-01`,
/// `2024-01-31`, and after a date `T` or a blank and `23`, `23:59`, `23:59:59`, `23:59:59.999` or
/// `23:59:59.999999`, with `Z` allowed at the end where there is a time of day. All times are UTC.
///
/// [`TimeFault::Form`] where the text is of no form, or where the calendar or the clock lacks its
/// month, day, hour, minute or second; [`TimeFault::Range`] where it is of a form and in the
/// calendar, but of a year below 1970. Takes time in the length of the form and no memory.
pub fn parse_time(text: &[u8]) -> Result<u64, TimeFault>
    ensures ok { (ts : ℕ) → (result ≡ Ok ts) ↔ SpellsTime text.now ts }
    ensures range { (result ≡ Err TimeFault.Range) ↔ SpellsEarly text.now }
    ensures form { (result ≡ Err TimeFault.Form) ↔ IsNoTime text.now }

    // What is printed of a moment gives that moment back.
    ensures printed { (ts : ℕ) → ts ≤ MAX_TIME → text.now ≡ time_text ts → result ≡ Ok ts }
{
    read_whole(text)
}

/// The first and the last microsecond that the text names, both included.
///
/// The text is one that [`parse_time`] reads, and may be followed by a suffix: `;`, one or more
/// digits, and `s`, `m`, `h` or `d`. The interval is the year, month, day, hour, minute, second,
/// millisecond or microsecond of the text; a suffix moves its end that many seconds, minutes, hours
/// or days later, to [`MAX_TIME`] at most.
///
/// [`TimeFault::Form`] where the text or its suffix is of no form, or names what the calendar or the
/// clock lacks; [`TimeFault::Range`] where the text is of a form and in the calendar, but of a year
/// below 1970, or with a suffix above 1,000,000. Takes time in the length of the text and no memory.
pub fn parse_interval(text: &[u8]) -> Result<(u64, u64), TimeFault>
    ensures ok { (first last : ℕ) → (result ≡ Ok (first, last)) ↔ SpellsInterval text.now first last }
    ensures range { (result ≡ Err TimeFault.Range) ↔ SpellsOutside text.now }
    ensures form { (result ≡ Err TimeFault.Form) ↔ IsNoInterval text.now }
{
    read_interval(text)
}

/// The timestamp of a text that is read to its end.
fn read_whole(text: &[u8]) -> Result<u64, TimeFault>
    ensures { Answers (year_at text.now) result }
{
    match read_year(text) {
        Some(
            Reading {
                fields,
                rest: [],
                ..
            },
        ) => fields.timestamp(),
        _ => Err(TimeFault::Form),
    }
}

/// The interval of a text that is read to its end.
fn read_interval(text: &[u8]) -> Result<(u64, u64), TimeFault>
    ensures { AnswersInterval (year_at text.now) result }
{
    let Some(Reading { unit, fields, rest }) = read_year(text) else {
        return Err(TimeFault::Form);
    };
    let Some((count, micros)) = read_suffix(rest) else {
        return Err(TimeFault::Form);
    };
    match fields.timestamp() {
        Ok(first) => lengthen(unit, first, count, micros),
        Err(fault) => Err(fault),
    }
}

/// The interval of the unit that begins at `first`, with its end moved later.
fn lengthen(unit: TimeUnit, first: u64, count: u64, micros: u64) -> Result<(u64, u64), TimeFault>
    requires first_high { first ≤ MAX_TIME }
    requires micros_high { micros ≤ DAY }
    ensures { result ≡ interval_of unit (count, micros) (Ok first) }
{
    if count > MAX_SUFFIX_COUNT {
        return Err(TimeFault::Range);
    }
    let last = end_of(unit, first) - 1 + count * micros;
    Ok((first, last.min(MAX_TIME)))
}
