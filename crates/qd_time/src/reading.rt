//! Reads the text of a moment from its left, as far as it goes.
ghost use Rattle.std.specs.Prelude.{◌≡◌, ◌<◌, ◌^◌, IfSome};
ghost use Rattle.qd_time.specs.Fields.{civil_fields};
ghost use Rattle.qd_time.specs.Reading.{Gives, seen, seen_number, digit_at, two_at, three_at, four_at, fraction_at, second_at, minute_at, hour_at, day_at, month_at, year_at, after_zone};

use crate::fields::Fields;
use qd_base::TimeUnit;

/// A moment that a text begins with, the unit as far as which the text spells it, and the bytes
/// after it.
#[derive(Clone, Copy)]
pub(crate) struct Reading<'a> {
    pub(crate) unit: TimeUnit,
    pub(crate) fields: Fields,
    pub(crate) rest: &'a [u8],
}

/// The moment that the text begins with.
#[tactic(auto, unfolding(crate::specs::Reading::year_at))]
pub(crate) fn read_year(text: &[u8]) -> Option<Reading<'_>>
    ensures { Gives seen result (year_at text.now) }
{
    let (year, rest) = four_digits(text)?;
    let fields = Fields {
        year,
        month: 1,
        day: 1,
        hour: 0,
        minute: 0,
        second: 0,
        micro: 0,
    };
    match rest {
        [b'-', rest @ ..] => read_month(fields, rest),
        _ => Some(Reading {
            unit: TimeUnit::Year,
            fields,
            rest,
        }),
    }
}

/// One decimal digit, and the bytes after it.
#[tactic(auto, unfolding(crate::specs::Reading::digit_at))]
pub(crate) fn digit(text: &[u8]) -> Option<(u8, &[u8])>
    ensures value { Gives seen_number result (digit_at text.now) }
    ensures bound { IfSome result (λ x. x.0 < 10) }
{
    match text {
        [byte @ b'0'..=b'9', rest @ ..] => Some((*byte - b'0', rest)),
        _ => None,
    }
}

/// A month, and what follows it.
#[tactic(auto, unfolding(crate::specs::Reading::month_at))]
fn read_month(fields: Fields, text: &[u8]) -> Option<Reading<'_>>
    ensures { Gives seen result (month_at (civil_fields fields) text.now) }
{
    let (month, rest) = two_digits(text)?;
    let fields = Fields { month, ..fields };
    match rest {
        [b'-', rest @ ..] => read_day(fields, rest),
        _ => Some(Reading {
            unit: TimeUnit::Month,
            fields,
            rest,
        }),
    }
}

/// A day, and what follows it.
#[tactic(auto, unfolding(crate::specs::Reading::day_at))]
fn read_day(fields: Fields, text: &[u8]) -> Option<Reading<'_>>
    ensures { Gives seen result (day_at (civil_fields fields) text.now) }
{
    let (day, rest) = two_digits(text)?;
    let fields = Fields { day, ..fields };
    match rest {
        [b'T' | b' ', rest @ ..] => read_hour(fields, rest),
        _ => Some(Reading {
            unit: TimeUnit::Day,
            fields,
            rest,
        }),
    }
}

/// An hour, and what follows it.
#[tactic(auto, unfolding(crate::specs::Reading::hour_at))]
fn read_hour(fields: Fields, text: &[u8]) -> Option<Reading<'_>>
    ensures { Gives seen result (hour_at (civil_fields fields) text.now) }
{
    let (hour, rest) = two_digits(text)?;
    let fields = Fields { hour, ..fields };
    match rest {
        [b':', rest @ ..] => read_minute(fields, rest),
        _ => Some(Reading {
            unit: TimeUnit::Hour,
            fields,
            rest: skip_zone(rest),
        }),
    }
}

/// A minute, and what follows it.
#[tactic(auto, unfolding(crate::specs::Reading::minute_at))]
fn read_minute(fields: Fields, text: &[u8]) -> Option<Reading<'_>>
    ensures { Gives seen result (minute_at (civil_fields fields) text.now) }
{
    let (minute, rest) = two_digits(text)?;
    let fields = Fields { minute, ..fields };
    match rest {
        [b':', rest @ ..] => read_second(fields, rest),
        _ => Some(Reading {
            unit: TimeUnit::Minute,
            fields,
            rest: skip_zone(rest),
        }),
    }
}

/// A second, and what follows it.
#[tactic(auto, unfolding(crate::specs::Reading::second_at))]
fn read_second(fields: Fields, text: &[u8]) -> Option<Reading<'_>>
    ensures { Gives seen result (second_at (civil_fields fields) text.now) }
{
    let (second, rest) = two_digits(text)?;
    let fields = Fields { second, ..fields };
    match rest {
        [b'.', rest @ ..] => read_fraction(fields, rest),
        _ => Some(Reading {
            unit: TimeUnit::Second,
            fields,
            rest: skip_zone(rest),
        }),
    }
}

/// A fraction of a second, of three digits or of six.
#[tactic(auto, unfolding(crate::specs::Reading::fraction_at))]
fn read_fraction(fields: Fields, text: &[u8]) -> Option<Reading<'_>>
    ensures { Gives seen result (fraction_at (civil_fields fields) text.now) }
{
    let (milli, rest) = three_digits(text)?;
    let micro = milli as u32 * 1000;
    match three_digits(rest) {
        None => Some(Reading {
            unit: TimeUnit::Milli,
            fields: Fields { micro, ..fields },
            rest: skip_zone(rest),
        }),
        Some((low, rest)) => Some(Reading {
            unit: TimeUnit::Micro,
            fields: Fields {
                micro: micro + low as u32,
                ..fields
            },
            rest: skip_zone(rest),
        }),
    }
}

/// The bytes after a `Z`, if there is one.
fn skip_zone(text: &[u8]) -> &[u8]
    ensures { result.now ≡ after_zone text.now }
{
    match text {
        [b'Z', rest @ ..] => rest,
        _ => text,
    }
}

/// A number of four digits, and the bytes after it.
#[tactic(auto, unfolding(crate::specs::Reading::four_at))]
fn four_digits(text: &[u8]) -> Option<(u16, &[u8])>
    ensures value { Gives seen_number result (four_at text.now) }
    ensures bound { IfSome result (λ x. x.0 < 10 ^ 4) }
{
    let (high, rest) = two_digits(text)?;
    let (low, rest) = two_digits(rest)?;
    Some((100 * high as u16 + low as u16, rest))
}

/// A number of three digits, and the bytes after it.
#[tactic(auto, unfolding(crate::specs::Reading::three_at))]
fn three_digits(text: &[u8]) -> Option<(u16, &[u8])>
    ensures value { Gives seen_number result (three_at text.now) }
    ensures bound { IfSome result (λ x. x.0 < 10 ^ 3) }
{
    let (high, rest) = digit(text)?;
    let (low, rest) = two_digits(rest)?;
    Some((100 * high as u16 + low as u16, rest))
}

/// A number of two digits, and the bytes after it.
#[tactic(auto, unfolding(crate::specs::Reading::two_at))]
fn two_digits(text: &[u8]) -> Option<(u8, &[u8])>
    ensures value { Gives seen_number result (two_at text.now) }
    ensures bound { IfSome result (λ x. x.0 < 10 ^ 2) }
{
    let (high, rest) = digit(text)?;
    let (low, rest) = digit(rest)?;
    Some((10 * high + low, rest))
}
