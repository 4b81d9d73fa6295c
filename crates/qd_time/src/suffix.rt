//! Reads the suffix of an interval's text.
ghost use Rattle.std.specs.Prelude.{◌≡◌, ◌≤◌, IfSome};
ghost use Rattle.qd_time.specs.Reading.{suffix_at, later_at, count_at, letter_at, span_at};

use crate::calendar::{DAY, HOUR, MINUTE, SECOND};
use crate::reading::digit;
use qd_base::MAX_SUFFIX_COUNT;

/// How many of what a suffix moves an end later, and nothing where there is no suffix. A count above
/// 1,000,000 is 1,000,001.
pub(crate) fn read_suffix(text: &[u8]) -> Option<(u64, u64)>
    ensures value { result ≡ suffix_at text.now }
    ensures bound { IfSome result (λ later. later.1 ≤ DAY) }
{
    match text {
        [] => Some((0, 0)),
        [b';', rest @ ..] => read_later(rest),
        _ => None,
    }
}

/// A suffix after its `;`.
fn read_later(text: &[u8]) -> Option<(u64, u64)>
    ensures value { result ≡ later_at text.now }
    ensures bound { IfSome result (λ later. later.1 ≤ DAY) }
{
    match text {
        [b'0'..=b'9', ..] => read_count(text),
        _ => None,
    }
}

/// Digits and a letter.
fn read_count(text: &[u8]) -> Option<(u64, u64)>
    ensures value { result ≡ count_at 0 text.now }
    ensures bound { IfSome result (λ later. later.1 ≤ DAY) }
{
    let mut count = 0;
    let mut rest = text;
    while let Some((low, tail)) = digit(rest) {
        count = (10 * count + low as u64).min(MAX_SUFFIX_COUNT + 1);
        rest = tail;
    }
    read_letter(count, rest)
}

/// A letter, and nothing after it.
fn read_letter(count: u64, text: &[u8]) -> Option<(u64, u64)>
    ensures value { result ≡ letter_at count text.now }
    ensures bound { IfSome result (λ later. later.1 ≤ DAY) }
{
    let [letter] = text else { return None };
    Some((count, span(*letter)?))
}

/// The microseconds of what a letter counts.
fn span(letter: u8) -> Option<u64>
    ensures value { result ≡ span_at letter }
    ensures bound { IfSome result (λ micros. micros ≤ DAY) }
{
    match letter {
        b's' => Some(SECOND),
        b'm' => Some(MINUTE),
        b'h' => Some(HOUR),
        b'd' => Some(DAY),
        _ => None,
    }
}
