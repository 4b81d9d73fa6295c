//! What stands behind the tags and fields of a line.
ghost use Rattle.std.specs.Prelude.{◌≡◌, ◌≤◌, ◌+◌, ◌<◌, drop, length, None, Some, IfSome, IfNone, MatchOption, option_map};
ghost use Rattle.qd_ilp.specs.Line.{after_spaces, behind_end, stamp_at, tail_at, to_end};
ghost use Rattle.qd_ilp.specs.Value.{begins_numeral};
ghost use Rattle.qd_ilp.specs.Kept.{moment_in};

use crate::cut::{at_end, behind, ends_at, is_at, split_word};
use crate::value::{When, stamp};

/// What stands behind the tags and fields of a line.
#[derive(Clone, Copy, Debug)]
pub(crate) struct Tail {
    /// The stamp, or that there is none.
    pub(crate) when: When,
    /// The place behind the line's end.
    pub(crate) next: usize,
}

/// The place behind spaces, of which there may be none. It costs time linear in them.
#[tactic(auto, using(crate::proofs::Places::drop_on))]
pub(crate) fn after_spaces(text: &[u8], at: usize) -> usize
    requires within { at ≤ length text.now }
    ensures rest { drop result text.now ≡ after_spaces (drop at text.now) }
    ensures onward { at ≤ result }
    ensures inside { result ≤ length text.now }
{
    at + leading_spaces(behind(text, at))
}

/// How many spaces a text begins with.
fn leading_spaces(text: &[u8]) -> usize
    ensures rest { drop result text.now ≡ after_spaces text.now }
    ensures within { result ≤ length text.now }
{
    for (i, byte) in text.iter().enumerate() {
        if *byte != b' ' {
            return i;
        }
    }
    text.len()
}

/// The place behind the end of a line, where one stands.
#[tactic(auto, using(crate::proofs::Places::drop_on))]
pub(crate) fn behind_end(text: &[u8], at: usize) -> Option<usize>
    requires within { at ≤ length text.now }
    ensures end { option_map (λ next. drop next text.now) result ≡ behind_end (drop at text.now) }
    ensures onward { IfSome result (λ next. at ≤ next) }
    ensures inside { IfSome result (λ next. next ≤ length text.now) }
    ensures line { IfSome result (λ next. at < length text.now → at < next) }
{
    match end_bytes(behind(text, at)) {
        Some(count) => Some(at + count),
        None => None,
    }
}

/// How many bytes end a line here, where it ends.
fn end_bytes(text: &[u8]) -> Option<usize>
    ensures end { option_map (λ n. drop n text.now) result ≡ behind_end text.now }
    ensures within { IfSome result (λ n. n ≤ length text.now) }
    ensures line { IfSome result (λ n. 0 < length text.now → 0 < n) }
{
    match text {
        [] => Some(0),
        [b'\n', ..] => Some(1),
        [b'\r', b'\n', ..] => Some(2),
        _ => None,
    }
}

/// Whether the text begins with a digit or a minus sign.
fn begins_numeral(text: &[u8]) -> bool
    ensures numeral { result ≡ begins_numeral text.now }
{
    match text {
        [] => false,
        [byte, ..] => *byte == b'-' || (b'0' <= *byte && *byte <= b'9'),
    }
}

/// Reads a stamp, spaces and the end of a line.
#[tactic(auto, unfolding(crate::specs::Line::stamp_at), using(crate::proofs::Numerals::no_stamp_here))]
fn stamp_at(text: &[u8], at: usize) -> Option<Tail>
    requires within { at ≤ length text.now }
    ensures tail { option_map (λ tail. (moment_in tail.when, drop tail.next text.now)) result ≡ stamp_at (drop at text.now) }
    ensures onward { IfSome result (λ tail. at ≤ tail.next) }
    ensures inside { IfSome result (λ tail. tail.next ≤ length text.now) }
{
    if !begins_numeral(behind(text, at)) {
        return None;
    }
    let (word, end) = split_word(text, at);
    let when = stamp(word)?;
    let next = behind_end(text, after_spaces(text, end))?;
    Some(Tail { when, next })
}

/// Reads spaces and a stamp, or neither, and the end of a line.
#[tactic(auto, unfolding(crate::specs::Line::tail_at))]
pub(crate) fn tail_at(text: &[u8], at: usize) -> Option<Tail>
    requires within { at ≤ length text.now }
    ensures tail { option_map (λ tail. (moment_in tail.when, drop tail.next text.now)) result ≡ tail_at (drop at text.now) }
    ensures onward { IfSome result (λ tail. at ≤ tail.next) }
    ensures inside { IfSome result (λ tail. tail.next ≤ length text.now) }
{
    let end = after_spaces(text, at);
    if ends_at(text, end) {
        let next = behind_end(text, end)?;
        return Some(Tail {
            when: When::Missing,
            next,
        });
    }
    if is_at(text, at, b' ') {
        stamp_at(text, end)
    } else {
        None
    }
}

/// The place where this line ends. It costs time linear in what it goes over.
#[tactic(auto, using(crate::proofs::Places::drop_on))]
pub(crate) fn to_end(text: &[u8], at: usize) -> usize
    requires within { at ≤ length text.now }
    ensures rest { drop result text.now ≡ to_end (drop at text.now) }
    ensures onward { at ≤ result }
    ensures inside { result ≤ length text.now }
{
    at + line_bytes(behind(text, at))
}

/// How many bytes stand before the end of this line.
fn line_bytes(text: &[u8]) -> usize
    ensures rest { drop result text.now ≡ to_end text.now }
    ensures within { result ≤ length text.now }
{
    for i in 0..text.len() {
        if at_end(behind(text, i)) {
            return i;
        }
    }
    text.len()
}
