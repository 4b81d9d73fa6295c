//! What the value of a field says, and what a stamp does.
ghost use Rattle.std.specs.Prelude.{◌≡◌, ℕ, ◌+◌, ◌-◌, ◌*◌, ◌/◌, ◌<◌, ◌≤◌, true, false, List, fold, nat_lt, if◌then◌else◌, MatchOption, min, IfOk, Some, ◌==◌, length};
ghost use Rattle.std.specs.List.{list_all};
ghost use Rattle.std.specs.Str.{bytes_eq};
ghost use Rattle.qd_ilp.specs.Cut.{begins};
ghost use Rattle.qd_ilp.specs.Value.{is_true, is_false, is_digit, are_digits, number_of, unsigned, long_digits, is_long, long_of, bare, is_stamp, moment_of, stamp};
ghost use Rattle.qd_ilp.specs.Kept.{value_in, moment_in, ValueFits};

use crate::cut::{begins_with, behind};
use qd_base::{MAX_NUMBER, MAX_TIME, Memory};
use std::alloc::AllocError;

/// Where a text lies in a batch's buffer, which has fewer than 2^32 bytes.
#[derive(Clone, Copy, Debug)]
pub(crate) struct Span {
    pub(crate) start: u32,
    pub(crate) end: u32,
}

/// A place in a buffer of a batch, where it is one below 2^32; else memory is said to be out.
pub(crate) fn place(index: usize) -> Result<u32, Memory>
    ensures place { IfOk result (λ p. p ≡ index) }
{
    match u32::try_from(index) {
        Ok(place) => Ok(place),
        Err(_) => Err(AllocError),
    }
}

/// What a batch keeps of a value.
#[derive(Clone, Copy, Debug)]
pub(crate) enum Kept {
    /// The text of a tag.
    Tag(Span),
    /// A quoted text.
    Text(Span),
    /// An integer.
    Long(i64),
    /// An integer out of range.
    Huge,
    /// A truth word.
    Truth(bool),
    /// A value of no kind that a column takes.
    Other,
}

/// The stamp of a row.
#[derive(Clone, Copy, Debug)]
pub enum When {
    /// It has none.
    Missing,
    /// Microseconds since 1970-01-01T00:00Z, at most `MAX_TIME`.
    At(u64),
    /// A moment out of range.
    Outside,
}

/// From this number on, one more digit leads past the numbers that are told apart.
const LIMIT: u64 = 1_000_000_000_000_000_000;

/// What stands for all numbers from this one on.
const CAP: u64 = 10_000_000_000_000_000_000;

/// Gives what a value says that is no quoted text. It costs time linear in the value.
#[tactic(auto, unfolding(crate::specs::Value::bare))]
pub(crate) fn bare(word: &[u8]) -> Kept
    ensures value { (bytes : List ℕ) → value_in bytes result ≡ bare word.now }
    ensures fits { (len : ℕ) → ValueFits len result }
{
    if is_true(word) {
        return Kept::Truth(true);
    }
    if is_false(word) {
        return Kept::Truth(false);
    }
    match long_number(word) {
        Some(number) => long(begins_with(word, b'-'), number),
        None => Kept::Other,
    }
}

fn is_true(word: &[u8]) -> bool
    ensures truth { result ≡ is_true word.now }
{
    is(word, b"t") || is(word, b"T") || is(word, b"true") || is(word, b"True") || is(word, b"TRUE")
}

fn is_false(word: &[u8]) -> bool
    ensures truth { result ≡ is_false word.now }
{
    is(word, b"f")
        || is(word, b"F")
        || is(word, b"false")
        || is(word, b"False")
        || is(word, b"FALSE")
}

fn is(word: &[u8], text: &[u8]) -> bool
    ensures same { result ≡ bytes_eq word.now text.now }
{
    word == text
}

/// The number of an integer without its sign, or `CAP` from there on, where the word is one.
fn long_number(word: &[u8]) -> Option<u64>
    ensures long { MatchOption result (is_long word.now ≡ false) (λ n. (is_long word.now ≡ true) × (n ≡ min CAP (number_of (long_digits word.now)))) }
{
    let body = unsigned(word);
    if body.is_empty() {
        return None;
    }
    let (digits, last) = body.split_at(body.len() - 1);
    if !begins_with(last, b'i') {
        return None;
    }
    some_number(digits)
}

/// The number that digits spell, or `CAP` from there on, where there are digits and nothing else.
#[tactic(auto, using(crate::proofs::Numbers::some_digits, crate::proofs::Numbers::no_digits))]
fn some_number(digits: &[u8]) -> Option<u64>
    ensures number { MatchOption result (are_digits digits.now ≡ false) (λ n. (are_digits digits.now ≡ true) × (n ≡ min CAP (number_of digits.now))) }
{
    if digits.is_empty() {
        return None;
    }
    number(digits)
}

/// The number that digits spell, or `CAP` from there on, where there is nothing but digits.
fn number(word: &[u8]) -> Option<u64>
    ensures number { MatchOption result (list_all is_digit word.now ≡ false) (λ n. (list_all is_digit word.now ≡ true) × (n ≡ min CAP (number_of word.now))) }
{
    let mut number = 0;
    for byte in word {
        if !is_digit(*byte) {
            return None;
        }
        number = with_digit(number, *byte);
    }
    Some(number)
}

/// The word without its sign.
fn unsigned(word: &[u8]) -> &[u8]
    ensures unsigned { result.now ≡ unsigned word.now }
{
    if begins_with(word, b'-') {
        behind(word, 1)
    } else {
        word
    }
}

fn is_digit(byte: u8) -> bool
    ensures digit { result ≡ is_digit byte }
{
    b'0' <= byte && byte <= b'9'
}

/// The number with one digit more.
fn with_digit(number: u64, digit: u8) -> u64
    requires digit { is_digit digit ≡ true }
    ensures number { result ≡ (if nat_lt number LIMIT then 10 * number + (digit - 48) else CAP) }
{
    if number < LIMIT {
        10 * number + u64::from(digit - b'0')
    } else {
        CAP
    }
}

fn long(negative: bool, number: u64) -> Kept
    ensures long { (bytes : List ℕ) → value_in bytes result ≡ long_of negative number }
    ensures fits { (len : ℕ) → ValueFits len result }
{
    if number > MAX_NUMBER {
        return Kept::Huge;
    }
    let number = number as i64;
    Kept::Long(if negative { -number } else { number })
}

/// Gives the moment of a stamp, where the word is one. It costs time linear in the word.
#[tactic(auto, unfolding(crate::specs::Value::stamp))]
pub(crate) fn stamp(word: &[u8]) -> Option<When>
    ensures stamp { MatchOption result (is_stamp word.now ≡ false) (λ when. (is_stamp word.now ≡ true) × (moment_in when ≡ Some (stamp word.now))) }
{
    let digits = unsigned(word);
    let micros = micros(digits)?;
    if begins_with(word, b'-') && !is_zero(digits) {
        return Some(When::Outside);
    }
    Some(moment(micros))
}

/// Whether digits spell 0.
fn is_zero(digits: &[u8]) -> bool
    requires digits { list_all is_digit digits.now ≡ true }
    ensures zero { result ≡ (number_of digits.now == 0) }
{
    match number(digits) {
        Some(number) => number == 0,
        None => false,
    }
}

/// The microseconds of fewer than 1,000 nanoseconds, of which there are none, where they are digits and nothing else.
#[tactic(auto, using(crate::proofs::Numbers::few_digits))]
fn few_nanos(nanos: &[u8]) -> Option<u64>
    requires few { length nanos.now < 3 }
    ensures micros { MatchOption result (are_digits nanos.now ≡ false) (λ n. (are_digits nanos.now ≡ true) × (n ≡ min CAP (number_of nanos.now / 1000))) }
{
    match some_number(nanos) {
        Some(_) => Some(0),
        None => None,
    }
}

/// The microseconds of nanoseconds, or `CAP` from there on, where they are digits and nothing else.
fn micros(nanos: &[u8]) -> Option<u64>
    ensures micros { MatchOption result (are_digits nanos.now ≡ false) (λ n. (are_digits nanos.now ≡ true) × (n ≡ min CAP (number_of nanos.now / 1000))) }
{
    if nanos.len() < 3 {
        return few_nanos(nanos);
    }
    let (front, last) = nanos.split_at(nanos.len() - 3);
    let micros = number(front)?;
    match number(last) {
        Some(_) => Some(micros),
        None => None,
    }
}

fn moment(micros: u64) -> When
    ensures moment { moment_in result ≡ Some (moment_of false (1000 * micros)) }
{
    if micros <= MAX_TIME {
        When::At(micros)
    } else {
        When::Outside
    }
}
