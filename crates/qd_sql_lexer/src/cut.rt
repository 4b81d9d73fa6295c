//! Cuts a text into its tokens.
ghost use Rattle.std.specs.Prelude.{◌≡◌, ◌≢◌, ◌+◌, ◌-◌, ◌^◌, ◌<◌, ◌≤◌, [], ◌++◌, length, map, IfOk, OnOk, IfSome, true, false, slice_index};
ghost use Rattle.qd_sql_lexer.specs.Tokens as spec;

use crate::token::{Kind, Token};
use qd_base::Memory;
use std::alloc::Global;

/// A class of bytes.
#[derive(Clone, Copy, Debug)]
enum Class {
    /// Letters, digits and `_`.
    Word,
    /// Digits.
    Digit,
    /// All but a double quote.
    Name,
    /// All but LF.
    Line,
}

/// What stands at the front of a text: a token, or where there is no kind a blank or a comment.
#[derive(Clone, Copy, Debug)]
struct Cut<'a> {
    kind: Option<Kind>,
    len: usize,
    content: &'a [u8],
}

/// Gives the tokens of a text, from left to right, with nothing left out but blanks and comments. A bad token is the
/// last one.
///
/// It costs time linear in the text, and memory for the tokens, 48 bytes each.
pub fn tokens<'a>(alloc: Global, text: &'a [u8]) -> Result<Vec<Token<'a>>, Memory>
    ensures { IfOk result (λ found. map spec.seen found.items ≡ spec.tokens text.now) }
{
    let mut found = Vec::new(alloc);
    let mut at = 0;
    while at < text.len() {
        let cut = cut_at(&text[at..]);
        push(&mut found, at, cut)?;
        at += cut.len;
    }
    Ok(found)
}

/// Adds the token that stands at an offset, where it is one.
fn push<'a>(found: &mut Vec<Token<'a>>, at: usize, cut: Cut<'a>) -> Result<(), Memory>
    requires { at + cut.len < 2 ^ 64 }
    ensures ok { OnOk result (map spec.seen found.new.items ≡ map spec.seen found.old.items ++ spec.with_piece at (spec.seen_cut cut.entry) []) }
{
    if let Some(kind) = cut.kind {
        found.push(Token {
            kind,
            at: at as u64,
            end: (at + cut.len) as u64,
            content: cut.content,
        })?;
    }
    Ok(())
}

/// What stands at the front of a text.
#[tactic(auto, unfolding(crate::specs::Tokens::cut_at))]
fn cut_at(text: &[u8]) -> Cut<'_>
    requires { 0 < length text.now }
    ensures value { spec.seen_cut result ≡ spec.cut_at text.now }
    ensures within { (1 ≤ result.len) × (result.len ≤ length text.now) }
{
    let first = text[0];
    if first.is_ascii_alphabetic() || first == b'_' {
        word(text)
    } else if first.is_ascii_digit() {
        digits(text)
    } else if is_blank(first) {
        gap(1)
    } else {
        mark(text)
    }
}

/// A token of these bytes at the front.
fn token(text: &[u8], kind: Kind, len: usize) -> Cut<'_>
    requires { len ≤ length text.now }
    ensures value { spec.seen_cut result ≡ spec.token text.now kind len }
    ensures len { result.len ≡ len }
{
    Cut {
        kind: Some(kind),
        len,
        content: &text[..len],
    }
}

/// A blank or a comment of so many bytes.
fn gap<'a>(len: usize) -> Cut<'a>
    ensures value { spec.seen_cut result ≡ spec.gap len }
    ensures len { result.len ≡ len }
{
    Cut {
        kind: None,
        len,
        content: &[],
    }
}

/// The bad token, of all that is left.
fn bad(text: &[u8]) -> Cut<'_>
    ensures value { spec.seen_cut result ≡ spec.bad text.now }
    ensures len { result.len ≡ length text.now }
{
    token(text, Kind::Bad, text.len())
}

fn is_blank(byte: u8) -> bool
    ensures { result ≡ spec.is_blank byte }
{
    byte == b' ' || byte == b'\t' || byte == b'\r' || byte == b'\n'
}

/// Whether a byte is of a class.
fn is_in(class: Class, byte: u8) -> bool
    ensures { result ≡ spec.is_in class byte }
{
    match class {
        Class::Word => byte.is_ascii_alphanumeric() || byte == b'_',
        Class::Digit => byte.is_ascii_digit(),
        Class::Name => byte != b'"',
        Class::Line => byte != b'\n',
    }
}

/// How many bytes of a class a text begins with.
fn run(class: Class, text: &[u8]) -> usize
    ensures value { result ≡ spec.run class text.now }
    ensures within { result ≤ length text.now }
{
    for (at, byte) in text.iter().enumerate() {
        if !is_in(class, *byte) {
            return at;
        }
    }
    text.len()
}

/// The word at the front.
#[tactic(auto, unfolding(crate::specs::Tokens::word))]
fn word(text: &[u8]) -> Cut<'_>
    requires some { 0 < length text.now }
    requires first { spec.is_in Class.Word (slice_index text.now 0) ≡ true }
    ensures value { spec.seen_cut result ≡ spec.word text.now }
    ensures within { (1 ≤ result.len) × (result.len ≤ length text.now) }
{
    token(text, Kind::Word, run(Class::Word, text))
}

/// The number or stride at the front.
#[tactic(auto, unfolding(crate::specs::Tokens::digits))]
fn digits(text: &[u8]) -> Cut<'_>
    requires some { 0 < length text.now }
    requires first { spec.is_in Class.Digit (slice_index text.now 0) ≡ true }
    ensures value { spec.seen_cut result ≡ spec.digits text.now }
    ensures within { (1 ≤ result.len) × (result.len ≤ length text.now) }
{
    let count = run(Class::Digit, text);
    let whole = run(Class::Word, text);
    if whole == count {
        token(text, Kind::Number, count)
    } else if whole == count + 1 && count < text.len() && is_unit(text[count]) {
        token(text, Kind::Stride, whole)
    } else {
        bad(text)
    }
}

/// Whether a byte is the letter of a unit of time.
fn is_unit(byte: u8) -> bool
    ensures { result ≡ spec.is_unit byte }
{
    matches!(byte, b'U' | b'T' | b's' | b'm' | b'h' | b'd' | b'M' | b'y')
}

/// What begins with no letter, digit or blank.
#[tactic(auto, unfolding(crate::specs::Tokens::mark))]
fn mark(text: &[u8]) -> Cut<'_>
    requires { 0 < length text.now }
    ensures value { spec.seen_cut result ≡ spec.mark text.now }
    ensures within { (1 ≤ result.len) × (result.len ≤ length text.now) }
{
    match text {
        [b'"', rest @ ..] => quoted(text, rest),
        [b'\'', rest @ ..] => quote(text, rest),
        [b'-', b'-', rest @ ..] => gap(2 + comment(rest)),
        _ => sign(text),
    }
}

/// The name in quotes at the front.
#[tactic(auto, unfolding(crate::specs::Tokens::quoted))]
fn quoted<'a>(text: &'a [u8], rest: &'a [u8]) -> Cut<'a>
    requires { length text.now ≡ length rest.now + 1 }
    ensures value { spec.seen_cut result ≡ spec.quoted text.now rest.now }
    ensures within { (1 ≤ result.len) × (result.len ≤ length text.now) }
{
    let count = run(Class::Name, rest);
    if 0 < count && count < rest.len() && is_text(&rest[..count]) {
        Cut {
            kind: Some(Kind::Quoted),
            len: count + 2,
            content: &rest[..count],
        }
    } else {
        bad(text)
    }
}

/// The text in quotes at the front.
#[tactic(auto, unfolding(crate::specs::Tokens::quote))]
fn quote<'a>(text: &'a [u8], rest: &'a [u8]) -> Cut<'a>
    requires { length text.now ≡ length rest.now + 1 }
    ensures value { spec.seen_cut result ≡ spec.quote text.now rest.now }
    ensures within { (1 ≤ result.len) × (result.len ≤ length text.now) }
{
    match closing(rest) {
        Some(count) if is_text(&rest[..count]) => Cut {
            kind: Some(Kind::Text),
            len: count + 2,
            content: &rest[..count],
        },
        _ => bad(text),
    }
}

/// How many bytes stand before the quote that closes a text.
#[tactic(auto, unfolding(crate::specs::Tokens::closing))]
fn closing(mut text: &[u8]) -> Option<usize>
    ensures value { result ≡ spec.closing false 0 text.entry.now }
    ensures within { IfSome result (λ count. count < length text.entry.now) }
{
    let mut is_second = false;
    let mut count = 0;
    while let [byte, rest @ ..] = text {
        if !is_second && *byte == b'\'' && first(rest) != b'\'' {
            return Some(count);
        }
        is_second = !is_second && *byte == b'\'';
        count += 1;
        text = rest;
    }
    None
}

/// The first byte, or 0 where there is none.
fn first(bytes: &[u8]) -> u8
    ensures { result ≡ slice_index bytes.now 0 }
{
    if bytes.is_empty() { 0 } else { bytes[0] }
}

/// Whether bytes are UTF-8.
fn is_text(bytes: &[u8]) -> bool
    ensures { result ≡ spec.is_text bytes.now }
{
    match std::str::from_utf8(bytes) {
        Ok(_) => true,
        Err(_) => false,
    }
}

/// How many bytes of a comment are UTF-8, up to the line's end.
#[tactic(auto, unfolding(crate::specs::Tokens::comment))]
fn comment(text: &[u8]) -> usize
    ensures value { result ≡ spec.comment text.now }
    ensures within { result ≤ length text.now }
{
    let line = &text[..run(Class::Line, text)];
    match std::str::from_utf8(line) {
        Ok(_) => line.len(),
        Err(fault) => fault.valid_up_to(),
    }
}

/// The sign at the front.
#[tactic(auto, unfolding(crate::specs::Tokens::sign))]
fn sign(text: &[u8]) -> Cut<'_>
    requires { 0 < length text.now }
    ensures value { spec.seen_cut result ≡ spec.sign text.now }
    ensures within { (1 ≤ result.len) × (result.len ≤ length text.now) }
{
    match text {
        [b'!', b'=', ..] => token(text, Kind::NotEqual, 2),
        [b'<', b'>', ..] => token(text, Kind::NotEqual, 2),
        [b'<', b'=', ..] => token(text, Kind::LessEqual, 2),
        [b'>', b'=', ..] => token(text, Kind::GreaterEqual, 2),
        _ => match short_sign(text[0]) {
            Some(kind) => token(text, kind, 1),
            None => bad(text),
        },
    }
}

/// The sign of one byte.
fn short_sign(byte: u8) -> Option<Kind>
    ensures { result ≡ spec.short_sign byte }
{
    match byte {
        b'(' => Some(Kind::Open),
        b')' => Some(Kind::Close),
        b',' => Some(Kind::Comma),
        b';' => Some(Kind::Semicolon),
        b'.' => Some(Kind::Dot),
        b'*' => Some(Kind::Star),
        b'+' => Some(Kind::Plus),
        b'-' => Some(Kind::Minus),
        b'/' => Some(Kind::Slash),
        b'%' => Some(Kind::Percent),
        b'=' => Some(Kind::Equal),
        b'<' => Some(Kind::Less),
        b'>' => Some(Kind::Greater),
        _ => None,
    }
}
