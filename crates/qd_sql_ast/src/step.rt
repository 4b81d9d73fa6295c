//! The steps that each rule is made of.
ghost use Rattle.std.specs.Prelude.{◌≡◌, ◌+◌, ◌<◌, ◌≤◌, length, map};
ghost use Rattle.qd_sql_ast.specs.Steps as spec;
ghost use Rattle.qd_sql_ast.specs.Steps.{Reads, Takes};

use crate::range::{Magnitude, StrideCount};
use crate::stop::{Halt, Stop};
use crate::tree::{Name, Number, StrideOf, Text};
use qd_base::{MAX_NUMBER, Memory, TimeUnit, Txt, same_name};
use qd_sql_lexer::{Kind, Token};
use std::alloc::Global;
use std::marker::Model;

/// The words that are no bare names.
const RESERVED: [(&[u8],); 32] = [
    (b"ALIGN",),
    (b"AND",),
    (b"AS",),
    (b"ASC",),
    (b"ASOF",),
    (b"BY",),
    (b"CREATE",),
    (b"DESC",),
    (b"FALSE",),
    (b"FILL",),
    (b"FROM",),
    (b"IN",),
    (b"INSERT",),
    (b"INTO",),
    (b"IS",),
    (b"JOIN",),
    (b"LATEST",),
    (b"LIMIT",),
    (b"LT",),
    (b"NOT",),
    (b"NULL",),
    (b"ON",),
    (b"OR",),
    (b"ORDER",),
    (b"PARTITION",),
    (b"SAMPLE",),
    (b"SELECT",),
    (b"SHOW",),
    (b"TABLE",),
    (b"TRUE",),
    (b"VALUES",),
    (b"WHERE",),
];

/// The tokens that are still to be read. Contracts see it as the list of them.
///
/// A call costs constant time, and beyond that only the bytes of the one token that it takes or compares. A call that
/// answers `Err` ends the reading: what is left then isn't said.
#[derive(Drop)]
pub struct Cursor<'t, 'a> {
    left: &'t [Token<'a>],
}

impl<'t, 'a> Model for Cursor<'t, 'a> {
    ghost use Rattle.std.specs.Prelude.{List, map};
    ghost use Rattle.qd_sql_lexer.specs.Tokens.{Lexeme, seen};

    ghost Value = { List Lexeme };

    ghost view = { λ c. map seen c.left.now };
}

impl<'t, 'a> Cursor<'t, 'a> {
    /// Begins to read tokens, from the first one on.
    pub fn new(tokens: &'t [Token<'a>]) -> Cursor<'t, 'a>
        ensures { result ≡ spec.lexemes tokens.now }
    {
        Cursor { left: tokens }
    }

    /// How many tokens are left.
    pub fn len(&self) -> usize
        ensures { result ≡ length self.now }
    {
        self.left.len()
    }

    /// Says that no text goes on with these tokens: the offset of the first, or none at the end.
    #[tactic(auto, unfolding(crate::specs::Steps::stuck))]
    pub fn stuck(&self) -> Stop
        ensures { result ≡ Stop.Halted (spec.stuck self.now) }
    {
        match self.left {
            [first, ..] => Stop::Halted(Halt::At(Some(first.at))),
            [] => Stop::Halted(Halt::At(None)),
        }
    }

    /// Takes a sign, where it comes next, and gives its offset.
    #[tactic(auto, unfolding(crate::specs::Steps::sign))]
    pub fn sign(&mut self, kind: Kind) -> Option<u64>
        ensures { Takes result (spec.sign kind self.old) self.old self.new }
    {
        match self.left {
            [first, rest @ ..] if same_kind(first.kind, kind) => {
                self.left = rest;
                Some(first.at)
            }
            _ => None,
        }
    }

    /// Takes a word, which is given in capitals or small letters, where it comes next, and gives its offset.
    #[tactic(auto, unfolding(crate::specs::Steps::word))]
    pub fn word(&mut self, word: &[u8]) -> Option<u64>
        ensures { Takes result (spec.word word.now self.old) self.old self.new }
    {
        match self.left {
            [first, rest @ ..] if is_word(first, word) => {
                self.left = rest;
                Some(first.at)
            }
            _ => None,
        }
    }

    /// Takes a word that may stand or not, and gives its offset.
    #[tactic(auto, unfolding(crate::specs::Steps::may))]
    pub fn may(&mut self, word: &[u8]) -> Option<u64>
        ensures at { result ≡ (spec.may word.now self.old).0 }
        ensures left { self.new ≡ (spec.may word.now self.old).1 }
    {
        self.word(word)
    }

    /// Takes a word and a bracket behind it, where both come next, and gives the word's offset.
    #[tactic(auto, unfolding(crate::specs::Steps::call))]
    pub fn call(&mut self, word: &[u8]) -> Option<u64>
        ensures { Takes result (spec.call word.now self.old) self.old self.new }
    {
        match self.left {
            [first, second, rest @ ..]
                if is_word(first, word) && same_kind(second.kind, Kind::Open) => {
                self.left = rest;
                Some(first.at)
            }
            _ => None,
        }
    }

    /// Takes two words, one behind the other, where both come next, and gives the first one's offset.
    #[tactic(auto, unfolding(crate::specs::Steps::two_words))]
    pub fn two_words(&mut self, one: &[u8], other: &[u8]) -> Option<u64>
        ensures { Takes result (spec.two_words one.now other.now self.old) self.old self.new }
    {
        match self.left {
            [first, second, rest @ ..] if is_word(first, one) && is_word(second, other) => {
                self.left = rest;
                Some(first.at)
            }
            _ => None,
        }
    }

    /// Whether a name comes next.
    #[tactic(auto, unfolding(crate::specs::Steps::sees_name))]
    pub fn sees_name(&self) -> bool
        ensures { result ≡ spec.sees_name self.now }
    {
        match self.left {
            [first, ..] => is_name(first),
            [] => false,
        }
    }

    /// Reads a stride. Where its count is out of range, the tree has the nearest one in it.
    #[tactic(auto, unfolding(crate::specs::Steps::stride))]
    pub fn stride(&mut self) -> Result<StrideOf, Stop>
        ensures { Reads (spec.stride self.old) result self.new }
    {
        match self.left {
            [first, rest @ ..] if same_kind(first.kind, Kind::Stride) => {
                self.left = rest;
                Ok(StrideOf {
                    at: first.at,
                    count: StrideCount::nearest(stride_count(first.content)),
                    unit: stride_unit(first.content),
                })
            }
            _ => Err(self.stuck()),
        }
    }

    /// Takes a sign that must come next, and gives its offset.
    #[tactic(auto, unfolding(crate::specs::Steps::want))]
    pub fn want(&mut self, kind: Kind) -> Result<u64, Stop>
        ensures { Reads (spec.want kind self.old) result self.new }
    {
        match self.sign(kind) {
            Some(at) => Ok(at),
            None => Err(self.stuck()),
        }
    }

    /// Takes a word that must come next, and gives its offset.
    #[tactic(auto, unfolding(crate::specs::Steps::want_word))]
    pub fn want_word(&mut self, word: &[u8]) -> Result<u64, Stop>
        ensures { Reads (spec.want_word word.now self.old) result self.new }
    {
        match self.word(word) {
            Some(at) => Ok(at),
            None => Err(self.stuck()),
        }
    }

    /// Reads a name: a word that isn't reserved, or what stands in double quotes. It takes memory for its bytes.
    #[tactic(auto, unfolding(crate::specs::Steps::name))]
    pub fn name(&mut self, alloc: Global) -> Result<Name, Stop>
        ensures { Reads (spec.name self.old) result self.new }
    {
        match self.left {
            [first, rest @ ..] if is_name(first) => {
                let text = Txt::from_bytes(alloc, first.content)?;
                self.left = rest;
                Ok(Name { at: first.at, text })
            }
            _ => Err(self.stuck()),
        }
    }

    /// Reads a number without a sign. Where it is above 9223372036854775807, the tree has that one.
    #[tactic(auto, unfolding(crate::specs::Steps::number))]
    pub fn number(&mut self) -> Result<Number, Stop>
        ensures { Reads (spec.number self.old) result self.new }
    {
        match self.left {
            [first, rest @ ..] if same_kind(first.kind, Kind::Number) => {
                self.left = rest;
                Ok(Number {
                    at: first.at,
                    value: Magnitude::at_most(number_of(first.content)),
                })
            }
            _ => Err(self.stuck()),
        }
    }

    /// Reads a text, with one quote for each two. It takes memory for its bytes.
    #[tactic(auto, unfolding(crate::specs::Steps::text))]
    pub fn text(&mut self, alloc: Global) -> Result<Text, Stop>
        ensures { Reads (spec.text self.old) result self.new }
    {
        match self.left {
            [first, rest @ ..] if same_kind(first.kind, Kind::Text) => {
                let text = unquoted(alloc, first.content)?;
                self.left = rest;
                Ok(Text { at: first.at, text })
            }
            _ => Err(self.stuck()),
        }
    }

    /// Says that nothing may be left.
    #[tactic(auto, unfolding(crate::specs::Steps::end))]
    pub fn end(&mut self) -> Result<(), Stop>
        ensures { Reads (spec.end self.old) result self.new }
    {
        match self.left {
            [] => Ok(()),
            _ => Err(self.stuck()),
        }
    }

    /// Whether a token of this kind comes next.
    #[tactic(auto, unfolding(crate::specs::Steps::sees))]
    pub fn sees(&self, kind: Kind) -> bool
        ensures { result ≡ spec.sees kind self.now }
    {
        match self.left {
            [first, ..] => same_kind(first.kind, kind),
            [] => false,
        }
    }
}

/// Says whether two kinds are one.
#[tactic(auto, unfolding(crate::specs::Steps::same_kind))]
pub fn same_kind(a: Kind, b: Kind) -> bool
    ensures { result ≡ spec.same_kind a b }
{
    a == b
}

/// Says whether a token is this word, ASCII case aside. A name in quotes is no word.
#[tactic(auto, unfolding(crate::specs::Steps::is_word))]
pub fn is_word(token: &Token<'_>, word: &[u8]) -> bool
    ensures { result ≡ spec.is_word word.now (spec.seen token.now) }
{
    same_kind(token.kind, Kind::Word) && same_name(token.content, word)
}

/// Whether a word is no bare name.
#[tactic(auto, unfolding(crate::specs::Steps::is_reserved))]
fn is_reserved(content: &[u8]) -> bool
    ensures { result ≡ spec.is_reserved content.now }
{
    is_among(&RESERVED, content)
}

/// Whether a word is one of these, ASCII case aside.
fn is_among(mut words: &[(&[u8],)], content: &[u8]) -> bool
    ensures { result ≡ spec.is_among (map (λ w. w.0.now) words.entry.now) content.now }
{
    while let [word, rest @ ..] = words {
        if same_name(content, word.0) {
            return true;
        }
        words = rest;
    }
    false
}

/// Whether a token is a name.
#[tactic(auto, unfolding(crate::specs::Steps::is_name))]
fn is_name(token: &Token<'_>) -> bool
    ensures { result ≡ spec.is_name (spec.seen token.now) }
{
    same_kind(token.kind, Kind::Quoted)
        || (same_kind(token.kind, Kind::Word) && !is_reserved(token.content))
}

/// Gives the value of digits, or one more than `MAX_NUMBER` where it is above. Leading zeros don't count.
pub fn number_of(digits: &[u8]) -> u64
    ensures value { result ≡ spec.number_of digits.now }
    ensures bound { result ≤ MAX_NUMBER + 1 }
{
    let mut value: u64 = 0;
    for digit in digits {
        value = next_value(value, *digit);
    }
    value
}

/// The value with one more digit, or one more than the greatest where it is above.
#[tactic(auto, unfolding(crate::specs::Steps::next_value))]
fn next_value(value: u64, digit: u8) -> u64
    requires { value ≤ MAX_NUMBER + 1 }
    ensures value { result ≡ spec.next_value value digit }
    ensures bound { result ≤ MAX_NUMBER + 1 }
{
    let next = u128::from(value) * 10 + u128::from(digit.saturating_sub(b'0'));
    if next <= u128::from(MAX_NUMBER) {
        next as u64
    } else {
        MAX_NUMBER + 1
    }
}

/// Gives the count of a stride, which stands before its last byte, or one more than `MAX_NUMBER` where it is above.
#[tactic(auto, unfolding(crate::specs::Steps::stride_count))]
pub fn stride_count(content: &[u8]) -> u64
    ensures { result ≡ spec.stride_count content.now }
{
    match content {
        [digits @ .., _] => number_of(digits),
        [] => 0,
    }
}

/// The unit of a stride, by its last byte.
#[tactic(auto, unfolding(crate::specs::Steps::stride_unit))]
fn stride_unit(content: &[u8]) -> TimeUnit
    ensures { result ≡ spec.stride_unit content.now }
{
    match content {
        [.., letter] => unit_of(*letter),
        [] => TimeUnit::Year,
    }
}

/// The unit of a letter.
fn unit_of(letter: u8) -> TimeUnit
    ensures { result ≡ spec.unit_of letter }
{
    match letter {
        b'U' => TimeUnit::Micro,
        b'T' => TimeUnit::Milli,
        b's' => TimeUnit::Second,
        b'm' => TimeUnit::Minute,
        b'h' => TimeUnit::Hour,
        b'd' => TimeUnit::Day,
        b'M' => TimeUnit::Month,
        _ => TimeUnit::Year,
    }
}

/// The bytes of a text, with one quote for each two.
#[tactic(auto, unfolding(crate::specs::Steps::unquoted_from))]
fn unquoted(alloc: Global, mut content: &[u8]) -> Result<Txt, Memory>
    ensures { spec.IsTxt result (spec.unquoted content.entry.now) }
{
    let mut bytes = Vec::with_capacity(alloc, content.len())?;
    let mut is_second = false;
    while let [byte, rest @ ..] = content {
        is_second = begins_two(*byte, is_second);
        if !is_second {
            bytes.push(*byte)?;
        }
        content = rest;
    }
    Ok(Txt::from_vec(bytes))
}

/// Whether a byte is the first of two quotes.
fn begins_two(byte: u8, is_second: bool) -> bool
    ensures { result ≡ spec.begins_two byte is_second }
{
    byte == b'\'' && !is_second
}
