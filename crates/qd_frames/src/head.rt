//! The header of a frame: what the bytes before a text say.
ghost use Rattle.std.specs.Prelude.{◌≡◌, ◌^◌, ◌<◌, ◌∷◌};
ghost use Rattle.qd_frames.specs.Heads.{ReadsHead, ReadsLineEnd, ReadsNumber, letter, limit};

use qd_base::{MAX_QUERY_BYTES, MAX_WRITE_BYTES};

/// The kind of a text.
#[derive(Clone, Copy, Debug, PartialEq, Eq)]
pub(crate) enum Kind {
    /// A batch of lines.
    Write,
    /// A statement.
    Sql,
}

/// A text that a header announces.
#[derive(Clone, Copy, Debug)]
pub(crate) struct Text {
    /// What it is.
    pub kind: Kind,
    /// Its length in bytes.
    pub size: u64,
    /// The length of its header in bytes.
    pub head: usize,
}

/// What bytes begin with.
#[derive(Clone, Copy, Debug)]
pub(crate) enum Head {
    /// The bytes are a prefix of a header, and not a whole one.
    Short,
    /// They begin no header.
    Wrong,
    /// The whole frame that asks to apply.
    Apply,
    /// The whole frame that asks for the end.
    End,
    /// The header of a text.
    Text(Text),
}

/// What bytes begin with, where a number and LF should come.
#[derive(Clone, Copy, Debug)]
pub(crate) enum Number {
    /// The bytes are a prefix of a number, or nothing.
    Short,
    /// They begin with no number that is small enough, or with one that LF doesn't follow.
    Wrong,
    /// A number and LF.
    Whole {
        /// The number.
        value: u64,
        /// How many bytes it takes with its LF.
        taken: usize,
    },
}

impl Kind {
    // The greatest length of such a text.
    fn limit(self) -> u64
        ensures { result ≡ limit self }
    {
        match self {
            Kind::Write => MAX_WRITE_BYTES,
            Kind::Sql => MAX_QUERY_BYTES,
        }
    }
}

/// Reads the header that `bytes` begin with, of which it reads 11 at most.
pub(crate) fn read_head(bytes: &[u8]) -> Head
    ensures { ReadsHead bytes.now result }
{
    match bytes {
        [] => Head::Short,
        [b'W', rest @ ..] => read_text(Kind::Write, rest),
        [b'Q', rest @ ..] => read_text(Kind::Sql, rest),
        [b'A', rest @ ..] => read_line_end(rest, Head::Apply),
        [b'X', rest @ ..] => read_line_end(rest, Head::End),
        _ => Head::Wrong,
    }
}

// Reads what stands behind a letter that is a whole request with LF.
fn read_line_end(bytes: &[u8], whole: Head) -> Head
    ensures { ReadsLineEnd bytes.now whole result }
{
    match bytes {
        [] => Head::Short,
        [b'\n', ..] => whole,
        _ => Head::Wrong,
    }
}

// Reads what stands behind the letter of a text.
fn read_text(kind: Kind, bytes: &[u8]) -> Head
    ensures { ReadsHead (letter kind ∷ bytes.now) result }
{
    match bytes {
        [] => Head::Short,
        [b' ', digits @ ..] => match read_number(digits, kind.limit()) {
            Number::Short => Head::Short,
            Number::Wrong => Head::Wrong,
            Number::Whole { value, taken } => Head::Text(Text {
                kind,
                size: value,
                head: 2 + taken,
            }),
        },
        _ => Head::Wrong,
    }
}

// Reads a number that is at most `most`, and LF. It stops at the first byte that makes the number too great.
fn read_number(bytes: &[u8], most: u64) -> Number
    requires { most < 2 ^ 32 }
    ensures { ReadsNumber most bytes.now result }
{
    let mut value = 0u64;
    for (i, byte) in bytes.iter().enumerate() {
        if !byte.is_ascii_digit() {
            return if *byte == b'\n' && i > 0 {
                Number::Whole {
                    value,
                    taken: i + 1,
                }
            } else {
                Number::Wrong
            };
        }
        if i > 0 && value == 0 {
            return Number::Wrong;
        }
        value = 10 * value + u64::from(*byte - b'0');
        if value > most {
            return Number::Wrong;
        }
    }
    Number::Short
}
