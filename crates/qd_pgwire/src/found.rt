//! What stands at the front of the bytes of a connection.
ghost use Rattle.std.specs.Prelude.{◌≡◌, ◌+◌, ◌≤◌, ◌==◌, if◌then◌else◌, nat_lt, length, Some};
ghost use Rattle.std.specs.List.{list_any};
ghost use Rattle.qd_pgwire.specs.declared.found.Found.TheVariants as found;
ghost use Rattle.qd_pgwire.specs.declared.found.Kind.TheVariants as Kind;
ghost use Rattle.qd_pgwire.specs.Messages as spec;
ghost use Rattle.qd_pgwire.specs.Messages.{first, first_message, first_start, is_string, message_with, names_parameters, start_with, u32_at, whole_of};

use crate::limits::{
    BARE_START_LENGTH, CANCEL_CODE, ENCRYPT_CODE, GSS_CODE, MAX_MESSAGE_LENGTH, MAX_START_LENGTH,
    MIN_START_LENGTH, PROTOCOL_CODE,
};

/// The state of a connection.
#[derive(Clone, Copy, Debug, PartialEq, Eq)]
pub(crate) enum Mode {
    /// A start is waited for.
    Starting,
    /// Messages are answered.
    Ready,
    /// A message of the extended query was refused: messages are passed over up to Sync.
    Skipping,
}

/// What a message is.
#[derive(Clone, Copy, Debug, PartialEq, Eq)]
pub(crate) enum Kind {
    /// StartupMessage.
    Start {
        /// Whether its list of parameters has any.
        names_parameters: bool,
    },
    /// SSLRequest or GSSENCRequest.
    Encrypt,
    /// CancelRequest.
    Cancel,
    /// Query.
    Query,
    /// Parse, Bind, Describe, Execute or Close.
    Extended,
    /// Flush.
    Flush,
    /// Sync.
    Sync,
    /// Terminate.
    Terminate,
}

/// What stands at the front of bytes.
#[derive(Clone, Copy, Debug)]
pub(crate) enum Found {
    /// No message has come whole.
    Short,
    /// No message, however the bytes go on.
    Wrong,
    /// A message.
    Whole {
        /// What it is.
        kind: Kind,
        /// How many bytes it has, with its type.
        size: usize,
    },
}

/// Says what stands at the front of the bytes. It takes constant time, and where a query has come whole, time linear in it.
pub(crate) fn find(mode: Mode, bytes: &[u8]) -> Found
    ensures { result ≡ first mode bytes.now }
{
    match mode {
        Mode::Starting => find_start(bytes),
        Mode::Ready | Mode::Skipping => find_message(bytes),
    }
}

// Finds a start.
fn find_start(bytes: &[u8]) -> Found
    ensures { result ≡ first_start bytes.now }
{
    if bytes.len() < 8 {
        return Found::Short;
    }
    start_of(number_at(bytes, 0), number_at(bytes, 4), bytes.len())
}

// What begins with this length and this code, where so many bytes are there.
fn start_of(len: u32, code: u32, there: usize) -> Found
    ensures { result ≡ start_with len code there }
{
    if code == CANCEL_CODE {
        Found::Whole {
            kind: Kind::Cancel,
            size: 8,
        }
    } else if (code == ENCRYPT_CODE || code == GSS_CODE) && len == 8 {
        Found::Whole {
            kind: Kind::Encrypt,
            size: 8,
        }
    } else if code == PROTOCOL_CODE && MIN_START_LENGTH <= len && len <= MAX_START_LENGTH {
        started(len as usize, there)
    } else {
        Found::Wrong
    }
}

// A start of so many bytes.
fn started(size: usize, there: usize) -> Found
    ensures { result ≡ (if nat_lt there size then found.Short else found.Whole (Kind.Start (names_parameters size)) size) }
{
    if there < size {
        Found::Short
    } else {
        Found::Whole {
            kind: Kind::Start {
                names_parameters: size > BARE_START_LENGTH as usize,
            },
            size,
        }
    }
}

// Finds a message.
fn find_message(bytes: &[u8]) -> Found
    ensures { result ≡ first_message bytes.now }
{
    if bytes.len() < 5 {
        return Found::Short;
    }
    match kind_of(bytes[0]) {
        Some(kind) => message_of(kind, number_at(bytes, 1), bytes),
        None => Found::Wrong,
    }
}

// The kind of a message that a byte begins.
fn kind_of(byte: u8) -> Option<Kind>
    ensures { result ≡ spec.kind_of byte }
{
    match byte {
        b'Q' => Some(Kind::Query),
        b'X' => Some(Kind::Terminate),
        b'P' | b'B' | b'D' | b'E' | b'C' => Some(Kind::Extended),
        b'H' => Some(Kind::Flush),
        b'S' => Some(Kind::Sync),
        _ => None,
    }
}

// A message of this kind and this length at the front of the bytes.
fn message_of(kind: Kind, len: u32, bytes: &[u8]) -> Found
    ensures { result ≡ message_with (Some kind) len bytes.now }
{
    if len < 4 || MAX_MESSAGE_LENGTH < len {
        return Found::Wrong;
    }
    let size = 1 + len as usize;
    if bytes.len() < size {
        return Found::Short;
    }
    whole(kind, size, &bytes[5..size])
}

// A message that has come whole.
fn whole(kind: Kind, size: usize, body: &[u8]) -> Found
    ensures { result ≡ whole_of kind size body.now }
{
    match kind {
        Kind::Query => {
            if is_text(body) {
                Found::Whole { kind, size }
            } else {
                Found::Wrong
            }
        }
        _ => Found::Whole { kind, size },
    }
}

// Says whether the bytes are a text and one zero byte, their last.
fn is_text(bytes: &[u8]) -> bool
    ensures { result ≡ is_string bytes.now }
{
    match bytes {
        [text @ .., last] => *last == 0 && !has_zero(text),
        [] => false,
    }
}

// Says whether a zero byte is among the bytes.
fn has_zero(bytes: &[u8]) -> bool
    ensures { result ≡ list_any (λ b. b == 0) bytes.now }
{
    bytes.iter().any(|byte| *byte == 0)
}

// The number that four bytes spell, the highest first.
fn number_at(bytes: &[u8], at: usize) -> u32
    requires { at + 4 ≤ length bytes.now }
    ensures { result ≡ u32_at at bytes.now }
{
    u32::from_be_bytes([bytes[at], bytes[at + 1], bytes[at + 2], bytes[at + 3]])
}
