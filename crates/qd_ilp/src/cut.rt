//! Where a part of a line ends, and the bytes that it stands for.
ghost use Rattle.std.specs.Prelude.{◌≡◌, ℕ, List, ◌||◌, ◌+◌, ◌≤◌, ◌&&◌, ◌==◌, ◌++◌, [], ◌∷◌, ◌-◌, ◌<◌, not, false, take, drop, length, IfOk, OnOk, OnErr, true, if◌then◌else◌};
ghost use Rattle.qd_ilp.specs.Cut.{at_end, begins, is_special, is_quoted_special, is_plain, stops, ends_word, escapes, cut, fronted, word, closed, closed_behind, Gives, Grows};

use crate::lanes::{inner_run, plain_run, unquoted_runs};
use crate::stop::Stop;
use qd_base::Memory;

/// Whether a line ends here: at the end of the text, at LF, or at CR before LF.
pub(crate) fn at_end(text: &[u8]) -> bool
    ensures ends { result ≡ at_end text.now }
{
    match text {
        [] => true,
        [byte, rest @ ..] => *byte == b'\n' || (*byte == b'\r' && begins_with(rest, b'\n')),
    }
}

/// Whether the text begins with this byte.
pub(crate) fn begins_with(text: &[u8], byte: u8) -> bool
    ensures begins { result ≡ begins byte text.now }
{
    match text {
        [] => false,
        [first, ..] => *first == byte,
    }
}

/// Whether a line ends at a place.
pub(crate) fn ends_at(text: &[u8], at: usize) -> bool
    requires within { at ≤ length text.now }
    ensures ends { result ≡ at_end (drop at text.now) }
{
    at_end(behind(text, at))
}

/// Whether this byte stands at a place.
#[tactic(auto, using(crate::proofs::Places::begins_inside))]
pub(crate) fn is_at(text: &[u8], at: usize, byte: u8) -> bool
    requires within { at ≤ length text.now }
    ensures begins { result ≡ begins byte (drop at text.now) }
    ensures inside { result ≡ true → at < length text.now }
{
    begins_with(behind(text, at), byte)
}

/// The text from an offset on.
pub(crate) fn behind(text: &[u8], offset: usize) -> &[u8]
    requires { offset ≤ length text.now }
    ensures rest { result.now ≡ drop offset text.now }
{
    text.split_at(offset).1
}

/// Where the first byte from a place on stands that may end a name or be a backslash.
#[tactic(auto, using(crate::proofs::Places::drop_on))]
pub(crate) fn plain_end(text: &[u8], at: usize) -> usize
    requires within { at ≤ length text.now }
    ensures onward { at ≤ result }
    ensures inside { result ≤ length text.now }
    ensures cut { cut false (drop at text.now) ≡ fronted (take (result - at) (drop at text.now)) (cut false (drop result text.now)) }
{
    at + plain_bytes(behind(text, at))
}

/// How many bytes stand for themselves, before the first that may end a name or be a backslash.
#[tactic(auto, using(crate::proofs::Runs::cut_run))]
fn plain_bytes(text: &[u8]) -> usize
    ensures within { result ≤ length text.now }
    ensures cut { cut false text.now ≡ fronted (take result text.now) (cut false (drop result text.now)) }
{
    for i in plain_run(text)..text.len() {
        if !is_plain(text[i]) {
            return i;
        }
    }
    text.len()
}

/// Whether a byte stands for itself, whatever stands beside it.
fn is_plain(byte: u8) -> bool
    ensures plain { result ≡ is_plain byte }
{
    byte != b',' && byte != b' ' && byte != b'=' && byte != b'\\' && byte != b'\n' && byte != b'\r'
}

/// Puts the bytes of a name or a tag's value at the end of `bytes`, and gives the text from its end on. It costs time
/// linear in what it goes over.
#[tactic(auto, using(crate::proofs::Growing::grows_not, crate::proofs::Growing::grows_by, crate::proofs::Growing::grows_twice))]
pub(crate) fn push_cut<'a>(bytes: &mut Vec<u8>, text: &'a [u8]) -> Result<&'a [u8], Memory>
    ensures cut { IfOk result (λ rest. fronted bytes.old.items (cut false text.now) ≡ (bytes.new.items, rest.now)) }
    ensures shorter { IfOk result (λ rest. length bytes.new.items + length rest.now ≤ length bytes.old.items + length text.now) }
    ensures grows { Grows bytes.old.items bytes.new.items }
{
    let count = plain_bytes(text);
    let (front, rest) = text.split_at(count);
    bytes.extend_from_slice(front)?;
    push_escaped(bytes, rest)
}

/// The same, byte by byte.
#[tactic(auto, using(crate::proofs::Growing::grows_not, crate::proofs::Growing::grows_by, crate::proofs::Growing::grows_twice))]
fn push_escaped<'a>(bytes: &mut Vec<u8>, text: &'a [u8]) -> Result<&'a [u8], Memory>
    ensures cut { IfOk result (λ rest. fronted bytes.old.items (cut false text.now) ≡ (bytes.new.items, rest.now)) }
    ensures shorter { IfOk result (λ rest. length bytes.new.items + length rest.now ≤ length bytes.old.items + length text.now) }
    ensures grows { Grows bytes.old.items bytes.new.items }
{
    let mut plain = false;
    for (i, byte) in text.iter().enumerate() {
        let rest = behind(text, i);
        if stops(plain, rest) {
            return Ok(rest);
        }
        plain = escapes(plain, rest);
        push_unless(plain, bytes, *byte)?;
    }
    Ok(behind(text, text.len()))
}

/// Whether a name or a tag's value ends at a place.
pub(crate) fn stops_at(text: &[u8], at: usize) -> bool
    requires within { at ≤ length text.now }
    ensures stops { result ≡ stops (drop at text.now) }
{
    stops(false, behind(text, at))
}

/// Whether a name or a tag's value ends here.
fn stops(plain: bool, text: &[u8]) -> bool
    ensures stops { result ≡ (not plain && stops text.now) }
{
    !plain
        && match text {
            [] => true,
            [byte, ..] => *byte == b',' || *byte == b' ' || *byte == b'=' || at_end(text),
        }
}

/// Whether a backslash stands here that makes the byte behind it plain in a name.
fn escapes(plain: bool, text: &[u8]) -> bool
    ensures escapes { result ≡ (not plain && escapes is_special text.now) }
{
    !plain
        && match text {
            [b'\\', byte, ..] => {
                *byte == b',' || *byte == b' ' || *byte == b'=' || *byte == b'\\'
            }
            _ => false,
        }
}

/// Puts a byte at the end, unless it is left out.
fn push_unless(left_out: bool, bytes: &mut Vec<u8>, byte: u8) -> Result<(), Memory>
    ensures pushed { OnOk result (bytes.new.items ≡ bytes.old.items ++ (if left_out then [] else byte ∷ [])) }
    ensures err { OnErr result (bytes.new.items ≡ bytes.old.items) }
{
    if !left_out {
        bytes.push(byte)?;
    }
    Ok(())
}

/// Cuts a value that is no text, from a place on: its bytes, and its end. It costs time linear in the value.
#[tactic(auto, using(crate::proofs::Places::drop_on, crate::proofs::Places::word_rest))]
pub(crate) fn split_word(text: &[u8], at: usize) -> (&[u8], usize)
    requires within { at ≤ length text.now }
    ensures word { word (drop at text.now) ≡ (result.0.now, drop result.1 text.now) }
    ensures end { result.1 ≡ at + length result.0.now }
    ensures inside { result.1 ≤ length text.now }
{
    let (word, _) = first_word(behind(text, at));
    (word, at + word.len())
}

/// Cuts a value that is no text: its bytes, and the text from its end on.
#[tactic(auto, using(crate::proofs::Runs::word_run))]
fn first_word(text: &[u8]) -> (&[u8], &[u8])
    ensures word { word text.now ≡ (result.0.now, result.1.now) }
    ensures shorter { length result.0.now + length result.1.now ≡ length text.now }
{
    for i in inner_run(text)..text.len() {
        if ends_word(behind(text, i)) {
            return text.split_at(i);
        }
    }
    text.split_at(text.len())
}

/// Whether a value that is no text ends here.
fn ends_word(text: &[u8]) -> bool
    ensures ends { result ≡ ends_word text.now }
{
    match text {
        [] => true,
        [byte, ..] => *byte == b',' || *byte == b' ' || at_end(text),
    }
}

/// Puts the bytes of a quoted text at the end of `bytes`, from behind its opening quote, and gives the text from
/// behind its closing quote on. It costs time linear in what it goes over.
#[tactic(auto, using(crate::proofs::Growing::grows_not, crate::proofs::Growing::grows_by, crate::proofs::Growing::grows_twice))]
pub(crate) fn push_closed<'a>(bytes: &mut Vec<u8>, text: &'a [u8]) -> Result<&'a [u8], Stop>
    ensures closed { Gives (λ rest. (bytes.new.items, rest.now)) result (closed_behind bytes.old.items false text.now) }
    ensures shorter { IfOk result (λ rest. length rest.now ≤ length text.now) }
    ensures grows { Grows bytes.old.items bytes.new.items }
{
    let count = unquoted_bytes(text);
    let (front, rest) = text.split_at(count);
    bytes.extend_from_slice(front)?;
    push_closed_escaped(bytes, rest)
}

/// Where the first quote or backslash from a place in a quoted text on stands.
#[tactic(auto, using(crate::proofs::Places::drop_on))]
pub(crate) fn unquoted_end(text: &[u8], at: usize) -> usize
    requires within { at ≤ length text.now }
    ensures onward { at ≤ result }
    ensures inside { result ≤ length text.now }
    ensures closed { closed false (drop at text.now) ≡ closed_behind (take (result - at) (drop at text.now)) false (drop result text.now) }
{
    at + unquoted_bytes(behind(text, at))
}

/// How many bytes of a quoted text stand for themselves, before the first quote or backslash.
#[tactic(auto, using(crate::proofs::Runs::closed_run))]
fn unquoted_bytes(text: &[u8]) -> usize
    ensures within { result ≤ length text.now }
    ensures closed { (front : List ℕ) → closed_behind front false text.now
        ≡ closed_behind (front ++ take result text.now) false (drop result text.now) }
{
    for i in unquoted_runs(text)..text.len() {
        if is_quote_or_backslash(text[i]) {
            return i;
        }
    }
    text.len()
}

fn is_quote_or_backslash(byte: u8) -> bool
    ensures one { result ≡ (byte == 34 || byte == 92) }
{
    byte == b'"' || byte == b'\\'
}

/// The same as `push_closed`, byte by byte.
#[tactic(auto, using(crate::proofs::Growing::grows_not, crate::proofs::Growing::grows_by, crate::proofs::Growing::grows_twice))]
fn push_closed_escaped<'a>(bytes: &mut Vec<u8>, text: &'a [u8]) -> Result<&'a [u8], Stop>
    ensures closed { Gives (λ rest. (bytes.new.items, rest.now)) result (closed_behind bytes.old.items false text.now) }
    ensures shorter { IfOk result (λ rest. length rest.now ≤ length text.now) }
    ensures grows { Grows bytes.old.items bytes.new.items }
{
    let mut plain = false;
    for (i, byte) in text.iter().enumerate() {
        if is_closing(plain, *byte) {
            return Ok(behind(text, i + 1));
        }
        plain = escapes_quoted(plain, behind(text, i));
        push_unless(plain, bytes, *byte)?;
    }
    Err(Stop::Syntax)
}

/// Whether a byte closes a quoted text.
fn is_closing(plain: bool, byte: u8) -> bool
    ensures closing { result ≡ (not plain && byte == 34) }
{
    !plain && byte == b'"'
}

/// Whether a backslash stands here that makes the byte behind it plain in a quoted text.
fn escapes_quoted(plain: bool, text: &[u8]) -> bool
    ensures escapes { result ≡ (not plain && escapes is_quoted_special text.now) }
{
    !plain
        && match text {
            [b'\\', byte, ..] => {
                *byte == b'"' || *byte == b'\\' || *byte == b'\n' || *byte == b'\r'
            }
            _ => false,
        }
}
