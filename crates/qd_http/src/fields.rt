//! What the fields of a head say of its body and of the connection.
ghost use Rattle.std.specs.Prelude.{◌≡◌, map, count_by, option_copied, option_map};
ghost use Rattle.std.specs.List.{find, list_any};
ghost use Rattle.httparse.specs.Borrowed.{header_parts};
ghost use Rattle.qd_http.specs.Fields as spec;

use crate::limits::MAX_BODY_BYTES;
use httparse::Header;

/// Gives the length of a request's body: that of its one Content-Length, or 0 where it has none. `None` where it has
/// another such field, another value there, or a Transfer-Encoding.
pub(crate) fn body_size(fields: &[Header]) -> Option<u64>
    ensures { result ≡ spec.body_size (map header_parts fields.now) }
{
    if has(fields, "transfer-encoding") || count(fields, "content-length") > 1 {
        return None;
    }
    match first(fields, "content-length") {
        Some(value) => size(value),
        None => Some(0),
    }
}

/// Says whether a field asks for the end of the connection: a Connection whose value is `close`.
pub(crate) fn closes(fields: &[Header]) -> bool
    ensures { result ≡ list_any (λ f. spec.is_close (header_parts f)) fields.now }
{
    fields.iter().any(|f| f.name.eq_ignore_ascii_case("connection")
        && f.value.eq_ignore_ascii_case(b"close"))
}

// Says whether a field has this name.
fn has(fields: &[Header], name: &str) -> bool
    ensures { result ≡ list_any (λ f. spec.is_named name.now (header_parts f)) fields.now }
{
    fields.iter().any(|f| f.name.eq_ignore_ascii_case(name))
}

// Counts the fields of this name.
fn count(fields: &[Header], name: &str) -> usize
    ensures { result ≡ count_by (λ f. spec.is_named name.now (header_parts f)) fields.now }
{
    fields
        .iter()
        .filter(|f| f.name.eq_ignore_ascii_case(name))
        .count()
}

// Gives the value of the first field of this name.
fn first<'a>(fields: &[Header<'a>], name: &str) -> Option<&'a [u8]>
    ensures { option_copied result ≡ option_map (λ f. (header_parts f).1) (find (λ f. spec.is_named name.now (header_parts f)) fields.now) }
{
    fields
        .iter()
        .find(|f| f.name.eq_ignore_ascii_case(name))
        .map(|f| f.value)
}

// Reads a length: 1 to 8 decimal digits, and no more than a body may have.
fn size(value: &[u8]) -> Option<u64>
    ensures { result ≡ spec.size_of value.now }
{
    if value.is_empty() || value.len() > 8 {
        return None;
    }
    let mut n: u64 = 0;
    for byte in value {
        if !byte.is_ascii_digit() {
            return None;
        }
        n = 10 * n + u64::from(*byte - b'0');
    }
    if n > MAX_BODY_BYTES { None } else { Some(n) }
}
