//! The target of a request: a path, and behind `?` pairs of names and values.
ghost use Rattle.std.specs.Prelude.{◌≡◌, IfOk, option_map};
ghost use Rattle.std.specs.Cow.{cow_str_bytes};
ghost use Rattle.qd_http.specs.Targets as spec;
ghost use Rattle.qd_http.specs.Targets.{path_of, query_of};

use form_urlencoded::{decode, raw_pairs};
use qd_base::Memory;
use std::alloc::Global;
use std::borrow::CowStr;

/// Gives the path of a target, up to its first `?`, and the query behind that.
pub(crate) fn split_target(target: &[u8]) -> (&[u8], &[u8])
    ensures path { result.0.now ≡ path_of target.now }
    ensures query { result.1.now ≡ query_of target.now }
{
    match target.iter().position(|&b| b == b'?') {
        Some(i) => (&target[..i], &target[i + 1..]),
        None => (target, &[]),
    }
}

/// Gives the value of the first pair of this name, decoded. Bytes that are not UTF-8 become U+FFFD. It takes time linear
/// in the query, and memory only for what has to be decoded.
pub(crate) fn first_named<'a>(
    alloc: Global,
    query: &'a [u8],
    name: &str,
) -> Result<Option<CowStr<'a>>, Memory>
    ensures { IfOk result (λ found. option_map cow_str_bytes found ≡ spec.first_named name.now query.now) }
{
    for (key, value) in raw_pairs(query) {
        let key = decode(alloc, key)?;
        if key.as_str() == name {
            return Ok(Some(decode(alloc, value)?));
        }
    }
    Ok(None)
}
