//! What a front says by itself.
ghost use Rattle.std.specs.Prelude.{◌≡◌, [], ◌++◌, IfOk, OnOk};
ghost use Rattle.qd_pgwire.specs.Replies as spec;

use crate::limits::EXTENDED_CODE;
use crate::reply::push_refusal;
use qd_base::{Memory, Txt};
use std::alloc::Global;

/// AuthenticationOk and ReadyForQuery.
const WELCOME: &[u8] = b"R\0\0\0\x08\0\0\0\0Z\0\0\0\x05I";

/// AuthenticationOk, what the server tells of itself, and ReadyForQuery.
const INTRODUCTION: &[u8] = b"R\0\0\0\x08\0\0\0\0\
    S\0\0\0\x23server_version\x0014.0 (Bontayug)\0\
    S\0\0\0\x19server_encoding\0UTF8\0\
    S\0\0\0\x19client_encoding\0UTF8\0\
    S\0\0\0\x17DateStyle\0ISO, YMD\0\
    S\0\0\0\x11TimeZone\0UTC\0\
    S\0\0\0\x19integer_datetimes\0on\0\
    S\0\0\0\x23standard_conforming_strings\0on\0\
    Z\0\0\0\x05I";

/// EmptyQueryResponse and ReadyForQuery.
const EMPTY_QUERY: &[u8] = b"I\0\0\0\x04Z\0\0\0\x05I";

/// ReadyForQuery, idle.
const READY: &[u8] = b"Z\0\0\0\x05I";

/// The answer to a start: a constant text, in memory for its bytes alone.
pub(crate) fn welcome(alloc: Global, names_parameters: bool) -> Result<Txt, Memory>
    ensures { IfOk result (λ text. text ≡ spec.welcome names_parameters) }
{
    if names_parameters {
        Txt::from_bytes(alloc, INTRODUCTION)
    } else {
        Txt::from_bytes(alloc, WELCOME)
    }
}

/// The answer to a query without a statement.
pub(crate) fn empty_query(alloc: Global) -> Result<Txt, Memory>
    ensures { IfOk result (λ text. text ≡ spec.empty_query) }
{
    Txt::from_bytes(alloc, EMPTY_QUERY)
}

/// The answer to Sync.
pub(crate) fn ready(alloc: Global) -> Result<Txt, Memory>
    ensures { IfOk result (λ text. text ≡ spec.ready_for_query) }
{
    Txt::from_bytes(alloc, READY)
}

/// What is said of a message of the extended query.
pub(crate) fn not_served(alloc: Global) -> Result<Txt, Memory>
    ensures { IfOk result (λ text. text ≡ spec.not_served) }
{
    let mut out = Vec::new(alloc);
    push_refusal(&mut out, EXTENDED_CODE, 0)?;
    Ok(Txt::from_vec(out))
}

/// No byte: what is said of a message that is passed over.
pub(crate) fn nothing(alloc: Global) -> Txt
    ensures { result ≡ [] }
{
    Txt::from_vec(Vec::new(alloc))
}

/// Appends ReadyForQuery.
pub(crate) fn push_ready(out: &mut Vec<u8>) -> Result<(), Memory>
    ensures { OnOk result (out.new.items ≡ out.old.items ++ spec.ready_for_query) }
{
    out.extend_from_slice(READY)
}
