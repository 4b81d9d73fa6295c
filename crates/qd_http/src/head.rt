//! The head of a request, once it has come whole.
ghost use Rattle.std.specs.Prelude.{◌≡◌, ◌==◌, ◌||◌, IfOk, IsSome};
ghost use Rattle.std.specs.List.{list_any};
ghost use Rattle.httparse.specs.Borrowed.{header_parts};
ghost use Rattle.httparse.specs.Grammar.{RequestHead};
ghost use Rattle.qd_http.specs.Fields.{is_close};
ghost use Rattle.qd_http.specs.Reading.{EndsWithHead, HasParts, OrdersBy, ReadsHead};

use crate::fields::{body_size, closes};
use crate::limits::MAX_FIELDS;
use crate::wanted::Wanted;
use httparse::{EMPTY_HEADER, Header, Request, Status};
use qd_base::Memory;
use std::alloc::Global;

/// A request whose head has come.
#[derive(Debug, Drop)]
pub(crate) struct Order {
    /// What it asks.
    pub wanted: Wanted,
    /// The length of its head in bytes.
    pub head: usize,
    /// The length of its body in bytes.
    pub body: u64,
    /// Whether it is the last of its connection.
    pub last: bool,
}

/// What the bytes up to an empty line are.
#[derive(Debug, Drop)]
pub(crate) enum Head {
    /// They are no head, or one whose body has no length that is served.
    Wrong,
    /// A head with too many fields.
    Overfull,
    /// The head of a request.
    Whole(Order),
}

/// Reads a head that ends with its empty line. It takes time linear in its bytes, and memory for its fields.
pub(crate) fn read_head(alloc: Global, bytes: &[u8]) -> Result<Head, Memory>
    requires { EndsWithHead bytes.now }
    ensures { IfOk result (ReadsHead bytes.now) }
{
    // A field has three bytes at least: a name, the colon and LF.
    let mut fields = vec![in alloc; EMPTY_HEADER; bytes.len() / 3]?;
    let mut request = Request::new(&mut fields);
    match request.parse(bytes) {
        Ok(Status::Complete(len)) => read_order(alloc, &request, len),
        Ok(Status::Partial) => Ok(Head::Wrong),
        Err(_) => Ok(Head::Wrong),
    }
}

// What a head of the grammar asks.
fn read_order(alloc: Global, request: &Request, len: usize) -> Result<Head, Memory>
    requires method { IsSome request.now.method }
    requires path { IsSome request.now.path }
    requires version { IsSome request.now.version }
    ensures { (head : RequestHead) → HasParts request.now len head → IfOk result (OrdersBy head) }
{
    if request.headers.len() > MAX_FIELDS {
        return Ok(Head::Overfull);
    }
    let Some(body) = body_size(request.headers) else {
        return Ok(Head::Wrong);
    };
    let wanted = Wanted::of(alloc, request.method.unwrap(), request.path.unwrap())?;
    Ok(Head::Whole(Order {
        wanted,
        head: len,
        body,
        last: is_last(request.version.unwrap(), request.headers),
    }))
}

// Says whether a request of this version with these fields is the last of its connection.
fn is_last(minor: u8, fields: &[Header]) -> bool
    ensures { result ≡ (minor == 0 || list_any (λ f. is_close (header_parts f)) fields.now) }
{
    minor == 0 || closes(fields)
}
