//! The bytes of a response.
ghost use Rattle.std.specs.Prelude.{◌≡◌, ◌++◌, IfOk, OnOk};
ghost use Rattle.qd_http.specs.Json.{json_damage, json_query_refusal, json_refusal, json_txn};
ghost use Rattle.qd_http.specs.Responses as spec;
ghost use Rattle.qd_http.specs.Responses.{answered, answered_write, body_of, head_text, printed, status_text};

use crate::rows::{push_number, push_rows};
use crate::wanted::Refusal;
use qd_base::{Memory, Reply, Txt};
use std::alloc::Global;

/// What a reply answers.
#[derive(Debug, Drop)]
pub(crate) enum Asked {
    /// No request: bytes that are none.
    Nothing,
    /// A batch of lines.
    Write,
    /// A statement.
    Statement(Txt),
    /// To apply.
    Apply,
    /// The end.
    End,
}

/// The status of a response with a body.
#[derive(Clone, Copy, Debug, PartialEq, Eq)]
pub(crate) enum Status {
    /// 200
    Done,
    /// 400
    BadRequest,
    /// 404
    NotFound,
    /// 405
    MethodNotAllowed,
    /// 500
    Failed,
}

impl Status {
    // The number and the phrase.
    fn text(self) -> &'static [u8]
        ensures { result.now ≡ status_text self }
    {
        match self {
            Status::Done => b"200 OK",
            Status::BadRequest => b"400 Bad Request",
            Status::NotFound => b"404 Not Found",
            Status::MethodNotAllowed => b"405 Method Not Allowed",
            Status::Failed => b"500 Internal Server Error",
        }
    }
}

/// Prints the response to a reply, in time linear in its bytes.
pub(crate) fn print_answer(alloc: Global, asked: &Asked, given: &Reply) -> Result<Txt, Memory>
    ensures { IfOk result (λ bytes. bytes ≡ printed asked.now given.now) }
{
    match asked {
        Asked::Nothing | Asked::Apply => answer(alloc, &[], given),
        Asked::Write => answer_write(alloc, given),
        Asked::Statement(text) => answer(alloc, text.bytes(), given),
        Asked::End => Ok(Txt::from_vec(Vec::new(alloc))),
    }
}

// Prints the response to a reply to a batch.
fn answer_write(alloc: Global, given: &Reply) -> Result<Txt, Memory>
    ensures { IfOk result (λ bytes. bytes ≡ answered_write given.now) }
{
    match given {
        Reply::Done { n } => written(alloc, *n),
        _ => answer(alloc, &[], given),
    }
}

// Prints the response to a reply, where a statement was asked or none.
fn answer(alloc: Global, statement: &[u8], given: &Reply) -> Result<Txt, Memory>
    ensures { IfOk result (λ bytes. bytes ≡ answered statement.now given.now) }
{
    match given {
        Reply::Bye => Ok(Txt::from_vec(Vec::new(alloc))),
        _ => {
            let mut body = Vec::new(alloc);
            push_body(&mut body, statement, given)?;
            response(status_of(given), body)
        }
    }
}

/// Prints the response to a request that is not served.
pub(crate) fn said(alloc: Global, refusal: Refusal) -> Result<Txt, Memory>
    ensures { IfOk result (λ bytes. bytes ≡ spec.said refusal) }
{
    let mut body = Vec::new(alloc);
    push_refusal(&mut body, code_of(refusal), 0)?;
    response(status_of_refusal(refusal), body)
}

// The code of a refusal.
fn code_of(refusal: Refusal) -> u8
    ensures { result ≡ spec.code_of refusal }
{
    match refusal {
        Refusal::Path => 70,
        Refusal::Method => 71,
        Refusal::Query => 72,
    }
}

// The status of a refusal.
fn status_of_refusal(refusal: Refusal) -> Status
    ensures { result ≡ spec.status_of_refusal refusal }
{
    match refusal {
        Refusal::Path => Status::NotFound,
        Refusal::Method => Status::MethodNotAllowed,
        Refusal::Query => Status::BadRequest,
    }
}

// The status of a reply.
fn status_of(given: &Reply) -> Status
    ensures { result ≡ spec.status_of given.now }
{
    match given {
        Reply::Refused { code, .. } => status_of_code(*code),
        Reply::QueryRefused { .. } => Status::BadRequest,
        Reply::Damaged { .. } => Status::Failed,
        _ => Status::Done,
    }
}

// The status of a refused request: what stands behind the request failed, or the request is at fault.
fn status_of_code(code: u8) -> Status
    ensures { result ≡ spec.status_of_code code }
{
    match code {
        42 | 50..=53 | 61 => Status::Failed,
        _ => Status::BadRequest,
    }
}

// Prints the response to a batch that is transaction `n`.
fn written(alloc: Global, n: u64) -> Result<Txt, Memory>
    ensures { IfOk result (λ bytes. bytes ≡ spec.written n) }
{
    let mut out = Vec::new(alloc);
    out.extend_from_slice(b"HTTP/1.1 204 No Content\r\nX-Txn: ")?;
    push_number(&mut out, n)?;
    out.extend_from_slice(b"\r\n\r\n")?;
    Ok(Txt::from_vec(out))
}

// Makes a response of a body. Its head tells the body's length, so it is printed behind it and then turned to the front.
fn response(status: Status, body: Vec<u8>) -> Result<Txt, Memory>
    ensures { IfOk result (λ bytes. bytes ≡ spec.response status body.items) }
{
    let mut out = body;
    let len = out.len();
    push_head(&mut out, status, len)?;
    let head = out.len() - len;
    out.rotate_right(head);
    Ok(Txt::from_vec(out))
}

// Appends what stands before a body of `len` bytes.
fn push_head(out: &mut Vec<u8>, status: Status, len: usize) -> Result<(), Memory>
    ensures { OnOk result (out.new.items ≡ out.old.items ++ head_text status len) }
{
    out.extend_from_slice(b"HTTP/1.1 ")?;
    out.extend_from_slice(status.text())?;
    out.extend_from_slice(
        b"\r\nContent-Type: application/json; charset=utf-8\r\nContent-Length: ",
    )?;
    push_number(out, len as u64)?;
    out.extend_from_slice(b"\r\n\r\n")?;
    Ok(())
}

// Appends the body of a response.
fn push_body(out: &mut Vec<u8>, statement: &[u8], given: &Reply) -> Result<(), Memory>
    ensures { OnOk result (out.new.items ≡ out.old.items ++ body_of statement.now given.now) }
{
    match given {
        Reply::Done { n } | Reply::Applied { n } => push_txn(out, *n),
        Reply::Rows { n, table } => push_rows(out, statement, *n, table),
        Reply::Refused { code, place } => push_refusal(out, *code, *place),
        Reply::QueryRefused { n, code, place } => push_query_refusal(out, *n, *code, *place),
        Reply::Damaged { file, at } => push_damage(out, *file, *at),
        Reply::Bye => Ok(()),
    }
}

// Appends the number of a transaction.
fn push_txn(out: &mut Vec<u8>, n: u64) -> Result<(), Memory>
    ensures { OnOk result (out.new.items ≡ out.old.items ++ json_txn n) }
{
    out.extend_from_slice(b"{\"txn\":")?;
    push_number(out, n)?;
    out.push(b'}')?;
    Ok(())
}

// Appends a refusal.
fn push_refusal(out: &mut Vec<u8>, code: u8, place: u64) -> Result<(), Memory>
    ensures { OnOk result (out.new.items ≡ out.old.items ++ json_refusal code place) }
{
    out.extend_from_slice(b"{\"code\":")?;
    push_number(out, code)?;
    out.extend_from_slice(b",\"place\":")?;
    push_number(out, place)?;
    out.push(b'}')?;
    Ok(())
}

// Appends a refusal over the first `n` transactions.
fn push_query_refusal(out: &mut Vec<u8>, n: u64, code: u8, place: u64) -> Result<(), Memory>
    ensures { OnOk result (out.new.items ≡ out.old.items ++ json_query_refusal n code place) }
{
    out.extend_from_slice(b"{\"code\":")?;
    push_number(out, code)?;
    out.extend_from_slice(b",\"place\":")?;
    push_number(out, place)?;
    out.extend_from_slice(b",\"txn\":")?;
    push_number(out, n)?;
    out.push(b'}')?;
    Ok(())
}

// Appends the place of stored bytes that break their layout.
fn push_damage(out: &mut Vec<u8>, file: u64, at: u64) -> Result<(), Memory>
    ensures { OnOk result (out.new.items ≡ out.old.items ++ json_damage file at) }
{
    out.extend_from_slice(b"{\"file\":")?;
    push_number(out, file)?;
    out.extend_from_slice(b",\"at\":")?;
    push_number(out, at)?;
    out.push(b'}')?;
    Ok(())
}
