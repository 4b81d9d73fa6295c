//! Whole inputs and what is answered, in whole and in pieces of one byte.
ghost use Rattle.std.specs.Prelude.{◌<◌};

use crate::HttpFront;
use crate::escape::push_text;
use qd_base::{
    Cell, Code, Col, ColList, ColType, Front, Memory, Reply, Request, Row, RowList, Step, Table,
    Txt,
};
use std::alloc::Global;
use std::process::Abort;
use std::test::Fail;

/// Gives a result with a LONG, the designated time, and one row.
fn table(alloc: Global) -> Result<Table, Memory> {
    let mut cols = ColList::new(alloc);
    cols.push(Col {
        name: Txt::from_bytes(alloc, b"v")?,
        kind: ColType::Long,
    })?;
    cols.push(Col {
        name: Txt::from_bytes(alloc, b"timestamp")?,
        kind: ColType::Time,
    })?;
    let mut row = Row::new(alloc);
    row.push(Cell::Long(1))?;
    row.push(Cell::Time(1_704_067_200_000_000))?;
    let mut rows = RowList::new(alloc);
    rows.push(row)?;
    Ok(Table { cols, rows })
}

/// Answers a request: the batch `bad` is refused, the statement `t` has rows, and each other one is refused.
fn answer(alloc: Global, asked: &Request) -> Result<Reply, Memory> {
    match asked {
        Request::Write(text) if text.bytes() == b"bad".as_slice() => Ok(Reply::Refused {
            code: Code::LineSyntax.number(),
            place: 1,
        }),
        Request::Write(_) => Ok(Reply::Done { n: 1 }),
        Request::Sql(text) if text.bytes() == b"t".as_slice() => Ok(Reply::Rows {
            n: 1,
            table: table(alloc)?,
        }),
        Request::Sql(_) => Ok(Reply::QueryRefused {
            n: 1,
            code: Code::UnknownTable.number(),
            place: 0,
        }),
        Request::Apply => Ok(Reply::Applied { n: 1 }),
        Request::End => Ok(Reply::Bye),
    }
}

/// Appends the response to a reply.
fn put(
    alloc: Global,
    front: &mut HttpFront,
    out: &mut Vec<u8>,
    given: &Reply,
) -> Result<(), Memory> {
    let text = front.reply(alloc, given)?;
    out.extend_from_slice(text.bytes())
}

/// Refuses the bytes at a place.
fn refuse(
    alloc: Global,
    front: &mut HttpFront,
    out: &mut Vec<u8>,
    place: u64,
) -> Result<(), Memory> {
    let code = Code::Frame.number();
    put(alloc, front, out, &Reply::Refused { code, place })
}

/// Answers what has come, and says whether that was the end.
fn answer_all(alloc: Global, front: &mut HttpFront, out: &mut Vec<u8>) -> Result<bool, Memory> {
    for _ in 0..16 {
        match front.next_step(alloc)? {
            Step::Ask(asked) => {
                let given = answer(alloc, &asked)?;
                put(alloc, front, out, &given)?;
                if matches!(asked, Request::End) {
                    return Ok(true);
                }
            }
            Step::Say(text) => out.extend_from_slice(text.bytes())?,
            Step::Bad { place } => {
                refuse(alloc, front, out, place)?;
                return Ok(true);
            }
            Step::More | Step::Clean => return Ok(false),
        }
    }
    Ok(false)
}

/// Feeds an input in pieces of so many bytes, and gives the responses.
fn responses(alloc: Global, input: &[u8], size: usize) -> Result<Vec<u8>, Memory>
    requires { 0 < size }
{
    let mut front = HttpFront::new(alloc);
    let mut out = Vec::new(alloc);
    for piece in input.chunks(size) {
        front.feed(alloc, piece)?;
        if answer_all(alloc, &mut front, &mut out)? {
            return Ok(out);
        }
    }
    if let Step::Bad { place } = front.finish() {
        refuse(alloc, &mut front, &mut out, place)?;
    }
    Ok(out)
}

/// Compares the responses to an input, in whole and in pieces of one byte.
fn responds(rt: &(impl Abort + AllocGlobal), input: &[u8], wanted: &[u8]) -> Result<(), Fail> {
    for size in [65_536, 1] {
        let given = responses(rt.alloc(), input, size)?;
        assert_eq!(rt; given.as_slice(), wanted);
    }
    Ok(())
}

#[test]
fn a_batch_and_a_statement(rt: HostRuntime) -> Result<(), Fail> {
    responds(
        &rt,
        b"POST /write HTTP/1.1\r\nContent-Length: 27\r\n\r\nt v=1i 1704067200000000000\n\
        POST /apply HTTP/1.1\r\n\r\nGET /exec?query=t HTTP/1.1\r\n\r\nGET /nix HTTP/1.1\r\n\r\n",
        b"HTTP/1.1 204 No Content\r\nX-Txn: 1\r\n\r\n\
        HTTP/1.1 200 OK\r\nContent-Type: application/json; charset=utf-8\r\nContent-Length: 9\r\n\r\n\
        {\"txn\":1}\
        HTTP/1.1 200 OK\r\nContent-Type: application/json; charset=utf-8\r\nContent-Length: 156\r\n\r\n\
        {\"query\":\"t\",\"columns\":[{\"name\":\"v\",\"type\":\"LONG\"},{\"name\":\"timestamp\",\"type\":\"TIMESTAMP\"}],\"dataset\":[[1,\"2024-01-01T00:00:00.000000Z\"]],\"count\":1,\"txn\":1}\
        HTTP/1.1 404 Not Found\r\nContent-Type: application/json; charset=utf-8\r\nContent-Length: 21\r\n\r\n\
        {\"code\":70,\"place\":0}",
    )
}

/// A response with a body of 20 or 21 bytes.
fn response(alloc: Global, status: &[u8], body: &[u8]) -> Result<Vec<u8>, Memory> {
    let mut out = Vec::new(alloc);
    out.extend_from_slice(b"HTTP/1.1 ")?;
    out.extend_from_slice(status)?;
    out.extend_from_slice(
        b"\r\nContent-Type: application/json; charset=utf-8\r\nContent-Length: ",
    )?;
    out.extend_from_slice(if body.len() < 21 { b"20" } else { b"21" })?;
    out.extend_from_slice(b"\r\n\r\n")?;
    out.extend_from_slice(body)?;
    Ok(out)
}

#[test]
fn requests_that_are_not_served(rt: HostRuntime) -> Result<(), Fail> {
    let bad = b"400 Bad Request".as_slice();
    let cases = [
        (
            b"POST /write HTTP/1.1\r\ncontent-length: 3\r\nconnection: Close\r\n\r\nbadGET".as_slice(),
            bad,
            b"{\"code\":11,\"place\":1}".as_slice(),
        ),
        (
            b"PUT /apply HTTP/1.0\r\nContent-Length: 2\r\n\r\nxxPUT",
            b"405 Method Not Allowed",
            b"{\"code\":71,\"place\":0}",
        ),
        (
            b"GET /exec?Query=t HTTP/1.1\r\n\r\n",
            bad,
            b"{\"code\":72,\"place\":0}",
        ),
        (
            b"POST /write?a&precision=ms&precision=ns HTTP/1.1\r\nContent-Length: 1\r\n\r\nx",
            bad,
            b"{\"code\":72,\"place\":0}",
        ),
    ];
    for (input, status, body) in cases {
        responds(&rt, input, &response(rt.alloc(), status, body)?)?;
    }
    Ok(())
}

#[test]
fn bytes_that_are_no_request(rt: HostRuntime) -> Result<(), Fail> {
    let refused = response(rt.alloc(), b"400 Bad Request", b"{\"code\":1,\"place\":0}")?;
    let cases = [
        b"POST /apply HTTP/1.1\r\nContent-Length: 1\r\ncontent-length: 1\r\n\r\nx".as_slice(),
        b"POST /apply HTTP/1.1\r\nContent-Length: 000000001\r\n\r\nx",
        b"POST /apply HTTP/1.1\r\nContent-Length: 16777217\r\n\r\nx",
        b"POST /apply HTTP/1.1\r\nTransfer-Encoding: chunked\r\n\r\n",
        b"POST /write HTTP/1.1\r\nContent-Length: 3\r\n\r\nxx",
        b"\r\nno head\r\n\r\n",
        b"GET /exec?query=t HTTP/1.1\r\n",
    ];
    for input in cases {
        responds(&rt, input, &refused)?;
    }
    Ok(())
}

#[test]
fn escapes(rt: HostRuntime) -> Result<(), Fail> {
    let cases = [
        (b"".as_slice(), b"\"\"".as_slice()),
        (b"a\"b\\c", b"\"a\\\"b\\\\c\""),
        (b"\x00\n\x1f \x7f", b"\"\\u0000\\u000a\\u001f \x7f\""),
        (b"\xc3\xa9\xff", b"\"\xc3\xa9\xff\""),
    ];
    for (text, wanted) in cases {
        let mut out = Vec::new(rt.alloc());
        push_text(&mut out, text)?;
        assert_eq!(rt; out.as_slice(), wanted);
    }
    Ok(())
}

/// A head with so many fields, the first of which has so many bytes.
fn head(alloc: Global, fields: usize, bytes: usize) -> Result<Vec<u8>, Memory> {
    let mut out = Vec::new(alloc);
    out.extend_from_slice(b"POST /apply HTTP/1.1\r\n")?;
    for i in 0..fields {
        out.extend_from_slice(b"a:")?;
        for _ in 0..(if i == 0 { bytes } else { 1 }) {
            out.push(b'x')?;
        }
        out.extend_from_slice(b"\r\n")?;
    }
    out.extend_from_slice(b"\r\n")?;
    Ok(out)
}

#[test]
fn limits_of_heads(rt: HostRuntime) -> Result<(), Fail> {
    let alloc = rt.alloc();
    assert_eq!(rt; head(alloc, 1, 16_356)?.len(), 16_384);
    let cases = [
        (1, 16_356, true),
        (1, 16_357, false),
        (64, 1, true),
        (65, 1, false),
    ];
    for (fields, bytes, whole) in cases {
        let input = head(alloc, fields, bytes)?;
        let given = responses(alloc, &input, 4_096)?;
        assert_eq!(rt; given.starts_with(b"HTTP/1.1 200 OK"), whole);
        assert_eq!(rt; given.starts_with(b"HTTP/1.1 400 Bad Request"), !whole);
    }
    Ok(())
}
