//! Whole inputs and what is answered, in whole and in pieces of one byte.
ghost use Rattle.std.specs.Prelude.{◌<◌};

use crate::PgFront;
use qd_base::{
    Cell, Code, Col, ColList, ColType, Front, Memory, Reply, Request, Row, RowList, Step, Table,
    Txt,
};
use std::alloc::Global;
use std::process::Abort;
use std::test::Fail;

/// Adds a column.
fn add(alloc: Global, cols: &mut ColList, name: &[u8], kind: ColType) -> Result<(), Memory> {
    cols.push(Col {
        name: Txt::from_bytes(alloc, name)?,
        kind,
    })
}

/// Gives a result with a LONG, the designated time, and one row.
fn table(alloc: Global) -> Result<Table, Memory> {
    let mut cols = ColList::new(alloc);
    add(alloc, &mut cols, b"v", ColType::Long)?;
    add(alloc, &mut cols, b"timestamp", ColType::Time)?;
    let mut row = Row::new(alloc);
    row.push(Cell::Long(1))?;
    row.push(Cell::Time(1_704_067_200_000_000))?;
    let mut rows = RowList::new(alloc);
    rows.push(row)?;
    Ok(Table { cols, rows })
}

/// Gives a result with a column of each other type, and a row of each kind of cell.
fn types(alloc: Global) -> Result<Table, Memory> {
    let mut cols = ColList::new(alloc);
    add(alloc, &mut cols, b"b", ColType::Bool)?;
    add(alloc, &mut cols, b"s", ColType::Symbol)?;
    add(alloc, &mut cols, b"x", ColType::Varchar)?;
    let mut row = Row::new(alloc);
    row.push(Cell::Bool(true))?;
    row.push(Cell::Text(Txt::from_bytes(alloc, b"ab")?))?;
    row.push(Cell::Null)?;
    let mut last = Row::new(alloc);
    last.push(Cell::Bool(false))?;
    last.push(Cell::Text(Txt::from_bytes(alloc, b"")?))?;
    last.push(Cell::Long(-7))?;
    let mut rows = RowList::new(alloc);
    rows.push(row)?;
    rows.push(last)?;
    Ok(Table { cols, rows })
}

/// Answers a request: the statement `t` and `types` have rows, `w` writes, `d` finds damage, and each other one is refused.
fn answer(alloc: Global, asked: &Request) -> Result<Reply, Memory> {
    match asked {
        Request::Sql(text) => answer_statement(alloc, text.bytes()),
        Request::End => Ok(Reply::Bye),
        Request::Write(_) | Request::Apply => Ok(Reply::Applied { n: 0 }),
    }
}

fn answer_statement(alloc: Global, text: &[u8]) -> Result<Reply, Memory> {
    match text {
        b"t" => Ok(Reply::Rows {
            n: 1,
            table: table(alloc)?,
        }),
        b"types" => Ok(Reply::Rows {
            n: 20,
            table: types(alloc)?,
        }),
        b"w" => Ok(Reply::Done { n: 2 }),
        b"d" => Ok(Reply::Damaged { file: 3, at: 44 }),
        b"r" => Ok(Reply::Refused { code: 31, place: 5 }),
        _ => Ok(Reply::QueryRefused {
            n: 1,
            code: Code::UnknownTable.number(),
            place: 0,
        }),
    }
}

/// Appends what answers a reply.
fn put(alloc: Global, front: &mut PgFront, out: &mut Vec<u8>, given: &Reply) -> Result<(), Memory> {
    let text = front.reply(alloc, given)?;
    out.extend_from_slice(text.bytes())
}

/// Refuses the bytes at a place.
fn refuse(alloc: Global, front: &mut PgFront, out: &mut Vec<u8>, place: u64) -> Result<(), Memory> {
    let code = Code::Frame.number();
    put(alloc, front, out, &Reply::Refused { code, place })
}

/// Answers what has come, and says whether that was the end.
fn answer_all(alloc: Global, front: &mut PgFront, out: &mut Vec<u8>) -> Result<bool, Memory> {
    for _ in 0..32 {
        match front.next_step(alloc)? {
            Step::Ask(asked) => {
                let given = answer(alloc, &asked)?;
                put(alloc, front, out, &given)?;
                if matches!(asked, Request::End) {
                    return Ok(true);
                }
            }
            Step::Say(text) => out.extend_from_slice(text.bytes())?,
            Step::Bad { place } => {
                refuse(alloc, front, out, place)?;
                return Ok(true);
            }
            Step::More | Step::Clean => return Ok(false),
        }
    }
    Ok(false)
}

/// Feeds an input in pieces of so many bytes, and gives the answers.
fn answers(alloc: Global, input: &[u8], size: usize) -> Result<Vec<u8>, Memory>
    requires { 0 < size }
{
    let mut front = PgFront::new(alloc);
    let mut out = Vec::new(alloc);
    for piece in input.chunks(size) {
        front.feed(alloc, piece)?;
        if answer_all(alloc, &mut front, &mut out)? {
            return Ok(out);
        }
    }
    if let Step::Bad { place } = front.finish() {
        refuse(alloc, &mut front, &mut out, place)?;
    }
    Ok(out)
}

/// Compares the answers to an input, in whole and in pieces of one byte.
fn answers_by(rt: &(impl Abort + AllocGlobal), input: &[u8], wanted: &[u8]) -> Result<(), Fail> {
    for size in [65_536, 1] {
        let given = answers(rt.alloc(), input, size)?;
        assert_eq!(rt; given.as_slice(), wanted);
    }
    Ok(())
}

#[test]
fn worked(rt: HostRuntime) -> Result<(), Fail> {
    let input = b"\0\0\0\x08\x04\xd2\x16\x2f\0\0\0\x09\0\x03\0\0\0Q\0\0\0\x06t\0X\0\0\0\x04Q";
    let output = b"NR\0\0\0\x08\0\0\0\0Z\0\0\0\x05I\
        S\0\0\0\x0atxn\x001\0\
        T\0\0\0\x36\0\x02v\0\0\0\0\0\0\0\0\0\0\x14\0\x08\xff\xff\xff\xff\0\0\
        timestamp\0\0\0\0\0\0\0\0\0\x04\x5a\0\x08\xff\xff\xff\xff\0\0\
        D\0\0\0\x29\0\x02\0\0\0\x011\0\0\0\x1a2024-01-01 00:00:00.000000\
        C\0\0\0\x0dSELECT 1\0Z\0\0\0\x05I";
    answers_by(&rt, input, output)
}

#[test]
fn each_type(rt: HostRuntime) -> Result<(), Fail> {
    let input = b"\0\0\0\x08\0\x03\0\0Q\0\0\0\x0atypes\0";
    let output = b"R\0\0\0\x08\0\0\0\0Z\0\0\0\x05I\
        S\0\0\0\x0btxn\x0020\0\
        T\0\0\0\x42\0\x03b\0\0\0\0\0\0\0\0\0\0\x10\0\x01\xff\xff\xff\xff\0\0\
        s\0\0\0\0\0\0\0\0\0\x04\x13\xff\xff\xff\xff\xff\xff\0\0\
        x\0\0\0\0\0\0\0\0\0\x04\x13\xff\xff\xff\xff\xff\xff\0\0\
        D\0\0\0\x15\0\x03\0\0\0\x01t\0\0\0\x02ab\xff\xff\xff\xff\
        D\0\0\0\x15\0\x03\0\0\0\x01f\0\0\0\0\0\0\0\x02-7\
        C\0\0\0\x0dSELECT 2\0Z\0\0\0\x05I";
    answers_by(&rt, input, output)
}

#[test]
fn starts_with_parameters(rt: HostRuntime) -> Result<(), Fail> {
    let told = b"R\0\0\0\x08\0\0\0\0\
        S\0\0\0\x23server_version\x0014.0 (Bontayug)\0\
        S\0\0\0\x19server_encoding\0UTF8\0\
        S\0\0\0\x19client_encoding\0UTF8\0\
        S\0\0\0\x17DateStyle\0ISO, YMD\0\
        S\0\0\0\x11TimeZone\0UTC\0\
        S\0\0\0\x19integer_datetimes\0on\0\
        S\0\0\0\x23standard_conforming_strings\0on\0\
        Z\0\0\0\x05I";
    answers_by(&rt, b"\0\0\0\x10\0\x03\0\0user\0u\0\0", told)?;
    answers_by(&rt, b"\0\0\0\x0a\0\x03\0\0\0\0", told)?;
    let bare = b"R\0\0\0\x08\0\0\0\0Z\0\0\0\x05I";
    answers_by(&rt, b"\0\0\0\x08\0\x03\0\0", bare)?;
    answers_by(&rt, b"\0\0\0\x09\0\x03\0\0\0", bare)
}

#[test]
fn refusals(rt: HostRuntime) -> Result<(), Fail> {
    let input = b"\0\0\0\x08\0\x03\0\0Q\0\0\0\x06r\0Q\0\0\0\x06n\0Q\0\0\0\x06d\0Q\0\0\0\x06w\0";
    let output = b"R\0\0\0\x08\0\0\0\0Z\0\0\0\x05I\
        E\0\0\0\x24SERROR\0CXX000\0Mcode 31 place 5\0\0Z\0\0\0\x05I\
        E\0\0\0\x2aSERROR\0CXX000\0Mcode 32 place 0 txn 1\0\0Z\0\0\0\x05I\
        E\0\0\0\x21SERROR\0CXX000\0Mdamaged 3 44\0\0Z\0\0\0\x05I\
        C\0\0\0\x0aTXN 2\0Z\0\0\0\x05I";
    answers_by(&rt, input, output)
}

#[test]
fn without_a_statement(rt: HostRuntime) -> Result<(), Fail> {
    let input = b"\0\0\0\x08\0\x03\0\0Q\0\0\0\x05\0Q\0\0\0\x09 \t\r\n\0H\0\0\0\x04S\0\0\0\x04";
    let output = b"R\0\0\0\x08\0\0\0\0Z\0\0\0\x05I\
        I\0\0\0\x04Z\0\0\0\x05II\0\0\0\x04Z\0\0\0\x05IZ\0\0\0\x05I";
    answers_by(&rt, input, output)
}

#[test]
fn extended_queries(rt: HostRuntime) -> Result<(), Fail> {
    let input =
        b"\0\0\0\x08\0\x03\0\0P\0\0\0\x09\0t\0\0\0B\0\0\0\x04D\0\0\0\x04E\0\0\0\x04C\0\0\0\x04\
        Q\0\0\0\x06t\0H\0\0\0\x04S\0\0\0\x04E\0\0\0\x04S\0\0\0\x04E\0\0\0\x04X\0\0\0\x04";
    let output = b"R\0\0\0\x08\0\0\0\0Z\0\0\0\x05I\
        E\0\0\0\x24SERROR\0CXX000\0Mcode 80 place 0\0\0Z\0\0\0\x05I\
        E\0\0\0\x24SERROR\0CXX000\0Mcode 80 place 0\0\0Z\0\0\0\x05I\
        E\0\0\0\x24SERROR\0CXX000\0Mcode 80 place 0\0\0";
    answers_by(&rt, input, output)
}

/// Compares what refuses an input behind a start at its place.
fn refuses(rt: &(impl Abort + AllocGlobal), bad: &[u8]) -> Result<(), Fail> {
    let mut input = Vec::from_slice(rt.alloc(), b"\0\0\0\x08\0\x03\0\0")?;
    input.extend_from_slice(bad)?;
    let output = b"R\0\0\0\x08\0\0\0\0Z\0\0\0\x05I\
        E\0\0\0\x23SERROR\0CXX000\0Mcode 1 place 8\0\0";
    answers_by(rt, input.as_slice(), output)
}

#[test]
fn no_messages(rt: HostRuntime) -> Result<(), Fail> {
    refuses(&rt, b"p\0\0\0\x04")?;
    refuses(&rt, b"Q\0\0\0\x03")?;
    refuses(&rt, b"S\0\x01\0\x06")?;
    refuses(&rt, b"Q\0\0\0\x04")?;
    refuses(&rt, b"Q\0\0\0\x05t")?;
    refuses(&rt, b"Q\0\0\0\x07t\0\0")?;
    refuses(&rt, b"Q\0\0\0\x07\0t\0")?;
    refuses(&rt, b"Q\0\0\0\x07t\0")?;
    refuses(&rt, b"S\0\0\0")
}

/// Compares what refuses a start.
fn refuses_start(rt: &(impl Abort + AllocGlobal), bad: &[u8]) -> Result<(), Fail> {
    answers_by(rt, bad, b"E\0\0\0\x23SERROR\0CXX000\0Mcode 1 place 0\0\0")
}

#[test]
fn no_starts(rt: HostRuntime) -> Result<(), Fail> {
    refuses_start(&rt, b"\0\0\0\x08\0\x02\0\0")?;
    refuses_start(&rt, b"\0\0\0\x07\0\x03\0\0")?;
    refuses_start(&rt, b"\0\0\x27\x11\0\x03\0\0")?;
    refuses_start(&rt, b"\0\0\0\x09\x04\xd2\x16\x2f\0")?;
    refuses_start(&rt, b"\0\0\0\x09\0\x03\0\0")?;
    refuses_start(&rt, b"\0\0\0")?;
    answers_by(&rt, b"\0\0\0\x10\x04\xd2\x16\x2e\0\0\0\x01\0\0\0\x02", b"")?;
    answers_by(&rt, b"\0\0\0\x08\x04\xd2\x16\x30", b"N")
}
