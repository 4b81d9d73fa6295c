//! Results as CSV, and replies as the bytes that a wire carries.
#![tactic(auto)]

ghost use Rattle.std.specs.Prelude.{◌≡◌, ◌==◌, ◌∷◌, ◌++◌, [], decimal, flat_map, map, if◌then◌else◌, IfOk, OnOk};
ghost use Rattle.qd_base.specs.declared.schema.Col.{Col};
ghost use Rattle.qd_base.specs.declared.cell.Cell.TheVariants as cell;
ghost use Rattle.qd_base.specs.declared.request.Reply.TheVariants as reply;
ghost use Rattle.qd_print.specs.Printed.{csv, csv_cell, csv_line, csv_text, needs_quotes, quoted, reply_bytes};

mod lengths;

use itoa::{Buffer, Integer};
use lengths::csv_len;
pub use lengths::{header_len, long_len, text_len};
use qd_base::{Cell, Col, MAX_TIME, Memory, Reply, Row, Table, Txt};
use qd_time::print_time;
use std::alloc::Global;

/// The greatest length of a reply's line: a letter, three numbers of 20 digits with a space before each, and LF.
const LINE_BYTES: usize = 65;

/// Prints a result as CSV: that of RFC 4180 with a header line, with lines that end with LF, and with quotes only where a
/// text needs them or is empty. NULL is empty.
///
/// It costs time linear in what it prints. The bytes are counted first, so that it takes its memory at once, and no more
/// than they need.
pub fn csv_of(alloc: Global, table: &Table) -> Result<Txt, Memory>
    ensures text { IfOk result (λ text. text ≡ csv table.now) }
{
    let mut out = Vec::with_capacity(alloc, csv_len(table))?;
    push_csv(&mut out, table)?;
    Ok(Txt::from_vec(out))
}

/// Prints a reply: a line that begins with its letter and has its numbers, and behind that of rows their CSV, whose length
/// the line gives.
///
/// It costs time linear in what it prints. The CSV is counted first, and printed once, behind its length.
pub fn print_reply(alloc: Global, reply: &Reply) -> Result<Txt, Memory>
    ensures bytes { IfOk result (λ bytes. bytes ≡ reply_bytes reply.now) }
{
    let mut out = Vec::with_capacity(alloc, LINE_BYTES)?;
    match reply {
        Reply::Done { n } => push_line(&mut out, b'K', &[*n])?,
        Reply::Rows { n, table } => push_rows(&mut out, *n, table)?,
        Reply::Applied { n } => push_line(&mut out, b'A', &[*n])?,
        Reply::Refused { code, place } => push_line(&mut out, b'E', &[u64::from(*code), *place])?,
        Reply::QueryRefused { n, code, place } => {
            push_line(&mut out, b'F', &[*n, u64::from(*code), *place])?
        }
        Reply::Damaged { file, at } => push_line(&mut out, b'D', &[*file, *at])?,
        Reply::Bye => push_line(&mut out, b'X', &[])?,
    }
    Ok(Txt::from_vec(out))
}

/// Appends a reply of rows over the first `n` transactions.
fn push_rows(out: &mut Vec<u8>, n: u64, table: &Table) -> Result<(), Memory>
    ensures { OnOk result (out.new.items ≡ out.old.items ++ reply_bytes (reply.Rows n table.now)) }
{
    let len = csv_len(table);
    push_line(out, b'R', &[n, len as u64])?;
    // A count that stopped at the greatest number finds no memory here.
    out.reserve_exact(len)?;
    push_csv(out, table)
}

/// Appends a letter, the numbers in decimal with a space before each, and LF.
fn push_line(out: &mut Vec<u8>, letter: u8, numbers: &[u64]) -> Result<(), Memory>
    ensures { OnOk result (out.new.items
        ≡ out.old.items ++ letter ∷ (flat_map (λ n. 32 ∷ decimal n) numbers.now ++ 10 ∷ [])) }
{
    out.push(letter)?;
    for n in numbers {
        out.push(b' ')?;
        push_number(out, *n)?;
    }
    out.push(b'\n')?;
    Ok(())
}

/// Appends the header line, and a line for each row.
fn push_csv(out: &mut Vec<u8>, table: &Table) -> Result<(), Memory>
    ensures { OnOk result (out.new.items ≡ out.old.items ++ csv table.now) }
{
    push_header(out, table.cols.as_slice())?;
    for row in table.rows.as_slice() {
        push_row(out, row)?;
    }
    Ok(())
}

/// Appends the line of the columns' names.
fn push_header(out: &mut Vec<u8>, cols: &[Col]) -> Result<(), Memory>
    ensures { OnOk result (out.new.items
        ≡ out.old.items ++ csv_line (map (λ (c : Col). csv_text c.name) cols.now)) }
{
    for (i, col) in cols.iter().enumerate() {
        push_comma(out, i)?;
        push_text(out, col.name.bytes())?;
    }
    out.push(b'\n')?;
    Ok(())
}

/// Appends the line of a row.
fn push_row(out: &mut Vec<u8>, row: &Row) -> Result<(), Memory>
    ensures { OnOk result (out.new.items ≡ out.old.items ++ csv_line (map csv_cell row.now)) }
{
    for (i, cell) in row.as_slice().iter().enumerate() {
        push_comma(out, i)?;
        push_cell(out, cell)?;
    }
    out.push(b'\n')?;
    Ok(())
}

/// Appends the comma before the field at position `i`, which the first lacks.
fn push_comma(out: &mut Vec<u8>, i: usize) -> Result<(), Memory>
    ensures { OnOk result (out.new.items ≡ out.old.items ++ (if i == 0 then [] else 44 ∷ [])) }
{
    if i > 0 {
        out.push(b',')?;
    }
    Ok(())
}

/// Appends one cell.
fn push_cell(out: &mut Vec<u8>, cell: &Cell) -> Result<(), Memory>
    ensures { OnOk result (out.new.items ≡ out.old.items ++ csv_cell cell.now) }
{
    match cell {
        Cell::Null => Ok(()),
        Cell::Long(value) => push_number(out, *value),
        Cell::Bool(true) => out.extend_from_slice(b"true"),
        Cell::Bool(false) => out.extend_from_slice(b"false"),
        Cell::Text(text) => push_text(out, text.bytes()),
        Cell::Time(ts) => push_time(out, *ts),
    }
}

/// Appends a moment, or nothing for a number that is none.
fn push_time(out: &mut Vec<u8>, ts: u64) -> Result<(), Memory>
    ensures { OnOk result (out.new.items ≡ out.old.items ++ csv_cell (cell.Time ts)) }
{
    if ts <= MAX_TIME {
        out.extend_from_slice(&print_time(ts))?;
    }
    Ok(())
}

/// Appends a number in decimal.
fn push_number<I: Integer>(out: &mut Vec<u8>, n: I) -> Result<(), Memory>
    ensures { OnOk result (out.new.items ≡ out.old.items ++ I.text n) }
{
    out.extend_from_slice(Buffer::new().format(n).as_bytes())
}

/// Appends a text, in quotes where it needs them.
fn push_text(out: &mut Vec<u8>, text: &[u8]) -> Result<(), Memory>
    ensures { OnOk result (out.new.items ≡ out.old.items ++ csv_text text.now) }
{
    if is_quoted(text) {
        push_quoted(out, text)
    } else {
        out.extend_from_slice(text)
    }
}

/// Says whether a text stands in quotes.
fn is_quoted(text: &[u8]) -> bool
    ensures { result ≡ needs_quotes text.now }
{
    text.is_empty()
        || text
            .iter()
            .any(|b| *b == b'"' || *b == b',' || *b == b'\r' || *b == b'\n')
}

/// Appends a text in quotes, each quote in it doubled.
fn push_quoted(out: &mut Vec<u8>, text: &[u8]) -> Result<(), Memory>
    ensures { OnOk result (out.new.items ≡ out.old.items ++ quoted text.now) }
{
    out.push(b'"')?;
    // What lies before `start` is written. A quote is written with the stretch that it ends, and begins the next.
    let mut start = 0;
    for (i, b) in text.iter().enumerate() {
        if *b == b'"' {
            out.extend_from_slice(&text[start..i + 1])?;
            start = i;
        }
    }
    out.extend_from_slice(&text[start..])?;
    out.push(b'"')?;
    Ok(())
}
