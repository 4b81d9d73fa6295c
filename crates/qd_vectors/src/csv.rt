//! Values from outside: texts with and without quotes as RFC 4180 has them, and a reply that no case of the program has.
use qd_base::{Cell, ColList, Memory, Reply, Row, RowList, Table, Txt};
use qd_print::{csv_of, print_reply};
use std::alloc::Global;
use std::test::Fail;

/// A table of no column and one cell, which is this text.
fn table(alloc: Global, text: &str) -> Result<Table, Memory> {
    let text = Txt::from_bytes(alloc, text.as_bytes())?;
    let mut row = Row::new(alloc);
    row.push(Cell::Text(text))?;
    let mut rows = RowList::new(alloc);
    rows.push(row)?;
    let cols = ColList::new(alloc);
    Ok(Table { cols, rows })
}

#[test]
fn texts_are_printed(rt: HostRuntime) -> Result<(), Fail> {
    let cases = [
        ("plain text", "\nplain text\n"),
        ("", "\n\"\"\n"),
        ("\"", "\n\"\"\"\"\n"),
        ("say \"a\" twice", "\n\"say \"\"a\"\" twice\"\n"),
        ("a,b", "\n\"a,b\"\n"),
        ("a\rb", "\n\"a\rb\"\n"),
        ("a\nb", "\n\"a\nb\"\n"),
    ];
    for (text, wanted) in cases {
        let printed = csv_of(rt.alloc(), &table(rt.alloc(), text)?)?;
        assert!(rt; printed.bytes() == wanted.as_bytes(), "at {text}");
    }
    Ok(())
}

#[test]
fn damage_is_printed(rt: HostRuntime) -> Result<(), Fail> {
    let reply = Reply::Damaged {
        file: u64::MAX,
        at: 10,
    };
    let printed = print_reply(rt.alloc(), &reply)?;
    assert!(rt; printed.bytes() == b"D 18446744073709551615 10\n".as_slice());
    Ok(())
}
