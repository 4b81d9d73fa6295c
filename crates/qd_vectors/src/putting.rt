//! Rows that are put into the rows of a table. What has to stand then is worked out by hand, from QuestDB's rules of
//! designated timestamps and deduplication.
use qd_base::{Cell, KeyList, Memory, Row, RowList, Txt};
use qd_reference::{put, put_all};
use std::alloc::Global;
use std::process::Abort;
use std::test::Fail;

/// A row: a moment, a name, and a number that tells it from others.
fn row(alloc: Global, time: u64, name: u8, number: i64) -> Result<Row, Memory> {
    let name = Txt::from_bytes(alloc, &[name])?;
    let mut row = Row::new(alloc);
    row.push(Cell::Time(time))?;
    row.push(Cell::Text(name))?;
    row.push(Cell::Long(number))?;
    Ok(row)
}

/// Rows of these moments and names, numbered from 1 on.
fn rows(alloc: Global, given: &[(u64, u8)]) -> Result<RowList, Memory> {
    let mut rows = RowList::new(alloc);
    let mut number: i64 = 0;
    for (time, name) in given {
        number = number.wrapping_add(1);
        rows.push(row(alloc, *time, *name, number)?)?;
    }
    Ok(rows)
}

/// Compares the numbers of rows.
fn check_numbers(rt: &impl Abort, rows: &RowList, wanted: &[i64]) {
    assert!(rt; rows.len() == wanted.len());
    for (row, wanted) in rows.as_slice().iter().zip(wanted) {
        assert!(rt; matches!(row.as_slice().last(), Some(Cell::Long(number)) if number == wanted));
    }
}

#[test]
fn the_last_of_equal_keys_stays(rt: HostRuntime) -> Result<(), Fail> {
    let alloc = rt.alloc();
    let mut keys = KeyList::new(alloc);
    keys.push(0)?;
    keys.push(1)?;
    let new = rows(alloc, &[(1, b'a'), (1, b'b'), (1, b'a')])?;
    let rows = put_all(alloc, &RowList::new(alloc), new.as_slice(), 0, &keys)?;
    check_numbers(&rt, &rows, &[2, 3]);
    Ok(())
}

#[test]
fn equal_times_keep_order_and_a_late_row_comes_in_time(rt: HostRuntime) -> Result<(), Fail> {
    let alloc = rt.alloc();
    let keys = KeyList::new(alloc);
    let new = rows(alloc, &[(1, b'a'), (2, b'a'), (2, b'a'), (1, b'a')])?;
    let rows = put_all(alloc, &RowList::new(alloc), new.as_slice(), 0, &keys)?;
    let rows = put(alloc, &rows, &row(alloc, 0, b'a', 5)?, 0, &keys)?;
    check_numbers(&rt, &rows, &[5, 1, 4, 2, 3]);
    Ok(())
}
