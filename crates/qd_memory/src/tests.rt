//! Tests of what no clause says: that transactions are applied where memory is found, and that the blocks of partitions
//! without a new row are kept. The wanted rows are by hand from the written meaning.
ghost use Rattle.std.specs.Prelude.{◌≡◌, ◌<◌, length};

use crate::ListParts;
use qd_base::{Cell, Memory};
use qd_ilp::parse_batch;
use qd_lines::{batches_are_lawful, entry_of};
use qd_scan::{PartSource, scan};
use std::alloc::{AllocError, AllocGlobal, Global};
use std::fmt;
use std::process::Abort;
use std::sync::Arc;
use std::test::Fail;

/// Parts without a table.
fn no_parts(alloc: Global) -> Result<Box<ListParts>, Memory> {
    Ok(Box::new(alloc, ListParts::new(alloc))?)
}

/// Applies the transaction of lines; says whether it did.
fn apply(alloc: Global, source: &mut ListParts, lines: &str) -> Result<bool, Memory> {
    batches_are_lawful();
    source.keeps_its_law();
    let batch = parse_batch(alloc, lines.as_bytes())?;
    let Ok(entry) = entry_of(alloc, source.schemas(), &batch, 0) else {
        return Ok(false);
    };
    source.apply(alloc, &[entry])?;
    Ok(true)
}

/// Writes a cell; NULL is nothing.
fn show_cell(text: &mut String, cell: &Cell) -> Result<(), AllocError> {
    match cell {
        Cell::Null => Ok(()),
        Cell::Long(x) => write!(text, "{x}"),
        Cell::Bool(x) => write!(text, "{x}"),
        Cell::Text(x) => {
            for byte in x.bytes() {
                text.push(*byte as char)?;
            }
            Ok(())
        }
        Cell::Time(x) => write!(text, "{x}"),
    }
}

/// Writes the rows of a table, as a scan of all moments gives them: a comma behind each cell, a semicolon behind each row.
fn show_rows(
    alloc: Global,
    text: &mut String,
    source: &mut ListParts,
    table: usize,
) -> Result<(), AllocError>
    requires { table < length source.old.schemas }
{
    let Ok(rows) = scan(alloc, source, table, 0, u64::MAX) else {
        return Err(AllocError);
    };
    for i in 0..rows.len() {
        for cell in rows.row(i)?.as_slice() {
            show_cell(text, cell)?;
            text.push(',')?;
        }
        text.push(';')?;
    }
    Ok(())
}

/// What is shown of a table: how many rows each of its parts has, and behind a colon all rows.
fn shown(alloc: Global, source: &mut ListParts, table: usize) -> Result<String, AllocError> {
    let mut text = String::new(alloc);
    if source.schemas().len() <= table {
        return Ok(text);
    }
    for part in source.parts(table).as_slice() {
        write!(text, "{} ", part.rows)?;
    }
    text.push(':')?;
    show_rows(alloc, &mut text, source, table)?;
    Ok(text)
}

/// Stops where two texts differ.
fn same(rt: &impl Abort, text: &str, wanted: &str) {
    assert_eq!(rt; text, wanted);
}

/// Applies lines, and compares what is shown of a table then.
fn gives(
    rt: &(impl Abort + AllocGlobal),
    source: &mut ListParts,
    lines: &str,
    table: usize,
    wanted: &str,
) -> Result<(), Fail> {
    let alloc = rt.alloc();
    let applied = apply(alloc, source, lines)?;
    assert!(rt; applied);
    let text = shown(alloc, source, table)?;
    same(rt, text.as_str(), wanted);
    Ok(())
}

/// Applies lines; says whether a part of the first table has the same block as before.
fn keeps(alloc: Global, source: &mut ListParts, lines: &str, i: usize) -> Result<bool, Memory> {
    if source.schemas().is_empty() {
        return Ok(false);
    }
    if source.parts(0).len() <= i {
        return Ok(false);
    }
    let Ok(block) = source.part(alloc, 0, i) else {
        return Err(AllocError);
    };
    apply(alloc, source, lines)?;
    Ok(1 < Arc::strong_count(&block))
}

/// Two rows of the first day, out of order, and one of the third.
const THREE_ROWS: &str = "t v=2i 3000\nt v=5i 172800000000000\nt v=1i 1000\n";

#[test]
fn rows_lie_in_time_by_partition(rt: HostRuntime) -> Result<(), Fail> {
    let mut source = no_parts(rt.alloc())?;
    for (lines, table, wanted) in [
        ("t v=2i 3000\n", 0, "1 :2,3,;"),
        (THREE_ROWS, 0, "3 1 :1,1,;2,3,;2,3,;5,172800000000,;"),
        (
            "t v=4i 1000\nt v=3i 86400000000000\n",
            0,
            "4 1 1 :1,1,;4,1,;2,3,;2,3,;3,86400000000,;5,172800000000,;",
        ),
        (
            "t v=6i 2000\nt v=7i,b=t,w=8i 172800000001000\n",
            0,
            "5 1 2 :1,1,false,,;4,1,false,,;6,2,false,,;2,3,false,,;2,3,false,,;3,86400000000,false,,;5,172800000000,false,,;7,172800000001,true,8,;",
        ),
        (
            "u,k=a w=2i 86400000000000\nu,k=b w=3i 5000\n",
            1,
            "1 1 :b,3,5,;a,2,86400000000,;",
        ),
        (
            "u,k=a w=4i 6000\n",
            1,
            "2 1 :b,3,5,;a,4,6,;a,2,86400000000,;",
        ),
    ] {
        gives(&rt, &mut source, lines, table, wanted)?;
    }
    Ok(())
}

#[test]
fn other_blocks_are_kept(rt: HostRuntime) -> Result<(), Fail> {
    let alloc = rt.alloc();
    let mut source = no_parts(alloc)?;
    gives(
        &rt,
        &mut source,
        THREE_ROWS,
        0,
        "2 1 :1,1,;2,3,;5,172800000000,;",
    )?;
    for (lines, i, wanted) in [
        ("t v=9i 2000\n", 1, true),
        ("t v=9i 2000\n", 0, false),
        ("t v=9i,c=1i 86400000000000\n", 0, true),
    ] {
        let kept = keeps(alloc, &mut source, lines, i)?;
        assert!(rt; kept == wanted);
    }
    Ok(())
}
