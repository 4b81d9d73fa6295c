//! Tests of what no clause says: that names are judged as they are meant to be, and that the calls that no session makes
//! succeed where memory is found.
use qd_base::{
    Cell, Col, ColList, ColType, Duplicate, Entry, KeyList, Memory, Op, OpList, PartUnit, RefList,
    Row, RowList, Schema, Schemas, Table, Txt, WalRef, column_name_ok, same_name, table_name_ok,
};
use std::alloc::Global;
use std::test::Fail;

#[test]
fn names_are_judged(rt: HostRuntime) {
    let long = [b'a'; 128];
    let cases: [(&[u8], bool, bool); 17] = [
        (b"a", true, true),
        (b"Stra\xc3\x9fe 1", true, true),
        (&long[..127], true, true),
        (&long, false, false),
        (b"", false, false),
        (b"a-b", true, false),
        (b"a.b", true, false),
        (b".a", false, false),
        (b"a.", false, false),
        (b"a..b", false, false),
        (b".", false, false),
        (b"a\tb", false, false),
        (b"a\x7f", false, false),
        (b"\xff", false, false),
        (b"\xc3", false, false),
        (b"a?b", false, false),
        (b"a~", false, false),
    ];
    for (name, table, column) in cases {
        assert!(rt; table_name_ok(name) == table && column_name_ok(name) == column);
    }
    assert!(rt; same_name(b"Trades", b"tRADES"));
    assert!(rt; !same_name(b"trades", b"trade"));
    assert!(rt; !same_name(b"\xc3\xa4", b"\xc3\x84"));
}

#[test]
fn lists_take_items_between_others(rt: HostRuntime) -> Result<(), Fail> {
    let mut keys = KeyList::with_capacity(rt.alloc(), 1)?;
    keys.push(8)?;
    keys.insert(1, 9)?;
    keys.insert(0, 7)?;
    assert_eq!(rt; keys.as_slice(), [7, 8, 9].as_slice());
    Ok(())
}

/// A row of two cells.
fn rows(alloc: Global) -> Result<RowList, Memory> {
    let text = Txt::from_bytes(alloc, b"x")?;
    let mut row = Row::new(alloc);
    row.push(Cell::Long(-1))?;
    row.push(Cell::Text(text))?;
    let mut rows = RowList::new(alloc);
    rows.push(row)?;
    Ok(rows)
}

/// A transaction that puts one row into a table.
fn entry(alloc: Global) -> Result<Entry, Memory> {
    let table = Txt::from_bytes(alloc, b"a")?;
    let rows = rows(alloc)?;
    let mut ops = OpList::new(alloc);
    ops.push(Op::Insert { table, rows })?;
    Ok(Entry { ops })
}

#[test]
fn transactions_are_copied(rt: HostRuntime) -> Result<(), Fail> {
    let copy = entry(rt.alloc())?.copy()?;
    assert_eq!(rt; copy.ops.len(), 1);
    Ok(())
}

/// A table of one column, the designated one, without keys.
fn moments(alloc: Global) -> Result<Schema, Memory> {
    let mut cols = ColList::new(alloc);
    cols.push(Col {
        name: Txt::from_bytes(alloc, b"ts")?,
        kind: ColType::Time,
    })?;
    Ok(Schema {
        name: Txt::from_bytes(alloc, b"m")?,
        cols,
        time_col: 0,
        unit: PartUnit::Day,
        keys: KeyList::new(alloc),
    })
}

/// A change that gives the table `m` one key.
fn key_of_m(alloc: Global, key: u32) -> Result<Op, Memory> {
    let table = Txt::from_bytes(alloc, b"M")?;
    let mut keys = KeyList::new(alloc);
    keys.push(key)?;
    Ok(Op::SetKeys { table, keys })
}

/// Makes a change of the schemas where it fits, and says whether it did.
fn change(schemas: &mut Schemas, op: &Op) -> Result<bool, Memory> {
    if !schemas.fits(op) {
        return Ok(false);
    }
    schemas.apply(op)?;
    Ok(true)
}

#[test]
fn keys_are_set(rt: HostRuntime) -> Result<(), Fail> {
    let mut schemas = Schemas::new(rt.alloc());
    let schema = moments(rt.alloc())?;
    let set = key_of_m(rt.alloc(), 0)?.copy()?;
    assert!(rt; set.sets_keys() && !change(&mut schemas, &set)?);
    assert!(rt; change(&mut schemas, &Op::Create { schema })?);
    assert!(rt; !change(&mut schemas, &key_of_m(rt.alloc(), 1)?)?);
    assert!(rt; change(&mut schemas, &set)?);
    assert!(rt; schemas.len() == 1 && schemas.get(0).keys.as_slice() == [0].as_slice());
    Ok(())
}

#[test]
fn results_are_copied(rt: HostRuntime) -> Result<(), Fail> {
    let rows = rows(rt.alloc())?;
    let cols = ColList::new(rt.alloc());
    let table = Table { cols, rows };
    assert_eq!(rt; table.copy()?.rows.len(), 1);
    Ok(())
}

#[test]
fn places_are_copied(rt: HostRuntime) -> Result<(), Fail> {
    let place = WalRef {
        wal: 1,
        segment: 2,
        start: 3,
        len: 4,
    };
    let mut places = RefList::new(rt.alloc());
    places.push(place)?;
    assert_eq!(rt; places.copy()?.as_slice(), [place].as_slice());
    Ok(())
}
