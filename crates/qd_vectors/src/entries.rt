//! Entries of the write-ahead log as bytes that were written by hand, and damage where it was looked for by hand.
use qd_base::{Cell, Entry, Memory, Op, Txt};
use qd_wal_entry::{EntryFault, EntryWriter, decode_entry, encode_entry};
use std::alloc::Global;
use std::test::Fail;

/// The table `t` with the number `v` and its time, by day, and the row of the number 1 at 2024-01-01.
const FIRST_ROW: &[u8] =
    b"\0\0\0\0\x02\0\0\0\x01\x01t\x02\0\x01\x01v\x05\x09timestamp\x01\0\x02\0\0\x03\x01t\x02\0\x01\0\0\0\x01\x01\0\0\0\0\0\0\0\x05\0 !\x10\xD7\x0D\x06\0";

/// The texts `b` and `c`; the table `u` with the columns `s` and `time`, its one key; the column `x`; three rows of three cells;
/// and no rows.
const PIECES: [&[u8]; 8] = [
    b"\x02\0\0\0\x01\0b\x01\0c\x04\0\0\0",
    b"\x01\x01u\x02\0\x03\x01s\x05\x04time\x01\0\x04\x01\0\x01\0",
    b"\x02\x01u\x02\x01x",
    b"\x03\x01u\x03\0\x03\0\0\0",
    b"\x04\0\0\0\0\x05\x01\0\0\0\0\0\0\0\x02",
    b"\x00\x05\x02\0\0\0\0\0\0\0\x03",
    b"\x04\x01\0\0\0\x01\xFF\xFF\xFF\xFF\xFF\xFF\xFF\xFF\x04\0\0\0\0",
    b"\x03\x01t\0\0\0\0\0\0",
];

/// Other keys for the table `t`: its second column.
const OTHER_KEYS: &[u8] = b"\0\0\0\0\x01\0\0\0\x04\x01t\x01\0\x01\0";

/// The bytes of the pieces, 104 of them, with this value at a place.
fn pieces(alloc: Global, at: usize, value: u8) -> Result<Vec<u8>, Memory> {
    let mut bytes = Vec::new(alloc);
    for piece in PIECES {
        bytes.extend_from_slice(piece)?;
    }
    if let Some(byte) = bytes.get_mut(at) {
        *byte = value;
    }
    Ok(bytes)
}

/// What the one row of an entry's second change has: a number and a time.
fn second_row(entry: &Entry) -> Option<(i64, u64)> {
    let Some(Op::Insert { rows, .. }) = entry.ops.as_slice().get(1) else {
        return None;
    };
    let [row] = rows.as_slice() else {
        return None;
    };
    match row.as_slice() {
        [Cell::Long(number), Cell::Time(time)] => Some((*number, *time)),
        _ => None,
    }
}

/// Whether bytes are read as an entry, with this row, that is written as the same bytes.
fn comes_back(alloc: Global, bytes: &[u8], row: Option<(i64, u64)>) -> Result<bool, Memory> {
    match decode_entry(alloc, bytes) {
        Ok(entry) => {
            let text = encode_entry(alloc, &entry)?;
            Ok(second_row(&entry) == row && text.bytes() == bytes)
        }
        Err(_) => Ok(false),
    }
}

#[test]
fn entries_are_read_and_written(rt: HostRuntime) -> Result<(), Fail> {
    let first = Some((1, 1_704_067_200_000_000));
    assert!(rt; comes_back(rt.alloc(), FIRST_ROW, first)?);
    assert!(rt; comes_back(rt.alloc(), &pieces(rt.alloc(), 104, 0)?, None)?);
    assert!(rt; comes_back(rt.alloc(), OTHER_KEYS, None)?);
    Ok(())
}

/// The entry of other keys, written change by change.
fn written_keys(alloc: Global) -> Result<Option<Txt>, Memory> {
    let mut writer = EntryWriter::new(alloc)?;
    if !writer.has_room() {
        return Ok(None);
    }
    writer.set_keys(b"t", &[1])?;
    let bytes = writer.finish()?;
    Ok(Some(bytes))
}

#[test]
fn keys_are_written(rt: HostRuntime) -> Result<(), Fail> {
    let bytes = written_keys(rt.alloc())?;
    assert!(rt; bytes.is_some_and(|bytes| bytes.bytes() == OTHER_KEYS));
    Ok(())
}

#[test]
fn missing_keys_are_damage(rt: HostRuntime) {
    for len in 8..OTHER_KEYS.len() {
        let fault = fault_of(rt.alloc(), &OTHER_KEYS[..len]);
        assert!(rt;
            fault == Some(EntryFault::Damaged { at: len as u64 }),
            "the first {len}"
        );
    }
}

/// What is wrong with bytes.
fn fault_of(alloc: Global, bytes: &[u8]) -> Option<EntryFault> {
    decode_entry(alloc, bytes).err()
}

#[test]
fn damage_is_found(rt: HostRuntime) -> Result<(), Fail> {
    // The place of a byte, what is put there, and where the damage is.
    let cases: [(usize, u8, u64); 19] = [
        (0, 1, 11),
        (9, 98, 7),
        (10, 3, 95),
        (10, 5, 104),
        (14, 0, 14),
        (14, 4, 104),
        (14, 5, 14),
        (19, 6, 19),
        (30, 5, 30),
        (38, 0, 38),
        (44, 0, 46),
        (46, 0, 46),
        (50, 6, 50),
        (51, 1, 51),
        (77, 0, 7),
        (77, 2, 77),
        (98, 1, 100),
        (100, 1, 100),
        (96, 200, 104),
    ];
    for (at, value, place) in cases {
        let fault = fault_of(rt.alloc(), &pieces(rt.alloc(), at, value)?);
        assert!(rt;
            fault == Some(EntryFault::Damaged { at: place }),
            "byte {at}"
        );
    }
    Ok(())
}
