//! Manifests as bytes that were written by hand, and damage where it was looked for by hand.
use qd_base::{ColType, Memory, PartUnit};
use qd_manifest::{Manifest, ManifestFault, TableParts, manifest_of, read_manifest};
use std::alloc::Global;
use std::test::Fail;

/// Three tables: `trips` by day with two parts, `Fahrt.x` by month with two keys and a part, `y` by year without parts.
///
/// The next block is 7. The lines are the head; the schema of `trips`, how many parts, block 0 (three rows of one column)
/// from the first day's first microsecond to its last, block 6 (one row of two columns) at the second day's first; the
/// schema of `Fahrt.x`, how many parts, block 2 (five rows of three columns) at the first two microseconds; `y`.
const THREE: &[u8] = b"\x07\0\0\0\0\0\0\0\x03\0\
\x05trips\x02\0\x05\x02ts\x03\x04city\0\0\x02\0\0\
\x02\0\0\0\0\0\0\0\
\0\0\0\0\0\0\0\0\x03\0\0\0\0\0\0\0\x01\0\
\0\0\0\0\0\0\0\0\xFF\x5F\xD7\x1D\x14\0\0\0\
\x06\0\0\0\0\0\0\0\x01\0\0\0\0\0\0\0\x02\0\
\0\x60\xD7\x1D\x14\0\0\0\0\x60\xD7\x1D\x14\0\0\0\
\x07Fahrt.x\x03\0\x01\x01n\x05\x01t\x04\x01v\x01\0\x03\x02\0\x01\0\0\0\
\x01\0\0\0\0\0\0\0\
\x02\0\0\0\0\0\0\0\x05\0\0\0\0\0\0\0\x03\0\
\0\0\0\0\0\0\0\0\x01\0\0\0\0\0\0\0\
\x01y\x02\0\x02\x01b\x05\x02t2\x01\0\x04\x01\0\x01\0\0\0\0\0\0\0\0\0";

/// The bytes of the three tables with this value at a place.
fn three(alloc: Global, at: usize, value: u8) -> Result<Vec<u8>, Memory> {
    let mut bytes = Vec::from_slice(alloc, THREE)?;
    if let Some(byte) = bytes.get_mut(at) {
        *byte = value;
    }
    Ok(bytes)
}

/// Whether a table has so many parts, this unit, and a last column of this type.
fn is_table(table: &TableParts, parts: usize, unit: PartUnit, last: ColType) -> bool {
    let kind = table.schema.cols.as_slice().last().map(|col| col.kind);
    table.parts.len() == parts && table.schema.unit == unit && kind == Some(last)
}

/// Whether a manifest has the three tables.
fn has_three(manifest: &Manifest) -> bool {
    let [trips, fahrt, y] = manifest.shape.as_slice() else {
        return false;
    };
    manifest.next_block == 7
        && is_table(trips, 2, PartUnit::Day, ColType::Symbol)
        && is_table(fahrt, 1, PartUnit::Month, ColType::Varchar)
        && is_table(y, 0, PartUnit::Year, ColType::Time)
}

/// Whether bytes are read as a manifest of the three tables that is written as the same bytes.
fn comes_back(alloc: Global, bytes: &[u8]) -> Result<bool, Memory> {
    match read_manifest(alloc, 1, bytes) {
        Ok(manifest) => {
            let text = manifest_of(alloc, manifest.next_block, &manifest.shape)?;
            Ok(has_three(&manifest) && text.bytes() == bytes)
        }
        Err(_) => Ok(false),
    }
}

#[test]
fn three_tables_are_read_and_written(rt: HostRuntime) -> Result<(), Fail> {
    assert!(rt; comes_back(rt.alloc(), THREE)?);
    Ok(())
}

/// What is wrong with bytes.
fn fault_of(alloc: Global, bytes: &[u8]) -> Option<ManifestFault> {
    read_manifest(alloc, 1, bytes).err()
}

#[test]
fn damage_is_found(rt: HostRuntime) -> Result<(), Fail> {
    // The place of a byte, what is put there, and where the damage is.
    let cases: [(usize, u8, u64); 21] = [
        (0, 6, 75),
        (8, 4, 205),
        (10, 0, 10),
        (16, 1, 22),
        (18, 6, 18),
        (20, 46, 19),
        (28, 1, 28),
        (30, 5, 30),
        (31, 1, 33),
        (49, 0, 49),
        (57, 0, 57),
        (57, 3, 57),
        (75, 0, 75),
        (86, 1, 83),
        (94, 0x5F, 93),
        (101, 1, 101),
        (133, 2, 135),
        (135, 1, 135),
        (145, 6, 145),
        (197, 1, 205),
        (204, 1, 205),
    ];
    for (at, value, place) in cases {
        let fault = fault_of(rt.alloc(), &three(rt.alloc(), at, value)?);
        assert!(rt;
            fault == Some(ManifestFault::Damaged { at: place }),
            "byte {at}"
        );
    }
    Ok(())
}
