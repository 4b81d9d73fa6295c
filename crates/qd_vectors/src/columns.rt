//! Stored columns as bytes that were made by hand, and damage where it was looked for by hand.
ghost use Rattle.std.specs.Prelude.{◌≡◌, ◌≤◌, [], ◌∷◌, length, IfOk};

use qd_base::{ColType, Memory};
use qd_block::Block;
use qd_column::Column;
use qd_column_format::{
    AUX, ColumnBytes, ColumnFault, ColumnList, MAIN, decode_column, encode_column, encode_from,
    from_columns, load,
};
use qd_symbols::SymbolMap;
use std::alloc::Global;
use std::process::Abort;
use std::test::Fail;

/// A column of three rows as its two files.
#[derive(Clone, Copy)]
struct Files {
    main: &'static [u8],
    aux: &'static [u8],
}

const LONGS: &[u8] = b"\x05\0\0\0\0\0\0\0\0\0\0\0\0\0\0\x80\xff\xff\xff\xff\xff\xff\xff\xff";

const TIMES: &[u8] = b"\x01\0\0\0\0\0\0\0\x01\0\0\0\0\0\0\0\0\x01\0\0\0\0\0\0";

const TRUTHS: &[u8] = b"\x01\0\x01";

const IDS: &[u8] = b"\0\0\0\0\0\0\0\0\xff\xff\xff\xff\xff\xff\xff\xff\x01\0\0\0\0\0\0\0";

const NAMES: &[u8] = b"\x01\0b\x01\0a";

const MARKS: &[u8] = b"\x04\0\0\0\0\0\0\0\x05\0\0\0\0\0\0\0\x06\0\0\0\0\0\0\0";

const TEXTS: &[u8] = b"xyz";

/// 5, NULL, -1; true, false, true; `b`, NULL, `a`; `xy`, NULL, `z`; the microseconds 1, 1, 256.
fn hand_made(kind: ColType) -> Files {
    match kind {
        ColType::Long => Files {
            main: LONGS,
            aux: b"",
        },
        ColType::Bool => Files {
            main: TRUTHS,
            aux: b"",
        },
        ColType::Symbol => Files {
            main: IDS,
            aux: NAMES,
        },
        ColType::Varchar => Files {
            main: MARKS,
            aux: TEXTS,
        },
        ColType::Time => Files {
            main: TIMES,
            aux: b"",
        },
    }
}

/// Two columns as a list.
fn list_of(
    alloc: Global,
    times: Column<SymbolMap>,
    other: Column<SymbolMap>,
) -> Result<ColumnList<SymbolMap>, Memory>
    ensures { IfOk result (λ l. l ≡ times ∷ other ∷ []) }
{
    let mut columns = ColumnList::new(alloc);
    columns.push(times)?;
    columns.push(other)?;
    Ok(columns)
}

/// A block of the times and a column.
fn block_of(alloc: Global, kind: ColType) -> Result<Block<SymbolMap>, Fail>
    ensures cols { IfOk result (λ b. length b.kinds ≡ 2) }
    ensures rows { IfOk result (λ b. length b.rows ≡ 3) }
{
    let Files { main, aux } = hand_made(kind);
    let times = decode_column(alloc, ColType::Time, 3, TIMES, b"")?;
    let other = decode_column(alloc, kind, 3, main, aux)?;
    let columns = list_of(alloc, times, other)?;
    Ok(from_columns(alloc, columns, 0)?)
}

/// What the rows of a column from `from` on add.
fn added(alloc: Global, kind: ColType, from: u64) -> Result<ColumnBytes, Fail>
    requires { from ≤ 3 }
{
    let block = block_of(alloc, kind)?;
    Ok(encode_column(alloc, &block, 1, from)?)
}

/// The rows from `from` on add these bytes, each at the end of what the rows before them have.
fn check_added(
    rt: &impl Abort,
    alloc: Global,
    kind: ColType,
    from: u64,
    main: &[u8],
    aux: &[u8],
) -> Result<(), Fail>
    requires { from ≤ 3 }
{
    let all = hand_made(kind);
    let bytes = added(alloc, kind, from)?;
    assert!(rt; bytes.main.bytes() == main && bytes.aux.bytes() == aux);
    assert!(rt; bytes.main_at == (all.main.len().wrapping_sub(main.len())) as u64);
    assert!(rt; bytes.aux_at == (all.aux.len().wrapping_sub(aux.len())) as u64);
    Ok(())
}

#[test]
fn columns_are_what_they_were(rt: HostRuntime) -> Result<(), Fail> {
    let alloc = rt.alloc();
    let kinds = [
        ColType::Long,
        ColType::Bool,
        ColType::Symbol,
        ColType::Varchar,
        ColType::Time,
    ];
    for kind in kinds {
        let Files { main, aux } = hand_made(kind);
        check_added(&rt, alloc, kind, 0, main, aux)?;
        check_added(&rt, alloc, kind, 3, b"", b"")?;
    }
    check_added(&rt, alloc, ColType::Long, 1, &LONGS[8..], b"")?;
    check_added(&rt, alloc, ColType::Bool, 1, b"\0\x01", b"")?;
    check_added(&rt, alloc, ColType::Symbol, 1, &IDS[8..], b"\x01\0a")?;
    check_added(&rt, alloc, ColType::Varchar, 1, &MARKS[8..], b"z")
}

/// Where three rows of these bytes are damaged, if they are.
fn damage_of(
    alloc: Global,
    kind: ColType,
    main: &[u8],
    aux: &[u8],
) -> Result<Option<(u8, u64)>, ColumnFault> {
    let answer: Result<Column<SymbolMap>, ColumnFault> = decode_column(alloc, kind, 3, main, aux);
    match answer.err() {
        None => Ok(None),
        Some(ColumnFault::Damaged { half, at }) => Ok(Some((half, at))),
        Some(ColumnFault::Memory) => Err(ColumnFault::Memory),
    }
}

/// Where three rows are damaged once a byte is changed to 0x55, if they are.
fn damage(
    alloc: Global,
    kind: ColType,
    half: u8,
    at: usize,
) -> Result<Option<(u8, u64)>, ColumnFault> {
    let Files { main, aux } = hand_made(kind);
    let mut main = Vec::from_slice(alloc, main)?;
    let mut aux = Vec::from_slice(alloc, aux)?;
    if half == MAIN && at < main.len() {
        main[at] = 0x55;
    }
    if half == AUX && at < aux.len() {
        aux[at] = 0x55;
    }
    damage_of(alloc, kind, main.as_slice(), aux.as_slice())
}

/// Bytes of a half from one up to another, and where the column is damaged with any of them changed.
type Change = (ColType, u8, usize, usize, Option<(u8, u64)>);

const CHANGES: [Change; 20] = [
    (ColType::Long, MAIN, 0, 24, None),
    (ColType::Time, MAIN, 0, 24, None),
    (ColType::Bool, MAIN, 0, 1, Some((MAIN, 0))),
    (ColType::Bool, MAIN, 1, 2, Some((MAIN, 1))),
    (ColType::Bool, MAIN, 2, 3, Some((MAIN, 2))),
    (ColType::Symbol, MAIN, 0, 8, Some((MAIN, 0))),
    (ColType::Symbol, MAIN, 8, 16, Some((MAIN, 8))),
    (ColType::Symbol, MAIN, 16, 24, Some((MAIN, 16))),
    (ColType::Symbol, AUX, 0, 2, Some((AUX, 6))),
    (ColType::Symbol, AUX, 2, 3, None),
    (ColType::Symbol, AUX, 3, 5, Some((AUX, 6))),
    (ColType::Symbol, AUX, 5, 6, None),
    (ColType::Varchar, MAIN, 0, 1, Some((MAIN, 0))),
    (ColType::Varchar, MAIN, 1, 2, Some((MAIN, 8))),
    (ColType::Varchar, MAIN, 2, 8, Some((MAIN, 0))),
    (ColType::Varchar, MAIN, 8, 16, Some((MAIN, 8))),
    (ColType::Varchar, MAIN, 16, 17, Some((MAIN, 16))),
    (ColType::Varchar, MAIN, 17, 18, Some((AUX, 3))),
    (ColType::Varchar, MAIN, 18, 24, Some((MAIN, 16))),
    (ColType::Varchar, AUX, 0, 3, None),
];

#[test]
fn damage_is_found_at_its_byte(rt: HostRuntime) -> Result<(), Fail> {
    for (kind, half, from, to, found) in &CHANGES {
        for at in *from..*to {
            assert!(rt;
                damage(rt.alloc(), *kind, *half, at)? == *found,
                "byte {at}"
            );
        }
    }
    Ok(())
}

/// Bytes that end too early, or go on too far.
type Cut = (ColType, &'static [u8], &'static [u8], Option<(u8, u64)>);

const CUTS: [Cut; 7] = [
    (ColType::Long, b"\0\0\0\0\0\0\0\0\0", b"", Some((MAIN, 9))),
    (ColType::Bool, b"\x01", b"", Some((MAIN, 1))),
    (ColType::Symbol, b"\0", NAMES, Some((MAIN, 1))),
    (ColType::Symbol, IDS, b"\x01\0b\x01", Some((AUX, 4))),
    (ColType::Symbol, IDS, b"\x01\0b\x01\0b", Some((AUX, 3))),
    (ColType::Varchar, MARKS, b"xy", Some((AUX, 2))),
    (ColType::Varchar, MARKS, b"xyzzz", None),
];

#[test]
fn missing_bytes_are_found_at_the_end(rt: HostRuntime) -> Result<(), Fail> {
    for (kind, main, aux, found) in &CUTS {
        assert!(rt; damage_of(rt.alloc(), *kind, main, aux)? == *found);
    }
    Ok(())
}

#[test]
fn dictionaries_come_back(rt: HostRuntime) -> Result<(), Fail> {
    let names: SymbolMap = load(rt.alloc(), NAMES, 2)?;
    assert!(rt; encode_from(rt.alloc(), &names, 0)?.bytes() == NAMES);
    Ok(())
}
