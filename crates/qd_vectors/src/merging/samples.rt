//! A small table for tests: its rows, and blocks of them.
ghost use Rattle.std.specs.Prelude.{◌≡◌, ◌≤◌, All, Contains, IfOk, OnOk};
ghost use Rattle.qd_base.specs.declared.limits.TheConstants.{MAX_TIME as greatest};
ghost use Rattle.qd_base.specs.declared.schema.ColType.TheVariants as kind;
ghost use Rattle.qd_base.specs.Lawful.{Takes};
ghost use Rattle.qd_block.specs.Blocks.{kinds_in, in_time_order};
ghost use Rattle.qd_vectors.specs.Tables.{older_kinds, table_kinds, IsOfTable, IsOlderRow, IsTable, IsTableRow};
ghost use Rattle.qd_merge.specs.Laws.{AreKeys};

use qd_base::{Cell, Col, ColList, ColType, KeyList, Memory, PartUnit, Row, RowList, Schema, Txt};
use qd_merge::Block;
use std::alloc::Global;

/// A row of a moment, a number, a name, and a truth value.
fn row(alloc: Global, time: u64, number: u32, name: u8) -> Result<Row, Memory>
    requires time { time ≤ greatest }
    ensures row { IfOk result IsTableRow }
{
    let mut row = older_row(alloc, time, number)?;
    row.push(name_cell(alloc, name)?)?;
    row.push(Cell::Bool(number % 2 == 1))?;
    Ok(row)
}

/// A row of the table before it got names and truth values.
fn older_row(alloc: Global, time: u64, number: u32) -> Result<Row, Memory>
    requires time { time ≤ greatest }
    ensures row { IfOk result IsOlderRow }
{
    let mut row = Row::new(alloc);
    row.push(Cell::Time(time))?;
    row.push(Cell::Long(i64::from(number)))?;
    Ok(row)
}

/// A name of one letter.
fn name_cell(alloc: Global, letter: u8) -> Result<Cell, Memory>
    ensures name { IfOk result (Takes kind.Symbol) }
{
    Ok(Cell::Text(Txt::from_bytes(alloc, &[letter])?))
}

/// A column of this kind.
fn col(alloc: Global, kind: ColType) -> Result<Col, Memory>
    ensures kind { IfOk result (λ c. c.kind ≡ kind) }
{
    let name = Txt::from_bytes(alloc, b"c")?;
    Ok(Col { name, kind })
}

/// The columns of the table before it got names and truth values.
fn older_columns(alloc: Global) -> Result<ColList, Memory>
    ensures kinds { IfOk result (λ cols. kinds_in cols ≡ older_kinds) }
{
    let mut cols = ColList::new(alloc);
    cols.push(col(alloc, ColType::Time)?)?;
    cols.push(col(alloc, ColType::Long)?)?;
    Ok(cols)
}

/// The columns of the table.
fn columns(alloc: Global) -> Result<ColList, Memory>
    ensures kinds { IfOk result (λ cols. kinds_in cols ≡ table_kinds) }
{
    let mut cols = older_columns(alloc)?;
    cols.push(col(alloc, ColType::Symbol)?)?;
    cols.push(col(alloc, ColType::Bool)?)?;
    Ok(cols)
}

/// The moment and the name as keys.
fn moment_and_name(alloc: Global) -> Result<KeyList, Memory>
    ensures moment { IfOk result (λ keys. Contains keys 0) }
{
    let mut keys = KeyList::new(alloc);
    keys.push(0)?;
    keys.push(2)?;
    Ok(keys)
}

/// The moment and the name as keys, or none.
fn key_columns(alloc: Global, keyed: bool) -> Result<KeyList, Memory>
    ensures keys { IfOk result (AreKeys 0) }
{
    if keyed {
        return moment_and_name(alloc);
    }
    Ok(KeyList::new(alloc))
}

/// The table: partitions of an hour, with keys or without.
pub(super) fn table(alloc: Global, keyed: bool) -> Result<Schema, Memory>
    ensures table { IfOk result IsTable }
{
    let name = Txt::from_bytes(alloc, b"t")?;
    let cols = columns(alloc)?;
    let keys = key_columns(alloc, keyed)?;
    Ok(Schema {
        name,
        cols,
        time_col: 0,
        unit: PartUnit::Hour,
        keys,
    })
}

/// The block of a table's rows.
pub(super) fn block(alloc: Global, rows: &RowList) -> Result<Block, Memory>
    requires { All IsTableRow rows.now }
    ensures table { IfOk result IsOfTable }
    ensures block { IfOk result (λ b. b ≡ record { kinds = table_kinds; time_col = 0; rows = in_time_order 0 rows.now }) }
{
    let block = Block::from_rows(alloc, &columns(alloc)?, 0, rows)?;
    Ok(block)
}

/// The empty list of rows.
pub(super) fn no_rows(alloc: Global) -> RowList
    ensures rows { All IsTableRow result }
{
    RowList::new(alloc)
}

/// Adds a row of the table to others.
pub(super) fn push_row(rows: &mut RowList, row: Row) -> Result<(), Memory>
    requires rows { All IsTableRow rows.old }
    requires row { IsTableRow row }
    ensures rows { OnOk result (All IsTableRow rows.new) }
{
    rows.push(row)
}

/// Rows of the table: moments, numbers and letters.
pub(super) fn rows(alloc: Global, given: &[(u32, u32, u8)]) -> Result<RowList, Memory>
    ensures rows { IfOk result (All IsTableRow) }
{
    let mut rows = no_rows(alloc);
    for (time, number, letter) in given {
        let row = row(alloc, u64::from(*time), *number, *letter)?;
        push_row(&mut rows, row)?;
    }
    Ok(rows)
}
