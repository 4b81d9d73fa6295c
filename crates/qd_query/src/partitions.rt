//! SHOW PARTITIONS.
ghost use Rattle.std.specs.Prelude.{◌≡◌, ◌<◌, ◌≤◌, [], All, IfErr, IfOk, IfSome, OnOk, length, map, min, pos, slice_index_or};
ghost use Rattle.qd_base.specs.Laws.{IsInOrder};
ghost use Rattle.qd_base.specs.Rows.{time_in, time_of};
ghost use Rattle.qd_meaning.specs.Partitions.{partition_columns, partitions};
ghost use Rattle.qd_print.specs.Printed.{csv, csv_cell, csv_line};
ghost use Rattle.qd_query.specs.Answers.{show_answer, table_in};
ghost use Rattle.qd_query.specs.Counted.{counted, shown_row};
ghost use Rattle.qd_rows.specs.Sets.{rows_in};
ghost use Rattle.qd_scan.specs.Asked.{AskedOnly, IsPartBetween};
ghost use Rattle.qd_scan.specs.Sources.{schema_at, HasCause, Stays};
ghost use Rattle.qd_time.specs.Units.{start_of, unit_of};
ghost use Rattle.qd_value.specs.Scalars.{cell_of};

use crate::answer::Answer;
use crate::lengths::value_len;
use crate::sources::all_rows;
use qd_base::{
    Cell, Col, ColList, ColType, Dictionary, MAX_NUMBER, MAX_RESULT_BYTES, MAX_TIME, Memory,
    PartUnit, Row, RowList, Schema, Table, Txt,
};
use qd_expr::scalar;
use qd_print::header_len;
use qd_rows::RowSet;
use qd_scan::{PartFault, PartSource};
use qd_time::{floor_unit, partition_name};
use qd_value::{Bound, Scalar};
use std::alloc::{AllocError, Global};

/// The rows of a table in one partition.
#[derive(Clone, Copy)]
struct Partition {
    /// Its first microsecond.
    start: u64,
    /// How many rows it has.
    rows: u64,
    /// The time of the first one.
    first: u64,
    /// The time of the last one.
    last: u64,
}

/// Gives the partitions of a table that have rows, in order of time: the name of each, how many rows it has, and the times
/// of its first and last one. It costs a scan of the table and constant time a row.
///
/// Its faults are the source's. After an `Err` the source is as it was, but for its counts.
pub(crate) fn show_partitions<P: PartSource>(
    alloc: Global,
    source: &mut P,
    table: usize,
) -> Result<Answer, PartFault>
    requires { table < length (P.shown source.old).schemas }

    // Where the source tells its database, it is the plain meaning's over the table.
    ensures answer { IfOk result (λ a. IfSome (P.shown source.old).database (λ db. a ≡ show_answer (table_in db table))) }
    ensures stays { Stays (P.shown source.old) (P.shown source.new) }
    ensures asked { AskedOnly (IsPartBetween (P.shown source.old) table 0 MAX_TIME) (P.asked source.old) (P.asked source.new) }
    ensures fixed { P.fixed source.new ≡ P.fixed source.old }
    ensures cause { IfErr result (HasCause (P.shown source.old) (P.shown source.new)) }
{
    source.keeps_its_law();
    let rows = all_rows(alloc, source, table)?;
    Ok(partitions_answer(alloc, source.schemas().get(table), &rows)?)
}

/// The answer over the rows of a table in order of time.
pub(crate) fn partitions_answer<D: Dictionary>(
    alloc: Global,
    schema: &Schema,
    rows: &RowSet<D>,
) -> Result<Answer, Memory>
    requires order { IsInOrder schema.now.time_col (rows_in rows.now) }
    requires timely { All (λ r. time_of schema.now.time_col r ≤ MAX_TIME) (rows_in rows.now) }
    ensures answer { IfOk result (λ a. a ≡ show_answer (record { schema = schema.now; rows = rows_in rows.now })) }
{
    let found = partitions_of(alloc, schema, rows)?;
    let cols = columns(alloc)?;
    let rows = partition_rows(alloc, schema.unit, found.as_slice())?;
    if MAX_RESULT_BYTES < table_len(cols.as_slice(), rows.as_slice()) as u64 {
        return Ok(Answer::too_large());
    }
    Ok(Answer::Rows(Table { cols, rows }))
}

/// The columns of the answer.
fn columns(alloc: Global) -> Result<ColList, Memory>
    ensures columns { IfOk result (λ cols. cols ≡ partition_columns) }
{
    let mut cols = ColList::new(alloc);
    cols.push(column(alloc, b"name", ColType::Varchar)?)?;
    cols.push(column(alloc, b"numRows", ColType::Long)?)?;
    cols.push(column(alloc, b"minTimestamp", ColType::Time)?)?;
    cols.push(column(alloc, b"maxTimestamp", ColType::Time)?)?;
    Ok(cols)
}

/// A column of this name and type.
fn column(alloc: Global, name: &[u8], kind: ColType) -> Result<Col, Memory>
    ensures column { IfOk result (λ col. col ≡ record { name = name.now; kind = kind }) }
{
    let name = Txt::from_bytes(alloc, name)?;
    Ok(Col { name, kind })
}

/// The partitions of rows in order of time.
fn partitions_of<D: Dictionary>(
    alloc: Global,
    schema: &Schema,
    rows: &RowSet<D>,
) -> Result<Vec<Partition>, Memory>
    requires order { IsInOrder schema.now.time_col (rows_in rows.now) }
    requires timely { All (λ r. time_of schema.now.time_col r ≤ MAX_TIME) (rows_in rows.now) }
    ensures rows { IfOk result (λ v. map (shown_row schema.now.unit) v.items ≡ (partitions (record { schema = schema.now; rows = rows_in rows.now })).rows) }
    ensures timely { IfOk result (λ v. All (λ p. p.first ≤ MAX_TIME) v.items) }
{
    let mut found = Vec::new(alloc);
    for i in 0..rows.len() {
        let time = time_at(rows, schema.time_col, i);
        with_row(&mut found, floor_unit(time, schema.unit), time)?;
    }
    Ok(found)
}

/// Counts a row of this time in the last partition, where that begins with this start, or in one more behind it.
fn with_row(found: &mut Vec<Partition>, start: u64, time: u64) -> Result<(), Memory>
    ensures ok { OnOk result (found.new.items ≡ counted start time found.old.items) }
{
    let count = found.len();
    if 0 < count {
        let last = found[count - 1];
        if last.start == start {
            let rows = last.rows.checked_add(1).ok_or(AllocError)?;
            found[count - 1] = Partition {
                start,
                rows,
                first: last.first,
                last: time,
            };
            return Ok(());
        }
    }
    found.push(Partition {
        start,
        rows: 1,
        first: time,
        last: time,
    })?;
    Ok(())
}

/// The moment in a column on a row of a set; 0 where there is none.
pub(crate) fn time_at<D: Dictionary>(rows: &RowSet<D>, at: u32, i: usize) -> u64
    requires { i < length rows.now.places }
    ensures time { result ≡ time_of at (slice_index_or (rows_in rows.now) i []) }
{
    moment(scalar(&Bound::Column(at as usize), rows, rows.places(i)))
}

/// The moment that a value is, or 0.
fn moment<'a>(value: Scalar<'a>) -> u64
    ensures { result ≡ time_in (cell_of value.entry) }
{
    match value {
        Scalar::Time(time) => time,
        _ => 0,
    }
}

/// The rows of partitions.
fn partition_rows(
    alloc: Global,
    unit: PartUnit,
    partitions: &[Partition],
) -> Result<RowList, Memory>
    requires { All (λ p. p.first ≤ MAX_TIME) partitions.now }
    ensures rows { IfOk result (λ list. list ≡ map (shown_row unit) partitions.now) }
{
    let mut list = RowList::with_capacity(alloc, partitions.len())?;
    for partition in partitions {
        list.push(partition_row(alloc, unit, *partition)?)?;
    }
    Ok(list)
}

/// The row of a partition.
fn partition_row(alloc: Global, unit: PartUnit, partition: Partition) -> Result<Row, Memory>
    requires { partition.first ≤ MAX_TIME }
    ensures row { IfOk result (λ row. row ≡ shown_row unit partition) }
{
    let mut row = Row::with_capacity(alloc, 4)?;
    row.push(Cell::Text(partition_name(alloc, partition.first, unit)?))?;
    row.push(Cell::Long(long_of(partition.rows)?))?;
    row.push(Cell::Time(partition.first))?;
    row.push(Cell::Time(partition.last))?;
    Ok(row)
}

/// A count as a number. There is no memory for as many rows as have none.
fn long_of(count: u64) -> Result<i64, Memory>
    ensures number { IfOk result (λ n. n ≡ pos count) }
{
    if MAX_NUMBER < count {
        return Err(AllocError);
    }
    Ok(count as i64)
}

/// The length of rows as CSV, with the line of the columns' names.
fn table_len(cols: &[Col], rows: &[Row]) -> usize
    ensures length { result ≡ min (length (csv (record { cols = cols.now; rows = rows.now }))) usize.MAX }
{
    let mut len = header_len(cols);
    for row in rows {
        len = len.saturating_add(line_len(row));
    }
    len
}

/// The length of a row's line.
fn line_len(row: &Row) -> usize
    ensures length { result ≡ min (length (csv_line (map csv_cell row.now))) usize.MAX }
{
    let mut len: usize = 0;
    for cell in row.as_slice() {
        len = len
            .saturating_add(value_len(Scalar::of(cell)))
            .saturating_add(1);
    }
    len.max(1)
}
