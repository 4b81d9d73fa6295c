//! What versions show: their tables, read part by part, beside those of the plain replay.
ghost use Rattle.qd_base.specs.declared.part.Part.{Part};
ghost use Rattle.qd_manifest.specs.declared.shape.TableParts.{TableParts};
ghost use Rattle.qd_versions.specs.Reading.{IsPartAt};
ghost use Rattle.std.specs.Bool.{OnTrue};

use crate::plain::{Plain, PlainTable, same_rows};
use crate::text::push_shown;
use crate::trouble::Trouble;
use qd_base::{ColList, Duplicate, Memory, Row, RowList, Schema, Table};
use qd_block::Block;
use qd_print::csv_of;
use qd_store::{LogFault, Store};
use qd_symbols::SymbolMap;
use qd_volume::Volume;
use std::alloc::Global;

/// More parts than a table of a history has, and more tables.
const MANY: usize = 100_000;

/// Whether a row of versions is live, and has a table at a position with a part at a position.
fn has_part<V: Volume>(store: &Store<V>, row: u8, table: usize, i: usize) -> bool
    ensures { OnTrue result ((t : TableParts) × (p : Part) × IsPartAt store.now.store.versions.versions row table i t p) }
{
    if store.n_of(row).is_none() {
        return false;
    }
    let shape = store.shape_of(row);
    if shape.len() <= table {
        return false;
    }
    if shape.get(table).parts.len() <= i {
        return false;
    }
    true
}

/// Reads a part of a version, where it is there.
fn part_at<V: Volume>(
    alloc: Global,
    store: &mut Store<V>,
    row: u8,
    table: usize,
    i: usize,
) -> Result<Option<Box<Block<SymbolMap>>>, LogFault> {
    if !has_part(store, row, table, i) {
        return Ok(None);
    }
    let block = store.read_part(alloc, row, table, i)?;
    Ok(Some(Box::new(alloc, block)?))
}

/// Adds the rows of a block to others, as wide as these columns.
fn push_rows(
    alloc: Global,
    rows: &mut RowList,
    block: &Block<SymbolMap>,
    cols: &ColList,
) -> Result<(), Memory> {
    for i in 0..block.rows() {
        let mut row = block.with_cells(i, Row::new(alloc))?;
        for k in row.len()..cols.len() {
            row.push(cols.get(k).kind.missing())?;
        }
        rows.push(row)?;
    }
    Ok(())
}

/// All rows of a table of a version, as wide as these columns.
fn rows_of<V: Volume>(
    alloc: Global,
    store: &mut Store<V>,
    row: u8,
    table: usize,
    cols: &ColList,
) -> Result<RowList, LogFault> {
    let mut rows = RowList::new(alloc);
    for i in 0..MANY {
        match part_at(alloc, store, row, table, i)? {
            Some(block) => push_rows(alloc, &mut rows, &block, cols)?,
            None => return Ok(rows),
        }
    }
    Ok(rows)
}

/// What a table of a version looks like, where it is there.
fn schema_of<V: Volume>(
    alloc: Global,
    store: &Store<V>,
    row: u8,
    table: usize,
) -> Result<Option<Box<Schema>>, Memory> {
    if store.n_of(row).is_none() {
        return Ok(None);
    }
    let shape = store.shape_of(row);
    if shape.len() <= table {
        return Ok(None);
    }
    let schema = shape.get(table).schema.copy()?;
    Ok(Some(Box::new(alloc, schema)?))
}

/// Whether two tables look alike: their names, their keys, and the names and kinds of their columns.
fn look_alike(a: &Schema, b: &Schema) -> bool {
    if a.name.bytes() != b.name.bytes() || a.cols.len() != b.cols.len() {
        return false;
    }
    if a.keys.as_slice() != b.keys.as_slice() {
        return false;
    }
    for (x, y) in a.cols.as_slice().iter().zip(b.cols.as_slice()) {
        if x.name.bytes() != y.name.bytes() || x.kind != y.kind {
            return false;
        }
    }
    true
}

/// Whether a table of a version is this one, with the same rows in the same order.
fn shows_table<V: Volume>(
    alloc: Global,
    store: &mut Store<V>,
    row: u8,
    at: usize,
    table: &PlainTable,
) -> Result<bool, LogFault> {
    let Some(schema) = schema_of(alloc, store, row, at)? else {
        return Ok(false);
    };
    if !look_alike(&schema, &table.schema) {
        return Ok(false);
    }
    let rows = rows_of(alloc, store, row, at, &schema.cols)?;
    Ok(same_rows(&rows, &table.rows))
}

/// Whether a version shows these tables, no others, with the same rows in the same order.
pub fn shows<V: Volume>(
    alloc: Global,
    store: &mut Store<V>,
    row: u8,
    wanted: &Plain,
) -> Result<bool, LogFault> {
    for (i, table) in wanted.tables.iter().enumerate() {
        if !shows_table(alloc, store, row, i, table)? {
            return Ok(false);
        }
    }
    Ok(schema_of(alloc, store, row, wanted.tables.len())?.is_none())
}

/// Adds a table of a version: its name and its rows as CSV.
fn push_table(
    alloc: Global,
    out: &mut String,
    schema: &Schema,
    rows: RowList,
) -> Result<(), Memory> {
    let cols = schema.cols.copy()?;
    let csv = csv_of(alloc, &Table { cols, rows })?;
    out.push_str(" ")?;
    push_shown(out, schema.name.bytes())?;
    out.push_str(":")?;
    push_shown(out, csv.bytes())
}

/// Adds the tables of a version, with their rows.
pub fn push_tables<V: Volume>(
    alloc: Global,
    store: &mut Store<V>,
    row: u8,
    out: &mut String,
) -> Result<(), LogFault> {
    for i in 0..MANY {
        let Some(schema) = schema_of(alloc, store, row, i)? else {
            return Ok(());
        };
        let rows = rows_of(alloc, store, row, i, &schema.cols)?;
        push_table(alloc, out, &schema, rows)?;
    }
    Ok(())
}
