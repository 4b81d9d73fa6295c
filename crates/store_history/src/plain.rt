//! The plain replay of transactions: tables whose rows stand in one list, changed one by one as the written meaning has it.
use qd_base::{Cell, Col, Duplicate, Entry, KeyList, Memory, Op, Row, RowList, Schema, same_name};
use qd_reference::put_all;
use std::alloc::Global;

/// A table: what it looks like, and its rows in order.
#[derive(Drop)]
pub struct PlainTable {
    pub schema: Schema,
    pub rows: RowList,
}

/// The tables after some transactions, in order of creation.
#[derive(Drop)]
pub struct Plain {
    pub tables: Vec<PlainTable>,
}

impl Plain {
    /// No table.
    pub fn new(alloc: Global) -> Plain {
        Plain {
            tables: Vec::new(alloc),
        }
    }

    /// The tables after one transaction more.
    pub fn after(&self, alloc: Global, entry: &Entry) -> Result<Plain, Memory> {
        let mut tables = Vec::new(alloc);
        for table in &self.tables {
            tables.push(table.copy()?)?;
        }
        let mut plain = Plain { tables };
        for op in entry.ops.as_slice() {
            plain.apply(alloc, op)?;
        }
        Ok(plain)
    }

    /// Makes a change.
    fn apply(&mut self, alloc: Global, op: &Op) -> Result<(), Memory> {
        match op {
            Op::Create { schema } => self.create(alloc, schema),
            Op::AddColumn { table, col } => self.widen(alloc, table.bytes(), col),
            Op::Insert { table, rows } => self.insert(alloc, table.bytes(), rows),
            Op::SetKeys { table, keys } => self.rekey(table.bytes(), keys),
        }
    }

    /// Makes a table without a row.
    fn create(&mut self, alloc: Global, schema: &Schema) -> Result<(), Memory> {
        let schema = schema.copy()?;
        let rows = RowList::new(alloc);
        self.tables.push(PlainTable { schema, rows })?;
        Ok(())
    }

    /// Adds a column behind the others of a table.
    fn widen(&mut self, alloc: Global, name: &[u8], col: &Col) -> Result<(), Memory> {
        for table in &mut self.tables {
            if same_name(table.schema.name.bytes(), name) {
                table.rows = wider(alloc, &table.rows, col)?;
                table.schema.cols.push(col.copy()?)?;
            }
        }
        Ok(())
    }

    /// Sets the deduplication keys of a table, for rows that come after.
    fn rekey(&mut self, name: &[u8], keys: &KeyList) -> Result<(), Memory> {
        for table in &mut self.tables {
            if same_name(table.schema.name.bytes(), name) {
                table.schema.keys = keys.copy()?;
            }
        }
        Ok(())
    }

    /// Puts rows into a table.
    fn insert(&mut self, alloc: Global, name: &[u8], rows: &RowList) -> Result<(), Memory> {
        for table in &mut self.tables {
            if same_name(table.schema.name.bytes(), name) {
                table.rows = put_all(
                    alloc,
                    &table.rows,
                    rows.as_slice(),
                    table.schema.time_col,
                    &table.schema.keys,
                )?;
            }
        }
        Ok(())
    }
}

impl PlainTable {
    /// An equal table.
    fn copy(&self) -> Result<PlainTable, Memory> {
        Ok(PlainTable {
            schema: self.schema.copy()?,
            rows: self.rows.copy()?,
        })
    }
}

/// The rows with what a row holds in a column that it lacks.
fn wider(alloc: Global, rows: &RowList, col: &Col) -> Result<RowList, Memory> {
    let mut out = RowList::new(alloc);
    for row in rows.as_slice() {
        let mut row = row.copy()?;
        row.push(col.kind.missing())?;
        out.push(row)?;
    }
    Ok(out)
}

/// Whether the rows of two lists are equal, one by one.
pub fn same_rows(a: &RowList, b: &RowList) -> bool {
    if a.len() != b.len() {
        return false;
    }
    for (x, y) in a.as_slice().iter().zip(b.as_slice()) {
        if !same_row(x, y) {
            return false;
        }
    }
    true
}

/// Whether the cells of two rows are equal, one by one.
fn same_row(a: &Row, b: &Row) -> bool {
    if a.len() != b.len() {
        return false;
    }
    for (x, y) in a.as_slice().iter().zip(b.as_slice()) {
        if !same_cell(x, y) {
            return false;
        }
    }
    true
}

/// Whether two cells are equal.
fn same_cell(a: &Cell, b: &Cell) -> bool {
    match (a, b) {
        (Cell::Null, Cell::Null) => true,
        (Cell::Long(x), Cell::Long(y)) => *x == *y,
        (Cell::Bool(x), Cell::Bool(y)) => *x == *y,
        (Cell::Text(x), Cell::Text(y)) => x.bytes() == y.bytes(),
        (Cell::Time(x), Cell::Time(y)) => *x == *y,
        _ => false,
    }
}
