//! All tables, as changes make and change them.
ghost use Rattle.std.specs.Prelude.{◌≡◌, ◌<◌, [], All, IfOk, length, map, slice_index_or};
ghost use Rattle.std.specs.Arc.{arc_value};
ghost use Rattle.std.specs.List.{AllByRecursion};
ghost use Rattle.qd_base.specs.Database.{step};
ghost use Rattle.qd_base.specs.declared.op.Op.TheVariants as change;
ghost use Rattle.qd_base.specs.Lawful.{AreLawful, IsSchema, IsSound};
ghost use Rattle.qd_base.specs.Replay.{commit};
ghost use Rattle.qd_base.specs.Schemas.{Fits};
ghost use Rattle.qd_memory.specs.declared.slots.Slot.{Slot};
ghost use Rattle.qd_memory.specs.Kept.{database_of, schemas_in, AreTables, IsKept, IsSettled, Kept};

use crate::table::Table;
use qd_base::{Col, Duplicate, KeyList, Memory, Op, PartList, RowList, Schema, Schemas};
use qd_block::Block;
use qd_symbols::SymbolMap;
use std::alloc::Global;
use std::marker::Model;
use std::sync::Arc;

/// Tables in order of creation. Contracts see them.
#[derive(Drop)]
pub(crate) struct Tables {
    pub(crate) schemas: Schemas,
    pub(crate) tables: Vec<Table>,
}

impl Model for Tables {
    ghost use Rattle.std.specs.Prelude.{List};
    ghost use Rattle.qd_memory.specs.Kept.{Kept, AreTables};

    ghost Value = { List Kept };

    ghost view = { λ t. t.tables.items };

    ghost invariant = { λ t. AreTables t.schemas t.tables.items };
}

impl Tables {
    /// Makes the empty list.
    pub(crate) fn new(alloc: Global) -> Tables
        ensures { result ≡ [] }
    {
        Tables {
            schemas: Schemas::new(alloc),
            tables: Vec::new(alloc),
        }
    }

    /// Tells that what is kept fits together. It does nothing.
    pub(crate) fn are_kept(&self)
        ensures { AreTables (schemas_in self.now) self.now }
    {
        let _ = &self.schemas;
    }

    /// Lends the schemas of all tables, in order.
    pub(crate) fn schemas(&self) -> &Schemas
        ensures { result.now ≡ schemas_in self.now }
    {
        &self.schemas
    }

    /// Lends the parts of a table, in order.
    pub(crate) fn parts(&self, table: usize) -> &PartList
        requires there { table < length (schemas_in self.now) }
        ensures parts { result.now ≡ slice_index_or (map (λ t. t.parts) self.now) table [] }
    {
        let table = &self.tables[table];
        &table.parts
    }

    /// Gives the block of a table's slot, in constant time.
    pub(crate) fn block(&self, table: usize, i: usize) -> Result<Arc<Block<SymbolMap>>, Memory>
        requires table { table < length (schemas_in self.now) }
        requires there { i < length (slice_index_or (map (λ t. t.parts) self.now) table []) }
        ensures block { (t : Kept) (x : Slot) → t ≡ slice_index_or self.now table t → x ≡ slice_index_or t.slots i x → IfOk result (λ b. arc_value b ≡ x.block) }
    {
        let table = &self.tables[table];
        let slot = &table.slots[i];
        slot.block.arc()
    }

    /// Gives equal tables, which share the blocks. No row may wait.
    pub(crate) fn share(&self, alloc: Global) -> Result<Tables, Memory>
        requires settled { All IsSettled self.now }
        ensures same { IfOk result (λ t. t ≡ self.now) }
    {
        let mut tables = Vec::with_capacity(alloc, self.tables.len())?;
        for table in &self.tables {
            tables.push(table.share(alloc)?)?;
        }
        let schemas = self.schemas.copy()?;
        Ok(Tables { schemas, tables })
    }

    /// The tables after changes.
    pub(crate) fn after(self, alloc: Global, ops: &[Op]) -> Result<Tables, Memory>
        requires lawful { AreLawful (schemas_in self) ops.now }
        ensures after { IfOk result (λ t. database_of t ≡ commit (database_of self) (record { ops = ops.now })) }
    {
        let mut tables = self;
        for op in ops {
            tables = tables.changed(alloc, op)?;
        }
        Ok(tables)
    }

    /// The tables after a change.
    fn changed(self, alloc: Global, op: &Op) -> Result<Tables, Memory>
        requires fits { Fits (schemas_in self) op.now }
        requires sound { IsSound (schemas_in self) op.now }
        ensures step { IfOk result (λ t. database_of t ≡ step (database_of self) op.now) }
    {
        let Tables { schemas, tables } = self;
        let tables = changed_list(alloc, &schemas, tables, op)?;
        let mut schemas = schemas;
        schemas.apply(op)?;
        Ok(Tables { schemas, tables })
    }

    /// The same tables, with no row that waits.
    pub(crate) fn settled(self, alloc: Global) -> Result<Tables, Memory>
        ensures same { IfOk result (λ t. database_of t ≡ database_of self) }
        ensures settled { IfOk result (λ t. All IsSettled t) }
    {
        let Tables { schemas, tables } = self;
        let mut tables = tables;
        for i in 0..tables.len() {
            let table = &mut tables[i];
            table.settle(alloc)?;
            table.is_kept();
        }
        Ok(Tables { schemas, tables })
    }
}

/// A list of tables after a change.
fn changed_list(
    alloc: Global,
    schemas: &Schemas,
    tables: Vec<Table>,
    op: &Op,
) -> Result<Vec<Table>, Memory>
    requires kept { AreTables schemas.now tables.items }
    requires fits { Fits schemas.now op.now }
    requires sound { IsSound schemas.now op.now }
    ensures kept { IfOk result (λ v. AllByRecursion IsKept v.items) }
    ensures step { IfOk result (λ v. database_of v.items ≡ step (database_of tables.items) op.now) }
{
    match op {
        Op::Create { schema } => with_table(alloc, tables, schema),
        Op::AddColumn { table, col } => with_column(alloc, schemas, tables, table.bytes(), col),
        Op::Insert { table, rows } => with_rows(alloc, schemas, tables, table.bytes(), rows),
        Op::SetKeys { table, keys } => with_keys(alloc, schemas, tables, table.bytes(), keys),
    }
}

/// A list of tables with one more, which has no rows.
fn with_table(alloc: Global, tables: Vec<Table>, schema: &Schema) -> Result<Vec<Table>, Memory>
    requires kept { AllByRecursion IsKept tables.items }
    requires schema { IsSchema schema.now }
    ensures kept { IfOk result (λ v. AllByRecursion IsKept v.items) }
    ensures step { IfOk result (λ v. database_of v.items ≡ step (database_of tables.items) (change.Create schema.now)) }
{
    let table = Table::new(alloc, schema.copy()?);
    table.is_kept();
    let mut tables = tables;
    tables.push(table)?;
    Ok(tables)
}

/// A list of tables, of which the one of a name has a column more.
fn with_column(
    alloc: Global,
    schemas: &Schemas,
    tables: Vec<Table>,
    name: &[u8],
    col: &Col,
) -> Result<Vec<Table>, Memory>
    requires kept { AreTables schemas.now tables.items }
    requires fits { Fits schemas.now (change.AddColumn name.now col.now) }
    requires sound { IsSound schemas.now (change.AddColumn name.now col.now) }
    ensures kept { IfOk result (λ v. AllByRecursion IsKept v.items) }
    ensures step { IfOk result (λ v. database_of v.items ≡ step (database_of tables.items) (change.AddColumn name.now col.now)) }
{
    let mut tables = tables;
    match schemas.find(name) {
        Some(i) => {
            let table = &mut tables[i];
            table.widen(alloc, col)?;
            table.is_kept();
            Ok(tables)
        }
        None => Ok(tables),
    }
}

/// A list of tables, of which the one of a name has more rows.
fn with_rows(
    alloc: Global,
    schemas: &Schemas,
    tables: Vec<Table>,
    name: &[u8],
    rows: &RowList,
) -> Result<Vec<Table>, Memory>
    requires kept { AreTables schemas.now tables.items }
    requires fits { Fits schemas.now (change.Insert name.now rows.now) }
    requires sound { IsSound schemas.now (change.Insert name.now rows.now) }
    ensures kept { IfOk result (λ v. AllByRecursion IsKept v.items) }
    ensures step { IfOk result (λ v. database_of v.items ≡ step (database_of tables.items) (change.Insert name.now rows.now)) }
{
    let mut tables = tables;
    match schemas.find(name) {
        Some(i) => {
            let table = &mut tables[i];
            table.fill(alloc, rows)?;
            table.is_kept();
            Ok(tables)
        }
        None => Ok(tables),
    }
}

/// A list of tables, of which the one of a name has these keys.
fn with_keys(
    alloc: Global,
    schemas: &Schemas,
    tables: Vec<Table>,
    name: &[u8],
    keys: &KeyList,
) -> Result<Vec<Table>, Memory>
    requires kept { AreTables schemas.now tables.items }
    requires fits { Fits schemas.now (change.SetKeys name.now keys.now) }
    ensures kept { IfOk result (λ v. AllByRecursion IsKept v.items) }
    ensures step { IfOk result (λ v. database_of v.items ≡ step (database_of tables.items) (change.SetKeys name.now keys.now)) }
{
    let mut tables = tables;
    match schemas.find(name) {
        Some(i) => {
            let table = &mut tables[i];
            table.rekey(alloc, keys)?;
            table.is_kept();
            Ok(tables)
        }
        None => Ok(tables),
    }
}
