//! All tables with rows that wait, as changes make and change them.
ghost use Rattle.std.specs.Prelude.{◌≡◌, [], IfOk, fold};
ghost use Rattle.std.specs.List.{AllByRecursion};
ghost use Rattle.qd_base.specs.Database.{schemas_of};
ghost use Rattle.qd_base.specs.declared.op.Op.TheVariants as change;
ghost use Rattle.qd_base.specs.Lawful.{AreLawful, AreSchemas, IsSchema, IsSound};
ghost use Rattle.qd_base.specs.Schemas.{Fits};
ghost use Rattle.qd_apply.specs.Arrivals.{arrives, without_rows};
ghost use Rattle.qd_apply.specs.Waiting.{AreTables, Waits};

use crate::waiting::Waiting;
use qd_base::{Col, Duplicate, KeyList, Memory, Op, RowList, Schema, Schemas};
use std::alloc::Global;
use std::marker::Model;

/// Tables in order of creation. Contracts see them.
#[derive(Drop)]
pub(crate) struct Tables {
    pub(crate) schemas: Schemas,
    pub(crate) tables: Vec<Waiting>,
}

impl Model for Tables {
    ghost use Rattle.std.specs.Prelude.{List};
    ghost use Rattle.qd_base.specs.Database.{StoredTable};
    ghost use Rattle.qd_apply.specs.Waiting.{AreTables};

    ghost Value = { List StoredTable };

    ghost view = { λ t. t.tables.items };

    ghost invariant = { λ t. AreTables t.schemas t.tables.items };
}

impl Tables {
    /// Makes tables of these schemas in which no row waits.
    pub(crate) fn new(alloc: Global, schemas: Schemas) -> Result<Tables, Memory>
        requires { AreSchemas schemas }
        ensures { IfOk result (λ t. t ≡ without_rows schemas) }
    {
        let mut tables = Vec::with_capacity(alloc, schemas.len())?;
        for i in 0..schemas.len() {
            let table = Waiting::new(alloc, schemas.get(i).copy()?);
            tables.push(table)?;
        }
        Ok(Tables { schemas, tables })
    }

    /// Tells that the schemas are such as lawful transactions leave. It does nothing.
    pub(crate) fn are_tables(&self)
        ensures { AreSchemas (schemas_of self.now) }
    {
        let _ = &self.schemas;
    }

    /// The tables after changes.
    pub(crate) fn after(self, alloc: Global, ops: &[Op]) -> Result<Tables, Memory>
        requires lawful { AreLawful (schemas_of self) ops.now }
        ensures after { IfOk result (λ t. t ≡ fold arrives self ops.now) }
    {
        let mut tables = self;
        for op in ops {
            tables = tables.changed(alloc, op)?;
        }
        Ok(tables)
    }

    /// The tables after a change.
    fn changed(self, alloc: Global, op: &Op) -> Result<Tables, Memory>
        requires fits { Fits (schemas_of self) op.now }
        requires sound { IsSound (schemas_of self) op.now }
        ensures step { IfOk result (λ t. t ≡ arrives self op.now) }
    {
        let Tables { schemas, tables } = self;
        let tables = changed_list(alloc, &schemas, tables, op)?;
        let mut schemas = schemas;
        schemas.apply(op)?;
        Ok(Tables { schemas, tables })
    }
}

/// A list of tables after a change.
fn changed_list(
    alloc: Global,
    schemas: &Schemas,
    tables: Vec<Waiting>,
    op: &Op,
) -> Result<Vec<Waiting>, Memory>
    requires kept { AreTables schemas.now tables.items }
    requires fits { Fits schemas.now op.now }
    requires sound { IsSound schemas.now op.now }
    ensures kept { IfOk result (λ v. AllByRecursion Waits v.items) }
    ensures step { IfOk result (λ v. v.items ≡ arrives tables.items op.now) }
{
    match op {
        Op::Create { schema } => with_table(alloc, tables, schema),
        Op::AddColumn { table, col } => with_column(schemas, tables, table.bytes(), col),
        Op::Insert { table, rows } => with_rows(alloc, schemas, tables, table.bytes(), rows),
        Op::SetKeys { table, keys } => with_keys(schemas, tables, table.bytes(), keys),
    }
}

/// A list of tables with one more, in which no row waits.
fn with_table(alloc: Global, tables: Vec<Waiting>, schema: &Schema) -> Result<Vec<Waiting>, Memory>
    requires kept { AllByRecursion Waits tables.items }
    requires schema { IsSchema schema.now }
    ensures kept { IfOk result (λ v. AllByRecursion Waits v.items) }
    ensures step { IfOk result (λ v. v.items ≡ arrives tables.items (change.Create schema.now)) }
{
    let table = Waiting::new(alloc, schema.copy()?);
    table.waits();
    let mut tables = tables;
    tables.push(table)?;
    Ok(tables)
}

/// A list of tables, of which the one of a name has a column more.
fn with_column(
    schemas: &Schemas,
    tables: Vec<Waiting>,
    name: &[u8],
    col: &Col,
) -> Result<Vec<Waiting>, Memory>
    requires kept { AreTables schemas.now tables.items }
    requires fits { Fits schemas.now (change.AddColumn name.now col.now) }
    requires sound { IsSound schemas.now (change.AddColumn name.now col.now) }
    ensures kept { IfOk result (λ v. AllByRecursion Waits v.items) }
    ensures step { IfOk result (λ v. v.items ≡ arrives tables.items (change.AddColumn name.now col.now)) }
{
    let mut tables = tables;
    match schemas.find(name) {
        Some(i) => {
            let table = &mut tables[i];
            table.widen(col)?;
            table.waits();
            Ok(tables)
        }
        None => Ok(tables),
    }
}

/// A list of tables, of which the one of a name has more rows that wait.
fn with_rows(
    alloc: Global,
    schemas: &Schemas,
    tables: Vec<Waiting>,
    name: &[u8],
    rows: &RowList,
) -> Result<Vec<Waiting>, Memory>
    requires kept { AreTables schemas.now tables.items }
    requires fits { Fits schemas.now (change.Insert name.now rows.now) }
    requires sound { IsSound schemas.now (change.Insert name.now rows.now) }
    ensures kept { IfOk result (λ v. AllByRecursion Waits v.items) }
    ensures step { IfOk result (λ v. v.items ≡ arrives tables.items (change.Insert name.now rows.now)) }
{
    let mut tables = tables;
    match schemas.find(name) {
        Some(i) => {
            let table = &mut tables[i];
            table.fill(alloc, rows)?;
            table.waits();
            Ok(tables)
        }
        None => Ok(tables),
    }
}

/// A list of tables, of which the one of a name has these keys.
fn with_keys(
    schemas: &Schemas,
    tables: Vec<Waiting>,
    name: &[u8],
    keys: &KeyList,
) -> Result<Vec<Waiting>, Memory>
    requires kept { AreTables schemas.now tables.items }
    requires fits { Fits schemas.now (change.SetKeys name.now keys.now) }
    ensures kept { IfOk result (λ v. AllByRecursion Waits v.items) }
    ensures step { IfOk result (λ v. v.items ≡ arrives tables.items (change.SetKeys name.now keys.now)) }
{
    let mut tables = tables;
    match schemas.find(name) {
        Some(i) => {
            let table = &mut tables[i];
            table.rekey(keys)?;
            table.waits();
            Ok(tables)
        }
        None => Ok(tables),
    }
}
