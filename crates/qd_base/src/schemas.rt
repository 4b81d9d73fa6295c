//! The schemas of all tables.
ghost use Rattle.std.specs.Prelude.{◌≡◌, ◌<◌, ◌==◌, [], length, Some, IsSome, IsSomeAnd, IsNone, IsTrue, ◌↔◌, OnOk, OnErr, IfOk, slice_get, slice_index_or, slice_set};

use crate::named::NamedList;
use crate::op::Op;
use crate::schema::{Col, KeyList, Schema};
use crate::seq::{Duplicate, Memory};
use std::alloc::Global;
use std::marker::Model;

/// The schemas of all tables, in order of creation. Contracts see that list.
#[derive(Debug, Drop)]
pub struct Schemas {
    list: NamedList<Schema>,
}

impl Model for Schemas {
    ghost use Rattle.std.specs.Prelude.{List};
    ghost use Rattle.qd_base.specs.declared.schema.Schema.{Schema};

    ghost Value = { List Schema };

    ghost view = { λ s. s.list };
}

impl Schemas {
    ghost use Rattle.qd_base.specs.declared.schema.Schema.{Schema};
    ghost use Rattle.qd_base.specs.Schemas.{table_at, column_at, schema_of, schemas_step, at_name, with_column, with_keys, AreKeys, Fits};

    /// Makes the empty list.
    pub fn new(alloc: Global) -> Schemas
        ensures empty { result ≡ [] }
    {
        Schemas {
            list: NamedList::new(alloc),
        }
    }

    /// Gives the number of tables.
    pub fn len(&self) -> usize
        ensures count { result ≡ length self.now }
    {
        self.list.len()
    }

    /// Says whether there is no table.
    pub fn is_empty(&self) -> bool
        ensures empty { result ≡ (length self.now == 0) }
    {
        self.list.is_empty()
    }

    /// Lends the schema of the table at position `i`, in order of creation.
    pub fn get(&self, i: usize) -> &Schema
        requires { i < length self.now }
        ensures item { slice_get self.now i ≡ Some result.now }
    {
        self.list.get(i)
    }

    /// Gives the position of the table of a name, where there is one. ASCII case is ignored. It costs time
    /// logarithmic in the number of tables, and takes no memory.
    pub fn find(&self, name: &[u8]) -> Option<usize>
        ensures position { result ≡ table_at self.now name.now }
    {
        self.list.find(name)
    }

    /// Says whether an operation fits: whether it makes a table of a new name, adds a column of a new name to a table
    /// that is there, inserts into a table that is there, or sets keys that a table that is there may have. It costs time
    /// logarithmic in the number of tables, and of the table's columns; each key is compared with those before it.
    pub fn fits(&self, op: &Op) -> bool
        ensures fits { IsTrue result ↔ Fits self.now op.now }
    {
        match op {
            Op::Create { schema } => self.find(schema.name.bytes()).is_none(),
            Op::AddColumn { table, col } => self.lacks_column(table.bytes(), col.name.bytes()),
            Op::Insert { table, .. } => self.find(table.bytes()).is_some(),
            Op::SetKeys { table, keys } => self.takes_keys(table.bytes(), keys.as_slice()),
        }
    }

    /// Whether the table is there, and has no column of this name.
    fn lacks_column(&self, table: &[u8], column: &[u8]) -> bool
        ensures lacks { IsTrue result ↔ IsSomeAnd (schema_of self.now table.now)
            (λ s. IsNone (column_at s.cols column.now)) }
    {
        match self.find(table) {
            Some(i) => self.list.get(i).find_column(column).is_none(),
            None => false,
        }
    }

    /// Whether the table is there, and may have these keys.
    fn takes_keys(&self, table: &[u8], keys: &[u32]) -> bool
        ensures takes { IsTrue result ↔ IsSomeAnd (schema_of self.now table.now) (λ s. AreKeys s.cols s.time_col keys.now) }
    {
        match self.find(table) {
            Some(i) => self.list.get(i).takes_keys(keys),
            None => false,
        }
    }

    /// Changes the schemas as the operation says; an insertion changes none. Where no memory is found, nothing is
    /// changed. It costs time logarithmic in the number of tables, and linear in the size of what is added.
    pub fn apply(&mut self, op: &Op) -> Result<(), Memory>
        requires { Fits self.old op.now }
        ensures ok { OnOk result (self.new ≡ schemas_step self.old op.now) }
        ensures err { OnErr result (self.new ≡ self.old) }
    {
        match op {
            Op::Create { schema } => {
                self.list.push(schema.copy()?)?;
                Ok(())
            }
            Op::AddColumn { table, col } => self.add_column(table.bytes(), col),
            Op::Insert { .. } => Ok(()),
            Op::SetKeys { table, keys } => self.set_keys(table.bytes(), keys),
        }
    }

    /// Gives equal schemas with memory of their own, in time and memory linear in their size.
    pub fn copy(&self) -> Result<Schemas, Memory>
        ensures same { IfOk result (λ other. other ≡ self.now) }
    {
        Ok(Schemas {
            list: self.list.copy()?,
        })
    }

    fn add_column(&mut self, table: &[u8], col: &Col) -> Result<(), Memory>
        requires { IsSome (table_at self.old table.now) }
        ensures ok { OnOk result (self.new ≡ at_name (λ s. s.name) (with_column col.now) table.now self.old) }
        ensures err { OnErr result (self.new ≡ self.old) }
    {
        let col = col.copy()?;
        match self.find(table) {
            Some(i) => self.widen(i, col),
            None => Ok(()),
        }
    }

    fn set_keys(&mut self, table: &[u8], keys: &KeyList) -> Result<(), Memory>
        requires { IsSome (table_at self.old table.now) }
        ensures ok { OnOk result (self.new ≡ at_name (λ s. s.name) (with_keys keys.now) table.now self.old) }
        ensures err { OnErr result (self.new ≡ self.old) }
    {
        let keys = keys.copy()?;
        if let Some(i) = self.find(table) {
            self.rekey(i, keys);
        }
        Ok(())
    }

    /// Puts keys in place of those of the table at a position.
    fn rekey(&mut self, i: usize, keys: KeyList)
        requires { i < length self.old }
        ensures keys { (d : Schema) → self.new ≡ slice_set self.old i (with_keys keys (slice_index_or self.old i d)) }
    {
        let list = &mut self.list;
        let schema = &mut list.items[i];
        schema.keys = keys;
    }

    /// Adds a column behind the others of the table at a position.
    fn widen(&mut self, i: usize, col: Col) -> Result<(), Memory>
        requires { i < length self.old }
        ensures ok { OnOk result ((d : Schema) → self.new ≡ slice_set self.old i (with_column col (slice_index_or self.old i d))) }
        ensures err { OnErr result (self.new ≡ self.old) }
    {
        let list = &mut self.list;
        let schema = &mut list.items[i];
        schema.cols.push(col)
    }
}

impl Duplicate for Schemas {
    fn copy(&self) -> Result<Schemas, Memory> {
        self.copy()
    }
}
