//! Tables that get further columns, found by name.
ghost use Rattle.std.specs.Prelude.{◌≡◌, ◌<◌, ◌++◌, ◌∷◌, [], length, option_map, OnOk, slice_get, slice_set, slice_index_or};
ghost use Rattle.qd_base.specs.declared.schema.Schema.{Schema as Looks};
ghost use Rattle.qd_base.specs.Schemas.{table_at, with_column};

use qd_base::{Col, Memory, Named, NamedList, Schema, Txt};
use std::alloc::Global;
use std::marker::Model;

/// The name of a table.
#[derive(Drop)]
pub(crate) struct TableName {
    text: Txt,
}

impl Named for TableName {
    ghost name_of = { λ name. name.text };

    fn name(&self) -> &[u8] {
        self.text.bytes()
    }
}

/// Tables that are found by name, and get further columns. Contracts see the list of their schemas.
#[derive(Drop)]
pub(crate) struct Own {
    schemas: Vec<Schema>,
    /// Their names, in the same order.
    names: NamedList<TableName>,
}

impl Model for Own {
    ghost use Rattle.std.specs.Prelude.{List};
    ghost use Rattle.qd_base.specs.declared.schema.Schema.{Schema};
    ghost use Rattle.qd_lines.specs.Owned.{AreNames};

    ghost Value = { List Schema };

    ghost view = { λ own. own.schemas.items };

    ghost invariant = { λ own. AreNames own.names own.schemas.items };
}

impl Own {
    /// Begins without a table. It takes no memory until one is pushed.
    pub(crate) fn new(alloc: Global) -> Own
        ensures empty { result ≡ [] }
    {
        Own {
            schemas: Vec::new(alloc),
            names: NamedList::new(alloc),
        }
    }

    /// Lends the schema at a position, where there is one, in constant time.
    pub(crate) fn get(&self, i: usize) -> Option<&Schema>
        ensures schema { option_map (λ s. s.now) result ≡ slice_get self.now i }
    {
        self.schemas.get(i)
    }

    /// Gives the position of the table of a name, where there is one. ASCII case is ignored. It costs time logarithmic in
    /// the number of tables.
    pub(crate) fn find(&self, name: &[u8]) -> Option<usize>
        ensures position { result ≡ table_at self.now name.now }
    {
        self.names.find(name)
    }

    /// Adds a table at the end. It costs the time of `find`, and moves at most one number for each table.
    pub(crate) fn push(&mut self, schema: Schema) -> Result<(), Memory>
        ensures ok { OnOk result (self.new ≡ self.old ++ schema ∷ []) }
    {
        let text = schema.name.copy()?;
        self.schemas.reserve(1)?;
        self.names.push(TableName { text })?;
        self.schemas.push(schema)?;
        Ok(())
    }

    /// Adds a column behind the others of the table at a position.
    pub(crate) fn add_column(&mut self, i: usize, col: Col) -> Result<(), Memory>
        requires there { i < length self.old }
        ensures ok { OnOk result ((d : Looks) → self.new ≡ slice_set self.old i (with_column col (slice_index_or self.old i d))) }
    {
        let schema = &mut self.schemas[i];
        schema.cols.push(col)
    }
}
