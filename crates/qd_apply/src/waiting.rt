//! One table: rows that wait to be merged.
ghost use Rattle.std.specs.Prelude.{◌≡◌, [], ◌++◌, All, IfOk, IfSome, OnOk};
ghost use Rattle.qd_base.specs.Database.{rekeyed, widened};
ghost use Rattle.qd_base.specs.Lawful.{IsRowOf, IsSchema};
ghost use Rattle.qd_base.specs.Schemas.{with_column, with_keys};
ghost use Rattle.qd_block.specs.Blocks.{FitsKinds, IsTimed};
ghost use Rattle.qd_apply.specs.Arrivals.{arrived};
ghost use Rattle.qd_apply.specs.Waiting.{begun_rows, IsBegun, Waits};

use qd_base::{Col, Duplicate, KeyList, Memory, Row, RowList, Schema};
use qd_block::Builder;
use qd_symbols::SymbolMap;
use std::alloc::Global;
use std::marker::Model;

/// A table with rows that wait. Contracts see its schema and these rows, in the order in which they came.
#[derive(Drop)]
pub(crate) struct Waiting {
    pub(crate) schema: Schema,
    /// Rows that came before a column was added, in blocks in the making of the columns of that time.
    pub(crate) stages: Vec<Builder<SymbolMap>>,
    /// The rows since, in a block in the making with all columns.
    pub(crate) current: Option<Builder<SymbolMap>>,
}

impl Model for Waiting {
    ghost use Rattle.qd_base.specs.Database.{StoredTable};
    ghost use Rattle.qd_apply.specs.Waiting.{waiting, IsWaiting};

    ghost Value = { StoredTable };

    ghost view = { λ t. waiting t.schema t.stages.items t.current };

    ghost invariant = { λ t. IsWaiting t.schema t.stages.items t.current };
}

impl Waiting {
    /// Makes a table in which no row waits.
    pub(crate) fn new(alloc: Global, schema: Schema) -> Waiting
        requires { IsSchema schema }
        ensures { result ≡ record { schema = schema; rows = [] } }
    {
        Waiting {
            schema,
            stages: Vec::new(alloc),
            current: None,
        }
    }

    /// Tells that the rows fit. It does nothing.
    pub(crate) fn waits(&self)
        ensures { Waits self.now }
    {
        let _ = &self.schema;
    }

    /// Lets rows wait, behind those that do. Where no memory is found, some may wait no more.
    pub(crate) fn fill(&mut self, alloc: Global, rows: &RowList) -> Result<(), Memory>
        requires fit { All (IsRowOf self.old.schema) rows.now }
        ensures ok { OnOk result (self.new ≡ arrived rows.now self.old) }
    {
        let mut current = begun(alloc, &self.schema, self.current.take())?;
        push_rows(&mut current, rows.as_slice())?;
        self.current = Some(current);
        Ok(())
    }

    /// Sets the deduplication keys. The rows that wait stay where they are.
    pub(crate) fn rekey(&mut self, keys: &KeyList) -> Result<(), Memory>
        requires sound { IsSchema (with_keys keys.now self.old.schema) }
        ensures ok { OnOk result (self.new ≡ rekeyed keys.now self.old) }
    {
        self.schema.keys = keys.copy()?;
        Ok(())
    }

    /// Adds a column. The rows that wait stay where they are. Where no memory is found, some may wait no more.
    pub(crate) fn widen(&mut self, col: &Col) -> Result<(), Memory>
        requires sound { IsSchema (with_column col.now self.old.schema) }
        ensures ok { OnOk result (self.new ≡ widened col.now self.old) }
    {
        let col = col.copy()?;
        match self.current.take() {
            Some(stage) => {
                self.stages.push(stage)?;
                self.schema.cols.push(col)?;
                Ok(())
            }
            None => {
                self.schema.cols.push(col)?;
                Ok(())
            }
        }
    }
}

/// Goes on with a block in the making, or begins one.
pub(crate) fn begun(
    alloc: Global,
    schema: &Schema,
    current: Option<Builder<SymbolMap>>,
) -> Result<Builder<SymbolMap>, Memory>
    requires schema { IsSchema schema.now }
    requires current { IfSome current (IsBegun schema.now) }
    ensures begun { IfOk result (λ b. IsBegun schema.now b) }
    ensures rows { IfOk result (λ b. b.rows ≡ begun_rows current) }
{
    match current {
        Some(current) => Ok(current),
        None => Builder::new(alloc, &schema.cols, schema.time_col),
    }
}

/// Adds rows to a block in the making.
fn push_rows(current: &mut Builder<SymbolMap>, rows: &[Row]) -> Result<(), Memory>
    requires begun { current.old.open_row ≡ [] }
    requires fit { All (FitsKinds current.old.kinds) rows.now }
    requires timed { All (IsTimed current.old.time_col) rows.now }
    ensures ok { OnOk result (current.new ≡ record current.old { rows = current.old.rows ++ rows.now }) }
{
    for row in rows {
        current.push_row(row)?;
    }
    Ok(())
}
