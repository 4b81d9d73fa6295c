//! One table: its partitions, and rows that wait to be put into them.
ghost use Rattle.std.specs.Prelude.{◌≡◌, [], ◌++◌, All, IfOk, IfSome, OnOk};
ghost use Rattle.qd_base.specs.Database.{filled, rekeyed, widened};
ghost use Rattle.qd_base.specs.Lawful.{IsRowOf, IsSchema};
ghost use Rattle.qd_base.specs.Schemas.{with_column, with_keys};
ghost use Rattle.qd_block.specs.Blocks.{FitsKinds, IsTimed};
ghost use Rattle.qd_memory.specs.Kept.{stored, waiting_in, IsBegun, IsKept, IsSettled, IsWaiting};

use crate::merging::{batch_of, with_batch};
use crate::slots::{Slot, parts_of, shared_slots};
use qd_base::{Col, Duplicate, KeyList, Memory, PartList, Row, RowList, Schema};
use qd_block::Builder;
use qd_symbols::SymbolMap;
use std::alloc::Global;
use std::marker::Model;

/// A table. Contracts see its schema, its slots, its parts and the rows that wait.
#[derive(Drop)]
pub(crate) struct Table {
    pub(crate) schema: Schema,
    pub(crate) slots: Vec<Slot>,
    pub(crate) parts: PartList,
    /// A block in the making, where rows wait.
    pub(crate) waiting: Option<Builder<SymbolMap>>,
}

impl Model for Table {
    ghost use Rattle.qd_memory.specs.Kept.{waiting_in, IsTable, Kept};

    ghost Value = { Kept };

    ghost view = { λ t. record { schema = t.schema; slots = t.slots.items; parts = t.parts; waiting = waiting_in t.waiting } };

    ghost invariant = { λ t. IsTable t.schema t.slots.items t.parts t.waiting };
}

impl Table {
    /// Makes a table without rows.
    pub(crate) fn new(alloc: Global, schema: Schema) -> Table
        requires { IsSchema schema }
        ensures { result ≡ record { schema = schema; slots = []; parts = []; waiting = [] } }
    {
        Table {
            schema,
            slots: Vec::new(alloc),
            parts: PartList::new(alloc),
            waiting: None,
        }
    }

    /// Tells that what is kept fits together. It does nothing.
    pub(crate) fn is_kept(&self)
        ensures { IsKept self.now }
    {
        let _ = &self.schema;
    }

    /// Gives an equal table, which shares the blocks. No row may wait.
    pub(crate) fn share(&self, alloc: Global) -> Result<Table, Memory>
        requires settled { IsSettled self.now }
        ensures same { IfOk result (λ t. t ≡ self.now) }
    {
        let schema = self.schema.copy()?;
        let slots = shared_slots(alloc, self.slots.as_slice())?;
        let parts = self.parts.copy()?;
        Ok(Table {
            schema,
            slots,
            parts,
            waiting: None,
        })
    }

    /// Lets rows wait, behind those that do. Where no memory is found, none waits any more.
    pub(crate) fn fill(&mut self, alloc: Global, rows: &RowList) -> Result<(), Memory>
        requires fit { All (IsRowOf self.old.schema) rows.now }
        ensures ok { OnOk result (stored self.new ≡ filled rows.now (stored self.old)) }
    {
        if rows.is_empty() {
            return Ok(());
        }
        let mut waiting = begun(alloc, &self.schema, self.waiting.take())?;
        push_rows(&mut waiting, rows.as_slice())?;
        self.waiting = Some(waiting);
        Ok(())
    }

    /// Puts the rows that wait into their partitions. Where no memory is found, none waits any more.
    pub(crate) fn settle(&mut self, alloc: Global) -> Result<(), Memory>
        ensures same { OnOk result (stored self.new ≡ stored self.old) }
        ensures none { OnOk result (self.new.waiting ≡ []) }
    {
        match self.waiting.take() {
            Some(waiting) => {
                let batch = batch_of(alloc, &self.schema, waiting)?;
                let slots = with_batch(alloc, &self.schema, self.slots.as_slice(), &batch)?;
                self.parts = parts_of(alloc, slots.as_slice())?;
                self.slots = slots;
                Ok(())
            }
            None => Ok(()),
        }
    }

    /// Adds a column.
    pub(crate) fn widen(&mut self, alloc: Global, col: &Col) -> Result<(), Memory>
        requires sound { IsSchema (with_column col.now self.old.schema) }
        ensures ok { OnOk result (stored self.new ≡ widened col.now (stored self.old)) }
    {
        self.settle(alloc)?;
        let col = col.copy()?;
        self.schema.cols.push(col)?;
        Ok(())
    }

    /// Sets the deduplication keys, for rows that come after.
    pub(crate) fn rekey(&mut self, alloc: Global, keys: &KeyList) -> Result<(), Memory>
        requires sound { IsSchema (with_keys keys.now self.old.schema) }
        ensures ok { OnOk result (stored self.new ≡ rekeyed keys.now (stored self.old)) }
    {
        self.settle(alloc)?;
        self.schema.keys = keys.copy()?;
        Ok(())
    }
}

/// Goes on with a block in the making, or begins one.
fn begun(
    alloc: Global,
    schema: &Schema,
    waiting: Option<Builder<SymbolMap>>,
) -> Result<Builder<SymbolMap>, Memory>
    requires schema { IsSchema schema.now }
    requires waiting { IfSome waiting (IsWaiting schema.now) }
    ensures begun { IfOk result (λ b. IsBegun schema.now b) }
    ensures rows { IfOk result (λ b. b.rows ≡ waiting_in waiting) }
{
    match waiting {
        Some(waiting) => Ok(waiting),
        None => Builder::new(alloc, &schema.cols, schema.time_col),
    }
}

/// Adds rows to a block in the making.
fn push_rows(waiting: &mut Builder<SymbolMap>, rows: &[Row]) -> Result<(), Memory>
    requires begun { waiting.old.open_row ≡ [] }
    requires fit { All (FitsKinds waiting.old.kinds) rows.now }
    requires timed { All (IsTimed waiting.old.time_col) rows.now }
    ensures ok { OnOk result (waiting.new ≡ record waiting.old { rows = waiting.old.rows ++ rows.now }) }
{
    for row in rows {
        waiting.push_row(row)?;
    }
    Ok(())
}
