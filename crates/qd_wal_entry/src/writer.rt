//! A writer of entries.
ghost use Rattle.std.specs.Prelude.{◌≡◌, ◌+◌, ◌≤◌, ◌<◌, ◌↔◌, ◌∷◌, ◌++◌, true, false, length, IfOk, IsTrue, OnOk};
ghost use Rattle.qd_base.specs.declared.limits.TheConstants.{MAX_TEXT_BYTES};
ghost use Rattle.qd_base.specs.declared.cell.Cell.TheVariants as cell;
ghost use Rattle.qd_base.specs.declared.op.Op.TheVariants as op;
ghost use Rattle.qd_fields.specs.Spelling.{FitsName, FitsColumn, FitsKeys, FitsSchema, name_bytes, u16_bytes, u32_bytes};
ghost use Rattle.qd_wal_entry.specs.Spelling.{SpellsEntry};
ghost use Rattle.qd_wal_entry.specs.Written.{EndsRow, HasRoom, IsAt, IsSoFar, SoFar, begun, entry_of, inserted, nothing, with_cell, with_op, with_row};

use crate::draft::EntryDraft;
use qd_base::{Col, Memory, Schema, Txt};
use qd_fields::{push_column, push_keys, push_name, push_schema, push_u16, push_u32};
use std::alloc::Global;
use std::marker::Model;

/// An entry that is written change by change and cell by cell, straight into its bytes, without its rows being made.
///
/// Contracts see what it holds, by `IsSoFar` which entry that is so far, and by `IsAt` how far the insertion is that was
/// begun. Each text is kept once, and found in constant time, on average. Once a call found no memory nothing is said of the
/// writer any more. What a call asks for is up to the caller: [`EntryWriter::has_room`] tells whether there is room for one
/// more of each, and [`EntryWriter::ends_row`] whether a row may end.
#[derive(Drop)]
pub struct EntryWriter {
    /// The texts so far, and the bytes of the cells of the insertion that was begun.
    draft: EntryDraft,
    /// The bytes of the changes that are complete.
    done: Vec<u8>,
    count: u32,
    is_open: bool,
    table: Vec<u8>,
    columns: u16,
    rows: u32,
    cells: u16,
}

impl Model for EntryWriter {
    ghost use Rattle.qd_wal_entry.specs.Written.{IsFew, Written};

    ghost Value = { Written };

    ghost view = { λ w. record { draft = w.draft; done = w.done.items; count = w.count; is_open = w.is_open; table = w.table.items; columns = w.columns; rows = w.rows; cells = w.cells } };

    ghost invariant = { λ w. IsFew w.draft.texts w.table.items };
}

impl EntryWriter {
    /// Begins an entry.
    pub fn new(alloc: Global) -> Result<EntryWriter, Memory>
        ensures nothing { IfOk result (λ w. IsSoFar w nothing) }
        ensures place { IfOk result (λ w. IsAt w false 0 0 0) }
    {
        Ok(EntryWriter {
            draft: EntryDraft::new(alloc)?,
            done: Vec::new(alloc),
            count: 0,
            is_open: false,
            table: Vec::new(alloc),
            columns: 0,
            rows: 0,
            cells: 0,
        })
    }

    /// Whether there is room for one more text, change, row and cell of a row.
    pub fn has_room(&self) -> bool
        ensures room { IsTrue result ↔ HasRoom self.now }
    {
        self.draft.has_room()
            && self.count < u32::MAX
            && self.rows < u32::MAX
            && self.cells < u16::MAX
    }

    /// Whether a row may end: it has some cells, and as many as the rows before it.
    pub fn ends_row(&self) -> bool
        ensures whole { IsTrue result ↔ EndsRow self.now }
    {
        self.is_open && 0 < self.cells && (self.rows == 0 || self.cells == self.columns)
    }

    /// Adds the making of a table.
    pub fn create(&mut self, schema: &Schema) -> Result<(), Memory>
        requires closed { self.old.is_open ≡ false }
        requires room { HasRoom self.old }
        requires fits { FitsSchema schema.now }
        ensures added { OnOk result ((e : SoFar) → IsSoFar self.old e → IsSoFar self.new (with_op (op.Create schema.now) e)) }
        ensures place { OnOk result (IsAt self.new false self.old.columns self.old.rows self.old.cells) }
    {
        self.done.push(1)?;
        push_schema(&mut self.done, schema)?;
        self.count += 1;
        Ok(())
    }

    /// Adds that a column is added to a table.
    pub fn add_column(&mut self, table: &[u8], col: &Col) -> Result<(), Memory>
        requires closed { self.old.is_open ≡ false }
        requires room { HasRoom self.old }
        requires table { FitsName table.now }
        requires col { FitsColumn col.now }
        ensures added { OnOk result ((e : SoFar) → IsSoFar self.old e → IsSoFar self.new (with_op (op.AddColumn table.now col.now) e)) }
        ensures place { OnOk result (IsAt self.new false self.old.columns self.old.rows self.old.cells) }
    {
        self.done.push(2)?;
        push_name(&mut self.done, table)?;
        push_column(&mut self.done, col)?;
        self.count += 1;
        Ok(())
    }

    /// Adds that the deduplication keys of a table are set.
    pub fn set_keys(&mut self, table: &[u8], keys: &[u32]) -> Result<(), Memory>
        requires closed { self.old.is_open ≡ false }
        requires room { HasRoom self.old }
        requires table { FitsName table.now }
        requires keys { FitsKeys keys.now }
        ensures added { OnOk result ((e : SoFar) → IsSoFar self.old e → IsSoFar self.new (with_op (op.SetKeys table.now keys.now) e)) }
        ensures place { OnOk result (IsAt self.new false self.old.columns self.old.rows self.old.cells) }
    {
        self.done.push(4)?;
        push_name(&mut self.done, table)?;
        push_keys(&mut self.done, keys)?;
        self.count += 1;
        Ok(())
    }

    /// Begins to insert rows into a table.
    pub fn begin_insert(&mut self, table: &[u8]) -> Result<(), Memory>
        requires closed { self.old.is_open ≡ false }
        requires table { FitsName table.now }
        ensures begun { OnOk result ((e : SoFar) → IsSoFar self.old e → IsSoFar self.new (begun table.now e)) }
        ensures place { OnOk result (IsAt self.new true self.old.columns self.old.rows self.old.cells) }
    {
        self.table.clear();
        self.table.extend_from_slice(table)?;
        self.is_open = true;
        Ok(())
    }

    /// Adds NULL as the next cell of a row.
    pub fn push_null(&mut self) -> Result<(), Memory>
        requires begun { self.old.is_open ≡ true }
        requires room { HasRoom self.old }
        ensures pushed { OnOk result ((e : SoFar) → IsSoFar self.old e → IsSoFar self.new (with_cell cell.Null e)) }
        ensures place { OnOk result (IsAt self.new true self.old.columns self.old.rows (self.old.cells + 1)) }
    {
        self.draft.push_code(0)?;
        self.cells += 1;
        Ok(())
    }

    /// Adds a number as the next cell of a row.
    pub fn push_long(&mut self, number: i64) -> Result<(), Memory>
        requires begun { self.old.is_open ≡ true }
        requires room { HasRoom self.old }
        ensures pushed { OnOk result ((e : SoFar) → IsSoFar self.old e → IsSoFar self.new (with_cell (cell.Long number) e)) }
        ensures place { OnOk result (IsAt self.new true self.old.columns self.old.rows (self.old.cells + 1)) }
    {
        self.draft.push_signed(number)?;
        self.cells += 1;
        Ok(())
    }

    /// Adds a truth value as the next cell of a row.
    pub fn push_bool(&mut self, truth: bool) -> Result<(), Memory>
        requires begun { self.old.is_open ≡ true }
        requires room { HasRoom self.old }
        ensures pushed { OnOk result ((e : SoFar) → IsSoFar self.old e → IsSoFar self.new (with_cell (cell.Bool truth) e)) }
        ensures place { OnOk result (IsAt self.new true self.old.columns self.old.rows (self.old.cells + 1)) }
    {
        self.draft.push_truth(truth)?;
        self.cells += 1;
        Ok(())
    }

    /// Adds a text of at most 65,535 bytes as the next cell of a row. It costs time linear in it, on average.
    pub fn push_text(&mut self, text: &[u8]) -> Result<(), Memory>
        requires begun { self.old.is_open ≡ true }
        requires room { HasRoom self.old }
        requires short { length text.now ≤ MAX_TEXT_BYTES }
        ensures pushed { OnOk result ((e : SoFar) → IsSoFar self.old e → IsSoFar self.new (with_cell (cell.Text text.now) e)) }
        ensures place { OnOk result (IsAt self.new true self.old.columns self.old.rows (self.old.cells + 1)) }
    {
        self.draft.push_text(text)?;
        self.cells += 1;
        Ok(())
    }

    /// Adds microseconds since 1970-01-01T00:00Z as the next cell of a row.
    pub fn push_time(&mut self, time: u64) -> Result<(), Memory>
        requires begun { self.old.is_open ≡ true }
        requires room { HasRoom self.old }
        ensures pushed { OnOk result ((e : SoFar) → IsSoFar self.old e → IsSoFar self.new (with_cell (cell.Time time) e)) }
        ensures place { OnOk result (IsAt self.new true self.old.columns self.old.rows (self.old.cells + 1)) }
    {
        self.draft.push_number(5, time)?;
        self.cells += 1;
        Ok(())
    }

    /// Ends a row of some cells: as many as the rows before it have.
    pub fn end_row(&mut self)
        requires room { HasRoom self.old }
        requires whole { EndsRow self.old }
        ensures ended { (e : SoFar) → IsSoFar self.old e → IsSoFar self.new (with_row e) }
        ensures place { IsAt self.new true self.old.cells (self.old.rows + 1) 0 }
    {
        self.columns = self.cells;
        self.rows += 1;
        self.cells = 0;
    }

    /// Ends the insertion that was begun. It costs time linear in its bytes, which are copied once.
    pub fn end_insert(&mut self) -> Result<(), Memory>
        requires begun { self.old.is_open ≡ true }
        requires room { HasRoom self.old }
        requires ended { self.old.cells ≡ 0 }
        ensures added { OnOk result ((e : SoFar) → IsSoFar self.old e → IsSoFar self.new (inserted e)) }
        ensures place { OnOk result (IsAt self.new false 0 0 0) }
    {
        push_head(
            &mut self.done,
            self.table.as_slice(),
            self.columns,
            self.rows,
        )?;
        self.draft.give_body(&mut self.done)?;
        self.table.clear();
        self.count += 1;
        self.is_open = false;
        self.columns = 0;
        self.rows = 0;
        Ok(())
    }

    /// Gives the bytes of the entry. It costs time linear in them, and memory for them twice.
    pub fn finish(self) -> Result<Txt, Memory>
        requires closed { self.is_open ≡ false }
        ensures spelled { IfOk result (λ bytes. (e : SoFar) → IsSoFar self e → SpellsEntry bytes (entry_of e)) }
    {
        self.draft.spelled(self.count, self.done.as_slice())
    }
}

/// Adds what stands in front of the cells of rows that are inserted.
fn push_head(bytes: &mut Vec<u8>, table: &[u8], columns: u16, rows: u32) -> Result<(), Memory>
    requires table { FitsName table.now }
    ensures bytes { OnOk result (bytes.new.items ≡ bytes.old.items ++ (3 ∷ (name_bytes table.now ++ (u16_bytes columns ++ u32_bytes rows)))) }
{
    bytes.push(3)?;
    push_name(bytes, table)?;
    push_u16(bytes, columns)?;
    push_u32(bytes, rows)
}
