//! What takes the changes of a batch and writes them.
ghost use Rattle.std.specs.Prelude.{◌≡◌, ◌∷◌, [], ◌++◌, List, IfOk, OnOk};
ghost use Rattle.std.specs.List.{filter};
ghost use Rattle.qd_base.specs.declared.op.Op.{Op as Change};
ghost use Rattle.qd_base.specs.declared.op.Op.TheVariants as op;
ghost use Rattle.qd_base.specs.Schemas as names;
ghost use Rattle.qd_ilp.specs.Transaction.{joined};
ghost use Rattle.qd_lines.specs.Changes.{IsPlain};
ghost use Rattle.qd_lines.specs.Sinks.{cell_lent, with_cells, with_row};
ghost use Rattle.qd_wal_entry.specs.Spelling.{SpellsEntry};
ghost use Rattle.qd_prepare.specs.declared.sink.Place.TheVariants as place;
ghost use Rattle.qd_prepare.specs.Sunk.{HasTaken, IsTaken, alters};

use crate::fits::is_short;
use crate::write::{end_insert, end_row, write_cell, write_change};
use qd_base::{Col, Duplicate, Memory, Op, OpList, Schema, Txt, same_name};
use qd_lines::{CellView, OpSink};
use qd_wal_entry::EntryWriter;
use std::alloc::{AllocError, Global};
use std::marker::Model;

/// Writes the changes of a batch as an entry, and keeps those that make a table or a column.
///
/// The last row stays open in the writer until the next change or the end, since it may get further cells. Contracts see what
/// it holds, and by `HasTaken` which changes those are.
#[derive(Drop)]
pub(crate) struct EntrySink {
    alloc: Global,
    writer: EntryWriter,
    place: Place,
    /// The table of the insertion that is open.
    table: Txt,
    /// The changes that make a table or a column.
    changes: OpList,
}

/// Where the writer of a sink is.
#[derive(Clone, Copy)]
enum Place {
    /// Behind a change that is whole.
    Shut,
    /// In the last row of an insertion.
    Open,
    /// Nobody knows, since no memory was found. Nothing more is taken.
    Lost,
}

/// What a sink gives of a batch that is taken.
#[derive(Drop)]
pub(crate) struct Finished {
    /// The bytes of the entry.
    pub bytes: Txt,
    /// The changes that make a table or a column.
    pub changes: OpList,
}

impl Model for EntrySink {
    ghost use Rattle.qd_prepare.specs.Sunk.{IsTied, Sunk};

    ghost Value = { Sunk };

    ghost view = { λ s. record { writer = s.writer; place = s.place; table = s.table; changes = s.changes } };

    ghost invariant = { λ s. IsTied s.place s.writer };
}

impl EntrySink {
    /// Begins without changes.
    pub(crate) fn new(alloc: Global) -> Result<EntrySink, Memory>
        ensures nothing { IfOk result (λ sink. HasTaken sink []) }
    {
        Ok(EntrySink {
            alloc,
            writer: EntryWriter::new(alloc)?,
            place: Place::Shut,
            table: Txt::from_vec(Vec::new(alloc)),
            changes: OpList::new(alloc),
        })
    }

    /// Gives the bytes of all changes. It costs time linear in them, and memory for them twice.
    pub(crate) fn finish(mut self) -> Result<Finished, Memory>
        ensures spelled { (ops : List Change) → HasTaken self ops → IfOk result (λ f. SpellsEntry f.bytes (record { ops = ops })) }
        ensures changes { (ops : List Change) → HasTaken self ops → IfOk result (λ f. f.changes ≡ filter alters ops) }
    {
        self.shut()?;
        let EntrySink {
            writer,
            changes,
            ..
        } = self;
        let bytes = writer.finish()?;
        Ok(Finished { bytes, changes })
    }

    /// Ends the insertion that is open, where one is.
    fn shut(&mut self) -> Result<(), Memory>
        ensures shut { OnOk result (self.new.place ≡ place.Shut) }
        ensures kept { (ops : List Change) → IsTaken self.old ops → OnOk result (IsTaken self.new ops) }
    {
        match self.place {
            Place::Shut => Ok(()),
            Place::Open => self.end(),
            Place::Lost => Err(AllocError),
        }
    }

    /// Ends the insertion that is open.
    fn end(&mut self) -> Result<(), Memory>
        requires open { self.old.place ≡ place.Open }
        ensures shut { OnOk result (self.new.place ≡ place.Shut) }
        ensures kept { (ops : List Change) → IsTaken self.old ops → OnOk result (IsTaken self.new ops) }
    {
        self.place = Place::Lost;
        end_insert(&mut self.writer)?;
        self.place = Place::Shut;
        Ok(())
    }

    /// Takes the making of a table or a column.
    fn alter(&mut self, change: Op) -> Result<(), Memory>
        requires plain { IsPlain change }
        ensures ok { (ops : List Change) → HasTaken self.old ops → OnOk result (HasTaken self.new (joined ops change)) }
    {
        self.shut()?;
        self.place = Place::Lost;
        write_change(&mut self.writer, &change)?;
        self.changes.push(change)?;
        self.place = Place::Shut;
        Ok(())
    }

    /// Begins a row.
    fn insert(&mut self, table: &[u8]) -> Result<(), Memory>
        ensures ok { (ops : List Change) → HasTaken self.old ops → OnOk result (HasTaken self.new (with_row table.now [] ops)) }
    {
        match self.place {
            Place::Open if is_name(self.table.bytes(), table) => end_row(&mut self.writer),
            _ => self.begin(table),
        }
    }

    /// Begins an insertion, which is joined with none, with a row that is begun.
    fn begin(&mut self, table: &[u8]) -> Result<(), Memory>
        ensures ok { (ops : List Change) → IsTaken self.old ops → OnOk result (HasTaken self.new (ops ++ op.Insert table.now ([] ∷ []) ∷ [])) }
    {
        self.shut()?;
        if !is_short(table) {
            return Err(AllocError);
        }
        let name = Txt::from_bytes(self.alloc, table)?;
        self.place = Place::Lost;
        self.writer.begin_insert(table)?;
        self.table = name;
        self.place = Place::Open;
        Ok(())
    }

    /// Takes the next cell of the row that is open. Where none is, which no batch does, nothing is taken.
    fn put(&mut self, cell: CellView<'_>) -> Result<(), Memory>
        ensures ok { (ops : List Change) → HasTaken self.old ops → OnOk result (HasTaken self.new (with_cells (cell_lent cell.entry ∷ []) ops)) }
    {
        let Place::Open = self.place else {
            return Err(AllocError);
        };
        self.place = Place::Lost;
        write_cell(&mut self.writer, cell)?;
        self.place = Place::Open;
        Ok(())
    }
}

impl OpSink for EntrySink {
    ghost taken = { HasTaken };

    /// Writes a new table. It costs time and memory linear in the schema, which is copied, and ends the insertion before it.
    fn create(&mut self, schema: &Schema) -> Result<(), Memory> {
        let schema = schema.copy()?;
        self.alter(Op::Create { schema })
    }

    /// Writes a new column, whose names are copied, and ends the insertion before it.
    fn add_column(&mut self, table: &[u8], col: &Col) -> Result<(), Memory> {
        let table = Txt::from_bytes(self.alloc, table)?;
        let col = col.copy()?;
        self.alter(Op::AddColumn { table, col })
    }

    /// Begins a row, in constant time where the row before it is in the same table. Else the insertion before it is ended,
    /// in time linear in its bytes, and the table's name is copied.
    fn begin_row(&mut self, table: &[u8]) -> Result<(), Memory> {
        self.insert(table)
    }

    /// Writes a cell. It costs time linear in its text, on average.
    fn push_cell(&mut self, cell: CellView<'_>) -> Result<(), Memory> {
        self.put(cell)
    }

    /// Ends a row. Nothing is left to do: the row stays open in the writer.
    fn end_row(&mut self) -> Result<(), Memory> {
        Ok(())
    }
}

/// Says whether two names are one. Names that are spelled alike, as most are, are compared by groups of bytes.
fn is_name(a: &[u8], b: &[u8]) -> bool
    ensures same { result ≡ names.same_name a.now b.now }
{
    a == b || same_name(a, b)
}
