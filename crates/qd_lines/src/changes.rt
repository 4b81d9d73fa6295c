//! The changes of a transaction, put together one by one.
ghost use Rattle.std.specs.Prelude.{◌≡◌, ◌∷◌, [], ◌++◌, IfOk, OnOk};
ghost use Rattle.qd_base.specs.declared.op.Op.TheVariants as op;
ghost use Rattle.qd_ilp.specs.Transaction.{joined};
ghost use Rattle.qd_lines.specs.Changes.{inserted, IsPlain};
ghost use Rattle.qd_lines.specs.Sinks.{cell_lent, with_cells, with_row};

use crate::lent::{CellView, owned};
use crate::names::is_name;
use crate::sink::OpSink;
use qd_base::{Col, Duplicate, Entry, Memory, Op, OpList, Row, RowList, Schema, Txt};
use std::alloc::Global;
use std::marker::Model;
use std::mem;

/// Changes in order, consecutive insertions into one table as one. Contracts see that list.
#[derive(Drop)]
pub(crate) struct Changes {
    alloc: Global,
    /// The changes before the last, where that inserts rows; else all.
    done: OpList,
    /// The last change, where it inserts rows.
    inserting: Option<Insertion>,
}

/// The most cells that a row of another table than the last one's is given room for at once.
const MOST_ROOM: usize = 16;

/// Rows that go into one table.
#[derive(Drop)]
struct Insertion {
    table: Txt,
    /// The rows before the last.
    rows: RowList,
    /// The last row, which may get further cells.
    row: Row,
}

impl Model for Changes {
    ghost use Rattle.std.specs.Prelude.{List, ◌++◌};
    ghost use Rattle.qd_base.specs.declared.op.Op.{Op};
    ghost use Rattle.qd_lines.specs.Changes.{inserted, IsParted};

    ghost Value = { List Op };

    ghost view = { λ c. c.done ++ inserted c.inserting };

    ghost invariant = { λ c. IsParted c.done c.inserting };
}

impl Changes {
    /// Begins without changes.
    pub(crate) fn new(alloc: Global) -> Changes
        ensures empty { result ≡ [] }
    {
        Changes {
            alloc,
            done: OpList::new(alloc),
            inserting: None,
        }
    }

    /// Makes the transaction of all changes, in amortised constant time.
    pub(crate) fn finish(self) -> Result<Entry, Memory>
        ensures entry { IfOk result (λ entry. entry.ops ≡ self) }
    {
        let ops = all_of(self.done, self.inserting)?;
        Ok(Entry { ops })
    }

    /// Adds a change that inserts no rows.
    fn push(&mut self, change: Op) -> Result<(), Memory>
        requires { IsPlain change }
        ensures ok { OnOk result (self.new ≡ joined self.old change) }
    {
        let mut done = self.take()?;
        done.push(change)?;
        *self = Changes {
            alloc: self.alloc,
            done,
            inserting: None,
        };
        Ok(())
    }

    /// Begins a row.
    fn insert(&mut self, table: &[u8]) -> Result<(), Memory>
        ensures ok { OnOk result (self.new ≡ with_row table.now [] self.old) }
    {
        match &mut self.inserting {
            Some(last) if is_name(last.table.bytes(), table) => last.next_row(self.alloc),
            _ => self.begin(table),
        }
    }

    /// Adds an insertion, which is joined with none, with a row that is begun.
    fn begin(&mut self, table: &[u8]) -> Result<(), Memory>
        ensures ok { OnOk result (self.new ≡ self.old ++ op.Insert table.now ([] ∷ []) ∷ []) }
    {
        let room = self.room();
        let done = self.take()?;
        let table = Txt::from_bytes(self.alloc, table)?;
        *self = Changes {
            alloc: self.alloc,
            done,
            inserting: Some(Insertion {
                table,
                rows: RowList::with_capacity(self.alloc, 1)?,
                row: Row::with_capacity(self.alloc, room)?,
            }),
        };
        Ok(())
    }

    /// Gives how many cells a row of another table is given room for: as many as the row that was begun last has, but few.
    fn room(&self) -> usize {
        match &self.inserting {
            Some(last) => last.row.len().min(MOST_ROOM),
            None => 0,
        }
    }

    /// Adds a cell to the row that was begun last.
    fn put(&mut self, cell: CellView<'_>) -> Result<(), Memory>
        ensures ok { OnOk result (self.new ≡ with_cells (cell_lent cell.entry ∷ []) self.old) }
    {
        let Some(last) = &mut self.inserting else {
            return Ok(());
        };
        last.put(self.alloc, cell)
    }

    /// Takes all changes out.
    fn take(&mut self) -> Result<OpList, Memory>
        ensures all { IfOk result (λ ops. ops ≡ self.old) }
    {
        let done = mem::replace(&mut self.done, OpList::new(self.alloc));
        all_of(done, self.inserting.take())
    }
}

impl OpSink for Changes {
    ghost taken = { λ changes ops. changes ≡ ops };

    /// Adds a new table, in amortised constant time but for the copy of the schema.
    fn create(&mut self, schema: &Schema) -> Result<(), Memory> {
        let schema = schema.copy()?;
        self.push(Op::Create { schema })
    }

    /// Adds a new column of a table, in amortised constant time but for the copies of the names.
    fn add_column(&mut self, table: &[u8], col: &Col) -> Result<(), Memory> {
        let table = Txt::from_bytes(self.alloc, table)?;
        let col = col.copy()?;
        self.push(Op::AddColumn { table, col })
    }

    /// Begins a row, in amortised constant time. The table's name is copied where the change before is no insertion into
    /// it.
    fn begin_row(&mut self, table: &[u8]) -> Result<(), Memory> {
        self.insert(table)
    }

    /// Adds a cell, in amortised constant time but for the copy of a text.
    fn push_cell(&mut self, cell: CellView<'_>) -> Result<(), Memory> {
        self.put(cell)
    }

    /// Ends a row: nothing is left to do.
    fn end_row(&mut self) -> Result<(), Memory> {
        Ok(())
    }
}

impl Insertion {
    /// Begins a further row.
    fn next_row(&mut self, alloc: Global) -> Result<(), Memory>
        ensures table { self.new.table ≡ self.old.table }
        ensures rows { OnOk result (self.new.rows ≡ self.old.rows ++ self.old.row ∷ []) }
        ensures row { self.new.row ≡ [] }
    {
        let room = self.row.len();
        let row = mem::replace(&mut self.row, Row::new(alloc));
        self.rows.push(row)?;
        self.row = Row::with_capacity(alloc, room)?;
        Ok(())
    }

    /// Adds a cell to the last row.
    fn put(&mut self, alloc: Global, cell: CellView<'_>) -> Result<(), Memory>
        ensures table { self.new.table ≡ self.old.table }
        ensures rows { self.new.rows ≡ self.old.rows }
        ensures row { OnOk result (self.new.row ≡ self.old.row ++ cell_lent cell.entry ∷ []) }
    {
        let cell = owned(alloc, cell)?;
        self.row.push(cell)
    }

    /// Makes the change that it is.
    fn finish(self) -> Result<Op, Memory>
        ensures all { IfOk result (λ change. change ≡ op.Insert self.table (self.rows ++ self.row ∷ [])) }
    {
        let Insertion {
            table,
            mut rows,
            row,
        } = self;
        rows.push(row)?;
        Ok(Op::Insert { table, rows })
    }
}

/// Puts the last insertion, where there is one, behind the changes before it.
fn all_of(mut done: OpList, inserting: Option<Insertion>) -> Result<OpList, Memory>
    ensures all { IfOk result (λ ops. ops ≡ done ++ inserted inserting) }
{
    if let Some(last) = inserting {
        done.push(last.finish()?)?;
    }
    Ok(done)
}
