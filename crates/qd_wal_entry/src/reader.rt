//! A reader of entries.
ghost use Rattle.std.specs.Prelude.{◌≡◌, ◌<◌, length, Some, slice_get, IfOk};
ghost use Rattle.qd_fields.specs.Reading.{Gives};
ghost use Rattle.qd_wal_entry.specs.declared.pieces.CellTag.TheVariants as tag;
ghost use Rattle.qd_wal_entry.specs.Cursor.{moved};
ghost use Rattle.qd_wal_entry.specs.Layout.{stored_at, cell_behind, cell_of, may_be_rows, create_at, add_at, insert_at, set_keys_at, head_at, open_at, closed};
ghost use Rattle.qd_wal_entry.specs.Reading.{Reads, IsAmong};

use crate::pieces::{CellTag, EntryCell, OpHead, OpTag, cell_tag_at, op_tag_at};
use crate::texts::{texts_at, unused};
use qd_base::{Cell, Memory, Txt};
use qd_fields::{Stop, column_at, damage, keys_at, name_at, schema_at, u16_at, u32_at, u64_at};
use qd_symbols::SymbolMap;
use std::alloc::Global;
use std::marker::Model;

/// An entry that is read change by change and cell by cell, without making its rows. Contracts see a place in it.
///
/// Of the bytes it copies the texts, once, and no more. Each call costs time linear in the bytes that it goes past. What a
/// reader gives behind a call that failed isn't said.
#[derive(Drop)]
pub struct EntryReader<'a> {
    texts: SymbolMap,
    used: u64,
    rest: &'a [u8],
}

impl<'a> Model for EntryReader<'a> {
    ghost use Rattle.qd_wal_entry.specs.Cursor.{Cursor};

    ghost Value = { Cursor };

    ghost view = { λ r. record { texts = r.texts; used = r.used; rest = r.rest.now } };
}

impl<'a> EntryReader<'a> {
    /// Begins to read an entry, and gives the number of its changes beside the reader. Damage is in the texts or in one of
    /// the numbers. It costs time and memory linear in the texts, on average.
    #[tactic(auto, unfolding(crate::specs::Layout::open_at))]
    pub fn open(alloc: Global, bytes: &'a [u8]) -> Result<(u32, EntryReader<'a>), Stop>
        ensures read { Gives (λ x. x) result (open_at bytes.now) }
    {
        let (texts, rest) = texts_at(alloc, bytes)?;
        let (count, rest) = u32_at(rest)?;
        let used = 0;
        Ok((count, EntryReader { texts, used, rest }))
    }

    /// How many bytes are still to be read, in constant time.
    pub fn left(&self) -> usize
        ensures left { result ≡ length self.now.rest }
    {
        self.rest.len()
    }

    /// Reads the next change, without the rows that it inserts: their cells come next, row by row.
    #[tactic(auto, unfolding(crate::specs::Layout::head_at))]
    pub fn next_op(&mut self, alloc: Global) -> Result<OpHead, Stop>
        ensures read { Reads result self.new (head_at self.old) }
    {
        let (tag, rest) = op_tag_at(self.rest)?;
        match tag {
            OpTag::Create => self.create(alloc, rest),
            OpTag::AddColumn => self.add_column(alloc, rest),
            OpTag::Insert => self.insert(alloc, rest),
            OpTag::SetKeys => self.set_keys(alloc, rest),
        }
    }

    /// Reads the next cell. It takes no memory.
    #[tactic(auto, unfolding(crate::specs::Layout::stored_at))]
    pub fn next_cell(&mut self) -> Result<EntryCell, Stop>
        ensures read { Reads result self.new (stored_at self.old) }
        ensures among { IfOk result (λ c. IsAmong self.new.texts c) }
    {
        let (tag, rest) = cell_tag_at(self.rest)?;
        match tag {
            CellTag::Null => Ok(self.go_on(rest, EntryCell::Null)),
            CellTag::Long => self.long(rest),
            CellTag::False => Ok(self.go_on(rest, EntryCell::Bool(false))),
            CellTag::True => Ok(self.go_on(rest, EntryCell::Bool(true))),
            CellTag::Text => self.text_id(rest),
            CellTag::Time => self.time(rest),
        }
    }

    /// Lends the text at a position, in constant time.
    pub fn text(&self, id: u64) -> &[u8]
        requires { id < length self.now.texts }
        ensures text { slice_get self.now.texts id ≡ Some result.now }
    {
        self.texts.text_of(id)
    }

    /// Gives a cell with a text of its own.
    pub fn cell(&self, alloc: Global, cell: EntryCell) -> Result<Cell, Memory>
        requires among { IsAmong self.now.texts cell }
        ensures cell { IfOk result (λ c. c ≡ cell_of self.now.texts cell) }
    {
        Ok(match cell {
            EntryCell::Null => Cell::Null,
            EntryCell::Long(number) => Cell::Long(number),
            EntryCell::Bool(truth) => Cell::Bool(truth),
            EntryCell::Text(id) => Cell::Text(Txt::from_bytes(alloc, self.text(id))?),
            EntryCell::Time(time) => Cell::Time(time),
        })
    }

    /// Says whether the entry, of these bytes, ends here: each text was used, and no byte is left.
    #[tactic(auto, unfolding(crate::specs::Layout::closed))]
    pub fn close(&self, alloc: Global, bytes: &[u8]) -> Result<(), Stop>
        ensures read { Gives (λ _. tt) result (closed bytes.now self.now) }
    {
        if self.used < self.texts.len() {
            return unused(alloc, self.used, bytes);
        }
        if !self.rest.is_empty() {
            return Err(damage(self.rest));
        }
        Ok(())
    }

    /// Goes on behind a cell that uses no text.
    fn go_on(&mut self, rest: &'a [u8], cell: EntryCell) -> EntryCell
        ensures cell { result ≡ cell }
        ensures moved { self.new ≡ moved self.old rest.now }
    {
        self.rest = rest;
        cell
    }

    /// A number.
    fn long(&mut self, rest: &'a [u8]) -> Result<EntryCell, Stop>
        ensures read { Reads result self.new (cell_behind self.old tag.Long rest.now) }
        ensures among { IfOk result (λ c. IsAmong self.new.texts c) }
    {
        let (number, rest) = u64_at(rest)?;
        self.rest = rest;
        Ok(EntryCell::Long(number.cast_signed()))
    }

    /// A time.
    fn time(&mut self, rest: &'a [u8]) -> Result<EntryCell, Stop>
        ensures read { Reads result self.new (cell_behind self.old tag.Time rest.now) }
        ensures among { IfOk result (λ c. IsAmong self.new.texts c) }
    {
        let (time, rest) = u64_at(rest)?;
        self.rest = rest;
        Ok(EntryCell::Time(time))
    }

    /// The position of a text.
    fn text_id(&mut self, bytes: &'a [u8]) -> Result<EntryCell, Stop>
        ensures read { Reads result self.new (cell_behind self.old tag.Text bytes.now) }
        ensures among { IfOk result (λ c. IsAmong self.new.texts c) }
    {
        let (id, rest) = u32_at(bytes)?;
        let id = id as u64;
        if self.used < id || self.texts.len() <= id {
            return Err(damage(bytes));
        }
        self.used = self.used.max(id + 1);
        self.rest = rest;
        Ok(EntryCell::Text(id))
    }

    /// A new table.
    #[tactic(auto, unfolding(crate::specs::Layout::create_at))]
    fn create(&mut self, alloc: Global, bytes: &'a [u8]) -> Result<OpHead, Stop>
        ensures read { Reads result self.new (create_at self.old bytes.now) }
    {
        let (schema, rest) = schema_at(alloc, bytes)?;
        self.rest = rest;
        Ok(OpHead::Create { schema })
    }

    /// A new column.
    #[tactic(auto, unfolding(crate::specs::Layout::add_at))]
    fn add_column(&mut self, alloc: Global, bytes: &'a [u8]) -> Result<OpHead, Stop>
        ensures read { Reads result self.new (add_at self.old bytes.now) }
    {
        let (table, rest) = name_at(bytes)?;
        let table = Txt::from_bytes(alloc, table)?;
        let (col, rest) = column_at(alloc, rest)?;
        self.rest = rest;
        Ok(OpHead::AddColumn { table, col })
    }

    /// The table and the numbers of columns and rows of rows that are inserted.
    #[tactic(auto, unfolding(crate::specs::Layout::insert_at))]
    fn insert(&mut self, alloc: Global, bytes: &'a [u8]) -> Result<OpHead, Stop>
        ensures read { Reads result self.new (insert_at self.old bytes.now) }
    {
        let (table, rest) = name_at(bytes)?;
        let table = Txt::from_bytes(alloc, table)?;
        let (columns, counted) = u16_at(rest)?;
        let (rows, rest) = u32_at(counted)?;
        if !may_be_rows(columns, rows) {
            return Err(damage(counted));
        }
        self.rest = rest;
        Ok(OpHead::Insert {
            table,
            columns,
            rows,
        })
    }

    /// The table and its new keys.
    #[tactic(auto, unfolding(crate::specs::Layout::set_keys_at))]
    fn set_keys(&mut self, alloc: Global, bytes: &'a [u8]) -> Result<OpHead, Stop>
        ensures read { Reads result self.new (set_keys_at self.old bytes.now) }
    {
        let (table, rest) = name_at(bytes)?;
        let table = Txt::from_bytes(alloc, table)?;
        let (keys, rest) = keys_at(alloc, rest)?;
        self.rest = rest;
        Ok(OpHead::SetKeys { table, keys })
    }
}

/// Whether there may be so many columns and rows: none of both, or some.
fn may_be_rows(columns: u16, rows: u32) -> bool
    ensures rule { result ≡ may_be_rows columns rows }
{
    if columns == 0 { rows == 0 } else { 0 < rows }
}
