//! An entry that is written.
ghost use Rattle.std.specs.Prelude.{◌≡◌, ◌+◌, ◌^◌, ◌<◌, ◌≤◌, ◌↔◌, [], ◌∷◌, ◌++◌, length, All, IfOk, IsTrue, OnErr, OnOk};
ghost use Rattle.std.specs.List.{flat_map};
ghost use Rattle.std.specs.Int.{w64, cast_unsigned};
ghost use Rattle.qd_base.specs.declared.limits.TheConstants.{MAX_TEXT_BYTES};
ghost use Rattle.qd_base.specs.declared.cell.Cell.TheVariants as cell;
ghost use Rattle.qd_base.specs.declared.op.Op.TheVariants as op;
ghost use Rattle.qd_base.specs.Dictionary.{id_for, with_text};
ghost use Rattle.qd_fields.specs.Spelling.{u32_bytes, u16_bytes, u64_bytes, name_bytes, text_bytes, column_bytes, keys_bytes, schema_bytes, FitsName, FitsColumn, FitsKeys, FitsSchema};
ghost use Rattle.qd_wal_entry.specs.Spelling.{text_of, texts_of_row, texts_of_op, with_texts, width_of, cell_bytes, row_bytes, rows_bytes, op_bytes, FitsCell, FitsRow, FitsRows, FitsOp};
ghost use Rattle.qd_wal_entry.specs.Writing.{Adds, AreShort, FewWith};

use crate::recent::Recent;
use qd_base::{Cell, Col, Memory, Op, Row, Schema, Txt};
use qd_fields::{push_column, push_keys, push_name, push_schema, push_text, push_u16, push_u32};
use qd_symbols::SymbolMap;
use std::alloc::Global;
use std::marker::Model;

/// An entry that is written change by change and cell by cell. Contracts see its texts and the bytes of its changes so far.
#[derive(Drop)]
pub(crate) struct EntryDraft {
    texts: SymbolMap,
    /// Where the texts that came last stand: most texts come again, and are found there without a hash.
    recent: Recent,
    /// The bytes of the changes.
    body: Vec<u8>,
}

impl Model for EntryDraft {
    ghost use Rattle.qd_wal_entry.specs.Writing.{Draft, AreShort};

    ghost Value = { Draft };

    ghost view = { λ d. record { texts = d.texts; body = d.body.items } };

    ghost invariant = { λ d. AreShort d.texts };
}

impl EntryDraft {
    /// Begins an entry.
    pub(crate) fn new(alloc: Global) -> Result<EntryDraft, Memory>
        ensures empty { IfOk result (λ d. (d.texts ≡ []) × (d.body ≡ [])) }
    {
        Ok(EntryDraft {
            texts: SymbolMap::new(alloc)?,
            recent: Recent::new(),
            body: Vec::new(alloc),
        })
    }

    /// Adds changes.
    pub(crate) fn push_ops(&mut self, ops: &[Op]) -> Result<(), Memory>
        requires fit { All FitsOp ops.now }
        requires few { FewWith (flat_map texts_of_op) self.old ops.now }
        ensures added { OnOk result (Adds (flat_map texts_of_op) (λ texts. flat_map (op_bytes texts)) self.old self.new ops.now) }
    {
        for op in ops {
            self.push_op(op)?;
        }
        Ok(())
    }

    /// Gives the bytes of the entry, of so many changes.
    pub(crate) fn finish(self, count: u32) -> Result<Txt, Memory>
        requires few { length self.texts < 2 ^ 32 }
        ensures bytes { IfOk result (λ bytes. bytes ≡ u32_bytes (length self.texts) ++ (flat_map text_bytes self.texts ++ (u32_bytes count ++ self.body))) }
    {
        self.spelled(count, self.body.as_slice())
    }

    /// The bytes of an entry with these texts, of so many changes.
    pub(crate) fn spelled(&self, count: u32, changes: &[u8]) -> Result<Txt, Memory>
        requires few { length self.now.texts < 2 ^ 32 }
        ensures bytes { IfOk result (λ bytes. bytes ≡ u32_bytes (length self.now.texts) ++ (flat_map text_bytes self.now.texts ++ (u32_bytes count ++ changes.now))) }
    {
        let mut bytes = Vec::new(*self.body.allocator());
        push_texts(&mut bytes, &self.texts)?;
        push_u32(&mut bytes, count)?;
        bytes.extend_from_slice(changes)?;
        Ok(Txt::from_vec(bytes))
    }

    /// Whether one more text fits their number.
    pub(crate) fn has_room(&self) -> bool
        ensures room { IsTrue result ↔ (length self.now.texts + 1 < 2 ^ 32) }
    {
        self.texts.len() < u32::MAX as u64
    }

    /// Moves the bytes of the changes behind others.
    pub(crate) fn give_body(&mut self, bytes: &mut Vec<u8>) -> Result<(), Memory>
        ensures given { OnOk result (bytes.new.items ≡ bytes.old.items ++ self.old.body) }
        ensures texts { self.new.texts ≡ self.old.texts }
        ensures body { OnOk result (self.new.body ≡ []) }
    {
        bytes.extend_from_slice(self.body.as_slice())?;
        self.body.clear();
        Ok(())
    }

    /// Adds a change.
    fn push_op(&mut self, op: &Op) -> Result<(), Memory>
        requires fits { FitsOp op.now }
        requires few { FewWith texts_of_op self.old op.now }
        ensures added { OnOk result (Adds texts_of_op op_bytes self.old self.new op.now) }
    {
        match op {
            Op::Create { schema } => self.push_create(schema),
            Op::AddColumn { table, col } => self.push_add_column(table, col),
            Op::Insert { table, rows } => self.push_insert(table, rows.as_slice()),
            Op::SetKeys { table, keys } => self.push_set_keys(table, keys.as_slice()),
        }
    }

    /// Adds the making of a table.
    fn push_create(&mut self, schema: &Schema) -> Result<(), Memory>
        requires fits { FitsSchema schema.now }
        ensures texts { OnOk result (self.new.texts ≡ self.old.texts) }
        ensures body { OnOk result (self.new.body ≡ self.old.body ++ (1 ∷ schema_bytes schema.now)) }
    {
        self.body.push(1)?;
        push_schema(&mut self.body, schema)
    }

    /// Adds that a column is added.
    fn push_add_column(&mut self, table: &Txt, col: &Col) -> Result<(), Memory>
        requires table { FitsName table.now }
        requires col { FitsColumn col.now }
        ensures texts { OnOk result (self.new.texts ≡ self.old.texts) }
        ensures body { OnOk result (self.new.body ≡ self.old.body ++ (2 ∷ (name_bytes table.now ++ column_bytes col.now))) }
    {
        self.body.push(2)?;
        push_name(&mut self.body, table.bytes())?;
        push_column(&mut self.body, col)
    }

    /// Adds that the keys of a table are set.
    fn push_set_keys(&mut self, table: &Txt, keys: &[u32]) -> Result<(), Memory>
        requires table { FitsName table.now }
        requires keys { FitsKeys keys.now }
        ensures texts { OnOk result (self.new.texts ≡ self.old.texts) }
        ensures body { OnOk result (self.new.body ≡ self.old.body ++ (4 ∷ (name_bytes table.now ++ keys_bytes keys.now))) }
    {
        self.body.push(4)?;
        push_name(&mut self.body, table.bytes())?;
        push_keys(&mut self.body, keys)
    }

    /// Adds that rows are inserted.
    fn push_insert(&mut self, table: &Txt, rows: &[Row]) -> Result<(), Memory>
        requires table { FitsName table.now }
        requires fit { FitsRows (width_of rows.now) rows.now }
        requires few { FewWith (flat_map texts_of_row) self.old rows.now }
        ensures added { OnOk result (Adds texts_of_op op_bytes self.old self.new (op.Insert table.now rows.now)) }
    {
        self.push_head(table, width_of(rows), rows.len() as u32)?;
        self.push_rows(rows)
    }

    /// Adds what stands in front of rows that are inserted.
    fn push_head(&mut self, table: &Txt, columns: u16, rows: u32) -> Result<(), Memory>
        requires table { FitsName table.now }
        ensures texts { OnOk result (self.new.texts ≡ self.old.texts) }
        ensures body { OnOk result (self.new.body ≡ self.old.body ++ (3 ∷ (name_bytes table.now ++ (u16_bytes columns ++ u32_bytes rows)))) }
    {
        self.body.push(3)?;
        push_name(&mut self.body, table.bytes())?;
        push_u16(&mut self.body, columns)?;
        push_u32(&mut self.body, rows)
    }

    /// Adds rows.
    fn push_rows(&mut self, rows: &[Row]) -> Result<(), Memory>
        requires fit { All (FitsRow (width_of rows.now)) rows.now }
        requires few { FewWith (flat_map texts_of_row) self.old rows.now }
        ensures added { OnOk result (Adds (flat_map texts_of_row) rows_bytes self.old self.new rows.now) }
    {
        for row in rows {
            self.push_row(row.as_slice())?;
        }
        Ok(())
    }

    /// Adds a row.
    fn push_row(&mut self, row: &[Cell]) -> Result<(), Memory>
        requires fit { All FitsCell row.now }
        requires few { FewWith texts_of_row self.old row.now }
        ensures added { OnOk result (Adds texts_of_row row_bytes self.old self.new row.now) }
    {
        for cell in row {
            self.push_cell(cell)?;
        }
        Ok(())
    }

    /// Adds a cell.
    fn push_cell(&mut self, cell: &Cell) -> Result<(), Memory>
        requires fits { FitsCell cell.now }
        requires few { FewWith text_of self.old cell.now }
        ensures added { OnOk result (Adds text_of cell_bytes self.old self.new cell.now) }
    {
        match cell {
            Cell::Null => self.push_code(0),
            Cell::Long(number) => self.push_number(1, number.cast_unsigned()),
            Cell::Bool(false) => self.push_code(2),
            Cell::Bool(true) => self.push_code(3),
            Cell::Text(text) => self.push_text(text.bytes()),
            Cell::Time(time) => self.push_number(5, *time),
        }
    }

    /// Adds a number.
    pub(crate) fn push_signed(&mut self, number: i64) -> Result<(), Memory>
        ensures added { OnOk result (Adds text_of cell_bytes self.old self.new (cell.Long number)) }
        ensures same { self.new.texts ≡ self.old.texts }
    {
        self.push_number(1, number.cast_unsigned())
    }

    /// Adds a truth value.
    pub(crate) fn push_truth(&mut self, truth: bool) -> Result<(), Memory>
        ensures added { OnOk result (Adds text_of cell_bytes self.old self.new (cell.Bool truth)) }
        ensures same { self.new.texts ≡ self.old.texts }
    {
        self.push_code(if truth { 3 } else { 2 })
    }

    /// Adds a cell that is a code alone.
    pub(crate) fn push_code(&mut self, code: u8) -> Result<(), Memory>
        ensures texts { OnOk result (self.new.texts ≡ self.old.texts) }
        ensures body { OnOk result (self.new.body ≡ self.old.body ++ code ∷ []) }
        ensures same { self.new.texts ≡ self.old.texts }
    {
        self.body.push(code)?;
        Ok(())
    }

    /// Adds a cell that is a code and a number.
    pub(crate) fn push_number(&mut self, code: u8, number: u64) -> Result<(), Memory>
        ensures texts { OnOk result (self.new.texts ≡ self.old.texts) }
        ensures body { OnOk result (self.new.body ≡ self.old.body ++ (code ∷ u64_bytes number)) }
        ensures same { self.new.texts ≡ self.old.texts }
    {
        self.body.extend_from_slice(&number_cell(code, number))
    }

    /// Adds a cell with a text.
    pub(crate) fn push_text(&mut self, text: &[u8]) -> Result<(), Memory>
        requires short { length text.now ≤ MAX_TEXT_BYTES }
        requires few { length (with_texts self.old.texts (text.now ∷ [])) < 2 ^ 32 }
        ensures added { OnOk result (Adds text_of cell_bytes self.old self.new (cell.Text text.now)) }
        ensures few { length self.new.texts < 2 ^ 32 }
    {
        let id = self.intern(text)?;
        self.push_id(id as u32)
    }

    /// Adds a cell with the text at a position.
    fn push_id(&mut self, id: u32) -> Result<(), Memory>
        ensures texts { OnOk result (self.new.texts ≡ self.old.texts) }
        ensures body { OnOk result (self.new.body ≡ self.old.body ++ (4 ∷ u32_bytes id)) }
        ensures same { self.new.texts ≡ self.old.texts }
    {
        self.body.extend_from_slice(&text_cell(id))
    }

    /// Gives the position of a text, which joins the others where it isn't among them.
    fn intern(&mut self, text: &[u8]) -> Result<u64, Memory>
        requires short { length text.now ≤ MAX_TEXT_BYTES }
        ensures id { IfOk result (λ id. id ≡ id_for self.old.texts text.now) }
        ensures texts { OnOk result (self.new.texts ≡ with_text self.old.texts text.now) }
        ensures body { self.new.body ≡ self.old.body }
        ensures err { OnErr result (self.new.texts ≡ self.old.texts) }
    {
        let guess = self.recent.guess(text);
        if stands_at(&self.texts, guess, text) {
            return Ok(guess);
        }
        let id = self.texts.intern(text)?;
        self.recent.note(text, id);
        Ok(id)
    }
}

/// Whether a text stands at a position.
fn stands_at(texts: &SymbolMap, id: u64, text: &[u8]) -> bool
    ensures there { IsTrue result → (id ≡ id_for texts.now text.now) × (texts.now ≡ with_text texts.now text.now) }
{
    id < texts.len() && texts.text_of(id) == text
}

/// A cell that is a code and a number.
fn number_cell(code: u8, number: u64) -> [u8; 9]
    ensures bytes { result ≡ code ∷ u64_bytes number }
{
    let mut cell = [code; 9];
    cell[1..].copy_from_slice(&number.to_le_bytes());
    cell
}

/// The cell with the text at a position.
fn text_cell(id: u32) -> [u8; 5]
    ensures bytes { result ≡ 4 ∷ u32_bytes id }
{
    let mut cell = [4; 5];
    cell[1..].copy_from_slice(&id.to_le_bytes());
    cell
}

/// Adds the number of texts, and the texts.
fn push_texts(bytes: &mut Vec<u8>, texts: &SymbolMap) -> Result<(), Memory>
    requires few { length texts.now < 2 ^ 32 }
    requires short { AreShort texts.now }
    ensures bytes { OnOk result (bytes.new.items ≡ bytes.old.items ++ (u32_bytes (length texts.now) ++ flat_map text_bytes texts.now)) }
{
    push_u32(bytes, texts.len() as u32)?;
    for id in 0..texts.len() {
        push_text(bytes, texts.text_of(id))?;
    }
    Ok(())
}

/// How many columns rows have: as many as the first.
fn width_of(rows: &[Row]) -> u16
    requires narrow { width_of rows.now < 2 ^ 16 }
    ensures width { result ≡ width_of rows.now }
{
    match rows {
        [] => 0,
        [first, ..] => first.len() as u16,
    }
}
