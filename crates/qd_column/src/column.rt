//! A column of any kind, and how rows are added to it.
ghost use Rattle.std.specs.Prelude.{◌≡◌, ◌≢◌, ℕ, ◌<◌, ◌≤◌, ◌⊎◌, List, [], ◌∷◌, ◌++◌, Some, length, IfOk, OnOk, OnErr};
ghost use Rattle.qd_base.specs.declared.cell.Cell.TheVariants as cell;
ghost use Rattle.qd_base.specs.declared.schema.ColType.TheVariants as kind;
ghost use Rattle.qd_base.specs.declared.limits.TheConstants.{NULL_LONG as least, NULL_TIME as last};
ghost use Rattle.qd_base.specs.Database.{missing};
ghost use Rattle.qd_column.specs.Cells.{no_cells, with_cell};

use crate::symbols::Symbols;
use crate::texts::Texts;
use qd_base::{ColType, Dictionary, MAX_TEXT_BYTES, Memory, NULL_LONG, NULL_TIME};
use std::alloc::{AllocError, Global};
use std::marker::Model;

/// How a column lies in memory.
#[derive(Drop)]
pub(crate) enum Data<D: Dictionary> {
    /// A number for each row, the least for NULL.
    Longs(Vec<i64>),
    /// A truth value for each row.
    Truths(Vec<bool>),
    /// An id for each row, and a dictionary.
    Symbols(Symbols<D>),
    /// A mark for each row, and one buffer.
    Texts(Texts),
    /// A moment for each row, the greatest number for NULL.
    Times(Vec<u64>),
}

/// A column: contracts see its kind and the list of its cells.
///
/// A row takes 8 bytes, in a BOOLEAN column 1, in a VARCHAR column 8 and its bytes. A SYMBOL column holds each of its
/// texts once.
#[derive(Drop)]
pub struct Column<D: Dictionary> {
    pub(crate) data: Data<D>,
}

impl<D: Dictionary> Model for Column<D> {
    ghost use Rattle.qd_column.specs.Cells.{CellsOf};

    ghost Value = { CellsOf };

    ghost use Rattle.qd_column.specs.Columns.{column_of};

    ghost view = { λ c. column_of c.data };
}

impl<D: Dictionary> Column<D> {
    /// Makes a column without rows.
    pub fn new(alloc: Global, kind: ColType) -> Result<Column<D>, Memory>
        ensures empty { IfOk result (λ column. column ≡ no_cells kind) }
    {
        let data = match kind {
            ColType::Long => Data::Longs(Vec::new(alloc)),
            ColType::Bool => Data::Truths(Vec::new(alloc)),
            ColType::Symbol => Data::Symbols(Symbols::new(alloc)?),
            ColType::Varchar => Data::Texts(Texts::new(alloc)),
            ColType::Time => Data::Times(Vec::new(alloc)),
        };
        Ok(Column { data })
    }

    /// Gives the kind of the cells, in constant time.
    pub fn kind(&self) -> ColType
        ensures kind { result ≡ self.now.kind }
    {
        match &self.data {
            Data::Longs(_) => ColType::Long,
            Data::Truths(_) => ColType::Bool,
            Data::Symbols(_) => ColType::Symbol,
            Data::Texts(_) => ColType::Varchar,
            Data::Times(_) => ColType::Time,
        }
    }

    /// Gives the number of rows, in constant time.
    pub fn len(&self) -> usize
        ensures count { result ≡ length self.now.cells }
    {
        match &self.data {
            Data::Longs(longs) => longs.len(),
            Data::Truths(truths) => truths.len(),
            Data::Symbols(symbols) => symbols.len(),
            Data::Texts(texts) => texts.len(),
            Data::Times(times) => times.len(),
        }
    }

    /// Adds a row with a number to a LONG column. Where no memory is found, nothing is changed.
    pub fn push_long(&mut self, value: i64) -> Result<(), Memory>
        requires kind { self.old.kind ≡ kind.Long }
        requires value { value ≢ least }
        ensures ok { OnOk result (self.new ≡ with_cell self.old (cell.Long value)) }
        ensures err { OnErr result (self.new ≡ self.old) }
    {
        match &mut self.data {
            Data::Longs(longs) => push_item(longs, value),
            _ => Err(AllocError),
        }
    }

    /// Adds a row with a truth value to a BOOLEAN column. Where no memory is found, nothing is changed.
    pub fn push_truth(&mut self, value: bool) -> Result<(), Memory>
        requires kind { self.old.kind ≡ kind.Bool }
        ensures ok { OnOk result (self.new ≡ with_cell self.old (cell.Bool value)) }
        ensures err { OnErr result (self.new ≡ self.old) }
    {
        match &mut self.data {
            Data::Truths(truths) => push_item(truths, value),
            _ => Err(AllocError),
        }
    }

    /// Adds a row with a moment to a TIMESTAMP column. Where no memory is found, nothing is changed.
    pub fn push_time(&mut self, value: u64) -> Result<(), Memory>
        requires kind { self.old.kind ≡ kind.Time }
        requires value { value ≢ last }
        ensures ok { OnOk result (self.new ≡ with_cell self.old (cell.Time value)) }
        ensures err { OnErr result (self.new ≡ self.old) }
    {
        match &mut self.data {
            Data::Times(times) => push_item(times, value),
            _ => Err(AllocError),
        }
    }

    /// Adds a row with a text of at most 65,535 bytes to a SYMBOL or VARCHAR column. Where no memory is found, nothing
    /// is changed.
    pub fn push_text(&mut self, text: &[u8]) -> Result<(), Memory>
        requires kind { (self.old.kind ≡ kind.Symbol) ⊎ (self.old.kind ≡ kind.Varchar) }
        requires short { length text.now ≤ MAX_TEXT_BYTES }
        ensures ok { OnOk result (self.new ≡ with_cell self.old (cell.Text text.now)) }
        ensures err { OnErr result (self.new ≡ self.old) }
    {
        match &mut self.data {
            Data::Symbols(symbols) => symbols.push_text(text),
            Data::Texts(texts) => texts.push_text(text),
            _ => Err(AllocError),
        }
    }

    /// Adds a row with what a row holds that lacks the column: NULL, or false in a BOOLEAN column. Where no memory is
    /// found, nothing is changed.
    pub fn push_missing(&mut self) -> Result<(), Memory>
        ensures ok { OnOk result (self.new ≡ with_cell self.old (missing self.old.kind)) }
        ensures err { OnErr result (self.new ≡ self.old) }
    {
        match &mut self.data {
            Data::Longs(longs) => push_item(longs, NULL_LONG),
            Data::Truths(truths) => push_item(truths, false),
            Data::Symbols(symbols) => symbols.push_null(),
            Data::Texts(texts) => texts.push_null(),
            Data::Times(times) => push_item(times, NULL_TIME),
        }
    }
}

/// Adds an item at the end.
fn push_item<T: Copy>(items: &mut Vec<T>, item: T) -> Result<(), Memory>
    ensures ok { OnOk result (items.new.items ≡ items.old.items ++ item ∷ []) }
    ensures err { OnErr result (items.new.items ≡ items.old.items) }
{
    items.push(item)?;
    Ok(())
}
