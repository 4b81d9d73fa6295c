//! How the cells of a column are read.
ghost use Rattle.std.specs.Prelude.{◌≡◌, ℕ, ◌<◌, ◌≤◌, ◌⊎◌, Some, length, map, All, IfSome, slice_get, option_map};
ghost use Rattle.qd_base.specs.declared.cell.Cell.TheVariants as cell;
ghost use Rattle.qd_base.specs.declared.schema.ColType.TheVariants as kind;
ghost use Rattle.qd_column.specs.Cells.{long_cell, time_cell, long_or_null, time_or_null, text_or_null};
ghost use Rattle.qd_column.specs.Symbols.{texts_in, symbol_cell, id_or_null, IsIdOf};

use crate::column::{Column, Data};
use qd_base::{Dictionary, MAX_TEXT_BYTES, NULL_LONG, NULL_TIME};

impl<D: Dictionary> Column<D> {
    /// Lends the numbers of a LONG column, the least for NULL, in constant time.
    pub fn longs(&self) -> &[i64]
        requires { self.now.kind ≡ kind.Long }
        ensures cells { self.now.cells ≡ map long_cell result.now }
    {
        match &self.data {
            Data::Longs(longs) => longs.as_slice(),
            _ => unreachable!(),
        }
    }

    /// Lends the truth values of a BOOLEAN column, in constant time.
    pub fn truths(&self) -> &[bool]
        requires { self.now.kind ≡ kind.Bool }
        ensures cells { self.now.cells ≡ map (λ b. cell.Bool b) result.now }
    {
        match &self.data {
            Data::Truths(truths) => truths.as_slice(),
            _ => unreachable!(),
        }
    }

    /// Lends the moments of a TIMESTAMP column, the greatest number for NULL, in constant time.
    pub fn times(&self) -> &[u64]
        requires { self.now.kind ≡ kind.Time }
        ensures cells { self.now.cells ≡ map time_cell result.now }
    {
        match &self.data {
            Data::Times(times) => times.as_slice(),
            _ => unreachable!(),
        }
    }

    /// Lends the ids of a SYMBOL column, `NULL_ID` for NULL, in constant time. They are positions in its dictionary.
    pub fn symbols(&self) -> &[u64]
        requires { self.now.kind ≡ kind.Symbol }
        ensures cells { self.now.cells ≡ map (symbol_cell (texts_in self.now.cells)) result.now }
        ensures each { All (IsIdOf (texts_in self.now.cells)) result.now }
    {
        match &self.data {
            Data::Symbols(symbols) => symbols.ids(),
            _ => unreachable!(),
        }
    }

    /// Lends the dictionary of a SYMBOL column, in constant time: its texts, in the order in which they first appear, each
    /// of at most 65,535 bytes.
    pub fn dictionary(&self) -> &D
        requires { self.now.kind ≡ kind.Symbol }
        ensures texts { D.texts result.now ≡ texts_in self.now.cells }
        ensures short { All (λ t. length t ≤ MAX_TEXT_BYTES) (texts_in self.now.cells) }
    {
        match &self.data {
            Data::Symbols(symbols) => symbols.dictionary(),
            _ => unreachable!(),
        }
    }

    /// Gives the number in a row of a LONG column, in constant time.
    pub fn long(&self, i: usize) -> Option<i64>
        requires kind { self.now.kind ≡ kind.Long }
        requires row { i < length self.now.cells }
        ensures cell { slice_get self.now.cells i ≡ Some (long_or_null result) }
    {
        match self.longs()[i] {
            NULL_LONG => None,
            value => Some(value),
        }
    }

    /// Gives the truth value in a row of a BOOLEAN column, in constant time.
    pub fn truth(&self, i: usize) -> bool
        requires kind { self.now.kind ≡ kind.Bool }
        requires row { i < length self.now.cells }
        ensures cell { slice_get self.now.cells i ≡ Some (cell.Bool result) }
    {
        self.truths()[i]
    }

    /// Gives the moment in a row of a TIMESTAMP column, in constant time.
    pub fn time(&self, i: usize) -> Option<u64>
        requires kind { self.now.kind ≡ kind.Time }
        requires row { i < length self.now.cells }
        ensures cell { slice_get self.now.cells i ≡ Some (time_or_null result) }
    {
        match self.times()[i] {
            NULL_TIME => None,
            value => Some(value),
        }
    }

    /// Gives the id in a row of a SYMBOL column, in constant time.
    pub fn symbol(&self, i: usize) -> Option<u64>
        requires kind { self.now.kind ≡ kind.Symbol }
        requires row { i < length self.now.cells }
        ensures cell { slice_get self.now.cells i ≡ Some (symbol_cell (texts_in self.now.cells) (id_or_null result)) }
    {
        match &self.data {
            Data::Symbols(symbols) => symbols.id(i),
            _ => None,
        }
    }

    /// Lends the text in a row of a SYMBOL or VARCHAR column, in constant time.
    pub fn text(&self, i: usize) -> Option<&[u8]>
        requires kind { (self.now.kind ≡ kind.Symbol) ⊎ (self.now.kind ≡ kind.Varchar) }
        requires row { i < length self.now.cells }
        ensures cell { slice_get self.now.cells i ≡ Some (text_or_null (option_map (λ t. t.now) result)) }
        ensures short { IfSome result (λ t. length t.now ≤ MAX_TEXT_BYTES) }
    {
        match &self.data {
            Data::Symbols(symbols) => symbols.text(i),
            Data::Texts(texts) => texts.text(i),
            _ => None,
        }
    }
}
