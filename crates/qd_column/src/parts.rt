//! Columns made of what they are kept as, and what a VARCHAR column is kept as.
ghost use Rattle.std.specs.Prelude.{◌≡◌, length, map};
ghost use Rattle.qd_base.specs.declared.cell.Cell.TheVariants as cell;
ghost use Rattle.qd_base.specs.declared.schema.ColType.TheVariants as kind;
ghost use Rattle.qd_column.specs.Cells.{long_cell, time_cell};
ghost use Rattle.qd_column.specs.Symbols.{symbol_cell, AreSymbols};
ghost use Rattle.qd_column.specs.Texts.{cells_from, Tile};

use crate::column::{Column, Data};
use crate::symbols::Symbols;
use crate::texts::Texts;
use qd_base::Dictionary;

impl<D: Dictionary> Column<D> {
    /// Makes a LONG column of its numbers, the least for NULL, with no copy.
    pub fn of_longs(longs: Vec<i64>) -> Column<D>
        ensures column { result ≡ record { kind = kind.Long; cells = map long_cell longs.items } }
    {
        Column {
            data: Data::Longs(longs),
        }
    }

    /// Makes a BOOLEAN column of its truth values, with no copy.
    pub fn of_truths(truths: Vec<bool>) -> Column<D>
        ensures column { result ≡ record { kind = kind.Bool; cells = map (λ b. cell.Bool b) truths.items } }
    {
        Column {
            data: Data::Truths(truths),
        }
    }

    /// Makes a TIMESTAMP column of its moments, the greatest number for NULL, with no copy.
    pub fn of_times(times: Vec<u64>) -> Column<D>
        ensures column { result ≡ record { kind = kind.Time; cells = map time_cell times.items } }
    {
        Column {
            data: Data::Times(times),
        }
    }

    /// Makes a SYMBOL column of its ids, `NULL_ID` for NULL, and the dictionary of its texts, with no copy. The texts
    /// stand in the order in which they first appear.
    pub fn of_symbols(ids: Vec<u64>, dictionary: D) -> Column<D>
        requires { AreSymbols (D.texts dictionary) ids.items }
        ensures column { result ≡ record { kind = kind.Symbol; cells = map (symbol_cell (D.texts dictionary)) ids.items } }
    {
        Column {
            data: Data::Symbols(Symbols::of_parts(ids, dictionary)),
        }
    }

    /// Makes a VARCHAR column of its marks and the bytes that they tile, with no copy.
    pub fn of_texts(marks: Vec<u64>, bytes: Vec<u8>) -> Column<D>
        requires { Tile 0 marks.items (length bytes.items) }
        ensures column { result ≡ record { kind = kind.Varchar; cells = cells_from bytes.items 0 marks.items } }
    {
        Column {
            data: Data::Texts(Texts::of_parts(marks, bytes)),
        }
    }

    /// Lends the marks of a VARCHAR column and the bytes that they tile, in constant time.
    pub fn marks_and_bytes(&self) -> (&[u64], &[u8])
        requires { self.now.kind ≡ kind.Varchar }
        ensures cells { self.now.cells ≡ cells_from result.1.now 0 result.0.now }
        ensures tiled { Tile 0 result.0.now (length result.1.now) }
    {
        match &self.data {
            Data::Texts(texts) => texts.parts(),
            _ => unreachable!(),
        }
    }
}
