//! Columns of symbols.
ghost use Rattle.std.specs.Prelude.{◌≡◌, ◌≢◌, ℕ, ◌<◌, ◌≤◌, List, [], ◌∷◌, ◌++◌, Some, length, map, All, IfOk, IfSome, OnOk, OnErr, slice_get, slice_range, slice_index_or, option_map};
ghost use Rattle.qd_base.specs.declared.cell.Cell.TheVariants as cell;
ghost use Rattle.qd_base.specs.Dictionary.{id_for};
ghost use Rattle.qd_column.specs.Cells.{text_or_null};
ghost use Rattle.qd_column.specs.Runs.{laid, IsRunOf};
ghost use Rattle.qd_column.specs.Symbols.{texts_in, symbol_cell, id_or_null, IsIdOf, AreSymbols, LeadsTo};

use crate::gather::gathered;
use crate::runs::{Run, Side};
use qd_base::{Dictionary, MAX_TEXT_BYTES, Memory, NULL_ID};
use std::alloc::Global;
use std::marker::Model;

/// A column of symbols: an id for each row, and a dictionary of the column's own. Contracts see the list of its cells.
///
/// Ids are given in the order in which texts first appear in the column. A row takes 8 bytes.
#[derive(Drop)]
pub struct Symbols<D: Dictionary> {
    ids: Vec<u64>,
    dictionary: D,
}

impl<D: Dictionary> Model for Symbols<D> {
    ghost use Rattle.std.specs.Prelude.{List, map};
    ghost use Rattle.qd_base.specs.declared.cell.Cell.{Cell};
    ghost use Rattle.qd_column.specs.Symbols.{symbol_cell, AreSymbols};

    ghost Value = { List Cell };

    ghost view = { λ s. map (symbol_cell (D.texts s.dictionary)) s.ids.items };

    ghost invariant = { λ s. AreSymbols (D.texts s.dictionary) s.ids.items };
}

impl<D: Dictionary> Symbols<D> {
    /// Makes the column without rows.
    pub fn new(alloc: Global) -> Result<Symbols<D>, Memory>
        ensures empty { IfOk result (λ symbols. symbols ≡ []) }
    {
        Ok(Symbols {
            ids: Vec::new(alloc),
            dictionary: D::new(alloc)?,
        })
    }

    /// Makes the column of ids and the dictionary of its texts, which stand in the order in which they first appear.
    pub(crate) fn of_parts(ids: Vec<u64>, dictionary: D) -> Symbols<D>
        requires { AreSymbols (D.texts dictionary) ids.items }
        ensures cells { result ≡ map (symbol_cell (D.texts dictionary)) ids.items }
    {
        Symbols { ids, dictionary }
    }

    /// Gives the number of rows, in constant time.
    pub fn len(&self) -> usize
        ensures count { result ≡ length self.now }
    {
        self.ids.len()
    }

    /// Lends the ids, in constant time: for each row NULL, or the id of its text.
    pub fn ids(&self) -> &[u64]
        ensures cells { self.now ≡ map (symbol_cell (texts_in self.now)) result.now }
        ensures each { All (IsIdOf (texts_in self.now)) result.now }
    {
        self.ids.as_slice()
    }

    /// Lends the dictionary: the texts of the column, in the order in which they first appear.
    pub fn dictionary(&self) -> &D
        ensures texts { D.texts result.now ≡ texts_in self.now }
        ensures short { All (λ t. length t ≤ MAX_TEXT_BYTES) (texts_in self.now) }
    {
        &self.dictionary
    }

    /// Gives the id of a row, in constant time.
    pub fn id(&self, i: usize) -> Option<u64>
        requires { i < length self.now }
        ensures id { slice_get self.now i ≡ Some (symbol_cell (texts_in self.now) (id_or_null result)) }
    {
        match self.ids[i] {
            NULL_ID => None,
            id => Some(id),
        }
    }

    /// Lends the text of a row, in constant time.
    pub fn text(&self, i: usize) -> Option<&[u8]>
        requires { i < length self.now }
        ensures text { slice_get self.now i ≡ Some (text_or_null (option_map (λ t. t.now) result)) }
        ensures short { IfSome result (λ t. length t.now ≤ MAX_TEXT_BYTES) }
    {
        let id = self.ids[i];
        if id == NULL_ID {
            return None;
        }
        Some(self.dictionary.text_of(id))
    }

    /// Adds a row with NULL. Where no memory is found, nothing is changed.
    pub fn push_null(&mut self) -> Result<(), Memory>
        ensures ok { OnOk result (self.new ≡ self.old ++ cell.Null ∷ []) }
        ensures err { OnErr result (self.new ≡ self.old) }
    {
        self.ids.push(NULL_ID)?;
        Ok(())
    }

    /// Adds a row with a text of at most 65,535 bytes. Where no memory is found, nothing is changed. It costs what
    /// the dictionary's `intern` does.
    pub fn push_text(&mut self, text: &[u8]) -> Result<(), Memory>
        requires { length text.now ≤ MAX_TEXT_BYTES }
        ensures ok { OnOk result (self.new ≡ self.old ++ cell.Text text.now ∷ []) }
        ensures err { OnErr result (self.new ≡ self.old) }
    {
        self.push_named(text)?;
        Ok(())
    }

    /// Adds a row with a text, and gives the id that it has.
    fn push_named(&mut self, text: &[u8]) -> Result<u64, Memory>
        requires { length text.now ≤ MAX_TEXT_BYTES }
        ensures id { IfOk result (λ id. id ≡ id_for (texts_in self.old) text.now) }
        ensures ok { OnOk result (self.new ≡ self.old ++ cell.Text text.now ∷ []) }
        ensures err { OnErr result (self.new ≡ self.old) }
    {
        self.ids.reserve(1)?;
        let id = self.dictionary.intern(text)?;
        self.ids.push_reserved(id);
        Ok(id)
    }

    /// Adds a row with the text of an id that the column has given.
    fn push_id(&mut self, id: u64) -> Result<(), Memory>
        requires given { id < length (texts_in self.old) }
        requires some { id ≢ NULL_ID }
        ensures ok { OnOk result (self.new ≡ self.old ++ symbol_cell (texts_in self.old) id ∷ []) }
        ensures texts { OnOk result (texts_in self.new ≡ texts_in self.old) }
        ensures err { OnErr result (self.new ≡ self.old) }
    {
        self.ids.push(id)?;
        Ok(())
    }

    /// Makes the column of ids of another dictionary, whose texts have at most 65,535 bytes. Each text is looked up
    /// once. It costs time and memory linear in the number of ids and of the dictionary's texts.
    pub fn of_ids(alloc: Global, dictionary: &D, ids: &[u64]) -> Result<Symbols<D>, Memory>
        requires known { All (IsIdOf (D.texts dictionary.now)) ids.now }
        requires short { All (λ t. length t ≤ MAX_TEXT_BYTES) (D.texts dictionary.now) }
        ensures cells { IfOk result (λ symbols. symbols ≡ map (symbol_cell (D.texts dictionary.now)) ids.now) }
    {
        let mut symbols = Symbols::new(alloc)?;
        let mut table = Vec::from_elem(alloc, NULL_ID, dictionary.len() as usize)?;
        for id in ids {
            symbols.push_from(dictionary, &mut table, *id)?;
        }
        Ok(symbols)
    }

    /// Adds a row with the text of an id of another dictionary. The table leads from that one's ids to those of this
    /// column, as far as they are known.
    fn push_from(&mut self, dictionary: &D, table: &mut Vec<u64>, id: u64) -> Result<(), Memory>
        requires known { IsIdOf (D.texts dictionary.now) id }
        requires short { All (λ t. length t ≤ MAX_TEXT_BYTES) (D.texts dictionary.now) }
        requires size { length table.old.items ≡ length (D.texts dictionary.now) }
        requires leads { LeadsTo (D.texts dictionary.now) (texts_in self.old) table.old.items }
        ensures ok { OnOk result (self.new ≡ self.old ++ symbol_cell (D.texts dictionary.now) id ∷ []) }
        ensures size { length table.new.items ≡ length table.old.items }
        ensures leads { OnOk result (LeadsTo (D.texts dictionary.now) (texts_in self.new) table.new.items) }
    {
        if id == NULL_ID {
            return self.push_null();
        }
        let place = id as usize;
        let at = table[place];
        if at != NULL_ID {
            return self.push_id(at);
        }
        table[place] = self.push_named(dictionary.text_of(id))?;
        Ok(())
    }

    /// Copies the rows at some places, in the order of the places. It costs time and memory linear in their number and
    /// that of the column's texts.
    pub fn gathered(&self, alloc: Global, places: &[usize]) -> Result<Symbols<D>, Memory>
        requires { All (λ i. i < length self.now) places.now }
        ensures cells { IfOk result (λ symbols. symbols ≡ map (λ i. slice_index_or self.now i cell.Null) places.now) }
    {
        let ids = gathered(alloc, self.ids.as_slice(), places)?;
        Symbols::of_ids(alloc, &self.dictionary, ids.as_slice())
    }

    /// Copies the rows from one up to another. It costs time and memory linear in their number and that of the column's
    /// texts.
    pub fn part(&self, alloc: Global, from: usize, to: usize) -> Result<Symbols<D>, Memory>
        requires ordered { from ≤ to }
        requires within { to ≤ length self.now }
        ensures cells { IfOk result (λ symbols. symbols ≡ slice_range self.now from to) }
    {
        Symbols::of_ids(alloc, &self.dictionary, &self.ids[from..to])
    }

    /// Copies rows of two columns, in the order of the runs. Each text of either is looked up once. It costs time and
    /// memory linear in the number of rows and of the columns' texts.
    pub fn spliced(
        alloc: Global,
        first: &Symbols<D>,
        second: &Symbols<D>,
        runs: &[Run],
    ) -> Result<Symbols<D>, Memory>
        requires { All (IsRunOf (length first.now) (length second.now)) runs.now }
        ensures cells { IfOk result (λ symbols. symbols ≡ laid first.now second.now runs.now) }
    {
        let mut symbols = Symbols::new(alloc)?;
        let mut of_first = Vec::from_elem(alloc, NULL_ID, first.dictionary.len() as usize)?;
        let mut of_second = Vec::from_elem(alloc, NULL_ID, second.dictionary.len() as usize)?;
        for run in runs {
            match run.side {
                Side::First => symbols.push_part(first, &mut of_first, run.from, run.to)?,
                Side::Second => symbols.push_part(second, &mut of_second, run.from, run.to)?,
            }
        }
        Ok(symbols)
    }

    /// Adds the rows of another column from one up to another. The table leads from that one's ids to those of this
    /// column, as far as they are known.
    fn push_part(
        &mut self,
        other: &Symbols<D>,
        table: &mut Vec<u64>,
        from: usize,
        to: usize,
    ) -> Result<(), Memory>
        requires ordered { from ≤ to }
        requires within { to ≤ length other.now }
        requires size { length table.old.items ≡ length (texts_in other.now) }
        requires leads { LeadsTo (texts_in other.now) (texts_in self.old) table.old.items }
        ensures ok { OnOk result (self.new ≡ self.old ++ slice_range other.now from to) }
        ensures size { length table.new.items ≡ length table.old.items }
        ensures leads { OnOk result (LeadsTo (texts_in other.now) (texts_in self.new) table.new.items) }
    {
        for id in &other.ids[from..to] {
            self.push_from(&other.dictionary, table, *id)?;
        }
        Ok(())
    }
}
