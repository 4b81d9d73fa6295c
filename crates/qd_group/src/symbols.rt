//! The groups of rows by one column: by the ids of its texts, where it is a SYMBOL column.
ghost use Rattle.std.specs.Prelude.{◌≡◌, ℕ, ◌+◌, ◌-◌, ◌<◌, ◌≤◌, true, Some, None, List, IfOk, IfSome, OnOk, length, slice_index_or};
ghost use Rattle.std.specs.BTreeMap.{get};
ghost use Rattle.qd_base.specs.declared.cell.Cell.{Cell};
ghost use Rattle.qd_base.specs.declared.cell.Cell.TheVariants as cell;
ghost use Rattle.qd_base.specs.declared.schema.ColType.TheVariants as kind;
ghost use Rattle.qd_base.specs.Rows.{cell_at as cell_of_col, Row};
ghost use Rattle.qd_block.specs.Blocks.{column_in};
ghost use Rattle.qd_column.specs.Symbols.{symbol_cell, texts_in, IsIdOf};
ghost use Rattle.qd_group.specs.Grouping.{same_values, AreGroups};
ghost use Rattle.qd_group.specs.Keys.{lent};
ghost use Rattle.qd_group.specs.Numbering.{key_cmp, slot, texts_at, NumbersMore, NumbersOne, Stands};
ghost use Rattle.qd_rows.specs.Sets.{block_at, row_of_place, IsRunOf};
ghost use Rattle.qd_value.specs.Value.{value};

use crate::classes::number_of;
use crate::groups::Groups;
use crate::keys::{Key, key_of};
use qd_base::{ColType, Dictionary, Memory, NULL_ID};
use qd_column::Column;
use qd_expr::scalar;
use qd_rows::{RowSet, Run};
use qd_value::Bound;
use std::alloc::Global;
use std::collections::BTreeMap;

/// Rows that are numbered by a column, one after another.
#[derive(Drop)]
pub(crate) struct Symbols<'a> {
    /// The numbers of the keys so far.
    pub(crate) numbers: BTreeMap<Key<'a>, usize>,
    /// For NULL and each id, what was met last: the block, and the number of the id's text there.
    pub(crate) table: Vec<Option<(usize, usize)>>,
    /// The groups so far.
    pub(crate) groups: Groups,
}

/// The groups of rows of a set without right columns that are equal on one column.
///
/// In SYMBOL columns a text is looked up where its id is met for the first time in a block, or again after a row of another
/// block had the same id; each further row costs a look into a table by the id. The table takes 24 bytes for each text of
/// the block that has the most, and never more than that a row: blocks with more texts are gone over as other columns are,
/// with log n comparisons a row.
pub(crate) fn grouped_by_column<'a, D: Dictionary>(
    alloc: Global,
    key: &'a Bound,
    at: usize,
    rows: &'a RowSet<D>,
) -> Result<Groups, Memory>
    requires single { rows.now.right ≡ None }
    requires column { (row : Row) → value key.now row ≡ cell_of_col row at }
    ensures groups { IfOk result (λ g. AreGroups (same_values key.now rows.now) (length rows.now.places) g.numbers.items g.firsts.items) }
{
    let mut symbols = Symbols::new(alloc);
    for run in rows.runs() {
        symbols.add_run(key, at, rows, *run)?;
    }
    Ok(symbols.groups)
}

impl<'a> Symbols<'a> {
    /// Before the first row. It takes no memory.
    fn new(alloc: Global) -> Symbols<'a>
        ensures none { (texts : ℕ → List (List ℕ)) (cells : List Cell) → Stands texts cells 0 result }
    {
        Symbols {
            numbers: BTreeMap::new(alloc),
            table: Vec::new(alloc),
            groups: Groups::new(alloc),
        }
    }

    /// Adds the rows of a run: by their ids, where the block has the column as one of symbols, and else by their keys.
    fn add_run<D: Dictionary>(
        &mut self,
        key: &'a Bound,
        at: usize,
        rows: &'a RowSet<D>,
        run: Run,
    ) -> Result<(), Memory>
        requires there { IsRunOf rows.now run }
        requires column { (row : Row) → value key.now row ≡ cell_of_col row at }
        ensures next { OnOk result (NumbersMore (texts_at rows.now at) (run.to - run.from) (λ k. cell_of_col (row_of_place rows.now ((run.block, run.from + k), None)) at) self.old self.new) }
    {
        match symbols_of_run(rows, run, at) {
            Some(column) => {
                self.make_room(column.dictionary())?;
                self.add_ids(column, run.block, run.from as usize, run.to as usize)
            }
            None => self.add_rows(key, rows, run),
        }
    }

    /// Adds the rows of a run by their keys, one after another.
    fn add_rows<D: Dictionary>(
        &mut self,
        key: &'a Bound,
        rows: &'a RowSet<D>,
        run: Run,
    ) -> Result<(), Memory>
        requires there { IsRunOf rows.now run }
        ensures next { OnOk result ((texts : ℕ → List (List ℕ)) → NumbersMore texts (run.to - run.from) (λ k. value key.now (row_of_place rows.now ((run.block, run.from + k), None))) self.old self.new) }
    {
        for i in run.from..run.to {
            self.add(key_of(scalar(key, rows, ((run.block, i), None))))?;
        }
        Ok(())
    }

    /// Adds the rows of a column of symbols from one up to another, by their ids.
    fn add_ids<D: Dictionary>(
        &mut self,
        column: &'a Column<D>,
        block: usize,
        from: usize,
        to: usize,
    ) -> Result<(), Memory>
        requires kind { column.now.kind ≡ kind.Symbol }
        requires ordered { from ≤ to }
        requires within { to ≤ length column.now.cells }
        requires room { length (texts_in column.now.cells) < length self.old.table.items }
        ensures next { OnOk result ((texts : ℕ → List (List ℕ)) → texts block ≡ texts_in column.now.cells → NumbersMore texts (to - from) (λ k. slice_index_or column.now.cells (from + k) cell.Null) self.old self.new) }
    {
        let dictionary = column.dictionary();
        let ids = column.symbols();
        for i in from..to {
            self.add_id(dictionary, block, ids[i])?;
        }
        Ok(())
    }

    /// Adds a row by its id.
    #[inline(always)]
    fn add_id<D: Dictionary>(
        &mut self,
        dictionary: &'a D,
        block: usize,
        id: u64,
    ) -> Result<(), Memory>
        requires id { IsIdOf (D.texts dictionary.now) id }
        requires room { length (D.texts dictionary.now) < length self.old.table.items }
        ensures next { OnOk result ((texts : ℕ → List (List ℕ)) → texts block ≡ D.texts dictionary.now → NumbersOne texts (symbol_cell (D.texts dictionary.now) id) self.old self.new) }
        ensures table { OnOk result (length self.new.table.items ≡ length self.old.table.items) }
    {
        match seen(self.table[slot_of(id)], block) {
            Some(number) => {
                self.groups.push(number)?;
                Ok(())
            }
            None => self.add_new(dictionary, block, id),
        }
    }

    /// Adds a row by its id, which the table lacks, and keeps its number there.
    fn add_new<D: Dictionary>(
        &mut self,
        dictionary: &'a D,
        block: usize,
        id: u64,
    ) -> Result<(), Memory>
        requires id { IsIdOf (D.texts dictionary.now) id }
        requires room { length (D.texts dictionary.now) < length self.old.table.items }
        ensures next { OnOk result ((texts : ℕ → List (List ℕ)) → texts block ≡ D.texts dictionary.now → NumbersOne texts (symbol_cell (D.texts dictionary.now) id) self.old self.new) }
        ensures table { OnOk result (length self.new.table.items ≡ length self.old.table.items) }
    {
        let number = self.add(key_of_id(dictionary, id))?;
        self.table[slot_of(id)] = Some((block, number));
        Ok(())
    }

    /// Adds a row by its key, and gives its number.
    fn add(&mut self, key: Key<'a>) -> Result<usize, Memory>
        ensures next { OnOk result ((texts : ℕ → List (List ℕ)) → NumbersOne texts (lent key.entry) self.old self.new) }
        ensures known { IfOk result (λ number. get key_cmp self.new.numbers key.entry ≡ Some number) }
        ensures table { OnOk result (self.new.table.items ≡ self.old.table.items) }
    {
        let number = number_of(&mut self.numbers, key)?;
        self.groups.push(number)?;
        Ok(number)
    }

    /// Makes the table as long as the ids of a dictionary, and NULL, need.
    fn make_room<D: Dictionary>(&mut self, dictionary: &D) -> Result<(), Memory>
        ensures same { OnOk result ((texts : ℕ → List (List ℕ)) (cells : List Cell) (n : ℕ) → Stands texts cells n self.old → Stands texts cells n self.new) }
        ensures room { OnOk result (length (D.texts dictionary.now) < length self.new.table.items) }
    {
        while self.table.len() as u64 <= dictionary.len() {
            self.table.push(None)?;
        }
        Ok(())
    }
}

/// The column of a run's block, where it is one of symbols with no more texts than the set has rows.
fn symbols_of_run<'a, D: Dictionary>(
    rows: &'a RowSet<D>,
    run: Run,
    at: usize,
) -> Option<&'a Column<D>>
    requires { IsRunOf rows.now run }
    ensures column { IfSome result (λ column. (column.now ≡ column_in (block_at rows.now.blocks run.block) at) × (column.now.kind ≡ kind.Symbol)) }
    ensures cells { IfSome result (λ column. (k : ℕ) → k < run.to - run.from → slice_index_or column.now.cells (run.from + k) cell.Null ≡ cell_of_col (row_of_place rows.now ((run.block, run.from + k), None)) at) }
    ensures within { IfSome result (λ column. run.to ≤ length column.now.cells) }
{
    let block = rows.block(run.block);
    block.is_whole();
    if block.cols() as usize <= at {
        return None;
    }
    let column = block.column(at as u32);
    if has_few_texts(column, rows.len()) {
        return Some(column);
    }
    None
}

/// Whether a column is one of symbols with at most so many texts.
fn has_few_texts<D: Dictionary>(column: &Column<D>, most: usize) -> bool
    ensures { result ≡ true → column.now.kind ≡ kind.Symbol }
{
    match column.kind() {
        ColType::Symbol => column.dictionary().len() <= most as u64,
        _ => false,
    }
}

/// The place of an id in a table: NULL stands before all ids.
#[inline(always)]
fn slot_of(id: u64) -> usize
    ensures { result ≡ slot id }
{
    if id == NULL_ID { 0 } else { id as usize + 1 }
}

/// The number that a table's entry has, if it is of a block.
#[inline(always)]
fn seen(entry: Option<(usize, usize)>, block: usize) -> Option<usize>
    ensures { IfSome result (λ number. entry ≡ Some (block, number)) }
{
    match entry {
        Some((met, number)) => { if met == block { Some(number) } else { None } }
        None => None,
    }
}

/// The key of an id.
fn key_of_id<'a, D: Dictionary>(dictionary: &'a D, id: u64) -> Key<'a>
    requires { IsIdOf (D.texts dictionary.now) id }
    ensures { lent result ≡ symbol_cell (D.texts dictionary.now) id }
{
    if id == NULL_ID {
        return Key::Null;
    }
    Key::Text(dictionary.text_of(id))
}
