//! Sets of result rows.
ghost use Rattle.std.specs.Prelude.{◌≡◌, ◌≢◌, ◌+◌, ◌<◌, ◌≤◌, ◌==◌, [], ◌∷◌, ◌++◌, Some, None, length, map, drop, All, IfOk, OnOk, OnErr, slice_get, slice_index_or, option_map};
ghost use Rattle.std.specs.Arc.{arc_value};
ghost use Rattle.qd_base.specs.Database.{missing};
ghost use Rattle.qd_rows.specs.Runs.{places_of_run, places_of_runs, AreRuns};
ghost use Rattle.qd_rows.specs.Sets.{rows_in, side_row, absent, with_place, alone, IsPlaced, IsRunOf, IsSide};

use crate::runs::{Place, Run, Runs};
use qd_base::{Cell, Col, ColList, ColType, Dictionary, Memory, Row};
use qd_block::Block;
use std::alloc::Global;
use std::marker::Model;
use std::sync::Arc;

/// Result rows over shared blocks. Contracts see the columns of both sides, the blocks, and where each row lies.
///
/// No cell is kept: a row is a place on its left side and, in the set of a join, one or none on its right side. Left
/// places are kept as runs of neighbours, 32 bytes each, right ones as places, 24 bytes a row.
#[derive(Drop)]
pub struct RowSet<D: Dictionary> {
    alloc: Global,
    left: ColList,
    right: Option<ColList>,
    blocks: Vec<Arc<Block<D>>>,
    lefts: Runs,
    rights: Vec<Option<Place>>,
}

impl<D: Dictionary> Model for RowSet<D> {
    ghost use Rattle.std.specs.Prelude.{map};
    ghost use Rattle.std.specs.Arc.{arc_value};
    ghost use Rattle.qd_rows.specs.Sets.{ResultRows, set_of, IsSet};

    ghost Value = { ResultRows };

    ghost view = { λ s. set_of s.left s.right (map (λ b. arc_value b) s.blocks.items) s.lefts s.rights.items };

    ghost invariant = { λ s. IsSet s.left s.right (map (λ b. arc_value b) s.blocks.items) s.lefts s.rights.items };
}

impl<D: Dictionary> RowSet<D> {
    /// Makes a set without rows, with right columns where it is that of a join. It copies the columns.
    pub fn over(alloc: Global, left: &ColList, right: Option<&ColList>) -> Result<RowSet<D>, Memory>
        ensures empty { IfOk result (λ set. set ≡ record { left = left.now; right = option_map (λ c. c.now) right.entry; blocks = []; places = [] }) }
    {
        let right = match right {
            Some(cols) => Some(cols.copy()?),
            None => None,
        };
        Ok(RowSet {
            alloc,
            left: left.copy()?,
            right,
            blocks: Vec::new(alloc),
            lefts: Runs::new(alloc),
            rights: Vec::new(alloc),
        })
    }

    /// Gives the number of rows, in constant time.
    pub fn len(&self) -> usize
        ensures count { result ≡ length self.now.places }
    {
        self.lefts.len()
    }

    /// Says whether there is no row, in constant time.
    pub fn is_empty(&self) -> bool
        ensures empty { result ≡ (length self.now.places == 0) }
    {
        self.lefts.len() == 0
    }

    /// Lends the columns of the left side, in constant time.
    pub fn left_cols(&self) -> &ColList
        ensures cols { result.now ≡ self.now.left }
    {
        &self.left
    }

    /// Lends the columns of the right side, where there is one, in constant time.
    pub fn right_cols(&self) -> Option<&ColList>
        ensures cols { option_map (λ c. c.now) result ≡ self.now.right }
    {
        self.right.as_ref()
    }

    /// Gives the number of blocks, in constant time.
    pub fn blocks(&self) -> usize
        ensures count { result ≡ length self.now.blocks }
    {
        self.blocks.len()
    }

    /// Lends a block, in constant time.
    pub fn block(&self, b: usize) -> &Arc<Block<D>>
        requires { b < length self.now.blocks }
        ensures block { slice_get self.now.blocks b ≡ Some (arc_value result.now) }
    {
        &self.blocks[b]
    }

    /// Lends the runs of the left places, in order, in constant time: tight loops over the rows of a set go over the
    /// slices of its blocks by them. In a set without right columns they are the rows.
    pub fn runs(&self) -> &[Run]
        ensures left { map (λ p. p.0) self.now.places ≡ places_of_runs result.now }
        ensures rows { self.now.right ≡ None → self.now.places ≡ alone (places_of_runs result.now) }
        ensures before { AreRuns 0 result.now (length self.now.places) }
        ensures each { All (IsRunOf self.now) result.now }
    {
        self.lefts.as_slice()
    }

    /// Gives the place of a row on its left side, and on its right side where it has one. It costs time logarithmic in
    /// the number of runs.
    pub fn places(&self, i: usize) -> (Place, Option<Place>)
        requires { i < length self.now.places }
        ensures places { slice_get self.now.places i ≡ Some result }
        ensures there { IsPlaced self.now result }
    {
        (self.lefts.place(i), right_at(self.rights.as_slice(), i))
    }

    /// Gives a row: the cells of its left side, then those of its right side. Columns that a block lacks, and all of a
    /// right side without a row, hold NULL, or false where they are BOOLEAN. It costs time and memory linear in the
    /// columns and the texts.
    pub fn row(&self, i: usize) -> Result<Row, Memory>
        requires { i < length self.now.places }
        ensures row { IfOk result (λ row. slice_get (rows_in self.now) i ≡ Some row) }
    {
        let (left, right) = self.places(i);
        let row = self.with_side(Row::new(self.alloc), &self.left, Some(left))?;
        match &self.right {
            Some(cols) => self.with_side(row, cols, right),
            None => Ok(row),
        }
    }

    /// Adds a block, and gives its position. No row comes with it. Where no memory is found, nothing is changed.
    pub fn add_block(&mut self, block: Arc<Block<D>>) -> Result<usize, Memory>
        ensures position { IfOk result (λ b. b ≡ length self.old.blocks) }
        ensures ok { OnOk result (self.new ≡ record self.old { blocks = self.old.blocks ++ arc_value block ∷ [] }) }
        ensures err { OnErr result (self.new ≡ self.old) }
    {
        let position = self.blocks.len();
        self.blocks.push(block)?;
        Ok(position)
    }

    /// Adds a row by its places, in amortised constant time. A left row that is the next of the last run's makes that
    /// run longer. Where no memory is found, nothing is changed.
    pub fn push_row(&mut self, left: Place, right: Option<Place>) -> Result<(), Memory>
        requires { IsPlaced self.old (left, right) }
        ensures ok { OnOk result (self.new ≡ with_place self.old (left, right)) }
        ensures err { OnErr result (self.new ≡ self.old) }
    {
        match &self.right {
            Some(_) => self.push_joined(left, right),
            None => {
                self.lefts.push(left)?;
                Ok(())
            }
        }
    }

    /// Adds the rows of a block from one up to another to a set without right columns, in amortised constant time.
    /// Where no memory is found, or the number of rows would pass the greatest one, nothing is changed.
    pub fn push_run(&mut self, block: usize, from: u64, to: u64) -> Result<(), Memory>
        requires single { self.old.right ≡ None }
        requires there { IsRunOf self.old (record { block = block; from = from; to = to; before = 0 }) }
        ensures ok { OnOk result (self.new ≡ record self.old { places = self.old.places ++ alone (places_of_run (record { block = block; from = from; to = to; before = 0 })) }) }
        ensures err { OnErr result (self.new ≡ self.old) }
    {
        self.lefts.push_run(block, from, to)?;
        Ok(())
    }

    /// Adds a row to a set with right columns.
    #[inline(never)]
    fn push_joined(&mut self, left: Place, right: Option<Place>) -> Result<(), Memory>
        requires joined { self.old.right ≢ None }
        requires there { IsPlaced self.old (left, right) }
        ensures ok { OnOk result (self.new ≡ with_place self.old (left, right)) }
        ensures err { OnErr result (self.new ≡ self.old) }
    {
        self.rights.reserve(1)?;
        self.lefts.push(left)?;
        self.rights.push_reserved(right);
        Ok(())
    }

    /// Gives a row with the cells of one side behind its own.
    fn with_side(&self, row: Row, cols: &ColList, place: Option<Place>) -> Result<Row, Memory>
        requires { IsSide self.now.blocks cols.now place }
        ensures { IfOk result (λ r. r ≡ row ++ side_row self.now.blocks cols.now place) }
    {
        match place {
            None => with_absent(row, cols.as_slice()),
            Some((b, i)) => {
                let block = &self.blocks[b];
                let row = block.with_cells(i, row)?;
                with_absent(row, &cols.as_slice()[block.cols() as usize..])
            }
        }
    }
}

/// The right place of a row; none where none is kept.
fn right_at(rights: &[Option<Place>], i: usize) -> Option<Place>
    ensures { result ≡ slice_index_or rights.now i None }
{
    if i < rights.len() { rights[i] } else { None }
}

/// Gives a row with what a row holds that lacks columns behind its own cells.
fn with_absent(row: Row, cols: &[Col]) -> Result<Row, Memory>
    ensures { IfOk result (λ r. r ≡ row ++ absent cols.now) }
{
    let mut row = row;
    for col in cols {
        row.push(absent_cell(col.kind))?;
    }
    Ok(row)
}

/// What a row holds that lacks a column of a kind.
fn absent_cell(kind: ColType) -> Cell
    ensures { result ≡ missing kind }
{
    match kind {
        ColType::Bool => Cell::Bool(false),
        _ => Cell::Null,
    }
}
