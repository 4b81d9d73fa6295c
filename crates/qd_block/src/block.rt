//! Blocks, and how they are read and copied.
ghost use Rattle.std.specs.Prelude.{◌≡◌, ◌-◌, ◌<◌, ◌≤◌, Some, length, map, All, IfOk, slice_get, slice_range};
ghost use Rattle.qd_base.specs.declared.cell.Cell.TheVariants as cell;
ghost use Rattle.qd_base.specs.Rows.{Row, time_of, cell_at};
ghost use Rattle.qd_block.specs.Blocks.{block_of, column_in, part_of_column, IsBlock, IsWhole};

use qd_base::{Dictionary, Memory};
use qd_column::Column;
use std::alloc::Global;
use std::marker::Model;

/// Rows in order of their designated timestamp, kept by columns. Contracts see the kinds of its columns, which of them
/// is the designated one, and the list of its rows.
#[derive(Drop)]
pub struct Block<D: Dictionary> {
    pub(crate) alloc: Global,
    pub(crate) columns: Vec<Column<D>>,
    pub(crate) rows: usize,
    pub(crate) time_col: usize,
}

/// A column that is lent: its cells are read without a copy.
pub type ColumnView<'a, D> = &'a Column<D>;

impl<D: Dictionary> Model for Block<D> {
    ghost use Rattle.qd_block.specs.Blocks.{Block as Rows, block_of, IsBlock};

    ghost Value = { Rows };

    ghost view = { λ b. block_of b.rows b.time_col b.columns.items };

    ghost invariant = { λ b. IsBlock b.rows b.time_col b.columns.items };
}

impl<D: Dictionary> Block<D> {
    /// Makes the block of whole columns: at most 256 of one length, with rows in order of their designated timestamp,
    /// which is NULL in none. It takes constant time and no memory.
    pub fn of_columns(
        alloc: Global,
        columns: Vec<Column<D>>,
        rows: usize,
        time_col: u32,
    ) -> Block<D>
        requires block { IsBlock rows time_col columns.items }
        ensures block { result ≡ block_of rows time_col columns.items }
    {
        Block {
            alloc,
            columns,
            rows,
            time_col: time_col as usize,
        }
    }

    /// Tells that the block is whole: each row has a cell for each column, and the rows are in order of time. It does
    /// nothing.
    pub fn is_whole(&self)
        ensures whole { IsWhole self.now }
    {
        let _rows = self.rows;
    }

    /// Gives the number of rows, in constant time.
    pub fn rows(&self) -> u64
        ensures count { result ≡ length self.now.rows }
    {
        self.rows as u64
    }

    /// Gives the number of columns, at most 256, in constant time.
    pub fn cols(&self) -> u32
        ensures count { result ≡ length self.now.kinds }
    {
        self.columns.len() as u32
    }

    /// Gives the position of the designated timestamp among the columns, in constant time.
    pub fn time_col(&self) -> u32
        ensures position { result ≡ self.now.time_col }
    {
        self.time_col as u32
    }

    /// Lends a column, in constant time.
    pub fn column(&self, col: u32) -> ColumnView<'_, D>
        requires { col < length self.now.kinds }
        ensures column { result.now ≡ column_in self.now col }
    {
        &self.columns[col as usize]
    }

    /// Lends the designated timestamps of all rows, in order, in constant time.
    pub fn times(&self) -> &[u64]
        ensures times { map (λ t. cell.Time t) result.now ≡ map (λ r. cell_at r self.now.time_col) self.now.rows }
    {
        self.columns[self.time_col].times()
    }

    /// Gives the designated timestamp of a row, in constant time.
    pub fn time(&self, i: u64) -> u64
        requires { i < length self.now.rows }
        ensures time { (row : Row) → slice_get self.now.rows i ≡ Some row → result ≡ time_of self.now.time_col row }
    {
        self.times()[i as usize]
    }

    /// Copies the rows from one up to another. It costs time and memory linear in their number, their bytes and the
    /// texts of the SYMBOL columns.
    pub fn slice_rows(&self, from: u64, to: u64) -> Result<Block<D>, Memory>
        requires ordered { from ≤ to }
        requires within { to ≤ length self.now.rows }
        ensures rows { IfOk result (λ part. part ≡ record self.now { rows = slice_range self.now.rows from to }) }
    {
        let columns = parts_of(
            self.alloc,
            self.columns.as_slice(),
            from as usize,
            to as usize,
        )?;
        Ok(Block {
            alloc: self.alloc,
            columns,
            rows: (to - from) as usize,
            time_col: self.time_col,
        })
    }

    /// Copies the block. It costs time and memory linear in its size.
    pub fn copy(&self) -> Result<Block<D>, Memory>
        ensures same { IfOk result (λ other. other ≡ self.now) }
    {
        self.slice_rows(0, self.rows as u64)
    }
}

/// Copies the rows from one up to another of each column.
fn parts_of<D: Dictionary>(
    alloc: Global,
    columns: &[Column<D>],
    from: usize,
    to: usize,
) -> Result<Vec<Column<D>>, Memory>
    requires ordered { from ≤ to }
    requires within { All (λ c. to ≤ length c.cells) columns.now }
    ensures columns { IfOk result (λ v. v.items ≡ map (part_of_column from to) columns.now) }
{
    let mut parts = Vec::with_capacity(alloc, columns.len())?;
    for column in columns {
        parts.push(column.part(alloc, from, to)?)?;
    }
    Ok(parts)
}
