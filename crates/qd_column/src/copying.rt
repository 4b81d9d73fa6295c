//! How columns are copied, and how their cells come in and out as values.
ghost use Rattle.std.specs.Prelude.{◌≡◌, ℕ, ◌<◌, ◌≤◌, Some, length, All, IfOk, OnOk, OnErr, slice_get, slice_range, replicate};
ghost use Rattle.qd_base.specs.Lawful.{Takes};
ghost use Rattle.qd_base.specs.Database.{missing};
ghost use Rattle.qd_column.specs.Cells.{cells_at, with_cell};
ghost use Rattle.qd_column.specs.Runs.{laid, IsRunOf};

use crate::column::{Column, Data};
use crate::gather::{gathered, part_of};
use crate::runs::{Run, spliced};
use crate::symbols::Symbols;
use crate::texts::Texts;
use qd_base::{Cell, ColType, Dictionary, Memory, Txt};
use std::alloc::Global;

impl<D: Dictionary> Column<D> {
    /// Copies the rows at some places, in the order of the places. It costs time and memory linear in their number,
    /// their bytes and, in a SYMBOL column, that of its texts.
    pub fn gathered(&self, alloc: Global, places: &[usize]) -> Result<Column<D>, Memory>
        requires { All (λ i. i < length self.now.cells) places.now }
        ensures cells { IfOk result (λ column. column ≡ cells_at self.now places.now) }
    {
        match &self.data {
            Data::Longs(longs) => {
                let data = Data::Longs(gathered(alloc, longs.as_slice(), places)?);
                Ok(Column { data })
            }
            Data::Truths(truths) => {
                let data = Data::Truths(gathered(alloc, truths.as_slice(), places)?);
                Ok(Column { data })
            }
            Data::Symbols(symbols) => {
                let data = Data::Symbols(symbols.gathered(alloc, places)?);
                Ok(Column { data })
            }
            Data::Texts(texts) => {
                let data = Data::Texts(texts.gathered(alloc, places)?);
                Ok(Column { data })
            }
            Data::Times(times) => {
                let data = Data::Times(gathered(alloc, times.as_slice(), places)?);
                Ok(Column { data })
            }
        }
    }

    /// Copies the rows from one up to another. It costs time and memory linear in their number, their bytes and, in a
    /// SYMBOL column, that of its texts.
    pub fn part(&self, alloc: Global, from: usize, to: usize) -> Result<Column<D>, Memory>
        requires ordered { from ≤ to }
        requires within { to ≤ length self.now.cells }
        ensures cells { IfOk result (λ column. column ≡ record { kind = self.now.kind; cells = slice_range self.now.cells from to }) }
    {
        match &self.data {
            Data::Longs(longs) => {
                let data = Data::Longs(part_of(alloc, longs.as_slice(), from, to)?);
                Ok(Column { data })
            }
            Data::Truths(truths) => {
                let data = Data::Truths(part_of(alloc, truths.as_slice(), from, to)?);
                Ok(Column { data })
            }
            Data::Symbols(symbols) => {
                let data = Data::Symbols(symbols.part(alloc, from, to)?);
                Ok(Column { data })
            }
            Data::Texts(texts) => {
                let data = Data::Texts(texts.part(alloc, from, to)?);
                Ok(Column { data })
            }
            Data::Times(times) => {
                let data = Data::Times(part_of(alloc, times.as_slice(), from, to)?);
                Ok(Column { data })
            }
        }
    }

    /// Copies rows of two columns of one kind, in the order of the runs. It costs time and memory linear in the number
    /// of rows, their bytes and, in SYMBOL columns, that of the columns' texts.
    pub fn spliced(
        alloc: Global,
        first: &Column<D>,
        second: &Column<D>,
        runs: &[Run],
    ) -> Result<Column<D>, Memory>
        requires kind { first.now.kind ≡ second.now.kind }
        requires within { All (IsRunOf (length first.now.cells) (length second.now.cells)) runs.now }
        ensures cells { IfOk result (λ column. column ≡ record { kind = first.now.kind; cells = laid first.now.cells second.now.cells runs.now }) }
    {
        match (&first.data, &second.data) {
            (Data::Longs(a), Data::Longs(b)) => {
                let data = Data::Longs(spliced(alloc, a.as_slice(), b.as_slice(), runs)?);
                Ok(Column { data })
            }
            (Data::Truths(a), Data::Truths(b)) => {
                let data = Data::Truths(spliced(alloc, a.as_slice(), b.as_slice(), runs)?);
                Ok(Column { data })
            }
            (Data::Symbols(a), Data::Symbols(b)) => {
                let data = Data::Symbols(Symbols::spliced(alloc, a, b, runs)?);
                Ok(Column { data })
            }
            (Data::Texts(a), Data::Texts(b)) => {
                let data = Data::Texts(Texts::spliced(alloc, a, b, runs)?);
                Ok(Column { data })
            }
            (Data::Times(a), Data::Times(b)) => {
                let data = Data::Times(spliced(alloc, a.as_slice(), b.as_slice(), runs)?);
                Ok(Column { data })
            }
            _ => unreachable!(),
        }
    }

    /// Makes a column of rows that lack it: NULL in each, or false in a BOOLEAN column. It costs time and memory linear
    /// in their number.
    pub fn missing(alloc: Global, kind: ColType, rows: usize) -> Result<Column<D>, Memory>
        ensures cells { IfOk result (λ column. column ≡ record { kind = kind; cells = replicate rows (missing kind) }) }
    {
        let mut column = Column::new(alloc, kind)?;
        for _ in 0..rows {
            column.push_missing()?;
        }
        Ok(column)
    }

    /// Gives the cell of a row. It costs time and memory linear in its text.
    pub fn cell(&self, alloc: Global, i: usize) -> Result<Cell, Memory>
        requires { i < length self.now.cells }
        ensures cell { IfOk result (λ x. slice_get self.now.cells i ≡ Some x) }
    {
        match self.kind() {
            ColType::Long => Ok(match self.long(i) {
                Some(value) => Cell::Long(value),
                None => Cell::Null,
            }),
            ColType::Bool => Ok(Cell::Bool(self.truth(i))),
            ColType::Time => Ok(match self.time(i) {
                Some(value) => Cell::Time(value),
                None => Cell::Null,
            }),
            ColType::Symbol | ColType::Varchar => match self.text(i) {
                Some(text) => Ok(Cell::Text(Txt::from_bytes(alloc, text)?)),
                None => Ok(Cell::Null),
            },
        }
    }

    /// Adds a row with a cell that the column takes. Where no memory is found, nothing is changed.
    pub fn push_cell(&mut self, cell: &Cell) -> Result<(), Memory>
        requires { Takes self.old.kind cell.now }
        ensures ok { OnOk result (self.new ≡ with_cell self.old cell.now) }
        ensures err { OnErr result (self.new ≡ self.old) }
    {
        match cell {
            Cell::Null => self.push_missing(),
            Cell::Long(value) => self.push_long(*value),
            Cell::Bool(value) => self.push_truth(*value),
            Cell::Text(text) => self.push_text(text.bytes()),
            Cell::Time(value) => self.push_time(*value),
        }
    }
}
