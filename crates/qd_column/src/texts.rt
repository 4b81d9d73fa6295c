//! Columns of texts.
ghost use Rattle.std.specs.Prelude.{◌≡◌, ℕ, ◌<◌, ◌≤◌, List, [], ◌∷◌, ◌++◌, Some, length, map, All, IfOk, IfSome, OnOk, OnErr, slice_get, slice_range, slice_index_or, option_map};
ghost use Rattle.qd_base.specs.declared.cell.Cell.TheVariants as cell;
ghost use Rattle.qd_column.specs.Cells.{text_or_null};
ghost use Rattle.qd_column.specs.Runs.{laid, IsRunOf};
ghost use Rattle.qd_column.specs.Texts.{cells_from, start_at, Tile};

use crate::runs::{Run, Side};
use qd_base::{MAX_TEXT_BYTES, Memory};
use std::alloc::Global;
use std::marker::Model;

/// A column of texts: one buffer of bytes, and for each row a mark of where its bytes end. Contracts see the list of
/// its cells.
///
/// A mark is twice the number of bytes up to the end of the row's, and 1 more for NULL. A row takes its bytes and 8
/// more.
#[derive(Drop)]
pub struct Texts {
    marks: Vec<u64>,
    bytes: Vec<u8>,
}

impl Model for Texts {
    ghost use Rattle.std.specs.Prelude.{List, length};
    ghost use Rattle.qd_base.specs.declared.cell.Cell.{Cell};
    ghost use Rattle.qd_column.specs.Texts.{cells_from, Tile};

    ghost Value = { List Cell };

    ghost view = { λ t. cells_from t.bytes.items 0 t.marks.items };

    ghost invariant = { λ t. Tile 0 t.marks.items (length t.bytes.items) };
}

impl Texts {
    /// Makes the column without rows. It takes no memory until a row is added.
    pub fn new(alloc: Global) -> Texts
        ensures empty { result ≡ [] }
    {
        Texts {
            marks: Vec::new(alloc),
            bytes: Vec::new(alloc),
        }
    }

    /// Makes the column of marks and the bytes that they tile.
    pub(crate) fn of_parts(marks: Vec<u64>, bytes: Vec<u8>) -> Texts
        requires { Tile 0 marks.items (length bytes.items) }
        ensures cells { result ≡ cells_from bytes.items 0 marks.items }
    {
        Texts { marks, bytes }
    }

    /// Lends the marks and the bytes that they tile, in constant time.
    pub(crate) fn parts(&self) -> (&[u64], &[u8])
        ensures cells { self.now ≡ cells_from result.1.now 0 result.0.now }
        ensures tiled { Tile 0 result.0.now (length result.1.now) }
    {
        (self.marks.as_slice(), self.bytes.as_slice())
    }

    /// Gives the number of rows, in constant time.
    pub fn len(&self) -> usize
        ensures count { result ≡ length self.now }
    {
        self.marks.len()
    }

    /// Lends the text of a row, in constant time.
    pub fn text(&self, i: usize) -> Option<&[u8]>
        requires { i < length self.now }
        ensures text { slice_get self.now i ≡ Some (text_or_null (option_map (λ t. t.now) result)) }
        ensures short { IfSome result (λ t. length t.now ≤ MAX_TEXT_BYTES) }
    {
        text_in(self.bytes.as_slice(), self.marks.as_slice(), i)
    }

    /// Adds a row with NULL. Where no memory is found, nothing is changed.
    pub fn push_null(&mut self) -> Result<(), Memory>
        ensures ok { OnOk result (self.new ≡ self.old ++ cell.Null ∷ []) }
        ensures err { OnErr result (self.new ≡ self.old) }
    {
        let end = self.bytes.len() as u64;
        self.marks.push(2 * end + 1)?;
        Ok(())
    }

    /// Adds a row with a text of at most 65,535 bytes. Where no memory is found, nothing is changed.
    pub fn push_text(&mut self, text: &[u8]) -> Result<(), Memory>
        requires { length text.now ≤ MAX_TEXT_BYTES }
        ensures ok { OnOk result (self.new ≡ self.old ++ cell.Text text.now ∷ []) }
        ensures err { OnErr result (self.new ≡ self.old) }
    {
        self.marks.reserve(1)?;
        self.bytes.extend_from_slice(text)?;
        let end = self.bytes.len() as u64;
        self.marks.push_reserved(2 * end);
        Ok(())
    }

    /// Adds a row of another column. Where no memory is found, nothing is changed.
    fn push_row(&mut self, other: &Texts, i: usize) -> Result<(), Memory>
        requires { i < length other.now }
        ensures ok { OnOk result (self.new ≡ self.old ++ slice_index_or other.now i cell.Null ∷ []) }
        ensures err { OnErr result (self.new ≡ self.old) }
    {
        match other.text(i) {
            None => self.push_null(),
            Some(text) => self.push_text(text),
        }
    }

    /// Copies the rows at some places, in the order of the places. It costs time and memory linear in their number and
    /// their bytes.
    pub fn gathered(&self, alloc: Global, places: &[usize]) -> Result<Texts, Memory>
        requires { All (λ i. i < length self.now) places.now }
        ensures cells { IfOk result (λ texts. texts ≡ map (λ i. slice_index_or self.now i cell.Null) places.now) }
    {
        let mut texts = Texts::new(alloc);
        for place in places {
            texts.push_row(self, *place)?;
        }
        Ok(texts)
    }

    /// Copies the rows from one up to another. It costs time and memory linear in their number and their bytes.
    pub fn part(&self, alloc: Global, from: usize, to: usize) -> Result<Texts, Memory>
        requires ordered { from ≤ to }
        requires within { to ≤ length self.now }
        ensures cells { IfOk result (λ texts. texts ≡ slice_range self.now from to) }
    {
        let mut texts = Texts::new(alloc);
        texts.push_part(self, from, to)?;
        Ok(texts)
    }

    /// Copies rows of two columns, in the order of the runs. It costs time and memory linear in their number and their
    /// bytes.
    pub fn spliced(
        alloc: Global,
        first: &Texts,
        second: &Texts,
        runs: &[Run],
    ) -> Result<Texts, Memory>
        requires { All (IsRunOf (length first.now) (length second.now)) runs.now }
        ensures cells { IfOk result (λ texts. texts ≡ laid first.now second.now runs.now) }
    {
        let mut texts = Texts::new(alloc);
        for run in runs {
            match run.side {
                Side::First => texts.push_part(first, run.from, run.to)?,
                Side::Second => texts.push_part(second, run.from, run.to)?,
            }
        }
        Ok(texts)
    }

    /// Adds the rows of another column from one up to another.
    fn push_part(&mut self, other: &Texts, from: usize, to: usize) -> Result<(), Memory>
        requires ordered { from ≤ to }
        requires within { to ≤ length other.now }
        ensures ok { OnOk result (self.new ≡ self.old ++ slice_range other.now from to) }
    {
        for i in from..to {
            self.push_row(other, i)?;
        }
        Ok(())
    }
}

/// The text of a row, by the marks of all rows.
fn text_in<'a>(bytes: &'a [u8], marks: &[u64], i: usize) -> Option<&'a [u8]>
    requires row { i < length marks.now }
    requires tiled { Tile 0 marks.now (length bytes.now) }
    ensures text { slice_get (cells_from bytes.now 0 marks.now) i ≡ Some (text_or_null (option_map (λ t. t.now) result)) }
    ensures short { IfSome result (λ t. length t.now ≤ MAX_TEXT_BYTES) }
{
    let mark = marks[i];
    if mark % 2 == 1 {
        return None;
    }
    let start = start_of(marks, i) as usize;
    let end = (mark / 2) as usize;
    Some(&bytes[start..end])
}

/// Where the bytes of a row begin, by the marks of all rows.
fn start_of(marks: &[u64], i: usize) -> u64
    requires { i < length marks.now }
    ensures start { result ≡ start_at 0 marks.now i }
{
    if i == 0 { 0 } else { marks[i - 1] / 2 }
}
