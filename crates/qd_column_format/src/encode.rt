//! Columns as the bytes of their two files.
ghost use Rattle.std.specs.Prelude.{◌≡◌, ◌<◌, ◌≤◌, [], ◌++◌, length, map, IfOk, OnOk};
ghost use Rattle.qd_base.specs.declared.cell.Cell.TheVariants as cell;
ghost use Rattle.qd_base.specs.declared.schema.ColType.TheVariants as kind;
ghost use Rattle.qd_block.specs.Blocks.{column_in};
ghost use Rattle.qd_column.specs.Cells.{long_cell, time_cell};
ghost use Rattle.qd_column.specs.Symbols.{symbol_cell, AreSymbols};
ghost use Rattle.qd_column.specs.Texts.{cells_from, Tile};
ghost use Rattle.qd_column_format.specs.Fields.{truth_field};
ghost use Rattle.qd_column_format.specs.Spelling.{main_of, aux_of};
ghost use Rattle.qd_column_format.specs.Added.{column_of, first_rows, IsAdded, SpellsItself};

use crate::dictionary::{encode_from, size_before};
use crate::numbers::{last_end, named_by};
use crate::words::{are_longs, bytes_of_longs, bytes_of_words};
use qd_base::{ColType, Dictionary, Memory, Txt};
use qd_block::Block;
use qd_column::Column;
use std::alloc::Global;

/// What rows add to the two files of a column, and where in each.
#[derive(Debug, Drop)]
pub struct ColumnBytes {
    /// The bytes for the main file.
    pub main: Txt,
    /// The place in the main file where they begin.
    pub main_at: u64,
    /// The bytes for the second file.
    pub aux: Txt,
    /// The place in the second file where they begin.
    pub aux_at: u64,
}

/// Gives what the rows of a column from `from` on add to its two files: behind the bytes of the rows before them it makes
/// the bytes of all rows. It costs time and memory linear in the rows from `from` on and their bytes; in a SYMBOL column
/// the rows before and the texts that they name are looked at too.
pub fn encode_column<D: Dictionary>(
    alloc: Global,
    block: &Block<D>,
    col: u32,
    from: u64,
) -> Result<ColumnBytes, Memory>
    requires col { col < length block.now.kinds }
    requires from { from ≤ length block.now.rows }
    ensures main { IfOk result (λ b. main_of (first_rows from (column_in block.now col)) ++ b.main ≡ main_of (column_in block.now col)) }
    ensures main_at { IfOk result (λ b. b.main_at ≡ length (main_of (first_rows from (column_in block.now col)))) }
    ensures aux { IfOk result (λ b. aux_of (first_rows from (column_in block.now col)) ++ b.aux ≡ aux_of (column_in block.now col)) }
    ensures aux_at { IfOk result (λ b. b.aux_at ≡ length (aux_of (first_rows from (column_in block.now col)))) }
    ensures spelled { OnOk result (SpellsItself (column_in block.now col)) }
{
    encode_rows(alloc, block.column(col), from as usize)
}

/// The same of a column.
fn encode_rows<D: Dictionary>(
    alloc: Global,
    column: &Column<D>,
    from: usize,
) -> Result<ColumnBytes, Memory>
    requires from { from ≤ length column.now.cells }
    ensures added { IfOk result (λ b. IsAdded from column.now b) }
    ensures spelled { OnOk result (SpellsItself column.now) }
{
    match column.kind() {
        ColType::Long => longs_added(alloc, column.longs(), from),
        ColType::Bool => truths_added(alloc, column.truths(), from),
        ColType::Symbol => symbols_added(alloc, column.symbols(), column.dictionary(), from),
        ColType::Varchar => {
            let (marks, bytes) = column.marks_and_bytes();
            texts_added(alloc, marks, bytes, from)
        }
        ColType::Time => times_added(alloc, column.times(), from),
    }
}

/// What rows add to a main file, with nothing in the second one.
pub(crate) fn plain(alloc: Global, main: Vec<u8>, main_at: u64) -> ColumnBytes
    ensures main { result.main ≡ main.items }
    ensures main_at { result.main_at ≡ main_at }
    ensures aux { result.aux ≡ [] }
    ensures aux_at { result.aux_at ≡ 0 }
{
    ColumnBytes {
        main: Txt::from_vec(main),
        main_at,
        aux: Txt::from_vec(Vec::new(alloc)),
        aux_at: 0,
    }
}

/// Rows of a LONG column.
fn longs_added(alloc: Global, longs: &[i64], from: usize) -> Result<ColumnBytes, Memory>
    requires { from ≤ length longs.now }
    ensures added { IfOk result (λ b. IsAdded from (column_of kind.Long (map long_cell longs.now)) b) }
    ensures spelled { OnOk result (SpellsItself (column_of kind.Long (map long_cell longs.now))) }
{
    are_longs(longs);
    let main = bytes_of_longs(alloc, &longs[from..])?;
    Ok(plain(alloc, main, 8 * from as u64))
}

/// Rows of a TIMESTAMP column.
fn times_added(alloc: Global, times: &[u64], from: usize) -> Result<ColumnBytes, Memory>
    requires { from ≤ length times.now }
    ensures added { IfOk result (λ b. IsAdded from (column_of kind.Time (map time_cell times.now)) b) }
    ensures spelled { OnOk result (SpellsItself (column_of kind.Time (map time_cell times.now))) }
{
    let main = bytes_of_words(alloc, &times[from..])?;
    Ok(plain(alloc, main, 8 * from as u64))
}

/// Rows of a BOOLEAN column.
fn truths_added(alloc: Global, truths: &[bool], from: usize) -> Result<ColumnBytes, Memory>
    requires { from ≤ length truths.now }
    ensures added { IfOk result (λ b. IsAdded from (column_of kind.Bool (map (λ b. cell.Bool b) truths.now)) b) }
    ensures spelled { OnOk result (SpellsItself (column_of kind.Bool (map (λ b. cell.Bool b) truths.now))) }
{
    let main = bytes_of_truths(alloc, &truths[from..])?;
    Ok(plain(alloc, main, from as u64))
}

/// The bytes of truth values.
pub(crate) fn bytes_of_truths(alloc: Global, truths: &[bool]) -> Result<Vec<u8>, Memory>
    ensures bytes { IfOk result (λ v. v.items ≡ map (λ b. truth_field (cell.Bool b)) truths.now) }
{
    let mut bytes = Vec::with_capacity(alloc, truths.len())?;
    for truth in truths {
        bytes.push(*truth as u8)?;
    }
    Ok(bytes)
}

/// Rows of a SYMBOL column.
fn symbols_added<D: Dictionary>(
    alloc: Global,
    ids: &[u64],
    dictionary: &D,
    from: usize,
) -> Result<ColumnBytes, Memory>
    requires known { AreSymbols (D.texts dictionary.now) ids.now }
    requires from { from ≤ length ids.now }
    ensures added { IfOk result (λ b. IsAdded from (column_of kind.Symbol (map (symbol_cell (D.texts dictionary.now)) ids.now)) b) }
    ensures spelled { OnOk result (SpellsItself (column_of kind.Symbol (map (symbol_cell (D.texts dictionary.now)) ids.now))) }
{
    let before = named_by(&ids[..from]);
    let main = bytes_of_words(alloc, &ids[from..])?;
    let aux = encode_from(alloc, dictionary, before)?;
    let aux_at = size_before(dictionary, before)?;
    Ok(ColumnBytes {
        main: Txt::from_vec(main),
        main_at: 8 * from as u64,
        aux,
        aux_at,
    })
}

/// Rows of a VARCHAR column.
fn texts_added(
    alloc: Global,
    marks: &[u64],
    bytes: &[u8],
    from: usize,
) -> Result<ColumnBytes, Memory>
    requires tiled { Tile 0 marks.now (length bytes.now) }
    requires from { from ≤ length marks.now }
    ensures added { IfOk result (λ b. IsAdded from (column_of kind.Varchar (cells_from bytes.now 0 marks.now)) b) }
    ensures spelled { OnOk result (SpellsItself (column_of kind.Varchar (cells_from bytes.now 0 marks.now))) }
{
    let before = last_end(&marks[..from]);
    let main = bytes_of_words(alloc, &marks[from..])?;
    let aux = Vec::from_slice(alloc, &bytes[before as usize..])?;
    Ok(ColumnBytes {
        main: Txt::from_vec(main),
        main_at: 8 * from as u64,
        aux: Txt::from_vec(aux),
        aux_at: before,
    })
}
