//! What rows behind the first ones of a column go on with.
ghost use Rattle.std.specs.Prelude.{◌≡◌, ◌⊎◌, ℕ, ◌+◌, ◌*◌, ◌^◌, ◌<◌, ◌≤◌, List, [], Some, length, map, All, IfOk, OnOk};
ghost use Rattle.std.specs.List.{flat_map};
ghost use Rattle.qd_base.specs.declared.cell.Cell.{Cell};
ghost use Rattle.qd_base.specs.declared.cell.Cell.TheVariants as cell;
ghost use Rattle.qd_base.specs.declared.limits.TheConstants.{NULL_ID as null};
ghost use Rattle.qd_base.specs.declared.schema.ColType.TheVariants as kind;
ghost use Rattle.qd_base.specs.Dictionary.{id_for};
ghost use Rattle.qd_column.specs.Cells.{long_cell, time_cell, CellsOf};
ghost use Rattle.qd_column.specs.Symbols.{symbol_cell, texts_in, AreSymbols};
ghost use Rattle.qd_column.specs.Texts.{cells_from, Tile};
ghost use Rattle.qd_column_format.specs.Added.{column_of, SpellsItself};
ghost use Rattle.qd_column_format.specs.Rests.{HoldsTail};
ghost use Rattle.qd_column_format.specs.Spelling.{text_bytes};
ghost use Rattle.qd_column_format.specs.Tails.{behind, id_anew, with_texts, AddsBehind, GoesFurther};

use crate::dictionary::{encode_from, load, size_before};
use crate::encode::{ColumnBytes, bytes_of_truths, plain};
use crate::fault::LoadFault;
use crate::laws::one_dictionary_is_spelled;
use crate::numbers::{last_end, named_in};
use crate::rest::text_end;
use crate::words::{are_longs, bytes_of_longs, bytes_of_words};
use qd_base::{ColType, Dictionary, MAX_TEXT_BYTES, Memory, NULL_ID, Txt};
use qd_column::Column;
use std::alloc::{AllocError, Global};
use std::marker::Model;

/// How many rows a stored column has at most: 2^60. More have no place in a file.
const MAX_STORED: u64 = 1 << 60;

/// What rows behind the first ones of a column go on with: the texts that a SYMBOL column has named, and how many bytes the
/// texts of a VARCHAR column take.
#[derive(Drop)]
pub struct Tail<D: Dictionary> {
    texts: D,
    end: u64,
}

impl<D: Dictionary> Model for Tail<D> {
    ghost use Rattle.std.specs.Prelude.{◌≤◌, All, length};
    ghost use Rattle.qd_base.specs.declared.limits.TheConstants.{MAX_TEXT_BYTES};
    ghost use Rattle.qd_column_format.specs.Tails.{Behind};

    ghost Value = { Behind };

    ghost view = { λ t. record { texts = D.texts t.texts; end = t.end } };

    ghost invariant = { λ t. All (λ text. length text ≤ MAX_TEXT_BYTES) (D.texts t.texts) };
}

impl<D: Dictionary> Tail<D> {
    /// What rows behind those of a column go on with. It costs time and memory linear in the texts of a SYMBOL column, and
    /// constant time for the others. Want of memory is the only error.
    pub fn behind(alloc: Global, column: &Column<D>) -> Result<Tail<D>, Memory>
        ensures behind { IfOk result (λ t. t ≡ behind column.now) }
    {
        match column.kind() {
            ColType::Symbol => Tail::of_texts(alloc, column.dictionary()),
            ColType::Varchar => {
                let (marks, _bytes) = column.marks_and_bytes();
                Tail::of_end(alloc, last_end(marks))
            }
            _ => Tail::of_end(alloc, 0),
        }
    }

    /// What rows behind the first `rows` of a stored column go on with, without making these. Of a SYMBOL column `main` begins
    /// with the numbers of its rows, as its main file does, and `aux` is its second file; of a VARCHAR column `main` is the mark of
    /// its last row, the 8 bytes that the main file has for it, and may be empty where it has no row; of the others nothing is
    /// looked at.
    ///
    /// `None` says that these are the bytes of no column. It costs one pass over the numbers of a SYMBOL column, and time and memory
    /// linear in its texts; constant time for the others. Want of memory is the only error.
    pub fn stored(
        alloc: Global,
        kind: ColType,
        rows: u64,
        main: &[u8],
        aux: &[u8],
    ) -> Result<Option<Tail<D>>, Memory>
        ensures tail { (column : CellsOf) → column.kind ≡ kind → length column.cells ≡ rows → HoldsTail kind main.now aux.now column → IfOk result (λ t. t ≡ Some (behind column)) }
    {
        match kind {
            ColType::Symbol => Tail::of_ids(alloc, rows, main, aux),
            ColType::Varchar => Tail::of_mark(alloc, rows, main),
            _ => Ok(Some(Tail::of_end(alloc, 0)?)),
        }
    }

    /// Behind the rows of a SYMBOL column, by the greatest of their ids.
    fn of_ids(alloc: Global, rows: u64, main: &[u8], aux: &[u8]) -> Result<Option<Tail<D>>, Memory>
        ensures tail { (column : CellsOf) → column.kind ≡ kind.Symbol → length column.cells ≡ rows → HoldsTail kind.Symbol main.now aux.now column → IfOk result (λ t. t ≡ Some (behind column)) }
    {
        if ((main.len() / 8) as u64) < rows {
            return Ok(None);
        }
        let count = named_in(rows as usize, main);
        // So that the texts are those of the column.
        one_dictionary_is_spelled();
        match load(alloc, aux, count) {
            Ok(texts) => Ok(Some(Tail { texts, end: 0 })),
            Err(LoadFault::Damaged { .. }) => Ok(None),
            Err(LoadFault::Memory) => Err(AllocError),
        }
    }

    /// Behind the rows of a VARCHAR column, by the mark of the last one.
    fn of_mark(alloc: Global, rows: u64, mark: &[u8]) -> Result<Option<Tail<D>>, Memory>
        ensures tail { (aux : List ℕ) (column : CellsOf) → column.kind ≡ kind.Varchar → length column.cells ≡ rows → HoldsTail kind.Varchar mark.now aux column → IfOk result (λ t. t ≡ Some (behind column)) }
    {
        if rows == 0 {
            return Ok(Some(Tail::of_end(alloc, 0)?));
        }
        if mark.len() < 8 {
            return Ok(None);
        }
        Ok(Some(Tail::of_end(alloc, text_end(mark))?))
    }

    /// Behind rows that have named the texts of a dictionary.
    fn of_texts(alloc: Global, dictionary: &D) -> Result<Tail<D>, Memory>
        requires short { All (λ t. length t ≤ MAX_TEXT_BYTES) (D.texts dictionary.now) }
        ensures tail { IfOk result (λ t. t ≡ record { texts = D.texts dictionary.now; end = 0 }) }
    {
        Ok(Tail {
            texts: copied(alloc, dictionary)?,
            end: 0,
        })
    }

    /// Behind rows whose texts take so many bytes.
    fn of_end(alloc: Global, end: u64) -> Result<Tail<D>, Memory>
        ensures tail { IfOk result (λ t. t ≡ record { texts = []; end = end }) }
    {
        Ok(Tail {
            texts: D::new(alloc)?,
            end,
        })
    }

    /// The same, copied. It costs time and memory linear in the texts of a SYMBOL column.
    pub fn copy(&self, alloc: Global) -> Result<Tail<D>, Memory>
        ensures same { IfOk result (λ t. t ≡ self.now) }
    {
        Ok(Tail {
            texts: copied(alloc, &self.texts)?,
            end: self.end,
        })
    }

    /// Gives how many texts a SYMBOL column has named, in constant time.
    pub fn texts(&self) -> u64
        ensures count { result ≡ length self.now.texts }
    {
        self.texts.len()
    }

    /// Gives what rows add to the two files of a column behind its first `from` rows, and goes on behind them: behind the
    /// bytes of the rows before they are the bytes of all rows. It costs time and memory linear in these rows and their
    /// bytes, and in a SYMBOL column time linear in the texts named before.
    ///
    /// Want of memory is the only error, also for a place that no file has. It is of no further use then.
    pub fn added(
        &mut self,
        alloc: Global,
        from: u64,
        rows: &Column<D>,
    ) -> Result<ColumnBytes, Memory>
        ensures added { (first : CellsOf) → first.kind ≡ rows.now.kind → length first.cells ≡ from → SpellsItself first → self.old ≡ behind first → IfOk result (GoesFurther first rows.now.cells self.new) }
    {
        match rows.kind() {
            ColType::Long => longs_behind(alloc, from, rows.longs()),
            ColType::Bool => truths_behind(alloc, from, rows.truths()),
            ColType::Time => times_behind(alloc, from, rows.times()),
            ColType::Symbol => symbols_behind(
                alloc,
                &mut self.texts,
                from,
                rows.symbols(),
                rows.dictionary(),
            ),
            ColType::Varchar => {
                let (marks, bytes) = rows.marks_and_bytes();
                let added = texts_behind(alloc, self.end, from, marks, bytes)?;
                self.end += last_end(marks);
                Ok(added)
            }
        }
    }
}

/// Copies a dictionary.
fn copied<D: Dictionary>(alloc: Global, dictionary: &D) -> Result<D, Memory>
    requires short { All (λ t. length t ≤ MAX_TEXT_BYTES) (D.texts dictionary.now) }
    ensures same { IfOk result (λ d. D.texts d ≡ D.texts dictionary.now) }
{
    let mut texts = D::new(alloc)?;
    for id in 0..dictionary.len() {
        let _id = texts.intern(dictionary.text_of(id))?;
    }
    Ok(texts)
}

/// Where the bytes of a row begin in a main file, 8 bytes a row.
fn place_of(from: u64) -> Result<u64, Memory>
    ensures place { IfOk result (λ at. at ≡ from * 8) }
    ensures few { OnOk result (from < 2 ^ 60) }
{
    if MAX_STORED <= from {
        return Err(AllocError);
    }
    Ok(8 * from)
}

/// Rows of a LONG column.
fn longs_behind(alloc: Global, from: u64, longs: &[i64]) -> Result<ColumnBytes, Memory>
    ensures added { (first : List Cell) → length first ≡ from → SpellsItself (column_of kind.Long first) → IfOk result (AddsBehind kind.Long first (map long_cell longs.now)) }
{
    are_longs(longs);
    let at = place_of(from)?;
    let main = bytes_of_longs(alloc, longs)?;
    Ok(plain(alloc, main, at))
}

/// Rows of a TIMESTAMP column.
fn times_behind(alloc: Global, from: u64, times: &[u64]) -> Result<ColumnBytes, Memory>
    ensures added { (first : List Cell) → length first ≡ from → SpellsItself (column_of kind.Time first) → IfOk result (AddsBehind kind.Time first (map time_cell times.now)) }
{
    let at = place_of(from)?;
    let main = bytes_of_words(alloc, times)?;
    Ok(plain(alloc, main, at))
}

/// Rows of a BOOLEAN column.
fn truths_behind(alloc: Global, from: u64, truths: &[bool]) -> Result<ColumnBytes, Memory>
    ensures added { (first : List Cell) → length first ≡ from → SpellsItself (column_of kind.Bool first) → IfOk result (AddsBehind kind.Bool first (map (λ b. cell.Bool b) truths.now)) }
{
    let _at = place_of(from)?;
    if MAX_STORED as usize <= truths.len() {
        return Err(AllocError);
    }
    let main = bytes_of_truths(alloc, truths)?;
    Ok(plain(alloc, main, from))
}

/// Rows of a SYMBOL column behind those that have named some texts, which they go on naming.
fn symbols_behind<D: Dictionary>(
    alloc: Global,
    texts: &mut D,
    from: u64,
    ids: &[u64],
    dictionary: &D,
) -> Result<ColumnBytes, Memory>
    requires known { AreSymbols (D.texts dictionary.now) ids.now }
    requires short { All (λ t. length t ≤ MAX_TEXT_BYTES) (D.texts texts.old) }
    ensures short { All (λ t. length t ≤ MAX_TEXT_BYTES) (D.texts texts.new) }
    ensures texts { OnOk result (D.texts texts.new ≡ with_texts (D.texts texts.old) (D.texts dictionary.now)) }
    ensures added { (first : List Cell) → length first ≡ from → SpellsItself (column_of kind.Symbol first) → D.texts texts.old ≡ texts_in first → IfOk result (AddsBehind kind.Symbol first (map (symbol_cell (D.texts dictionary.now)) ids.now)) }
{
    let at = place_of(from)?;
    let before = texts.len();
    let aux_at = size_before(texts, before)?;
    let names = named_anew(alloc, texts, dictionary)?;
    let ids = ids_anew(alloc, names.as_slice(), ids)?;
    let main = bytes_of_words(alloc, ids.as_slice())?;
    let aux = encode_from(alloc, texts, before)?;
    Ok(ColumnBytes {
        main: Txt::from_vec(main),
        main_at: at,
        aux,
        aux_at,
    })
}

/// Names the texts of a dictionary in another one, and gives the ids that they have there.
fn named_anew<D: Dictionary>(
    alloc: Global,
    texts: &mut D,
    dictionary: &D,
) -> Result<Vec<u64>, Memory>
    requires short { All (λ t. length t ≤ MAX_TEXT_BYTES) (D.texts texts.old) }
    requires all_short { All (λ t. length t ≤ MAX_TEXT_BYTES) (D.texts dictionary.now) }
    ensures short { All (λ t. length t ≤ MAX_TEXT_BYTES) (D.texts texts.new) }
    ensures texts { OnOk result (D.texts texts.new ≡ with_texts (D.texts texts.old) (D.texts dictionary.now)) }
    ensures names { IfOk result (λ v. v.items ≡ map (id_for (D.texts texts.new)) (D.texts dictionary.now)) }
{
    let mut names = Vec::new(alloc);
    for id in 0..dictionary.len() {
        names.push(texts.intern(dictionary.text_of(id))?)?;
    }
    Ok(names)
}

/// Ids by the names that their texts have elsewhere; NULL stays.
fn ids_anew(alloc: Global, names: &[u64], ids: &[u64]) -> Result<Vec<u64>, Memory>
    requires each { All (λ id. (id ≡ null) ⊎ (id < length names.now)) ids.now }
    ensures ids { IfOk result (λ v. v.items ≡ map (id_anew names.now) ids.now) }
{
    let mut anew = Vec::with_capacity(alloc, ids.len())?;
    for id in ids {
        anew.push(name_of(names, *id))?;
    }
    Ok(anew)
}

/// The id by which a text is known elsewhere; NULL stays.
fn name_of(names: &[u64], id: u64) -> u64
    requires known { (id ≡ null) ⊎ (id < length names.now) }
    ensures name { result ≡ id_anew names.now id }
{
    if id == NULL_ID {
        NULL_ID
    } else {
        names[id as usize]
    }
}

/// Rows of a VARCHAR column behind those whose texts take so many bytes.
fn texts_behind(
    alloc: Global,
    end: u64,
    from: u64,
    marks: &[u64],
    bytes: &[u8],
) -> Result<ColumnBytes, Memory>
    requires tiled { Tile 0 marks.now (length bytes.now) }
    ensures room { OnOk result (end + length bytes.now < 2 ^ 62) }
    ensures added { (first : List Cell) → length first ≡ from → SpellsItself (column_of kind.Varchar first) → length (flat_map text_bytes first) ≡ end → IfOk result (AddsBehind kind.Varchar first (cells_from bytes.now 0 marks.now)) }
{
    let at = place_of(from)?;
    if MAX_STORED <= end || MAX_STORED as usize <= bytes.len() {
        return Err(AllocError);
    }
    let moved = moved_marks(alloc, end, marks)?;
    let main = bytes_of_words(alloc, moved.as_slice())?;
    let aux = Vec::from_slice(alloc, bytes)?;
    Ok(ColumnBytes {
        main: Txt::from_vec(main),
        main_at: at,
        aux: Txt::from_vec(aux),
        aux_at: end,
    })
}

/// Marks of texts that stand behind so many bytes.
fn moved_marks(alloc: Global, end: u64, marks: &[u64]) -> Result<Vec<u64>, Memory>
    requires room { end < 2 ^ 60 }
    requires small { All (λ m. m < 2 ^ 62) marks.now }
    ensures marks { IfOk result (λ v. v.items ≡ map (λ m. m + 2 * end) marks.now) }
{
    let mut moved = Vec::with_capacity(alloc, marks.len())?;
    for mark in marks {
        moved.push(*mark + 2 * end)?;
    }
    Ok(moved)
}
