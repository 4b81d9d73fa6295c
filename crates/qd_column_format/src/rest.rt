//! The rows of stored columns from one on.
ghost use Rattle.std.specs.Prelude.{◌≡◌, ℕ, ◌+◌, ◌*◌, ◌^◌, ◌<◌, ◌≤◌, Some, length, map, All, IfOk, IfSome, IfNone, SomeIndex, slice_index};
ghost use Rattle.qd_base.specs.declared.schema.ColType.TheVariants as kind;
ghost use Rattle.qd_base.specs.Dictionary.{AreDistinct};
ghost use Rattle.qd_column.specs.Cells.{CellsOf};
ghost use Rattle.qd_column.specs.Symbols.{symbol_cell};
ghost use Rattle.qd_column_format.specs.Added.{column_of};
ghost use Rattle.qd_column_format.specs.Fields.{named};
ghost use Rattle.qd_column_format.specs.Rests.{rows_from, texts_from, HoldsMark, HoldsRest, IsHeldRest};
ghost use Rattle.qd_column_format.specs.Spelling.{SpellsColumn};

use crate::decode::decode_column;
use crate::dictionary::load;
use crate::fault::{ColumnFault, LoadFault};
use crate::laws::{one_column_is_spelled, one_dictionary_is_spelled};
use crate::numbers::named_by;
use crate::words::{bytes_of_words, words_in};
use byteorder::{ByteOrder, LittleEndian};
use qd_base::{ColType, Dictionary, MAX_TEXT_BYTES, Memory};
use qd_column::Column;
use std::alloc::{AllocError, Global};

/// Makes the rows of a stored column from one on, without those before. `main` has the numbers of these rows, as they stand
/// in the main file; `aux` has, for a SYMBOL column, the second file, and for a VARCHAR column its bytes from `start` on, where
/// the texts of the rows before end. What follows the rows and their texts is of no account.
///
/// `None` says that these are the bytes of no column; what is given are rows of one whose bytes they are. It costs time and
/// memory linear in the rows and their texts, and for a SYMBOL column in the texts that are named up to the last that one of
/// these rows has; no memory is taken for rows and texts whose bytes aren't there. Want of memory is the only error.
pub fn decode_rest<D: Dictionary>(
    alloc: Global,
    kind: ColType,
    rows: u64,
    start: u64,
    main: &[u8],
    aux: &[u8],
) -> Result<Option<Column<D>>, Memory>
    ensures kind { IfOk result (λ rest. IfSome rest (λ column. column.kind ≡ kind)) }
    ensures rows { IfOk result (λ rest. IfSome rest (λ column. length column.cells ≡ rows)) }
    ensures held { 0 < rows → IfOk result (λ rest. IfSome rest (λ column. IsHeldRest start main.now aux.now column)) }
    ensures rest { (skip : ℕ) (whole : CellsOf) → whole.kind ≡ kind → length whole.cells ≡ skip + rows → HoldsRest skip start main.now aux.now whole → IfOk result (λ rest. rest ≡ Some (rows_from skip whole)) }
{
    match kind {
        ColType::Symbol => symbols_from(alloc, rows, main, aux),
        ColType::Varchar => texts_from(alloc, rows, start, main, aux),
        _ => spelled_column(alloc, kind, rows, main, aux),
    }
}

/// Where the texts of VARCHAR rows end in the second file, by the mark of the last of them: its bytes, as they stand in the
/// main file. It costs constant time.
pub fn text_end(mark: &[u8]) -> u64
    ensures end { (skip : ℕ) (column : CellsOf) → HoldsMark skip mark.now column → result ≡ texts_from skip column }
{
    if mark.len() < 8 {
        return 0;
    }
    LittleEndian::read_u64(mark) / 2
}

/// The column that bytes spell, where they spell one.
fn spelled_column<D: Dictionary>(
    alloc: Global,
    kind: ColType,
    rows: u64,
    main: &[u8],
    aux: &[u8],
) -> Result<Option<Column<D>>, Memory>
    ensures kind { IfOk result (λ r. IfSome r (λ column. column.kind ≡ kind)) }
    ensures rows { IfOk result (λ r. IfSome r (λ column. length column.cells ≡ rows)) }
    ensures spelled { IfOk result (λ r. IfSome r (λ column. SpellsColumn main.now aux.now column)) }
    ensures all { (column : CellsOf) → column.kind ≡ kind → length column.cells ≡ rows → SpellsColumn main.now aux.now column → IfOk result (λ r. r ≡ Some column) }
{
    // So that it is the one that they spell.
    one_column_is_spelled();
    match decode_column(alloc, kind, rows, main, aux) {
        Ok(column) => Ok(Some(column)),
        Err(ColumnFault::Damaged { .. }) => Ok(None),
        Err(ColumnFault::Memory) => Err(AllocError),
    }
}

/// Rows of a VARCHAR column: their marks are moved back by the texts before, so that they and their texts are a column alone.
fn texts_from<D: Dictionary>(
    alloc: Global,
    rows: u64,
    start: u64,
    main: &[u8],
    aux: &[u8],
) -> Result<Option<Column<D>>, Memory>
    ensures kind { IfOk result (λ rest. IfSome rest (λ column. column.kind ≡ kind.Varchar)) }
    ensures rows { IfOk result (λ rest. IfSome rest (λ column. length column.cells ≡ rows)) }
    ensures held { 0 < rows → IfOk result (λ rest. IfSome rest (λ column. IsHeldRest start main.now aux.now column)) }
    ensures rest { (skip : ℕ) (whole : CellsOf) → whole.kind ≡ kind.Varchar → length whole.cells ≡ skip + rows → HoldsRest skip start main.now aux.now whole → IfOk result (λ rest. rest ≡ Some (rows_from skip whole)) }
{
    if ((main.len() / 8) as u64) < rows {
        return Ok(None);
    }
    let marks = words_in(alloc, rows as usize, main)?;
    let moved = match moved_back(alloc, start, marks.as_slice())? {
        Some(moved) => moved,
        None => return Ok(None),
    };
    let own = bytes_of_words(alloc, moved.as_slice())?;
    spelled_column(alloc, ColType::Varchar, rows, own.as_slice(), aux)
}

/// Marks of texts that stand behind so many bytes, as they are without those; `None` where one of them stands before.
fn moved_back(alloc: Global, start: u64, marks: &[u64]) -> Result<Option<Vec<u64>>, Memory>
    ensures moved { IfOk result (λ r. IfSome r (λ v. map (λ m. m + 2 * start) v.items ≡ marks.now)) }
    ensures before { IfOk result (λ r. IfNone r (SomeIndex marks.now (λ k. slice_index marks.now k < 2 * start))) }
{
    let mut moved = Vec::with_capacity(alloc, marks.len())?;
    for mark in marks {
        if *mark / 2 < start {
            return Ok(None);
        }
        moved.push(*mark - 2 * start)?;
    }
    Ok(Some(moved))
}

/// Rows of a SYMBOL column.
fn symbols_from<D: Dictionary>(
    alloc: Global,
    rows: u64,
    main: &[u8],
    aux: &[u8],
) -> Result<Option<Column<D>>, Memory>
    ensures kind { IfOk result (λ rest. IfSome rest (λ column. column.kind ≡ kind.Symbol)) }
    ensures rows { IfOk result (λ rest. IfSome rest (λ column. length column.cells ≡ rows)) }
    ensures held { (start : ℕ) → IfOk result (λ rest. IfSome rest (λ column. IsHeldRest start main.now aux.now column)) }
    ensures rest { (skip start : ℕ) (whole : CellsOf) → whole.kind ≡ kind.Symbol → length whole.cells ≡ skip + rows → HoldsRest skip start main.now aux.now whole → IfOk result (λ rest. rest ≡ Some (rows_from skip whole)) }
{
    if ((main.len() / 8) as u64) < rows {
        return Ok(None);
    }
    let ids = words_in(alloc, rows as usize, main)?;
    let count = named_by(ids.as_slice());
    if ((aux.len() / 2) as u64) < count {
        return Ok(None);
    }
    // So that the texts are those of the whole column.
    one_dictionary_is_spelled();
    match load(alloc, aux, count) {
        Ok(dictionary) => Ok(Some(symbols_by(alloc, count, ids.as_slice(), dictionary)?)),
        Err(LoadFault::Damaged { .. }) => Ok(None),
        Err(LoadFault::Memory) => Err(AllocError),
    }
}

/// The rows of ids that name texts of a dictionary, not all of them in order: they stand behind rows that name each one.
fn symbols_by<D: Dictionary>(
    alloc: Global,
    count: u64,
    ids: &[u64],
    dictionary: D,
) -> Result<Column<D>, Memory>
    requires count { count ≡ named ids.now }
    requires few { count < 2 ^ 62 }
    requires all { length (D.texts dictionary) ≡ count }
    requires distinct { AreDistinct (D.texts dictionary) }
    requires short { All (λ t. length t ≤ MAX_TEXT_BYTES) (D.texts dictionary) }
    ensures column { IfOk result (λ column. column ≡ column_of kind.Symbol (map (symbol_cell (D.texts dictionary)) ids.now)) }
{
    let mut all = Vec::with_capacity(alloc, count as usize + ids.len())?;
    for id in 0..count {
        all.push(id)?;
    }
    all.extend_from_slice(ids)?;
    let whole = Column::of_symbols(all, dictionary);
    whole.part(alloc, count as usize, count as usize + ids.len())
}
