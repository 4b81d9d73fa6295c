//! Columns read from the bytes of their two files.
ghost use Rattle.std.specs.Prelude.{◌≡◌, ℕ, ◌*◌, ◌^◌, ◌<◌, ◌≤◌, List, length, IfOk, IfErr, OnOk};
ghost use Rattle.qd_base.specs.declared.schema.ColType.TheVariants as kind;
ghost use Rattle.qd_column_format.specs.declared.fault.ColumnFault.TheVariants as fault;
ghost use Rattle.qd_column_format.specs.Spelling.{SpellsColumn};
ghost use Rattle.qd_column_format.specs.Reading.{AreThere, IsReadColumn, IsFault, IsUnspelled};

use crate::dictionary::load;
use crate::fault::{AUX, ColumnFault, LoadFault, MAIN};
use crate::numbers::{last_end, names_in_order, odd_mark};
use crate::words::{longs_in, words_in};
use qd_base::{ColType, Dictionary};
use qd_column::Column;
use std::alloc::Global;

/// Makes the column that the bytes of two files spell, of some rows; what follows those is of no account. It is refused
/// exactly where they spell none: at the first byte of the first field that breaks the layout, or at the length of the
/// file where bytes are missing, the main file being read before the second one.
///
/// It costs time linear in the bytes that it takes. Memory is taken once for the rows and once for the texts of a VARCHAR
/// column, after the bytes were found to be there; a SYMBOL column has a dictionary beside that.
pub fn decode_column<D: Dictionary>(
    alloc: Global,
    kind: ColType,
    rows: u64,
    main: &[u8],
    aux: &[u8],
) -> Result<Column<D>, ColumnFault>
    ensures kind { IfOk result (λ column. column.kind ≡ kind) }
    ensures rows { IfOk result (λ column. length column.cells ≡ rows) }
    ensures spelled { IfOk result (λ column. SpellsColumn main.now aux.now column) }
    ensures damaged { IfErr result (λ e. IsFault kind rows main.now aux.now e) }
    ensures unspelled { IfErr result (λ e. IsUnspelled kind rows main.now aux.now e) }
{
    match kind {
        ColType::Long => decode_longs(alloc, rows, main),
        ColType::Bool => decode_truths(alloc, rows, main),
        ColType::Symbol => decode_symbols(alloc, rows, main, aux),
        ColType::Varchar => decode_texts(alloc, rows, main, aux),
        ColType::Time => decode_times(alloc, rows, main),
    }
}

/// The answer where bytes are missing from the main file.
fn cut_main(main: &[u8]) -> ColumnFault
    ensures damage { result ≡ fault.Damaged 0 (length main.now) }
{
    ColumnFault::Damaged {
        half: MAIN,
        at: main.len() as u64,
    }
}

/// The number of rows, where the main file has 8 bytes for each of them.
fn whole_rows(rows: u64, main: &[u8]) -> Result<usize, ColumnFault>
    ensures rows { IfOk result (λ n. n ≡ rows) }
    ensures there { OnOk result (8 * rows ≤ length main.now) }
    ensures long { IfErr result (λ e. (aux : List ℕ) → IsFault kind.Long rows main.now aux e) }
    ensures time { IfErr result (λ e. (aux : List ℕ) → IsFault kind.Time rows main.now aux e) }
{
    let there = (main.len() / 8) as u64;
    if there < rows {
        return Err(cut_main(main));
    }
    Ok(rows as usize)
}

/// The numbers of the rows that the main file has 8 bytes for.
fn words_there(alloc: Global, rows: u64, main: &[u8]) -> Result<Vec<u64>, ColumnFault>
    ensures ids { IfOk result (λ v. AreThere kind.Symbol rows main.now v.items) }
    ensures marks { IfOk result (λ v. AreThere kind.Varchar rows main.now v.items) }
    ensures memory { IfErr result (λ e. e ≡ fault.Memory) }
{
    let count = rows.min((main.len() / 8) as u64) as usize;
    let words = words_in(alloc, count, main)?;
    Ok(words)
}

/// A LONG column.
fn decode_longs<D: Dictionary>(
    alloc: Global,
    rows: u64,
    main: &[u8],
) -> Result<Column<D>, ColumnFault>
    ensures ok { IfOk result (λ column. (aux : List ℕ) → IsReadColumn kind.Long rows main.now aux column) }
    ensures err { IfErr result (λ e. (aux : List ℕ) → IsFault kind.Long rows main.now aux e) }
{
    let count = whole_rows(rows, main)?;
    let longs = longs_in(alloc, count, main)?;
    Ok(Column::of_longs(longs))
}

/// A TIMESTAMP column.
fn decode_times<D: Dictionary>(
    alloc: Global,
    rows: u64,
    main: &[u8],
) -> Result<Column<D>, ColumnFault>
    ensures ok { IfOk result (λ column. (aux : List ℕ) → IsReadColumn kind.Time rows main.now aux column) }
    ensures err { IfErr result (λ e. (aux : List ℕ) → IsFault kind.Time rows main.now aux e) }
{
    let count = whole_rows(rows, main)?;
    let times = words_in(alloc, count, main)?;
    Ok(Column::of_times(times))
}

/// A BOOLEAN column.
fn decode_truths<D: Dictionary>(
    alloc: Global,
    rows: u64,
    main: &[u8],
) -> Result<Column<D>, ColumnFault>
    ensures ok { IfOk result (λ column. (aux : List ℕ) → IsReadColumn kind.Bool rows main.now aux column) }
    ensures err { IfErr result (λ e. (aux : List ℕ) → IsFault kind.Bool rows main.now aux e) }
{
    let count = rows.min(main.len() as u64) as usize;
    let mut truths = Vec::with_capacity(alloc, count)?;
    for at in 0..count {
        let byte = main[at];
        if 1 < byte {
            return Err(ColumnFault::Damaged {
                half: MAIN,
                at: at as u64,
            });
        }
        truths.push(byte == 1)?;
    }
    if (count as u64) < rows {
        return Err(cut_main(main));
    }
    Ok(Column::of_truths(truths))
}

/// A SYMBOL column.
fn decode_symbols<D: Dictionary>(
    alloc: Global,
    rows: u64,
    main: &[u8],
    aux: &[u8],
) -> Result<Column<D>, ColumnFault>
    ensures ok { IfOk result (λ column. IsReadColumn kind.Symbol rows main.now aux.now column) }
    ensures err { IfErr result (λ e. IsFault kind.Symbol rows main.now aux.now e) }
{
    let ids = words_there(alloc, rows, main)?;
    symbols_of(alloc, rows, ids, main, aux)
}

/// The column of the ids of the rows that the main file has 8 bytes for.
fn symbols_of<D: Dictionary>(
    alloc: Global,
    rows: u64,
    ids: Vec<u64>,
    main: &[u8],
    aux: &[u8],
) -> Result<Column<D>, ColumnFault>
    requires there { AreThere kind.Symbol rows main.now ids.items }
    ensures ok { IfOk result (λ column. IsReadColumn kind.Symbol rows main.now aux.now column) }
    ensures err { IfErr result (λ e. IsFault kind.Symbol rows main.now aux.now e) }
{
    let named = match names_in_order(ids.as_slice()) {
        Ok(named) => named,
        Err(row) => return Err(broken_at(row)),
    };
    if (ids.len() as u64) < rows {
        return Err(cut_main(main));
    }
    match load(alloc, aux, named) {
        Ok(dictionary) => Ok(Column::of_symbols(ids, dictionary)),
        Err(LoadFault::Damaged { at }) => Err(ColumnFault::Damaged { half: AUX, at }),
        Err(LoadFault::Memory) => Err(ColumnFault::Memory),
    }
}

/// A VARCHAR column.
fn decode_texts<D: Dictionary>(
    alloc: Global,
    rows: u64,
    main: &[u8],
    aux: &[u8],
) -> Result<Column<D>, ColumnFault>
    ensures ok { IfOk result (λ column. IsReadColumn kind.Varchar rows main.now aux.now column) }
    ensures err { IfErr result (λ e. IsFault kind.Varchar rows main.now aux.now e) }
{
    let marks = words_there(alloc, rows, main)?;
    texts_of(alloc, rows, marks, main, aux)
}

/// The column of the marks of the rows that the main file has 8 bytes for.
fn texts_of<D: Dictionary>(
    alloc: Global,
    rows: u64,
    marks: Vec<u64>,
    main: &[u8],
    aux: &[u8],
) -> Result<Column<D>, ColumnFault>
    requires there { AreThere kind.Varchar rows main.now marks.items }
    ensures ok { IfOk result (λ column. IsReadColumn kind.Varchar rows main.now aux.now column) }
    ensures err { IfErr result (λ e. IsFault kind.Varchar rows main.now aux.now e) }
{
    if let Some(row) = odd_mark(marks.as_slice()) {
        return Err(broken_at(row));
    }
    if (marks.len() as u64) < rows {
        return Err(cut_main(main));
    }
    let end = last_end(marks.as_slice());
    if (aux.len() as u64) < end {
        return Err(ColumnFault::Damaged {
            half: AUX,
            at: aux.len() as u64,
        });
    }
    let bytes = Vec::from_slice(alloc, &aux[..end as usize])?;
    Ok(Column::of_texts(marks, bytes))
}

/// The answer where the number of a row breaks the rules.
fn broken_at(row: usize) -> ColumnFault
    requires small { 8 * row < 2 ^ 64 }
    ensures damage { result ≡ fault.Damaged 0 (8 * row) }
{
    ColumnFault::Damaged {
        half: MAIN,
        at: 8 * row as u64,
    }
}
