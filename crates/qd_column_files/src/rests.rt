//! The rows of a part's block from one on, read from its files without those before.
ghost use Rattle.qd_base.specs.Lawful.{IsSchema, Takes};
ghost use Rattle.qd_base.specs.declared.limits.TheConstants.{MAX_TIME};
ghost use Rattle.qd_base.specs.declared.schema.ColType.TheVariants as kind;
ghost use Rattle.qd_block.specs.Blocks.{block_of, Block as BlockOf, IsWhole};
ghost use Rattle.qd_column.specs.Cells.{CellsOf};
ghost use Rattle.qd_column_files.specs.Columns.{is_designated, time_at, AreTimely};
ghost use Rattle.qd_column_files.specs.Files.{column_file};
ghost use Rattle.qd_column_files.specs.Reading.{IsColumnGiven, IsColumnRead, IsFitColumn};
ghost use Rattle.qd_column_files.specs.Rests.{AreRestsGiven, AreRestsIn, AreTimedRests, IsAuxRestGiven, IsAuxRestRead, IsColumnRest, IsFitRest, IsGivenRest, IsPartRead, IsRestGiven, IsRestIn, IsRestOf, IsRestRead, IsStartRead, IsTimedRest};
ghost use Rattle.qd_column_format.specs.Rests.{rows_from, HoldsRest, IsHeldRest};
ghost use Rattle.qd_durable.specs.Faults.{CountsVol};
ghost use Rattle.qd_io.specs.Ends.{Counts};
ghost use Rattle.qd_manifest.specs.Spelling.{IsPart};
ghost use Rattle.qd_volume.specs.Disk.{reads_of};
ghost use Rattle.std.specs.Prelude.{◌≡◌, ℕ, ◌+◌, ◌-◌, ◌^◌, ◌<◌, ◌≤◌, false, Some, Err, length, All, IfNone, IfOk, IfSome};

use crate::files::column_file;
use crate::reading::{read_block, read_column, row_size};
use crate::times::first_untimely;
use qd_base::{ColType, Memory, Part, Schema};
use qd_block::Block;
use qd_column::Column;
use qd_column_format::{AUX, ColumnList, MAIN, decode_rest, from_columns, text_end};
use qd_durable::LogFault;
use qd_io::IoFault;
use qd_symbols::SymbolMap;
use qd_volume::Volume;
use std::alloc::Global;

/// Reads the designated times of a part from its files. It costs two calls of the volume, and time and memory linear in the
/// part's rows. Where the files are damaged, it is as [`read_block`] says of this column; what the volume holds stays as it was.
pub fn read_times<V: Volume>(
    alloc: Global,
    volume: &mut V,
    schema: &Schema,
    part: Part,
) -> Result<Column<SymbolMap>, LogFault>
    requires schema { IsSchema schema.now }
    requires part { IsPart schema.now part }
    requires block { part.block < 2 ^ 52 }
    ensures given { IfOk result (λ times. IsColumnGiven V.gives part.block schema.now.time_col times) }
    ensures told { IfSome (V.storage volume.old).disk (λ disk. IsColumnRead result schema.now part schema.now.time_col (reads_of disk (column_file part.block schema.now.time_col 0)) (reads_of disk (column_file part.block schema.now.time_col 1))) }
    ensures fit { IfOk result (λ times. IsFitColumn schema.now part schema.now.time_col times) }
    ensures stays { (V.storage volume.new).disk ≡ (V.storage volume.old).disk }

    // The count of faults rises exactly where `Vol` is answered.
    ensures counted { CountsVol (V.storage volume.old).faults (V.storage volume.new).faults result }
{
    read_column(alloc, volume, schema, part, schema.time_col)
}

/// Reads the rows of a part's block from row `skip` on, beside its designated times, which [`read_times`] gave. The rows before
/// stay unread: it costs, for each other column, two calls of the volume, two more for one of texts and one more for a VARCHAR
/// column, and time and memory linear in the bytes of these rows, in the texts of a SYMBOL column, and in what the second file of
/// a VARCHAR column has behind the texts of the rows before; no memory is taken for bytes that aren't there.
///
/// Where the files give no such rows, the whole block is read, and the damage that [`read_block`] finds is the answer: it is in
/// the first column that is damaged, also in the rows before. Damage of those alone may go unseen. What the volume holds stays
/// as it was; where it gives other bytes the second time, and no damage, want of memory is answered.
///
/// What is answered was read: where the volume gives fewer bytes, whatever it tells, none are taken in their place.
pub fn read_rest<V: Volume>(
    alloc: Global,
    volume: &mut V,
    schema: &Schema,
    part: Part,
    times: &Column<SymbolMap>,
    skip: u64,
) -> Result<Block<SymbolMap>, LogFault>
    requires schema { IsSchema schema.now }
    requires part { IsPart schema.now part }
    requires block { part.block < 2 ^ 52 }
    requires times { IsFitColumn schema.now part schema.now.time_col times.now }
    requires skip { skip ≤ part.rows }
    ensures given { IfOk result (λ b. IsGivenRest V.gives schema.now part skip b) }
    ensures told { IfSome (V.storage volume.old).disk (λ disk. IsRestRead result schema.now part times.now skip (reads_of disk)) }
    ensures rest { IfOk result (λ b. IsRestOf schema.now part times.now skip b) }
    ensures whole { IfOk result (λ b. IsWhole b) }
    ensures stays { (V.storage volume.new).disk ≡ (V.storage volume.old).disk }

    // The count of faults rises exactly where `Vol` is answered.
    ensures counted { CountsVol (V.storage volume.old).faults (V.storage volume.new).faults result }
{
    match rest_columns(alloc, volume, schema, part, times, skip)? {
        Some(columns) => Ok(block_beside(alloc, columns, schema, part, times, skip)),
        None => Err(damage_of(alloc, volume, schema, part)),
    }
}

/// Where the files of a part's block are damaged; want of memory where they aren't.
fn damage_of<V: Volume>(alloc: Global, volume: &mut V, schema: &Schema, part: Part) -> LogFault
    requires schema { IsSchema schema.now }
    requires part { IsPart schema.now part }
    requires block { part.block < 2 ^ 52 }
    ensures told { (times : CellsOf) (skip : ℕ) → IfSome (V.storage volume.old).disk (λ disk. IsRestRead (Err result) schema.now part times skip (reads_of disk)) }
    ensures stays { (V.storage volume.new).disk ≡ (V.storage volume.old).disk }
    ensures counted { CountsVol {T = BlockOf} (V.storage volume.old).faults (V.storage volume.new).faults (Err result) }
{
    match read_block(alloc, volume, schema, part) {
        Ok(_) => LogFault::Memory,
        Err(fault) => fault,
    }
}

/// The block of rows of a part's columns from one on.
fn block_beside(
    alloc: Global,
    columns: ColumnList<SymbolMap>,
    schema: &Schema,
    part: Part,
    times: &Column<SymbolMap>,
    skip: u64,
) -> Block<SymbolMap>
    requires schema { IsSchema schema.now }
    requires part { IsPart schema.now part }
    requires times { IsFitColumn schema.now part schema.now.time_col times.now }
    requires skip { skip ≤ part.rows }
    requires all { length columns ≡ part.cols }
    requires columns { AreTimedRests schema.now part times.now skip columns }
    ensures made { result ≡ block_of (part.rows - skip) schema.now.time_col columns }
    ensures rest { IsRestOf schema.now part times.now skip result }
    ensures whole { IsWhole result }
{
    match from_columns(alloc, columns, schema.time_col) {
        Ok(block) => {
            block.is_whole();
            block
        }
        Err(_) => unreachable!(),
    }
}

/// Reads the rows of each shown column from one on; `None` where the files hold no block that is the part's, with these times.
fn rest_columns<V: Volume>(
    alloc: Global,
    volume: &mut V,
    schema: &Schema,
    part: Part,
    times: &Column<SymbolMap>,
    skip: u64,
) -> Result<Option<ColumnList<SymbolMap>>, IoFault>
    requires schema { IsSchema schema.now }
    requires part { IsPart schema.now part }
    requires block { part.block < 2 ^ 52 }
    requires times { IsFitColumn schema.now part schema.now.time_col times.now }
    requires skip { skip ≤ part.rows }
    ensures given { IfOk result (λ o. IfSome o (λ columns. AreRestsGiven V.gives schema.now part.block skip columns)) }
    ensures told { IfSome (V.storage volume.old).disk (λ disk. AreRestsIn result schema.now part times.now skip (reads_of disk)) }
    ensures all { IfOk result (λ o. IfSome o (λ columns. length columns ≡ part.cols)) }
    ensures each { IfOk result (λ o. IfSome o (λ columns. AreTimedRests schema.now part times.now skip columns)) }
    ensures stays { (V.storage volume.new).disk ≡ (V.storage volume.old).disk }
    ensures counted { Counts (V.storage volume.old).faults (V.storage volume.new).faults result }
{
    let mut columns = ColumnList::new(alloc);
    for col in 0..part.cols {
        match rest_of(alloc, volume, schema, part, times, col, skip)? {
            Some(column) => columns.push(column)?,
            None => return Ok(None),
        }
    }
    Ok(Some(columns))
}

/// The rows of one column from one on: of the designated times, which are known, or read from its files.
fn rest_of<V: Volume>(
    alloc: Global,
    volume: &mut V,
    schema: &Schema,
    part: Part,
    times: &Column<SymbolMap>,
    col: u32,
    skip: u64,
) -> Result<Option<Column<SymbolMap>>, IoFault>
    requires schema { IsSchema schema.now }
    requires part { IsPart schema.now part }
    requires block { part.block < 2 ^ 52 }
    requires times { IsFitColumn schema.now part schema.now.time_col times.now }
    requires col { col < part.cols }
    requires skip { skip ≤ part.rows }
    ensures given { IfOk result (λ rest. IfSome rest (λ column. is_designated schema.now col ≡ false → 0 < length column.cells → IsRestGiven V.gives part.block col skip column)) }
    ensures told { IfSome (V.storage volume.old).disk (λ disk. IsRestIn result schema.now part times.now skip col (reads_of disk)) }
    ensures fit { IfOk result (λ rest. IfSome rest (λ column. IsTimedRest schema.now part times.now skip col column)) }
    ensures stays { (V.storage volume.new).disk ≡ (V.storage volume.old).disk }
    ensures counted { Counts (V.storage volume.old).faults (V.storage volume.new).faults result }
{
    if col == schema.time_col {
        Ok(Some(times.part(alloc, skip as usize, times.len())?))
    } else {
        read_column_rest(alloc, volume, schema, part, col, skip)
    }
}

/// Reads the rows of one column of a part from one on; `None` where its files spell none that the part asks for.
fn read_column_rest<V: Volume>(
    alloc: Global,
    volume: &mut V,
    schema: &Schema,
    part: Part,
    col: u32,
    skip: u64,
) -> Result<Option<Column<SymbolMap>>, IoFault>
    requires schema { IsSchema schema.now }
    requires part { IsPart schema.now part }
    requires block { part.block < 2 ^ 52 }
    requires col { col < part.cols }
    requires skip { skip ≤ part.rows }
    ensures given { IfOk result (λ rest. IfSome rest (λ column. 0 < length column.cells → IsRestGiven V.gives part.block col skip column)) }
    ensures told { IfSome (V.storage volume.old).disk (λ disk. IsColumnRest result schema.now part skip col (reads_of disk (column_file part.block col 0)) (reads_of disk (column_file part.block col 1))) }
    ensures fit { IfOk result (λ rest. IfSome rest (λ column. IsFitRest schema.now part skip col column)) }
    ensures stays { (V.storage volume.new).disk ≡ (V.storage volume.old).disk }
    ensures counted { Counts (V.storage volume.old).faults (V.storage volume.new).faults result }
{
    let kind = schema.cols.get(col as usize).kind;
    let size = row_size(kind);
    let rows = part.rows - skip;
    let file = column_file(part.block, col, MAIN);
    let from = skip.saturating_mul(size);
    let most = rows.saturating_mul(size);
    let main = read_part(alloc, volume, file, from, most)?;
    let start = start_of_texts(volume, file, kind, skip)?;
    let aux = read_aux_from(
        alloc,
        volume,
        column_file(part.block, col, AUX),
        kind,
        start,
    )?;
    Ok(judge_rest(alloc, kind, rows, start, main.as_slice(), aux.as_slice())?)
}

/// Reads bytes of a file from a place on: so many, or as many as are there.
fn read_part<V: Volume>(
    alloc: Global,
    volume: &mut V,
    file: u64,
    at: u64,
    most: u64,
) -> Result<Vec<u8>, IoFault>
    ensures given { IfOk result (λ bytes. V.gives file at bytes.items) }
    ensures told { IfSome (V.storage volume.old).disk (λ disk. IsPartRead result at most (reads_of disk file)) }
    ensures stays { (V.storage volume.new).disk ≡ (V.storage volume.old).disk }
    ensures counted { Counts (V.storage volume.old).faults (V.storage volume.new).faults result }
{
    let size = volume.len(file)?.saturating_sub(at).min(most);
    let mut bytes = Vec::from_elem(alloc, 0u8, size as usize)?;
    let n = volume.read(file, at, bytes.as_mut_slice())?;
    bytes.truncate(n);
    Ok(bytes)
}

/// Reads where the texts of a VARCHAR column's rows before one end in its second file; 0 for other columns.
fn start_of_texts<V: Volume>(
    volume: &mut V,
    file: u64,
    kind: ColType,
    skip: u64,
) -> Result<u64, IoFault>
    ensures told { IfSome (V.storage volume.old).disk (λ disk. IsStartRead result kind skip (reads_of disk file)) }
    ensures stays { (V.storage volume.new).disk ≡ (V.storage volume.old).disk }
    ensures counted { Counts (V.storage volume.old).faults (V.storage volume.new).faults result }
{
    match kind {
        ColType::Varchar => end_of_rows(volume, file, skip),
        _ => Ok(0),
    }
}

/// Reads where the texts of the first rows of a VARCHAR column end, by the mark of the last of them.
fn end_of_rows<V: Volume>(volume: &mut V, file: u64, skip: u64) -> Result<u64, IoFault>
    ensures told { IfSome (V.storage volume.old).disk (λ disk. IsStartRead result kind.Varchar skip (reads_of disk file)) }
    ensures stays { (V.storage volume.new).disk ≡ (V.storage volume.old).disk }
    ensures counted { Counts (V.storage volume.old).faults (V.storage volume.new).faults result }
{
    if skip == 0 {
        return Ok(0);
    }
    let mut mark = [0u8; 8];
    let n = volume.read(file, (skip - 1).saturating_mul(8), &mut mark)?;
    Ok(text_end(&mark[..n]))
}

/// Reads what the rows from one on need of the second file of a column, where its kind has one.
fn read_aux_from<V: Volume>(
    alloc: Global,
    volume: &mut V,
    file: u64,
    kind: ColType,
    start: u64,
) -> Result<Vec<u8>, IoFault>
    ensures given { IfOk result (λ aux. IsAuxRestGiven V.gives file kind start aux.items) }
    ensures told { IfSome (V.storage volume.old).disk (λ disk. IsAuxRestRead result kind start (reads_of disk file)) }
    ensures stays { (V.storage volume.new).disk ≡ (V.storage volume.old).disk }
    ensures counted { Counts (V.storage volume.old).faults (V.storage volume.new).faults result }
{
    match kind {
        ColType::Symbol => read_part(alloc, volume, file, 0, u64::MAX),
        ColType::Varchar => read_part(alloc, volume, file, start, u64::MAX),
        _ => Ok(Vec::new(alloc)),
    }
}

/// The rows of a column from one on, by their bytes, where no time of them is past the greatest timestamp.
fn judge_rest(
    alloc: Global,
    kind: ColType,
    rows: u64,
    start: u64,
    main: &[u8],
    aux: &[u8],
) -> Result<Option<Column<SymbolMap>>, Memory>
    ensures kind { IfOk result (λ rest. IfSome rest (λ column. column.kind ≡ kind)) }
    ensures rows { IfOk result (λ rest. IfSome rest (λ column. length column.cells ≡ rows)) }
    ensures takes { IfOk result (λ rest. IfSome rest (λ column. All (Takes kind) column.cells)) }
    ensures held { 0 < rows → IfOk result (λ rest. IfSome rest (λ column. IsHeldRest start main.now aux.now column)) }
    ensures rest { (skip : ℕ) (whole : CellsOf) → whole.kind ≡ kind → length whole.cells ≡ skip + rows → AreTimely false whole.cells → HoldsRest skip start main.now aux.now whole → IfOk result (λ rest. rest ≡ Some (rows_from skip whole)) }
{
    let column = match decode_rest(alloc, kind, rows, start, main, aux)? {
        Some(column) => column,
        None => return Ok(None),
    };
    match late_row(&column) {
        Some(_) => Ok(None),
        None => Ok(Some(column)),
    }
}

/// The first row of a TIMESTAMP column whose time is past the greatest timestamp.
fn late_row(column: &Column<SymbolMap>) -> Option<usize>
    ensures late { IfSome result (λ row. (row < length column.now.cells) × (MAX_TIME < time_at column.now.cells row)) }
    ensures none { IfNone result (column.now.kind ≡ kind.Time → AreTimely false column.now.cells) }
{
    match column.kind() {
        ColType::Time => first_untimely(column.times(), false),
        _ => None,
    }
}
