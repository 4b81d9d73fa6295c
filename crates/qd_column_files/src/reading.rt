//! Blocks read from their files.
ghost use Rattle.qd_base.specs.Lawful.{IsSchema};
ghost use Rattle.qd_base.specs.declared.schema.ColType.TheVariants as kind;
ghost use Rattle.qd_block.specs.Blocks.{block_of, IsWhole};
ghost use Rattle.qd_durable.specs.Faults.{CountsVol};
ghost use Rattle.qd_column_files.specs.Columns.{AreTimely, HasEnds, is_designated, kind_of};
ghost use Rattle.qd_column_files.specs.Damage.{IsMistimedAt};
ghost use Rattle.qd_column_files.specs.Files.{column_file};
ghost use Rattle.qd_column_files.specs.Reading.{AreColumnsOf, IsAuxGiven, IsAuxRead, IsBlockRead, IsColumnGiven, IsColumnRead, IsFitColumn, IsFrontRead, IsGiven};
ghost use Rattle.qd_io.specs.Ends.{Counts};
ghost use Rattle.qd_manifest.specs.Spelling.{IsPart};
ghost use Rattle.qd_scan.specs.Sources.{IsBlockOf};
ghost use Rattle.qd_column_format.specs.Fields.{field_size};
ghost use Rattle.qd_column_format.specs.Spelling.{IsStorable};
ghost use Rattle.qd_volume.specs.Disk.{reads_of};
ghost use Rattle.std.specs.Prelude.{◌≡◌, ℕ, ◌^◌, ◌<◌, ◌≤◌, true, length, All, IfNone, IfOk, IfSome};

use crate::files::column_file;
use crate::times::mistimed;
use qd_base::{ColType, Part, Schema};
use qd_block::Block;
use qd_column::Column;
use qd_column_format::laws::one_column_is_spelled;
use qd_column_format::{AUX, ColumnFault, ColumnList, MAIN, decode_column, from_columns};
use qd_durable::LogFault;
use qd_io::IoFault;
use qd_symbols::SymbolMap;
use qd_volume::Volume;
use std::alloc::Global;

/// Reads the shown rows and columns of a part's block from its files. It costs two calls of the volume for each
/// column, and two more for one of texts, and time and memory linear in the bytes of the shown rows, and in those of
/// the texts of a column's second file; no memory is taken for bytes that aren't there.
///
/// An `Err` is [`LogFault::Damaged`] exactly where the files hold no block that is the part's, in the first column
/// that they don't spell or whose times aren't the part's: at the first byte of the first field that breaks the
/// layout, or at the file's length where bytes are missing; else at the field of the first time that is past the
/// greatest timestamp, or, of the designated column, is NULL or less than the one before; else at that of the first
/// or the last designated time, where it isn't the part's `lo` or `hi`. What the volume holds stays as it was.
///
/// What is answered was read: where the volume gives fewer bytes, whatever it tells, none are taken in their place.
pub fn read_block<V: Volume>(
    alloc: Global,
    volume: &mut V,
    schema: &Schema,
    part: Part,
) -> Result<Block<SymbolMap>, LogFault>
    requires schema { IsSchema schema.now }
    requires part { IsPart schema.now part }
    requires block { part.block < 2 ^ 52 }
    ensures given { IfOk result (λ b. IsGiven V.gives schema.now part b) }
    ensures told { IfSome (V.storage volume.old).disk (λ disk. IsBlockRead result schema.now part (reads_of disk)) }
    ensures block { IfOk result (λ b. IsBlockOf schema.now part b) }
    ensures whole { IfOk result (λ b. IsWhole b) }
    ensures stays { (V.storage volume.new).disk ≡ (V.storage volume.old).disk }

    // The count of faults rises exactly where `Vol` is answered.
    ensures counted { CountsVol (V.storage volume.old).faults (V.storage volume.new).faults result }
{
    let mut columns = ColumnList::new(alloc);
    for col in 0..part.cols {
        let column = read_column(alloc, volume, schema, part, col)?;
        columns.push(column)?;
    }
    Ok(block_from(alloc, columns, schema, part))
}

/// The block of a part's columns.
fn block_from(
    alloc: Global,
    columns: ColumnList<SymbolMap>,
    schema: &Schema,
    part: Part,
) -> Block<SymbolMap>
    requires schema { IsSchema schema.now }
    requires part { IsPart schema.now part }
    requires all { length columns ≡ part.cols }
    requires columns { AreColumnsOf schema.now part columns }
    ensures made { result ≡ block_of part.rows schema.now.time_col columns }
    ensures block { IsBlockOf schema.now part result }
    ensures whole { IsWhole result }
{
    match from_columns(alloc, columns, schema.time_col) {
        Ok(block) => {
            block.is_whole();
            block
        }
        Err(_) => unreachable!(),
    }
}

/// Reads one column of a part from its files.
pub(crate) fn read_column<V: Volume>(
    alloc: Global,
    volume: &mut V,
    schema: &Schema,
    part: Part,
    col: u32,
) -> Result<Column<SymbolMap>, LogFault>
    requires schema { IsSchema schema.now }
    requires part { IsPart schema.now part }
    requires block { part.block < 2 ^ 52 }
    requires col { col < part.cols }
    ensures given { IfOk result (λ column. IsColumnGiven V.gives part.block col column) }
    ensures told { IfSome (V.storage volume.old).disk (λ disk. IsColumnRead result schema.now part col (reads_of disk (column_file part.block col 0)) (reads_of disk (column_file part.block col 1))) }
    ensures fit { IfOk result (λ column. IsFitColumn schema.now part col column) }
    ensures stays { (V.storage volume.new).disk ≡ (V.storage volume.old).disk }
    ensures counted { CountsVol (V.storage volume.old).faults (V.storage volume.new).faults result }
{
    let kind = schema.cols.get(col as usize).kind;
    let most = part.rows.saturating_mul(row_size(kind));
    let main = read_front(alloc, volume, column_file(part.block, col, MAIN), most)?;
    let aux = read_aux(alloc, volume, column_file(part.block, col, AUX), kind)?;
    judge(alloc, schema, part, col, main.as_slice(), aux.as_slice())
}

/// How many bytes a row takes in a main file.
pub(crate) fn row_size(kind: ColType) -> u64
    ensures size { result ≡ field_size kind }
{
    match kind {
        ColType::Bool => 1,
        _ => 8,
    }
}

/// Reads the second file of a column, where its kind has one.
fn read_aux<V: Volume>(
    alloc: Global,
    volume: &mut V,
    file: u64,
    kind: ColType,
) -> Result<Vec<u8>, IoFault>
    ensures given { IfOk result (λ aux. IsAuxGiven V.gives file aux.items) }
    ensures told { IfSome (V.storage volume.old).disk (λ disk. IsAuxRead result kind (reads_of disk file)) }
    ensures stays { (V.storage volume.new).disk ≡ (V.storage volume.old).disk }
    ensures counted { Counts (V.storage volume.old).faults (V.storage volume.new).faults result }
{
    match kind {
        ColType::Symbol | ColType::Varchar => read_front(alloc, volume, file, u64::MAX),
        _ => Ok(Vec::new(alloc)),
    }
}

/// Reads the first bytes of a file: so many, or as many as are there.
pub(crate) fn read_front<V: Volume>(
    alloc: Global,
    volume: &mut V,
    file: u64,
    most: u64,
) -> Result<Vec<u8>, IoFault>
    ensures given { IfOk result (λ front. V.gives file 0 front.items) }
    ensures told { IfSome (V.storage volume.old).disk (λ disk. IsFrontRead result most (reads_of disk file)) }
    ensures stays { (V.storage volume.new).disk ≡ (V.storage volume.old).disk }
    ensures counted { Counts (V.storage volume.old).faults (V.storage volume.new).faults result }
{
    let size = volume.len(file)?.min(most);
    let mut bytes = Vec::from_elem(alloc, 0u8, size as usize)?;
    let n = volume.read(file, 0, bytes.as_mut_slice())?;
    bytes.truncate(n);
    Ok(bytes)
}

/// The column that the bytes of its files spell, where its times are as the part asks.
fn judge(
    alloc: Global,
    schema: &Schema,
    part: Part,
    col: u32,
    main: &[u8],
    aux: &[u8],
) -> Result<Column<SymbolMap>, LogFault>
    requires schema { IsSchema schema.now }
    requires part { IsPart schema.now part }
    requires block { part.block < 2 ^ 52 }
    requires col { col < part.cols }
    ensures read { IsColumnRead result schema.now part col main.now aux.now }
    ensures fit { IfOk result (λ column. IsFitColumn schema.now part col column) }
    ensures counted { (faults : ℕ) → CountsVol faults faults result }
{
    // So that no other column is as the part asks, where the times of this one aren't.
    one_column_is_spelled();
    let column = match decode_column(
        alloc,
        schema.cols.get(col as usize).kind,
        part.rows,
        main,
        aux,
    ) {
        Ok(column) => column,
        Err(ColumnFault::Damaged { half, at }) => {
            return Err(LogFault::Damaged {
                file: column_file(part.block, col, half),
                at,
            });
        }
        Err(ColumnFault::Memory) => return Err(LogFault::Memory),
    };
    match mistimed_row(schema, part, col, &column) {
        Some(row) => Err(LogFault::Damaged {
            file: column_file(part.block, col, MAIN),
            at: 8 * row as u64,
        }),
        None => Ok(column),
    }
}

/// The row of a column whose time isn't as the part asks.
fn mistimed_row(schema: &Schema, part: Part, col: u32, column: &Column<SymbolMap>) -> Option<usize>
    requires kind { column.now.kind ≡ kind_of schema.now col }
    requires rows { length column.now.cells ≡ part.rows }
    requires some { 1 ≤ part.rows }
    requires storable { All (IsStorable column.now.kind) column.now.cells }
    requires time { is_designated schema.now col ≡ true → column.now.kind ≡ kind.Time }
    ensures time { IfSome result (λ row. column.now.kind ≡ kind.Time) }
    ensures there { IfSome result (λ row. row < length column.now.cells) }
    ensures mistimed { IfSome result (λ row. IsMistimedAt (is_designated schema.now col) part column.now.cells row) }
    ensures timely { IfNone result (AreTimely (is_designated schema.now col) column.now.cells) }
    ensures ends { IfNone result (HasEnds (is_designated schema.now col) part column.now.cells) }
{
    match column.kind() {
        ColType::Time => mistimed(column.times(), col == schema.time_col, part),
        _ => None,
    }
}
