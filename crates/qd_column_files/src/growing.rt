//! Blocks that grow: rows put behind those that their files hold.
ghost use Rattle.qd_base.specs.Lawful.{IsSchema};
ghost use Rattle.qd_base.specs.declared.schema.ColType.TheVariants as kind;
ghost use Rattle.qd_manifest.specs.Spelling.{IsPart};
ghost use Rattle.qd_durable.specs.Faults.{CountsVol};
ghost use Rattle.qd_column_files.specs.Columns.{kind_of};
ghost use Rattle.qd_column_files.specs.Files.{column_file};
ghost use Rattle.qd_volume.specs.Disk.{reads_of};
ghost use Rattle.qd_durable.specs.Moments.{Told};
ghost use Rattle.qd_column_files.specs.Calls.{PutsFile};
ghost use Rattle.qd_column_files.specs.Growing.{GoesBehind, GrowsBlock, GrowsTail, IsColumnTail, IsShortTold, IsStoredTail, IsTailRead, PutsBehind, all_texts, block_behind};
ghost use Rattle.qd_column.specs.Cells.{CellsOf};
ghost use Rattle.qd_column_format.specs.Tails.{behind, joined};
ghost use Rattle.qd_io.specs.Ends.{Counts};
ghost use Rattle.std.specs.Prelude.{◌≡◌, ◌+◌, ◌-◌, ◌^◌, ◌<◌, ◌≤◌, min, true, length, IfOk, IfSome, OnOk};

use crate::files::{column_file, put_file};
use crate::reading::{read_column, read_front, row_size};
use qd_base::{ColType, Memory, Part, Schema};
use qd_block::Block;
use qd_column::Column;
use qd_column_format::laws::one_column_is_spelled;
use qd_column_format::{AUX, ColumnBytes, MAIN, Tail, text_end};
use qd_durable::LogFault;
use qd_io::IoFault;
use qd_symbols::SymbolMap;
use qd_volume::Volume;
use std::alloc::Global;
use std::marker::Model;

/// What rows behind those of a block go on with: how many those are, and what each column goes on with.
#[derive(Drop)]
pub struct BlockTail {
    rows: u64,
    columns: Vec<Tail<SymbolMap>>,
}

impl Model for BlockTail {
    ghost use Rattle.qd_column_files.specs.Growing.{BlockBehind};

    ghost Value = { BlockBehind };

    ghost view = { λ t. record { rows = t.rows; columns = t.columns.items } };
}

impl BlockTail {
    /// What rows behind those of a block go on with. It costs time and memory linear in the texts of its SYMBOL columns. Want of
    /// memory is the only error.
    pub fn behind(alloc: Global, block: &Block<SymbolMap>) -> Result<BlockTail, Memory>
        ensures behind { IfOk result (λ t. t ≡ block_behind block.now) }
    {
        let mut columns = Vec::with_capacity(alloc, block.cols() as usize)?;
        for col in 0..block.cols() {
            columns.push(Tail::behind(alloc, block.column(col))?)?;
        }
        Ok(BlockTail {
            rows: block.rows(),
            columns,
        })
    }

    /// The same, copied. It costs time and memory linear in the texts of its SYMBOL columns.
    pub fn copy(&self, alloc: Global) -> Result<BlockTail, Memory>
        ensures same { IfOk result (λ t. t ≡ self.now) }
    {
        let mut columns = Vec::with_capacity(alloc, self.columns.len())?;
        for tail in self.columns.as_slice() {
            columns.push(tail.copy(alloc)?)?;
        }
        Ok(BlockTail {
            rows: self.rows,
            columns,
        })
    }

    /// Gives how many rows it is behind, in constant time.
    pub fn rows(&self) -> u64
        ensures rows { result ≡ self.now.rows }
    {
        self.rows
    }

    /// Gives of how many columns it is, in constant time.
    pub fn cols(&self) -> u64
        ensures cols { result ≡ length self.now.columns }
    {
        self.columns.len() as u64
    }

    /// Gives how many texts its SYMBOL columns have named, all together, and `u64::MAX` where they are more. It costs time linear
    /// in the columns.
    pub fn texts(&self) -> u64
        ensures texts { result ≡ min (all_texts self.now.columns) (2 ^ 64 - 1) }
    {
        let mut texts: u64 = 0;
        for tail in self.columns.as_slice() {
            texts = texts.saturating_add(tail.texts());
        }
        texts
    }
}

/// Reads what rows behind those of a part go on with, without reading its rows. Of a SYMBOL column it costs five calls of the volume,
/// one pass over the numbers of its rows as they were read, and time and memory linear in these and its second file; of a VARCHAR
/// column four calls, and of the others one, each in constant time.
///
/// Where files are too short for that, or hold no dictionary, the column is read as [`read_block`](crate::read_block) does. An `Err` is
/// [`LogFault::Damaged`] only where the files hold no block that is the part's: those of a column are damaged then, at that byte.
/// Damage of the rows may go unseen. What the volume holds stays as it was.
pub fn read_tail<V: Volume>(
    alloc: Global,
    volume: &mut V,
    schema: &Schema,
    part: Part,
) -> Result<BlockTail, LogFault>
    requires schema { IsSchema schema.now }
    requires part { IsPart schema.now part }
    requires block { part.block < 2 ^ 52 }
    ensures told { IfSome (V.storage volume.old).disk (λ disk. IsTailRead result schema.now part (reads_of disk)) }
    ensures rows { IfOk result (λ t. t.rows ≡ part.rows) }
    ensures columns { IfOk result (λ t. length t.columns ≡ part.cols) }
    ensures stays { (V.storage volume.new).disk ≡ (V.storage volume.old).disk }

    // The count of faults rises exactly where `Vol` is answered.
    ensures counted { CountsVol (V.storage volume.old).faults (V.storage volume.new).faults result }
{
    let mut columns = Vec::with_capacity(alloc, part.cols as usize)?;
    for col in 0..part.cols {
        let tail = column_tail(alloc, volume, schema, part, col)?;
        columns.push(tail)?;
    }
    Ok(BlockTail {
        rows: part.rows,
        columns,
    })
}

/// Reads what rows behind those of a part's column go on with: by what that needs of its files, or where these aren't as they
/// should be, by the column.
fn column_tail<V: Volume>(
    alloc: Global,
    volume: &mut V,
    schema: &Schema,
    part: Part,
    col: u32,
) -> Result<Tail<SymbolMap>, LogFault>
    requires schema { IsSchema schema.now }
    requires part { IsPart schema.now part }
    requires block { part.block < 2 ^ 52 }
    requires col { col < part.cols }
    ensures told { IfSome (V.storage volume.old).disk (λ disk. IsColumnTail result schema.now part col (reads_of disk (column_file part.block col 0)) (reads_of disk (column_file part.block col 1))) }
    ensures stays { (V.storage volume.new).disk ≡ (V.storage volume.old).disk }
    ensures counted { CountsVol (V.storage volume.old).faults (V.storage volume.new).faults result }
{
    let kind = schema.cols.get(col as usize).kind;
    let main = column_file(part.block, col, MAIN);
    let aux = column_file(part.block, col, AUX);
    if falls(volume, kind, main, part.rows)? {
        return tail_read(alloc, volume, schema, part, col);
    }
    match stored_tail(alloc, volume, kind, part.rows, main, aux)? {
        Some(tail) => Ok(tail),
        None => tail_read(alloc, volume, schema, part, col),
    }
}

/// Whether the text of the last row of a VARCHAR column ends before that of the row before: so it does in none, and rows that went on
/// behind it would be written over others' texts.
fn falls<V: Volume>(volume: &mut V, kind: ColType, main: u64, rows: u64) -> Result<bool, IoFault>
    ensures stays { (V.storage volume.new).disk ≡ (V.storage volume.old).disk }
    ensures counted { Counts (V.storage volume.old).faults (V.storage volume.new).faults result }
{
    match kind {
        ColType::Varchar => {
            let mut marks = [0u8; 16];
            let n = volume.read(main, rows.saturating_sub(2).saturating_mul(8), &mut marks)?;
            Ok(1 < rows && n == 16 && text_end(&marks[8..]) < text_end(&marks[..8]))
        }
        _ => Ok(false),
    }
}

/// What rows behind those of a column go on with, without reading these; `None` where two files spell no such column.
fn stored_tail<V: Volume>(
    alloc: Global,
    volume: &mut V,
    kind: ColType,
    rows: u64,
    main: u64,
    aux: u64,
) -> Result<Option<Tail<SymbolMap>>, IoFault>
    requires some { 1 ≤ rows }
    ensures told { IfSome (V.storage volume.old).disk (λ disk. IsStoredTail result kind rows (reads_of disk main) (reads_of disk aux)) }
    ensures stays { (V.storage volume.new).disk ≡ (V.storage volume.old).disk }
    ensures counted { Counts (V.storage volume.old).faults (V.storage volume.new).faults result }
{
    if is_short(volume, main, rows.saturating_mul(row_size(kind)))? {
        return Ok(None);
    }
    match kind {
        ColType::Symbol => tail_of_ids(alloc, volume, rows, main, aux),
        ColType::Varchar => tail_of_mark(alloc, volume, rows, main, aux),
        _ => Ok(Tail::stored(alloc, kind, rows, &[], &[])?),
    }
}

/// Of a SYMBOL column, by the ids of its rows and its texts.
fn tail_of_ids<V: Volume>(
    alloc: Global,
    volume: &mut V,
    rows: u64,
    main: u64,
    aux: u64,
) -> Result<Option<Tail<SymbolMap>>, IoFault>
    ensures told { IfSome (V.storage volume.old).disk (λ disk. IsStoredTail result kind.Symbol rows (reads_of disk main) (reads_of disk aux)) }
    ensures stays { (V.storage volume.new).disk ≡ (V.storage volume.old).disk }
    ensures counted { Counts (V.storage volume.old).faults (V.storage volume.new).faults result }
{
    let ids = read_front(alloc, volume, main, rows.saturating_mul(8))?;
    let texts = read_front(alloc, volume, aux, u64::MAX)?;
    Ok(Tail::stored(
        alloc,
        ColType::Symbol,
        rows,
        ids.as_slice(),
        texts.as_slice(),
    )?)
}

/// Of a VARCHAR column, by the mark of its last row, where the second file is as long as it says.
fn tail_of_mark<V: Volume>(
    alloc: Global,
    volume: &mut V,
    rows: u64,
    main: u64,
    aux: u64,
) -> Result<Option<Tail<SymbolMap>>, IoFault>
    requires some { 1 ≤ rows }
    requires low { IfSome (V.storage volume.old).disk (λ disk. length (reads_of disk main) < 2 ^ 64) }
    ensures told { IfSome (V.storage volume.old).disk (λ disk. IsStoredTail result kind.Varchar rows (reads_of disk main) (reads_of disk aux)) }
    ensures stays { (V.storage volume.new).disk ≡ (V.storage volume.old).disk }
    ensures counted { Counts (V.storage volume.old).faults (V.storage volume.new).faults result }
{
    let mut bytes = [0u8; 8];
    let n = volume.read(main, (rows - 1).saturating_mul(8), &mut bytes)?;
    let mark = &bytes[..n];
    if is_short(volume, aux, text_end(mark))? {
        return Ok(None);
    }
    Ok(Tail::stored(alloc, ColType::Varchar, rows, mark, &[])?)
}

/// Whether a file has fewer bytes than so many.
fn is_short<V: Volume>(volume: &mut V, file: u64, size: u64) -> Result<bool, IoFault>
    ensures told { IfSome (V.storage volume.old).disk (λ disk. IsShortTold result size (reads_of disk file)) }
    ensures stays { (V.storage volume.new).disk ≡ (V.storage volume.old).disk }
    ensures counted { Counts (V.storage volume.old).faults (V.storage volume.new).faults result }
{
    Ok(volume.len(file)? < size)
}

/// Reads a part's column, and gives what rows behind it go on with.
fn tail_read<V: Volume>(
    alloc: Global,
    volume: &mut V,
    schema: &Schema,
    part: Part,
    col: u32,
) -> Result<Tail<SymbolMap>, LogFault>
    requires schema { IsSchema schema.now }
    requires part { IsPart schema.now part }
    requires block { part.block < 2 ^ 52 }
    requires col { col < part.cols }
    ensures told { IfSome (V.storage volume.old).disk (λ disk. IsColumnTail result schema.now part col (reads_of disk (column_file part.block col 0)) (reads_of disk (column_file part.block col 1))) }
    ensures stays { (V.storage volume.new).disk ≡ (V.storage volume.old).disk }
    ensures counted { CountsVol (V.storage volume.old).faults (V.storage volume.new).faults result }
{
    // So that a column that is read is the one that the files hold.
    one_column_is_spelled();
    let column = read_column(alloc, volume, schema, part, col)?;
    Ok(tail_of(alloc, column)?)
}

/// What rows behind those of a column go on with, which is let go.
fn tail_of(alloc: Global, column: Column<SymbolMap>) -> Result<Tail<SymbolMap>, Memory>
    ensures behind { IfOk result (λ t. t ≡ behind column) }
{
    Tail::behind(alloc, &column)
}

/// Writes rows behind those of a block, and waits until they are on the disk: one write and one sync for a main file, and for
/// a second file that grows. `tail` is what they go on with, and becomes what rows behind these do. It costs time and memory
/// linear in the rows' bytes, and in the texts that SYMBOL columns have named.
///
/// At every moment, and whatever it answers, a crash leaves all files but the block's as they were, and the block. After an
/// `Ok` it leaves the block with the rows behind it. After an `Err` there may be any bytes behind the block's own, and the tail
/// is of no further use; a file that is too short for the place is want of memory.
pub fn grow_block<V: Volume>(
    alloc: Global,
    volume: &mut V,
    block: u64,
    tail: &mut BlockTail,
    rows: &Block<SymbolMap>,
) -> Result<(), IoFault>
    requires block { block < 2 ^ 52 }
    requires columns { length tail.old.columns ≡ length rows.now.kinds }
    ensures told { Told (V.storage volume.old).disk (V.storage volume.new).disk (GrowsBlock result block tail.old tail.new rows.now) }

    // The count of faults rises exactly where `Failed` is answered.
    ensures counted { Counts (V.storage volume.old).faults (V.storage volume.new).faults result }
{
    let from = tail.rows;
    match from.checked_add(rows.rows()) {
        Some(to) => {
            grow_columns(
                alloc,
                volume,
                block,
                tail.columns.as_mut_slice(),
                from,
                rows,
            )?;
            tail.rows = to;
            Ok(())
        }
        None => Err(IoFault::Memory),
    }
}

/// Writes rows behind the first `from` of a block, column by column.
fn grow_columns<V: Volume>(
    alloc: Global,
    volume: &mut V,
    block: u64,
    tails: &mut [Tail<SymbolMap>],
    from: u64,
    rows: &Block<SymbolMap>,
) -> Result<(), IoFault>
    requires block { block < 2 ^ 52 }
    requires columns { length tails.old ≡ length rows.now.kinds }
    ensures told { Told (V.storage volume.old).disk (V.storage volume.new).disk (GrowsBlock result block (record { rows = from; columns = tails.old }) (record { rows = from + length rows.now.rows; columns = tails.new }) rows.now) }
    ensures counted { Counts (V.storage volume.old).faults (V.storage volume.new).faults result }
{
    rows.is_whole();
    for col in 0..rows.cols() {
        let tail = &mut tails[col as usize];
        grow_tail(alloc, volume, block, col, tail, from, rows.column(col))?;
    }
    Ok(())
}

/// Writes rows of a column behind its first `from` ones, which `tail` goes on behind.
fn grow_tail<V: Volume>(
    alloc: Global,
    volume: &mut V,
    block: u64,
    col: u32,
    tail: &mut Tail<SymbolMap>,
    from: u64,
    rows: &Column<SymbolMap>,
) -> Result<(), IoFault>
    requires block { block < 2 ^ 52 }
    requires few { col < 512 }
    ensures told { Told (V.storage volume.old).disk (V.storage volume.new).disk (GrowsTail result block col from tail.old rows.now) }
    ensures tail { (first : CellsOf) → GoesBehind first from tail.old rows.now → OnOk result (tail.new ≡ behind (joined first rows.now.cells)) }
    ensures counted { Counts (V.storage volume.old).faults (V.storage volume.new).faults result }
{
    let bytes = tail.added(alloc, from, rows)?;
    grow_column(volume, block, col, &bytes)
}

/// Writes what rows add to the two files of a column.
fn grow_column<V: Volume>(
    volume: &mut V,
    block: u64,
    col: u32,
    bytes: &ColumnBytes,
) -> Result<(), IoFault>
    requires block { block < 2 ^ 52 }
    requires few { col < 512 }
    ensures told { Told (V.storage volume.old).disk (V.storage volume.new).disk (PutsBehind result block col bytes.now) }
    ensures counted { Counts (V.storage volume.old).faults (V.storage volume.new).faults result }
{
    put_there(
        volume,
        column_file(block, col, MAIN),
        bytes.main_at,
        bytes.main.bytes(),
    )?;
    if bytes.aux.bytes().is_empty() {
        return Ok(());
    }
    put_there(
        volume,
        column_file(block, col, AUX),
        bytes.aux_at,
        bytes.aux.bytes(),
    )
}

/// Writes bytes into a file from a place on. Where the file has no such place, want of memory is answered.
fn put_there<V: Volume>(volume: &mut V, file: u64, at: u64, bytes: &[u8]) -> Result<(), IoFault>
    ensures told { Told (V.storage volume.old).disk (V.storage volume.new).disk (PutsFile result file at bytes.now) }
    ensures counted { Counts (V.storage volume.old).faults (V.storage volume.new).faults result }
{
    if volume.len(file)? < at {
        return Err(IoFault::Memory);
    }
    put_file(volume, file, at, bytes)
}
