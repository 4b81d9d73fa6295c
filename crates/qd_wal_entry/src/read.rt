//! Entries read from bytes.
ghost use Rattle.std.specs.Prelude.{◌≡◌, ◌*◌, ◌≤◌, [], IfOk, IfErr};
ghost use Rattle.qd_fields.specs.Layout.{items, each};
ghost use Rattle.qd_fields.specs.Reading.{Gives};
ghost use Rattle.qd_wal_entry.specs.Spelling.{SpellsEntry};
ghost use Rattle.qd_wal_entry.specs.Layout.{cell_at, row_at, rows_at, op_at, entry_from};
ghost use Rattle.qd_wal_entry.specs.Reading.{Reads, IsFault, IsUnspelled};

use crate::fault::EntryFault;
use crate::pieces::OpHead;
use crate::reader::EntryReader;
use qd_base::{Cell, Entry, Op, OpList, Row, RowList};
use qd_fields::Stop;
use std::alloc::Global;

/// Reads the transaction that bytes spell. They are refused exactly where they spell none: at the first byte of the first
/// field that breaks the layout, or at their number where bytes are missing.
///
/// It costs time and memory linear in the bytes, on average, and what `NamedList::push` costs for each column of a schema. No
/// memory is reserved for what the bytes don't hold.
pub fn decode_entry(alloc: Global, bytes: &[u8]) -> Result<Entry, EntryFault>
    // What is read is spelled so.
    ensures spelled { IfOk result (λ e. SpellsEntry bytes.now e) }

    // Bytes that spell a transaction are read, unless memory is wanting; what else is refused, is so at the place of the damage.
    ensures unspelled { IfErr result (λ e. IsUnspelled bytes.now e) }
    ensures damaged { IfErr result (λ e. IsFault bytes.now e) }
{
    match entry_from(alloc, bytes) {
        Ok(entry) => Ok(entry),
        Err(Stop::Memory) => Err(EntryFault::Memory),
        Err(Stop::Damage { left }) => Err(EntryFault::Damaged {
            at: bytes.len().saturating_sub(left) as u64,
        }),
    }
}

/// All of the bytes.
#[tactic(auto, unfolding(crate::specs::Layout::entry_from))]
fn entry_from(alloc: Global, bytes: &[u8]) -> Result<Entry, Stop>
    ensures read { Gives (λ e. e) result (entry_from bytes.now) }
{
    let (count, mut reader) = EntryReader::open(alloc, bytes)?;
    let ops = next_ops(alloc, &mut reader, count)?;
    reader.close(alloc, bytes)?;
    Ok(Entry { ops })
}

/// So many changes.
fn next_ops(alloc: Global, reader: &mut EntryReader, count: u32) -> Result<OpList, Stop>
    ensures read { Reads result reader.new (items (each op_at) count [] reader.old) }
{
    let mut ops = OpList::new(alloc);
    for _ in 0..count {
        let op = next_op(alloc, reader)?;
        ops.push(op)?;
    }
    Ok(ops)
}

/// A change.
#[tactic(auto, unfolding(crate::specs::Layout::op_at))]
fn next_op(alloc: Global, reader: &mut EntryReader) -> Result<Op, Stop>
    ensures read { Reads result reader.new (op_at reader.old) }
{
    match reader.next_op(alloc)? {
        OpHead::Create { schema } => Ok(Op::Create { schema }),
        OpHead::AddColumn { table, col } => Ok(Op::AddColumn { table, col }),
        OpHead::Insert {
            table,
            columns,
            rows,
        } => {
            let rows = next_rows(alloc, reader, columns, rows)?;
            Ok(Op::Insert { table, rows })
        }
        OpHead::SetKeys { table, keys } => Ok(Op::SetKeys { table, keys }),
    }
}

/// So many rows. Each takes as many bytes as it has cells, or more.
#[tactic(auto, unfolding(crate::specs::Layout::rows_at))]
fn next_rows(
    alloc: Global,
    reader: &mut EntryReader,
    columns: u16,
    count: u32,
) -> Result<RowList, Stop>
    ensures read { Reads result reader.new (rows_at columns count reader.old) }
{
    let room = row_room(reader.left(), columns, count);
    let mut rows = RowList::with_capacity(alloc, room)?;
    for _ in 0..count {
        let row = next_row(alloc, reader, columns)?;
        rows.push(row)?;
    }
    Ok(rows)
}

/// A row of so many cells. Each takes a byte or more.
#[tactic(auto, unfolding(crate::specs::Layout::row_at))]
fn next_row(alloc: Global, reader: &mut EntryReader, columns: u16) -> Result<Row, Stop>
    ensures read { Reads result reader.new (row_at columns reader.old) }
{
    let mut row = Row::with_capacity(alloc, reader.left().min(columns as usize))?;
    for _ in 0..columns {
        let cell = next_cell(alloc, reader)?;
        row.push(cell)?;
    }
    Ok(row)
}

/// A cell.
#[tactic(auto, unfolding(crate::specs::Layout::cell_at))]
fn next_cell(alloc: Global, reader: &mut EntryReader) -> Result<Cell, Stop>
    ensures read { Reads result reader.new (cell_at reader.old) }
{
    let stored = reader.next_cell()?;
    let cell = reader.cell(alloc, stored)?;
    Ok(cell)
}

/// How many of so many rows there may be in so many bytes: each cell takes a byte or more.
fn row_room(left: usize, columns: u16, count: u32) -> usize
    ensures held { result * columns ≤ left }
    ensures asked { result ≤ count }
{
    if columns == 0 {
        return 0;
    }
    let room = left / columns as usize;
    room.min(count as usize)
}
