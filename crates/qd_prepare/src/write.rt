//! Changes and cells that are written, where the entry has room for them.
//!
//! A batch keeps to limits under which there is always room; where there is none, that counts as want of memory.
ghost use Rattle.std.specs.Prelude.{◌≡◌, true, false, OnOk};
ghost use Rattle.qd_lines.specs.Sinks.{cell_lent};
ghost use Rattle.qd_wal_entry.specs.Written.{IsSoFar, SoFar, inserted, with_cell, with_op, with_row};

use crate::fits::{fits, is_short, keys_fit};
use qd_base::{MAX_TEXT_BYTES, Memory, Op};
use qd_lines::CellView;
use qd_wal_entry::EntryWriter;
use std::alloc::AllocError;

/// Writes the making of a table or a column, or that keys are set. Rows are not written so.
pub(crate) fn write_change(writer: &mut EntryWriter, change: &Op) -> Result<(), Memory>
    requires shut { writer.old.is_open ≡ false }
    ensures shut { OnOk result (writer.new.is_open ≡ false) }
    ensures added { OnOk result ((e : SoFar) → IsSoFar writer.old e → IsSoFar writer.new (with_op change.now e)) }
{
    if !writer.has_room() {
        return Err(AllocError);
    }
    match change {
        Op::Create { schema } if fits(schema) => writer.create(schema),
        Op::AddColumn { table, col } if is_short(table.bytes()) && is_short(col.name.bytes()) => {
            writer.add_column(table.bytes(), col)
        }
        Op::SetKeys { table, keys } if is_short(table.bytes()) && keys_fit(keys.as_slice()) => {
            writer.set_keys(table.bytes(), keys.as_slice())
        }
        _ => Err(AllocError),
    }
}

/// Writes the next cell of a row.
pub(crate) fn write_cell(writer: &mut EntryWriter, cell: CellView<'_>) -> Result<(), Memory>
    requires open { writer.old.is_open ≡ true }
    ensures open { OnOk result (writer.new.is_open ≡ true) }
    ensures pushed { OnOk result ((e : SoFar) → IsSoFar writer.old e → IsSoFar writer.new (with_cell (cell_lent cell.entry) e)) }
{
    if !writer.has_room() {
        return Err(AllocError);
    }
    match cell {
        CellView::Null => writer.push_null(),
        CellView::Long(number) => writer.push_long(number),
        CellView::Bool(truth) => writer.push_bool(truth),
        CellView::Text(text) if text.len() <= MAX_TEXT_BYTES => writer.push_text(text),
        CellView::Text(_) => Err(AllocError),
        CellView::Time(micros) => writer.push_time(micros),
    }
}

/// Ends a row, where it has some cells and as many as the rows before it. Else nothing is changed.
pub(crate) fn end_row(writer: &mut EntryWriter) -> Result<(), Memory>
    requires open { writer.old.is_open ≡ true }
    ensures open { writer.new.is_open ≡ true }
    ensures none { OnOk result (writer.new.cells ≡ 0) }
    ensures ended { OnOk result ((e : SoFar) → IsSoFar writer.old e → IsSoFar writer.new (with_row e)) }
{
    if !writer.has_room() || !writer.ends_row() {
        return Err(AllocError);
    }
    writer.end_row();
    Ok(())
}

/// Ends a row and the insertion that it is in.
pub(crate) fn end_insert(writer: &mut EntryWriter) -> Result<(), Memory>
    requires open { writer.old.is_open ≡ true }
    ensures shut { OnOk result (writer.new.is_open ≡ false) }
    ensures added { OnOk result ((e : SoFar) → IsSoFar writer.old e → IsSoFar writer.new (inserted (with_row e))) }
{
    end_row(writer)?;
    if !writer.has_room() {
        return Err(AllocError);
    }
    writer.end_insert()
}
