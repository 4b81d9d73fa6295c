//! Entries as bytes.
ghost use Rattle.std.specs.Prelude.{◌≡◌, ◌^◌, ◌<◌, IfOk};
ghost use Rattle.qd_wal_entry.specs.Spelling.{IsEntry, SpellsEntry};

use crate::draft::EntryDraft;
use qd_base::{Entry, Memory, Txt};
use std::alloc::Global;

/// Gives the bytes that spell a transaction. It costs time linear in them, on average, and memory for them twice, and for
/// each distinct text about 100 bytes more.
pub fn encode_entry(alloc: Global, entry: &Entry) -> Result<Txt, Memory>
    requires spelled { IsEntry entry.now }
    ensures spelled { IfOk result (λ bytes. SpellsEntry bytes entry.now) }
{
    let mut draft = EntryDraft::new(alloc)?;
    draft.push_ops(entry.ops.as_slice())?;
    draft.finish(entry.ops.len() as u32)
}
