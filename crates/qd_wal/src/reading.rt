//! Entries read from segments.
ghost use Rattle.qd_durable.specs.Faults.{CountsVol};
ghost use Rattle.qd_io.specs.Ends.{Counts};
ghost use Rattle.qd_volume.specs.Disk.{reads_of};
ghost use Rattle.qd_wal_entry.specs.Spelling.{SpellsEntry};
ghost use Rattle.qd_wal.specs.Reading.{IsEntryRead, IsGiven, IsPartRead};
ghost use Rattle.qd_wal.specs.Segments.{file_in, part_at};
ghost use Rattle.std.specs.Prelude.{◌≡◌, ◌≤◌, ◌<◌, ◌^◌, ℕ, List, length, IfOk, IfSome};

use crate::writer::segment_file;
use qd_base::{Entry, WalRef};
use qd_durable::LogFault;
use qd_io::IoFault;
use qd_volume::Volume;
use qd_wal_entry::{EntryFault, decode_entry};
use std::alloc::Global;

/// Why an entry isn't read.
pub type ReadFault = LogFault;

/// Reads the transaction whose entry lies at a place. It costs two calls of the volume, and time and memory linear in the
/// bytes of the entry, on average; no memory is taken for bytes that aren't there.
///
/// An `Err` is [`LogFault::Damaged`] exactly where the bytes there spell no transaction: at the first byte of the first
/// field that breaks the layout, or at the file's length where bytes are missing. What the volume holds stays as it was.
///
/// What is answered was read: where the volume gives fewer bytes than the entry has, whatever it tells, none are taken in
/// their place.
pub fn read_entry<V: Volume>(alloc: Global, volume: &mut V, at: WalRef) -> Result<Entry, ReadFault>
    requires segment { at.segment < 2 ^ 24 }
    ensures given { IfOk result (λ e. IsGiven V.gives at e) }
    ensures told { IfSome (V.storage volume.old).disk (λ disk. IsEntryRead result at (reads_of disk (file_in at))) }
    ensures stays { (V.storage volume.new).disk ≡ (V.storage volume.old).disk }

    // The count of faults rises exactly where `Vol` is answered.
    ensures counted { CountsVol (V.storage volume.old).faults (V.storage volume.new).faults result }
{
    let file = segment_file(at.wal, at.segment);
    let len = volume.len(file)?;
    let bytes = read_part(alloc, volume, file, len, at)?;
    judge(alloc, bytes.as_slice(), len, at)
}

/// Reads the bytes of an entry in a file of a length, as far as they are there.
fn read_part<V: Volume>(
    alloc: Global,
    volume: &mut V,
    file: u64,
    len: u64,
    at: WalRef,
) -> Result<Vec<u8>, IoFault>
    ensures given { IfOk result (λ part. V.gives file at.start part.items) }
    ensures most { IfOk result (λ part. length part.items ≤ at.len) }
    ensures told { IfSome (V.storage volume.old).disk (λ disk. IsPartRead result len at (reads_of disk file)) }
    ensures stays { (V.storage volume.new).disk ≡ (V.storage volume.old).disk }
    ensures counted { Counts (V.storage volume.old).faults (V.storage volume.new).faults result }
{
    let size = len.saturating_sub(at.start).min(at.len);
    let mut bytes = Vec::from_elem(alloc, 0u8, size as usize)?;
    let n = volume.read(file, at.start, bytes.as_mut_slice())?;
    bytes.truncate(n);
    Ok(bytes)
}

/// The transaction that the bytes of an entry spell, as far as they are there, in a file of a length.
fn judge(alloc: Global, part: &[u8], len: u64, at: WalRef) -> Result<Entry, LogFault>
    requires segment { at.segment < 2 ^ 24 }
    ensures whole { IfOk result (λ e. at.len ≤ length part.now) }
    ensures spelled { IfOk result (λ e. SpellsEntry part.now e) }
    ensures read { (bytes : List ℕ) → length bytes ≡ len → part.now ≡ part_at bytes at → IsEntryRead result at bytes }
    ensures counted { (faults : ℕ) → CountsVol faults faults result }
{
    let file = segment_file(at.wal, at.segment);
    match decode_entry(alloc, part) {
        Ok(entry) => {
            if (part.len() as u64) < at.len {
                return Err(LogFault::Damaged { file, at: len });
            }
            Ok(entry)
        }
        Err(EntryFault::Memory) => Err(LogFault::Memory),
        Err(EntryFault::Damaged { at: place }) => Err(LogFault::Damaged {
            file,
            at: at.start.saturating_add(place).min(len),
        }),
    }
}
