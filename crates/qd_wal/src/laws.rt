//! The laws of segments, and of what is read of them, each of them the contract of a function that does nothing.
ghost use Rattle.qd_wal.specs.Laws.{DamageHasOnePlace, DamagedIsUnspelled, EntriesStay, OneEntryIsRead, SegmentsAreFiles};

/// Each segment of each log has a file of its own.
pub fn segments_are_files()
    ensures { SegmentsAreFiles }
{}

/// Entries that were put stay through each later [`crate::WalWriter::put`], at every moment of it.
pub fn entries_stay()
    ensures { EntriesStay }
{}

/// The bytes at a place spell one transaction, and no other.
pub fn one_entry_is_read()
    ensures { OneEntryIsRead }
{}

/// Damaged bytes have one place of damage.
pub fn damage_has_one_place()
    ensures { DamageHasOnePlace }
{}

/// Damaged bytes spell no transaction.
pub fn damaged_is_unspelled()
    ensures { DamagedIsUnspelled }
{}
