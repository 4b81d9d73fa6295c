//! The laws of entries, each of them the contract of a function that does nothing.
ghost use Rattle.qd_wal_entry.specs.Laws.{OneEntryIsSpelled, OneSpelling, NoneIsAFront, DamageHasOnePlace, DamagedIsUnspelled};

/// Bytes spell one transaction, and no other.
pub fn one_entry_is_spelled()
    ensures { OneEntryIsSpelled }
{}

/// A transaction has one spelling.
pub fn one_spelling()
    ensures { OneSpelling }
{}

/// No spelling is the front of a longer one.
pub fn none_is_a_front()
    ensures { NoneIsAFront }
{}

/// Damaged bytes have one place of damage.
pub fn damage_has_one_place()
    ensures { DamageHasOnePlace }
{}

/// Damaged bytes spell no transaction.
pub fn damaged_is_unspelled()
    ensures { DamagedIsUnspelled }
{}
