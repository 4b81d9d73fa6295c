//! The laws of manifests, each of them the contract of a function that does nothing.
ghost use Rattle.qd_manifest.specs.Laws.{OneManifestIsSpelled, OneSpelling, DamageHasOnePlace, DamagedIsUnspelled};

/// Bytes spell one manifest, and no other.
pub fn one_manifest_is_spelled()
    ensures { OneManifestIsSpelled }
{}

/// A manifest has one spelling.
pub fn one_spelling()
    ensures { OneSpelling }
{}

/// Damaged bytes have one place of damage.
pub fn damage_has_one_place()
    ensures { DamageHasOnePlace }
{}

/// Damaged bytes spell no manifest.
pub fn damaged_is_unspelled()
    ensures { DamagedIsUnspelled }
{}
