//! The laws of version files, each of them the contract of a function that does nothing.
ghost use Rattle.qd_txnfile.specs.Laws.{DamageHasOnePlace, DamagedGiveNone, OneVersionIsGiven, WhatIsKnownIsGiven};

/// Two files give one version, and no other.
pub fn one_version_is_given()
    ensures { OneVersionIsGiven }
{}

/// Damaged files give no version.
pub fn damaged_give_none()
    ensures { DamagedGiveNone }
{}

/// Damaged files have one place of damage.
pub fn damage_has_one_place()
    ensures { DamageHasOnePlace }
{}

/// What a root knows of a volume, each of its images gives.
pub fn what_is_known_is_given()
    ensures { WhatIsKnownIsGiven }
{}
