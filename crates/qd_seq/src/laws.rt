//! The laws of the sequencer log, each of them the contract of a function that does nothing.
ghost use Rattle.qd_seq.specs.Laws.{DamageHasOnePlace, DamagedGivesNone, OneListIsGiven, OtherFilesLeaveIt, WhatIsKnownIsGiven};

/// A log gives one list, and no other.
pub fn one_list_is_given()
    ensures { OneListIsGiven }
{}

/// A damaged log gives no list.
pub fn damaged_gives_none()
    ensures { DamagedGivesNone }
{}

/// A damaged log has one place of damage.
pub fn damage_has_one_place()
    ensures { DamageHasOnePlace }
{}

/// What is known of a log, each image gives.
pub fn what_is_known_is_given()
    ensures { WhatIsKnownIsGiven }
{}

/// What is known of a log stays through a call that changes other files alone.
pub fn other_files_leave_it()
    ensures { OtherFilesLeaveIt }
{}
