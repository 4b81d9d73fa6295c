//! The laws of stores of versions, each of them the contract of a function that does nothing.
ghost use Rattle.qd_versions.specs.Laws.{DamagedGivesNoStore, OtherFilesLeaveTails, OtherFilesLeaveVersions, WhatIsKnownIsGiven};

/// What is known of a store stays through a call that changes no version file, and at every moment of it.
pub fn other_files_leave_versions()
    ensures { OtherFilesLeaveVersions }
{}

/// What is known of kept tails stays through a call that changes no file of a block that the current version names.
pub fn other_files_leave_tails()
    ensures { OtherFilesLeaveTails }
{}

/// What is known of a store, each image gives.
pub fn what_is_known_is_given()
    ensures { WhatIsKnownIsGiven }
{}

/// A store isn't damaged where its files give a version of at most so many transactions, whose manifest is spelled.
pub fn damaged_gives_no_store()
    ensures { DamagedGivesNoStore }
{}
