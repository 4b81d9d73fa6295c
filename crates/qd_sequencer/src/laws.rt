//! The laws of sequencers, each of them the contract of a function that does nothing.
ghost use Rattle.qd_sequencer.specs.Laws.{OtherFilesLeaveTheSequence, WhatASequenceHolds};

/// What a sequencer stands behind, each image holds, or that with the transaction that is pending.
pub fn what_a_sequence_holds()
    ensures { WhatASequenceHolds }
{}

/// A call that changes other files alone leaves the sequence, at every moment what it holds, and what is pending.
pub fn other_files_leave_the_sequence()
    ensures { OtherFilesLeaveTheSequence }
{}
