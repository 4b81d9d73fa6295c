//! What every run of the scoreboard keeps. Each function takes and returns nothing: its contract is the law.
ghost use Rattle.qd_score_model.specs.Laws.{EveryRunIsKept, PinnedRowsAreLive, PinnedBlocksArePresent, HistoryOnlyGrows, SeatsSeeOneHistory, SeatsOnlyLearn, NothingIsForgotten, PositionsAreOnesOwn, LastSeatHasAddedAll, PinsStaySmall, SoleSeatRetires};
ghost use Rattle.qd_score_model.specs.Examples.{WorkedExamples};

/// After every list of steps, in whatever order seats take them, all nine parts of the rule hold.
pub fn every_run<I, S>()
    ensures law { EveryRunIsKept I S }
{}

/// A version that a seat has pinned is live in its row, with the number that the seat pinned.
pub fn pinned_rows_are_live<I, S>()
    ensures law { PinnedRowsAreLive I S }
{}

/// All blocks of a pinned version are present, whenever nobody holds the lock.
pub fn pinned_blocks_are_present<I, S>()
    ensures law { PinnedBlocksArePresent I S }
{}

/// Whatever steps come, the history goes on behind its end: nothing of it is lost or changed.
pub fn history_only_grows<I, S>()
    ensures law { HistoryOnlyGrows I S }
{}

/// Of what two seats have seen, one is a beginning of the other.
pub fn seats_see_one_history<I, S>()
    ensures law { SeatsSeeOneHistory I S }
{}

/// Whatever steps come, a seat that doesn't go into another forgets nothing that it has seen and no position of its own, and
/// the number that it knows never falls.
pub fn seats_only_learn<I, S>()
    ensures law { SeatsOnlyLearn I S }
{}

/// What a seat knew is known to a seat that stands, also where the first one went into another.
pub fn nothing_is_forgotten<I, S>()
    ensures law { NothingIsForgotten I S }
{}

/// A position of the history that a seat added is no other seat's.
pub fn positions_are_ones_own<I, S>()
    ensures law { PositionsAreOnesOwn I S }
{}

/// A seat that each other one went into has added all that came since the opening, and nothing else is there.
pub fn last_seat_has_added_all<I, S>()
    ensures law { LastSeatHasAddedAll I S }
{}

/// A row has fewer than [`PINS_END`](crate::PINS_END) pins, so twice as many fit a word beside its live bit.
pub fn pins_stay_small<I, S>()
    ensures law { PinsStaySmall I S }
{}

/// While a Sole seat is idle no row has a pin, so each row that it retires goes.
pub fn sole_seat_retires<I, S>()
    ensures law { SoleSeatRetires I S }
{}

/// Small runs: a pin holds its row until it is dropped, and one that comes too late finds no version.
pub fn worked_examples()
    ensures law { WorkedExamples }
{}
