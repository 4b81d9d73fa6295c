//! Laws of the calls of a store on a volume that tells what it holds: each holds for all lists of calls, and is the contract of a
//! function that does nothing.
//!
//! `specs/Calls` has the calls: whoever has made one has its step, out of the clauses of `qd_store::Store`. `specs/Runs` has what a
//! stop is.
ghost use Rattle.qd_recovery.specs.Laws.{CallsAreSteps, NoStopLosesAny, NoStopsLoseAny, OpeningAndApplyingGivesAll, OpeningGivesAll, StoresGoOn, WorkedExamples};

use qd_lines::one_answer;
use qd_store::{applied_is_all, crashed_is_whole, one_is_found, stores_are_whole};
use qd_volume::{now_is_a_moment_since, reads_as_an_image};

/// Whoever has made a call of a store on a told volume has its step, by the clauses of that call alone.
pub fn calls_are_steps()
    ensures law { CallsAreSteps }
{}

/// Behind any calls a store stands behind the history that it began with, and exactly the transactions that it acknowledged since, in
/// order, each by the number that was answered.
pub fn stores_go_on()
    ensures law { StoresGoOn }
{
    one_answer();
    reads_as_an_image();
}

/// A stop at any moment leaves a whole store, with the history that the run began with, all transactions that it acknowledged, and at
/// most one more: that of the call within which the stop came, or that of a commit that failed behind the last one that answered `Ok`.
/// Its version shows no fewer transactions than the current one did.
pub fn no_stop_loses_any()
    ensures law { NoStopLosesAny }
{
    one_answer();
    stores_are_whole();
    now_is_a_moment_since();
}

/// However often the machine stops, no transaction is lost that was acknowledged in any run, and each keeps the number that was
/// answered, where each run begins with what the stop before left.
pub fn no_stops_lose_any()
    ensures law { NoStopsLoseAny }
{
    one_answer();
    stores_are_whole();
    now_is_a_moment_since();
    reads_as_an_image();
    one_is_found();
}

/// What a stop left is opened as what is found there, however often the machine stops while it is opened; and once the current version
/// shows all transactions, the volume holds the database after the whole history.
pub fn opening_gives_all()
    ensures law { OpeningGivesAll }
{
    one_answer();
    crashed_is_whole();
    applied_is_all();
    reads_as_an_image();
}

/// After a stop at any moment, opening and applying gives every acknowledged transaction and at most one more for each stop.
pub fn opening_and_applying_gives_all()
    ensures law { OpeningAndApplyingGivesAll }
{
    one_answer();
    stores_are_whole();
    now_is_a_moment_since();
    one_is_found();
    crashed_is_whole();
    applied_is_all();
    reads_as_an_image();
}

/// Commits that fail and commits that answer `Ok`, with what they acknowledge and what may be left behind it.
pub fn worked_examples()
    ensures law { WorkedExamples }
{}
