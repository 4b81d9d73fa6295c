//! The laws of stores, each of them the contract of a function that does nothing.
ghost use Rattle.qd_store.specs.Laws.{AppliedIsAll, CrashedIsWhole, OneIsFound, StoresAreWhole, WritersGoOn};

use qd_column_files::laws::one_block_is_held;
use qd_manifest::laws::one_manifest_is_spelled;
use qd_seq::one_list_is_given;
use qd_sequencer::what_a_sequence_holds;
use qd_txnfile::one_version_is_given;
use qd_versions::what_is_known_is_given;
use qd_wal::one_entry_is_read;
use qd_wal_entry::laws::one_spelling;

/// Between two calls the volume of a store is whole: each image that a crash may leave has the history, or with it the transaction
/// that a failed commit left, and the current version, or the one that a failed publication left.
pub fn stores_are_whole()
    ensures law { StoresAreWhole }
{
    one_list_is_given();
    one_version_is_given();
    one_manifest_is_spelled();
    one_spelling();
    one_block_is_held();
    what_a_sequence_holds();
    what_is_known_is_given();
}

/// A volume that a crash has left as the image of a whole store, with all of it on the disk, is whole.
pub fn crashed_is_whole()
    ensures law { CrashedIsWhole }
{}

/// One thing is found in an image.
pub fn one_is_found()
    ensures law { OneIsFound }
{
    one_list_is_given();
    one_version_is_given();
    one_manifest_is_spelled();
    one_entry_is_read();
}

/// Where the current version shows as many transactions as there are, each image holds the database after the whole history.
pub fn applied_is_all()
    ensures law { AppliedIsAll }
{}

/// A commit by a writer that is kept goes on in its log, and no writer comes or goes. Behind each commit its writer is kept.
pub fn writers_go_on()
    ensures law { WritersGoOn }
{}
