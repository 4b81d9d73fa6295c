//! Laws of the definitions: each holds for all tables and batches, and is the contract of a function that does nothing.
ghost use Rattle.qd_merge.specs.Laws.{BatchesAreBatches, BatchesJoin, KeepsEveryRow, MergedInOrder, MergesOneByOne};
ghost use Rattle.qd_merge.specs.Examples.{WorkedExamples};
ghost use Rattle.qd_merge.specs.Shares.{SharesAreOwners};

/// Merging a batch, sorted and without the rows that it replaces itself, is putting its rows one by one as they came.
pub fn merges_one_by_one()
    ensures law { MergesOneByOne }
{}

/// Merging batch after batch is merging the one batch of all their rows.
pub fn batches_join()
    ensures law { BatchesJoin }
{}

/// A merge without keys keeps every row, of the table and of the batch, and adds none.
pub fn keeps_every_row()
    ensures law { KeepsEveryRow }
{}

/// A merge leaves rows in order of time.
pub fn merged_in_order()
    ensures law { MergedInOrder }
{}

/// A batch is in order of time, and no two of its rows are equal on the keys.
pub fn batches_are_batches()
    ensures law { BatchesAreBatches }
{}

/// Each part has one share of a batch, which has exactly the rows that belong to it; each partition without parts has one
/// of its rows.
pub fn shares_are_owners()
    ensures law { SharesAreOwners }
{}

/// Worked examples: what becomes of parts.
pub fn worked_examples()
    ensures law { WorkedExamples }
{}
