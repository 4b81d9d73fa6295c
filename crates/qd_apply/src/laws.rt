//! Laws of the definitions: each holds for all versions and transactions, and is the contract of a function that does
//! nothing.
ghost use Rattle.qd_apply.specs.Examples.{WorkedExamples};
ghost use Rattle.qd_apply.specs.Laws.{ArrivalsAreReplayed, MergingStands, RowsAreFew};

/// Replay is, table by table, the rows so far made as wide as the table is then, with the rows that came put one by
/// one.
pub fn arrivals_are_replayed()
    ensures law { ArrivalsAreReplayed }
{}

/// Merging transactions into the parts of a version gives a version that stands for the database replayed by them.
pub fn merging_stands()
    ensures law { MergingStands }
{}

/// A table has at most as many rows as transactions may insert cells.
pub fn rows_are_few()
    ensures law { RowsAreFew }
{}

/// Worked examples: the parts and blocks of a next version.
pub fn worked_examples()
    ensures law { WorkedExamples }
{}
