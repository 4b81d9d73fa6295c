//! What holds of the last rows of any rows.
ghost use Rattle.qd_latest.specs.Laws.{ChainsAreLatestFirst, LatestRowsAreLast};

/// Each of the last rows is a row behind which none has its keys, and each row behind which none has its keys is one of
/// the last rows.
pub fn latest_rows_are_last()
    ensures law { LatestRowsAreLast }
{}

/// A chain has just the rows that hold its text, and of two rows the later one stands first.
pub fn chains_are_latest_first()
    ensures law { ChainsAreLatestFirst }
{}
