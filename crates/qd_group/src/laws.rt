//! Laws of groups and of aggregates: each holds for all rows, and is the contract of a function that does nothing.
ghost use Rattle.qd_group.specs.Laws.{ExtremesGoFirst, GroupsSplitRows};

/// Groups split rows: no two have the same key, each row is in exactly one, and they stand in order of first appearance.
pub fn groups_split_rows()
    ensures law { GroupsSplitRows }
{}

/// `min` and `max` are among the values that they are of, and no value is less than the one or greater than the other.
pub fn extremes_go_first()
    ensures law { ExtremesGoFirst }
{}
