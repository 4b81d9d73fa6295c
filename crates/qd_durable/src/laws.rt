//! The laws of what calls leave, each of them the contract of a function that does nothing.
ghost use Rattle.qd_durable.specs.Laws.{CallsJoin, PiecesStay, RangesWiden};

/// Two calls that touch a range, one behind the other, touch it.
pub fn calls_join()
    ensures { CallsJoin }
{}

/// A piece outside of the range that a call touches stays in each image, at every moment.
pub fn pieces_stay()
    ensures { PiecesStay }
{}

/// A call that touches a range touches each range around it.
pub fn ranges_widen()
    ensures { RangesWiden }
{}
