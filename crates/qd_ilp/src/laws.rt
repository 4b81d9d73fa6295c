//! Laws of the definitions: each holds for all texts, and is the contract of a function that does nothing.
ghost use Rattle.qd_ilp.specs.Laws.{EscapesAreUndone, PartsAreCut, TextsAreRead, WorkedLines};

/// A name, a value, a quoted text and a tag or field end where they are cut, and are what the cut gives: the reading
/// from left to right gives what the grammar says, and nothing else.
pub fn parts_are_cut()
    ensures law { PartsAreCut }
{}

/// Every text is read, up to its end or up to its first line that is outside the grammar, and in one way only.
pub fn texts_are_read()
    ensures law { TextsAreRead }
{}

/// The transactions of some short lists of lines are what is meant.
pub fn worked_lines()
    ensures law { WorkedLines }
{}

/// Names, quoted texts, tags, fields and whole rows that are written with every escape that they need are read back.
pub fn escapes_are_undone()
    ensures law { EscapesAreUndone }
{}
