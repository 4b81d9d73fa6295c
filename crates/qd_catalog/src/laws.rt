//! The law of what was written to blocks, which is the contract of a function that does nothing.
ghost use Rattle.qd_catalog.specs.Laws.{CatalogsAreCovered};

/// No live version shows more rows of a block than were written to it: so it is of a catalogue that is made, and each call
/// leaves it so.
pub fn catalogs_are_covered()
    ensures law { CatalogsAreCovered }
{}
