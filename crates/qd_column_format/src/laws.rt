//! The laws of stored columns, each of them the contract of a function that does nothing.
ghost use Rattle.qd_column_format.specs.Laws.{OneColumnIsSpelled, LaterBytesDoNotCount, FirstRowsAreSpelled, AppendedRowsAreSpelled, DamageHasOnePlace, OneDictionaryIsSpelled, DictionaryDamageHasOnePlace};

/// Bytes spell one column of a kind and a number of rows, and no other.
pub fn one_column_is_spelled()
    ensures { OneColumnIsSpelled }
{}

/// Bytes past the shown rows are of no account.
pub fn later_bytes_do_not_count()
    ensures { LaterBytesDoNotCount }
{}

/// Bytes that spell a column spell its first rows.
pub fn first_rows_are_spelled()
    ensures { FirstRowsAreSpelled }
{}

/// Where two files spell the first rows of a column, what the other rows add, written at its places, makes them spell all
/// rows.
pub fn appended_rows_are_spelled()
    ensures { AppendedRowsAreSpelled }
{}

/// Bytes that spell no column are damaged at one place.
pub fn damage_has_one_place()
    ensures { DamageHasOnePlace }
{}

/// Bytes spell one dictionary of a number of texts, and no other.
pub fn one_dictionary_is_spelled()
    ensures { OneDictionaryIsSpelled }
{}

/// Bytes that spell no dictionary of some number of texts are damaged at one place.
pub fn dictionary_damage_has_one_place()
    ensures { DictionaryDamageHasOnePlace }
{}
