//! Laws of the definitions: each holds for all tables, rows and histories, and is the contract of a function that
//! does nothing.
ghost use Rattle.qd_base.specs.Laws.{CellsAreCompared, EqualTimesKeepOrder, KeysAreUnique, LastOfEqualKeysStays, LawfulRows, LawfulSchemas, LimitsAreThese, PrefixStandsAlone, ReplayOfMore, RowsStayInOrder, SchemasFollow};
ghost use Rattle.qd_base.specs.Examples.{WorkedExamples};

/// In each database of a replay, each table's rows stand in order of time.
pub fn rows_stay_in_order()
    ensures law { RowsStayInOrder }
{}

/// Without keys, rows of equal time keep commit order, and none is lost.
pub fn equal_times_keep_order()
    ensures law { EqualTimesKeepOrder }
{}

/// With keys, no two rows of a table are equal on all of them.
pub fn keys_are_unique()
    ensures law { KeysAreUnique }
{}

/// With keys, the last row of equal keys is the one that stays, and all others stay.
pub fn last_of_equal_keys_stays()
    ensures law { LastOfEqualKeysStays }
{}

/// Replay of one history behind another is replay of the second from the first's database.
pub fn replay_of_more()
    ensures law { ReplayOfMore }
{}

/// The database after a prefix doesn't depend on what follows it.
pub fn prefix_stands_alone()
    ensures law { PrefixStandsAlone }
{}

/// The schemas of a database change as a list of schemas does, at each change and so over a history.
pub fn schemas_follow()
    ensures law { SchemasFollow }
{}

/// A lawful history leaves at most 1,024 tables, each as a table may look like, and no two of one name.
pub fn lawful_schemas()
    ensures law { LawfulSchemas }
{}

/// A lawful history leaves rows with a cell of the right kind for each column, and with a designated timestamp.
pub fn lawful_rows()
    ensures law { LawfulRows }
{}

/// Two cells are equal, as keys compare them, exactly where they are one value.
pub fn cells_are_compared()
    ensures law { CellsAreCompared }
{}

/// The definitions give what is wanted at some short histories: late rows, equal times, keys, added columns, keys that are
/// set later.
pub fn worked_examples()
    ensures law { WorkedExamples }
{}

/// The greatest timestamp and the limits of payloads, names, texts and results.
pub fn limits_are_these()
    ensures law { LimitsAreThese }
{}
