//! Laws of the definitions: each holds for all databases and statements, and is the contract of a function that does nothing.
ghost use Rattle.qd_meaning.specs.AnswerExamples.{PlansGiveTables, QueriesArePlanned};
ghost use Rattle.qd_meaning.specs.Bindings.{BindingsFollow};
ghost use Rattle.qd_meaning.specs.OperatorExamples.{OperatorsGive, SamplesGive};
ghost use Rattle.qd_meaning.specs.QueryExamples.{QueriesAreRefused};
ghost use Rattle.qd_meaning.specs.TypeExamples.{ClausesAreRefused, TypesAreRefused};
ghost use Rattle.qd_meaning.specs.WriteExamples.{AltersAreRefused, CreatesAreRefused, InsertsAreRefused, WritesAreMade};
ghost use Rattle.qd_meaning.specs.ListLaws.{JoinsTakeTheLast, LatestRowsStand};
ghost use Rattle.qd_meaning.specs.Laws.{LeastIsAnswered, LimitsCount, LooksAtNamedTables, NamesAreJudged, OutputNamesAreDistinct, PlansAnswer, RefusedHasNoAnswer, TimesAreRead};

/// Of several refusals the one that is answered goes first before each, by the order of codes and then by place.
pub fn least_is_answered()
    ensures law { LeastIsAnswered }
{}

/// A statement has an answer exactly where nothing is refused in it, and a transaction likewise; else it is refused with the
/// least of its refusals.
pub fn refused_has_no_answer()
    ensures law { RefusedHasNoAnswer }
{}

/// Databases that agree on the tables that a statement names answer it alike.
pub fn looks_at_named_tables()
    ensures law { LooksAtNamedTables }
{}

/// No two columns of an answer have one name.
pub fn output_names_are_distinct()
    ensures law { OutputNamesAreDistinct }
{}

/// How many rows a LIMIT gives, and from which end.
pub fn limits_count()
    ensures law { LimitsCount }
{}

/// Times and intervals of a statement are those that their texts spell.
pub fn times_are_read()
    ensures law { TimesAreRead }
{}

/// The tests of names by which statements are judged are the rules of names.
pub fn names_are_judged()
    ensures law { NamesAreJudged }
{}

/// The parts of a query over the schemas alone have its refusals and give its answer, wherever its tables stand.
pub fn plans_answer()
    ensures law { PlansAnswer }
{}

/// A join gives one row for each left row, in order, with the last right row that it may take, wherever that stands.
pub fn joins_take_the_last()
    ensures law { JoinsTakeTheLast }
{}

/// No two of the last rows have the same keys, and for each row one of them has its keys.
pub fn latest_rows_stand()
    ensures law { LatestRowsStand }
{}

/// What an expression of a statement becomes, rule by rule of the grammar.
pub fn bindings_follow()
    ensures law { BindingsFollow }
{}

/// The operators on whole lists give what is wanted at some short lists: joins, last rows, orders, limits, names, partitions.
pub fn operators_give()
    ensures law { OperatorsGive }
{}

/// Samples give what is wanted at some short lists: fills, offsets, months, a first observation.
pub fn samples_give()
    ensures law { SamplesGive }
{}

/// Some statements that write have the wanted transactions.
pub fn writes_are_made()
    ensures law { WritesAreMade }
{}

/// Some CREATE statements are refused with the wanted codes and places.
pub fn creates_are_refused()
    ensures law { CreatesAreRefused }
{}

/// Some INSERT statements are refused with the wanted codes and places.
pub fn inserts_are_refused()
    ensures law { InsertsAreRefused }
{}

/// Some ALTER statements are refused with the wanted codes and places.
pub fn alters_are_refused()
    ensures law { AltersAreRefused }
{}

/// Some queries are refused with the wanted codes and places, and others not.
pub fn queries_are_refused()
    ensures law { QueriesAreRefused }
{}

/// Some queries have the wanted parts.
pub fn queries_are_planned()
    ensures law { QueriesArePlanned }
{}

/// The parts of some queries give the wanted tables.
pub fn plans_give_tables()
    ensures law { PlansGiveTables }
{}

/// Some expressions are refused for their types with the wanted places, and others not.
pub fn types_are_refused()
    ensures law { TypesAreRefused }
{}

/// Some clauses of queries are refused with the wanted codes and places, and others not.
pub fn clauses_are_refused()
    ensures law { ClausesAreRefused }
{}
