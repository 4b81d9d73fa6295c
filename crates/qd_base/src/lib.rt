//! Plain data of the database, and what it means: tables, rows, transactions and their replay.
//!
//! The definitions stand in `specs/`: `Rows` (a row's time and keys, `put`), `Names`, `Schemas`,
//! `Database` (tables and `step`), `Replay` (`after`, `first`), `Lawful`, `Laws`, `Codes` (the numbers of refusals) and
//! `Script` (what a front reads).
#![tactic(auto)]

mod cell;
mod code;
mod dedup;
mod dictionary;
mod front;
mod laws;
mod limits;
mod named;
mod names;
mod op;
mod part;
mod request;
mod schema;
mod schemas;
mod seq;
mod txt;
mod unit;

pub use cell::{Cell, Row, RowList};
pub use code::Code;
pub use dictionary::Dictionary;
pub use front::Front;
pub use laws::{
    cells_are_compared, equal_times_keep_order, keys_are_unique, last_of_equal_keys_stays,
    lawful_rows, lawful_schemas, limits_are_these, prefix_stands_alone, replay_of_more,
    rows_stay_in_order, schemas_follow, worked_examples,
};
pub use limits::{
    LAST_OFFSET, Limits, MAX_BATCH_CELLS, MAX_COLUMNS, MAX_LONG, MAX_NAME_BYTES, MAX_NESTING,
    MAX_NUMBER, MAX_QUERY_BYTES, MAX_RESULT_BYTES, MAX_SAMPLED_ROWS, MAX_STRIDE, MAX_SUFFIX_COUNT,
    MAX_TABLES, MAX_TEXT_BYTES, MAX_TIME, MAX_TXNS, MAX_WRITE_BYTES, NULL_ID, NULL_LONG, NULL_TIME,
};
pub use named::{Named, NamedList};
pub use names::{column_name_ok, same_name, table_name_ok};
pub use op::{Entry, Op, OpList};
pub use part::{Part, PartList, RefList, WalRef};
pub use request::{Reply, Request, Step, Table};
pub use schema::{Col, ColList, ColType, KeyList, PartUnit, Schema};
pub use schemas::Schemas;
pub use seq::{Duplicate, Memory, Seq};
pub use txt::Txt;
pub use unit::TimeUnit;
