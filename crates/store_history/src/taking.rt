//! Steps that are taken with a store.
ghost use Rattle.qd_base.specs.Lawful.{AreSchemas};
ghost use Rattle.qd_prepare.specs.Prepared.{IsRead, IsShort};
ghost use Rattle.qd_sql_ast.specs.Kinds.{IsWrite};
ghost use Rattle.std.specs.Bool.{OnTrue};

use crate::answer::{push_commit, push_fault, push_round};
use crate::device::Device;
use crate::numbers::Numbers;
use crate::record::Record;
use crate::rounds::{publish_twice, round};
use crate::shown::{push_tables, shows};
use crate::step::StoreStep;
use crate::trouble::{Trouble, hold};
use qd_base::{Schemas, Txt};
use qd_ilp::{Batch, parse_batch};
use qd_io::IoFault;
use qd_lines::LineFault;
use qd_prepare::{prepare_lines, prepare_stmt};
use qd_sql::{SqlFault, parse_stmt};
use qd_sql_ast::Stmt;
use qd_store::{LogFault, Store};
use qd_writes::StmtFault;
use std::alloc::Global;

/// The time of lines without a stamp.
pub const NOW: u64 = 7;

/// How many rows of versions there are.
const ROWS: u8 = 64;

/// More blocks than are retired at once, and more tuples than a statement has.
const MANY: usize = 1_000;

/// Takes a step, and adds what it answers. Says whether the device failed; the history and the version are as before then.
pub fn take_with(
    alloc: Global,
    store: &mut Store<Device>,
    record: &mut Record,
    step: &StoreStep,
    out: &mut String,
) -> Result<bool, Trouble> {
    let before = (store.hist_len(), store.version_n());
    let failed = answer(alloc, store, record, step, out)?;
    let after = (store.hist_len(), store.version_n());
    hold(
        !failed || before == after,
        "what failed has changed something",
    )?;
    Ok(failed)
}

/// Takes a step, and adds what it answers. Says whether the device failed.
fn answer(
    alloc: Global,
    store: &mut Store<Device>,
    record: &mut Record,
    step: &StoreStep,
    out: &mut String,
) -> Result<bool, Trouble> {
    match step {
        StoreStep::Lines { writer, text } => commit_lines(alloc, store, record, *writer, text, out),
        StoreStep::Sql { writer, text } => commit_sql(alloc, store, record, *writer, text, out),
        StoreStep::Round(upto) => {
            let upto = upto.unwrap_or(store.hist_len());
            push_round(out, round(alloc, store, upto))
        }
        StoreStep::Twice(upto) => push_round(out, publish_twice(alloc, store, *upto)),
        StoreStep::Sweep => sweep_all(store, out),
        StoreStep::Check => check(alloc, store, record, out),
        StoreStep::Rows => show_rows(alloc, store, out),
        StoreStep::End(writer) => {
            store.end_writer(*writer);
            Ok(false)
        }
        StoreStep::Retire(row) => retire(store, *row, out),
        StoreStep::Counts => count(store, out),
        StoreStep::Places => show_places(store, out),
        StoreStep::Listed => show_listed(alloc, store, out),
    }
}

/// The bytes that a batch's transaction has in the log; none, where it is refused.
fn bytes_of_lines(alloc: Global, schemas: &Schemas, batch: &Batch) -> Result<Option<Txt>, Trouble>
    requires lawful { AreSchemas schemas.now }
    requires read { IsRead batch.now }
{
    match prepare_lines(alloc, schemas, batch, NOW) {
        Ok(prepared) => Ok(Some(prepared.bytes)),
        Err(LineFault::Refused { .. }) => Ok(None),
        Err(LineFault::Memory) => Err(Trouble::Memory),
    }
}

/// Commits a batch.
fn commit_lines(
    alloc: Global,
    store: &mut Store<Device>,
    record: &mut Record,
    writer: Option<u32>,
    text: &[u8],
    out: &mut String,
) -> Result<bool, Trouble> {
    let batch = parse_batch(alloc, text)?;
    let said = bytes_of_lines(alloc, store.schemas(), &batch)?;
    let done = store.accept_lines(alloc, writer, &batch, NOW, None);
    record.follow(said, &done)?;
    push_commit(out, &done)
}

/// Whether a statement writes, and has few tuples.
fn is_small_write(stmt: &Stmt) -> bool
    ensures small { OnTrue result (IsShort stmt.now) }
    ensures writes { OnTrue result (IsWrite stmt.now) }
{
    match stmt {
        Stmt::Create(_) | Stmt::Alter(_) => true,
        Stmt::Insert(insert) => insert.tuples.len() < MANY,
        Stmt::Query(_) | Stmt::Show(..) => false,
    }
}

/// The statement of a text.
fn stmt_of(alloc: Global, text: &[u8]) -> Result<Box<Stmt>, Trouble> {
    match parse_stmt(alloc, text) {
        Ok(stmt) => Ok(Box::new(alloc, stmt)?),
        Err(SqlFault::Memory) => Err(Trouble::Memory),
        Err(_) => Err(Trouble::Wrong("no statement")),
    }
}

/// The bytes that a statement's transaction has in the log; none, where it is refused.
fn bytes_of_stmt(alloc: Global, schemas: &Schemas, stmt: &Stmt) -> Result<Option<Txt>, Trouble>
    requires lawful { AreSchemas schemas.now }
    requires short { IsShort stmt.now }
    requires writes { IsWrite stmt.now }
{
    match prepare_stmt(alloc, schemas, stmt) {
        Ok(prepared) => Ok(Some(prepared.bytes)),
        Err(StmtFault::Refused { .. }) => Ok(None),
        Err(StmtFault::Memory) => Err(Trouble::Memory),
    }
}

/// Commits a statement.
fn commit_sql(
    alloc: Global,
    store: &mut Store<Device>,
    record: &mut Record,
    writer: Option<u32>,
    text: &[u8],
    out: &mut String,
) -> Result<bool, Trouble> {
    let stmt = stmt_of(alloc, text)?;
    if !is_small_write(&stmt) {
        return Err(Trouble::Wrong("a statement that doesn't write, or a long one"));
    }
    let said = bytes_of_stmt(alloc, store.schemas(), &stmt)?;
    let done = store.accept_sql(alloc, writer, &stmt);
    record.follow(said, &done)?;
    push_commit(out, &done)
}

/// Sweeps all blocks that no version lists. Gives their number.
fn swept(store: &mut Store<Device>) -> Result<usize, IoFault> {
    for n in 0..MANY {
        if !store.sweep()? {
            return Ok(n);
        }
    }
    Ok(MANY)
}

/// Sweeps all blocks that no version lists.
fn sweep_all(store: &mut Store<Device>, out: &mut String) -> Result<bool, Trouble> {
    match swept(store) {
        Ok(n) => {
            write!(out, "swept {n}")?;
            Ok(false)
        }
        Err(cause) => push_fault(out, LogFault::from(cause)),
    }
}

/// Compares each live version with the plain replay.
fn check(
    alloc: Global,
    store: &mut Store<Device>,
    record: &Record,
    out: &mut String,
) -> Result<bool, Trouble> {
    let mut live = 0u32;
    for row in 0..ROWS {
        if let Some(n) = store.n_of(row) {
            match shows(alloc, store, row, record.state(n)?) {
                Ok(same) => hold(same, "a version shows other rows")?,
                Err(cause) => return push_fault(out, cause),
            }
            live = live.saturating_add(1);
        }
    }
    write!(out, "live {live}")?;
    Ok(false)
}

/// Shows the rows of the current version.
fn show_rows(alloc: Global, store: &mut Store<Device>, out: &mut String) -> Result<bool, Trouble> {
    let row = store.current();
    let mut tables = String::new(alloc);
    match push_tables(alloc, store, row, &mut tables) {
        Ok(()) => {
            let n = store.version_n();
            write!(out, "rows {n}{tables}")?;
            Ok(false)
        }
        Err(cause) => push_fault(out, cause),
    }
}

/// Retires a version, or the first one that isn't the current one.
fn retire(store: &mut Store<Device>, row: Option<u8>, out: &mut String) -> Result<bool, Trouble> {
    match row {
        Some(row) if store.may_retire(row) => {
            store.retire(row);
            write!(out, "retired {row}")?;
        }
        Some(_) => out.push_str("kept")?,
        None => match retire_first(store) {
            Some(row) => write!(out, "retired {row}")?,
            None => out.push_str("kept")?,
        },
    }
    Ok(false)
}

/// Retires the first version that isn't the current one.
fn retire_first(store: &mut Store<Device>) -> Option<u8> {
    for row in 0..ROWS {
        if store.may_retire(row) {
            store.retire(row);
            return Some(row);
        }
    }
    None
}

/// Retires all versions but the current one.
pub fn retire_others(store: &mut Store<Device>) {
    for row in 0..ROWS {
        if store.may_retire(row) {
            store.retire(row);
        }
    }
}

/// Shows how many transactions there are, and how many the current version shows.
fn count(store: &Store<Device>, out: &mut String) -> Result<bool, Trouble> {
    let (n, shown) = (store.hist_len(), store.version_n());
    write!(out, "history {n} shown {shown}")?;
    Ok(false)
}

/// Shows where the transactions stand.
fn show_places(store: &Store<Device>, out: &mut String) -> Result<bool, Trouble> {
    out.push_str("places")?;
    for at in store.refs() {
        let (wal, segment, start, len) = (at.wal, at.segment, at.start, at.len);
        write!(out, " {wal}/{segment}/{start}/{len}")?;
    }
    Ok(false)
}

/// Shows the blocks that the current version lists.
fn show_listed(alloc: Global, store: &Store<Device>, out: &mut String) -> Result<bool, Trouble> {
    let mut blocks = Numbers::new(alloc);
    for table in store.shape_of(store.current()).as_slice() {
        for part in table.parts.as_slice() {
            blocks.add(part.block)?;
        }
    }
    write!(out, "listed{blocks}")?;
    Ok(false)
}
