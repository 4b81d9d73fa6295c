//! What a commit needs of a batch and of a statement.
ghost use Rattle.std.specs.Prelude.{◌≡◌, IfErr, IfOk, Err, Ok};
ghost use Rattle.qd_base.specs.declared.op.Entry.{Entry};
ghost use Rattle.qd_base.specs.Lawful.{AreSchemas};
ghost use Rattle.qd_lines.specs.Walks.{IsLineFault, SaysOf};
ghost use Rattle.qd_meaning.specs.Write.{write};
ghost use Rattle.qd_sql_ast.specs.Kinds.{IsWrite};
ghost use Rattle.qd_writes.specs.Answers.{Answers};
ghost use Rattle.qd_prepare.specs.Prepared.{IsPrepared, IsRead, IsShort};

use crate::schemas::schemas_left;
use crate::sink::{EntrySink, Finished};
use qd_base::{Schemas, Txt};
use qd_ilp::Batch;
use qd_lines::{LineFault, walk_batch};
use qd_sql_ast::Stmt;
use qd_wal_entry::encode_entry;
use qd_writes::{StmtFault, check_write};
use std::alloc::Global;

/// What a commit needs of a transaction.
#[derive(Debug, Drop)]
pub struct Prepared {
    /// The bytes of its entry.
    pub bytes: Txt,
    /// The schemas that it leaves, where it makes a table or a column or sets keys; else it leaves those before it.
    pub schemas: Option<Schemas>,
}

/// Makes the transaction of a batch ready over the tables that are there, or says which line is refused, as `entry_of` of
/// `qd_lines` does: the first line that has a code, with its least code, or else the first outside the grammar. Lines
/// without a stamp take the time `now`, in microseconds.
///
/// It makes no rows: cells go from the batch straight into the bytes. It costs time linear in the batch and, for each row,
/// in the columns of its table, and memory linear in the bytes. Where the batch makes a table or a column, all schemas are
/// copied once. Where a line is refused, or no memory is found, nothing is left behind.
pub fn prepare_lines(
    alloc: Global,
    schemas: &Schemas,
    batch: &Batch,
    now: u64,
) -> Result<Prepared, LineFault>
    requires lawful { AreSchemas schemas.now }
    requires read { IsRead batch.now }
    ensures prepared { IfOk result (λ p. (e : Entry) × SaysOf schemas.now now batch.now (Ok e) × IsPrepared schemas.now e p) }
    ensures refused { IfErr result (λ fault. IsLineFault schemas.now now batch.now fault) }
{
    let mut sink = EntrySink::new(alloc)?;
    walk_batch(alloc, schemas, batch, now, &mut sink)?;
    let Finished { bytes, changes } = sink.finish()?;
    let schemas = schemas_left(schemas, changes.as_slice())?;
    Ok(Prepared { bytes, schemas })
}

/// Makes the transaction of a statement that writes ready over the tables that are there, or says why it is refused, as
/// `check_write` does: CREATE TABLE makes a table, INSERT puts rows into one, ALTER TABLE adds a column to one or sets its
/// deduplication keys.
///
/// It costs what `check_write` does, and time and memory linear in the bytes. For CREATE TABLE and ALTER TABLE all schemas
/// are copied once.
pub fn prepare_stmt(alloc: Global, schemas: &Schemas, stmt: &Stmt) -> Result<Prepared, StmtFault>
    requires lawful { AreSchemas schemas.now }
    requires short { IsShort stmt.now }
    requires writes { IsWrite stmt.now }
    ensures prepared { IfOk result (λ p. (e : Entry) × (write schemas.now stmt.now ≡ Ok e) × IsPrepared schemas.now e p) }
    ensures refused { IfErr result (λ fault. Answers (Err fault) (write schemas.now stmt.now)) }
{
    let entry = check_write(alloc, schemas, stmt)?;
    let bytes = encode_entry(alloc, &entry)?;
    let schemas = schemas_left(schemas, entry.ops.as_slice())?;
    Ok(Prepared { bytes, schemas })
}
