//! The transaction of a statement that writes, or its refusal.
ghost use Rattle.std.specs.Prelude.{◌≡◌, ◌∷◌, [], List, IfOk};
ghost use Rattle.std.specs.Option.{option_copied};
ghost use Rattle.qd_base.specs.Lawful.{AreLawful, AreSchemas};
ghost use Rattle.qd_base.specs.Schemas.{schema_of};
ghost use Rattle.qd_base.specs.declared.schema.Schema.{Schema};
ghost use Rattle.qd_sql_ast.specs.declared.tree.Stmt.TheVariants as is;
ghost use Rattle.qd_sql_ast.specs.Kinds.{IsWrite};
ghost use Rattle.qd_meaning.specs.Refusals.{judged, least};
ghost use Rattle.qd_meaning.specs.Altering.{alter_faults, altered};
ghost use Rattle.qd_meaning.specs.Inserting.{insert_faults};
ghost use Rattle.qd_meaning.specs.Write.{inserted, write};
ghost use Rattle.qd_writes.specs.Answers.{Answers};
ghost use Rattle.qd_writes.specs.Filling.{rows_put};

use crate::alter::{alter_fault, changed};
use crate::create::{create_fault, created};
use crate::insert::{insert_fault, table_of};
use crate::rows::{Filled, fill};
use qd_base::{Code, Entry, Memory, Op, OpList, RowList, Schema, Schemas};
use qd_meaning::{Refusal, names_are_judged};
use qd_sql_ast::{Alter, Create, Insert, Stmt};
use std::alloc::Global;
use thiserror::Error;

/// Why a statement makes no transaction.
#[derive(Clone, Copy, Debug, PartialEq, Eq, Error)]
pub enum StmtFault {
    /// No memory was found.
    #[error("out of memory")]
    Memory,
    /// The statement is refused.
    #[error("refused at byte {place}: {code:?}")]
    Refused {
        /// `Name`, `UnknownTable`, `TableExists`, `Tables`, `Columns`, `DuplicateColumn`, `UnknownColumn`, `Keys`, `Types`,
        /// `TimeLiteral` or `TextTooLong`.
        code: Code,
        /// The offset of what is refused.
        place: u64,
    },
}

impl From<Memory> for StmtFault {
    ghost use Rattle.std.specs.Prelude.{◌≡◌};
    ghost use Rattle.qd_writes.specs.declared.check.StmtFault.TheVariants.{Memory};

    ghost from_gives = { λ _ e. e ≡ Memory };

    fn from(_: Memory) -> StmtFault {
        StmtFault::Memory
    }
}

/// Gives the transaction of a statement that writes over the schemas of the tables that are there, or why it is refused:
/// CREATE TABLE makes a table, INSERT puts rows into one, ALTER TABLE adds a column to one or sets its deduplication keys.
///
/// It costs n log n in the length of the statement, time logarithmic in the number of tables, and for INSERT time and memory
/// linear in its rows, which have a cell for each column of the table; also where it is refused.
pub fn check_write(alloc: Global, schemas: &Schemas, stmt: &Stmt) -> Result<Entry, StmtFault>
    requires writes { IsWrite stmt.now }
    ensures answer { Answers result (write schemas.now stmt.now) }

    // What is accepted is lawful over the schemas of a lawful history.
    ensures lawful { IfOk result (λ entry. AreSchemas schemas.now → AreLawful schemas.now entry.ops) }
{
    match stmt {
        Stmt::Create(create) => check_create(alloc, schemas, create),
        Stmt::Insert(insert) => check_insert(alloc, table_of(schemas, &insert.table), insert),
        Stmt::Alter(alter) => check_alter(alloc, table_of(schemas, &alter.table), alter),
        Stmt::Query(_) | Stmt::Show(..) => unreachable!(),
    }
}

/// The transaction of CREATE TABLE.
fn check_create(alloc: Global, schemas: &Schemas, create: &Create) -> Result<Entry, StmtFault>
    ensures answer { Answers result (write schemas.now (is.Create create.now)) }
    ensures lawful { IfOk result (λ entry. AreLawful schemas.now entry.ops) }
{
    names_are_judged();
    match create_fault(alloc, schemas, create)? {
        Some(refusal) => Err(refused(refusal)),
        None => {
            let schema = created(alloc, create)?;
            Ok(entry_of(alloc, Op::Create { schema })?)
        }
    }
}

/// The transaction of INSERT into a table.
fn check_insert(alloc: Global, table: Option<&Schema>, insert: &Insert) -> Result<Entry, StmtFault>
    ensures answer { let table = option_copied table.entry in
        Answers result (judged (least (insert_faults table insert.now)) (record { ops = inserted table insert.now })) }
    ensures lawful { (schemas : List Schema) → option_copied table.entry ≡ schema_of schemas insert.now.table.text →
        IfOk result (λ entry. AreSchemas schemas → AreLawful schemas entry.ops) }
{
    let Filled { rows, found } = fill(alloc, table, insert)?;
    match insert_fault(alloc, table, insert, found)? {
        Some(refusal) => Err(refused(refusal)),
        None => Ok(insertion(alloc, table, rows)?),
    }
}

/// The transaction of ALTER of a table.
#[tactic(auto, using(crate::proofs::AlterLawful::nothing_refused))]
fn check_alter(alloc: Global, table: Option<&Schema>, alter: &Alter) -> Result<Entry, StmtFault>
    ensures answer { let table = option_copied table.entry in
        Answers result (judged (least (alter_faults table alter.now)) (record { ops = altered table alter.now })) }
    ensures lawful { (schemas : List Schema) → option_copied table.entry ≡ schema_of schemas alter.now.table.text →
        IfOk result (λ entry. AreSchemas schemas → AreLawful schemas entry.ops) }
{
    names_are_judged();
    match alter_fault(alloc, table, alter)? {
        Some(refusal) => Err(refused(refusal)),
        None => Ok(alteration(alloc, table, alter)?),
    }
}

/// The transaction that changes a table as an ALTER without a refusal says, where the table is there.
#[tactic(auto, using(crate::proofs::AlterLawful::few))]
fn alteration(alloc: Global, table: Option<&Schema>, alter: &Alter) -> Result<Entry, Memory>
    requires { alter_faults (option_copied table) alter.now ≡ [] }
    ensures made { IfOk result (λ entry. entry ≡ record { ops = altered (option_copied table.entry) alter.now }) }
{
    match table {
        Some(schema) => {
            let change = changed(alloc, schema, &alter.change)?;
            entry_of(alloc, change)
        }
        None => Ok(Entry {
            ops: OpList::new(alloc),
        }),
    }
}

/// The transaction that puts rows into a table, where that is there.
fn insertion(alloc: Global, table: Option<&Schema>, rows: RowList) -> Result<Entry, Memory>
    ensures made { IfOk result (λ entry. entry ≡ record { ops = rows_put (option_copied table.entry) rows }) }
{
    match table {
        Some(schema) => {
            let table = schema.name.copy()?;
            entry_of(alloc, Op::Insert { table, rows })
        }
        None => Ok(Entry {
            ops: OpList::new(alloc),
        }),
    }
}

/// The transaction that makes one change.
fn entry_of(alloc: Global, change: Op) -> Result<Entry, Memory>
    ensures made { IfOk result (λ entry. entry ≡ record { ops = change ∷ [] }) }
{
    let mut ops = OpList::new(alloc);
    ops.push(change)?;
    Ok(Entry { ops })
}

/// The fault that a refusal is.
fn refused(refusal: Refusal) -> StmtFault
    ensures fault { result ≡ StmtFault.Refused refusal.code refusal.place }
{
    StmtFault::Refused {
        code: refusal.code,
        place: refusal.place,
    }
}
