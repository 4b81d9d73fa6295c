//! The backend: what it keeps, and how it answers.
ghost use Rattle.std.specs.Prelude.{◌≡◌, ℕ, ◌+◌, ◌≤◌, List, [], ◌∷◌, ◌++◌, length, Ok, Result, IfOk, OnOk, OnErr};
ghost use Rattle.qd_base.specs.Codes.{number_of};
ghost use Rattle.qd_base.specs.declared.limits.TheConstants.{MAX_BATCH_CELLS};
ghost use Rattle.qd_base.specs.declared.request.Request.TheVariants as request;
ghost use Rattle.qd_base.specs.declared.request.Reply.TheVariants as reply;
ghost use Rattle.qd_base.specs.declared.request.Table.{Table};
ghost use Rattle.qd_base.specs.Database.{schemas_of};
ghost use Rattle.qd_base.specs.Lawful.{AreLawful, SetsKeysAlone, cells_of};
ghost use Rattle.qd_base.specs.Replay.{after, first};
ghost use Rattle.qd_ilp.specs.Whole.{IsReading};
ghost use Rattle.qd_meaning.specs.declared.refusal.Refusal.{Refusal};
ghost use Rattle.qd_meaning.specs.Answer.{answer as meant};
ghost use Rattle.qd_query.specs.Answers.{given as told};
ghost use Rattle.qd_session.specs.Alone.{AllowedAlone};
ghost use Rattle.qd_session.specs.Legal.{Handles};
ghost use Rattle.qd_session.specs.Asking.{asks_for};
ghost use Rattle.qd_sql_ast.specs.Kinds.{IsQuestion, IsWrite};
ghost use Rattle.qd_session.specs.Timing.{IsRead};
ghost use Rattle.qd_memory.specs.Listed.{CarriesOut, IsShort, Writes, WritesStmt, all_applied, answered, listed_shown, with_entry};

use crate::parts::ListParts;
use crate::schemas::{inserts_only, schemas_after};
use qd_base::{Code, Entry, MAX_QUERY_BYTES, Memory, Reply, Schemas, Seq, Txt};
use qd_ilp::Batch;
use qd_lines::{LineFault, batches_are_lawful, entry_of};
use qd_query::{Answer, run_query};
use qd_scan::PartSource;
use qd_session::Backend;
use qd_sql::{SqlFault, Stmt, parse_stmt};
use qd_sql_laws::inserts_are_short;
use qd_writes::{StmtFault, check_write};
use std::alloc::{AllocError, Global};
use std::marker::Model;

/// A backend that keeps its transactions in memory, in one list.
///
/// Contracts see the transactions and the number of those that are applied. Every transaction is its own. The rows of
/// those that are applied are kept in blocks, one for each partition of a table that has rows.
#[derive(Drop)]
pub struct ListBack {
    history: Seq<Entry>,
    applied: usize,
    schemas: Schemas,
    parts: ListParts,
}

impl Model for ListBack {
    ghost use Rattle.qd_memory.specs.Listed.{Listed, FitsTogether};

    ghost Value = { Listed };

    ghost view = { λ b. record { history = b.history; applied = b.applied } };

    ghost invariant = { λ b. FitsTogether b.history b.applied b.schemas b.parts };
}

impl ListBack {
    /// Makes a backend without a transaction. It takes no memory until something is written.
    pub fn new(alloc: Global) -> ListBack
        ensures history { result.history ≡ [] }
        ensures applied { result.applied ≡ 0 }
    {
        ListBack {
            history: Seq::new(alloc),
            applied: 0,
            schemas: Schemas::new(alloc),
            parts: ListParts::new(alloc),
        }
    }

    /// Makes a batch the next transaction, or refuses it.
    fn write(&mut self, alloc: Global, batch: &Batch, now: u64) -> Result<Reply, Memory>
        requires read { IsRead batch.now }
        ensures ok { IfOk result (λ given. Writes self.old self.new now batch.now given) }
        ensures err { OnErr result (self.new ≡ self.old) }
    {
        batches_are_lawful();
        match entry_of(alloc, &self.schemas, batch, now) {
            Ok(said) => self.commit(said),
            Err(LineFault::Refused { code, line }) => Ok(Reply::Refused {
                code: code.number(),
                place: line,
            }),
            Err(LineFault::Memory) => Err(AllocError),
        }
    }

    /// Makes a transaction the next one.
    fn commit(&mut self, entry: Entry) -> Result<Reply, Memory>
        requires lawful { AreLawful (schemas_of (after self.old.history)) entry.ops }
        requires cells { cells_of entry ≤ MAX_BATCH_CELLS }
        requires alone { SetsKeysAlone entry.ops }
        ensures ok { OnOk result (self.new ≡ with_entry self.old entry) }
        ensures reply { IfOk result (λ given. given ≡ reply.Done (length self.old.history + 1)) }
        ensures err { OnErr result (self.new ≡ self.old) }
    {
        if inserts_only(entry.ops.as_slice()) {
            self.history.push(entry)?;
        } else {
            let schemas = schemas_after(&self.schemas, entry.ops.as_slice())?;
            self.history.push(entry)?;
            self.schemas = schemas;
        }
        Ok(Reply::Done {
            n: self.history.len() as u64,
        })
    }

    /// Carries out a statement of a text that is not too long.
    fn carry_out(&mut self, alloc: Global, stmt: &Stmt) -> Result<Reply, Memory>
        requires short { IsShort stmt.now }
        ensures ok { IfOk result (λ given. CarriesOut self.old self.new (Ok stmt.now) given) }
        ensures err { OnErr result (self.new ≡ self.old) }
    {
        match stmt {
            Stmt::Create(_) | Stmt::Insert(_) | Stmt::Alter(_) => self.write_stmt(alloc, stmt),
            Stmt::Query(_) | Stmt::Show(..) => self.answer(alloc, stmt),
        }
    }

    /// Makes a statement that writes the next transaction, or refuses it.
    fn write_stmt(&mut self, alloc: Global, stmt: &Stmt) -> Result<Reply, Memory>
        requires short { IsShort stmt.now }
        requires writes { IsWrite stmt.now }
        ensures ok { IfOk result (λ given. WritesStmt self.old self.new stmt.now given) }
        ensures err { OnErr result (self.new ≡ self.old) }
    {
        match check_write(alloc, &self.schemas, stmt) {
            Ok(entry) => self.commit(entry),
            Err(StmtFault::Refused { code, place }) => Ok(refused(code, place)),
            Err(StmtFault::Memory) => Err(AllocError),
        }
    }

    /// Answers a statement that asks over what is applied.
    fn answer(&mut self, alloc: Global, stmt: &Stmt) -> Result<Reply, Memory>
        requires asks { IsQuestion stmt.now }
        ensures ok { IfOk result (λ given. given ≡ answered self.old.applied (meant (first self.old.history self.old.applied) stmt.now)) }
        ensures unchanged { self.new ≡ self.old }
    {
        // A source in memory has no fault but want of memory.
        match run_query(alloc, &mut self.parts, stmt) {
            Ok(answer) => Ok(answered(self.applied as u64, answer)),
            Err(_) => Err(AllocError),
        }
    }

    /// Tells that no more is applied than there is. It does nothing.
    fn is_within(&self)
        ensures { self.now.applied ≤ length self.now.history }
    {
        let _ = &self.history;
    }

    /// Applies all transactions that are not applied yet.
    fn apply_all(&mut self, alloc: Global) -> Result<Reply, Memory>
        ensures ok { OnOk result (self.new ≡ all_applied self.old) }
        ensures reply { IfOk result (λ given. given ≡ reply.Applied (length self.old.history)) }
        ensures err { OnErr result (self.new ≡ self.old) }
    {
        self.parts.keeps_its_law();
        let all = self.history.len();
        self.parts
            .apply(alloc, &self.history.as_slice()[self.applied..])?;
        self.applied = all;
        Ok(Reply::Applied { n: all as u64 })
    }
}

impl Backend for ListBack {
    type Fixed = ();

    ghost shown = { listed_shown };

    ghost fixed = { λ _. tt };

    ghost rule = { AllowedAlone };

    /// Makes a batch the next transaction, or refuses it whole at its first line that has a code. It costs what the
    /// transaction does, and a copy of all schemas where it makes a table or a column.
    fn lines(&mut self, alloc: Global, batch: &Batch, now: u64) -> Result<Reply, Memory>
        requires read { IsRead batch.now }
        ensures handled { (text : List ℕ) → IsReading text batch.now → Handles AllowedAlone (listed_shown self.old) (listed_shown self.new) now (request.Write text) result }
        ensures written { IfOk result (λ given. Writes self.old self.new now batch.now given) }
        ensures err { OnErr result (self.new ≡ self.old) }
    {
        self.write(alloc, batch, now)
    }

    /// Makes CREATE TABLE, INSERT and ALTER TABLE the next transaction, or refuses them; answers a query and SHOW PARTITIONS over what is
    /// applied, or refuses them by the refusal that goes first. A text that is no statement is refused as `parse_stmt`
    /// refuses it.
    ///
    /// It costs n log n in the length of the text; for a transaction what it holds, and a copy of all schemas where it makes
    /// a table; and for an answer what `run_query` does.
    fn sql(&mut self, alloc: Global, text: &Txt) -> Result<Reply, Memory>
        requires { length text.now ≤ MAX_QUERY_BYTES }
        ensures handled { Handles AllowedAlone (listed_shown self.old) (listed_shown self.new) 0 (request.Sql text.now) result }
        ensures carried_out { IfOk result (λ given. CarriesOut self.old self.new (asks_for text.now) given) }
        ensures err { OnErr result (self.new ≡ self.old) }
    {
        self.is_within();
        inserts_are_short();
        match parse_stmt(alloc, text.bytes()) {
            Ok(stmt) => self.carry_out(alloc, &stmt),
            Err(SqlFault::Refused { code, place }) => Ok(refused(code, place)),
            Err(SqlFault::Memory | SqlFault::TooDeep) => Err(AllocError),
        }
    }

    /// Applies all transactions. It costs time and memory linear in the partitions that get rows and in the transactions
    /// that were not applied, n log n in their rows where they are late.
    fn apply(&mut self, alloc: Global) -> Result<Reply, Memory>
        ensures handled { Handles AllowedAlone (listed_shown self.old) (listed_shown self.new) 0 request.Apply result }
        ensures ok { OnOk result (self.new ≡ all_applied self.old) }
        ensures reply { IfOk result (λ given. given ≡ reply.Applied (length self.old.history)) }
        ensures err { OnErr result (self.new ≡ self.old) }
    {
        self.is_within();
        self.apply_all(alloc)
    }

    fn is_counted(&self) {}

    fn keeps_to_its_rule(&self) {}
}

/// The reply that gives an answer over the first `n` transactions.
fn answered(n: u64, answer: Answer) -> Reply
    ensures { (r : Result Table Refusal) → answer ≡ told r → result ≡ answered n r }
{
    match answer {
        Answer::Rows(table) => Reply::Rows { n, table },
        Answer::Refused { code, place } => Reply::QueryRefused { n, code, place },
    }
}

/// The refusal of a text with a code at a place.
fn refused(code: Code, place: u64) -> Reply
    ensures { result ≡ reply.Refused (number_of code) place }
{
    Reply::Refused {
        code: code.number(),
        place,
    }
}
