//! The backend: what it keeps, and how it answers.
ghost use Rattle.std.specs.Prelude.{◌≡◌, ◌≤◌, ℕ, List, Option, Ok, length, IfErr, IfOk, IfSome};
ghost use Rattle.qd_base.specs.declared.limits.TheConstants.{MAX_QUERY_BYTES};
ghost use Rattle.qd_base.specs.declared.request.Reply.TheVariants as reply;
ghost use Rattle.qd_base.specs.declared.request.Request.TheVariants as request;
ghost use Rattle.qd_catalog.specs.Versions.{IsLive};
ghost use Rattle.qd_base.specs.declared.op.Entry.{Entry};
ghost use Rattle.qd_store_backend.specs.Backs.{back_shown, left_of, writer_behind, AreUsual, BeginsWith, GoesOn, IsRoundDamaged, IsLeftOf, IsPartDamaged, IsTold};
ghost use Rattle.qd_store_backend.specs.Replies.{RepliesWith};
ghost use Rattle.qd_store_backend.specs.Rounds.{number_in};
ghost use Rattle.qd_store_backend.specs.Volumes.{KeepsTold};
ghost use Rattle.qd_ilp.specs.Whole.{IsReading};
ghost use Rattle.qd_prepare.specs.Prepared.{IsShort};
ghost use Rattle.qd_session.specs.Alone.{AllowedAlone};
ghost use Rattle.qd_session.specs.Asking.{asks_for};
ghost use Rattle.qd_sql_ast.specs.Kinds.{IsQuestion, IsWrite};
ghost use Rattle.qd_session.specs.Legal.{Handles};
ghost use Rattle.qd_session.specs.Timing.{IsRead};

use crate::kept::KeptBlocks;
use crate::parts::{Round, StoreParts};
use crate::replies::{refused, reply_of, reply_over};
use qd_apply::schemas_of;
use qd_base::{Code, Memory, Reply, Txt};
use qd_durable::LogFault;
use qd_ghost::{Telling, Turning};
use qd_ilp::Batch;
use qd_query::run_query;
use qd_session::Backend;
use qd_sql::{SqlFault, parse_stmt};
use qd_sql_ast::Stmt;
use qd_sql_laws::inserts_are_short;
use qd_store::{CommitFault, Committed, Store, stores_are_whole, writers_go_on};
use qd_volume::Volume;
use qd_wal::one_entry_is_read;
use std::alloc::{AllocError, Global};
use std::marker::{Model, PhantomData};

/// A backend over a store, whose one session alone writes and applies.
///
/// Contracts see the store, the history where it is told, and how many transactions there were when it began, all later ones being
/// its own; the one writer by which it commits, once there is one; and, where the history is told, the transaction that a write that
/// failed may have left behind it, until the next commit settles that.
#[derive(Drop)]
pub struct StoreBack<V: Volume> {
    parts: StoreParts<V>,
    before: u64,
    /// The writer that its transactions are written by, once there is one.
    writer: Option<u32>,
    /// What a write that failed may have left behind the history.
    left: Telling,
}

impl<V: Volume> Model for StoreBack<V> {
    ghost use Rattle.qd_store_backend.specs.Backs.{Back, IsBack, left_of};

    ghost Value = { Back };

    ghost view = { λ b. record { parts = b.parts; before = b.before; writer = b.writer; left = left_of b.left.history } };

    ghost invariant = { λ b. IsBack (record { parts = b.parts; before = b.before; writer = b.writer; left = left_of b.left.history }) };
}

impl<V: Volume> StoreBack<V> {
    /// Begins over a store with the usual limits and one live version. Where a history is told of it, `told` has that. It takes
    /// memory for the schemas of the version and for blocks that are kept; where none is found, the store is handed back.
    pub fn over(alloc: Global, store: Store<V>, told: &Telling) -> Result<StoreBack<V>, Store<V>>
        requires usual { AreUsual store.store.limits }
        requires alone { (row : ℕ) → IsLive store.store.versions.versions row → row ≡ store.store.versions.versions.current }
        requires told { BeginsWith told.now.history store }
        ensures owned { IfOk result (λ b. b.parts.owned ≡ store) }
        ensures history { IfOk result (λ b. b.parts.history ≡ told.now.history) }
        ensures before { IfOk result (λ b. b.before ≡ length store.store.sequence.refs) }
        ensures left { IfOk result (λ b. IsLeftOf told.now.history store b.left) }
        ensures handed_back { IfErr result (λ s. s ≡ store) }
    {
        one_entry_is_read();
        store.keeps_its_law();
        let Ok(schemas) = schemas_of(alloc, store.shape_of(store.current())) else {
            return Err(store);
        };
        let Ok(kept) = KeptBlocks::none(alloc) else {
            return Err(store);
        };
        let telling = Telling::of(told);
        let before = store.hist_len();
        let parts = StoreParts::over(store, telling, schemas, kept);
        Ok(StoreBack {
            left: left_behind(&parts),
            parts,
            before,
            writer: None,
        })
    }

    /// Gives the volume back. Where the history is told, a crash leaves it whole there, with a version of no fewer transactions than
    /// the last answers were over; a transaction whose write failed may stand behind it, where one may have been left.
    pub fn into_volume(self) -> V
        ensures volume { V.storage result ≡ self.parts.owned.storage }
        ensures kept { IfSome self.parts.history (λ h.
            KeepsTold (V.storage result).disk h (back_shown self).pending (back_shown self).known) }
    {
        stores_are_whole();
        self.parts.is_told();
        let StoreBack {
            parts,
            before: _,
            writer: _,
            left: _,
        } = self;
        let store = parts.into_store();
        store.keeps_its_law();
        store.into_volume()
    }

    /// Carries out a statement of a text that is not too long.
    fn carry_out(&mut self, alloc: Global, stmt: &Stmt) -> Result<Reply, Memory>
        requires short { IsShort stmt.now }
        ensures handled { (text : List ℕ) → asks_for text ≡ Ok stmt.now → Handles AllowedAlone (back_shown self.old) (back_shown self.new) 0 (request.Sql text) result }
        ensures one_writer { GoesOn self.old self.new }
        ensures damaged { (file : ℕ) (at : ℕ) → result ≡ Ok (reply.Damaged file at) → IsPartDamaged self.old.parts.owned file at }
    {
        match stmt {
            Stmt::Create(_) | Stmt::Insert(_) | Stmt::Alter(_) => self.write(alloc, stmt),
            Stmt::Query(_) | Stmt::Show(..) => self.answer(alloc, stmt),
        }
    }

    /// Commits a statement that writes.
    fn write(&mut self, alloc: Global, stmt: &Stmt) -> Result<Reply, Memory>
        requires short { IsShort stmt.now }
        requires writes { IsWrite stmt.now }
        ensures handled { (text : List ℕ) → asks_for text ≡ Ok stmt.now → Handles AllowedAlone (back_shown self.old) (back_shown self.new) 0 (request.Sql text) result }
        ensures one_writer { GoesOn self.old self.new }
        ensures damaged { (file : ℕ) (at : ℕ) → result ≡ Ok (reply.Damaged file at) → ⊥ }
    {
        one_entry_is_read();
        writers_go_on();
        self.parts.is_told();
        let done = self.parts.commit_sql(alloc, self.writer, stmt);
        self.left = left_behind(&self.parts);
        self.writer = writer_after(self.writer, &done);
        reply_of(done)
    }

    /// Answers a statement that asks over the current version.
    fn answer(&mut self, alloc: Global, stmt: &Stmt) -> Result<Reply, Memory>
        requires asks { IsQuestion stmt.now }
        ensures handled { (text : List ℕ) → asks_for text ≡ Ok stmt.now → Handles AllowedAlone (back_shown self.old) (back_shown self.new) 0 (request.Sql text) result }
        ensures one_writer { GoesOn self.old self.new }
        ensures damaged { (file : ℕ) (at : ℕ) → result ≡ Ok (reply.Damaged file at) → IsPartDamaged self.old.parts.owned file at }
    {
        let n = self.parts.shown_n();
        let answer = run_query(alloc, &mut self.parts, stmt);
        self.parts.is_told();
        reply_over(n, answer)
    }
}

impl<V: Volume> Backend for StoreBack<V> {
    type Fixed = ();

    ghost shown = { back_shown };

    ghost fixed = { λ _. tt };

    ghost rule = { AllowedAlone };

    /// Commits a batch, as `Store::accept_lines` does: what is answered by `K` is on the disk. All batches and statements go on in one
    /// writer.
    fn lines(&mut self, alloc: Global, batch: &Batch, now: u64) -> Result<Reply, Memory>
        requires read { IsRead batch.now }
        ensures handled { (text : List ℕ) → IsReading text batch.now
            → Handles AllowedAlone (back_shown self.old) (back_shown self.new) now (request.Write text) result }
        ensures one_writer { GoesOn self.old self.new }
    {
        one_entry_is_read();
        writers_go_on();
        self.parts.is_told();
        let done = self.parts.commit_lines(alloc, self.writer, batch, now);
        self.left = left_behind(&self.parts);
        self.writer = writer_after(self.writer, &done);
        reply_of(done)
    }

    /// Commits CREATE TABLE, INSERT and ALTER TABLE, and answers a query and SHOW PARTITIONS over the current version. A block is read
    /// from the volume once, and kept until the next apply or until 256 others were asked for. Damage is answered only where the files
    /// of a part of that version are damaged at that byte.
    fn sql(&mut self, alloc: Global, text: &Txt) -> Result<Reply, Memory>
        requires short { length text.now ≤ MAX_QUERY_BYTES }
        ensures handled { Handles AllowedAlone (back_shown self.old) (back_shown self.new) 0 (request.Sql text.now) result }
        ensures one_writer { GoesOn self.old self.new }
        ensures damaged { (file : ℕ) (at : ℕ) → result ≡ Ok (reply.Damaged file at)
            → IsPartDamaged self.old.parts.owned file at }
    {
        inserts_are_short();
        match parse_stmt(alloc, text.bytes()) {
            Ok(stmt) => self.carry_out(alloc, &stmt),
            Err(SqlFault::Refused { code, place }) => Ok(refused(code, place)),
            Err(SqlFault::Memory | SqlFault::TooDeep) => Err(AllocError),
        }
    }

    /// Makes all transactions the current version, in rounds, of which each ends before the next transaction that sets keys; then it
    /// removes the blocks that the version doesn't list any more, until none is left, the volume fails or there is no memory. Where a
    /// round fails, those before it are shown. Damage is answered only where the next round finds it in what is left.
    fn apply(&mut self, alloc: Global) -> Result<Reply, Memory>
        ensures handled { Handles AllowedAlone (back_shown self.old) (back_shown self.new) 0 request.Apply result }
        ensures one_writer { GoesOn self.old self.new }
        ensures damaged { (file : ℕ) (at : ℕ) → result ≡ Ok (reply.Damaged file at)
            → IsRoundDamaged self.new.parts.owned file at }
    {
        one_entry_is_read();
        self.parts.is_told();
        let done = self.parts.show_all(alloc);
        self.left = left_behind(&self.parts);
        reply_with(done)
    }

    fn is_counted(&self) {
        self.parts.is_told();
    }

    fn keeps_to_its_rule(&self) {}
}

/// What a write that failed may have left behind the history of a source, where that is told.
fn left_behind<V: Volume>(parts: &StoreParts<V>) -> Telling
    ensures left { IsLeftOf parts.now.history parts.now.owned (left_of result.history) }
    ensures told { IfSome parts.now.history (IsTold parts.now.owned) }
{
    one_entry_is_read();
    parts.is_told();
    let mut left = Telling::of(&());
    left.turn::<StoreParts<V>, (), Leaving<V>>(parts, &());
    left
}

/// What is told of a write that failed.
struct Leaving<V> {
    marker: PhantomData<V>,
}

impl<V: Volume> Turning<StoreParts<V>, ()> for Leaving<V> {
    ghost use Rattle.qd_store_backend.specs.Backs.{IsLeftOf, left_of};

    ghost turns = { λ parts nothing before then. IsLeftOf parts.history parts.owned (left_of then) };
}

/// The writer once a commit is answered: its writer, or after a fault the one before.
fn writer_after(writer: Option<u32>, done: &Result<Committed, CommitFault>) -> Option<u32>
    ensures { result ≡ writer_behind writer done.now }
{
    match done {
        Ok(committed) => Some(committed.writer),
        Err(_) => writer,
    }
}

/// The reply to an apply. What a sweep left is removed by a later one.
fn reply_with(done: Result<Round, LogFault>) -> Result<Reply, Memory>
    ensures reply { RepliesWith (number_in done) result }
{
    match done {
        Ok(Round { upto, swept: _ }) => Ok(Reply::Applied { n: upto }),
        Err(LogFault::Vol) => Ok(refused(Code::Volume, 0)),
        Err(LogFault::Damaged { file, at }) => Ok(Reply::Damaged { file, at }),
        Err(LogFault::Memory) => Err(AllocError),
    }
}
