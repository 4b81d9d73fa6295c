//! The backend of a session: what it keeps, and how it answers.
ghost use Rattle.std.specs.Prelude.{◌≡◌, ◌≢◌, ◌≤◌, ℕ, List, Ok, Some, length};
ghost use Rattle.std.specs.Arc.{arc_value};
ghost use Rattle.qd_base.specs.declared.limits.TheConstants.{MAX_QUERY_BYTES};
ghost use Rattle.qd_base.specs.declared.request.Request.TheVariants as request;
ghost use Rattle.qd_ilp.specs.Whole.{IsReading};
ghost use Rattle.qd_prepare.specs.Prepared.{IsShort};
ghost use Rattle.qd_session.specs.Asking.{asks_for};
ghost use Rattle.qd_session.specs.Legal.{Handles};
ghost use Rattle.qd_session.specs.Timing.{IsRead};
ghost use Rattle.qd_score_model.specs.declared.view.Mode.TheVariants.{Keeper};
ghost use Rattle.qd_score_model.specs.declared.view.Phase.TheVariants.{Idle};
ghost use Rattle.qd_shared.specs.Passes.{Pass as Passing, view_of};
ghost use Rattle.qd_sql_ast.specs.Kinds.{IsQuestion, IsWrite};
ghost use Rattle.qd_pass.specs.Backs.{back_shown, table_in};
ghost use Rattle.qd_pass.specs.Passed.{GoesStill, IsReady, Settles};
ghost use Rattle.qd_pass.specs.Replies.{RepliesWith};
ghost use Rattle.qd_pass.specs.Shared.{AllowedShared};

use crate::asking::{Session, ask};
use qd_base::{Code, Memory, Reply, Txt};
use qd_ilp::Batch;
use qd_session::Backend;
use qd_shared::{Pass, RoundFault, Shared};
use qd_sql::{SqlFault, parse_stmt};
use qd_sql_ast::Stmt;
use qd_sql_laws::inserts_are_short;
use qd_store_backend::{refused, reply_of};
use qd_volume::Volume;
use std::alloc::{AllocError, Global};
use std::marker::Model;
use std::sync::{Arc, Wait};

/// The backend of a session over a shared store. Its pass writes, asks and applies beside those of other sessions, and it waits for
/// them through `rt`.
///
/// Contracts see what its pass knows.
pub struct PassBack<'r, R, V: Volume + Drop> {
    rt: &'r R,
    shared: Arc<Shared<V>>,
    /// It is away only while a question is answered.
    session: Option<Session<V>>,
}

impl<'r, R, V: Volume + Drop> Model for PassBack<'r, R, V> {
    ghost use Rattle.std.specs.Arc.{arc_value};
    ghost use Rattle.std.specs.Prelude.{Option};
    ghost use Rattle.qd_shared.specs.Passes.{Pass};
    ghost use Rattle.qd_pass.specs.Backs.{pass_in, IsBack};

    ghost Value = { Option Pass };

    ghost view = { λ b. pass_in b.session };

    ghost invariant = { λ b. IsBack (arc_value b.shared) b.session };
}

impl<'r, R: Wait, V: Volume + Drop> PassBack<'r, R, V> {
    /// Begins over a pass of a shared store. It takes the lock and gives it back once: what the session shows first is what it finds
    /// then.
    pub fn new(rt: &'r R, shared: Arc<Shared<V>>, pass: Pass<V>) -> PassBack<'r, R, V>
        requires pass { pass.table ≡ arc_value shared }
        requires idle { (view_of pass).phase ≡ Idle }
        requires kind { (view_of pass).mode ≢ Keeper }
        ensures begins { (p : Passing) × (result ≡ Some p) × GoesStill pass p × IsReady p }
    {
        let mut pass = pass;
        shared.look(rt, &mut pass);
        PassBack {
            rt,
            shared,
            session: Some(Session { pass, memo: None }),
        }
    }

    /// Ends the session, and gives its pass back.
    pub fn end(self) -> Pass<V>
        ensures pass { self.entry ≡ Some result }
        ensures ready { IsReady result }
    {
        let PassBack {
            rt: _,
            shared: _,
            session,
        } = self;
        let Some(Session { pass, memo: _ }) = session else {
            unreachable!()
        };
        pass
    }

    /// Carries out a statement of a text that is not too long.
    fn carry_out(&mut self, alloc: Global, stmt: &Stmt) -> Result<Reply, Memory>
        requires short { IsShort stmt.now }
        ensures handled { (text : List ℕ) → asks_for text ≡ Ok stmt.now → Handles AllowedShared (back_shown self.old) (back_shown self.new) 0 (request.Sql text) result }
        ensures fixed { table_in self.new ≡ table_in self.old }
    {
        match stmt {
            Stmt::Create(_) | Stmt::Insert(_) | Stmt::Alter(_) => self.write(alloc, stmt),
            Stmt::Query(_) | Stmt::Show(..) => self.answer(alloc, stmt),
        }
    }

    /// Commits a statement that writes.
    fn write(&mut self, alloc: Global, stmt: &Stmt) -> Result<Reply, Memory>
        requires short { IsShort stmt.now }
        requires writes { IsWrite stmt.now }
        ensures handled { (text : List ℕ) → asks_for text ≡ Ok stmt.now → Handles AllowedShared (back_shown self.old) (back_shown self.new) 0 (request.Sql text) result }
        ensures fixed { table_in self.new ≡ table_in self.old }
    {
        let Some(Session { mut pass, memo: _ }) = self.session.take() else {
            unreachable!()
        };
        let done = self.shared.commit_sql(self.rt, alloc, &mut pass, stmt);
        self.session = Some(Session { pass, memo: None });
        reply_of(done)
    }

    /// Answers a statement that asks over the current version.
    fn answer(&mut self, alloc: Global, stmt: &Stmt) -> Result<Reply, Memory>
        requires asks { IsQuestion stmt.now }
        ensures handled { (text : List ℕ) → asks_for text ≡ Ok stmt.now → Handles AllowedShared (back_shown self.old) (back_shown self.new) 0 (request.Sql text) result }
        ensures fixed { table_in self.new ≡ table_in self.old }
    {
        let Some(session) = self.session.take() else {
            unreachable!()
        };
        let (session, given) = ask(self.rt, alloc, &self.shared, session, stmt);
        self.session = Some(session);
        given
    }
}

impl<R: Wait, V: Volume + Drop> Backend for PassBack<'_, R, V> {
    type Fixed = Option<Shared<V>>;

    ghost shown = { back_shown };

    ghost fixed = { table_in };

    ghost rule = { AllowedShared };

    /// Commits a batch in one hold of the lock: what is answered by `K` is on the disk.
    fn lines(&mut self, alloc: Global, batch: &Batch, now: u64) -> Result<Reply, Memory>
        requires read { IsRead batch.now }
        ensures handled { (text : List ℕ) → IsReading text batch.now
            → Handles AllowedShared (back_shown self.old) (back_shown self.new) now (request.Write text) result }
        ensures fixed { table_in self.new ≡ table_in self.old }
    {
        let Some(Session { mut pass, memo: _ }) = self.session.take() else {
            unreachable!()
        };
        let done = self
            .shared
            .commit_lines(self.rt, alloc, &mut pass, batch, now);
        self.session = Some(Session { pass, memo: None });
        reply_of(done)
    }

    /// Commits CREATE TABLE, INSERT and ALTER TABLE in one hold of the lock, and answers a query and SHOW PARTITIONS over the current
    /// version, which is pinned without the lock meanwhile. A block is read in a hold of its own, and kept while no newer version is
    /// shown and the session itself doesn't write or apply.
    fn sql(&mut self, alloc: Global, text: &Txt) -> Result<Reply, Memory>
        requires short { length text.now ≤ MAX_QUERY_BYTES }
        ensures handled { Handles AllowedShared (back_shown self.old) (back_shown self.new) 0 (request.Sql text.now) result }
        ensures fixed { table_in self.new ≡ table_in self.old }
    {
        inserts_are_short();
        match parse_stmt(alloc, text.bytes()) {
            Ok(stmt) => self.carry_out(alloc, &stmt),
            Err(SqlFault::Refused { code, place }) => Ok(refused(code, place)),
            Err(SqlFault::Memory | SqlFault::TooDeep) => Err(AllocError),
        }
    }

    /// Makes the transactions that are there the current version, merged without the lock, and removes the blocks that no version
    /// lists any more. That the removal failed isn't told: a later apply goes on with it.
    fn apply(&mut self, alloc: Global) -> Result<Reply, Memory>
        ensures handled { Handles AllowedShared (back_shown self.old) (back_shown self.new) 0 request.Apply result }
        ensures fixed { table_in self.new ≡ table_in self.old }
    {
        let Some(Session { mut pass, memo: _ }) = self.session.take() else {
            unreachable!()
        };
        let done = settle(self.rt, alloc, &self.shared, &mut pass);
        self.session = Some(Session { pass, memo: None });
        reply_with(done)
    }

    fn is_counted(&self) {
        let _ = &self.session;
    }

    fn keeps_to_its_rule(&self) {}
}

/// Applies, and then removes the blocks that no version lists any more, as far as the volume lets it.
fn settle<R: Wait, V: Volume + Drop>(
    rt: &R,
    alloc: Global,
    shared: &Shared<V>,
    pass: &mut Pass<V>,
) -> Result<u64, RoundFault>
    requires pass { pass.old.table ≡ shared.now }
    ensures settles { Settles result pass.old pass.new }
{
    let n = match shared.catch_up(rt, alloc, pass) {
        Ok(n) => n,
        Err(fault) => return Err(fault),
    };
    let _removed = shared.purge(rt, pass);
    Ok(n)
}

/// The reply to an apply.
fn reply_with(done: Result<u64, RoundFault>) -> Result<Reply, Memory>
    ensures reply { RepliesWith done result }
{
    match done {
        Ok(n) => Ok(Reply::Applied { n }),
        Err(RoundFault::Vol) => Ok(refused(Code::Volume, 0)),
        Err(RoundFault::Damaged { file, at }) => Ok(Reply::Damaged { file, at }),
        Err(RoundFault::NoRow) => Ok(refused(Code::NoRow, 0)),
        Err(RoundFault::Memory) => Err(AllocError),
    }
}
