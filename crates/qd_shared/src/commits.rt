//! Commits, each in one hold.
ghost use Rattle.std.specs.Prelude.{◌≡◌, ◌≢◌, None};
ghost use Rattle.qd_manifest.specs.Spelling.{blocks_of};
ghost use Rattle.qd_prepare.specs.Prepared.{IsRead, IsShort};
ghost use Rattle.qd_score.specs.Calls as seats;
ghost use Rattle.qd_score_model.specs.declared.view.Mode.TheVariants.{Keeper};
ghost use Rattle.qd_sql_ast.specs.Kinds.{IsWrite};
ghost use Rattle.qd_shared.specs.Commits.{batch_at, statement, Commits};
ghost use Rattle.qd_shared.specs.Passes.{view_of};

use crate::known::ready_ahead;
use crate::pass::Pass;
use crate::shared::Shared;
use qd_ilp::Batch;
use qd_sql_ast::Stmt;
use qd_store::{CommitFault, Committed};
use qd_volume::Volume;
use std::alloc::Global;
use std::sync::Wait;

impl<V: Volume + Drop> Shared<V> {
    /// Commits the transaction of a batch, in one hold of the lock, as [`Store::accept_lines`](qd_store::Store::accept_lines) does. It is
    /// made ready before, over the schemas that the pass found last; where they have changed since, it is made ready in the hold.
    /// Behind an `Ok` the bell is rung.
    pub fn commit_lines<R: Wait>(
        &self,
        rt: &R,
        alloc: Global,
        pass: &mut Pass<V>,
        batch: &Batch,
        now: u64,
    ) -> Result<Committed, CommitFault>
        requires pass { pass.old.table ≡ self.now }
        requires kind { (view_of pass.old).mode ≢ Keeper }
        requires read { IsRead batch.now }
        ensures commits { Commits (batch_at now batch.now) result pass.old pass.new }
    {
        let ahead = ready_ahead(alloc, &pass.schemas, batch, now);
        let mut hold = self.take(rt, &mut pass.seat);
        let done = hold
            .book()
            .commit_lines(alloc, batch, now, &mut pass.schemas, ahead);
        self.give(&mut pass.seat, hold);
        if done.is_ok() {
            self.bell.ring(rt);
        }
        done
    }

    /// Commits the transaction of a statement that writes, in one hold of the lock, as
    /// [`Store::accept_sql`](qd_store::Store::accept_sql) does. Behind an `Ok` the bell is rung.
    pub fn commit_sql<R: Wait>(
        &self,
        rt: &R,
        alloc: Global,
        pass: &mut Pass<V>,
        stmt: &Stmt,
    ) -> Result<Committed, CommitFault>
        requires pass { pass.old.table ≡ self.now }
        requires kind { (view_of pass.old).mode ≢ Keeper }
        requires short { IsShort stmt.now }
        requires writes { IsWrite stmt.now }
        ensures commits { Commits (statement stmt.now) result pass.old pass.new }
    {
        let mut hold = self.take(rt, &mut pass.seat);
        let done = hold.book().commit_sql(alloc, stmt);
        self.give(&mut pass.seat, hold);
        if done.is_ok() {
            self.bell.ring(rt);
        }
        done
    }
}
