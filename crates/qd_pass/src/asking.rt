//! A statement that asks, over the current version.
ghost use Rattle.std.specs.Prelude.{◌≡◌, ℕ, List, Ok, IfSome};
ghost use Rattle.qd_base.specs.declared.request.Request.TheVariants as request;
ghost use Rattle.qd_session.specs.Asking.{asks_for};
ghost use Rattle.qd_session.specs.Legal.{Handles};
ghost use Rattle.qd_sql_ast.specs.Kinds.{IsQuestion};
ghost use Rattle.qd_pass.specs.Memos.{IsMemoOf};
ghost use Rattle.qd_pass.specs.Passed.{shown_by, GoesStill, IsReady};
ghost use Rattle.qd_pass.specs.Shared.{AllowedShared};

use crate::memo::{Memo, memo_of, pin_current};
use crate::parts::PinnedParts;
use qd_base::{Memory, Reply};
use qd_query::run_query;
use qd_shared::{Pass, Shared};
use qd_sql_ast::Stmt;
use qd_store_backend::reply_over;
use qd_volume::Volume;
use std::alloc::Global;
use std::sync::Wait;

/// A session's pass, and what is kept of the version that it asked over last.
#[derive(Drop)]
pub(crate) struct Session<V: Volume + Drop> {
    pub(crate) pass: Pass<V>,
    pub(crate) memo: Option<Memo>,
}

/// Answers a statement that asks over the current version, which is pinned meanwhile.
pub(crate) fn ask<R: Wait, V: Volume + Drop>(
    rt: &R,
    alloc: Global,
    shared: &Shared<V>,
    session: Session<V>,
    stmt: &Stmt,
) -> (Session<V>, Result<Reply, Memory>)
    requires pass { session.pass.table ≡ shared.now }
    requires ready { IsReady session.pass }
    requires memo { IfSome session.memo (IsMemoOf session.pass) }
    requires asks { IsQuestion stmt.now }
    ensures ready { IsReady result.0.pass }
    ensures memo { IfSome result.0.memo (IsMemoOf result.0.pass) }
    ensures goes { GoesStill session.pass result.0.pass }
    ensures handled { (text : List ℕ) → asks_for text ≡ Ok stmt.now → Handles AllowedShared (shown_by session.pass) (shown_by result.0.pass) 0 (request.Sql text) result.1 }
{
    let Session { mut pass, memo } = session;
    let (pin, memo) = pin_current(rt, shared, &mut pass, memo);
    let memo = match memo_of(rt, alloc, shared, &mut pass, &pin, memo) {
        Ok(memo) => memo,
        Err(fault) => {
            shared.release(&mut pass, pin);
            return (Session { pass, memo: None }, Err(fault));
        }
    };
    let n = pin.n();
    let mut parts = PinnedParts::over(rt, shared, pass, pin, memo);
    let answer = run_query(alloc, &mut parts, stmt);
    let (pass, memo) = parts.end();
    let session = Session {
        pass,
        memo: Some(memo),
    };
    (session, reply_over(n, answer))
}
