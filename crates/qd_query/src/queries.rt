//! What a statement that asks is answered.
ghost use Rattle.std.specs.Prelude.{◌≡◌, IfErr, IfOk, IfSome};
ghost use Rattle.qd_sql_ast.specs.Kinds.{IsQuestion};
ghost use Rattle.qd_query.specs.Answers.{answer_of, StrideIn};
ghost use Rattle.qd_query.specs.Needs.{Needs};
ghost use Rattle.qd_scan.specs.Asked.{AskedOnly};
ghost use Rattle.qd_scan.specs.Sources.{HasCause, Stays};

use crate::answer::Answer;
use crate::partitions::show_partitions;
use crate::plans::run_plan;
use qd_meaning::plans_answer;
use qd_plan::{Plan, PlanFault, plan};
use qd_scan::{PartFault, PartSource};
use qd_sql_ast::Stmt;
use std::alloc::Global;

/// Answers a query or SHOW PARTITIONS over the tables of a source: by its rows, or by the refusal that goes first.
///
/// It costs the time of the plan, a scan of each table that is named, the time of an expression a row for each test, key,
/// aggregate and output column, and n log n comparisons for keys of a join, of LATEST ON, of groups and of samples, and for
/// an order. Where WHERE names times, a scan asks for no part outside of them, but for the right rows of a join before them.
/// No more than 1,000,000 sampled rows are made: where there are more, the query is refused.
/// The rows of a query's answer are counted as CSV first, and made once, where they are no longer than a result may be.
///
/// Its faults are the source's. After an `Err` the source is as it was, but for its counts: the call may be made again.
pub fn run_query<P: PartSource>(
    alloc: Global,
    source: &mut P,
    stmt: &Stmt,
) -> Result<Answer, PartFault>
    requires asks { IsQuestion stmt.now }

    // Where the source tells its database, it is the plain meaning's over that database.
    ensures answer { IfOk result (λ a. IfSome (P.shown source.old).database (λ db. a ≡ answer_of db stmt.now)) }
    ensures stays { Stays (P.shown source.old) (P.shown source.new) }

    // The parts that it asks for are those that the statement needs.
    ensures asked { AskedOnly (Needs (P.shown source.old) stmt.now) (P.asked source.old) (P.asked source.new) }
    ensures fixed { P.fixed source.new ≡ P.fixed source.old }
    ensures cause { IfErr result (HasCause (P.shown source.old) (P.shown source.new)) }
{
    source.keeps_its_law();
    plans_answer();
    strides_are_in_range(stmt);
    match plan(alloc, source.schemas(), stmt) {
        Ok(Plan::Ask(made)) => run_plan(alloc, source, &made),
        Ok(Plan::Show { table }) => show_partitions(alloc, source, table),
        Err(PlanFault::Refused { code, place }) => Ok(Answer::Refused {
            code: code.number(),
            place,
        }),
        Err(PlanFault::Memory) => Err(PartFault::Memory),
    }
}

/// Law: the stride of a query with SAMPLE BY is in range. The call does nothing.
fn strides_are_in_range(stmt: &Stmt)
    ensures law { StrideIn stmt.now }
{
    if let Stmt::Query(query) = stmt {
        if let Some(sampled) = &query.sampled {
            sampled.stride.count.get();
        }
    }
}
