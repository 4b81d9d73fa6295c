//! What a plan gives over a source of parts.
ghost use Rattle.std.specs.Prelude.{◌≡◌, ◌<◌, Some, IfErr, IfOk, IfSome, length, map};
ghost use Rattle.qd_meaning.specs.declared.parts.Work.TheVariants as work;
ghost use Rattle.qd_meaning.specs.Answer.{finished, kept_rows, latest_rows, worked as made_of};
ghost use Rattle.qd_meaning.specs.Grouped.{key_of};
ghost use Rattle.qd_meaning.specs.Sampled.{sampled};
ghost use Rattle.qd_query.specs.declared.answer.Answer.TheVariants as answer;
ghost use Rattle.qd_query.specs.Answers.{answer_over, plan_answer, right_in, sized, table_in, AreTimed, IsWork};
ghost use Rattle.qd_query.specs.Needs.{PlanNeeds};
ghost use Rattle.qd_rows.specs.Sets.{rows_in};
ghost use Rattle.qd_scan.specs.Asked.{AskedOnly};
ghost use Rattle.qd_scan.specs.Sources.{HasCause, Stays};

use crate::answer::Answer;
use crate::output::{are_rows_too_large, is_set_too_large, rows_of_rows, rows_of_set};
use crate::sources::source_rows;
use qd_base::{Dictionary, Memory, Row, RowList, Table};
use qd_expr::filter;
use qd_group::group;
use qd_latest::latest;
use qd_meaning::{AskPlan, SampleSpec, Work};
use qd_order::{order_of_rows, order_of_set};
use qd_rows::RowSet;
use qd_sample::{SampleFault, sample};
use qd_scan::{PartFault, PartSource};
use qd_value::Bound;
use std::alloc::{AllocError, Global};

/// Gives the answer of a plan over the tables of a source.
///
/// Its faults are the source's. After an `Err` the source is as it was, but for its counts.
pub(crate) fn run_plan<P: PartSource>(
    alloc: Global,
    source: &mut P,
    plan: &AskPlan,
) -> Result<Answer, PartFault>
    requires left { plan.now.left < length (P.shown source.old).schemas }
    requires right { IfSome plan.now.join (λ j. j.0 < length (P.shown source.old).schemas) }
    requires work { IsWork plan.now.work }

    // Where the source tells its database, it is the plain meaning's over its tables.
    ensures answer { IfOk result (λ a. IfSome (P.shown source.old).database
        (λ db. a ≡ plan_answer plan.now (Some (table_in db plan.now.left)) (right_in db plan.now.join))) }
    ensures stays { Stays (P.shown source.old) (P.shown source.new) }
    ensures asked { AskedOnly (PlanNeeds (P.shown source.old) plan.now) (P.asked source.old) (P.asked source.new) }
    ensures fixed { P.fixed source.new ≡ P.fixed source.old }
    ensures cause { IfErr result (HasCause (P.shown source.old) (P.shown source.new)) }
{
    source.keeps_its_law();
    let rows = source_rows(alloc, source, plan)?;
    let time_col = source.schemas().get(plan.left).time_col;
    Ok(kept_answer(alloc, plan, &rows, time_col)?)
}

/// The answer over the rows of a table or of a join, in order of the times in a column.
pub(crate) fn kept_answer<D: Dictionary>(
    alloc: Global,
    plan: &AskPlan,
    rows: &RowSet<D>,
    time_col: u32,
) -> Result<Answer, Memory>
    requires work { IsWork plan.now.work }
    requires timed { AreTimed time_col (rows_in rows.now) }
    ensures answer { IfOk result (λ a.
        a ≡ answer_over plan.now (made_of plan.now.work time_col (latest_rows plan.now.latest (kept_rows plan.now.keep (rows_in rows.now))))) }
{
    match &plan.keep {
        Some(test) => {
            let kept = filter(alloc, rows, test)?;
            latest_answer(alloc, plan, &kept, time_col)
        }
        None => latest_answer(alloc, plan, rows, time_col),
    }
}

/// The answer over the rows that pass the test.
fn latest_answer<D: Dictionary>(
    alloc: Global,
    plan: &AskPlan,
    rows: &RowSet<D>,
    time_col: u32,
) -> Result<Answer, Memory>
    requires work { IsWork plan.now.work }
    requires timed { AreTimed time_col (rows_in rows.now) }
    ensures answer { IfOk result (λ a. a ≡ answer_over plan.now (made_of plan.now.work time_col (latest_rows plan.now.latest (rows_in rows.now)))) }
{
    match &plan.latest {
        Some(keys) => {
            let last = latest(alloc, rows, keys)?;
            worked(alloc, plan, &last, time_col)
        }
        None => worked(alloc, plan, rows, time_col),
    }
}

/// The answer over the rows that a query keeps.
fn worked<D: Dictionary>(
    alloc: Global,
    plan: &AskPlan,
    rows: &RowSet<D>,
    time_col: u32,
) -> Result<Answer, Memory>
    requires work { IsWork plan.now.work }
    requires timed { AreTimed time_col (rows_in rows.now) }
    ensures answer { IfOk result (λ a. a ≡ answer_over plan.now (made_of plan.now.work time_col (rows_in rows.now))) }
{
    match &plan.work {
        Work::Plain(exprs) => answer_of_set(alloc, plan, exprs.as_slice(), rows),
        Work::Group(spec) => {
            let groups = group(alloc, rows, spec)?;
            answer_of_rows(alloc, plan, groups.as_slice())
        }
        Work::Sample(spec) => sampled_answer(alloc, plan, spec, rows, time_col),
    }
}

/// The answer over the samples of the rows that a query keeps.
fn sampled_answer<D: Dictionary>(
    alloc: Global,
    plan: &AskPlan,
    spec: &SampleSpec,
    rows: &RowSet<D>,
    time_col: u32,
) -> Result<Answer, Memory>
    requires is { plan.now.work ≡ work.Sample spec.now }
    requires work { IsWork plan.now.work }
    requires timed { AreTimed time_col (rows_in rows.now) }
    ensures answer { IfOk result (λ a. a ≡ answer_over plan.now (sampled spec.now time_col (rows_in rows.now))) }
{
    match sample(alloc, rows, spec, time_col as usize) {
        Ok(samples) => answer_of_rows(alloc, plan, samples.as_slice()),
        Err(SampleFault::TooMany) => Ok(Answer::too_many(plan.at)),
        Err(SampleFault::Memory) => Err(AllocError),
    }
}

/// The answer of a query that makes a row of values for each row of a set.
fn answer_of_set<D: Dictionary>(
    alloc: Global,
    plan: &AskPlan,
    exprs: &[Bound],
    rows: &RowSet<D>,
) -> Result<Answer, Memory>
    ensures { IfOk result (λ a. a ≡ sized (finished plan.now (map (key_of exprs.now) (rows_in rows.now)))) }
{
    let places = order_of_set(alloc, plan, exprs, rows)?;
    if is_set_too_large(plan, exprs, rows, &places) {
        return Ok(Answer::too_large());
    }
    answered(plan, rows_of_set(alloc, plan, exprs, rows, &places)?)
}

/// The answer of a query whose rows, as those of groups, are made.
fn answer_of_rows(alloc: Global, plan: &AskPlan, rows: &[Row]) -> Result<Answer, Memory>
    ensures { IfOk result (λ a. a ≡ sized (finished plan.now rows.now)) }
{
    let places = order_of_rows(alloc, plan, rows)?;
    if are_rows_too_large(plan, rows, &places) {
        return Ok(Answer::too_large());
    }
    answered(plan, rows_of_rows(alloc, plan, rows, &places)?)
}

/// Rows under a query's output columns as its answer.
fn answered(plan: &AskPlan, rows: RowList) -> Result<Answer, Memory>
    ensures { IfOk result (λ a. a ≡ answer.Rows (record { cols = plan.now.out; rows = rows })) }
{
    let cols = plan.out.copy()?;
    Ok(Answer::Rows(Table { cols, rows }))
}
