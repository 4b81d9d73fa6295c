//! The parts of a query.
ghost use Rattle.std.specs.Prelude.{◌≡◌, IfOk, OnOk};
ghost use Rattle.std.specs.Option.{option_copied};
ghost use Rattle.qd_bind.specs.Scoped as scoped;
ghost use Rattle.qd_meaning.specs.Planned as parts;
ghost use Rattle.qd_meaning.specs.Refusals.{least, sooner};
ghost use Rattle.qd_plan.specs.Shaping as spec;

use crate::clauses::{keep_of, latest_of};
use crate::fault::Faults;
use crate::items::add_items;
use crate::order::{limit_of, order_of};
use crate::tables::{Found, Joined, join_of, side};
use crate::work::{Parts, Worked};
use qd_base::{Memory, Schemas};
use qd_bind::Scope;
use qd_meaning::{AskPlan, JoinSpec};
use qd_sql_ast::{Query, Sampled};
use std::alloc::Global;

/// The parts of a query.
pub(crate) fn ask(
    alloc: Global,
    schemas: &Schemas,
    query: &Query,
    faults: &mut Faults,
) -> Result<AskPlan, Memory>
    ensures plan { IfOk result (λ made. made ≡ (parts.planned schemas.now query.now).plan) }
    ensures faults { OnOk result (faults.new.first ≡ sooner faults.old.first (least (parts.planned schemas.now query.now).faults)) }
{
    let left = Found::table(schemas, &query.source.table, faults);
    let Joined { side: right, join } = join_of(alloc, schemas, left, query, faults)?;
    let columns = Scope {
        left: side(&query.source, left.schema),
        right,
    };
    let made = shaped(alloc, query, left, &columns, join, faults)?;
    Ok(made)
}

/// The parts of a query over its columns.
fn shaped(
    alloc: Global,
    query: &Query,
    left: Found<'_>,
    columns: &Scope<'_>,
    join: Option<(usize, JoinSpec)>,
    faults: &mut Faults,
) -> Result<AskPlan, Memory>
    ensures plan { IfOk result (λ made. made ≡ spec.shaped left.entry.at (parts.time_col_in (option_copied left.entry.schema)) (scoped.scope columns.now) join query.now) }
    ensures faults { OnOk result (faults.new.first ≡ sooner faults.old.first
        (least (spec.shaped_faults (parts.time_col_in (option_copied left.entry.schema)) (scoped.scope columns.now) query.now))) }
{
    let time_col = left.time_col();
    let keep = keep_of(alloc, columns, &query.filter, faults)?;
    let latest = latest_of(alloc, columns, time_col, &query.latest, faults)?;
    let Worked { work, picks, out } = worked(alloc, columns, time_col, query, faults)?;
    let order = order_of(alloc, &out, &query.order, faults)?;
    Ok(AskPlan {
        left: left.at,
        join,
        keep,
        latest,
        work,
        picks,
        out,
        order,
        limit: limit_of(&query.limit),
        at: place_of_sample(&query.sampled),
    })
}

/// What is made of the rows of a query.
fn worked(
    alloc: Global,
    columns: &Scope<'_>,
    time_col: usize,
    query: &Query,
    faults: &mut Faults,
) -> Result<Worked, Memory>
    ensures work { IfOk result (λ made. made.work ≡ spec.work time_col (scoped.scope columns.now) query.now) }
    ensures picks { IfOk result (λ made. made.picks ≡ spec.picks time_col (scoped.scope columns.now) query.now) }
    ensures out { IfOk result (λ made. made.out ≡ spec.out (scoped.scope columns.now) query.now) }
    ensures faults { OnOk result (faults.new.first ≡ sooner faults.old.first (least (spec.work_faults (scoped.scope columns.now) query.now))) }
{
    let buckets = buckets_in(time_col, &query.sampled);
    let mut made = Parts::new(alloc);
    add_items(alloc, columns, &query.selected, buckets, &mut made, faults)?;
    made.worked(alloc, &query.sampled, faults)
}

/// The designated column, where a query has buckets.
fn buckets_in(time_col: usize, sampled: &Option<Sampled>) -> Option<usize>
    ensures buckets { result ≡ parts.buckets_in time_col sampled.now }
{
    match sampled {
        Some(_) => Some(time_col),
        None => None,
    }
}

/// The offset of SAMPLE, or 0.
fn place_of_sample(sampled: &Option<Sampled>) -> u64
    ensures place { result ≡ parts.place_of_sample sampled.now }
{
    match sampled {
        Some(sampled) => sampled.at,
        None => 0,
    }
}
