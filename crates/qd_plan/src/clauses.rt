//! WHERE and LATEST ON.
ghost use Rattle.std.specs.Prelude.{◌≡◌, map, IfOk, OnOk};
ghost use Rattle.std.specs.List.{flat_map};
ghost use Rattle.qd_bind.specs.Scoped as scoped;
ghost use Rattle.qd_meaning.specs.Planned as parts;
ghost use Rattle.qd_meaning.specs.Refusals.{least, sooner};
ghost use Rattle.qd_plan.specs.Shaping as spec;

use crate::binding::bind;
use crate::fault::Faults;
use crate::place::position;
use qd_base::{Code, Col, KeyList, Memory};
use qd_bind::{Class, Scope};
use qd_sql_ast::{Column, Filter, Latest};
use qd_value::Bound;
use std::alloc::Global;

/// What a row is kept for: a truth value.
pub(crate) fn keep_of(
    alloc: Global,
    columns: &Scope<'_>,
    filter: &Option<Filter>,
    faults: &mut Faults,
) -> Result<Option<Bound>, Memory>
    ensures keep { IfOk result (λ made. made ≡ parts.keep_of (scoped.scope columns.now) filter.now) }
    ensures faults { OnOk result (faults.new.first ≡ sooner faults.old.first (least (parts.filter_faults (scoped.scope columns.now) filter.now))) }
{
    match filter {
        None => Ok(None),
        Some(filter) => {
            let found = bind(alloc, columns, &filter.test)?;
            faults.unless(Class::Truth.agrees(found.class), Code::Types, filter.at);
            faults.add(found.fault);
            Ok(Some(found.bound))
        }
    }
}

/// The keys of which the last rows are kept.
pub(crate) fn latest_of(
    alloc: Global,
    columns: &Scope<'_>,
    time_col: usize,
    latest: &Option<Latest>,
    faults: &mut Faults,
) -> Result<Option<KeyList>, Memory>
    ensures latest { IfOk result (λ made. made ≡ parts.latest_of (scoped.scope columns.now) latest.now) }
    ensures faults { OnOk result (faults.new.first ≡ sooner faults.old.first (least (parts.latest_faults (scoped.scope columns.now) time_col latest.now))) }
{
    match latest {
        None => Ok(None),
        Some(latest) => {
            judge_on(columns, time_col, &latest.on, faults);
            let names = latest.keys.as_slice();
            let keys = latest_keys(alloc, columns, names, faults)?;
            Ok(Some(keys))
        }
    }
}

/// Where the column behind ON is refused: it is the designated one.
fn judge_on(columns: &Scope<'_>, time_col: usize, on: &Column, faults: &mut Faults)
    ensures faults { faults.new.first ≡ sooner faults.old.first (least (spec.on_faults (scoped.scope columns.now) time_col on.now)) }
{
    let found = columns.resolve(on);
    faults.add(found.fault);
    let is_time = is_column(time_col, found.column);
    faults.unless(is_time, Code::Keys, on.first.at);
}

/// Whether a column is the one at a position, or there is none.
fn is_column(at: usize, column: Option<(usize, &Col)>) -> bool
    ensures column { result ≡ parts.is_column at (scoped.column column.entry) }
{
    match column {
        None => true,
        Some((found, _)) => found == at,
    }
}

/// The positions of keys.
fn latest_keys(
    alloc: Global,
    columns: &Scope<'_>,
    names: &[Column],
    faults: &mut Faults,
) -> Result<KeyList, Memory>
    ensures keys { IfOk result (λ made. made ≡ map (spec.key_of (scoped.scope columns.now)) names.now) }
    ensures faults { OnOk result (faults.new.first ≡ sooner faults.old.first (least (flat_map (spec.key_faults (scoped.scope columns.now)) names.now))) }
{
    let mut keys = KeyList::new(alloc);
    for name in names {
        let found = columns.resolve(name);
        faults.add(found.fault);
        let at = position(or_first(found.column))?;
        keys.push(at)?;
    }
    Ok(keys)
}

/// A column's position, or 0.
fn or_first(column: Option<(usize, &Col)>) -> usize
    ensures position { result ≡ parts.position_in (scoped.column column.entry) }
{
    match column {
        None => 0,
        Some((at, _)) => at,
    }
}
