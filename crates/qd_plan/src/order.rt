//! ORDER BY and LIMIT.
ghost use Rattle.std.specs.Prelude.{◌≡◌, map, None, IfOk, OnOk};
ghost use Rattle.std.specs.List.{flat_map};
ghost use Rattle.qd_meaning.specs.Planned as parts;
ghost use Rattle.qd_meaning.specs.Refusals.{least, sooner};
ghost use Rattle.qd_plan.specs.Ordering as spec;

use crate::fault::Faults;
use crate::place::position;
use qd_base::{Code, ColList, Memory, Seq};
use qd_meaning::{Cut, OrderList};
use qd_sql_ast::{Limit, OrderKey};
use std::alloc::Global;

/// The output columns by which rows are ordered.
pub(crate) fn order_of(
    alloc: Global,
    out: &ColList,
    keys: &Option<Seq<OrderKey>>,
    faults: &mut Faults,
) -> Result<OrderList, Memory>
    ensures order { IfOk result (λ made. made ≡ parts.order_of out.now keys.now) }
    ensures faults { OnOk result (faults.new.first ≡ sooner faults.old.first (least (parts.order_faults out.now keys.now))) }
{
    order_by(alloc, out, keys_in(keys), faults)
}

/// Lends the keys of ORDER BY; none without it.
fn keys_in(keys: &Option<Seq<OrderKey>>) -> &[OrderKey]
    ensures keys { result.now ≡ parts.order_keys keys.now }
{
    match keys {
        Some(keys) => keys.as_slice(),
        None => &[],
    }
}

/// The output columns of keys.
fn order_by(
    alloc: Global,
    out: &ColList,
    keys: &[OrderKey],
    faults: &mut Faults,
) -> Result<OrderList, Memory>
    ensures order { IfOk result (λ made. made ≡ map (spec.order_key out.now) keys.now) }
    ensures faults { OnOk result (faults.new.first ≡ sooner faults.old.first (least (flat_map (spec.key_faults out.now) keys.now))) }
{
    let mut order = OrderList::new(alloc);
    for key in keys {
        let found = out.find(key.name.text.bytes());
        faults.unless(found.is_some(), Code::UnknownColumn, key.name.at);
        let at = position(found.unwrap_or(0))?;
        order.push((at, key.is_descending))?;
    }
    Ok(order)
}

/// Which rows are given; all without LIMIT.
pub(crate) fn limit_of(limit: &Option<Limit>) -> Option<Cut>
    ensures limit { result ≡ spec.limit_of limit.now }
{
    match limit {
        Some(limit) => Some(cut_of(limit)),
        None => None,
    }
}

/// Which rows a LIMIT gives.
fn cut_of(limit: &Limit) -> Cut
    ensures cut { result ≡ parts.cut_of limit.now }
{
    match limit {
        Limit::First(n) => Cut::First(n.value.get()),
        Limit::Last(_, n) => Cut::Last(n.value.get()),
        Limit::Between(a, b) => Cut::Between(a.value.get(), b.value.get()),
    }
}
