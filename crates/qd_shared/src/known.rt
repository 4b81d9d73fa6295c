//! Schemas that a pass has found, and what was made ready over them ahead of a hold.
ghost use Rattle.std.specs.Prelude.{◌≡◌, ◌↔◌, None, Some, IfSome, IsTrue};
ghost use Rattle.qd_base.specs.Lawful.{AreSchemas};
ghost use Rattle.qd_prepare.specs.Prepared.{IsRead};
ghost use Rattle.qd_store.specs.Arriving.{IsReady};

use qd_base::{Col, Schema, Schemas};
use qd_ilp::Batch;
use qd_prepare::{Prepared, prepare_lines};
use std::alloc::Global;

/// Makes a batch ready over the schemas that are known. It gives nothing where none are, where the batch is refused over them, and
/// where there is no memory: then it is made ready in the hold.
pub(crate) fn ready_ahead(
    alloc: Global,
    known: &Option<Schemas>,
    batch: &Batch,
    now: u64,
) -> Option<Prepared>
    requires sound { IfSome known.now AreSchemas }
    requires read { IsRead batch.now }
    ensures ready { IfSome result (λ p. IfSome known.now (λ s. IsReady s now batch.now p)) }
{
    match known {
        Some(schemas) => prepare_lines(alloc, schemas, batch, now).ok(),
        None => None,
    }
}

/// Says whether these schemas are known, and else makes them known, where there is memory.
pub(crate) fn learn(known: &mut Option<Schemas>, schemas: &Schemas) -> bool
    requires sound { AreSchemas schemas.now }
    ensures known { IsTrue result → known.old ≡ Some schemas.now }
    ensures sound { IfSome known.old AreSchemas → IfSome known.new AreSchemas }
{
    if is_known(known, schemas) {
        return true;
    }
    *known = schemas.copy().ok();
    false
}

/// Says whether these schemas are known. It costs time linear in their names.
fn is_known(known: &Option<Schemas>, schemas: &Schemas) -> bool
    ensures known { IsTrue result ↔ (known.now ≡ Some schemas.now) }
{
    match known {
        Some(found) => are_same(found, schemas),
        None => false,
    }
}

/// Says whether two lists of schemas are the same.
#[tactic(auto, using(crate::proofs::SameLists::same_items))]
fn are_same(one: &Schemas, other: &Schemas) -> bool
    ensures same { IsTrue result ↔ (one.now ≡ other.now) }
{
    if one.len() != other.len() {
        return false;
    }
    for i in 0..one.len() {
        if !is_same(one.get(i), other.get(i)) {
            return false;
        }
    }
    true
}

/// Says whether two tables look the same.
fn is_same(one: &Schema, other: &Schema) -> bool
    ensures same { IsTrue result ↔ (one.now ≡ other.now) }
{
    one.name.bytes() == other.name.bytes()
        && one.time_col == other.time_col
        && one.unit == other.unit
        && one.keys.as_slice() == other.keys.as_slice()
        && are_same_columns(one.cols.as_slice(), other.cols.as_slice())
}

/// Says whether two lists of columns are the same.
#[tactic(auto, using(crate::proofs::SameLists::same_items))]
fn are_same_columns(one: &[Col], other: &[Col]) -> bool
    ensures same { IsTrue result ↔ (one.now ≡ other.now) }
{
    if one.len() != other.len() {
        return false;
    }
    for i in 0..one.len() {
        if !is_same_column(&one[i], &other[i]) {
            return false;
        }
    }
    true
}

/// Says whether two columns are the same.
fn is_same_column(one: &Col, other: &Col) -> bool
    ensures same { IsTrue result ↔ (one.now ≡ other.now) }
{
    one.kind == other.kind && one.name.bytes() == other.name.bytes()
}
