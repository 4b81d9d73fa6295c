//! The rows of tables, and of two that are joined.
ghost use Rattle.std.specs.Prelude.{◌≡◌, ◌<◌, ◌≤◌, true, None, Some, All, IfErr, IfOk, IfSome, length};
ghost use Rattle.qd_base.specs.Laws.{IsInOrder};
ghost use Rattle.qd_base.specs.Lawful.{IsRowOf};
ghost use Rattle.qd_base.specs.Rows.{time_of};
ghost use Rattle.qd_meaning.specs.Answer as meaning;
ghost use Rattle.qd_meaning.specs.Answer.{kept_rows};
ghost use Rattle.qd_query.specs.Answers.{right_in, table_in, AreTimed};
ghost use Rattle.qd_query.specs.Needs.{begins_late, PlanNeeds, TablesNeed};
ghost use Rattle.qd_rows.specs.Sets.{rows_in};
ghost use Rattle.qd_scan.specs.Asked.{AskedOnly, IsPartBetween};
ghost use Rattle.qd_scan.specs.Scans.{AreApart, HasRowsBetween};
ghost use Rattle.qd_scan.specs.Sources.{rows_at, schema_at, HasCause, Stays};

use crate::interval::times_kept;
use qd_asof::asof;
use qd_base::{MAX_TIME, Part};
use qd_meaning::{AskPlan, JoinSpec};
use qd_rows::RowSet;
use qd_scan::{PartFault, PartSource, scan};
use qd_symbols::SymbolMap;
use qd_value::Bound;
use std::alloc::Global;

/// The rows of a query's table, or of its join, in order of the left table's times: all that WHERE may keep by their
/// times. What it keeps of them is what it keeps of all rows.
pub(crate) fn source_rows<P: PartSource>(
    alloc: Global,
    source: &mut P,
    plan: &AskPlan,
) -> Result<RowSet<SymbolMap>, PartFault>
    requires left { plan.now.left < length (P.shown source.old).schemas }
    requires right { IfSome plan.now.join (λ j. j.0 < length (P.shown source.old).schemas) }
    ensures rows { IfOk result (λ set. IfSome (P.shown source.old).database
        (λ db. kept_rows plan.now.keep (rows_in set) ≡ kept_rows plan.now.keep (meaning.source_rows plan.now.join (Some (table_in db plan.now.left)) (right_in db plan.now.join)))) }
    ensures timed { IfOk result (λ set. AreTimed (schema_at (P.shown source.old) plan.now.left).time_col (rows_in set)) }
    ensures stays { Stays (P.shown source.old) (P.shown source.new) }
    ensures asked { AskedOnly (PlanNeeds (P.shown source.old) plan.now) (P.asked source.old) (P.asked source.new) }
    ensures fixed { P.fixed source.new ≡ P.fixed source.old }
    ensures cause { IfErr result (HasCause (P.shown source.old) (P.shown source.new)) }
{
    match &plan.join {
        None => table_rows(alloc, source, plan.left, &plan.keep),
        Some((right, spec)) => { joined_rows(alloc, source, plan.left, *right, spec, &plan.keep) }
    }
}

/// The rows of a table that WHERE may keep by their times.
fn table_rows<P: PartSource>(
    alloc: Global,
    source: &mut P,
    table: usize,
    keep: &Option<Bound>,
) -> Result<RowSet<SymbolMap>, PartFault>
    requires { table < length (P.shown source.old).schemas }
    ensures rows { IfOk result (λ set. IfSome (P.shown source.old).database (λ db. kept_rows keep.now (rows_in set) ≡ kept_rows keep.now (rows_at db table))) }
    ensures timed { IfOk result (λ set. AreTimed (schema_at (P.shown source.old) table).time_col (rows_in set)) }
    ensures stays { Stays (P.shown source.old) (P.shown source.new) }
    ensures asked { AskedOnly (TablesNeed (P.shown source.old) table None keep.now) (P.asked source.old) (P.asked source.new) }
    ensures fixed { P.fixed source.new ≡ P.fixed source.old }
    ensures cause { IfErr result (HasCause (P.shown source.old) (P.shown source.new)) }
{
    source.keeps_its_law();
    let times = times_kept(keep, source.schemas().get(table).time_col as usize);
    let rows = rows_from_to(alloc, source, table, times.lo, times.hi)?;
    Ok(rows)
}

/// The rows of two tables that are joined: all that WHERE may keep by their times.
///
/// A joined row has the time of its left one, so the left table is scanned over those times. No left row takes a later right
/// one, so the right table is scanned up to the last of them.
fn joined_rows<P: PartSource>(
    alloc: Global,
    source: &mut P,
    left: usize,
    right: usize,
    spec: &JoinSpec,
    keep: &Option<Bound>,
) -> Result<RowSet<SymbolMap>, PartFault>
    requires left { left < length (P.shown source.old).schemas }
    requires right { right < length (P.shown source.old).schemas }
    ensures rows { IfOk result (λ set. IfSome (P.shown source.old).database
        (λ db. kept_rows keep.now (rows_in set) ≡ kept_rows keep.now (meaning.source_rows (Some (right, spec.now)) (Some (table_in db left)) (Some (table_in db right))))) }
    ensures timed { IfOk result (λ set. AreTimed (schema_at (P.shown source.old) left).time_col (rows_in set)) }
    ensures stays { Stays (P.shown source.old) (P.shown source.new) }
    ensures asked { AskedOnly (TablesNeed (P.shown source.old) left (Some (right, spec.now)) keep.now) (P.asked source.old) (P.asked source.new) }
    ensures fixed { P.fixed source.new ≡ P.fixed source.old }
    ensures cause { IfErr result (HasCause (P.shown source.old) (P.shown source.new)) }
{
    source.keeps_its_law();
    let left_time = source.schemas().get(left).time_col;
    let right_time = source.schemas().get(right).time_col;
    let times = times_kept(keep, left_time as usize);
    let from = first_needed(source.parts(left).as_slice(), times.lo);
    let left_rows = rows_from_to(alloc, source, left, from, times.hi)?;
    let right_rows = rows_from_to(alloc, source, right, 0, times.hi)?;
    let rows = asof(alloc, &left_rows, &right_rows, spec, left_time, right_time)?;
    Ok(rows)
}

/// From when on the left rows of a join are needed, of which WHERE keeps none before `lo`: from 0 where a part begins there.
///
/// Before its part is given, no law says that a row has a cell for its time. One that had none would have moment 0 by
/// itself, and another time where it is joined.
fn first_needed(parts: &[Part], lo: u64) -> u64
    requires { AreApart parts.now }
    ensures from { begins_late parts.now ≡ true → result ≡ lo }
    ensures early { result ≤ lo }
    ensures begun { All (λ p. p.lo ≡ 0 → result ≡ 0) parts.now }
{
    match parts {
        [first, ..] => if 0 < first.lo { lo } else { 0 },
        [] => 0,
    }
}

/// The rows of a table with a time from `lo` to `hi`, in order of time.
fn rows_from_to<P: PartSource>(
    alloc: Global,
    source: &mut P,
    table: usize,
    lo: u64,
    hi: u64,
) -> Result<RowSet<SymbolMap>, PartFault>
    requires table { table < length (P.shown source.old).schemas }
    requires timely { hi ≤ MAX_TIME }
    ensures rows { IfOk result (HasRowsBetween (P.shown source.old) table lo hi) }
    ensures cols { IfOk result (λ set. set.left ≡ (schema_at (P.shown source.old) table).cols) }
    ensures single { IfOk result (λ set. set.right ≡ None) }
    ensures fit { IfOk result (λ set. All (IsRowOf (schema_at (P.shown source.old) table)) (rows_in set)) }
    ensures order { IfOk result (λ set. IsInOrder (schema_at (P.shown source.old) table).time_col (rows_in set)) }
    ensures timely { IfOk result (λ set. All (λ r. time_of (schema_at (P.shown source.old) table).time_col r ≤ MAX_TIME) (rows_in set)) }
    ensures stays { Stays (P.shown source.old) (P.shown source.new) }
    ensures asked { AskedOnly (IsPartBetween (P.shown source.old) table lo hi) (P.asked source.old) (P.asked source.new) }
    ensures fixed { P.fixed source.new ≡ P.fixed source.old }
    ensures cause { IfErr result (HasCause (P.shown source.old) (P.shown source.new)) }
{
    scan(alloc, source, table, lo, hi)
}

/// All rows of a table, in order of time.
pub(crate) fn all_rows<P: PartSource>(
    alloc: Global,
    source: &mut P,
    table: usize,
) -> Result<RowSet<SymbolMap>, PartFault>
    requires { table < length (P.shown source.old).schemas }
    ensures rows { IfOk result (λ set. IfSome (P.shown source.old).database (λ db. rows_in set ≡ rows_at db table)) }
    ensures cols { IfOk result (λ set. set.left ≡ (schema_at (P.shown source.old) table).cols) }
    ensures single { IfOk result (λ set. set.right ≡ None) }
    ensures fit { IfOk result (λ set. All (IsRowOf (schema_at (P.shown source.old) table)) (rows_in set)) }
    ensures order { IfOk result (λ set. IsInOrder (schema_at (P.shown source.old) table).time_col (rows_in set)) }
    ensures timely { IfOk result (λ set. All (λ r. time_of (schema_at (P.shown source.old) table).time_col r ≤ MAX_TIME) (rows_in set)) }
    ensures stays { Stays (P.shown source.old) (P.shown source.new) }
    ensures asked { AskedOnly (IsPartBetween (P.shown source.old) table 0 MAX_TIME) (P.asked source.old) (P.asked source.new) }
    ensures fixed { P.fixed source.new ≡ P.fixed source.old }
    ensures cause { IfErr result (HasCause (P.shown source.old) (P.shown source.new)) }
{
    source.keeps_its_law();
    scan(alloc, source, table, 0, MAX_TIME)
}
