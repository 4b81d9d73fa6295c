//! The plan of a statement that asks.
ghost use Rattle.std.specs.Prelude.{◌≡◌};
ghost use Rattle.qd_base.specs.Schemas.{table_at};
ghost use Rattle.qd_meaning.specs.Planned as parts;
ghost use Rattle.qd_plan.specs.Plans.{Planned, PlannedQuery, PlannedShow};
ghost use Rattle.qd_plan.specs.Shaping as spec;
ghost use Rattle.qd_sql_ast.specs.Kinds.{IsQuestion};

use crate::asked::Plan;
use crate::fault::{Faults, PlanFault};
use crate::query::ask;
use qd_base::{Code, Schemas};
use qd_meaning::{AskPlan, Refusal};
use qd_sql_ast::{Query, Stmt};
use std::alloc::Global;

/// Makes the plan of a query or of SHOW over the schemas of all tables, or gives the refusal that is answered.
///
/// It costs time and memory log-linear in the statement, and for each name of a column the time in which it is found:
/// logarithmic in the number of columns, or linear where a table has two of one name. `SELECT *` costs the size of the columns.
/// Where a query is refused, it costs as much.
pub fn plan(alloc: Global, schemas: &Schemas, stmt: &Stmt) -> Result<Plan, PlanFault>
    requires asks { IsQuestion stmt.now }
    ensures answers { Planned schemas.now stmt.now result }
{
    match stmt {
        Stmt::Query(query) => planned(alloc, schemas, query),
        Stmt::Show(name, at) => shown(schemas, name.bytes(), *at),
        Stmt::Create(_) | Stmt::Insert(_) | Stmt::Alter(_) => unreachable!(),
    }
}

/// The plan of SHOW PARTITIONS.
fn shown(schemas: &Schemas, name: &[u8], place: u64) -> Result<Plan, PlanFault>
    ensures answers { PlannedShow (table_at schemas.now name.now) place result }
{
    match schemas.find(name) {
        Some(table) => Ok(Plan::Show { table }),
        None => Err(PlanFault::Refused {
            code: Code::UnknownTable,
            place,
        }),
    }
}

/// The plan of a query.
fn planned(alloc: Global, schemas: &Schemas, query: &Query) -> Result<Plan, PlanFault>
    ensures answers { PlannedQuery (parts.planned schemas.now query.now) result }
{
    let mut faults = Faults::none();
    let made = ask(alloc, schemas, query, &mut faults)?;
    judged(made, faults.first)
}

/// A plan, or the refusal that is answered in its place.
fn judged(made: AskPlan, first: Option<Refusal>) -> Result<Plan, PlanFault>
    ensures judged { result ≡ spec.judged made first }
{
    match first {
        None => Ok(Plan::Ask(made)),
        Some(refusal) => Err(PlanFault::Refused {
            code: refusal.code,
            place: refusal.place,
        }),
    }
}
