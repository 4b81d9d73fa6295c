//! Names that tables and columns may not have.
ghost use Rattle.std.specs.Prelude.{◌≡◌};
ghost use Rattle.qd_meaning.specs.Refusals.{least};
ghost use Rattle.qd_meaning.specs.Creating.{column_name_faults, table_name_faults};

use qd_base::{Code, column_name_ok, table_name_ok};
use qd_meaning::{Refusal, names_are_judged, unless};
use qd_sql_ast::Name;

/// Gives the refusal of a name that no column may have. It costs time linear in the name.
pub(crate) fn column_name_fault(name: &Name) -> Option<Refusal>
    ensures least { result ≡ least (column_name_faults name.now) }
{
    names_are_judged();
    unless(column_name_ok(name.text.bytes()), Code::Name, name.at)
}

/// Gives the refusal of a name that no table may have. It costs time linear in the name.
pub(crate) fn table_name_fault(name: &Name) -> Option<Refusal>
    ensures least { result ≡ least (table_name_faults name.now) }
{
    names_are_judged();
    unless(table_name_ok(name.text.bytes()), Code::Name, name.at)
}
