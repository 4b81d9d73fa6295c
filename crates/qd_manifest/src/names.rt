//! Names of tables and columns, as a manifest may have them.
ghost use Rattle.std.specs.Prelude.{◌≡◌};
ghost use Rattle.qd_manifest.specs.Rules.{is_table_name, is_column_name, may_be_table, may_be_column};

use crate::shape::Shape;
use qd_base::{ColList, column_name_ok, table_name_ok};

/// Whether a table may be called so.
fn is_table_name(name: &[u8]) -> bool
    ensures name { result ≡ is_table_name name.now }
{
    table_name_ok(name)
}

/// Whether a column may be called so.
fn is_column_name(name: &[u8]) -> bool
    ensures name { result ≡ is_column_name name.now }
{
    column_name_ok(name)
}

/// Whether the next table may be called so.
pub(crate) fn may_be_table(before: &Shape, name: &[u8]) -> bool
    ensures rule { result ≡ may_be_table before.now name.now }
{
    is_table_name(name) && before.find(name).is_none()
}

/// Whether the next column may be called so.
pub(crate) fn may_be_column(before: &ColList, name: &[u8]) -> bool
    ensures rule { result ≡ may_be_column before.now name.now }
{
    is_column_name(name) && before.find(name).is_none()
}
