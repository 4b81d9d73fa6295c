//! One side of a query, and whether its columns are found by their names alone.
ghost use Rattle.std.specs.Prelude.{◌≡◌, true};
ghost use Rattle.qd_bind.specs.Apart.{AreApart, cols_by};

use qd_base::{ColList, Schema};

/// One side of a query: what its table is called in the statement, and the table, where it is there.
#[derive(Clone, Copy)]
pub struct Side<'s> {
    /// The table's alias, or its own name where it has none.
    pub(crate) name: &'s [u8],
    /// What the table looks like.
    pub(crate) schema: Option<&'s Schema>,
    /// Whether it is known that no two columns have one name.
    pub(crate) is_apart: bool,
    ghost apart: { is_apart ≡ true → AreApart (cols_by schema) },
}

/// Whether each column is the first of its name.
pub(crate) fn are_apart(cols: &ColList) -> bool
    ensures apart { result ≡ true → AreApart cols.now }
{
    for (i, col) in cols.as_slice().iter().enumerate() {
        if cols.find(col.name.bytes()) != Some(i) {
            return false;
        }
    }
    true
}
