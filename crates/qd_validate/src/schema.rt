//! What a table may look like.
ghost use Rattle.std.specs.Prelude.{◌≡◌, ◌≤◌, ◌↔◌, length, slice_get, All, IsSomeAnd, IsTrue};
ghost use Rattle.std.specs.List.{IsDistinct};
ghost use Rattle.qd_base.specs.declared.schema.Col.{Col};
ghost use Rattle.qd_base.specs.declared.schema.ColType.TheVariants as kind;
ghost use Rattle.qd_base.specs.Names.{IsColumnName};
ghost use Rattle.qd_base.specs.Schemas.{same_name};
ghost use Rattle.qd_base.specs.Lawful.{IsSchema};

use qd_base::{Col, ColList, ColType, MAX_COLUMNS, Schema, column_name_ok, table_name_ok};

/// Whether each column has a name as columns may have.
fn are_named(cols: &[Col]) -> bool
    ensures named { IsTrue result ↔ All (λ (c : Col). IsColumnName c.name) cols.now }
{
    for col in cols {
        if !column_name_ok(col.name.bytes()) {
            return false;
        }
    }
    true
}

/// Whether no two columns have one name.
fn are_apart(cols: &ColList) -> bool
    ensures apart { IsTrue result ↔ IsDistinct (λ (a : Col) (b : Col). same_name a.name b.name) cols.now }
{
    for (i, col) in cols.as_slice().iter().enumerate() {
        if cols.find(col.name.bytes()) != Some(i) {
            return false;
        }
    }
    true
}

/// Whether there is a TIMESTAMP column at a position.
fn is_designated(cols: &[Col], at: u32) -> bool
    ensures designated { IsTrue result ↔ IsSomeAnd (slice_get cols.now at) (λ c. c.kind ≡ kind.Time) }
{
    match cols.get(at as usize) {
        Some(col) => col.kind == ColType::Time,
        None => false,
    }
}

/// Whether the columns are few, and each is named apart from the others.
fn columns_fit(cols: &ColList) -> bool
    ensures fit { IsTrue result ↔ ((length cols.now ≤ MAX_COLUMNS)
        × All (λ (c : Col). IsColumnName c.name) cols.now
        × IsDistinct (λ (a : Col) (b : Col). same_name a.name b.name) cols.now) }
{
    cols.len() <= MAX_COLUMNS && are_named(cols.as_slice()) && are_apart(cols)
}

/// Whether a table may look so.
pub(crate) fn schema_fits(schema: &Schema) -> bool
    ensures fits { IsTrue result ↔ IsSchema schema.now }
{
    table_name_ok(schema.name.bytes())
        && columns_fit(&schema.cols)
        && is_designated(schema.cols.as_slice(), schema.time_col)
        && schema.takes_keys(schema.keys.as_slice())
}
