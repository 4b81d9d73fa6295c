//! Transactions over the schemas that are there.
ghost use Rattle.std.specs.Prelude.{◌≡◌, ◌+◌, ◌<◌, ◌≤◌, ◌↔◌, length, fold, sum_by, All, IfOk, IfSome, IfNone, IsTrue};
ghost use Rattle.std.specs.Bool.{OnTrue};
ghost use Rattle.qd_base.specs.Schemas.{schemas_step, schema_of, Fits, SetsNoKeys};
ghost use Rattle.qd_base.specs.Names.{IsColumnName};
ghost use Rattle.qd_base.specs.Lawful.{cells_in, cells_of, AreLawful, AreSchemas, IsRowOf, IsSound, SetsKeysAlone};

use crate::cells::rows_fit;
use crate::schema::schema_fits;
use qd_base::{
    Entry, MAX_BATCH_CELLS, MAX_COLUMNS, MAX_TABLES, Memory, Op, Row, Schemas, column_name_ok,
};

/// Says whether a transaction is lawful over these schemas, and moves them behind it where it is.
///
/// Where it is not, or memory is wanting, the schemas are left as those after some of its changes: the ones before the
/// first that doesn't fit or isn't of good form, or that found no memory. It costs time linear in the transaction, but that
/// each name is looked up in time logarithmic in the tables or the columns, and each key is compared with those before it; it
/// takes memory for what the schemas gain alone.
pub fn follow(schemas: &mut Schemas, entry: &Entry) -> Result<bool, Memory>
    requires { AreSchemas schemas.old }
    ensures lawful { IfOk result (λ lawful. IsTrue lawful ↔ (AreLawful schemas.old entry.now.ops × (cells_of entry.now ≤ MAX_BATCH_CELLS) × SetsKeysAlone entry.now.ops)) }
    ensures behind { IfOk result (λ lawful. OnTrue lawful (schemas.new ≡ fold schemas_step schemas.old entry.now.ops)) }
    ensures sound { IfOk result (λ lawful. OnTrue lawful (AreSchemas schemas.new)) }
{
    let ops = entry.ops.as_slice();
    Ok(has_room(ops) && sets_keys_alone(ops) && follow_each(schemas, ops)?)
}

/// Whether changes are lawful over these schemas, one behind another. It moves the schemas behind them.
fn follow_each(schemas: &mut Schemas, ops: &[Op]) -> Result<bool, Memory>
    ensures lawful { IfOk result (λ lawful. IsTrue lawful ↔ AreLawful schemas.old ops.now) }
    ensures behind { IfOk result (λ lawful. OnTrue lawful (schemas.new ≡ fold schemas_step schemas.old ops.now)) }
{
    for op in ops {
        if !(schemas.fits(op) && is_sound(schemas, op)) {
            return Ok(false);
        }
        schemas.apply(op)?;
    }
    Ok(true)
}

/// Whether a change is of good form over these schemas.
fn is_sound(schemas: &Schemas, op: &Op) -> bool
    ensures sound { IsTrue result ↔ IsSound schemas.now op.now }
{
    match op {
        Op::Create { schema } => schemas.len() < MAX_TABLES && schema_fits(schema),
        Op::AddColumn { table, col } => {
            column_name_ok(col.name.bytes()) && has_column_left(schemas, table.bytes())
        }
        Op::Insert { table, rows } => takes_rows(schemas, table.bytes(), rows.as_slice()),
        Op::SetKeys { .. } => true,
    }
}

/// Whether the table of a name, where there is one, has room for one column more.
fn has_column_left(schemas: &Schemas, table: &[u8]) -> bool
    ensures left { IsTrue result ↔ IfSome (schema_of schemas.now table.now) (λ s. length s.cols < MAX_COLUMNS) }
{
    match schemas.find(table) {
        Some(i) => schemas.get(i).cols.len() < MAX_COLUMNS,
        None => true,
    }
}

/// Whether the table of a name, where there is one, may have these rows.
fn takes_rows(schemas: &Schemas, table: &[u8], rows: &[Row]) -> bool
    ensures taken { IsTrue result ↔ IfSome (schema_of schemas.now table.now) (λ s. All (IsRowOf s) rows.now) }
{
    match schemas.find(table) {
        Some(i) => rows_fit(schemas.get(i), rows),
        None => true,
    }
}

/// Whether a change that sets keys has no other beside it.
fn sets_keys_alone(ops: &[Op]) -> bool
    ensures alone { IsTrue result ↔ SetsKeysAlone ops.now }
{
    ops.len() <= 1 || sets_no_keys(ops)
}

/// Whether no change sets keys.
fn sets_no_keys(ops: &[Op]) -> bool
    ensures none { IsTrue result ↔ SetsNoKeys ops.now }
{
    for op in ops {
        if op.sets_keys() {
            return false;
        }
    }
    true
}

/// Whether changes insert no more cells than a transaction may.
fn has_room(ops: &[Op]) -> bool
    ensures room { IsTrue result ↔ (sum_by cells_in ops.now ≤ MAX_BATCH_CELLS) }
{
    let mut left = MAX_BATCH_CELLS;
    for op in ops {
        match left_after(op, left) {
            Some(rest) => left = rest,
            None => return false,
        }
    }
    true
}

/// Gives how many of so many cells are left beside those that a change inserts.
fn left_after(op: &Op, left: u64) -> Option<u64>
    ensures left { IfSome result (λ rest. rest + cells_in op.now ≡ left) }
    ensures none { IfNone result (left < cells_in op.now) }
{
    match op {
        Op::Insert { rows, .. } => left_after_rows(rows.as_slice(), left),
        _ => Some(left),
    }
}

/// Gives how many of so many cells are left beside those of these rows.
fn left_after_rows(rows: &[Row], left: u64) -> Option<u64>
    ensures left { IfSome result (λ rest. rest + sum_by length rows.now ≡ left) }
    ensures none { IfNone result (left < sum_by length rows.now) }
{
    let mut left = left;
    for row in rows {
        left = left.checked_sub(row.len() as u64)?;
    }
    Some(left)
}
