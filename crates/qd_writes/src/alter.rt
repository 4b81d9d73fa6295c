//! What ALTER TABLE changes, and where it is refused.
ghost use Rattle.std.specs.Prelude.{◌≡◌, ◌≤◌, length, IfOk};
ghost use Rattle.std.specs.Option.{option_copied};
ghost use Rattle.qd_base.specs.declared.limits.TheConstants.{MAX_COLUMNS};
ghost use Rattle.qd_meaning.specs.Refusals.{least};
ghost use Rattle.qd_meaning.specs.Altering as spec;

use crate::create::named_places;
use crate::insert::unknown_names;
use crate::judge::both;
use crate::keys::keys_fault;
use crate::names::{column_name_fault, table_name_fault};
use qd_base::{Code, Col, KeyList, MAX_COLUMNS, Memory, Op, Schema};
use qd_meaning::{Refusal, soonest, unless};
use qd_sql_ast::{Alter, Change, ColumnDef, Dedup};
use std::alloc::Global;

/// Gives the refusal that is answered for an ALTER of its table, where that is there.
///
/// It costs n log n in the number of keys, and is linear in their length.
pub(crate) fn alter_fault(
    alloc: Global,
    table: Option<&Schema>,
    alter: &Alter,
) -> Result<Option<Refusal>, Memory>
    ensures least { IfOk result (λ found. found ≡ least (spec.alter_faults (option_copied table.entry) alter.now)) }
{
    let table_name = table_name_fault(&alter.table);
    let names = both(table_name, names_fault(&alter.change));
    let found = table_fault(alloc, table, alter)?;
    Ok(both(names, found))
}

/// Gives the refusal of the first name that no column may have.
fn names_fault(change: &Change) -> Option<Refusal>
    ensures least { result ≡ least (spec.name_faults change.now) }
{
    match change {
        Change::AddColumn(def) => column_name_fault(&def.name),
        Change::EnableDedup(dedup) => soonest(dedup.keys.as_slice(), column_name_fault),
        Change::DisableDedup => None,
    }
}

/// Gives the refusal of a table that isn't there, or of what is changed of it.
fn table_fault(
    alloc: Global,
    table: Option<&Schema>,
    alter: &Alter,
) -> Result<Option<Refusal>, Memory>
    ensures least { IfOk result (λ found. found ≡ least (spec.table_faults (option_copied table.entry) alter.now)) }
{
    match table {
        None => Ok(unless(false, Code::UnknownTable, alter.table.at)),
        Some(schema) => {
            let room = has_room(schema, &alter.change);
            let few = unless(room, Code::Columns, alter.table.at);
            let change = change_fault(alloc, schema, &alter.change)?;
            Ok(both(few, change))
        }
    }
}

/// Whether the table would have no more columns than a table may have.
fn has_room(schema: &Schema, change: &Change) -> bool
    ensures room { result ≡ spec.has_room schema.now change.now }
{
    match change {
        Change::AddColumn(_) => schema.cols.len() < MAX_COLUMNS,
        Change::EnableDedup(_) | Change::DisableDedup => schema.cols.len() <= MAX_COLUMNS,
    }
}

/// Gives the refusal of a column that is there, or of keys.
fn change_fault(alloc: Global, schema: &Schema, change: &Change) -> Result<Option<Refusal>, Memory>
    ensures least { IfOk result (λ found. found ≡ least (spec.change_faults schema.now change.now)) }
{
    match change {
        Change::AddColumn(def) => Ok(column_fault(schema, def)),
        Change::EnableDedup(dedup) => new_keys_fault(alloc, schema, dedup),
        Change::DisableDedup => Ok(None),
    }
}

/// Gives the refusal of a column that is there.
fn column_fault(schema: &Schema, def: &ColumnDef) -> Option<Refusal>
    ensures least { result ≡ least (spec.added_faults schema.now def.now) }
{
    let is_new = schema.find_column(def.name.text.bytes()).is_none();
    unless(is_new, Code::DuplicateColumn, def.name.at)
}

/// Gives the refusal of keys that aren't distinct columns with the designated one among them.
fn new_keys_fault(alloc: Global, schema: &Schema, dedup: &Dedup) -> Result<Option<Refusal>, Memory>
    ensures least { IfOk result (λ found. found ≡ least (spec.new_keys_faults schema.now dedup.now)) }
{
    let unknown = unknown_names(schema, dedup.keys.as_slice());
    let keys = keys_fault(alloc, dedup, time_name(schema))?;
    Ok(both(unknown, keys))
}

/// Lends the name of the designated column.
fn time_name(schema: &Schema) -> &[u8]
    ensures name { result.now ≡ spec.time_name schema.now }
{
    match schema.cols.as_slice().get(schema.time_col as usize) {
        Some(col) => col.name.bytes(),
        None => &[],
    }
}

/// Makes the change of an ALTER without a refusal. It costs time and memory linear in its size, but for the places of names,
/// which are found in logarithmic time.
pub(crate) fn changed(alloc: Global, schema: &Schema, change: &Change) -> Result<Op, Memory>
    requires { length schema.now.cols ≤ MAX_COLUMNS }
    ensures change { IfOk result (λ made. made ≡ spec.changed schema.now change.now) }
{
    let table = schema.name.copy()?;
    match change {
        Change::AddColumn(def) => Ok(Op::AddColumn {
            table,
            col: Col {
                name: def.name.text.copy()?,
                kind: def.kind,
            },
        }),
        Change::EnableDedup(dedup) => {
            let keys = named_places(alloc, &schema.cols, dedup.keys.as_slice())?;
            Ok(Op::SetKeys { table, keys })
        }
        Change::DisableDedup => Ok(Op::SetKeys {
            table,
            keys: KeyList::new(alloc),
        }),
    }
}
