//! Where INSERT is refused, and the columns that its rows give values.
ghost use Rattle.std.specs.Prelude.{◌≡◌, IfOk, map};
ghost use Rattle.std.specs.List.{flat_map};
ghost use Rattle.std.specs.Option.{option_copied};
ghost use Rattle.qd_base.specs.Schemas.{schema_of};
ghost use Rattle.qd_meaning.specs.Refusals.{least};
ghost use Rattle.qd_meaning.specs.Creating.{column_name_faults, unknown_column};
ghost use Rattle.qd_meaning.specs.Inserting as spec;
ghost use Rattle.qd_meaning.specs.Inserting.{Target};
ghost use Rattle.qd_writes.specs.Filling.{row_faults};

use crate::judge::both;
use crate::met::{NameSet, again};
use crate::names::{column_name_fault, table_name_fault};
use crate::tuple::Target;
use qd_base::{Code, ColType, Memory, Schema, Schemas, Seq};
use qd_meaning::{Refusal, soonest, unless};
use qd_sql_ast::{Insert, Name};
use std::alloc::Global;

/// Gives the refusal that is answered for an INSERT into its table, where that is there and the refusal of its rows is known.
///
/// It costs n log n in the number of names that are listed, and is linear in their length.
pub(crate) fn insert_fault(
    alloc: Global,
    table: Option<&Schema>,
    insert: &Insert,
    rows: Option<Refusal>,
) -> Result<Option<Refusal>, Memory>
    requires { rows ≡ least (row_faults (option_copied table) insert.now) }
    ensures least { IfOk result (λ found. found ≡ least (spec.insert_faults (option_copied table.entry) insert.now)) }
{
    let names = listed(&insert.columns);
    let table_name = table_name_fault(&insert.table);
    let fair = both(table_name, soonest(names, column_name_fault));
    let mut met = NameSet::new(alloc);
    let twice = both(fair, again(alloc, &mut met, names, Code::DuplicateColumn)?);
    Ok(both(twice, table_fault(table, insert, rows)))
}

/// Lends the schema of the table of a name, where it is there, in time logarithmic in the number of tables.
pub(crate) fn table_of<'a>(schemas: &'a Schemas, name: &Name) -> Option<&'a Schema>
    ensures schema { option_copied result ≡ schema_of schemas.now name.now.text }
{
    match schemas.find(name.text.bytes()) {
        Some(place) => Some(schemas.get(place)),
        None => None,
    }
}

/// Lends the columns that an INSERT lists; none where it lists none.
fn listed(columns: &Option<Seq<Name>>) -> &[Name]
    ensures names { result.now ≡ spec.listed columns.now }
{
    match columns {
        Some(names) => names.as_slice(),
        None => &[],
    }
}

/// Gives the refusal of a table that isn't there, or of what is inserted into it, where that of its rows is known.
fn table_fault(table: Option<&Schema>, insert: &Insert, rows: Option<Refusal>) -> Option<Refusal>
    requires { rows ≡ least (row_faults (option_copied table) insert.now) }
    ensures least { result ≡ least (spec.table_faults (option_copied table.entry) insert.now) }
{
    match table {
        None => unless(false, Code::UnknownTable, insert.table.at),
        Some(schema) => both(unknown_names(schema, listed(&insert.columns)), rows),
    }
}

/// Gives the refusal of the first name that is no column.
pub(crate) fn unknown_names(schema: &Schema, names: &[Name]) -> Option<Refusal>
    ensures least { result ≡ least (flat_map (unknown_column schema.now.cols) names.now) }
{
    soonest(names, |name| unknown_name(schema, name))
}

/// Gives the refusal of a name that is no column.
fn unknown_name(schema: &Schema, name: &Name) -> Option<Refusal>
    ensures least { result ≡ least (unknown_column schema.now.cols name.now) }
{
    let is_there = schema.find_column(name.text.bytes()).is_some();
    unless(is_there, Code::UnknownColumn, name.at)
}

/// Gives the columns that the rows give values: those that are listed, or all. It costs time linear in their number, but for
/// the places of names, which are found in logarithmic time.
pub(crate) fn targets_of(
    alloc: Global,
    schema: &Schema,
    columns: &Option<Seq<Name>>,
) -> Result<Vec<Target>, Memory>
    ensures targets { IfOk result (λ made. made.items ≡ spec.targets_of schema.now.cols columns.now) }
{
    match columns {
        Some(names) => named_targets(alloc, schema, names.as_slice()),
        None => all_targets(alloc, schema),
    }
}

/// Gives the columns of names.
fn named_targets(alloc: Global, schema: &Schema, names: &[Name]) -> Result<Vec<Target>, Memory>
    ensures targets { IfOk result (λ made. made.items ≡ map (spec.target_of schema.now.cols) names.now) }
{
    let mut made = Vec::with_capacity(alloc, names.len())?;
    for name in names {
        made.push(target_of(schema, name))?;
    }
    Ok(made)
}

/// Gives the column of a name. A name that is no column stands for the first one.
fn target_of(schema: &Schema, name: &Name) -> Target
    ensures target { result ≡ spec.target_of schema.now.cols name.now }
{
    let place = schema.find_column(name.text.bytes()).unwrap_or(0);
    match schema.cols.as_slice().get(place) {
        Some(col) => (place, col.kind),
        None => (place, ColType::Long),
    }
}

/// Gives all columns, in order.
fn all_targets(alloc: Global, schema: &Schema) -> Result<Vec<Target>, Memory>
    ensures targets { IfOk result (λ made. made.items ≡ spec.targets_of schema.now.cols None) }
{
    let cols = schema.cols.as_slice();
    let mut made = Vec::with_capacity(alloc, cols.len())?;
    for place in 0..cols.len() {
        made.push((place, cols[place].kind))?;
    }
    Ok(made)
}
