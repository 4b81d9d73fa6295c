//! What CREATE TABLE makes, and where it is refused.
ghost use Rattle.std.specs.Prelude.{◌≡◌, ◌≤◌, ◌<◌, length, map, List, IfOk, None, Some, Option};
ghost use Rattle.std.specs.List.{flat_map};
ghost use Rattle.std.specs.Option.{option_copied, option_map};
ghost use Rattle.qd_base.specs.declared.limits.TheConstants.{MAX_COLUMNS};
ghost use Rattle.qd_base.specs.Schemas.{column_at};
ghost use Rattle.qd_sql_ast.specs.declared.tree.ColumnDef.{ColumnDef};
ghost use Rattle.qd_meaning.specs.Refusals.{least};
ghost use Rattle.qd_meaning.specs.Creating as spec;
ghost use Rattle.qd_writes.specs.Met.{HasMet, names_of};

use crate::judge::both;
use crate::keys::keys_fault;
use crate::met::{NameSet, again};
use crate::names::{column_name_fault, table_name_fault};
use qd_base::{
    Code, Col, ColList, ColType, KeyList, MAX_COLUMNS, MAX_TABLES, Memory, Schema, Schemas, Seq,
    same_name,
};
use qd_meaning::{Refusal, soonest, unless};
use qd_sql_ast::{ColumnDef, Create, Dedup, Name};
use std::alloc::Global;

/// Gives the refusal that is answered for a CREATE over the schemas of the tables that are there.
///
/// It costs n log n in the length of the statement, and time logarithmic in the number of tables.
pub(crate) fn create_fault(
    alloc: Global,
    schemas: &Schemas,
    create: &Create,
) -> Result<Option<Refusal>, Memory>
    ensures least { IfOk result (λ found. found ≡ least (spec.create_faults schemas.now create.now)) }
{
    let columns = create.columns.as_slice();
    let mut met = NameSet::new(alloc);
    let table = table_fault(schemas, create);
    let names = both(table, column_names_fault(columns));
    let twice = both(
        names,
        again(alloc, &mut met, columns, Code::DuplicateColumn)?,
    );
    let time = both(twice, column_name_fault(&create.time));
    let designated = both(time, designated_fault(columns, &create.time));
    let dedup = dedup_fault(alloc, create, &met)?;
    Ok(both(designated, dedup))
}

/// Gives the refusal of the table itself: of its name, and of too many tables or columns.
fn table_fault(schemas: &Schemas, create: &Create) -> Option<Refusal>
    ensures least { result ≡ least (spec.table_faults schemas.now create.now) }
{
    let place = create.table.at;
    let name = create.table.text.bytes();
    let is_new = schemas.find(name).is_none();
    let exists = both(
        table_name_fault(&create.table),
        unless(is_new, Code::TableExists, place),
    );
    let room = schemas.len() < MAX_TABLES;
    let tables = both(exists, unless(room, Code::Tables, place));
    let few = create.columns.len() <= MAX_COLUMNS;
    both(tables, unless(few, Code::Columns, place))
}

/// Gives the refusal of the first column whose name no column may have.
fn column_names_fault(columns: &[ColumnDef]) -> Option<Refusal>
    ensures least { result ≡ least (flat_map (λ (d : ColumnDef). spec.column_name_faults d.name) columns.now) }
{
    soonest(columns, |def| column_name_fault(&def.name))
}

/// Gives the refusal of a designated column that is missing, or of another type. It costs time linear in the columns.
fn designated_fault(columns: &[ColumnDef], time: &Name) -> Option<Refusal>
    ensures least { result ≡ least (spec.designated_faults (map spec.col_of columns.now) time.now) }
{
    let place = place_of(columns, time.text.bytes());
    let unknown = unless(place.is_some(), Code::UnknownColumn, time.at);
    both(unknown, kind_fault(columns.get(place.unwrap_or(0)), time))
}

/// Gives the position of the first column of a name, where there is one.
fn place_of(columns: &[ColumnDef], name: &[u8]) -> Option<usize>
    ensures place { result ≡ column_at (map spec.col_of columns.now) name.now }
{
    for place in 0..columns.len() {
        if same_name(columns[place].name.text.bytes(), name) {
            return Some(place);
        }
    }
    None
}

/// Gives the refusal of a designated column that is of another type than TIMESTAMP.
fn kind_fault(column: Option<&ColumnDef>, time: &Name) -> Option<Refusal>
    ensures least { result ≡ least (spec.not_designated time.now (option_map spec.col_of (option_copied column.entry))) }
{
    match column {
        None => None,
        Some(def) => unless(is_time(def.kind), Code::Types, time.at),
    }
}

/// Whether a column may be the designated one.
fn is_time(kind: ColType) -> bool
    ensures time { result ≡ spec.is_time_kind kind }
{
    match kind {
        ColType::Time => true,
        _ => false,
    }
}

/// Gives the refusal of the keys, where there are some. The set holds the names of the columns.
fn dedup_fault(alloc: Global, create: &Create, columns: &NameSet) -> Result<Option<Refusal>, Memory>
    requires { HasMet (names_of create.now.columns) columns.now }
    ensures least { IfOk result (λ found. found ≡ least (spec.dedup_faults (spec.cols_of create.now) create.now.time create.now.dedup)) }
{
    match &create.dedup {
        None => Ok(None),
        Some(dedup) => dedup_keys_fault(alloc, create, columns, dedup),
    }
}

/// Gives the refusal of keys.
fn dedup_keys_fault(
    alloc: Global,
    create: &Create,
    columns: &NameSet,
    dedup: &Dedup,
) -> Result<Option<Refusal>, Memory>
    requires { HasMet (names_of create.now.columns) columns.now }
    ensures least { IfOk result (λ found. found ≡ least (spec.dedup_faults (spec.cols_of create.now) create.now.time (Some dedup.now))) }
{
    let keys = dedup.keys.as_slice();
    let names = soonest(keys, column_name_fault);
    let unknown = both(names, unknown_keys(alloc, create, columns, keys)?);
    let set = keys_fault(alloc, dedup, create.time.text.bytes())?;
    Ok(both(unknown, set))
}

/// Gives the refusal of the first key that is no column.
fn unknown_keys(
    alloc: Global,
    create: &Create,
    columns: &NameSet,
    keys: &[Name],
) -> Result<Option<Refusal>, Memory>
    requires { HasMet (names_of create.now.columns) columns.now }
    ensures least { IfOk result (λ found. found ≡ least (flat_map (spec.unknown_column (spec.cols_of create.now)) keys.now)) }
{
    let mut found = None;
    for key in keys {
        let is_there = columns.has(alloc, key)?;
        found = both(found, unless(is_there, Code::UnknownColumn, key.at));
    }
    Ok(found)
}

/// Makes the schema of the table that a CREATE without a refusal makes. It costs time and memory linear in its size, but for
/// the places of names, which are found in logarithmic time.
pub(crate) fn created(alloc: Global, create: &Create) -> Result<Schema, Memory>
    requires { length create.now.columns ≤ MAX_COLUMNS }
    ensures schema { IfOk result (λ made. made ≡ spec.created create.now) }
{
    let cols = columns_of(alloc, create.columns.as_slice())?;
    let time_col = place_in(&cols, &create.time);
    let keys = places_of(alloc, &cols, &create.dedup)?;
    Ok(Schema {
        name: create.table.text.copy()?,
        cols,
        time_col,
        unit: create.unit,
        keys,
    })
}

/// Copies columns.
fn columns_of(alloc: Global, columns: &[ColumnDef]) -> Result<ColList, Memory>
    ensures columns { IfOk result (λ made. made ≡ map spec.col_of columns.now) }
{
    let mut made = ColList::new(alloc);
    for def in columns {
        let name = def.name.text.copy()?;
        made.push(Col {
            name,
            kind: def.kind,
        })?;
    }
    Ok(made)
}

/// Gives the position of the column of a name, or 0.
fn place_in(cols: &ColList, name: &Name) -> u32
    requires { length cols.now ≤ MAX_COLUMNS }
    ensures place { result ≡ spec.place_in cols.now name.now }
{
    match cols.find(name.text.bytes()) {
        Some(place) => place as u32,
        None => 0,
    }
}

/// Gives the positions of the keys.
fn places_of(alloc: Global, cols: &ColList, dedup: &Option<Dedup>) -> Result<KeyList, Memory>
    requires { length cols.now ≤ MAX_COLUMNS }
    ensures places { IfOk result (λ made. made ≡ map (spec.place_in cols.now) (spec.keys_named dedup.now)) }
{
    match dedup {
        Some(dedup) => named_places(alloc, cols, dedup.keys.as_slice()),
        None => Ok(Seq::new(alloc)),
    }
}

/// Gives the positions of the columns of names.
pub(crate) fn named_places(alloc: Global, cols: &ColList, names: &[Name]) -> Result<KeyList, Memory>
    requires { length cols.now ≤ MAX_COLUMNS }
    ensures places { IfOk result (λ made. made ≡ map (spec.place_in cols.now) names.now) }
{
    let mut places = Seq::new(alloc);
    for name in names {
        places.push(place_in(cols, name))?;
    }
    Ok(places)
}
