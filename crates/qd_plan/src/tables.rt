//! The tables of a query, and the keys on which two are joined.
ghost use Rattle.std.specs.Prelude.{◌≡◌, ◌++◌, not, map, unwrap_or, IfOk, OnOk};
ghost use Rattle.std.specs.List.{flat_map};
ghost use Rattle.std.specs.Option.{option_copied, option_map};
ghost use Rattle.qd_base.specs.Schemas.{column_at, same_name, schema_of};
ghost use Rattle.qd_bind.specs.Scoped as scoped;
ghost use Rattle.qd_meaning.specs.Planned as parts;
ghost use Rattle.qd_meaning.specs.Refusals.{least, sooner, unless};
ghost use Rattle.qd_meaning.specs.Scopes as scopes;
ghost use Rattle.qd_plan.specs.Joining as spec;

use crate::fault::Faults;
use crate::place::position;
use qd_base::{Code, ColType, KeyList, Memory, Schema, Schemas, Seq, same_name};
use qd_bind::{Class, Side};
use qd_meaning::JoinSpec;
use qd_sql_ast::{Join, JoinOf, Name, Query, Source};
use std::alloc::Global;

/// A table of a query, where it is there.
#[derive(Clone, Copy)]
pub(crate) struct Found<'s> {
    /// Its position among the schemas, or 0.
    pub(crate) at: usize,
    /// What it looks like.
    pub(crate) schema: Option<&'s Schema>,
}

impl<'s> Found<'s> {
    /// Looks a table up, in time logarithmic in the number of tables. One that isn't there is refused at its name.
    pub(crate) fn table(schemas: &'s Schemas, name: &Name, faults: &mut Faults) -> Found<'s>
        ensures position { result.at ≡ parts.position_of schemas.now name.now.text }
        ensures schema { option_copied result.schema ≡ schema_of schemas.now name.now.text }
        ensures faults { faults.new.first ≡ sooner faults.old.first (least (parts.unknown_table (schema_of schemas.now name.now.text) name.now)) }
    {
        let found = find(schemas, name);
        faults.unless(found.schema.is_some(), Code::UnknownTable, name.at);
        found
    }

    /// The position of the designated column, or 0.
    pub(crate) fn time_col(&self) -> usize
        ensures time_col { result ≡ parts.time_col_in (option_copied self.now.schema) }
    {
        match self.schema {
            Some(schema) => schema.time_col as usize,
            None => 0,
        }
    }

    /// The position and the type of a column, where there is one.
    fn column(&self, name: &Name) -> Option<(usize, ColType)>
        ensures position { option_map (λ c. c.0) result ≡ column_at (parts.cols_in (option_copied self.now.schema)) name.now.text }
        ensures kind { option_map (λ c. c.1) result ≡ parts.kind_named (parts.cols_in (option_copied self.now.schema)) name.now }
    {
        match self.schema {
            Some(schema) => column_of(schema, name),
            None => None,
        }
    }
}

/// A table, where it is there.
fn find<'s>(schemas: &'s Schemas, name: &Name) -> Found<'s>
    ensures position { result.at ≡ parts.position_of schemas.now name.now.text }
    ensures schema { option_copied result.schema ≡ schema_of schemas.now name.now.text }
{
    match schemas.find(name.text.bytes()) {
        Some(at) => Found {
            at,
            schema: Some(schemas.get(at)),
        },
        None => Found {
            at: 0,
            schema: None,
        },
    }
}

/// The position and the type of a column of a table, where there is one.
fn column_of(schema: &Schema, name: &Name) -> Option<(usize, ColType)>
    ensures position { option_map (λ c. c.0) result ≡ column_at schema.now.cols name.now.text }
    ensures kind { option_map (λ c. c.1) result ≡ parts.kind_named schema.now.cols name.now }
{
    match schema.find_column(name.text.bytes()) {
        Some(at) => Some((at, schema.cols.get(at).kind)),
        None => None,
    }
}

/// What a table is called in a statement: by its alias, or by its own name.
pub(crate) fn called(source: &Source) -> &Name
    ensures called { result.now ≡ scopes.called source.now }
{
    match &source.alias {
        Some(alias) => alias,
        None => &source.table,
    }
}

/// One side of a query.
pub(crate) fn side<'s>(source: &'s Source, schema: Option<&'s Schema>) -> Side<'s>
    ensures side { scoped.side result ≡ scopes.scope_of source.now (parts.cols_in (option_copied schema.entry)) }
{
    Side::new(called(source).text.bytes(), schema)
}

/// The right side of a query, and how it is joined.
#[derive(Drop)]
pub(crate) struct Joined<'s> {
    pub(crate) side: Option<Side<'s>>,
    pub(crate) join: Option<(usize, JoinSpec)>,
}

/// The right side of a query; none without a join.
pub(crate) fn join_of<'s>(
    alloc: Global,
    schemas: &'s Schemas,
    left: Found<'s>,
    query: &'s Query,
    faults: &mut Faults,
) -> Result<Joined<'s>, Memory>
    ensures side { IfOk result (λ made. scoped.side_or_none made.side ≡ parts.scope_behind (parts.right_schema schemas.now query.now.join) query.now.join) }
    ensures join { IfOk result (λ made. made.join ≡
        parts.joined_with (parts.position_of schemas.now (parts.right_name query.now.join)) (option_copied left.entry.schema) (parts.right_schema schemas.now query.now.join) query.now.join) }
    ensures faults { OnOk result (faults.new.first ≡ sooner faults.old.first
        (least (parts.join_faults_in (option_copied left.entry.schema) (parts.right_schema schemas.now query.now.join) query.now.source query.now.join))) }
{
    match &query.join {
        None => Ok(Joined {
            side: None,
            join: None,
        }),
        Some(join) => {
            let right = Found::table(schemas, &join.right.table, faults);
            let spec = join_spec(alloc, left, right, &query.source, join, faults)?;
            Ok(Joined {
                side: Some(side(&join.right, right.schema)),
                join: Some((right.at, spec)),
            })
        }
    }
}

/// The keys of a join: columns of both sides, of one class. The sides have two names.
fn join_spec(
    alloc: Global,
    left: Found<'_>,
    right: Found<'_>,
    source: &Source,
    join: &Join,
    faults: &mut Faults,
) -> Result<JoinSpec, Memory>
    ensures spec { IfOk result (λ made. made ≡ parts.join_spec (option_copied left.entry.schema) (option_copied right.entry.schema) join.now) }
    ensures faults { OnOk result (faults.new.first ≡ sooner faults.old.first
        (least (unless (not (same_name (scopes.called source.now).text (scopes.called join.now.right).text)) Code.Ambiguous (scopes.called join.now.right).at
        ++ flat_map (spec.key_faults (option_copied left.entry.schema) (option_copied right.entry.schema)) (parts.keys_on join.now.on)))) }
{
    let name = called(&join.right);
    let is_apart = !same_name(called(source).text.bytes(), name.text.bytes());
    faults.unless(is_apart, Code::Ambiguous, name.at);
    let names = keys_on(&join.on);
    let (left, right) = join_keys(alloc, left, right, names, faults)?;
    Ok(JoinSpec {
        left,
        right,
        strict: is_strict(join.of),
    })
}

/// Whether a right row of the left row's own time is too late.
fn is_strict(of: JoinOf) -> bool
    ensures strict { result ≡ parts.is_strict of }
{
    match of {
        JoinOf::Asof => false,
        JoinOf::Lt => true,
    }
}

/// Lends the keys of a join; none without ON.
fn keys_on(names: &Option<Seq<Name>>) -> &[Name]
    ensures names { result.now ≡ parts.keys_on names.now }
{
    match names {
        Some(names) => names.as_slice(),
        None => &[],
    }
}

/// The positions of keys on both sides.
fn join_keys(
    alloc: Global,
    left: Found<'_>,
    right: Found<'_>,
    names: &[Name],
    faults: &mut Faults,
) -> Result<(KeyList, KeyList), Memory>
    ensures left { IfOk result (λ made. made.0 ≡ map (parts.column_in (parts.cols_in (option_copied left.entry.schema))) names.now) }
    ensures right { IfOk result (λ made. made.1 ≡ map (parts.column_in (parts.cols_in (option_copied right.entry.schema))) names.now) }
    ensures faults { OnOk result (faults.new.first ≡ sooner faults.old.first
        (least (flat_map (spec.key_faults (option_copied left.entry.schema) (option_copied right.entry.schema)) names.now))) }
{
    let mut lefts = KeyList::new(alloc);
    let mut rights = KeyList::new(alloc);
    for name in names {
        let (left_at, right_at) = join_key(left, right, name, faults)?;
        lefts.push(left_at)?;
        rights.push(right_at)?;
    }
    Ok((lefts, rights))
}

/// The positions of a key on both sides.
fn join_key(
    left: Found<'_>,
    right: Found<'_>,
    name: &Name,
    faults: &mut Faults,
) -> Result<(u32, u32), Memory>
    ensures left { IfOk result (λ made. made.0 ≡ parts.column_in (parts.cols_in (option_copied left.entry.schema)) name.now) }
    ensures right { IfOk result (λ made. made.1 ≡ parts.column_in (parts.cols_in (option_copied right.entry.schema)) name.now) }
    ensures faults { OnOk result (faults.new.first ≡ sooner faults.old.first
        (least (spec.key_faults (option_copied left.entry.schema) (option_copied right.entry.schema) name.now))) }
{
    let one = left.column(name);
    let other = right.column(name);
    judge_key(one, other, name, faults);
    let left_at = position(or_first(one))?;
    let right_at = position(or_first(other))?;
    Ok((left_at, right_at))
}

/// Where a key is refused: it is a column of both sides, of one class.
fn judge_key(
    one: Option<(usize, ColType)>,
    other: Option<(usize, ColType)>,
    name: &Name,
    faults: &mut Faults,
)
    ensures faults { faults.new.first ≡ sooner faults.old.first (least (parts.key_faults name.now (option_map (λ c. c.1) one) (option_map (λ c. c.1) other))) }
{
    match (one, other) {
        (Some((_, one)), Some((_, other))) => {
            let agrees = Class::of(one).agrees(Class::of(other));
            faults.unless(agrees, Code::Types, name.at);
        }
        _ => faults.unless(false, Code::UnknownColumn, name.at),
    }
}

/// A column's position, or 0.
fn or_first(column: Option<(usize, ColType)>) -> usize
    ensures position { result ≡ unwrap_or (option_map (λ c. c.0) column) 0 }
{
    match column {
        Some((at, _)) => at,
        None => 0,
    }
}
