//! The items of a query: what each shows.
ghost use Rattle.std.specs.Prelude.{◌≡◌, ◌^◌, ◌<◌, ◌++◌, [], ℕ, List, map, IfOk, OnOk};
ghost use Rattle.qd_bind.specs.Scoped.{scope};
ghost use Rattle.qd_bind.specs.Seen as seen;
ghost use Rattle.qd_meaning.specs.Binding as binding;
ghost use Rattle.qd_meaning.specs.Items as meant;
ghost use Rattle.qd_meaning.specs.Outputs as outputs;
ghost use Rattle.qd_meaning.specs.Refusals.{least, sooner};
ghost use Rattle.qd_meaning.specs.Typing as typing;
ghost use Rattle.qd_plan.specs.Kinds as kinds;
ghost use Rattle.qd_plan.specs.Showing as spec;
ghost use Rattle.qd_plan.specs.Showing.{Makes};
ghost use Rattle.qd_plan.specs.Listing.{plain_from, faults_in};

use crate::binding::bind;
use crate::fault::Faults;
use crate::shows::{Part, Shows};
use crate::work::Parts;
use qd_base::{Code, Col, ColType, Memory, Txt};
use qd_bind::{Class, Form, Scope, Side, Typed};
use qd_meaning::{Agg, Refusal, sooner, unless};
use qd_sql_ast::{AggOf, Expr, Item, Name, Selected, Shown};
use qd_value::Bound;
use std::alloc::Global;

/// Adds the items of a query to none. Without SELECT, and for `*`, all columns are shown, those of the left table first.
pub(crate) fn add_items(
    alloc: Global,
    columns: &Scope<'_>,
    selected: &Option<Selected>,
    buckets: Option<usize>,
    made: &mut Parts,
    faults: &mut Faults,
) -> Result<(), Memory>
    ensures parts { Makes buckets [] made.old → OnOk result (Makes buckets (meant.items_of (scope columns.now) selected.now) made.new) }
    ensures faults { OnOk result (faults.new.first ≡ sooner faults.old.first (least (faults_in (meant.items_of (scope columns.now) selected.now)))) }
{
    match selected {
        None => all_columns(alloc, columns, buckets, made),
        Some(selected) => add_selected(alloc, columns, selected, buckets, made, faults),
    }
}

/// Adds the items behind SELECT to none.
fn add_selected(
    alloc: Global,
    columns: &Scope<'_>,
    selected: &Selected,
    buckets: Option<usize>,
    made: &mut Parts,
    faults: &mut Faults,
) -> Result<(), Memory>
    ensures parts { Makes buckets [] made.old → OnOk result (Makes buckets (meant.items_by (scope columns.now) selected.now) made.new) }
    ensures faults { OnOk result (faults.new.first ≡ sooner faults.old.first (least (faults_in (meant.items_by (scope columns.now) selected.now)))) }
{
    match selected {
        Selected::All(_) => all_columns(alloc, columns, buckets, made),
        Selected::Items(items) => {
            listed(alloc, columns, items.as_slice(), buckets, made, faults)
        }
    }
}

/// Adds all columns to no item.
fn all_columns(
    alloc: Global,
    columns: &Scope<'_>,
    buckets: Option<usize>,
    made: &mut Parts,
) -> Result<(), Memory>
    ensures parts { Makes buckets [] made.old → OnOk result (Makes buckets (meant.all_from 0 (scope columns.now)) made.new) }
{
    let left = columns.left.columns();
    columns_from(alloc, 0, left, buckets, made)?;
    right_columns(alloc, left.len(), &columns.right, buckets, made)
}

/// One item more for each column of the right table, where there is one.
fn right_columns(
    alloc: Global,
    base: usize,
    right: &Option<Side<'_>>,
    buckets: Option<usize>,
    made: &mut Parts,
) -> Result<(), Memory>
    requires { base < 2 ^ 62 }
    ensures added { (before : List meant.Shows) → Makes buckets before made.old → OnOk result (Makes buckets (before ++ plain_from base (kinds.columns_or_none right.now)) made.new) }
{
    match right {
        Some(right) => columns_from(alloc, base, right.columns(), buckets, made),
        None => Ok(()),
    }
}

/// One item more for each column of a table whose columns stand behind so many others.
fn columns_from(
    alloc: Global,
    base: usize,
    cols: &[Col],
    buckets: Option<usize>,
    made: &mut Parts,
) -> Result<(), Memory>
    requires { base < 2 ^ 62 }
    ensures added { (before : List meant.Shows) → Makes buckets before made.old → OnOk result (Makes buckets (before ++ plain_from base cols.now) made.new) }
{
    for (i, col) in cols.iter().enumerate() {
        let item = column(base + i, col)?;
        made.add(alloc, item, buckets)?;
    }
    Ok(())
}

/// The item that a column is.
fn column(at: usize, col: &Col) -> Result<Shows, Memory>
    ensures item { IfOk result (λ made. made ≡ spec.shows (meant.value_shown (typing.plain_column (at, col.now)))) }
{
    let name = col.name.copy()?;
    Ok(Shows {
        name,
        kind: col.kind,
        part: Part::Value(Bound::Column(at), Some(at)),
    })
}

/// Adds listed items to none.
fn listed(
    alloc: Global,
    columns: &Scope<'_>,
    items: &[Item],
    buckets: Option<usize>,
    made: &mut Parts,
    faults: &mut Faults,
) -> Result<(), Memory>
    ensures parts { Makes buckets [] made.old → OnOk result (Makes buckets (map (meant.item_of (scope columns.now)) items.now) made.new) }
    ensures faults { OnOk result (faults.new.first ≡ sooner faults.old.first (least (faults_in (map (meant.item_of (scope columns.now)) items.now)))) }
{
    for item in items {
        let shown = item_of(alloc, columns, item, faults)?;
        made.add(alloc, shown, buckets)?;
    }
    Ok(())
}

/// An item.
fn item_of(
    alloc: Global,
    columns: &Scope<'_>,
    item: &Item,
    faults: &mut Faults,
) -> Result<Shows, Memory>
    ensures item { IfOk result (λ made. made ≡ spec.shows (meant.item_of (scope columns.now) item.now)) }
    ensures faults { OnOk result (faults.new.first ≡ sooner faults.old.first (least (meant.item_of (scope columns.now) item.now).faults)) }
{
    let made = shown_of(alloc, columns, &item.shown, faults)?;
    named(made, &item.alias)
}

/// An item under its alias, where it has one.
fn named(item: Shows, alias: &Option<Name>) -> Result<Shows, Memory>
    ensures item { IfOk result (λ made. made ≡ record item { name = outputs.alias_or alias.now item.name }) }
{
    match alias {
        None => Ok(item),
        Some(alias) => Ok(Shows {
            name: alias.text.copy()?,
            kind: item.kind,
            part: item.part,
        }),
    }
}

/// What an item shows, under the name that it has without an alias.
fn shown_of(
    alloc: Global,
    columns: &Scope<'_>,
    shown: &Shown,
    faults: &mut Faults,
) -> Result<Shows, Memory>
    ensures item { IfOk result (λ made. made ≡ spec.shows (meant.shown_of (scope columns.now) shown.now)) }
    ensures faults { OnOk result (faults.new.first ≡ sooner faults.old.first (least (meant.shown_of (scope columns.now) shown.now).faults)) }
{
    match shown {
        Shown::Count(_) => count(alloc),
        Shown::Agg(of, word, e) => aggregate_of(alloc, columns, *of, *word, e, faults),
        Shown::Expr(e) => value_of(alloc, columns, e, faults),
    }
}

/// An aggregate of an expression of the statement, whose word stands at a place.
fn aggregate_of(
    alloc: Global,
    columns: &Scope<'_>,
    of: AggOf,
    word: u64,
    e: &Expr,
    faults: &mut Faults,
) -> Result<Shows, Memory>
    ensures item { IfOk result (λ made. made ≡ spec.shows (meant.agg_shown of word (binding.typed (scope columns.now) e.now))) }
    ensures faults { OnOk result (faults.new.first ≡ sooner faults.old.first (least (meant.agg_shown of word (binding.typed (scope columns.now) e.now)).faults)) }
{
    let x = bind(alloc, columns, e)?;
    let fault = sooner(agg_fault(of, word, x.class), x.fault);
    faults.add(fault);
    aggregate(alloc, of, x)
}

/// An expression of the statement.
fn value_of(
    alloc: Global,
    columns: &Scope<'_>,
    e: &Expr,
    faults: &mut Faults,
) -> Result<Shows, Memory>
    ensures item { IfOk result (λ made. made ≡ spec.shows (meant.value_shown (binding.typed (scope columns.now) e.now))) }
    ensures faults { OnOk result (faults.new.first ≡ sooner faults.old.first (least (binding.typed (scope columns.now) e.now).faults)) }
{
    let x = bind(alloc, columns, e)?;
    faults.add(x.fault);
    value(alloc, x)
}

/// `count()`.
fn count(alloc: Global) -> Result<Shows, Memory>
    ensures item { IfOk result (λ made. made ≡ spec.counted) }
{
    Ok(Shows {
        name: Txt::from_bytes(alloc, b"count")?,
        kind: ColType::Long,
        part: Part::Made(Agg::Count),
    })
}

/// A value of each row, which is named as its column is, and else `column`.
fn value(alloc: Global, x: Typed) -> Result<Shows, Memory>
    ensures item { IfOk result (λ made. (t : typing.Typed) → x ≡ seen.typed t → made ≡ spec.shows (meant.value_shown t)) }
{
    let kind = kind_of(&x);
    let place = place_in(&x.form);
    let name = name_by(alloc, x.form)?;
    Ok(Shows {
        name,
        kind,
        part: Part::Value(x.bound, place),
    })
}

/// The name of an expression.
fn name_by(alloc: Global, form: Form) -> Result<Txt, Memory>
    ensures name { IfOk result (λ made. (f : typing.Form) → form ≡ seen.shape f → made ≡ outputs.name_by f) }
{
    match form {
        Form::Column(_, col) => Ok(col.name),
        _ => Txt::from_bytes(alloc, b"column"),
    }
}

/// The position of a column as it stands.
fn place_in(form: &Form) -> Option<usize>
    ensures place { (f : typing.Form) → form.now ≡ seen.shape f → result ≡ spec.place_in f }
{
    match form {
        Form::Column(at, _) => Some(*at),
        _ => None,
    }
}

/// The type of an expression's values: a column's own, or that of its class.
fn kind_of(x: &Typed) -> ColType
    ensures kind { (t : typing.Typed) → x.now ≡ seen.typed t → result ≡ outputs.kind_of t }
{
    match &x.form {
        Form::Column(_, col) => col.kind,
        _ => kind_of_class(x.class),
    }
}

/// The type of a class.
fn kind_of_class(class: Class) -> ColType
    ensures kind { result ≡ kinds.kind_of_class class }
{
    match class {
        Class::Any => ColType::Long,
        Class::Number => ColType::Long,
        Class::Truth => ColType::Bool,
        Class::Text => ColType::Varchar,
        Class::Time => ColType::Time,
    }
}

/// The refusal of an aggregate's word: `sum` is of numbers, `min` and `max` are of numbers or times.
fn agg_fault(of: AggOf, word: u64, class: Class) -> Option<Refusal>
    ensures least { (t : typing.Typed) → class ≡ seen.class t.class → result ≡ least (meant.agg_faults of word t) }
{
    match of {
        AggOf::Sum => unless(Class::Number.agrees(class), Code::Types, word),
        AggOf::Min => unless(class.has_order(), Code::Types, word),
        AggOf::Max => unless(class.has_order(), Code::Types, word),
        AggOf::First => None,
        AggOf::Last => None,
    }
}

/// What an aggregate makes of many rows.
fn aggregate(alloc: Global, of: AggOf, x: Typed) -> Result<Shows, Memory>
    ensures item { IfOk result (λ made. (t : typing.Typed) (word : ℕ) → x ≡ seen.typed t → made ≡ spec.shows (meant.agg_shown of word t)) }
{
    let name = Txt::from_bytes(alloc, name_of(of))?;
    let kind = kind_of_agg(of, &x);
    let agg = made_by(of, x.bound);
    Ok(Shows {
        name,
        kind,
        part: Part::Made(agg),
    })
}

/// The type of an aggregate: a sum is a number, the others have the type of what they are made of.
fn kind_of_agg(of: AggOf, x: &Typed) -> ColType
    ensures kind { (t : typing.Typed) → x.now ≡ seen.typed t → result ≡ outputs.kind_of_agg of t }
{
    match of {
        AggOf::Sum => ColType::Long,
        AggOf::Min | AggOf::Max | AggOf::First | AggOf::Last => kind_of(x),
    }
}

/// The name of an aggregate.
fn name_of(of: AggOf) -> &'static [u8]
    ensures name { result.now ≡ outputs.name_of_agg of }
{
    match of {
        AggOf::Sum => b"sum",
        AggOf::Min => b"min",
        AggOf::Max => b"max",
        AggOf::First => b"first",
        AggOf::Last => b"last",
    }
}

/// An aggregate of an expression.
fn made_by(of: AggOf, bound: Bound) -> Agg
    ensures made { result ≡ meant.made_by of bound }
{
    match of {
        AggOf::Sum => Agg::Sum(bound),
        AggOf::Min => Agg::Min(bound),
        AggOf::Max => Agg::Max(bound),
        AggOf::First => Agg::First(bound),
        AggOf::Last => Agg::Last(bound),
    }
}
