//! The rules of queries.
ghost use Rattle.std.specs.Prelude.{◌≡◌};
ghost use Rattle.qd_sql.specs.Queries as spec;
ghost use Rattle.qd_sql_ast.specs.Steps.{Reads, Takes};

use crate::expr::{column, expr};
use qd_base::{MAX_NESTING, Seq};
use qd_sql_ast::{
    AggOf, AlignTo, Column, Cursor, Expr, FillWith, Fills, Filter, Item, Join, JoinOf, Latest,
    Limit, Name, OrderKey, Query, Sampled, Selected, Shown, Source, Stop, Text, list,
    names_to_bracket,
};
use qd_sql_lexer::Kind;
use std::alloc::Global;

/// An expression of a query. It is one level, and each bracket in it one more.
#[tactic(auto, unfolding(crate::specs::Queries::whole))]
fn whole(alloc: Global, tokens: &mut Cursor<'_, '_>) -> Result<Expr, Stop>
    ensures { Reads (spec.whole tokens.old) result tokens.new }
{
    expr(alloc, tokens, MAX_NESTING + 1)
}

/// Reads a query.
#[tactic(auto, unfolding(crate::specs::Queries::query))]
pub(crate) fn query(alloc: Global, tokens: &mut Cursor<'_, '_>) -> Result<Query, Stop>
    ensures { Reads (spec.query tokens.old) result tokens.new }
{
    let (selected, source, join, filter) = rows_of(alloc, tokens)?;
    let (latest, sampled, order, limit) = shape_of(alloc, tokens)?;
    Ok(Query {
        selected,
        source,
        join,
        filter,
        latest,
        sampled,
        order,
        limit,
    })
}

/// The parts of a query up to its filter.
type RowsOf = (Option<Selected>, Source, Option<Join>, Option<Filter>);

/// The parts of a query behind its filter.
type ShapeOf = (
    Option<Latest>,
    Option<Sampled>,
    Option<Seq<OrderKey>>,
    Option<Limit>,
);

/// ["SELECT" items "FROM"] source [join] ["WHERE" expr]
#[tactic(auto, unfolding(crate::specs::Queries::rows_of))]
fn rows_of(alloc: Global, tokens: &mut Cursor<'_, '_>) -> Result<RowsOf, Stop>
    ensures { Reads (spec.rows_of tokens.old) result tokens.new }
{
    let selected = selected(alloc, tokens)?;
    let source = source(alloc, tokens)?;
    let join = join(alloc, tokens)?;
    let filter = filter(alloc, tokens)?;
    Ok((selected, source, join, filter))
}

/// [latest] [sample] [order] [limit]
#[tactic(auto, unfolding(crate::specs::Queries::shape_of))]
fn shape_of(alloc: Global, tokens: &mut Cursor<'_, '_>) -> Result<ShapeOf, Stop>
    ensures { Reads (spec.shape_of tokens.old) result tokens.new }
{
    let latest = latest(alloc, tokens)?;
    let sampled = sampled(alloc, tokens)?;
    let order = order(alloc, tokens)?;
    let limit = limit(tokens)?;
    Ok((latest, sampled, order, limit))
}

/// ["SELECT" items "FROM"]
#[tactic(auto, unfolding(crate::specs::Queries::selected))]
fn selected(alloc: Global, tokens: &mut Cursor<'_, '_>) -> Result<Option<Selected>, Stop>
    ensures { Reads (spec.selected tokens.old) result tokens.new }
{
    if tokens.word(b"SELECT").is_none() {
        return Ok(None);
    }
    let found = select_items(alloc, tokens)?;
    tokens.want_word(b"FROM")?;
    Ok(Some(found))
}

/// "*" | item {"," item}
#[tactic(auto, unfolding(crate::specs::Queries::select_items))]
fn select_items(alloc: Global, tokens: &mut Cursor<'_, '_>) -> Result<Selected, Stop>
    ensures { Reads (spec.select_items tokens.old) result tokens.new }
{
    match tokens.sign(Kind::Star) {
        Some(at) => Ok(Selected::All(at)),
        None => Ok(Selected::Items(items(alloc, tokens)?)),
    }
}

/// item {"," item}
fn items(alloc: Global, tokens: &mut Cursor<'_, '_>) -> Result<Seq<Item>, Stop>
    ensures { Reads (spec.items tokens.old) result tokens.new }
{
    list(alloc, tokens, item)
}

/// (agg | expr) ["AS" name]
#[tactic(auto, unfolding(crate::specs::Queries::item))]
fn item(alloc: Global, tokens: &mut Cursor<'_, '_>) -> Result<Item, Stop>
    ensures { Reads (spec.item tokens.old) result tokens.new }
{
    let shown = shown(alloc, tokens)?;
    let alias = named(alloc, tokens)?;
    Ok(Item { shown, alias })
}

/// ["AS" name]
#[tactic(auto, unfolding(crate::specs::Queries::named))]
fn named(alloc: Global, tokens: &mut Cursor<'_, '_>) -> Result<Option<Name>, Stop>
    ensures { Reads (spec.named tokens.old) result tokens.new }
{
    if tokens.word(b"AS").is_none() {
        return Ok(None);
    }
    Ok(Some(tokens.name(alloc)?))
}

/// agg | expr
#[tactic(auto, unfolding(crate::specs::Queries::shown))]
fn shown(alloc: Global, tokens: &mut Cursor<'_, '_>) -> Result<Shown, Stop>
    ensures { Reads (spec.shown tokens.old) result tokens.new }
{
    if let Some(at) = tokens.call(b"count") {
        count(at, tokens)
    } else if let Some((of, at)) = agg_of(tokens) {
        aggregate(alloc, of, at, tokens)
    } else {
        Ok(Shown::Expr(whole(alloc, tokens)?))
    }
}

/// ["*"] ")", behind `count(`.
#[tactic(auto, unfolding(crate::specs::Queries::count))]
fn count(at: u64, tokens: &mut Cursor<'_, '_>) -> Result<Shown, Stop>
    ensures { Reads (spec.count at tokens.old) result tokens.new }
{
    if tokens.sign(Kind::Star).is_some() {
        tokens.want(Kind::Close)?;
        Ok(Shown::Count(at))
    } else {
        tokens.want(Kind::Close)?;
        Ok(Shown::Count(at))
    }
}

/// Takes the word of another aggregate and its bracket, where they come next.
#[tactic(auto, unfolding(crate::specs::Queries::agg_of))]
fn agg_of(tokens: &mut Cursor<'_, '_>) -> Option<(AggOf, u64)>
    ensures { Takes result (spec.agg_of tokens.old) tokens.old tokens.new }
{
    if let Some(at) = tokens.call(b"sum") {
        Some((AggOf::Sum, at))
    } else if let Some(at) = tokens.call(b"min") {
        Some((AggOf::Min, at))
    } else if let Some(at) = tokens.call(b"max") {
        Some((AggOf::Max, at))
    } else if let Some(at) = tokens.call(b"first") {
        Some((AggOf::First, at))
    } else if let Some(at) = tokens.call(b"last") {
        Some((AggOf::Last, at))
    } else {
        None
    }
}

/// expr ")", behind the word of an aggregate and its bracket.
#[tactic(auto, unfolding(crate::specs::Queries::aggregate))]
fn aggregate(alloc: Global, of: AggOf, at: u64, tokens: &mut Cursor<'_, '_>) -> Result<Shown, Stop>
    ensures { Reads (spec.aggregate of at tokens.old) result tokens.new }
{
    let inner = whole(alloc, tokens)?;
    tokens.want(Kind::Close)?;
    Ok(Shown::Agg(of, at, inner))
}

/// name [["AS"] name]
#[tactic(auto, unfolding(crate::specs::Queries::source))]
fn source(alloc: Global, tokens: &mut Cursor<'_, '_>) -> Result<Source, Stop>
    ensures { Reads (spec.source tokens.old) result tokens.new }
{
    let table = tokens.name(alloc)?;
    let alias = alias(alloc, tokens)?;
    Ok(Source { table, alias })
}

/// [["AS"] name]
#[tactic(auto, unfolding(crate::specs::Queries::alias))]
fn alias(alloc: Global, tokens: &mut Cursor<'_, '_>) -> Result<Option<Name>, Stop>
    ensures { Reads (spec.alias tokens.old) result tokens.new }
{
    if tokens.word(b"AS").is_some() || tokens.sees_name() {
        Ok(Some(tokens.name(alloc)?))
    } else {
        Ok(None)
    }
}

/// [("ASOF"|"LT") "JOIN" ..]
#[tactic(auto, unfolding(crate::specs::Queries::join))]
fn join(alloc: Global, tokens: &mut Cursor<'_, '_>) -> Result<Option<Join>, Stop>
    ensures { Reads (spec.join tokens.old) result tokens.new }
{
    if let Some(at) = tokens.word(b"ASOF") {
        joined(alloc, JoinOf::Asof, at, tokens)
    } else if let Some(at) = tokens.word(b"LT") {
        joined(alloc, JoinOf::Lt, at, tokens)
    } else {
        Ok(None)
    }
}

/// "JOIN" source ["ON" "(" name {"," name} ")"]
#[tactic(auto, unfolding(crate::specs::Queries::joined))]
fn joined(
    alloc: Global,
    of: JoinOf,
    at: u64,
    tokens: &mut Cursor<'_, '_>,
) -> Result<Option<Join>, Stop>
    ensures { Reads (spec.joined of at tokens.old) result tokens.new }
{
    tokens.want_word(b"JOIN")?;
    let right = source(alloc, tokens)?;
    let on = join_keys(alloc, tokens)?;
    Ok(Some(Join { of, at, right, on }))
}

/// ["ON" "(" name {"," name} ")"]
#[tactic(auto, unfolding(crate::specs::Queries::join_keys))]
fn join_keys(alloc: Global, tokens: &mut Cursor<'_, '_>) -> Result<Option<Seq<Name>>, Stop>
    ensures { Reads (spec.join_keys tokens.old) result tokens.new }
{
    if tokens.word(b"ON").is_none() {
        return Ok(None);
    }
    tokens.want(Kind::Open)?;
    Ok(Some(names_to_bracket(alloc, tokens)?))
}

/// ["WHERE" expr]
#[tactic(auto, unfolding(crate::specs::Queries::filter))]
fn filter(alloc: Global, tokens: &mut Cursor<'_, '_>) -> Result<Option<Filter>, Stop>
    ensures { Reads (spec.filter tokens.old) result tokens.new }
{
    match tokens.word(b"WHERE") {
        Some(at) => Ok(Some(Filter {
            at,
            test: whole(alloc, tokens)?,
        })),
        None => Ok(None),
    }
}

/// ["LATEST" "ON" column "PARTITION" "BY" column {"," column}]
#[tactic(auto, unfolding(crate::specs::Queries::latest))]
fn latest(alloc: Global, tokens: &mut Cursor<'_, '_>) -> Result<Option<Latest>, Stop>
    ensures { Reads (spec.latest tokens.old) result tokens.new }
{
    let Some(at) = tokens.word(b"LATEST") else {
        return Ok(None);
    };
    tokens.want_word(b"ON")?;
    let on = column(alloc, tokens)?;
    tokens.want_word(b"PARTITION")?;
    tokens.want_word(b"BY")?;
    let keys = keys(alloc, tokens)?;
    Ok(Some(Latest { at, on, keys }))
}

/// column {"," column}
fn keys(alloc: Global, tokens: &mut Cursor<'_, '_>) -> Result<Seq<Column>, Stop>
    ensures { Reads (spec.keys tokens.old) result tokens.new }
{
    list(alloc, tokens, column)
}

/// ["SAMPLE" "BY" Stride [fills] [align]]
#[tactic(auto, unfolding(crate::specs::Queries::sampled))]
fn sampled(alloc: Global, tokens: &mut Cursor<'_, '_>) -> Result<Option<Sampled>, Stop>
    ensures { Reads (spec.sampled tokens.old) result tokens.new }
{
    let Some(at) = tokens.word(b"SAMPLE") else {
        return Ok(None);
    };
    tokens.want_word(b"BY")?;
    let stride = tokens.stride()?;
    let fills = fills(alloc, tokens)?;
    let align = align(alloc, tokens)?;
    Ok(Some(Sampled {
        at,
        stride,
        fills,
        align,
    }))
}

/// ["FILL" "(" fill {"," fill} ")"]
#[tactic(auto, unfolding(crate::specs::Queries::fills))]
fn fills(alloc: Global, tokens: &mut Cursor<'_, '_>) -> Result<Option<Fills>, Stop>
    ensures { Reads (spec.fills tokens.old) result tokens.new }
{
    let Some(at) = tokens.word(b"FILL") else {
        return Ok(None);
    };
    tokens.want(Kind::Open)?;
    let fills = fill_list(alloc, tokens)?;
    tokens.want(Kind::Close)?;
    Ok(Some(Fills { at, fills }))
}

/// fill {"," fill}
fn fill_list(alloc: Global, tokens: &mut Cursor<'_, '_>) -> Result<Seq<FillWith>, Stop>
    ensures { Reads (spec.fill_list tokens.old) result tokens.new }
{
    list(alloc, tokens, |_, tokens| fill(tokens))
}

/// "NONE" | "NULL" | "PREV" | ["-"] Number
#[tactic(auto, unfolding(crate::specs::Queries::fill))]
fn fill(tokens: &mut Cursor<'_, '_>) -> Result<FillWith, Stop>
    ensures { Reads (spec.fill tokens.old) result tokens.new }
{
    if let Some(at) = tokens.word(b"NONE") {
        Ok(FillWith::Nothing(at))
    } else if let Some(at) = tokens.word(b"NULL") {
        Ok(FillWith::Null(at))
    } else if let Some(at) = tokens.word(b"PREV") {
        Ok(FillWith::Prev(at))
    } else if let Some(at) = tokens.sign(Kind::Minus) {
        Ok(FillWith::Minus(at, tokens.number()?))
    } else {
        Ok(FillWith::Number(tokens.number()?))
    }
}

/// ["ALIGN" "TO" align]
#[tactic(auto, unfolding(crate::specs::Queries::align))]
fn align(alloc: Global, tokens: &mut Cursor<'_, '_>) -> Result<Option<AlignTo>, Stop>
    ensures { Reads (spec.align tokens.old) result tokens.new }
{
    if tokens.word(b"ALIGN").is_none() {
        return Ok(None);
    }
    tokens.want_word(b"TO")?;
    if tokens.word(b"CALENDAR").is_some() {
        Ok(Some(AlignTo::Calendar(offset(alloc, tokens)?)))
    } else {
        tokens.want_word(b"FIRST")?;
        tokens.want_word(b"OBSERVATION")?;
        Ok(Some(AlignTo::First))
    }
}

/// ["WITH" "OFFSET" Text]
#[tactic(auto, unfolding(crate::specs::Queries::offset))]
fn offset(alloc: Global, tokens: &mut Cursor<'_, '_>) -> Result<Option<Text>, Stop>
    ensures { Reads (spec.offset tokens.old) result tokens.new }
{
    if tokens.word(b"WITH").is_none() {
        return Ok(None);
    }
    tokens.want_word(b"OFFSET")?;
    Ok(Some(tokens.text(alloc)?))
}

/// ["ORDER" "BY" ..]
#[tactic(auto, unfolding(crate::specs::Queries::order))]
fn order(alloc: Global, tokens: &mut Cursor<'_, '_>) -> Result<Option<Seq<OrderKey>>, Stop>
    ensures { Reads (spec.order tokens.old) result tokens.new }
{
    if tokens.word(b"ORDER").is_none() {
        return Ok(None);
    }
    tokens.want_word(b"BY")?;
    Ok(Some(order_keys(alloc, tokens)?))
}

/// name ["ASC"|"DESC"] {"," name ["ASC"|"DESC"]}
fn order_keys(alloc: Global, tokens: &mut Cursor<'_, '_>) -> Result<Seq<OrderKey>, Stop>
    ensures { Reads (spec.order_keys tokens.old) result tokens.new }
{
    list(alloc, tokens, order_key)
}

/// name ["ASC"|"DESC"]
#[tactic(auto, unfolding(crate::specs::Queries::order_key))]
fn order_key(alloc: Global, tokens: &mut Cursor<'_, '_>) -> Result<OrderKey, Stop>
    ensures { Reads (spec.order_key tokens.old) result tokens.new }
{
    let name = tokens.name(alloc)?;
    if tokens.word(b"DESC").is_some() {
        return Ok(OrderKey {
            name,
            is_descending: true,
        });
    }
    tokens.may(b"ASC");
    Ok(OrderKey {
        name,
        is_descending: false,
    })
}

/// ["LIMIT" ("-" Number | Number ["," Number])]
#[tactic(auto, unfolding(crate::specs::Queries::limit))]
fn limit(tokens: &mut Cursor<'_, '_>) -> Result<Option<Limit>, Stop>
    ensures { Reads (spec.limit tokens.old) result tokens.new }
{
    if tokens.word(b"LIMIT").is_none() {
        return Ok(None);
    }
    if let Some(at) = tokens.sign(Kind::Minus) {
        return Ok(Some(Limit::Last(at, tokens.number()?)));
    }
    let first = tokens.number()?;
    if tokens.sign(Kind::Comma).is_none() {
        return Ok(Some(Limit::First(first)));
    }
    Ok(Some(Limit::Between(first, tokens.number()?)))
}
