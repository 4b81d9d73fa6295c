//! The rules of statements that write, and of SHOW.
ghost use Rattle.std.specs.Prelude.{◌≡◌, map};
ghost use Rattle.qd_sql_ast.specs.Writes as spec;
ghost use Rattle.qd_sql_ast.specs.Steps.{Reads};

use crate::lists::list;
use crate::step::Cursor;
use crate::stop::Stop;
use crate::tree::{Alter, Change, ColumnDef, Create, Dedup, Insert, Lit, Name, Tuple};
use qd_base::{ColType, PartUnit, Seq};
use qd_sql_lexer::Kind;
use std::alloc::Global;

/// Reads a literal of a list.
#[tactic(auto, unfolding(crate::specs::Writes::lit))]
fn lit(alloc: Global, tokens: &mut Cursor<'_, '_>) -> Result<Lit, Stop>
    ensures { Reads (spec.lit tokens.old) result tokens.new }
{
    if let Some(at) = tokens.sign(Kind::Minus) {
        Ok(Lit::Minus(at, tokens.number()?))
    } else if let Some(at) = tokens.word(b"TRUE") {
        Ok(Lit::True(at))
    } else if let Some(at) = tokens.word(b"FALSE") {
        Ok(Lit::False(at))
    } else if let Some(at) = tokens.word(b"NULL") {
        Ok(Lit::Null(at))
    } else if tokens.sees(Kind::Text) {
        Ok(Lit::Text(tokens.text(alloc)?))
    } else {
        Ok(Lit::Number(tokens.number()?))
    }
}

/// Reads names with commas between them.
fn names(alloc: Global, tokens: &mut Cursor<'_, '_>) -> Result<Seq<Name>, Stop>
    ensures { Reads (spec.names tokens.old) result tokens.new }
{
    list(alloc, tokens, |alloc, tokens| tokens.name(alloc))
}

/// Reads literals with commas between them. It takes memory for each.
pub fn lits(alloc: Global, tokens: &mut Cursor<'_, '_>) -> Result<Seq<Lit>, Stop>
    ensures { Reads (spec.lits tokens.old) result tokens.new }
{
    list(alloc, tokens, lit)
}

/// Reads the columns of CREATE.
fn columns(alloc: Global, tokens: &mut Cursor<'_, '_>) -> Result<Seq<ColumnDef>, Stop>
    ensures { Reads (spec.columns tokens.old) result tokens.new }
{
    list(alloc, tokens, column)
}

/// Reads the rows of INSERT.
fn tuples(alloc: Global, tokens: &mut Cursor<'_, '_>) -> Result<Seq<Tuple>, Stop>
    ensures { Reads (spec.tuples tokens.old) result tokens.new }
{
    list(alloc, tokens, tuple)
}

/// Reads names with commas between them and the bracket behind them. It takes memory for each.
#[tactic(auto, unfolding(crate::specs::Writes::names_to_bracket))]
pub fn names_to_bracket(alloc: Global, tokens: &mut Cursor<'_, '_>) -> Result<Seq<Name>, Stop>
    ensures { Reads (spec.names_to_bracket tokens.old) result tokens.new }
{
    let found = names(alloc, tokens)?;
    tokens.want(Kind::Close)?;
    Ok(found)
}

/// Reads a column of CREATE.
#[tactic(auto, unfolding(crate::specs::Writes::column))]
fn column(alloc: Global, tokens: &mut Cursor<'_, '_>) -> Result<ColumnDef, Stop>
    ensures { Reads (spec.column tokens.old) result tokens.new }
{
    let name = tokens.name(alloc)?;
    Ok(ColumnDef {
        name,
        kind: kind(tokens)?,
    })
}

/// Reads a column's type.
#[tactic(auto, unfolding(crate::specs::Writes::kind))]
fn kind(tokens: &mut Cursor<'_, '_>) -> Result<ColType, Stop>
    ensures { Reads (spec.kind tokens.old) result tokens.new }
{
    if tokens.word(b"LONG").is_some() {
        Ok(ColType::Long)
    } else if tokens.word(b"BOOLEAN").is_some() {
        Ok(ColType::Bool)
    } else if tokens.word(b"SYMBOL").is_some() {
        Ok(ColType::Symbol)
    } else if tokens.word(b"VARCHAR").is_some() {
        Ok(ColType::Varchar)
    } else if tokens.word(b"TIMESTAMP").is_some() {
        Ok(ColType::Time)
    } else {
        Err(tokens.stuck())
    }
}

/// Reads the unit of partitions.
#[tactic(auto, unfolding(crate::specs::Writes::unit))]
fn unit(tokens: &mut Cursor<'_, '_>) -> Result<PartUnit, Stop>
    ensures { Reads (spec.unit tokens.old) result tokens.new }
{
    if tokens.word(b"HOUR").is_some() {
        Ok(PartUnit::Hour)
    } else if tokens.word(b"DAY").is_some() {
        Ok(PartUnit::Day)
    } else if tokens.word(b"MONTH").is_some() {
        Ok(PartUnit::Month)
    } else if tokens.word(b"YEAR").is_some() {
        Ok(PartUnit::Year)
    } else {
        Err(tokens.stuck())
    }
}

/// Reads the deduplication keys, behind DEDUP.
#[tactic(auto, unfolding(crate::specs::Writes::keys))]
fn keys(alloc: Global, tokens: &mut Cursor<'_, '_>) -> Result<Dedup, Stop>
    ensures { Reads (spec.keys tokens.old) result tokens.new }
{
    tokens.want_word(b"UPSERT")?;
    let at = tokens.want_word(b"KEYS")?;
    tokens.want(Kind::Open)?;
    let keys = names_to_bracket(alloc, tokens)?;
    Ok(Dedup { at, keys })
}

/// Reads the deduplication keys of CREATE, where they stand.
#[tactic(auto, unfolding(crate::specs::Writes::dedup))]
fn dedup(alloc: Global, tokens: &mut Cursor<'_, '_>) -> Result<Option<Dedup>, Stop>
    ensures { Reads (spec.dedup tokens.old) result tokens.new }
{
    if tokens.word(b"DEDUP").is_none() {
        return Ok(None);
    }
    Ok(Some(keys(alloc, tokens)?))
}

/// Reads the columns of CREATE in brackets, and the name of the designated one.
#[tactic(auto, unfolding(crate::specs::Writes::table_columns))]
fn table_columns(alloc: Global, tokens: &mut Cursor<'_, '_>) -> Result<(Seq<ColumnDef>, Name), Stop>
    ensures { Reads (spec.table_columns tokens.old) result tokens.new }
{
    tokens.want(Kind::Open)?;
    let found = columns(alloc, tokens)?;
    tokens.want(Kind::Close)?;
    tokens.want_word(b"TIMESTAMP")?;
    tokens.want(Kind::Open)?;
    let time = tokens.name(alloc)?;
    tokens.want(Kind::Close)?;
    Ok((found, time))
}

/// Reads a CREATE statement, behind its first word. It takes memory for its names and columns.
#[tactic(auto, unfolding(crate::specs::Writes::create))]
pub fn create(alloc: Global, tokens: &mut Cursor<'_, '_>) -> Result<Create, Stop>
    ensures { Reads (spec.create tokens.old) result tokens.new }
{
    tokens.want_word(b"TABLE")?;
    let table = tokens.name(alloc)?;
    let (columns, time) = table_columns(alloc, tokens)?;
    tokens.want_word(b"PARTITION")?;
    tokens.want_word(b"BY")?;
    let unit = unit(tokens)?;
    let wal = tokens.may(b"WAL");
    let dedup = dedup(alloc, tokens)?;
    Ok(Create {
        table,
        columns,
        time,
        unit,
        wal,
        dedup,
    })
}

/// Reads the list of columns of INSERT, where it stands.
#[tactic(auto, unfolding(crate::specs::Writes::listed))]
fn listed(alloc: Global, tokens: &mut Cursor<'_, '_>) -> Result<Option<Seq<Name>>, Stop>
    ensures { Reads (spec.listed tokens.old) result tokens.new }
{
    if tokens.sign(Kind::Open).is_none() {
        return Ok(None);
    }
    Ok(Some(names_to_bracket(alloc, tokens)?))
}

/// Reads a row of INSERT.
#[tactic(auto, unfolding(crate::specs::Writes::tuple))]
fn tuple(alloc: Global, tokens: &mut Cursor<'_, '_>) -> Result<Tuple, Stop>
    ensures { Reads (spec.tuple tokens.old) result tokens.new }
{
    let at = tokens.want(Kind::Open)?;
    let lits = lits(alloc, tokens)?;
    tokens.want(Kind::Close)?;
    Ok(Tuple { at, lits })
}

/// Reads an INSERT statement, behind its first word. It takes memory for its names and literals.
#[tactic(auto, unfolding(crate::specs::Writes::insert))]
pub fn insert(alloc: Global, tokens: &mut Cursor<'_, '_>) -> Result<Insert, Stop>
    ensures { Reads (spec.insert tokens.old) result tokens.new }
{
    tokens.want_word(b"INTO")?;
    let table = tokens.name(alloc)?;
    let columns = listed(alloc, tokens)?;
    tokens.want_word(b"VALUES")?;
    let tuples = tuples(alloc, tokens)?;
    Ok(Insert {
        table,
        columns,
        tuples,
    })
}

/// Reads what ALTER adds, behind ADD.
#[tactic(auto, unfolding(crate::specs::Writes::added))]
fn added(alloc: Global, tokens: &mut Cursor<'_, '_>) -> Result<Change, Stop>
    ensures { Reads (spec.added tokens.old) result tokens.new }
{
    tokens.want_word(b"COLUMN")?;
    Ok(Change::AddColumn(column(alloc, tokens)?))
}

/// Reads how ALTER changes deduplication, behind DEDUP.
#[tactic(auto, unfolding(crate::specs::Writes::dedup_change))]
fn dedup_change(alloc: Global, tokens: &mut Cursor<'_, '_>) -> Result<Change, Stop>
    ensures { Reads (spec.dedup_change tokens.old) result tokens.new }
{
    if tokens.word(b"ENABLE").is_some() {
        Ok(Change::EnableDedup(keys(alloc, tokens)?))
    } else {
        tokens.want_word(b"DISABLE")?;
        Ok(Change::DisableDedup)
    }
}

/// Reads what ALTER changes.
#[tactic(auto, unfolding(crate::specs::Writes::change))]
fn change(alloc: Global, tokens: &mut Cursor<'_, '_>) -> Result<Change, Stop>
    ensures { Reads (spec.change tokens.old) result tokens.new }
{
    if tokens.word(b"ADD").is_some() {
        added(alloc, tokens)
    } else {
        tokens.want_word(b"DEDUP")?;
        dedup_change(alloc, tokens)
    }
}

/// Reads an ALTER statement, behind its first two words. It takes memory for its names.
#[tactic(auto, unfolding(crate::specs::Writes::alter))]
pub fn alter(alloc: Global, tokens: &mut Cursor<'_, '_>) -> Result<Alter, Stop>
    ensures { Reads (spec.alter tokens.old) result tokens.new }
{
    let table = tokens.name(alloc)?;
    Ok(Alter {
        table,
        change: change(alloc, tokens)?,
    })
}

/// Reads a SHOW statement, behind its first word, and gives the table's name. It takes memory for it.
#[tactic(auto, unfolding(crate::specs::Writes::show))]
pub fn show(alloc: Global, tokens: &mut Cursor<'_, '_>) -> Result<Name, Stop>
    ensures { Reads (spec.show tokens.old) result tokens.new }
{
    tokens.want_word(b"PARTITIONS")?;
    tokens.want_word(b"FROM")?;
    tokens.name(alloc)
}
