//! Reads a whole text of SQL, or refuses it.
ghost use Rattle.std.specs.Prelude.{◌≡◌, length};
ghost use Rattle.qd_sql.specs.Statement as spec;
ghost use Rattle.qd_sql.specs.Statement.{Answers};
ghost use Rattle.qd_sql_ast.specs.Steps.{Reads, lexemes, seen};

use crate::query::query;
use qd_base::{Code, MAX_NUMBER, MAX_STRIDE, Memory};
use qd_sql_ast::{
    Cursor, Halt, Stmt, Stop, alter, create, insert, is_word, number_of, same_kind, show,
    stride_count,
};
use qd_sql_lexer::{Kind, Token, tokens};
use std::alloc::Global;

/// Why a text gives no statement.
#[derive(Clone, Copy, Debug, PartialEq, Eq)]
pub enum SqlFault {
    /// No memory was found.
    Memory,
    /// Brackets nest deeper than `MAX_NESTING`, before a token that no text has there.
    TooDeep,
    /// The text is refused.
    Refused {
        /// `NotBuilt`, `SqlSyntax` or `NumberRange`.
        code: Code,
        /// The offset of the first token that no text has there, or the text's length where all tokens begin one; of the
        /// first number out of its range; or 0.
        place: u64,
    },
}

impl From<Memory> for SqlFault {
    ghost use Rattle.std.specs.Prelude.{◌≡◌};
    ghost use Rattle.qd_sql.specs.declared.stmt.SqlFault.TheVariants.{Memory};

    ghost from_gives = { λ _ e. e ≡ Memory };

    fn from(_: Memory) -> SqlFault {
        SqlFault::Memory
    }
}

/// Reads the one statement that a text of SQL is, of QuestDB's SQL as far as this project builds it.
///
/// Refused are, in this order: with `NotBuilt` a text that begins with DELETE, DROP, EXPLAIN, REFRESH, TRUNCATE, UPDATE,
/// VACUUM or WITH, or with CREATE or ALTER before something else than TABLE; with `SqlSyntax` a text that is no statement;
/// with `NumberRange` a number above 9223372036854775807, or a stride whose count is not from 1 to 1,000,000.
///
/// Where brackets of expressions nest deeper than `MAX_NESTING`, it is `TooDeep` at the first that does, whatever stands
/// behind it. It costs time and memory linear in the text.
pub fn parse_stmt(alloc: Global, text: &[u8]) -> Result<Stmt, SqlFault>
    ensures { Answers result (spec.statement_of text.now) }
{
    let found = tokens(alloc, text)?;
    judge(alloc, text.len(), found.as_slice())
}

/// The statement of a text of so many bytes that has these tokens, or its refusal.
fn judge(alloc: Global, len: usize, list: &[Token<'_>]) -> Result<Stmt, SqlFault>
    ensures { Answers result (spec.statement_at len (lexemes list.now)) }
{
    if is_unbuilt(list) {
        return Err(SqlFault::Refused {
            code: Code::NotBuilt,
            place: 0,
        });
    }
    match whole_text(alloc, &mut Cursor::new(list)) {
        Ok(stmt) => in_range(stmt, far_number(list)),
        Err(Stop::Halted(halt)) => Err(halted(halt, len as u64)),
        Err(Stop::Memory) => Err(SqlFault::Memory),
    }
}

/// The answer to a text of so many bytes that has no statement.
fn halted(halt: Halt, len: u64) -> SqlFault
    ensures { result ≡ spec.halted len halt }
{
    match halt {
        Halt::TooDeep => SqlFault::TooDeep,
        Halt::At(place) => SqlFault::Refused {
            code: Code::SqlSyntax,
            place: place.unwrap_or(len),
        },
    }
}

/// The statement, where no number of its text is out of range.
fn in_range(stmt: Stmt, far: Option<u64>) -> Result<Stmt, SqlFault>
    ensures { Answers result (spec.in_range stmt far) }
{
    match far {
        None => Ok(stmt),
        Some(place) => Err(SqlFault::Refused {
            code: Code::NumberRange,
            place,
        }),
    }
}

/// statement [";"], and nothing behind it.
#[tactic(auto, unfolding(crate::specs::Statement::whole_text))]
fn whole_text(alloc: Global, tokens: &mut Cursor<'_, '_>) -> Result<Stmt, Stop>
    ensures { Reads (spec.whole_text tokens.old) result tokens.new }
{
    let stmt = statement(alloc, tokens)?;
    match ended(tokens) {
        Ok(()) => Ok(stmt),
        Err(stop) => Err(dropped(stmt, stop)),
    }
}

/// Lets a statement go that something else stands behind.
fn dropped(_stmt: Stmt, stop: Stop) -> Stop
    ensures { result ≡ stop }
{
    stop
}

/// [";"], and nothing behind it.
#[tactic(auto, unfolding(crate::specs::Statement::ended))]
fn ended(tokens: &mut Cursor<'_, '_>) -> Result<(), Stop>
    ensures { Reads (spec.ended tokens.old) result tokens.new }
{
    if tokens.sign(Kind::Semicolon).is_some() {
        tokens.end()
    } else {
        tokens.end()
    }
}

/// query | create | insert | alter | "SHOW" ..
#[tactic(auto, unfolding(crate::specs::Statement::statement))]
fn statement(alloc: Global, tokens: &mut Cursor<'_, '_>) -> Result<Stmt, Stop>
    ensures { Reads (spec.statement tokens.old) result tokens.new }
{
    if tokens.word(b"CREATE").is_some() {
        Ok(Stmt::Create(create(alloc, tokens)?))
    } else if tokens.word(b"INSERT").is_some() {
        Ok(Stmt::Insert(insert(alloc, tokens)?))
    } else if tokens.word(b"SHOW").is_some() {
        let table = show(alloc, tokens)?;
        Ok(Stmt::Show(table.text, table.at))
    } else if tokens.two_words(b"ALTER", b"TABLE").is_some() {
        Ok(Stmt::Alter(alter(alloc, tokens)?))
    } else {
        Ok(Stmt::Query(query(alloc, tokens)?))
    }
}

/// Whether a text begins as a statement that is not built.
#[tactic(auto, unfolding(crate::specs::Statement::is_unbuilt))]
fn is_unbuilt(list: &[Token<'_>]) -> bool
    ensures { result ≡ spec.is_unbuilt (lexemes list.now) }
{
    match list {
        [] => false,
        [first] => is_unbuilt_word(first),
        [first, second, ..] => {
            is_unbuilt_word(first) || (changes_tables(first) && !is_word(second, b"TABLE"))
        }
    }
}

/// Whether a word is CREATE or ALTER, of which the statements on tables are built.
#[tactic(auto, unfolding(crate::specs::Statement::changes_tables))]
fn changes_tables(token: &Token<'_>) -> bool
    ensures { result ≡ spec.changes_tables (seen token.now) }
{
    is_word(token, b"CREATE") || is_word(token, b"ALTER")
}

/// Whether a statement that begins with this word is not built.
#[tactic(auto, unfolding(crate::specs::Statement::is_unbuilt_word))]
fn is_unbuilt_word(token: &Token<'_>) -> bool
    ensures { result ≡ spec.is_unbuilt_word (seen token.now) }
{
    is_word(token, b"DELETE")
        || is_word(token, b"DROP")
        || is_word(token, b"EXPLAIN")
        || is_word(token, b"REFRESH")
        || is_word(token, b"TRUNCATE")
        || is_word(token, b"UPDATE")
        || is_word(token, b"VACUUM")
        || is_word(token, b"WITH")
}

/// The offset of the first number that is out of its range.
fn far_number(mut list: &[Token<'_>]) -> Option<u64>
    ensures { result ≡ spec.far_number (lexemes list.entry.now) }
{
    while let [first, rest @ ..] = list {
        if is_far(first) {
            return Some(first.at);
        }
        list = rest;
    }
    None
}

/// Whether a token is a number out of its range.
#[tactic(auto, unfolding(crate::specs::Statement::is_far))]
fn is_far(token: &Token<'_>) -> bool
    ensures { result ≡ spec.is_far (seen token.now) }
{
    if same_kind(token.kind, Kind::Number) {
        MAX_NUMBER < number_of(token.content)
    } else if same_kind(token.kind, Kind::Stride) {
        is_far_count(stride_count(token.content))
    } else {
        false
    }
}

fn is_far_count(count: u64) -> bool
    ensures { result ≡ spec.is_far_count count }
{
    count == 0 || MAX_STRIDE < count
}
