//! Parts that come more than once.
ghost use Rattle.std.specs.Prelude.{ℕ, List, Option, Ok};
ghost use Rattle.qd_sql_lexer.specs.Tokens.{Lexeme};
ghost use Rattle.qd_sql_ast.specs.Steps as spec;
ghost use Rattle.qd_sql_ast.specs.Steps.{Read, Reads};
ghost use Rattle.qd_sql_ast.specs.Lists.{ReadsBy, TakesBy};

use crate::step::Cursor;
use crate::stop::Stop;
use qd_base::Seq;
use qd_sql_lexer::Kind;
use std::alloc::Global;

/// Reads one or more of what a function reads, with commas between. Whatever rule the function reads by, what it gives is
/// the list of that rule.
///
/// It costs the time of the function for each part.
pub fn list<T: Drop, F: Fn(Global, &mut Cursor<'_, '_>) -> Result<T, Stop>>(
    alloc: Global,
    tokens: &mut Cursor<'_, '_>,
    item: F,
) -> Result<Seq<T>, Stop>
    requires { F.IsAlwaysCallable item }
    ensures { (rule : List Lexeme → Read T) → ReadsBy rule (F.post item) → Reads (spec.list rule tokens.old) result tokens.new }
{
    let mut found = Seq::new(alloc);
    for _turn in 0..tokens.len() {
        found.push(item(alloc, tokens)?)?;
        if tokens.sign(Kind::Comma).is_none() {
            return Ok(found);
        }
    }
    Err(tokens.stuck())
}

/// Takes what a function takes, as often as that comes, and gives the offsets. Whatever rule the function takes by, they
/// are those of that rule.
///
/// It costs the time of the function for each offset and once more.
pub fn offsets<F: Fn(&mut Cursor<'_, '_>) -> Option<u64>>(
    alloc: Global,
    tokens: &mut Cursor<'_, '_>,
    one: F,
) -> Result<Seq<u64>, Stop>
    requires { F.IsAlwaysCallable one }
    ensures { (rule : List Lexeme → Option (ℕ × List Lexeme)) → TakesBy rule (F.post one) → Reads (Ok (spec.offsets rule tokens.old)) result tokens.new }
{
    let mut found = Seq::new(alloc);
    for _turn in 0..tokens.len() {
        let Some(at) = one(tokens) else {
            return Ok(found);
        };
        found.push(at)?;
    }
    Ok(found)
}
