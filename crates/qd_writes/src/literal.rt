//! What a column takes of a literal.
ghost use Rattle.std.specs.Prelude.{◌≡◌, ◌≤◌, ◌<ℤ◌, IfOk};
ghost use Rattle.qd_base.specs.declared.limits.TheConstants.{MAX_TIME, NULL_LONG};
ghost use Rattle.qd_base.specs.Database as database;
ghost use Rattle.qd_meaning.specs.TimeTexts.{time_of_text, time_of_number};
ghost use Rattle.qd_meaning.specs.Typing.{time_cell, time_faults};
ghost use Rattle.qd_meaning.specs.Inserting.{refuses, taken_by};
ghost use Rattle.qd_writes.specs.Literals.{lent_cell, taking, number_taken_by, text_taken_by, truth_taken_by, IsFit};

use qd_base::{Cell, Code, ColType, MAX_TIME, Memory, Txt};
use qd_meaning::{Refusal, times_are_read};
use qd_sql_ast::{Lit, Text};
use qd_time::{TimeFault, parse_time};
use std::alloc::Global;

/// A cell with a text that is lent.
#[derive(Clone, Copy)]
pub(crate) enum Lent<'a> {
    /// No value.
    Null,
    /// A number.
    Long(i64),
    /// A truth value.
    Truth(bool),
    /// The text of a SYMBOL or VARCHAR cell.
    Text(&'a [u8]),
    /// A moment in microseconds since 1970-01-01T00:00Z.
    Time(u64),
}

/// What a column takes of a literal: a cell, or the refusal.
pub(crate) type Taking<'a> = Result<Lent<'a>, Refusal>;

/// Gives what a column of a type takes of a literal. It costs time linear in a text that is read as a time, else constant time.
pub(crate) fn taken<'a>(kind: ColType, literal: &'a Lit) -> Taking<'a>
    ensures taken { taking result ≡ taken_by kind literal.now }
    ensures fit { IfOk result (λ view. IsFit (lent_cell view)) }
{
    match literal {
        Lit::Number(number) => number_taken(kind, number.value.get() as i64, number.at),
        Lit::Minus(minus, number) => number_taken(kind, -(number.value.get() as i64), *minus),
        Lit::Text(text) => text_taken(kind, text),
        Lit::True(place) => truth_taken(kind, true, *place),
        Lit::False(place) => truth_taken(kind, false, *place),
        Lit::Null(_) => Ok(missing(kind)),
    }
}

/// Gives what a column takes of a number with its sign.
fn number_taken<'a>(kind: ColType, number: i64, place: u64) -> Taking<'a>
    requires { NULL_LONG <ℤ number }
    ensures taken { taking result ≡ number_taken_by kind number place }
    ensures fit { IfOk result (λ view. IsFit (lent_cell view)) }
{
    match kind {
        ColType::Long => Ok(Lent::Long(number)),
        ColType::Time => time_taken(time_of(number), place),
        _ => refused(place),
    }
}

/// Gives the moment that a number is, in microseconds.
fn time_of(number: i64) -> Result<u64, TimeFault>
    ensures time { result ≡ time_of_number number }
    ensures low { IfOk result (λ t. t ≤ MAX_TIME) }
{
    if number < 0 || number > MAX_TIME as i64 {
        return Err(TimeFault::Range);
    }
    Ok(number as u64)
}

/// Gives what a column takes of a text.
fn text_taken<'a>(kind: ColType, text: &'a Text) -> Taking<'a>
    ensures taken { taking result ≡ text_taken_by kind text.now }
    ensures fit { IfOk result (λ view. IsFit (lent_cell view)) }
{
    match kind {
        ColType::Symbol => Ok(lent_text(text.text.bytes())),
        ColType::Varchar => Ok(lent_text(text.text.bytes())),
        ColType::Time => time_taken(time_in(text.text.bytes()), text.at),
        _ => refused(text.at),
    }
}

/// Lends a text as a cell.
fn lent_text(text: &[u8]) -> Lent<'_>
    ensures cell { lent_cell result ≡ Cell.Text text.now }
    ensures fit { IsFit (lent_cell result) }
{
    Lent::Text(text)
}

/// Gives the moment that a text says.
fn time_in(text: &[u8]) -> Result<u64, TimeFault>
    ensures time { result ≡ time_of_text text.now }
    ensures low { IfOk result (λ t. t ≤ MAX_TIME) }
{
    times_are_read();
    parse_time(text)
}

/// Gives what a TIMESTAMP column takes of a moment.
fn time_taken<'a>(time: Result<u64, TimeFault>, place: u64) -> Taking<'a>
    requires { IfOk time (λ t. t ≤ MAX_TIME) }
    ensures taken { taking result ≡ (time_cell time, time_faults time place) }
    ensures fit { IfOk result (λ view. IsFit (lent_cell view)) }
{
    match time {
        Ok(moment) => Ok(Lent::Time(moment)),
        Err(_) => Err(Refusal {
            code: Code::TimeLiteral,
            place,
        }),
    }
}

/// Gives what a column takes of a truth value.
fn truth_taken<'a>(kind: ColType, truth: bool, place: u64) -> Taking<'a>
    ensures taken { taking result ≡ truth_taken_by kind truth place }
    ensures fit { IfOk result (λ view. IsFit (lent_cell view)) }
{
    match kind {
        ColType::Bool => Ok(Lent::Truth(truth)),
        _ => refused(place),
    }
}

/// Refuses a literal for its type.
fn refused<'a>(place: u64) -> Taking<'a>
    ensures refused { taking result ≡ refuses place }
    ensures fit { IfOk result (λ view. IsFit (lent_cell view)) }
{
    Err(Refusal {
        code: Code::Types,
        place,
    })
}

/// Gives what a row holds in a column that is left out: false, or NULL.
pub(crate) fn missing(kind: ColType) -> Lent<'static>
    ensures missing { lent_cell result ≡ database.missing kind }
    ensures fit { IsFit (lent_cell result) }
{
    match kind {
        ColType::Bool => Lent::Truth(false),
        _ => Lent::Null,
    }
}

/// Makes the cell that is lent. A text is copied.
pub(crate) fn owned(alloc: Global, view: Lent<'_>) -> Result<Cell, Memory>
    ensures cell { IfOk result (λ made. made ≡ lent_cell view.entry) }
{
    Ok(match view {
        Lent::Null => Cell::Null,
        Lent::Long(number) => Cell::Long(number),
        Lent::Truth(truth) => Cell::Bool(truth),
        Lent::Text(text) => Cell::Text(Txt::from_bytes(alloc, text)?),
        Lent::Time(moment) => Cell::Time(moment),
    })
}
