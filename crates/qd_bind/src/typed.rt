//! Expressions and literals whose names and types are bound.
ghost use Rattle.std.specs.Prelude.{◌≡◌, IfOk};
ghost use Rattle.qd_meaning.specs.TimeTexts.{time_of_text, time_of_number};
ghost use Rattle.qd_meaning.specs.Typing as typing;
ghost use Rattle.qd_bind.specs.Seen as seen;
ghost use Rattle.qd_bind.specs.Steps as steps;

use crate::class::Class;
use crate::whole::Whole;
use qd_base::{Cell, Col, Duplicate, MAX_TIME, Memory};
use qd_meaning::{Refusal, times_are_read};
use qd_sql_ast::Text;
use qd_time::{TimeFault, parse_time};
use qd_value::Bound;
use std::alloc::Global;

/// What an expression is beside its value. Brackets change nothing.
#[derive(Debug, Drop)]
pub enum Form {
    /// A column as it stands, by its position, with its name and type.
    Column(usize, Col),
    /// A text of the statement: the moment that it names, and its offset.
    Text(Result<u64, TimeFault>, u64),
    /// A number of the statement, whether it has a sign, and its offset, which is that of the sign where there is one.
    Number(Whole, bool, u64),
    /// Anything else.
    Other,
}

/// An expression of a statement.
#[derive(Drop)]
pub struct Typed {
    /// The class of its values.
    pub class: Class,
    /// The expression over columns. Where it is refused, a part of it may be NULL in place of a name or a literal.
    pub bound: Bound,
    /// What it is beside its value.
    pub form: Form,
    /// The refusal that is answered for it, where there is one.
    pub fault: Option<Refusal>,
}

/// A literal of a list.
#[derive(Debug, Drop)]
pub(crate) struct Constant {
    /// The class of its value.
    pub(crate) class: Class,
    /// Its value.
    pub(crate) cell: Cell,
    /// The refusal that is answered for it, where there is one.
    pub(crate) fault: Option<Refusal>,
}

impl Typed {
    /// Makes NULL.
    pub(crate) fn null() -> Typed
        ensures null { result ≡ seen.typed (typing.literal typing.constant_null) }
    {
        literal(Class::Any, Cell::Null, Form::Other)
    }

    /// Makes a truth word.
    pub(crate) fn truth(value: bool) -> Typed
        ensures truth { result ≡ seen.typed (typing.literal (typing.constant_truth value)) }
    {
        literal(Class::Truth, Cell::Bool(value), Form::Other)
    }

    /// Makes a number.
    pub(crate) fn number(number: Whole, signed: bool, at: u64) -> Typed
        ensures number { result ≡ seen.typed (typing.literal (typing.constant_number number signed at)) }
    {
        let cell = Cell::Long(number.get());
        literal(Class::Number, cell, Form::Number(number, signed, at))
    }

    /// Makes a text, which it copies.
    pub(crate) fn text(alloc: Global, text: &Text) -> Result<Typed, Memory>
        ensures text { IfOk result (λ made. made ≡ seen.typed (typing.literal (typing.constant_text text.now.text text.now.at))) }
    {
        let cell = Cell::Text(text.text.copy()?);
        let form = Form::Text(moment(text.text.bytes()), text.at);
        Ok(literal(Class::Text, cell, form))
    }

    /// Makes a column by its position.
    pub(crate) fn column(at: usize, col: &Col) -> Result<Typed, Memory>
        ensures column { IfOk result (λ made. made ≡ seen.typed (typing.plain_column (at, col.now))) }
    {
        Ok(Typed {
            class: Class::of(col.kind),
            bound: Bound::Column(at),
            form: Form::Column(at, col.copy()?),
            fault: None,
        })
    }
}

/// A literal without refusals.
fn literal(class: Class, cell: Cell, form: Form) -> Typed
    ensures made { result ≡ steps.literal class cell form }
{
    Typed {
        class,
        bound: Bound::Literal(cell),
        form,
        fault: None,
    }
}

/// The moment that a text names.
pub(crate) fn moment(text: &[u8]) -> Result<u64, TimeFault>
    ensures moment { result ≡ time_of_text text.now }
{
    times_are_read();
    parse_time(text)
}

/// The moment that a number names, in microseconds.
pub(crate) fn moment_of(number: &Whole) -> Result<u64, TimeFault>
    ensures moment { result ≡ time_of_number number.now }
{
    match u64::try_from(number.get()) {
        Ok(micros) if micros <= MAX_TIME => Ok(micros),
        _ => Err(TimeFault::Range),
    }
}
