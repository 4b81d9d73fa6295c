//! One operator over the parts that it takes.
ghost use Rattle.std.specs.Prelude.{◌≡◌, IfOk};
ghost use Rattle.qd_meaning.specs.TimeTexts.{interval_of_text};
ghost use Rattle.qd_bind.specs.Listed as listed;
ghost use Rattle.qd_bind.specs.Steps as steps;

use crate::class::Class;
use crate::lists::lits_beside;
use crate::typed::{Form, Typed, moment_of};
use crate::whole::Whole;
use qd_base::{Cell, Code, Memory};
use qd_meaning::{Refusal, sooner, times_are_read, unless};
use qd_sql_ast::{Lit, Text};
use qd_time::{TimeFault, parse_interval};
use qd_value::{Bound, Boxed, Comparison};
use std::alloc::Global;

/// The refusal of a part, and before it that of a type that doesn't fit.
fn refused(fits: bool, at: u64, fault: Option<Refusal>) -> Option<Refusal>
    ensures least { result ≡ steps.refused fits at fault }
{
    sooner(unless(fits, Code::Types, at), fault)
}

/// A truth value.
fn truth(bound: Bound, fault: Option<Refusal>) -> Typed
    ensures made { result ≡ steps.truth bound fault }
{
    Typed {
        class: Class::Truth,
        bound,
        form: Form::Other,
        fault,
    }
}

/// A literal that names a moment, or none.
fn timed(moment: Result<u64, TimeFault>, at: u64) -> Typed
    ensures made { result ≡ steps.timed moment at }
{
    match moment {
        Ok(micros) => time(Cell::Time(micros), None),
        Err(_) => time(Cell::Null, unless(false, Code::TimeLiteral, at)),
    }
}

/// A time of the statement.
fn time(cell: Cell, fault: Option<Refusal>) -> Typed
    ensures made { result ≡ steps.time cell fault }
{
    Typed {
        class: Class::Time,
        bound: Bound::Literal(cell),
        form: Form::Other,
        fault,
    }
}

/// The moment that a literal names as it stands beside a time, with its offset.
fn moment_in(form: &Form) -> Option<(Result<u64, TimeFault>, u64)>
    ensures moment { result ≡ steps.moment_in form.now }
{
    match form {
        Form::Text(moment, at) => Some((*moment, *at)),
        Form::Number(number, _, at) => Some((moment_of(number), *at)),
        Form::Column(..) | Form::Other => None,
    }
}

/// An expression as it stands beside something of a class: a literal beside a time names a moment.
fn beside(class: Class, x: Typed) -> Typed
    ensures beside { result ≡ steps.beside class x }
{
    match class {
        Class::Time => timely(x),
        Class::Any | Class::Number | Class::Truth | Class::Text => x,
    }
}

/// An expression as it stands beside a time.
fn timely(x: Typed) -> Typed
    ensures timely { result ≡ steps.timed_or x (steps.moment_in x.form) }
{
    match moment_in(&x.form) {
        Some((moment, at)) => timed(moment, at),
        None => x,
    }
}

/// The number of the statement that a minus in front of an expression makes.
fn opposite_in(form: &Form) -> Option<Whole>
    ensures opposite { result ≡ steps.opposite_in form.now }
{
    match form {
        Form::Number(number, false, _) => Some(number.opposite()),
        Form::Number(_, true, _) | Form::Column(..) | Form::Text(..) | Form::Other => None,
    }
}

/// `- x`, with the offset of the minus. In front of a number of the statement it is the number's sign.
fn negated(alloc: Global, x: Typed, minus: u64) -> Result<Typed, Memory>
    ensures negated { IfOk result (λ made. made ≡ steps.negated x minus) }
{
    match opposite_in(&x.form) {
        Some(number) => Ok(Typed::number(number, true, minus)),
        None => negation(alloc, x, minus),
    }
}

/// A minus in front of anything else.
fn negation(alloc: Global, x: Typed, minus: u64) -> Result<Typed, Memory>
    ensures negated { IfOk result (λ made. made ≡ steps.negation x minus) }
{
    let fault = sign_fault(&x, minus);
    let bound = Boxed::new(alloc, x.bound)?;
    Ok(Typed {
        class: Class::Number,
        bound: Bound::Negated(bound),
        form: Form::Other,
        fault,
    })
}

/// The refusal of a minus and of what stands behind it.
fn sign_fault(x: &Typed, minus: u64) -> Option<Refusal>
    ensures least { result ≡ steps.sign_fault x.now minus }
{
    match &x.form {
        Form::Number(_, true, _) => x.fault,
        Form::Number(_, false, _) | Form::Column(..) | Form::Text(..) | Form::Other => {
            refused(Class::Number.agrees(x.class), minus, x.fault)
        }
    }
}

/// `NOT x`, with the offset of the word.
fn not_of(alloc: Global, x: Typed, word: u64) -> Result<Typed, Memory>
    ensures not { IfOk result (λ made. made ≡ steps.not_of x word) }
{
    let fault = refused(Class::Truth.agrees(x.class), word, x.fault);
    Ok(truth(Bound::Not(Boxed::new(alloc, x.bound)?), fault))
}

/// Each NOT in front of a test, the nearest first.
pub(crate) fn behind_nots(alloc: Global, x: Typed, words: &[u64]) -> Result<Typed, Memory>
    ensures nots { IfOk result (λ made. made ≡ steps.behind steps.not_of x words.now) }
{
    let mut found = x;
    for turn in 0..words.len() {
        found = not_of(alloc, found, words[words.len() - 1 - turn])?;
    }
    Ok(found)
}

/// Each minus in front of a value, the nearest first.
pub(crate) fn behind_minuses(alloc: Global, x: Typed, signs: &[u64]) -> Result<Typed, Memory>
    ensures minuses { IfOk result (λ made. made ≡ steps.behind steps.negated x signs.now) }
{
    let mut found = x;
    for turn in 0..signs.len() {
        found = negated(alloc, found, signs[signs.len() - 1 - turn])?;
    }
    Ok(found)
}

/// `x IS NULL`
pub(crate) fn is_null(alloc: Global, x: Typed) -> Result<Typed, Memory>
    ensures null { IfOk result (λ made. made ≡ steps.is_null x) }
{
    let fault = x.fault;
    Ok(truth(Bound::IsNull(Boxed::new(alloc, x.bound)?), fault))
}

/// `x IS NOT NULL`
pub(crate) fn is_not_null(alloc: Global, x: Typed) -> Result<Typed, Memory>
    ensures opposite { IfOk result (λ made. made ≡ steps.opposite (steps.is_null x)) }
{
    let x = is_null(alloc, x)?;
    let fault = x.fault;
    Ok(truth(Bound::Not(Boxed::new(alloc, x.bound)?), fault))
}

/// Whether two classes may be compared so.
fn may_compare(op: Comparison, x: Class, y: Class) -> bool
    ensures may { result ≡ steps.may_compare op x y }
{
    match op {
        Comparison::Equal | Comparison::NotEqual => x.agrees(y),
        _ => x.agrees(y) && x.has_order() && y.has_order(),
    }
}

/// A comparison, with the offset of its sign.
pub(crate) fn compared(
    alloc: Global,
    op: Comparison,
    at: u64,
    x: Typed,
    y: Typed,
) -> Result<Typed, Memory>
    ensures compared { IfOk result (λ made. made ≡ steps.compared op at x y) }
{
    let (left, right) = (x.class, y.class);
    compared_as(alloc, op, at, beside(right, x), beside(left, y))
}

/// A comparison of two that stand as they are.
fn compared_as(alloc: Global, op: Comparison, at: u64, x: Typed, y: Typed) -> Result<Typed, Memory>
    ensures compared { IfOk result (λ made. made ≡ steps.compared_as op at x y) }
{
    let fits = may_compare(op, x.class, y.class);
    let fault = sooner(refused(fits, at, x.fault), y.fault);
    let left = Boxed::new(alloc, x.bound)?;
    let right = Boxed::new(alloc, y.bound)?;
    Ok(truth(Bound::Compare(op, left, right), fault))
}

/// `x IN (literal, ..)`, with the offset of the word.
pub(crate) fn in_list(alloc: Global, x: Typed, word: u64, lits: &[Lit]) -> Result<Typed, Memory>
    ensures list { IfOk result (λ made. made ≡ steps.among x word (listed.listing x.class lits.now)) }
{
    let found = lits_beside(alloc, x.class, lits)?;
    let fault = sooner(refused(found.agree, word, x.fault), found.fault);
    let bound = Boxed::new(alloc, x.bound)?;
    Ok(truth(Bound::InList(bound, found.cells), fault))
}

/// `x IN 'interval'`, with the offset of the word.
pub(crate) fn in_text(alloc: Global, x: Typed, word: u64, text: &Text) -> Result<Typed, Memory>
    ensures within { IfOk result (λ made. made ≡ steps.in_text x word text.now.text text.now.at) }
{
    let fault = refused(Class::Time.agrees(x.class), word, x.fault);
    let bound = Boxed::new(alloc, x.bound)?;
    match interval(text.text.bytes()) {
        Ok((first, last)) => Ok(truth(Bound::InInterval(bound, first, last), fault)),
        Err(_) => {
            let fault = sooner(fault, unless(false, Code::TimeLiteral, text.at));
            Ok(truth(Bound::InInterval(bound, 0, 0), fault))
        }
    }
}

/// The interval that a text names.
fn interval(text: &[u8]) -> Result<(u64, u64), TimeFault>
    ensures interval { result ≡ interval_of_text text.now }
{
    times_are_read();
    parse_interval(text)
}
