//! Lists of literals behind IN.
ghost use Rattle.std.specs.Prelude.{◌≡◌, IfOk, OnOk};
ghost use Rattle.qd_bind.specs.Steps as steps;
ghost use Rattle.qd_bind.specs.Listed as listed;

use crate::class::Class;
use crate::typed::{Constant, moment, moment_of};
use crate::whole::Whole;
use qd_base::{Cell, Code, Memory, Seq};
use qd_meaning::{Refusal, sooner};
use qd_sql_ast::{Lit, Text};
use qd_time::TimeFault;
use std::alloc::Global;

/// Literals as far as they are read.
#[derive(Drop)]
pub(crate) struct Listing {
    /// Their values.
    pub(crate) cells: Seq<Cell>,
    /// The class that they have in common with what is tested.
    class: Class,
    /// Whether all are of one class.
    pub(crate) agree: bool,
    /// The refusal that is answered for them, where there is one.
    pub(crate) fault: Option<Refusal>,
}

impl Listing {
    /// Begins with the class of what is tested.
    fn new(alloc: Global, class: Class) -> Listing
        ensures begun { result ≡ steps.listing_of class }
    {
        Listing {
            cells: Seq::new(alloc),
            class,
            agree: true,
            fault: None,
        }
    }

    /// Goes on with a literal.
    fn push(&mut self, literal: Constant) -> Result<(), Memory>
        ensures pushed { OnOk result (self.new ≡ steps.listed_on self.old literal) }
    {
        self.cells.push(literal.cell)?;
        self.agree &= self.class.agrees(literal.class);
        self.class = self.class.with(literal.class);
        self.fault = sooner(self.fault, literal.fault);
        Ok(())
    }
}

/// Reads the literals that stand beside something of a class, in time linear in their bytes.
pub(crate) fn lits_beside(alloc: Global, class: Class, lits: &[Lit]) -> Result<Listing, Memory>
    ensures listed { IfOk result (λ l. l ≡ listed.listing class lits.now) }
{
    let mut found = Listing::new(alloc, class);
    for lit in lits {
        found.push(constant(alloc, class, lit)?)?;
    }
    Ok(found)
}

/// A literal as it stands beside something of a class: beside a time it names a moment.
fn constant(alloc: Global, class: Class, lit: &Lit) -> Result<Constant, Memory>
    ensures constant { IfOk result (λ c. c ≡ listed.constant class lit.now) }
{
    Ok(match lit {
        Lit::Number(n) => number(class, Whole::of(&n.value), n.at),
        Lit::Minus(minus, n) => number(class, Whole::of(&n.value).opposite(), *minus),
        Lit::Text(t) => text(alloc, class, t)?,
        Lit::True(_) => plain(Class::Truth, Cell::Bool(true)),
        Lit::False(_) => plain(Class::Truth, Cell::Bool(false)),
        Lit::Null(_) => plain(Class::Any, Cell::Null),
    })
}

/// A literal as it is.
fn plain(class: Class, cell: Cell) -> Constant
    ensures made { result ≡ listed.plain class cell }
{
    Constant {
        class,
        cell,
        fault: None,
    }
}

/// A number beside something of a class.
fn number(class: Class, number: Whole, at: u64) -> Constant
    ensures made { result ≡ listed.number class number at }
{
    match class {
        Class::Time => timed(moment_of(&number), at),
        _ => plain(Class::Number, Cell::Long(number.get())),
    }
}

/// A text beside something of a class. It is copied where it stays a text.
fn text(alloc: Global, class: Class, text: &Text) -> Result<Constant, Memory>
    ensures made { IfOk result (λ c. c ≡ listed.text class text.now.text text.now.at) }
{
    match class {
        Class::Time => Ok(timed(moment(text.text.bytes()), text.at)),
        _ => Ok(plain(Class::Text, Cell::Text(text.text.copy()?))),
    }
}

/// A literal that names a moment, or none.
fn timed(moment: Result<u64, TimeFault>, at: u64) -> Constant
    ensures made { result ≡ listed.timed moment at }
{
    match moment {
        Ok(micros) => plain(Class::Time, Cell::Time(micros)),
        Err(_) => Constant {
            class: Class::Time,
            cell: Cell::Null,
            fault: Some(Refusal {
                code: Code::TimeLiteral,
                place: at,
            }),
        },
    }
}
