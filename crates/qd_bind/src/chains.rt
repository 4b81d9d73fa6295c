//! Expressions of several parts: chains of operators, and parts that AND or OR joins.
ghost use Rattle.std.specs.Prelude.{◌≡◌, IfOk, OnOk};
ghost use Rattle.qd_value.specs.declared.bound.Bound.TheVariants as bound;
ghost use Rattle.qd_bind.specs.Steps as steps;

use crate::class::Class;
use crate::typed::{Form, Typed};
use qd_base::{Code, Memory};
use qd_meaning::{Refusal, sooner, unless};
use qd_value::{Arithmetic, Bound, Boxed, Items, Operand};
use std::alloc::Global;

/// A chain of operators as far as it is read.
#[derive(Drop)]
pub(crate) struct Chain {
    first: Boxed<Bound>,
    operands: Items<Operand>,
    class: Class,
    fault: Option<Refusal>,
}

impl Chain {
    /// Begins with a first part.
    pub(crate) fn new(alloc: Global, first: Typed) -> Result<Chain, Memory>
        ensures begun { IfOk result (λ chain. chain ≡ steps.chain_of first) }
    {
        Ok(Chain {
            first: Boxed::new(alloc, first.bound)?,
            operands: Items::new(alloc),
            class: first.class,
            fault: first.fault,
        })
    }

    /// Goes on with an operator between numbers, and what stands behind it.
    pub(crate) fn push(&mut self, op: Arithmetic, at: u64, right: Typed) -> Result<(), Memory>
        ensures pushed { OnOk result (self.new ≡ steps.chained_on self.old op at right) }
    {
        let fits = Class::Number.takes(self.class, right.class);
        let fault = sooner(unless(fits, Code::Types, at), right.fault);
        self.operands.push(Operand {
            op,
            right: right.bound,
        })?;
        self.class = Class::Number;
        self.fault = sooner(self.fault, fault);
        Ok(())
    }

    /// Gives the whole, a number.
    pub(crate) fn finish(self) -> Typed
        ensures whole { result ≡ steps.chain_typed self }
    {
        Typed {
            class: Class::Number,
            bound: Bound::Chain(self.first, self.operands),
            form: Form::Other,
            fault: self.fault,
        }
    }
}

/// Parts that AND or OR joins, as far as they are read.
#[derive(Drop)]
pub(crate) struct Junction {
    parts: Items<Bound>,
    class: Class,
    fault: Option<Refusal>,
}

impl Junction {
    /// Begins with a first part.
    pub(crate) fn new(alloc: Global, first: Typed) -> Result<Junction, Memory>
        ensures begun { IfOk result (λ junction. junction ≡ steps.junction_of first) }
    {
        let mut parts = Items::new(alloc);
        parts.push(first.bound)?;
        Ok(Junction {
            parts,
            class: first.class,
            fault: first.fault,
        })
    }

    /// Goes on with a word between truth values, and what stands behind it.
    pub(crate) fn push(&mut self, at: u64, right: Typed) -> Result<(), Memory>
        ensures pushed { OnOk result (self.new ≡ steps.joined_on self.old at right) }
    {
        let fits = Class::Truth.takes(self.class, right.class);
        let fault = sooner(unless(fits, Code::Types, at), right.fault);
        self.parts.push(right.bound)?;
        self.class = Class::Truth;
        self.fault = sooner(self.fault, fault);
        Ok(())
    }

    /// Gives the whole, joined by AND.
    pub(crate) fn all(self) -> Typed
        ensures whole { result ≡ steps.junction_typed bound.All self }
    {
        Typed {
            class: Class::Truth,
            bound: Bound::All(self.parts),
            form: Form::Other,
            fault: self.fault,
        }
    }

    /// Gives the whole, joined by OR.
    pub(crate) fn any(self) -> Typed
        ensures whole { result ≡ steps.junction_typed bound.Any self }
    {
        Typed {
            class: Class::Truth,
            bound: Bound::Any(self.parts),
            form: Form::Other,
            fault: self.fault,
        }
    }
}
