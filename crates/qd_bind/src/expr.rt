//! The binding of whole expressions, rule by rule. What stands in brackets is bound by a function that the rules are given,
//! so that each is proved by itself.
ghost use Rattle.std.specs.Prelude.{◌≡◌, ◌+◌, ◌<◌, length, map, IfOk};
ghost use Rattle.qd_value.specs.declared.bound.Bound.TheVariants as bound;
ghost use Rattle.qd_meaning.specs.Binding as binding;
ghost use Rattle.qd_meaning.specs.Typing as typing;
ghost use Rattle.qd_sql_ast.specs.Nesting as depths;
ghost use Rattle.qd_sql_ast.specs.Nesting.{deepest, nesting};
ghost use Rattle.qd_bind.specs.Deep.{OnTooDeep};
ghost use Rattle.qd_bind.specs.Joined.{chained, joined};
ghost use Rattle.qd_bind.specs.Nests.{Nests};
ghost use Rattle.qd_bind.specs.Scoped.{scope};
ghost use Rattle.qd_bind.specs.Seen.{typed};
ghost use Rattle.qd_bind.specs.Steps.{chain_of, chain_typed, junction_of, junction_typed};

use crate::chains::{Chain, Junction};
use crate::fault::BindFault;
use crate::scope::Scope;
use crate::steps::{behind_minuses, behind_nots, compared, in_list, in_text, is_not_null, is_null};
use crate::typed::Typed;
use crate::whole::Whole;
use qd_base::MAX_NESTING;
use qd_sql_ast::{
    AddOp, AddTerm, AndNeg, Check, Cmp, Conj, Expr, MulOp, MulSigned, Neg, OrConj, Plus, Prime,
    Signed, Term, Test,
};
use qd_value::{Arithmetic, Comparison};
use std::alloc::Global;

/// Binds an expression of a statement: names become columns by their positions, literals get the type that they stand
/// beside, times and intervals are read. Where the expression is refused, its `fault` is the refusal that is answered.
///
/// It costs time and memory linear in the expression, and for each name the time of `Scope::resolve`. An expression whose
/// brackets, NOTs and minuses nest deeper than `MAX_NESTING` is `TooDeep`: each level takes some of the stack.
pub fn bind(alloc: Global, columns: &Scope<'_>, expr: &Expr) -> Result<Typed, BindFault>
    ensures bound { IfOk result (λ made. made ≡ typed (binding.typed (scope columns.now) expr.now)) }
    ensures too_deep { OnTooDeep result (MAX_NESTING < nesting expr.now) }
{
    nested(alloc, columns, expr, MAX_NESTING + 1)
}

/// Binds an expression that nests less deep than this.
fn nested(alloc: Global, columns: &Scope<'_>, expr: &Expr, depth: usize) -> Result<Typed, BindFault>
    ensures bound { IfOk result (λ made. made ≡ typed (binding.typed (scope columns.now) expr.now)) }
    ensures too_deep { OnTooDeep result (depth < nesting expr.now + 1) }
{
    let depth = less(depth, 1)?;
    Binder {
        alloc,
        columns: &*columns,
        inner: nested,
    }
    .expr(&*expr, depth)
}

/// How deep may still be nested behind so many words or brackets.
fn less(depth: usize, by: usize) -> Result<usize, BindFault>
    ensures rest { IfOk result (λ rest. rest + by ≡ depth) }
    ensures too_deep { OnTooDeep result (depth < by) }
{
    match depth.checked_sub(by) {
        Some(rest) => Ok(rest),
        None => Err(BindFault::TooDeep),
    }
}

/// The columns, and what binds an expression in brackets.
#[derive(Clone, Copy)]
struct Binder<'b, F> {
    alloc: Global,
    columns: &'b Scope<'b>,
    inner: F,
}

impl<'b, F: Fn(Global, &Scope<'_>, &Expr, usize) -> Result<Typed, BindFault>> Binder<'b, F> {
    /// conj {"OR" conj}
    fn expr(&self, expr: &Expr, depth: usize) -> Result<Typed, BindFault>
        requires { Nests depth (F.pre self.now.inner) (F.post self.now.inner) }
        ensures bound { IfOk result (λ made. made ≡ typed (binding.typed (scope self.now.columns.now) expr.now)) }
        ensures too_deep { OnTooDeep result (depth < nesting expr.now) }
    {
        let first = self.conj(&expr.first, depth)?;
        if expr.more.is_empty() {
            return Ok(first);
        }
        self.ors(first, expr.more.as_slice(), depth)
    }

    /// {"OR" conj}, behind the first one.
    fn ors(&self, first: Typed, parts: &[OrConj], depth: usize) -> Result<Typed, BindFault>
        requires { Nests depth (F.pre self.now.inner) (F.post self.now.inner) }
        ensures bound { IfOk result (λ made. made ≡ junction_typed bound.Any (joined (junction_of first) (map (binding.typed_or_conj (scope self.now.columns.now)) parts.now))) }
        ensures too_deep { OnTooDeep result (depth < deepest (map (depths.depth_or_conj length) parts.now)) }
    {
        let mut found = Junction::new(self.alloc, first)?;
        for part in parts {
            let right = self.conj(&part.conj, depth)?;
            found.push(part.at, right)?;
        }
        Ok(found.any())
    }

    /// neg {"AND" neg}
    fn conj(&self, conj: &Conj, depth: usize) -> Result<Typed, BindFault>
        requires { Nests depth (F.pre self.now.inner) (F.post self.now.inner) }
        ensures bound { IfOk result (λ made. made ≡ typed (binding.typed_conj (scope self.now.columns.now) conj.now)) }
        ensures too_deep { OnTooDeep result (depth < depths.depth_conj length conj.now) }
    {
        let first = self.neg(&conj.first, depth)?;
        if conj.more.is_empty() {
            return Ok(first);
        }
        self.ands(first, conj.more.as_slice(), depth)
    }

    /// {"AND" neg}, behind the first one.
    fn ands(&self, first: Typed, parts: &[AndNeg], depth: usize) -> Result<Typed, BindFault>
        requires { Nests depth (F.pre self.now.inner) (F.post self.now.inner) }
        ensures bound { IfOk result (λ made. made ≡ junction_typed bound.All (joined (junction_of first) (map (binding.typed_and_neg (scope self.now.columns.now)) parts.now))) }
        ensures too_deep { OnTooDeep result (depth < deepest (map (depths.depth_and_neg length) parts.now)) }
    {
        let mut found = Junction::new(self.alloc, first)?;
        for part in parts {
            let right = self.neg(&part.neg, depth)?;
            found.push(part.at, right)?;
        }
        Ok(found.all())
    }

    /// {"NOT"} test
    fn neg(&self, neg: &Neg, depth: usize) -> Result<Typed, BindFault>
        requires { Nests depth (F.pre self.now.inner) (F.post self.now.inner) }
        ensures bound { IfOk result (λ made. made ≡ typed (binding.typed_neg (scope self.now.columns.now) neg.now)) }
        ensures too_deep { OnTooDeep result (depth < depths.depth_neg length neg.now) }
    {
        let rest = less(depth, neg.nots.len())?;
        let found = self.test(&neg.test, rest)?;
        let made = behind_nots(self.alloc, found, neg.nots.as_slice())?;
        Ok(made)
    }

    /// plus [check]
    fn test(&self, test: &Test, depth: usize) -> Result<Typed, BindFault>
        requires { Nests depth (F.pre self.now.inner) (F.post self.now.inner) }
        ensures bound { IfOk result (λ made. made ≡ typed (binding.typed_test (scope self.now.columns.now) test.now)) }
        ensures too_deep { OnTooDeep result (depth < depths.depth_test length test.now) }
    {
        let left = self.plus(&test.left, depth)?;
        self.check(left, &test.check, depth)
    }

    /// cmp plus | "IN" .. | "IS" .., behind what is tested.
    fn check(&self, left: Typed, check: &Check, depth: usize) -> Result<Typed, BindFault>
        requires { Nests depth (F.pre self.now.inner) (F.post self.now.inner) }
        ensures bound { IfOk result (λ made. (x : typing.Typed) → left ≡ typed x → made ≡ typed (binding.typed_check (scope self.now.columns.now) check.now x)) }
        ensures too_deep { OnTooDeep result (depth < depths.depth_check length check.now) }
    {
        match check {
            Check::Nothing => Ok(left),
            Check::Compare(op, at, right) => {
                let right = self.plus(right.get(), depth)?;
                Ok(compared(self.alloc, comparison(*op), *at, left, right)?)
            }
            Check::InList(at, lits) => Ok(in_list(self.alloc, left, *at, lits.as_slice())?),
            Check::InText(at, text) => Ok(in_text(self.alloc, left, *at, text)?),
            Check::IsNull(_) => Ok(is_null(self.alloc, left)?),
            Check::IsNotNull(_) => Ok(is_not_null(self.alloc, left)?),
        }
    }

    /// term {("+"|"-") term}
    fn plus(&self, plus: &Plus, depth: usize) -> Result<Typed, BindFault>
        requires { Nests depth (F.pre self.now.inner) (F.post self.now.inner) }
        ensures bound { IfOk result (λ made. made ≡ typed (binding.typed_plus (scope self.now.columns.now) plus.now)) }
        ensures too_deep { OnTooDeep result (depth < depths.depth_plus length plus.now) }
    {
        let first = self.term(&plus.first, depth)?;
        if plus.more.is_empty() {
            return Ok(first);
        }
        self.added(first, plus.more.as_slice(), depth)
    }

    /// {("+"|"-") term}, behind the first one.
    fn added(&self, first: Typed, parts: &[AddTerm], depth: usize) -> Result<Typed, BindFault>
        requires { Nests depth (F.pre self.now.inner) (F.post self.now.inner) }
        ensures bound { IfOk result (λ made. made ≡ chain_typed (chained (chain_of first) (map (binding.typed_add_term (scope self.now.columns.now)) parts.now))) }
        ensures too_deep { OnTooDeep result (depth < deepest (map (depths.depth_add_term length) parts.now)) }
    {
        let mut found = Chain::new(self.alloc, first)?;
        for part in parts {
            let right = self.term(&part.term, depth)?;
            found.push(add_op(part.op), part.at, right)?;
        }
        Ok(found.finish())
    }

    /// sign {("*"|"/"|"%") sign}
    fn term(&self, term: &Term, depth: usize) -> Result<Typed, BindFault>
        requires { Nests depth (F.pre self.now.inner) (F.post self.now.inner) }
        ensures bound { IfOk result (λ made. made ≡ typed (binding.typed_term (scope self.now.columns.now) term.now)) }
        ensures too_deep { OnTooDeep result (depth < depths.depth_term length term.now) }
    {
        let first = self.signed(&term.first, depth)?;
        if term.more.is_empty() {
            return Ok(first);
        }
        self.multiplied(first, term.more.as_slice(), depth)
    }

    /// {("*"|"/"|"%") sign}, behind the first one.
    fn multiplied(
        &self,
        first: Typed,
        parts: &[MulSigned],
        depth: usize,
    ) -> Result<Typed, BindFault>
        requires { Nests depth (F.pre self.now.inner) (F.post self.now.inner) }
        ensures bound { IfOk result (λ made. made ≡ chain_typed (chained (chain_of first) (map (binding.typed_mul_signed (scope self.now.columns.now)) parts.now))) }
        ensures too_deep { OnTooDeep result (depth < deepest (map (depths.depth_mul_signed length) parts.now)) }
    {
        let mut found = Chain::new(self.alloc, first)?;
        for part in parts {
            let right = self.signed(&part.signed, depth)?;
            found.push(mul_op(part.op), part.at, right)?;
        }
        Ok(found.finish())
    }

    /// {"-"} prime
    fn signed(&self, signed: &Signed, depth: usize) -> Result<Typed, BindFault>
        requires { Nests depth (F.pre self.now.inner) (F.post self.now.inner) }
        ensures bound { IfOk result (λ made. made ≡ typed (binding.typed_signed (scope self.now.columns.now) signed.now)) }
        ensures too_deep { OnTooDeep result (depth < depths.depth_signed length signed.now) }
    {
        let rest = less(depth, signed.minuses.len())?;
        let found = self.prime(&signed.prime, rest)?;
        let made = behind_minuses(self.alloc, found, signed.minuses.as_slice())?;
        Ok(made)
    }

    /// Number | Text | "TRUE" | "FALSE" | "NULL" | column | "(" expr ")"
    fn prime(&self, prime: &Prime, depth: usize) -> Result<Typed, BindFault>
        requires { Nests depth (F.pre self.now.inner) (F.post self.now.inner) }
        ensures bound { IfOk result (λ made. made ≡ typed (binding.typed_prime (scope self.now.columns.now) prime.now)) }
        ensures too_deep { OnTooDeep result (depth < depths.depth_prime length prime.now) }
    {
        match prime {
            Prime::Number(n) => Ok(Typed::number(Whole::of(&n.value), false, n.at)),
            Prime::Text(text) => Ok(Typed::text(self.alloc, text)?),
            Prime::True(_) => Ok(Typed::truth(true)),
            Prime::False(_) => Ok(Typed::truth(false)),
            Prime::Null(_) => Ok(Typed::null()),
            Prime::Column(name) => Ok(self.columns.named(name.get())?),
            Prime::Bracket(expr) => (self.inner)(self.alloc, self.columns, expr.get(), depth),
        }
    }
}

/// The operator that a plus or minus stands for.
fn add_op(op: AddOp) -> Arithmetic
    ensures { result ≡ binding.add_op op }
{
    match op {
        AddOp::Plus => Arithmetic::Plus,
        AddOp::Minus => Arithmetic::Minus,
    }
}

/// The operator that a sign of products stands for.
fn mul_op(op: MulOp) -> Arithmetic
    ensures { result ≡ binding.mul_op op }
{
    match op {
        MulOp::Times => Arithmetic::Times,
        MulOp::Divide => Arithmetic::Divide,
        MulOp::Remainder => Arithmetic::Remainder,
    }
}

/// What a sign of comparison asks.
fn comparison(op: Cmp) -> Comparison
    ensures { result ≡ binding.comparison_of op }
{
    match op {
        Cmp::Equal => Comparison::Equal,
        Cmp::NotEqual => Comparison::NotEqual,
        Cmp::Less => Comparison::Less,
        Cmp::LessEqual => Comparison::LessEqual,
        Cmp::Greater => Comparison::Greater,
        Cmp::GreaterEqual => Comparison::GreaterEqual,
    }
}
