//! The rules of expressions. What stands in brackets is read by a function that they are given, so that each rule is
//! proved by itself.
ghost use Rattle.std.specs.Prelude.{◌≡◌};
ghost use Rattle.qd_sql.specs.Exprs as spec;
ghost use Rattle.qd_sql.specs.Nests.{Nests};
ghost use Rattle.qd_sql_ast.specs.Steps.{Reads, Takes};

use qd_base::Seq;
use qd_sql_ast::{
    AddOp, AddTerm, AndNeg, Check, Cmp, Column, Conj, Cursor, Expr, Halt, MulOp, MulSigned, Neg,
    OrConj, Plus, Prime, Signed, Stop, Term, Test, lits, offsets,
};
use qd_sql_lexer::Kind;
use sqlite_items::{Boxed, Items};
use std::alloc::Global;

/// The rules, and what reads an expression in brackets.
#[derive(Clone, Copy)]
struct Rules<F> {
    alloc: Global,
    /// How deep brackets may still nest.
    depth: usize,
    inner: F,
}

/// Reads an expression whose brackets nest less deep than this: the stack is memory.
pub(crate) fn expr(alloc: Global, tokens: &mut Cursor<'_, '_>, depth: usize) -> Result<Expr, Stop>
    ensures { Reads (spec.expr depth tokens.old) result tokens.new }
{
    if depth == 0 {
        return Err(Stop::Halted(Halt::TooDeep));
    }
    Rules {
        alloc,
        depth: depth - 1,
        inner: expr,
    }
    .expr(tokens)
}

impl<F: Fn(Global, &mut Cursor<'_, '_>, usize) -> Result<Expr, Stop>> Rules<F> {
    /// conj {"OR" conj}
    #[tactic(auto, unfolding(crate::specs::Exprs::expr_at))]
    fn expr(&self, tokens: &mut Cursor<'_, '_>) -> Result<Expr, Stop>
        requires { Nests self.now.depth (F.pre self.now.inner) (F.post self.now.inner) }
        ensures { Reads (spec.expr_at (spec.expr self.now.depth) tokens.old) result tokens.new }
    {
        let first = self.conj(tokens)?;
        let more = self.ors(tokens)?;
        Ok(Expr { first, more })
    }

    fn ors(&self, tokens: &mut Cursor<'_, '_>) -> Result<Items<OrConj>, Stop>
        requires { Nests self.now.depth (F.pre self.now.inner) (F.post self.now.inner) }
        ensures { Reads (spec.ors (spec.expr self.now.depth) tokens.old) result tokens.new }
    {
        let mut found = Items::new(self.alloc);
        for _turn in 0..tokens.len() {
            let Some(at) = tokens.word(b"OR") else {
                return Ok(found);
            };
            let conj = self.conj(tokens)?;
            found.push(OrConj { at, conj })?;
        }
        Ok(found)
    }

    /// neg {"AND" neg}
    #[tactic(auto, unfolding(crate::specs::Exprs::conj))]
    fn conj(&self, tokens: &mut Cursor<'_, '_>) -> Result<Conj, Stop>
        requires { Nests self.now.depth (F.pre self.now.inner) (F.post self.now.inner) }
        ensures { Reads (spec.conj (spec.expr self.now.depth) tokens.old) result tokens.new }
    {
        let first = self.neg(tokens)?;
        let more = self.ands(tokens)?;
        Ok(Conj { first, more })
    }

    fn ands(&self, tokens: &mut Cursor<'_, '_>) -> Result<Items<AndNeg>, Stop>
        requires { Nests self.now.depth (F.pre self.now.inner) (F.post self.now.inner) }
        ensures { Reads (spec.ands (spec.expr self.now.depth) tokens.old) result tokens.new }
    {
        let mut found = Items::new(self.alloc);
        for _turn in 0..tokens.len() {
            let Some(at) = tokens.word(b"AND") else {
                return Ok(found);
            };
            let neg = self.neg(tokens)?;
            found.push(AndNeg { at, neg })?;
        }
        Ok(found)
    }

    /// {"NOT"} test
    #[tactic(auto, unfolding(crate::specs::Exprs::neg))]
    fn neg(&self, tokens: &mut Cursor<'_, '_>) -> Result<Neg, Stop>
        requires { Nests self.now.depth (F.pre self.now.inner) (F.post self.now.inner) }
        ensures { Reads (spec.neg (spec.expr self.now.depth) tokens.old) result tokens.new }
    {
        let nots = nots(self.alloc, tokens)?;
        let test = self.test(tokens)?;
        Ok(Neg { nots, test })
    }

    /// plus [check]
    #[tactic(auto, unfolding(crate::specs::Exprs::one_test))]
    fn test(&self, tokens: &mut Cursor<'_, '_>) -> Result<Test, Stop>
        requires { Nests self.now.depth (F.pre self.now.inner) (F.post self.now.inner) }
        ensures { Reads (spec.one_test (spec.expr self.now.depth) tokens.old) result tokens.new }
    {
        let left = self.plus(tokens)?;
        let check = self.check(tokens)?;
        Ok(Test { left, check })
    }

    /// cmp plus | "IN" .. | "IS" ..
    #[tactic(auto, unfolding(crate::specs::Exprs::check))]
    fn check(&self, tokens: &mut Cursor<'_, '_>) -> Result<Check, Stop>
        requires { Nests self.now.depth (F.pre self.now.inner) (F.post self.now.inner) }
        ensures { Reads (spec.check (spec.expr self.now.depth) tokens.old) result tokens.new }
    {
        if let Some((op, at)) = cmp(tokens) {
            let right = self.plus(tokens)?;
            Ok(Check::Compare(op, at, Boxed::new(self.alloc, right)?))
        } else if let Some(at) = tokens.word(b"IN") {
            among(self.alloc, at, tokens)
        } else if let Some(at) = tokens.word(b"IS") {
            null_check(at, tokens)
        } else {
            Ok(Check::Nothing)
        }
    }

    /// term {("+"|"-") term}
    #[tactic(auto, unfolding(crate::specs::Exprs::plus))]
    fn plus(&self, tokens: &mut Cursor<'_, '_>) -> Result<Plus, Stop>
        requires { Nests self.now.depth (F.pre self.now.inner) (F.post self.now.inner) }
        ensures { Reads (spec.plus (spec.expr self.now.depth) tokens.old) result tokens.new }
    {
        let first = self.term(tokens)?;
        let more = self.added(tokens)?;
        Ok(Plus { first, more })
    }

    fn added(&self, tokens: &mut Cursor<'_, '_>) -> Result<Items<AddTerm>, Stop>
        requires { Nests self.now.depth (F.pre self.now.inner) (F.post self.now.inner) }
        ensures { Reads (spec.added (spec.expr self.now.depth) tokens.old) result tokens.new }
    {
        let mut found = Items::new(self.alloc);
        for _turn in 0..tokens.len() {
            let Some((op, at)) = add_op(tokens) else {
                return Ok(found);
            };
            let term = self.term(tokens)?;
            found.push(AddTerm { op, at, term })?;
        }
        Ok(found)
    }

    /// sign {("*"|"/"|"%") sign}
    #[tactic(auto, unfolding(crate::specs::Exprs::term))]
    fn term(&self, tokens: &mut Cursor<'_, '_>) -> Result<Term, Stop>
        requires { Nests self.now.depth (F.pre self.now.inner) (F.post self.now.inner) }
        ensures { Reads (spec.term (spec.expr self.now.depth) tokens.old) result tokens.new }
    {
        let first = self.signed(tokens)?;
        let more = self.multiplied(tokens)?;
        Ok(Term { first, more })
    }

    fn multiplied(&self, tokens: &mut Cursor<'_, '_>) -> Result<Items<MulSigned>, Stop>
        requires { Nests self.now.depth (F.pre self.now.inner) (F.post self.now.inner) }
        ensures { Reads (spec.multiplied (spec.expr self.now.depth) tokens.old) result tokens.new }
    {
        let mut found = Items::new(self.alloc);
        for _turn in 0..tokens.len() {
            let Some((op, at)) = mul_op(tokens) else {
                return Ok(found);
            };
            let signed = self.signed(tokens)?;
            found.push(MulSigned { op, at, signed })?;
        }
        Ok(found)
    }

    /// {"-"} prime
    #[tactic(auto, unfolding(crate::specs::Exprs::signed))]
    fn signed(&self, tokens: &mut Cursor<'_, '_>) -> Result<Signed, Stop>
        requires { Nests self.now.depth (F.pre self.now.inner) (F.post self.now.inner) }
        ensures { Reads (spec.signed (spec.expr self.now.depth) tokens.old) result tokens.new }
    {
        let minuses = minuses(self.alloc, tokens)?;
        let prime = self.prime(tokens)?;
        Ok(Signed { minuses, prime })
    }

    /// Number | Text | "TRUE" | "FALSE" | "NULL" | column | "(" expr ")"
    #[tactic(auto, unfolding(crate::specs::Exprs::prime))]
    fn prime(&self, tokens: &mut Cursor<'_, '_>) -> Result<Prime, Stop>
        requires { Nests self.now.depth (F.pre self.now.inner) (F.post self.now.inner) }
        ensures { Reads (spec.prime (spec.expr self.now.depth) tokens.old) result tokens.new }
    {
        if tokens.sees(Kind::Number) {
            Ok(Prime::Number(tokens.number()?))
        } else if tokens.sees(Kind::Text) {
            Ok(Prime::Text(tokens.text(self.alloc)?))
        } else if let Some(at) = tokens.word(b"TRUE") {
            Ok(Prime::True(at))
        } else if let Some(at) = tokens.word(b"FALSE") {
            Ok(Prime::False(at))
        } else if let Some(at) = tokens.word(b"NULL") {
            Ok(Prime::Null(at))
        } else if tokens.sign(Kind::Open).is_some() {
            self.bracket(tokens)
        } else {
            let found = column(self.alloc, tokens)?;
            Ok(Prime::Column(Boxed::new(self.alloc, found)?))
        }
    }

    /// expr ")", behind the opening bracket.
    #[tactic(auto, unfolding(crate::specs::Exprs::bracket))]
    fn bracket(&self, tokens: &mut Cursor<'_, '_>) -> Result<Prime, Stop>
        requires { Nests self.now.depth (F.pre self.now.inner) (F.post self.now.inner) }
        ensures { Reads (spec.bracket (spec.expr self.now.depth) tokens.old) result tokens.new }
    {
        let inner = self.nested(tokens)?;
        tokens.want(Kind::Close)?;
        Ok(Prime::Bracket(inner))
    }

    /// An expression in brackets. It stands on the heap at once, so that the rules above it take little of the stack.
    fn nested(&self, tokens: &mut Cursor<'_, '_>) -> Result<Boxed<Expr>, Stop>
        requires { Nests self.now.depth (F.pre self.now.inner) (F.post self.now.inner) }
        ensures { Reads (spec.expr self.now.depth tokens.old) result tokens.new }
    {
        let found = (self.inner)(self.alloc, tokens, self.depth)?;
        Ok(Boxed::new(self.alloc, found)?)
    }
}

/// The offsets of the NOTs that come next.
fn nots(alloc: Global, tokens: &mut Cursor<'_, '_>) -> Result<Seq<u64>, Stop>
    ensures { Reads (spec.nots tokens.old) result tokens.new }
{
    offsets(alloc, tokens, |tokens| tokens.word(b"NOT"))
}

/// The offsets of the minuses that come next.
fn minuses(alloc: Global, tokens: &mut Cursor<'_, '_>) -> Result<Seq<u64>, Stop>
    ensures { Reads (spec.minuses tokens.old) result tokens.new }
{
    offsets(alloc, tokens, |tokens| tokens.sign(Kind::Minus))
}

/// name ["." name]
#[tactic(auto, unfolding(crate::specs::Exprs::column))]
pub(crate) fn column(alloc: Global, tokens: &mut Cursor<'_, '_>) -> Result<Column, Stop>
    ensures { Reads (spec.column tokens.old) result tokens.new }
{
    let first = tokens.name(alloc)?;
    if tokens.sign(Kind::Dot).is_none() {
        return Ok(Column {
            first,
            second: None,
        });
    }
    let second = tokens.name(alloc)?;
    Ok(Column {
        first,
        second: Some(second),
    })
}

/// Takes a comparison, where one comes next.
#[tactic(auto, unfolding(crate::specs::Exprs::cmp))]
fn cmp(tokens: &mut Cursor<'_, '_>) -> Option<(Cmp, u64)>
    ensures { Takes result (spec.cmp tokens.old) tokens.old tokens.new }
{
    if let Some(at) = tokens.sign(Kind::Equal) {
        Some((Cmp::Equal, at))
    } else if let Some(at) = tokens.sign(Kind::NotEqual) {
        Some((Cmp::NotEqual, at))
    } else if let Some(at) = tokens.sign(Kind::Less) {
        Some((Cmp::Less, at))
    } else if let Some(at) = tokens.sign(Kind::LessEqual) {
        Some((Cmp::LessEqual, at))
    } else if let Some(at) = tokens.sign(Kind::Greater) {
        Some((Cmp::Greater, at))
    } else if let Some(at) = tokens.sign(Kind::GreaterEqual) {
        Some((Cmp::GreaterEqual, at))
    } else {
        None
    }
}

/// Takes a plus or minus, where one comes next.
#[tactic(auto, unfolding(crate::specs::Exprs::add_op))]
fn add_op(tokens: &mut Cursor<'_, '_>) -> Option<(AddOp, u64)>
    ensures { Takes result (spec.add_op tokens.old) tokens.old tokens.new }
{
    if let Some(at) = tokens.sign(Kind::Plus) {
        Some((AddOp::Plus, at))
    } else if let Some(at) = tokens.sign(Kind::Minus) {
        Some((AddOp::Minus, at))
    } else {
        None
    }
}

/// Takes an operator of products, where one comes next.
#[tactic(auto, unfolding(crate::specs::Exprs::mul_op))]
fn mul_op(tokens: &mut Cursor<'_, '_>) -> Option<(MulOp, u64)>
    ensures { Takes result (spec.mul_op tokens.old) tokens.old tokens.new }
{
    if let Some(at) = tokens.sign(Kind::Star) {
        Some((MulOp::Times, at))
    } else if let Some(at) = tokens.sign(Kind::Slash) {
        Some((MulOp::Divide, at))
    } else if let Some(at) = tokens.sign(Kind::Percent) {
        Some((MulOp::Remainder, at))
    } else {
        None
    }
}

/// Text | "(" lit {"," lit} ")", behind IN.
#[tactic(auto, unfolding(crate::specs::Exprs::among))]
fn among(alloc: Global, at: u64, tokens: &mut Cursor<'_, '_>) -> Result<Check, Stop>
    ensures { Reads (spec.among at tokens.old) result tokens.new }
{
    if tokens.sees(Kind::Text) {
        return Ok(Check::InText(at, tokens.text(alloc)?));
    }
    tokens.want(Kind::Open)?;
    let found = lits(alloc, tokens)?;
    tokens.want(Kind::Close)?;
    Ok(Check::InList(at, found))
}

/// ["NOT"] "NULL", behind IS.
#[tactic(auto, unfolding(crate::specs::Exprs::null_check))]
fn null_check(at: u64, tokens: &mut Cursor<'_, '_>) -> Result<Check, Stop>
    ensures { Reads (spec.null_check at tokens.old) result tokens.new }
{
    if tokens.word(b"NOT").is_some() {
        tokens.want_word(b"NULL")?;
        Ok(Check::IsNotNull(at))
    } else {
        tokens.want_word(b"NULL")?;
        Ok(Check::IsNull(at))
    }
}
