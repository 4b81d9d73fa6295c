//! The columns that an expression may name, and what a name of a statement stands for.
ghost use Rattle.std.specs.Prelude.{◌≡◌, ◌+◌, ◌<◌, ◌^◌, false, map, None, Some, IfOk};
ghost use Rattle.qd_meaning.specs.Refusals.{least};
ghost use Rattle.qd_meaning.specs.Binding.{named_column};
ghost use Rattle.qd_meaning.specs.Scopes as scopes;
ghost use Rattle.qd_bind.specs.Apart.{AreApart, cols_by};
ghost use Rattle.qd_bind.specs.Scoped as spec;
ghost use Rattle.qd_bind.specs.Seen as seen;

use crate::side::{Side, are_apart};
use crate::typed::Typed;
use qd_base::{Code, Col, ColList, Memory, Schema, same_name};
use qd_meaning::{Refusal, unless};
use qd_sql_ast::Column;

/// The columns that an expression may name: those of the left table, then those of the right one.
#[derive(Clone, Copy)]
pub struct Scope<'s> {
    /// The left table.
    pub left: Side<'s>,
    /// The right one of a join.
    pub right: Option<Side<'s>>,
}

/// What a name of a statement stands for.
#[derive(Clone, Copy)]
pub struct Resolved<'s> {
    /// The column, the first where several have the name, with its position.
    pub column: Option<(usize, &'s Col)>,
    /// The refusal that is answered for the name, where there is one.
    pub fault: Option<Refusal>,
}

/// The first column of a name, and whether there is another one.
#[derive(Clone, Copy)]
struct Hit<'s> {
    at: usize,
    col: &'s Col,
    again: bool,
}

impl<'s> Side<'s> {
    /// Makes a side of a table's name in the statement and of what the table looks like, where it is there. It costs time
    /// log-linear in the number of columns, once for a statement, and takes no memory.
    pub fn new(name: &'s [u8], schema: Option<&'s Schema>) -> Side<'s>
        ensures columns { spec.columns result ≡ cols_by schema.entry }
        ensures side { spec.side result ≡ map (scopes.scope_column name.now) (cols_by schema.entry) }
    {
        let is_apart = match schema {
            Some(schema) => are_apart(&schema.cols),
            None => true,
        };
        Side {
            name,
            schema,
            is_apart,
        }
    }

    /// Lends the columns, in constant time; a table that isn't there has none.
    pub fn columns(&self) -> &'s [Col]
        ensures columns { result.now ≡ spec.columns self.now }
    {
        match self.schema {
            Some(schema) => schema.cols.as_slice(),
            None => &[],
        }
    }

    /// The columns of a name of the statement behind those of another side, which are so many and of which this was found.
    #[tactic(auto, using(crate::proofs::ScopeLemmas::plain_named, crate::proofs::ScopeLemmas::own_named))]
    fn look(&self, name: &Column, base: usize, before: Option<Hit<'s>>) -> Option<Hit<'s>>
        requires base { base < 2 ^ 62 }
        ensures hits { spec.hit result ≡ spec.join (spec.hit before.entry) (spec.summary (scopes.found_from (scopes.is_named name.now.first name.now.second) base (spec.side self.now))) }
    {
        match &name.second {
            None => self.hits(name.first.text.bytes(), base, before),
            Some(second) => {
                if same_name(self.name, name.first.text.bytes()) {
                    self.hits(second.text.bytes(), base, before)
                } else {
                    before
                }
            }
        }
    }

    /// The columns that have a name. Where it is known that no two have one, they are found as the table finds them.
    #[tactic(auto, using(crate::proofs::ScopeLemmas::join_none))]
    fn hits(&self, name: &[u8], base: usize, before: Option<Hit<'s>>) -> Option<Hit<'s>>
        requires base { base < 2 ^ 62 }
        ensures hits { spec.hit result ≡ spec.join (spec.hit before.entry) (spec.summary (spec.named_from name.now base (spec.columns self.now))) }
    {
        match self.schema {
            Some(schema) => {
                if self.is_apart {
                    one_hit(&schema.cols, name, base, before)
                } else {
                    hits(schema.cols.as_slice(), name, base, before)
                }
            }
            None => before,
        }
    }
}

/// The column of a name where no two columns have one name.
fn one_hit<'s>(
    cols: &'s ColList,
    name: &[u8],
    base: usize,
    before: Option<Hit<'s>>,
) -> Option<Hit<'s>>
    requires base { base < 2 ^ 62 }
    requires apart { AreApart cols.now }
    ensures hits { spec.hit result ≡ spec.join (spec.hit before.entry) (spec.summary (spec.named_from name.now base cols.now)) }
{
    let items = cols.as_slice();
    match cols.find(name) {
        Some(i) => Some(one_more(before, base + i, &items[i])),
        None => before,
    }
}

/// The columns of a name in a list, behind others which are so many and of which this was found.
fn hits<'s>(cols: &'s [Col], name: &[u8], base: usize, before: Option<Hit<'s>>) -> Option<Hit<'s>>
    requires { base < 2 ^ 62 }
    ensures hits { spec.hit result ≡ spec.join (spec.hit before.entry) (spec.summary (spec.named_from name.now base cols.now)) }
{
    let mut found = before;
    for (i, col) in cols.iter().enumerate() {
        if same_name(col.name.bytes(), name) {
            found = Some(one_more(found, base + i, col));
        }
    }
    found
}

/// One more column of a name.
fn one_more<'s>(found: Option<Hit<'s>>, at: usize, col: &'s Col) -> Hit<'s>
    ensures more { spec.hit (Some result) ≡ spec.join (spec.hit found.entry) (Some (at, col.now, false)) }
{
    match found {
        Some(hit) => Hit { again: true, ..hit },
        None => Hit {
            at,
            col,
            again: false,
        },
    }
}

impl<'s> Scope<'s> {
    /// The first column of a name, and whether there is another one.
    #[tactic(auto, using(crate::proofs::ScopeLemmas::one_side))]
    fn look(&self, name: &Column) -> Option<Hit<'s>>
        ensures hits { spec.hit result ≡ spec.summary (scopes.found (spec.scope self.now) name.now) }
    {
        let left = self.left.look(name, 0, None);
        match &self.right {
            Some(right) => right.look(name, self.left.columns().len(), left),
            None => left,
        }
    }

    /// Gives what a name stands for. An unqualified name that stands for several columns is ambiguous. It costs time
    /// logarithmic in the number of columns, or linear where a table has two of one name, and takes no memory.
    #[tactic(auto, using(crate::proofs::ScopeLemmas::resolved_none, crate::proofs::ScopeLemmas::resolved_some))]
    pub fn resolve(&self, name: &Column) -> Resolved<'s>
        ensures column { spec.column result.column ≡ (scopes.resolved (spec.scope self.now) name.now).column }
        ensures fault { result.fault ≡ least (scopes.resolved (spec.scope self.now) name.now).faults }
    {
        match self.look(name) {
            None => Resolved {
                column: None,
                fault: unless(false, Code::UnknownColumn, name.first.at),
            },
            Some(hit) => Resolved {
                column: Some((hit.at, hit.col)),
                fault: ambiguous(name, hit.again),
            },
        }
    }

    /// Gives the expression that a name is. One that stands for no column is NULL, beside its refusal.
    #[tactic(auto, using(crate::proofs::ScopeLemmas::named_seen))]
    pub(crate) fn named(&self, name: &Column) -> Result<Typed, Memory>
        ensures named { IfOk result (λ made. made ≡ seen.typed (named_column (scopes.resolved (spec.scope self.now) name.now))) }
    {
        let found = self.resolve(name);
        match found.column {
            Some((at, col)) => Ok(Typed {
                fault: found.fault,
                ..Typed::column(at, col)?
            }),
            None => Ok(Typed {
                fault: found.fault,
                ..Typed::null()
            }),
        }
    }
}

/// The refusal of a name that may stand for another column too.
fn ambiguous(name: &Column, again: bool) -> Option<Refusal>
    ensures least { result ≡ spec.ambiguous name.now again }
{
    match &name.second {
        None => unless(!again, Code::Ambiguous, name.first.at),
        Some(_) => None,
    }
}
