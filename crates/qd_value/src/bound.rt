//! Bound expressions: trees whose columns are positions and whose literals have a type.
use qd_base::{Cell, Seq};
use sqlite_items::{Boxed, Items};

/// An operator on two numbers.
#[derive(Clone, Copy, Debug, PartialEq, Eq)]
pub enum Arithmetic {
    /// `+`
    Plus,
    /// `-`
    Minus,
    /// `*`
    Times,
    /// `/`
    Divide,
    /// `%`
    Remainder,
}

/// A comparison of two values.
#[derive(Clone, Copy, Debug, PartialEq, Eq)]
pub enum Comparison {
    /// `=`
    Equal,
    /// `!=` or `<>`
    NotEqual,
    /// `<`
    Less,
    /// `<=`
    LessEqual,
    /// `>`
    Greater,
    /// `>=`
    GreaterEqual,
}

/// An expression over the columns of one row.
///
/// A chain of operators, of ANDs or of ORs is one list, so that a long one isn't deep. Dropping a tree, and finding its
/// value, calls itself once for each level of its depth, and takes time linear in its size.
#[cycle(bound)]
#[derive(Drop)]
pub enum Bound {
    /// The cell in a column, by the column's position in the row.
    Column(usize),
    /// A literal of any type, or NULL.
    Literal(Cell),
    /// `- x`
    Negated(Boxed<Bound>),
    /// `x + y - ..`, any of the operators, grouped to the left.
    Chain(Boxed<Bound>, Items<Operand>),
    /// `x = y` and the other comparisons.
    Compare(Comparison, Boxed<Bound>, Boxed<Bound>),
    /// `x IN (literal, ..)`
    InList(Boxed<Bound>, Seq<Cell>),
    /// `x IN 'interval'`: a time from the first one to the second one, in microseconds, both included.
    InInterval(Boxed<Bound>, u64, u64),
    /// `x IS NULL`. `x IS NOT NULL` is NOT over it.
    IsNull(Boxed<Bound>),
    /// `NOT x`
    Not(Boxed<Bound>),
    /// `x AND y AND ..`
    All(Items<Bound>),
    /// `x OR y OR ..`
    Any(Items<Bound>),
}

/// An operator of a chain, and what stands behind it.
#[cycle(bound)]
#[derive(Drop)]
pub struct Operand {
    /// The operator.
    pub op: Arithmetic,
    /// Its right side.
    pub right: Bound,
}
