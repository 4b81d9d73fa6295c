//! The statements of SQL: the rules of expressions and queries, and `parse_stmt`, which reads a text or refuses it.
#![tactic(auto)]

mod expr;
mod laws;
mod query;
mod stmt;

pub use laws::{refusals_have_causes, statements_stand, texts_are_answered};
pub use qd_sql_ast::{
    AddOp, AddTerm, AggOf, AlignTo, Alter, AndNeg, Boxed, Change, Check, Cmp, Column, ColumnDef,
    Conj, Create, Dedup, Expr, FillWith, Fills, Filter, Insert, Item, Items, Join, JoinOf, Latest,
    Limit, Lit, Magnitude, MulOp, MulSigned, Name, Neg, Number, OrConj, OrderKey, Plus, Prime,
    Query, Sampled, Selected, Shown, Signed, Source, Stmt, StrideCount, StrideOf, Term, Test, Text,
    Tuple,
};
pub use stmt::{SqlFault, parse_stmt};
