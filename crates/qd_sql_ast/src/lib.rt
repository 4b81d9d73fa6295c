//! The trees of SQL statements, and what reads the parts of a statement that hold no expression: the steps that each rule
//! of the grammar is made of, and the rules of CREATE, INSERT, ALTER and SHOW.
#![tactic(auto)]

mod lists;
mod range;
mod step;
mod stop;
mod tree;
mod write;

pub use lists::{list, offsets};
pub use range::{Magnitude, StrideCount};
pub use sqlite_items::{Boxed, Items};
pub use step::{Cursor, is_word, number_of, same_kind, stride_count};
pub use stop::{Halt, Stop};
pub use tree::{
    AddOp, AddTerm, AggOf, AlignTo, Alter, AndNeg, Change, Check, Cmp, Column, ColumnDef, Conj,
    Create, Dedup, Expr, FillWith, Fills, Filter, Insert, Item, Join, JoinOf, Latest, Limit, Lit,
    MulOp, MulSigned, Name, Neg, Number, OrConj, OrderKey, Plus, Prime, Query, Sampled, Selected,
    Shown, Signed, Source, Stmt, StrideOf, Term, Test, Text, Tuple,
};
pub use write::{alter, create, insert, lits, names_to_bracket, show};
