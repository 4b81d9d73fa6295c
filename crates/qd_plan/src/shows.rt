//! An item of a query.
use qd_base::{ColType, Txt};
use qd_meaning::Agg;
use qd_value::Bound;

/// What an item shows: a value of each row, or what is made of many rows.
#[derive(Drop)]
pub(crate) enum Part {
    /// A value, and the column's position where it is a column as it stands.
    Value(Bound, Option<usize>),
    /// An aggregate.
    Made(Agg),
}

/// An item: its name before names are told apart, its type and its part.
#[derive(Drop)]
pub(crate) struct Shows {
    pub(crate) name: Txt,
    pub(crate) kind: ColType,
    pub(crate) part: Part,
}
