//! The plain meaning of statements: what a query answers over a database, what a statement that writes does, and where each
//! is refused.
//!
//! The definitions stand in `specs/`: `Refusals` (which of several is answered), `TimeTexts`, `Scopes`, `Typing` and `Binding`
//! (how an expression of a statement gets its columns and its type), `Joined`, `Latest`, `Grouped`, `Sampled`, `Ordered` and
//! `Partitions` (operators on whole lists of rows), `Outputs`, `Items`, `Sampling` and `Planned` (the parts of a query over the
//! schemas), `Answer`, and `Creating`, `Inserting`, `Altering` and `Write`.
#![tactic(auto)]

mod judge;
mod laws;
mod parts;
mod refusal;

pub use judge::{soonest, unless};
pub use laws::{
    alters_are_refused, bindings_follow, clauses_are_refused, creates_are_refused,
    inserts_are_refused, joins_take_the_last, latest_rows_stand, least_is_answered, limits_count,
    looks_at_named_tables, names_are_judged, operators_give, output_names_are_distinct,
    plans_answer, plans_give_tables, queries_are_planned, queries_are_refused,
    refused_has_no_answer, samples_give, times_are_read, types_are_refused, writes_are_made,
};
pub use parts::{
    Agg, AggList, AskPlan, BoundList, Cut, Fill, FillList, GroupSpec, JoinSpec, OrderList,
    SampleSpec, Work,
};
pub use refusal::{Refusal, sooner};
