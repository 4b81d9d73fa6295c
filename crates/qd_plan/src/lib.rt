//! The plans of queries: a statement's tree and the schemas of all tables become what each operator is asked to do, or
//! the refusal that is answered.
#![tactic(auto)]

mod asked;
mod binding;
mod clauses;
mod fault;
mod items;
mod order;
mod outs;
mod place;
mod query;
mod sample;
mod shows;
mod stmt;
mod tables;
mod work;

pub use asked::Plan;
pub use fault::PlanFault;
pub use stmt::plan;
