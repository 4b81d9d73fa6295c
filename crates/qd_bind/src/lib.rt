//! The binding of a statement's expressions: names become columns, literals get the type that they stand beside, and
//! each expression becomes a tree over columns, or has the refusal that is answered for it.
#![tactic(auto)]

mod chains;
mod class;
mod expr;
mod fault;
mod lists;
mod scope;
mod side;
mod steps;
mod typed;
mod whole;

pub use class::Class;
pub use expr::bind;
pub use fault::BindFault;
pub use scope::{Resolved, Scope};
pub use side::Side;
pub use typed::{Form, Typed};
pub use whole::Whole;
