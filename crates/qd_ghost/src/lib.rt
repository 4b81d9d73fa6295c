//! Values that only proofs read. They take no memory, and their methods do nothing at run time.
#![tactic(auto)]

mod seen;
mod telling;

pub use seen::Seen;
pub use telling::{Fitting, Telling, Turning};
