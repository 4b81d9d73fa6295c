//! The worker that applies beside sessions: whenever something was committed it shows that, and removes what no version lists any
//! more.
//!
//! `specs/Worker` says what a pass knows behind its work.
#![tactic(auto)]

mod gate;
mod house;
mod rounds;
mod worker;

pub use gate::BellGate;
pub use house::House;
pub use rounds::{Gate, Housekeep, Point, keep_house};
pub use worker::{Keeping, Worker};
