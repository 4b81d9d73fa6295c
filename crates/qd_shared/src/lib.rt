//! Many seats on one store: each thread commits, pins, reads and applies with a pass of its own, and all of them share one
//! history.
//!
//! A [`Shared`] is a scoreboard over a [`Desk`]: a store with the history that is told of it. What a thread does with the store
//! it does while it holds the lock; it pins the current version without the lock, and reads its parts in holds of one part each.
//! Contracts see by a [`Pass`] what its thread knows: the transactions that it has seen, which of them came through it, and how
//! many the version has that it read last. Each commit rings a [`Bell`], for a worker that applies beside the sessions.
//!
//! The definitions stand in `specs/`: `Desks` (what lies under the lock), `Passes` (what a pass knows, and what one hold tells
//! it), `Commits`, `Snaps` and `Rounds` (what each call does).
#![tactic(auto)]

mod bell;
mod commits;
mod desk;
mod item;
mod known;
mod pass;
mod pins;
mod rounds;
mod shared;
mod snap;
mod snaps;

pub use bell::Bell;
pub use desk::Desk;
pub use item::{Fixed, Item};
pub use pass::Pass;
pub use rounds::RoundFault;
pub use shared::Shared;
pub use snap::Snap;
