//! The scoreboard: readers pin a version without a lock, a writer retires only what nobody pins, and one history only grows.
//!
//! A [`Score`] has words that threads change in single atomic steps, and a slot with a book, which is a store of versions
//! ([`Booked`]). One word is the lock, one shows the current version's number and row, and one for each row counts its pins.
//! A thread steps with a [`Seat`], a token of no bytes. Contracts see by its view what the thread knows: the items that it
//! has seen, its own positions among them, its pin, and what it sees of the book while it holds the lock.
//!
//! Between any two steps, in whatever order threads take them, words, book and views show a state of the machine of
//! `qd_score_model`, and so all of its laws hold. The definitions stand in `specs/`: `Rule` (the words, the book and the views as
//! such a state), `Calls` (what calls need), and `Plays`, `Pinning` and `Publishing` (what each step tells its thread).
#![tactic(auto)]

mod booked;
mod counted;
mod limits;
mod pins;
mod score;
mod table;
#[cfg(test)]
mod tests;
mod versions;

pub use booked::Booked;
pub use counted::{CountBook, Listed};
pub use limits::VERSIONS_END;
pub use pins::{Moved, Pin};
pub use score::{Hold, Score, Seat};
pub use table::{Knows, KnowsOf, Scored};
pub use versions::Pinned;
