//! The scoreboard as plain data: readers that pin a version without a lock, a writer that retires only what nobody pins,
//! and one history that only grows.
//!
//! The definitions stand in `specs/`: `Machine` (the state, its events, what each needs and changes), `Kept` (what every
//! event keeps), `Laws` (what follows, for every order of events) and `Examples` (small runs).
#![tactic(auto)]

mod laws;
mod limits;
#[cfg(test)]
mod tests;
mod view;

pub use laws::{
    every_run, history_only_grows, nothing_is_forgotten, pinned_blocks_are_present,
    pinned_rows_are_live, pins_stay_small, positions_are_ones_own, seats_only_learn,
    seats_see_one_history, sole_seat_retires, worked_examples,
};
pub use limits::{MAX_SPLITS, PINS_END, ROWS};
pub use view::{Mode, Phase, Place, Record, Refusal, Sight, Version, View};
