//! The laws hold of any items and shapes; each is called once, at numbers.
use crate::laws::{
    every_run, history_only_grows, nothing_is_forgotten, pinned_blocks_are_present,
    pinned_rows_are_live, pins_stay_small, positions_are_ones_own, seats_only_learn,
    seats_see_one_history, sole_seat_retires,
};

#[test]
fn laws_hold_of_numbers(_rt: HostRuntime) {
    every_run::<u64, u64>();
    history_only_grows::<u64, u64>();
    nothing_is_forgotten::<u64, u64>();
    pinned_blocks_are_present::<u64, u64>();
    pinned_rows_are_live::<u64, u64>();
    pins_stay_small::<u64, u64>();
    positions_are_ones_own::<u64, u64>();
    seats_only_learn::<u64, u64>();
    seats_see_one_history::<u64, u64>();
    sole_seat_retires::<u64, u64>();
}
