//! What a stop leaves of a store: over every list of its calls, opening and applying gives every acknowledged transaction and at
//! most one more.
#![tactic(auto)]

mod laws;

pub use laws::{
    calls_are_steps, no_stop_loses_any, no_stops_lose_any, opening_and_applying_gives_all,
    opening_gives_all, stores_go_on, worked_examples,
};
