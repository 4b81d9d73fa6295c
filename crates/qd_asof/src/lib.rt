//! ASOF JOIN and LT JOIN: each left row with the last right row of its keys that is early enough.
#![tactic(auto)]

mod choices;
mod joined;
mod laws;
mod sides;
mod times;

pub use joined::asof;
pub use laws::last_of_equal_times;
