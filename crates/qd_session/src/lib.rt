//! Sessions: the requests of a wire are handled by a backend, with the time of a clock where one is needed, and their
//! replies are written in order.
//!
//! `specs/Legal` says which replies may come, by the backend's own rule; `specs/Allowed` is the rule of the product,
//! and `specs/Alone` that of a backend whose one session alone applies.
#![tactic(auto)]

mod backend;
mod ended;
mod session;
#[cfg(test)]
mod tests;

pub use backend::Backend;
pub use ended::Ended;
pub use qd_frames::FrameFront;
pub use qd_print::csv_of;
pub use session::serve;
