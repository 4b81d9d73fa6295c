//! A backend over a store on a volume: requests of a session are committed, applied and answered by it.
#![tactic(auto)]

mod back;
mod kept;
mod parts;
mod replies;
mod rounds;
mod starting;

pub use back::StoreBack;
pub use kept::KeptBlocks;
pub use replies::{refused, reply_of, reply_over};
pub use rounds::next_of;
pub use starting::open_or_create;
