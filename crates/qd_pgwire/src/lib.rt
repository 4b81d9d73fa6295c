//! PostgreSQL's protocol 3.0: a front that takes simple queries from bytes in any pieces, and answers them with messages.
#![tactic(auto)]

mod found;
mod front;
mod laws;
mod limits;
mod message;
mod queue;
mod reader;
mod reply;
mod rows;
mod said;

pub use front::PgFront;
pub use limits::{
    BARE_START_LENGTH, CANCEL_CODE, ENCRYPT_CODE, EXTENDED_CODE, GSS_CODE, MAX_MESSAGE_LENGTH,
    MAX_START_LENGTH, MIN_START_LENGTH, PROTOCOL_CODE,
};

#[cfg(test)]
mod tests;
