//! Entries of the write-ahead log: transactions as bytes and back.
//!
//! `specs/Spelling` says which transactions have a spelling, and the bytes of each; `specs/Layout` says where bytes that spell
//! none are damaged.
#![tactic(auto)]

mod draft;
mod encode;
mod fault;
pub mod laws;
mod pieces;
mod read;
mod reader;
mod recent;
mod texts;
mod writer;

pub use encode::encode_entry;
pub use fault::EntryFault;
pub use pieces::{EntryCell, OpHead};
pub use read::decode_entry;
pub use reader::EntryReader;
pub use writer::EntryWriter;
