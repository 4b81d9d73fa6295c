//! Stored columns, format 1: rows of a block as the bytes of two files for each column, and back.
//!
//! `specs/Spelling` says which bytes spell a column, `specs/Damage` where bytes that spell none are damaged.
#![tactic(auto)]

mod block;
mod decode;
mod dictionary;
mod encode;
mod fault;
pub mod laws;
mod numbers;
mod rest;
mod tail;
mod words;

pub use block::{ColumnList, from_columns};
pub use decode::decode_column;
pub use dictionary::{encode_from, load};
pub use encode::{ColumnBytes, encode_column};
pub use fault::{AUX, BlockFault, ColumnFault, LoadFault, MAIN};
pub use rest::{decode_rest, text_end};
pub use tail::Tail;
