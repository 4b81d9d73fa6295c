//! The grammar of SQL as a relation between lists of tokens and statements, and what holds of it: `parse_stmt` reads
//! exactly its statements, and refuses a text at the first token with which no statement begins.
#![tactic(auto)]

mod laws;

pub use laws::{grammar_decides, inserts_are_short, places_are_exact};
