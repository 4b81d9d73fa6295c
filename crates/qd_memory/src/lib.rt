//! A store in memory, for tests of the layers above: a backend over one list of transactions, and a source of parts.
//!
//! `specs/Listed` says what the backend shows and how it answers; its rule is that of a backend whose one session alone
//! applies, `AllowedAlone` of `qd_session`. `specs/Kept` says which parts are kept and which database they come to: for
//! each table one part per partition that has rows.
#![tactic(auto)]

mod back;
mod merging;
mod parts;
mod schemas;
mod shared;
mod slots;
mod table;
mod tables;
#[cfg(test)]
mod tests;

pub use back::ListBack;
pub use parts::ListParts;
