//! Dictionaries of symbols: the distinct texts of a SYMBOL column, each known by its position.
#![tactic(auto)]

mod map;

pub use map::SymbolMap;
