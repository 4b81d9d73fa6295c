//! The limits of a scoreboard's words.

/// A version's number is less than this: 2^58. So the number and a row fit one word.
pub const VERSIONS_END: u64 = 288_230_376_151_711_744;
