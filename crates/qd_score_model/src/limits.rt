//! The limits of a scoreboard.

/// How many rows a scoreboard has. So many versions are live at once, at most.
pub const ROWS: u64 = 64;

/// How many seats are split off at once, at most, of the first one and of those that come of it: 2^61.
pub const MAX_SPLITS: u64 = 2_305_843_009_213_693_952;

/// A row has fewer pins than this: 2^62. So twice as many, and one more, fit a word.
pub const PINS_END: u64 = 4_611_686_018_427_387_904;
