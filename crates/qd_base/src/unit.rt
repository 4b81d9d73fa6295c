//! Units of time.

/// A unit of time, with the letter that stands for it in a stride, as QuestDB's documentation of SAMPLE BY has them.
/// A month and a year are as long as the calendar has them.
#[derive(Clone, Copy, Debug, PartialEq, Eq)]
pub enum TimeUnit {
    /// `U`: one microsecond.
    Micro,
    /// `T`: 1,000 microseconds.
    Milli,
    /// `s`: 1,000,000 microseconds.
    Second,
    /// `m`: 60 seconds.
    Minute,
    /// `h`: 60 minutes.
    Hour,
    /// `d`: 24 hours, as there are no leap seconds and no time zones.
    Day,
    /// `M`: a month of the calendar.
    Month,
    /// `y`: a year of the calendar.
    Year,
}
