//! Why a text gives no moment.
use thiserror::Error;

/// Why a text is no moment and no interval. Nothing is kept of the text.
#[derive(Clone, Copy, Debug, PartialEq, Eq, Error)]
pub enum TimeFault {
    /// The text isn't of the forms, or names no month, day, hour, minute or second of the calendar.
    #[error("not a time of the calendar")]
    Form,
    /// The text is of the forms, but its year is below 1970, or its suffix counts above 1,000,000.
    #[error("a time or a length out of range")]
    Range,
}
