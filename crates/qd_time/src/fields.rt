//! The parts of a moment as a text gives them.
ghost use Rattle.std.specs.Prelude.{◌≡◌, ◌↔◌, ◌<◌, ◌^◌, IsTrue};

use crate::calendar::{DAY, HOUR, MINUTE, SECOND, day_number};
use crate::fault::TimeFault;
use jiff_core::civil;

/// What a text says of the calendar and the clock. The parts that it leaves out are at their least.
#[derive(Clone, Copy)]
pub(crate) struct Fields {
    pub(crate) year: u16,
    pub(crate) month: u8,
    pub(crate) day: u8,
    pub(crate) hour: u8,
    pub(crate) minute: u8,
    pub(crate) second: u8,
    pub(crate) micro: u32,
}

impl Fields {
    ghost use Rattle.qd_time.specs.Fields.{civil_fields, TimestampOf};
    ghost use Rattle.qd_time.specs.Spelled.{IsCivil};

    /// The timestamp at which the calendar and the clock show this.
    pub(crate) fn timestamp(self) -> Result<u64, TimeFault>
        requires year_high { self.year < 10 ^ 4 }
        requires micro_high { self.micro < 10 ^ 6 }
        ensures { TimestampOf (civil_fields self) result }
    {
        if !self.is_civil() {
            return Err(TimeFault::Form);
        }
        if self.year < 1970 {
            return Err(TimeFault::Range);
        }
        Ok(
            day_number(self.year, self.month, self.day) * DAY
                + self.hour as u64 * HOUR
                + self.minute as u64 * MINUTE
                + self.second as u64 * SECOND
                + self.micro as u64,
        )
    }

    /// Whether the calendar and the clock have this.
    fn is_civil(self) -> bool
        requires year_high { self.year < 10 ^ 4 }
        requires micro_high { self.micro < 10 ^ 6 }
        ensures { IsTrue result ↔ IsCivil (civil_fields self) }
    {
        self.month >= 1
            && self.month <= 12
            && self.day >= 1
            && self.day <= civil::days_in_month(self.year as i16, self.month)
            && self.hour < 24
            && self.minute < 60
            && self.second < 60
    }
}
