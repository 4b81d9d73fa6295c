//! The text of a moment.
ghost use Rattle.std.specs.Prelude.{◌≡◌, ◌+◌, ◌%◌, ◌≤◌, ◌<◌, ◌^◌};
ghost use Rattle.qd_time.specs.Printed.{digits, time_text};

use crate::calendar::{DAY, HOUR, MINUTE, SECOND, date_of_day};
use qd_base::MAX_TIME;

/// The moment as text, as `2024-01-01T00:00:00.000000Z`: the extended format of ISO 8601 with six
/// digits of a second, in UTC.
///
/// `ts` is in microseconds since 1970-01-01T00:00:00Z. Takes constant time and no memory.
pub fn print_time(ts: u64) -> [u8; 27]
    requires { ts ≤ MAX_TIME }
    ensures { result ≡ time_text ts }
{
    let date = date_of_day(ts / DAY);
    let [y3, y2, y1, y0] = four_digits(date.year as u16);
    let [m1, m0] = two_digits(date.month);
    let [d1, d0] = two_digits(date.day);
    let [h1, h0] = two_digits((ts % DAY / HOUR) as u8);
    let [n1, n0] = two_digits((ts % HOUR / MINUTE) as u8);
    let [s1, s0] = two_digits((ts % MINUTE / SECOND) as u8);
    let [u5, u4, u3, u2, u1, u0] = six_digits((ts % SECOND) as u32);
    [
        y3, y2, y1, y0, b'-', m1, m0, b'-', d1, d0, b'T', h1, h0, b':', n1, n0, b':', s1, s0, b'.',
        u5, u4, u3, u2, u1, u0, b'Z',
    ]
}

/// The last four decimal digits of a number.
fn four_digits(n: u16) -> [u8; 4]
    requires { n < 10 ^ 4 }
    ensures { result ≡ digits 4 n }
{
    let n = n as u32;
    [digit(n / 1000), digit(n / 100), digit(n / 10), digit(n)]
}

/// The last two decimal digits of a number.
fn two_digits(n: u8) -> [u8; 2]
    requires { n < 100 }
    ensures { result ≡ digits 2 n }
{
    let n = n as u32;
    [digit(n / 10), digit(n)]
}

/// The last six decimal digits of a number.
fn six_digits(n: u32) -> [u8; 6]
    requires { n < 10 ^ 6 }
    ensures { result ≡ digits 6 n }
{
    [
        digit(n / 100_000),
        digit(n / 10_000),
        digit(n / 1000),
        digit(n / 100),
        digit(n / 10),
        digit(n),
    ]
}

/// The last decimal digit of a number.
fn digit(n: u32) -> u8
    ensures { result ≡ 48 + n % 10 }
{
    b'0' + (n % 10) as u8
}
