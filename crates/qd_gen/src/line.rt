//! One line of the generated input, and its length.
ghost use Rattle.std.specs.Prelude.{◌≡◌, ◌+◌, ◌*◌, ◌/◌, ◌%◌, ◌≤◌, ◌++◌, decimal, length, OnOk};
ghost use Rattle.qd_gen.specs.Generated.{line};

use itoa::Buffer;
use qd_base::Memory;

/// The greatest length of a line.
pub(super) const LINE_BYTES: u64 = 42;

/// The first moment of 2024 in tens of seconds since 1970. Each line's time is a whole number of these.
const FIRST_TENS: u64 = 170_406_720;

/// Tens of seconds as nanoseconds, behind their digits; and the end of the line.
const NANOS_AND_END: &[u8] = b"0000000000\n";

/// Appends line `i`.
pub(super) fn push_line(out: &mut Vec<u8>, number: u32, i: u32) -> Result<(), Memory>
    ensures { OnOk result (out.new.items ≡ out.old.items ++ line number i) }
{
    out.extend_from_slice(b"gen,sensor=s")?;
    push_number(out, u64::from(i % 3))?;
    out.extend_from_slice(b" v=")?;
    push_number(out, value_of(number, i))?;
    out.extend_from_slice(b"i ")?;
    push_number(out, tens_of(i))?;
    out.extend_from_slice(NANOS_AND_END)?;
    Ok(())
}

/// The number of bytes of line `i`, in constant time.
pub(super) fn line_len(number: u32, i: u32) -> u64
    ensures length { result ≡ length (line number i) }
    ensures short { result ≤ LINE_BYTES }
{
    18 + decimal_len(value_of(number, i)) + decimal_len(tens_of(i)) + NANOS_AND_END.len() as u64
}

/// The value of line `i`.
fn value_of(number: u32, i: u32) -> u64
    ensures { result ≡ (number + 7 * i) % 1000 }
{
    (u64::from(number) + 7 * u64::from(i)) % 1000
}

/// The time of line `i`, in tens of seconds since 1970.
fn tens_of(i: u32) -> u64
    ensures { result ≡ FIRST_TENS + 3 * (i / 3) }
{
    FIRST_TENS + 3 * u64::from(i / 3)
}

/// The number of digits of a number.
fn decimal_len(n: u64) -> u64
    ensures length { result ≡ length (decimal n) }
    ensures short { result ≤ 20 }
{
    match n.checked_ilog10() {
        Some(power) => power as u64 + 1,
        None => 1,
    }
}

/// Appends a number in decimal.
pub(super) fn push_number(out: &mut Vec<u8>, n: u64) -> Result<(), Memory>
    ensures { OnOk result (out.new.items ≡ out.old.items ++ decimal n) }
{
    out.extend_from_slice(Buffer::new().format(n).as_bytes())
}
