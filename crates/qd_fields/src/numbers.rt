//! Whole numbers, the lowest byte first.
ghost use Rattle.std.specs.Prelude.{◌≡◌, ◌++◌, length, OnOk};
ghost use Rattle.std.specs.Int.{w16, w32, w64};
ghost use Rattle.qd_fields.specs.declared.stop.Stop.TheVariants as stop;
ghost use Rattle.qd_fields.specs.Spelling.{u16_bytes, u32_bytes, u64_bytes};
ghost use Rattle.qd_fields.specs.Layout.{number_at, byte_at};
ghost use Rattle.qd_fields.specs.Reading.{Gives};

use crate::stop::Stop;
use qd_base::Memory;

/// Damage at the first of these bytes.
pub fn damage(bytes: &[u8]) -> Stop
    ensures damage { result ≡ stop.Damage (length bytes.now) }
{
    Stop::Damage { left: bytes.len() }
}

/// Reads a number in one byte, and gives the bytes behind it. Damage is where it is missing.
pub fn byte_at(bytes: &[u8]) -> Result<(u8, &[u8]), Stop>
    ensures read { Gives (λ x. (x.0, x.1.now)) result (byte_at bytes.now) }
{
    match bytes {
        [] => Err(Stop::Damage { left: 0 }),
        [byte, rest @ ..] => Ok((*byte, rest)),
    }
}

/// Reads a number in two bytes, and gives the bytes behind it. Damage is where bytes are missing.
pub fn u16_at(bytes: &[u8]) -> Result<(u16, &[u8]), Stop>
    ensures read { Gives (λ x. (x.0, x.1.now)) result (number_at w16 bytes.now) }
{
    if bytes.len() < 2 {
        return Err(Stop::Damage { left: 0 });
    }
    let (front, rest) = bytes.split_at(2);
    let number = u16::from_le_bytes([front[0], front[1]]);
    Ok((number, rest))
}

/// Reads a number in four bytes, and gives the bytes behind it. Damage is where bytes are missing.
pub fn u32_at(bytes: &[u8]) -> Result<(u32, &[u8]), Stop>
    ensures read { Gives (λ x. (x.0, x.1.now)) result (number_at w32 bytes.now) }
{
    if bytes.len() < 4 {
        return Err(Stop::Damage { left: 0 });
    }
    let (front, rest) = bytes.split_at(4);
    let number = u32::from_le_bytes([front[0], front[1], front[2], front[3]]);
    Ok((number, rest))
}

/// Reads a number in eight bytes, and gives the bytes behind it. Damage is where bytes are missing.
pub fn u64_at(bytes: &[u8]) -> Result<(u64, &[u8]), Stop>
    ensures read { Gives (λ x. (x.0, x.1.now)) result (number_at w64 bytes.now) }
{
    if bytes.len() < 8 {
        return Err(Stop::Damage { left: 0 });
    }
    let (front, rest) = bytes.split_at(8);
    let number = u64::from_le_bytes([
        front[0], front[1], front[2], front[3], front[4], front[5], front[6], front[7],
    ]);
    Ok((number, rest))
}

/// Adds a number in two bytes.
pub fn push_u16(bytes: &mut Vec<u8>, number: u16) -> Result<(), Memory>
    ensures bytes { OnOk result (bytes.new.items ≡ bytes.old.items ++ u16_bytes number) }
{
    bytes.extend_from_slice(&number.to_le_bytes())
}

/// Adds a number in four bytes.
pub fn push_u32(bytes: &mut Vec<u8>, number: u32) -> Result<(), Memory>
    ensures bytes { OnOk result (bytes.new.items ≡ bytes.old.items ++ u32_bytes number) }
{
    bytes.extend_from_slice(&number.to_le_bytes())
}

/// Adds a number in eight bytes.
pub fn push_u64(bytes: &mut Vec<u8>, number: u64) -> Result<(), Memory>
    ensures bytes { OnOk result (bytes.new.items ≡ bytes.old.items ++ u64_bytes number) }
{
    bytes.extend_from_slice(&number.to_le_bytes())
}
