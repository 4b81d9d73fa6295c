//! Numbers of 8 bytes, moved many at a time.
ghost use Rattle.std.specs.Prelude.{◌≡◌, ◌*◌, ◌^◌, ◌<◌, ◌≤◌, ◌++◌, length, drop, All, IfOk, FitsSigned};
ghost use Rattle.std.specs.List.{flat_map};
ghost use Rattle.std.specs.Int.{cast_unsigned, w64};
ghost use Rattle.byteorder.specs.Endian.{little_bytes};

use byteorder::{ByteOrder, LittleEndian};
use qd_base::Memory;
use std::alloc::Global;

/// The bytes of unsigned numbers.
pub(crate) fn bytes_of_words(alloc: Global, numbers: &[u64]) -> Result<Vec<u8>, Memory>
    ensures bytes { IfOk result (λ v. v.items ≡ flat_map (little_bytes 8) numbers.now) }
{
    let mut bytes = Vec::from_elem(alloc, 0u8, 8 * numbers.len())?;
    LittleEndian::write_u64_into(numbers, bytes.as_mut_slice());
    Ok(bytes)
}

/// The bytes of signed numbers, in two's complement.
pub(crate) fn bytes_of_longs(alloc: Global, numbers: &[i64]) -> Result<Vec<u8>, Memory>
    ensures bytes { IfOk result (λ v. v.items ≡ flat_map (λ z. little_bytes 8 (cast_unsigned w64 z)) numbers.now) }
{
    let mut bytes = Vec::from_elem(alloc, 0u8, 8 * numbers.len())?;
    LittleEndian::write_i64_into(numbers, bytes.as_mut_slice());
    Ok(bytes)
}

/// The first unsigned numbers that bytes hold.
pub(crate) fn words_in(alloc: Global, count: usize, bytes: &[u8]) -> Result<Vec<u64>, Memory>
    requires there { 8 * count ≤ length bytes.now }
    ensures count { IfOk result (λ v. length v.items ≡ count) }
    ensures fit { IfOk result (λ v. All (λ n. n < 2 ^ 64) v.items) }
    ensures bytes { IfOk result (λ v. bytes.now ≡ flat_map (little_bytes 8) v.items ++ drop (8 * count) bytes.now) }
{
    let mut numbers = Vec::from_elem(alloc, 0u64, count)?;
    LittleEndian::read_u64_into(&bytes[..8 * count], numbers.as_mut_slice());
    Ok(numbers)
}

/// The first signed numbers that bytes hold, in two's complement.
pub(crate) fn longs_in(alloc: Global, count: usize, bytes: &[u8]) -> Result<Vec<i64>, Memory>
    requires there { 8 * count ≤ length bytes.now }
    ensures count { IfOk result (λ v. length v.items ≡ count) }
    ensures fit { IfOk result (λ v. All (FitsSigned w64) v.items) }
    ensures bytes { IfOk result (λ v. bytes.now ≡ flat_map (λ z. little_bytes 8 (cast_unsigned w64 z)) v.items ++ drop (8 * count) bytes.now) }
{
    let mut numbers = Vec::from_elem(alloc, 0i64, count)?;
    LittleEndian::read_i64_into(&bytes[..8 * count], numbers.as_mut_slice());
    Ok(numbers)
}

/// Tells that numbers are of 64 bits. It costs nothing: what it reads is not used.
pub(crate) fn are_longs(numbers: &[i64])
    ensures fit { All (FitsSigned w64) numbers.now }
{
    for i in 0..numbers.len() {
        let _number = numbers[i];
    }
}
