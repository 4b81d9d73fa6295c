//! Bytes written over a range of a file and waited for.
ghost use Rattle.qd_durable.specs.Moments.{Told};
ghost use Rattle.qd_durable.specs.Writing.{Overwrites};
ghost use Rattle.qd_io.specs.Ends.{Counts};
ghost use Rattle.std.specs.Prelude.{◌+◌, ◌++◌, ◌^◌, ◌<◌, length};

use qd_io::IoFault;
use qd_volume::Volume;

/// Writes bytes over those of a file from a place on and waits until they are on the disk: one write and one sync.
///
/// At any moment of it, and after an `Err`, a crash may leave any bytes in their range, or behind the end that the file had
/// before. After an `Ok` it leaves the bytes. Everything else is as before.
pub fn write_through<V: Volume>(
    volume: &mut V,
    file: u64,
    at: u64,
    bytes: &[u8],
) -> Result<(), IoFault>
    ensures told { Told (V.storage volume.old).disk (V.storage volume.new).disk (Overwrites result file at bytes.now) }

    // The count of faults rises exactly where `Failed` is answered.
    ensures counted { Counts (V.storage volume.old).faults (V.storage volume.new).faults result }
{
    volume.write_at(file, at, bytes)?;
    volume.sync(file)
}

/// Writes two pieces one behind the other, as [`write_through`] writes one: two writes and one sync, and no memory to join
/// them.
pub fn write_both<V: Volume>(
    volume: &mut V,
    file: u64,
    at: u64,
    front: &[u8],
    back: &[u8],
) -> Result<(), IoFault>
    requires room { at + length front.now < 2 ^ 64 }
    ensures told { Told (V.storage volume.old).disk (V.storage volume.new).disk (Overwrites result file at (front.now ++ back.now)) }

    // The count of faults rises exactly where `Failed` is answered.
    ensures counted { Counts (V.storage volume.old).faults (V.storage volume.new).faults result }
{
    volume.write_at(file, at, front)?;
    volume.write_at(file, at + front.len() as u64, back)?;
    volume.sync(file)
}
