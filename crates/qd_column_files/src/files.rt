//! Files of columns, and bytes put into them.
ghost use Rattle.qd_durable.specs.Moments.{Told};
ghost use Rattle.qd_column_files.specs.Calls.{PutsFile};
ghost use Rattle.qd_column_files.specs.Files.{column_file};
ghost use Rattle.qd_io.specs.Ends.{Counts};
ghost use Rattle.qd_volume.specs.Disk.{reads_of};
ghost use Rattle.std.specs.Prelude.{◌≡◌, ◌^◌, ◌<◌, ◌≤◌, length, IfSome};

use qd_durable::write_through;
use qd_io::IoFault;
use qd_volume::Volume;

/// The number of a file of a column of a block: half 0 is its main file, 1 the second one.
pub fn column_file(block: u64, col: u32, half: u8) -> u64
    requires block { block < 2 ^ 52 }
    requires col { col < 512 }
    requires half { half < 2 }
    ensures number { result ≡ column_file block col half }
{
    (1 << 62) + (block << 10) + 2 * col as u64 + half as u64
}

/// Writes bytes into a file from a place on, and waits until they are on the disk: one write and one sync. The place
/// is at most the file's end.
///
/// At every moment, and whatever it answers, a crash leaves all other files as they were, and this one below the
/// place. After an `Ok` it leaves the bytes too. After an `Err` there may be any bytes from the place on, and the
/// call may be made again.
pub fn put_file<V: Volume>(volume: &mut V, file: u64, at: u64, bytes: &[u8]) -> Result<(), IoFault>
    requires reach { IfSome (V.storage volume.old).disk (λ disk. at ≤ length (reads_of disk file)) }
    ensures told { Told (V.storage volume.old).disk (V.storage volume.new).disk (PutsFile result file at bytes.now) }

    // The count of faults rises exactly where `Failed` is answered.
    ensures counted { Counts (V.storage volume.old).faults (V.storage volume.new).faults result }
{
    write_through(volume, file, at, bytes)
}
