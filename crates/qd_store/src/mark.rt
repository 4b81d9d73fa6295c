//! The mark of a store.
ghost use Rattle.qd_durable.specs.Moments.{Told};
ghost use Rattle.qd_io.specs.Ends.{Counts};
ghost use Rattle.qd_store.specs.Marks.{IsLooked, Marks};
ghost use Rattle.qd_volume.specs.Disk.{reads_of};
ghost use Rattle.std.specs.Prelude.{◌≡◌, IfOk, IfSome};

use qd_durable::write_through;
use qd_io::IoFault;
use qd_volume::Volume;

/// The number of the file that holds the mark.
pub(crate) const MARK: u64 = 0;

/// The first byte of the mark of a store that is made.
const MADE: u8 = 1;

/// Whether the mark says that the volume holds a store. It costs one read.
pub(crate) fn is_marked<V: Volume>(volume: &mut V) -> Result<bool, IoFault>
    ensures told { IfOk result (λ made. IfSome (V.storage volume.old).disk (λ disk. IsLooked made (reads_of disk))) }
    ensures stays { (V.storage volume.new).disk ≡ (V.storage volume.old).disk }
    ensures counted { Counts (V.storage volume.old).faults (V.storage volume.new).faults result }
{
    let mut mark = [0; 1];
    let n = volume.read(MARK, 0, &mut mark)?;
    Ok(n == 1 && mark[0] == MADE)
}

/// Writes the mark, and waits until it is on the disk: one write and one sync.
pub(crate) fn write_mark<V: Volume>(volume: &mut V) -> Result<(), IoFault>
    ensures told { Told (V.storage volume.old).disk (V.storage volume.new).disk (Marks result) }
    ensures counted { Counts (V.storage volume.old).faults (V.storage volume.new).faults result }
{
    write_through(volume, MARK, 0, &[MADE])
}
