//! Blocks removed.
ghost use Rattle.qd_durable.specs.Moments.{Told};
ghost use Rattle.qd_column_files.specs.Calls.{RemovesBlock, RemovesColumn};
ghost use Rattle.qd_io.specs.Ends.{Counts};
ghost use Rattle.std.specs.Prelude.{◌^◌, ◌<◌};

use crate::files::column_file;
use qd_base::MAX_COLUMNS;
use qd_column_format::{AUX, MAIN};
use qd_io::IoFault;
use qd_volume::Volume;

/// Removes each file that a column of a block may have: two calls for each of 256 columns. It takes no memory, and
/// waits for no disk.
///
/// At every moment, and whatever it answers, a crash leaves all files but the block's as they were, and they read as
/// they did. After an `Ok` the block's files read as empty; a crash may still leave what they had. After an `Err` some
/// of them may be removed, and the call may be made again.
pub fn remove_block<V: Volume>(volume: &mut V, block: u64) -> Result<(), IoFault>
    requires block { block < 2 ^ 52 }
    ensures told { Told (V.storage volume.old).disk (V.storage volume.new).disk (RemovesBlock result block) }

    // The count of faults rises exactly where `Failed` is answered.
    ensures counted { Counts (V.storage volume.old).faults (V.storage volume.new).faults result }
{
    for col in 0..MAX_COLUMNS as u32 {
        remove_column(volume, block, col)?;
    }
    Ok(())
}

/// Removes the two files of a column of a block.
fn remove_column<V: Volume>(volume: &mut V, block: u64, col: u32) -> Result<(), IoFault>
    requires block { block < 2 ^ 52 }
    requires col { col < 512 }
    ensures told { Told (V.storage volume.old).disk (V.storage volume.new).disk (RemovesColumn result block col) }
    ensures counted { Counts (V.storage volume.old).faults (V.storage volume.new).faults result }
{
    volume.remove(column_file(block, col, MAIN))?;
    volume.remove(column_file(block, col, AUX))
}
