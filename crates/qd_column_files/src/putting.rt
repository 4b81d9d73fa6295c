//! Blocks put into their files.
ghost use Rattle.qd_block.specs.Blocks.{column_in};
ghost use Rattle.qd_durable.specs.Moments.{Told};
ghost use Rattle.qd_column_files.specs.Calls.{PutsBlock, PutsColumn};
ghost use Rattle.qd_io.specs.Ends.{Counts};
ghost use Rattle.std.specs.Prelude.{◌^◌, ◌<◌, length};

use crate::files::{column_file, put_file};
use qd_base::Dictionary;
use qd_block::Block;
use qd_column_format::{AUX, MAIN, encode_column};
use qd_io::IoFault;
use qd_volume::Volume;
use std::alloc::Global;

/// Writes each column of a block into its files, from their start on, and waits until they are on the disk: one write
/// and one sync for a main file, and for a second file that has bytes. It costs time linear in the block's bytes, and
/// memory for those of one column at a time.
///
/// At every moment, and whatever it answers, a crash leaves all files but the block's as they were. After an `Ok` it
/// leaves the block. After an `Err` the block's files may have any bytes; want of memory for a column's bytes comes
/// before the first write of that column.
pub fn put_block<V: Volume, D: Dictionary>(
    alloc: Global,
    volume: &mut V,
    block: u64,
    of: &Block<D>,
) -> Result<(), IoFault>
    requires block { block < 2 ^ 52 }
    ensures told { Told (V.storage volume.old).disk (V.storage volume.new).disk (PutsBlock result block of.now) }

    // The count of faults rises exactly where `Failed` is answered.
    ensures counted { Counts (V.storage volume.old).faults (V.storage volume.new).faults result }
{
    of.is_whole();
    for col in 0..of.cols() {
        put_column(alloc, volume, block, of, col)?;
    }
    Ok(())
}

/// Writes one column of a block into its files.
fn put_column<V: Volume, D: Dictionary>(
    alloc: Global,
    volume: &mut V,
    block: u64,
    of: &Block<D>,
    col: u32,
) -> Result<(), IoFault>
    requires block { block < 2 ^ 52 }
    requires there { col < length of.now.kinds }
    requires few { col < 512 }
    ensures told { Told (V.storage volume.old).disk (V.storage volume.new).disk (PutsColumn result block col (column_in of.now col)) }
    ensures counted { Counts (V.storage volume.old).faults (V.storage volume.new).faults result }
{
    let bytes = encode_column(alloc, of, col, 0)?;
    put_file(volume, column_file(block, col, MAIN), 0, bytes.main.bytes())?;
    if bytes.aux.bytes().is_empty() {
        return Ok(());
    }
    put_file(volume, column_file(block, col, AUX), 0, bytes.aux.bytes())
}
