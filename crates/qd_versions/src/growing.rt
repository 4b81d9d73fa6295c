//! Blocks that grow: rows are written behind those that their files hold.
ghost use Rattle.qd_column_files.specs.Growing.{GrowsBlock};
ghost use Rattle.qd_durable.specs.Moments.{Told};
ghost use Rattle.qd_io.specs.Ends.{Counts};
ghost use Rattle.qd_versions.specs.Tails.{GrowsBlocks, IsFit, blocks_growing};
ghost use Rattle.std.specs.Arc.{arc_value};
ghost use Rattle.std.specs.List.{IsDistinct};
ghost use Rattle.std.specs.Prelude.{◌≡◌, ◌^◌, ◌<◌, ◌≤◌, length, nat_eq, All};

use qd_block::Block;
use qd_column_files::{BlockTail, grow_block};
use qd_io::IoFault;
use qd_symbols::SymbolMap;
use qd_volume::Volume;
use std::alloc::Global;
use std::sync::Arc;

/// A block that grows.
#[derive(Drop)]
pub(crate) struct Growing {
    /// Its number.
    pub(crate) block: u64,
    /// What rows behind its own go on with.
    pub(crate) tail: BlockTail,
    /// The rows that go there.
    pub(crate) rows: Arc<Block<SymbolMap>>,
}

/// Writes rows behind those of blocks, of which each is another one.
pub(crate) fn grow_blocks<V: Volume>(
    alloc: Global,
    volume: &mut V,
    growing: &mut [Growing],
) -> Result<(), IoFault>
    requires fit { All (IsFit (2 ^ 52)) growing.old }
    requires apart { IsDistinct nat_eq (blocks_growing growing.old) }
    ensures told { Told (V.storage volume.old).disk (V.storage volume.new).disk (GrowsBlocks result growing.old growing.new) }
    ensures counted { Counts (V.storage volume.old).faults (V.storage volume.new).faults result }
{
    for i in 0..growing.len() {
        grow(alloc, volume, &mut growing[i])?;
    }
    Ok(())
}

/// Writes rows behind those of a block.
fn grow<V: Volume>(alloc: Global, volume: &mut V, x: &mut Growing) -> Result<(), IoFault>
    requires block { x.old.block < 2 ^ 52 }
    requires columns { length x.old.tail.columns ≡ length (arc_value x.old.rows).kinds }
    ensures block { x.new.block ≡ x.old.block }
    ensures told { Told (V.storage volume.old).disk (V.storage volume.new).disk (GrowsBlock result x.old.block x.old.tail x.new.tail (arc_value x.old.rows)) }
    ensures counted { Counts (V.storage volume.old).faults (V.storage volume.new).faults result }
{
    grow_block(alloc, volume, x.block, &mut x.tail, &x.rows)
}
