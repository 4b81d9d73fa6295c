//! A version written with its new blocks, by the root alone.
ghost use Rattle.qd_durable.specs.Moments.{Told};
ghost use Rattle.qd_io.specs.Ends.{Counts};
ghost use Rattle.qd_txnfile.specs.declared.half.Other.TheVariants as other;
ghost use Rattle.qd_txnfile.specs.States.{IsDirty, with_other};
ghost use Rattle.qd_versions.specs.Publishing.{AreNumbered};
ghost use Rattle.qd_versions.specs.Faults.{CountsPublish};
ghost use Rattle.qd_versions.specs.Tails.{IsFit, blocks_growing};
ghost use Rattle.qd_versions.specs.Writing.{Clears, IsLate, IsNarrow, LaysDown, PutsBeside, PutsBlocks, PutsFiles};
ghost use Rattle.std.specs.List.{IsDistinct};
ghost use Rattle.std.specs.Prelude.{◌≡◌, ◌+◌, ◌^◌, ◌<◌, ◌≤◌, length, nat_eq, All, IfErr, OnErr, OnOk};

use crate::fault::PublishFault;
use crate::growing::{Growing, grow_blocks};
use crate::published::NewBlock;
use crate::undoing::give_up;
use qd_column_files::{put_block, remove_block};
use qd_io::IoFault;
use qd_txnfile::TxnFile;
use qd_volume::Volume;
use std::alloc::Global;

/// Puts the files of new blocks, which are numbered upwards.
fn put_blocks<V: Volume>(
    alloc: Global,
    volume: &mut V,
    next: u64,
    blocks: &[NewBlock],
) -> Result<(), IoFault>
    requires numbered { AreNumbered next blocks.now }
    requires small { next + length blocks.now ≤ 2 ^ 52 }
    ensures few { OnOk result (All IsNarrow blocks.now) }
    ensures told { Told (V.storage volume.old).disk (V.storage volume.new).disk (PutsBlocks result next blocks.now) }
    ensures counted { Counts (V.storage volume.old).faults (V.storage volume.new).faults result }
{
    for added in blocks {
        added.of.is_whole();
        put_block(alloc, volume, added.block, &added.of)?;
    }
    Ok(())
}

/// Puts the files of new blocks, and rows behind those of older ones.
fn put_files<V: Volume>(
    alloc: Global,
    volume: &mut V,
    next: u64,
    blocks: &[NewBlock],
    growing: &mut [Growing],
) -> Result<(), IoFault>
    requires numbered { AreNumbered next blocks.now }
    requires small { next + length blocks.now ≤ 2 ^ 52 }
    requires fit { All (IsFit next) growing.old }
    requires apart { IsDistinct nat_eq (blocks_growing growing.old) }
    ensures few { OnOk result (All IsNarrow blocks.now) }
    ensures told { Told (V.storage volume.old).disk (V.storage volume.new).disk (PutsFiles result next blocks.now growing.old growing.new) }
    ensures counted { Counts (V.storage volume.old).faults (V.storage volume.new).faults result }
{
    put_blocks(alloc, volume, next, blocks)?;
    grow_blocks(alloc, volume, growing)
}

/// Puts the files of new blocks and rows behind those of older ones, and writes a version beside the current one.
fn put_beside<V: Volume>(
    root: &mut TxnFile,
    alloc: Global,
    volume: &mut V,
    n: u64,
    manifest: &[u8],
    next: u64,
    blocks: &[NewBlock],
    growing: &mut [Growing],
) -> Result<(), IoFault>
    requires newer { root.old.n < n }
    requires clean { IsDirty root.old.other → ⊥ }
    requires numbered { AreNumbered next blocks.now }
    requires small { next + length blocks.now ≤ 2 ^ 52 }
    requires fit { All (IsFit next) growing.old }
    requires apart { IsDistinct nat_eq (blocks_growing growing.old) }
    ensures few { OnOk result (All IsNarrow blocks.now) }
    ensures written { OnOk result (root.new ≡ with_other root.old (other.Written n)) }
    ensures clean { IsDirty root.new.other → ⊥ }
    ensures number { root.new.n ≡ root.old.n }
    ensures told { Told (V.storage volume.old).disk (V.storage volume.new).disk (PutsBeside result root.old root.new next (record { n = n; manifest = manifest.now }) blocks.now growing.old growing.new) }
    ensures counted { Counts (V.storage volume.old).faults (V.storage volume.new).faults result }
{
    put_files(alloc, volume, next, blocks, growing)?;
    root.write_body(volume, n, manifest)
}

/// Closes the gate that a failed publication may have left open, puts the files of new blocks and rows behind those of
/// older ones, and writes the version and makes it the current one. Where that fails before the flip, the files of new
/// blocks are removed.
pub(crate) fn lay_down<V: Volume>(
    root: &mut TxnFile,
    alloc: Global,
    volume: &mut V,
    n: u64,
    manifest: &[u8],
    next: u64,
    blocks: &[NewBlock],
    growing: &mut [Growing],
) -> Result<(), PublishFault>
    requires newer { root.old.n < n }
    requires numbered { AreNumbered next blocks.now }
    requires small { next + length blocks.now ≤ 2 ^ 52 }
    requires fit { All (IsFit next) growing.old }
    requires apart { IsDistinct nat_eq (blocks_growing growing.old) }
    ensures turned { OnOk result (root.new.n ≡ n) }
    ensures stays { OnErr result (root.new.n ≡ root.old.n) }
    ensures late { IfErr result IsLate }
    ensures told { Told (V.storage volume.old).disk (V.storage volume.new).disk (LaysDown result root.old root.new next (record { n = n; manifest = manifest.now }) blocks.now growing.old growing.new) }
    ensures counted { CountsPublish (V.storage volume.old).faults (V.storage volume.new).faults result }
{
    root.repair(volume)?;
    if let Err(cause) = put_beside(root, alloc, volume, n, manifest, next, blocks, growing) {
        return Err(give_up(volume, next, blocks, cause));
    }
    root.flip(volume)?;
    Ok(())
}

/// Closes the gate that a failed publication may have left open, and removes the files of a block.
pub(crate) fn clear<V: Volume>(
    root: &mut TxnFile,
    volume: &mut V,
    block: u64,
) -> Result<(), IoFault>
    requires block { block < 2 ^ 52 }
    ensures clean { OnOk result (IsDirty root.new.other → ⊥) }
    ensures number { root.new.n ≡ root.old.n }
    ensures told { Told (V.storage volume.old).disk (V.storage volume.new).disk (Clears result root.old root.new block) }
    ensures counted { Counts (V.storage volume.old).faults (V.storage volume.new).faults result }
{
    root.repair(volume)?;
    remove_block(volume, block)
}
