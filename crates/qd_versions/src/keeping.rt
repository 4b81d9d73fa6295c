//! What rows behind those of blocks go on with, kept from one publication to the next.
ghost use Rattle.qd_base.specs.Lawful.{IsSchema};
ghost use Rattle.qd_durable.specs.Faults.{CountsVol};
ghost use Rattle.qd_manifest.specs.Spelling.{IsPart};
ghost use Rattle.qd_versions.specs.Stores.{AreFew};
ghost use Rattle.qd_versions.specs.Tails.{IsLeft, IsTailFound, IsTailOfPart, blocks_growing, tails_in};
ghost use Rattle.qd_volume.specs.Disk.{reads_of};
ghost use Rattle.std.specs.Prelude.{◌≡◌, ◌⊎◌, ◌↔◌, ◌==◌, ◌^◌, ◌<◌, [], not, filter, length, All, Contains, IfOk, IfSome, IsTrue};

use crate::growing::Growing;
use qd_base::{Part, Schema};
use qd_column_files::{BlockTail, read_tail};
use qd_durable::LogFault;
use qd_volume::Volume;
use std::alloc::Global;
use std::marker::Model;

/// Of how many blocks it is kept at most what rows behind theirs go on with.
pub const MAX_KEPT: usize = 16;

/// How many texts the columns of such a block have named at most.
pub const MAX_KEPT_TEXTS: u64 = 65_536;

/// What rows behind those of a block go on with.
#[derive(Drop)]
pub(crate) struct KeptTail {
    /// The number of the block.
    pub(crate) block: u64,
    /// What rows behind its own go on with.
    pub(crate) tail: BlockTail,
}

impl KeptTail {
    /// Whether it is that of a part: of its block, behind as many rows as the part shows, and of its columns.
    fn is_of(&self, part: Part) -> bool
        ensures of { IsTrue result ↔ IsTailOfPart self.now part }
    {
        self.block == part.block
            && self.tail.rows() == part.rows
            && self.tail.cols() == u64::from(part.cols)
    }
}

/// What rows behind those of some blocks go on with, the oldest first.
///
/// There are at most [`MAX_KEPT`] of them, and none of a block that has named more than [`MAX_KEPT_TEXTS`] texts.
#[derive(Drop)]
pub(crate) struct Kept {
    tails: Vec<KeptTail>,
}

impl Model for Kept {
    ghost use Rattle.std.specs.Prelude.{List};
    ghost use Rattle.qd_versions.specs.declared.keeping.KeptTail.{KeptTail};
    ghost use Rattle.qd_versions.specs.Stores.{AreFew};

    ghost Value = { List KeptTail };

    ghost view = { λ k. k.tails.items };

    ghost invariant = { λ k. AreFew k.tails.items };
}

impl Kept {
    /// Nothing is kept.
    pub(crate) fn new(alloc: Global) -> Kept
        ensures none { result ≡ [] }
    {
        Kept {
            tails: Vec::new(alloc),
        }
    }

    /// Tells how many there are, and how many texts they have named. It does nothing.
    pub(crate) fn are_few(&self)
        ensures few { AreFew self.now }
    {
        let _tails = &self.tails;
    }

    /// Gives what rows behind those of a part go on with: a copy of what is kept, or what is read, as [`read_tail`] says.
    pub(crate) fn tail_of<V: Volume>(
        &self,
        alloc: Global,
        volume: &mut V,
        schema: &Schema,
        part: Part,
    ) -> Result<BlockTail, LogFault>
        requires schema { IsSchema schema.now }
        requires part { IsPart schema.now part }
        requires block { part.block < 2 ^ 52 }
        ensures told { IfSome (V.storage volume.old).disk (λ disk. IsTailFound result self.now schema.now part (reads_of disk)) }
        ensures rows { IfOk result (λ t. t.rows ≡ part.rows) }
        ensures columns { IfOk result (λ t. length t.columns ≡ part.cols) }
        ensures stays { (V.storage volume.new).disk ≡ (V.storage volume.old).disk }
        ensures counted { CountsVol (V.storage volume.old).faults (V.storage volume.new).faults result }
    {
        for kept in self.tails.as_slice() {
            if kept.is_of(part) {
                return Ok(kept.tail.copy(alloc)?);
            }
        }
        read_tail(alloc, volume, schema, part)
    }

    /// Lets those of blocks that grow go.
    pub(crate) fn forget(&mut self, growing: &[Growing])
        ensures left { All (IsLeft self.old (blocks_growing growing.now)) self.new }
    {
        for x in growing {
            self.forget_one(x.block);
        }
    }

    /// Lets that of a block go.
    fn forget_one(&mut self, block: u64)
        ensures left { self.new ≡ filter (λ k. not (k.block == block)) self.old }
    {
        self.tails.retain(|kept| kept.block != block);
    }

    /// Keeps those of blocks that grew.
    pub(crate) fn keep(&mut self, mut growing: Vec<Growing>)
        ensures kept { All (λ k. Contains self.old k ⊎ Contains (tails_in growing.items) k) self.new }
    {
        while let Some(x) = growing.pop() {
            self.keep_one(KeptTail {
                block: x.block,
                tail: x.tail,
            });
        }
    }

    /// Keeps that of a block, where it has named few texts. The oldest one goes where there are too many; where there is no
    /// memory, it is let go.
    fn keep_one(&mut self, new: KeptTail)
        ensures kept { All (λ k. Contains self.old k ⊎ (k ≡ new)) self.new }
    {
        if MAX_KEPT_TEXTS < new.tail.texts() {
            return;
        }
        if MAX_KEPT <= self.tails.len() {
            let _oldest = self.tails.remove(0);
        }
        let _kept = self.tails.push(new);
    }
}
