//! Merges of drafts, and their publication.
ghost use Rattle.qd_base.specs.declared.op.Entry.{Entry};
ghost use Rattle.qd_base.specs.Database.{Database};
ghost use Rattle.qd_block.specs.Blocks.{Block as Rows};
ghost use Rattle.qd_catalog.specs.declared.version.Version.{Version};
ghost use Rattle.qd_catalog.specs.Versions.{Adds, SameVersions, current_n};
ghost use Rattle.qd_durable.specs.Moments.{Told};
ghost use Rattle.qd_store.specs.declared.fault.PublishFault.TheVariants as fault;
ghost use Rattle.qd_apply.specs.Laws.{IsGrowth};
ghost use Rattle.qd_apply.specs.Plans as plans;
ghost use Rattle.qd_store.specs.Drafts.{Extends, IsDraft, IsMerged, IsMergedOver};
ghost use Rattle.qd_store.specs.Faults.{CountsPublish, IsMoved};
ghost use Rattle.qd_store.specs.Grown.{IsShownWhole, growth_of};
ghost use Rattle.qd_store.specs.Merges.{PublishesMerged};
ghost use Rattle.qd_versions.specs.Publishing.{AreNumbered, IsFull, IsGrownLost};
ghost use Rattle.qd_volume.specs.Disk.{reads_of};
ghost use Rattle.std.specs.Arc.{arc_value};
ghost use Rattle.std.specs.Prelude.{◌≡◌, ◌↔◌, ◌+◌, ◌^◌, ◌<◌, ◌≤◌, ℕ, List, Some, Err, length, map, All, IfOk, IfSome, IsTrue, OnErr};

use crate::book::Book;
use crate::drafting::Draft;
use crate::fault::PublishFault;
use qd_apply::{Grown, merging_stands};
use qd_base::Memory;
use qd_block::Block;
use qd_manifest::Shape;
use qd_symbols::SymbolMap;
use qd_versions::{GrownBlock, NewBlock};
use qd_volume::Volume;
use std::alloc::Global;
use std::marker::Model;
use std::sync::Arc;

/// A draft that is merged: the next version of a store, with its new blocks, and the rows that go behind those of parts.
#[derive(Drop)]
pub struct Merged {
    base: u64,
    upto: u64,
    shape: Shape,
    blocks: Vec<NewBlock>,
    grown: Vec<GrownBlock>,
}

impl Model for Merged {
    ghost use Rattle.qd_store.specs.Drafts.{IsSomeMerged, Merging};

    ghost Value = { Merging };

    ghost view = { λ m. record { base = m.base; upto = m.upto; shape = m.shape; blocks = m.blocks.items; grown = m.grown.items } };

    ghost invariant = { λ m. IsSomeMerged (record { base = m.base; upto = m.upto; shape = m.shape; blocks = m.blocks.items; grown = m.grown.items }) };
}

impl Merged {
    /// Gives of how many transactions the version is that was merged into, in constant time.
    pub fn base(&self) -> u64
        ensures base { result ≡ self.now.base }
    {
        self.base
    }

    /// Gives of how many transactions the next version is, in constant time.
    pub fn upto(&self) -> u64
        ensures upto { result ≡ self.now.upto }
    {
        self.upto
    }

    /// Lends the tables of the next version, in constant time.
    pub fn shape(&self) -> &Shape
        ensures shape { result.now ≡ self.now.shape }
    {
        &self.shape
    }
}

impl Draft {
    /// Merges: makes the tables of the next version, its new blocks, and the rows that go behind those of parts. It needs no store, so
    /// that others may use the store meanwhile.
    ///
    /// It costs time and memory linear in the rows that are merged, in those of parts behind the first of them, or of all rows of a
    /// part where few stand before that, and in the lists of parts. Want of memory is the only error; the draft is gone then, and
    /// the store can give it again.
    pub fn merge(self, alloc: Global) -> Result<Merged, Memory>
        ensures grows { IfOk result (λ m. All (IsGrowth self.plan.shape self.plan.written) (map growth_of m.grown)) }
        ensures merged { (next : ℕ) (x : Version) (es : List Entry) (contents : ℕ → Rows) (db : Database) → IsDraft next x es contents db self → IfOk result (λ m. IsMerged next x es contents db m) }
    {
        merging_stands();
        let Draft { plan, olds } = self;
        let merged = plan.merge(alloc, olds.as_slice())?;
        let blocks = numbered(alloc, merged.first_block, merged.blocks.as_slice())?;
        let grown = behind(alloc, merged.grown.as_slice())?;
        Ok(Merged {
            base: merged.base,
            upto: merged.upto,
            shape: merged.shape,
            blocks,
            grown,
        })
    }
}

/// Numbers new blocks upwards.
fn numbered(
    alloc: Global,
    first: u64,
    blocks: &[Arc<Block<SymbolMap>>],
) -> Result<Vec<NewBlock>, Memory>
    requires room { first + length blocks.now < 2 ^ 64 }
    ensures numbered { IfOk result (λ list. AreNumbered first list.items) }
    ensures blocks { IfOk result (λ list. map (λ b. arc_value b.of) list.items ≡ map arc_value blocks.now) }
{
    let mut list = Vec::with_capacity(alloc, blocks.len())?;
    for i in 0..blocks.len() {
        list.push(NewBlock {
            block: first + i as u64,
            of: blocks[i].clone()?,
        })?;
    }
    Ok(list)
}

/// Rows behind those of parts, as a publication takes them.
fn behind(alloc: Global, grown: &[Grown]) -> Result<Vec<GrownBlock>, Memory>
    ensures rows { IfOk result (λ list. map growth_of list.items ≡ map plans.growth_of grown.now) }
{
    let mut list = Vec::with_capacity(alloc, grown.len())?;
    for one in grown {
        list.push(GrownBlock {
            table: one.table,
            part: one.part,
            rows: one.rows.clone()?,
        })?;
    }
    Ok(list)
}

impl Book {
    /// Says whether each part that a merge puts rows behind is one of the current version, and shows all rows that its files hold.
    pub(crate) fn extends(&self, merged: &Merged) -> bool
        ensures extends { IsTrue result ↔ Extends self.now.versions.versions merged.now }
    {
        for grown in merged.grown.as_slice() {
            if !self.is_shown_whole(grown) {
                return false;
            }
        }
        true
    }

    /// Says whether the current version has a part, which shows all rows that its files hold.
    fn is_shown_whole(&self, grown: &GrownBlock) -> bool
        ensures whole { IsTrue result ↔ IsShownWhole self.now.versions.versions grown.now }
    {
        let shape = self.versions.shape_of(self.versions.current());
        if shape.len() <= grown.table {
            return false;
        }
        let parts = shape.get(grown.table).parts.as_slice();
        if parts.len() <= grown.part {
            return false;
        }
        let part = parts[grown.part];
        part.rows == self.versions.written(part.block)
    }

    /// Publishes a merge: its version is the current one then.
    pub(crate) fn publish_merged<V: Volume>(
        &mut self,
        alloc: Global,
        volume: &mut V,
        merged: &Merged,
    ) -> Result<u8, PublishFault>
        requires few { merged.now.upto ≤ length self.old.sequence.refs }
        requires over { current_n self.old.versions.versions ≡ Some merged.now.base → IsMergedOver self.old.versions.versions merged.now }
        ensures limits { self.new.limits ≡ self.old.limits }
        ensures sequence { self.new.sequence ≡ self.old.sequence }
        ensures added { IfOk result (λ row. Adds self.old.versions.versions self.new.versions.versions merged.now.upto merged.now.shape row) }
        ensures same { OnErr result (SameVersions self.old.versions.versions self.new.versions.versions) }
        ensures moved { (n : ℕ) → (result ≡ Err (fault.Moved n)) ↔ IsMoved self.old.versions.versions merged.now.base n }
        ensures full { (result ≡ Err fault.NoRow) ↔ ((current_n self.old.versions.versions ≡ Some merged.now.base) × IsFull self.old.versions.versions) }
        ensures damaged { IfSome (V.storage volume.old).disk (λ disk. (file at : ℕ) → result ≡ Err (fault.Damaged file at) → IsGrownLost self.old.versions.versions merged.now.grown file at (reads_of disk)) }
        ensures unwritten { (file at : ℕ) → result ≡ Err (fault.Damaged file at) → ((V.storage volume.new).disk ≡ (V.storage volume.old).disk) × (self.new ≡ self.old) }
        ensures unmoved { (n : ℕ) → result ≡ Err (fault.Moved n) →
            ((V.storage volume.new).disk ≡ (V.storage volume.old).disk) × (self.new ≡ self.old) }
        ensures told { Told (V.storage volume.old).disk (V.storage volume.new).disk (PublishesMerged result self.old self.new merged.now) }
        ensures counted { CountsPublish (V.storage volume.old).faults (V.storage volume.new).faults result }
    {
        merging_stands();
        let n = self.versions.n_of(self.versions.current()).unwrap_or(0);
        if n != merged.base {
            return Err(PublishFault::Moved { n });
        }
        let row = self.publish(
            alloc,
            volume,
            merged.upto,
            &merged.shape,
            merged.blocks.as_slice(),
            merged.grown.as_slice(),
        )?;
        Ok(row)
    }
}
