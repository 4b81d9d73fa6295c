//! What a store does: transactions committed, writers ended, versions published, retired and swept.
ghost use Rattle.qd_base.specs.declared.op.Entry.{Entry};
ghost use Rattle.qd_base.specs.Lawful.{AreSchemas};
ghost use Rattle.qd_base.specs.Schemas.{schemas_step};
ghost use Rattle.qd_durable.specs.Moments.{Told};
ghost use Rattle.qd_wal_entry.specs.Spelling.{SpellsEntry};
ghost use Rattle.qd_sequencer.specs.Faults.{CountsFault, IsUnrefused};
ghost use Rattle.qd_sequencer.specs.Histories.{IsLawfulOver};
ghost use Rattle.qd_sequencer.specs.Sequences.{IsAsBefore, chosen, without_writer};
ghost use Rattle.qd_catalog.specs.Versions.{Adds, IsLive, Retires, SameVersions, Sweeps};
ghost use Rattle.qd_io.specs.Ends.{Counts};
ghost use Rattle.qd_versions.specs.declared.fault.PublishFault.TheVariants as full;
ghost use Rattle.qd_versions.specs.Calls.{IsSwept};
ghost use Rattle.qd_versions.specs.Faults.{CountsPublish};
ghost use Rattle.qd_versions.specs.Publishing.{AreNumbered, IsFull, IsLostWhere, MayGrow, MayPublish, grown_blocks};
ghost use Rattle.qd_versions.specs.Stores.{stored};
ghost use Rattle.qd_store.specs.Arriving.{IsPlaced};
ghost use Rattle.qd_store.specs.Calls.{Commits, Publishes, Stands};
ghost use Rattle.qd_store.specs.Faults.{IsSettled};
ghost use Rattle.qd_store.specs.Stores.{IsStore};
ghost use Rattle.qd_txnfile.specs.Versions.{Version};
ghost use Rattle.qd_volume.specs.Disk.{Disk, reads_of};
ghost use Rattle.std.specs.List.{IsDistinct};
ghost use Rattle.std.specs.Prelude.{◌≡◌, ◌≢◌, ◌↔◌, ◌+◌, ◌<◌, ◌≤◌, ℕ, [], true, false, nat_eq, All, List, length, fold, unwrap_or, None, Err, Ok, IfErr, IfOk, IfSome, OnErr, OnOk};

use crate::book::Book;
use crate::laws::stores_are_whole;
use qd_base::Schemas;
use qd_column_files::laws::first_rows_are_held;
use qd_column_format::laws::one_column_is_spelled;
use qd_io::IoFault;
use qd_manifest::Shape;
use qd_sequencer::{CommitFault, Committed, other_files_leave_the_sequence};
use qd_versions::{GrownBlock, NewBlock, PublishFault};
use qd_volume::Volume;
use std::alloc::Global;

impl Book {
    /// Commits the transaction of these bytes, which leaves the given schemas, where it changes any. Where there is no room for it,
    /// nothing is called.
    pub(crate) fn commit<V: Volume>(
        &mut self,
        volume: &mut V,
        writer: Option<u32>,
        bytes: &[u8],
        after: Option<Schemas>,
    ) -> Result<Committed, CommitFault>
        requires sound { IfSome after AreSchemas }
        ensures limits { self.new.limits ≡ self.old.limits }
        ensures count { IfOk result (λ done. done.n ≡ length self.new.sequence.refs) }
        ensures writer { IfOk result (λ done. done.writer ≡ (chosen self.old.sequence writer).wal) }
        ensures place { OnOk result (IsPlaced self.old.limits self.old.sequence self.new.sequence writer) }
        ensures schemas { OnOk result (self.new.sequence.schemas ≡ unwrap_or after self.old.sequence.schemas) }
        ensures room { OnOk result (length self.old.sequence.refs < self.old.limits.max_txns) }
        ensures stays { OnErr result (IsAsBefore self.old.sequence self.new.sequence) }
        ensures settled { self.old.sequence.pending ≡ None → IsSettled result self.new.sequence }
        ensures versions { self.new.versions ≡ self.old.versions }
        ensures causes { IfErr result (IsUnrefused (self.old.limits.max_txns ≤ length self.old.sequence.refs)) }
        ensures told { (e : Entry) → SpellsEntry bytes.now e → IsLawfulOver self.old.sequence.schemas e → unwrap_or after self.old.sequence.schemas ≡ fold schemas_step self.old.sequence.schemas e.ops →
            Told (V.storage volume.old).disk (V.storage volume.new).disk (Commits result self.old self.new (λ x. x ≡ e)) }
        ensures counted { CountsFault (V.storage volume.old).faults (V.storage volume.new).faults result }
    {
        stores_are_whole();
        self.versions.keeps_its_law();
        if self.sequencer.len() >= self.limits.max_txns as u64 {
            return Err(CommitFault::Full);
        }
        self.sequencer
            .commit(volume, &self.limits, writer, bytes, after)
    }

    /// Forgets a writer: none of its log's segments is written again. It costs time linear in the writers that are kept.
    pub(crate) fn end_writer(&mut self, writer: u32)
        ensures limits { self.new.limits ≡ self.old.limits }
        ensures forgotten { self.new.sequence ≡ record self.old.sequence { writers = without_writer self.old.sequence.writers writer } }
        ensures versions { self.new.versions ≡ self.old.versions }
        ensures holds { (h : List Entry) (next : Version) (disk : Disk) → IsStore self.old h next disk → IsStore self.new h next disk }
    {
        self.sequencer.end_writer(writer);
    }

    /// Retires a version that is live, and not the current one.
    pub(crate) fn retire(&mut self, row: u8)
        requires live { IsLive self.old.versions.versions row }
        requires older { row ≢ self.old.versions.versions.current }
        ensures limits { self.new.limits ≡ self.old.limits }
        ensures retired { Retires self.old.versions.versions self.new.versions.versions row }
        ensures sequence { self.new.sequence ≡ self.old.sequence }
        ensures holds { (h : List Entry) (next : Version) (disk : Disk) → IsStore self.old h next disk → IsStore self.new h next disk }
    {
        self.versions.retire(row);
    }

    /// Removes the files of the block at the front of the queue of those that no version lists any more, and takes it out;
    /// `false` says that the queue is empty. A publication that failed is settled first.
    pub(crate) fn sweep<V: Volume>(&mut self, volume: &mut V) -> Result<bool, IoFault>
        ensures limits { self.new.limits ≡ self.old.limits }
        ensures swept { IfOk result (λ swept. swept ≡ true → (block : ℕ) × Sweeps self.old.versions.versions self.new.versions.versions block) }
        ensures idle { result ≡ Ok false → (self.old.versions.versions.retired ≡ []) × (self.new ≡ self.old) × (V.storage volume.new ≡ V.storage volume.old) }
        ensures same { OnErr result (self.new.versions.versions ≡ self.old.versions.versions) }
        ensures sequence { self.new.sequence ≡ self.old.sequence }
        ensures told { Told (V.storage volume.old).disk (V.storage volume.new).disk (Stands self.old self.new) }
        ensures gone { Told (V.storage volume.old).disk (V.storage volume.new).disk (λ before after. IsSwept result self.old.versions.versions.retired after) }
        ensures counted { Counts (V.storage volume.old).faults (V.storage volume.new).faults result }
    {
        other_files_leave_the_sequence();
        self.versions.keeps_its_law();
        self.versions.sweep(volume)
    }

    /// Publishes a version of the first `n` transactions, with its new blocks and the rows behind those of the current version's parts.
    pub(crate) fn publish<V: Volume>(
        &mut self,
        alloc: Global,
        volume: &mut V,
        n: u64,
        shape: &Shape,
        blocks: &[NewBlock],
        grown: &[GrownBlock],
    ) -> Result<u8, PublishFault>
        requires few { n ≤ length self.old.sequence.refs }
        requires numbered { AreNumbered self.old.versions.versions.next_block blocks.now }
        requires may { MayPublish self.old.versions.versions n shape.now (length blocks.now) }
        requires grows { All (MayGrow self.old.versions.versions) grown.now }
        requires apart { IsDistinct nat_eq (grown_blocks self.old.versions.versions grown.now) }
        ensures limits { self.new.limits ≡ self.old.limits }
        ensures sequence { self.new.sequence ≡ self.old.sequence }
        ensures added { IfOk result (λ row. Adds self.old.versions.versions self.new.versions.versions n shape.now row) }
        ensures same { OnErr result (SameVersions self.old.versions.versions self.new.versions.versions) }
        ensures full { (result ≡ Err full.NoRow) ↔ IsFull self.old.versions.versions }
        ensures damaged { IfErr result (λ cause. IfSome (V.storage volume.old).disk (λ disk. IsLostWhere cause self.old.versions.versions grown.now (reads_of disk))) }
        ensures unwritten { (file at : ℕ) → result ≡ Err (full.Damaged file at) → ((V.storage volume.new).disk ≡ (V.storage volume.old).disk) × (self.new ≡ self.old) }
        ensures told { Told (V.storage volume.old).disk (V.storage volume.new).disk
            (Publishes result self.old self.new n shape.now blocks.now grown.now (stored n (self.old.versions.versions.next_block + length blocks.now) shape.now)) }
        ensures counted { CountsPublish (V.storage volume.old).faults (V.storage volume.new).faults result }
    {
        first_rows_are_held();
        one_column_is_spelled();
        other_files_leave_the_sequence();
        self.versions.keeps_its_law();
        self.versions
            .publish(alloc, volume, n, shape, blocks, grown)
    }
}
