//! The sequencer: its making, its repair, and commits.
ghost use Rattle.qd_base.specs.declared.limits.TheConstants.{MAX_TXNS};
ghost use Rattle.qd_base.specs.Lawful.{AreSchemas};
ghost use Rattle.qd_base.specs.Schemas.{schemas_step};
ghost use Rattle.qd_base.specs.declared.op.Entry.{Entry};
ghost use Rattle.qd_durable.specs.Faults.{CountsVol};
ghost use Rattle.qd_durable.specs.Moments.{Told};
ghost use Rattle.qd_wal_entry.specs.Spelling.{SpellsEntry};
ghost use Rattle.qd_io.specs.Ends.{Counts};
ghost use Rattle.qd_volume.specs.Disk.{Disk};
ghost use Rattle.qd_seq.specs.Layout.{AreInSegments};
ghost use Rattle.qd_wal.specs.Segments.{behind, ref_for};
ghost use Rattle.qd_sequencer.specs.Calls.{Accepts, Makes, Settles};
ghost use Rattle.qd_sequencer.specs.Faults.{CountsFault, IsOfVolume, IsUnrefused};
ghost use Rattle.qd_sequencer.specs.Histories.{IsLawfulOver};
ghost use Rattle.qd_sequencer.specs.Reading.{IsTakenOver};
ghost use Rattle.qd_sequencer.specs.Sequences.{IsAsBefore, IsSequence, chosen, with_writer, without_writer};
ghost use Rattle.std.specs.Prelude.{◌≡◌, ◌+◌, ◌^◌, ◌<◌, ◌≤◌, ◌↔◌, ◌∷◌, ◌++◌, [], List, fold, length, unwrap_or, IfErr, IfOk, IfSome, IsSome, IsTrue, None, OnErr, OnOk};

use crate::behind::follow_all;
use crate::entering::enter;
use crate::fault::{CommitFault, Committed};
use crate::writers::{forget, keep, writer_for};
use qd_base::{Limits, Schemas, WalRef};
use qd_durable::LogFault;
use qd_io::IoFault;
use qd_seq::SeqLog;
use qd_volume::Volume;
use qd_wal::WalWriter;
use std::alloc::Global;
use std::marker::Model;

/// The sequencer of a store: the log of references, the schemas behind all transactions, and the writers that are kept. It must
/// be the only one that writes to the files of the logs.
///
/// Contracts see a `Sequence`. What that says of a told volume is the definition `IsSequence`: that the volume holds a lawful
/// history, whose schemas the sequencer knows.
#[derive(Debug, Drop)]
pub struct Sequencer {
    log: SeqLog,
    schemas: Schemas,
    writers: Vec<WalWriter>,
}

impl Model for Sequencer {
    ghost use Rattle.qd_base.specs.Lawful.{AreSchemas};
    ghost use Rattle.qd_sequencer.specs.Sequences.{AreKept, Sequence};
    ghost use Rattle.std.specs.Prelude.{length};

    ghost Value = { Sequence };

    ghost view = { λ s. record { refs = s.log.refs; spare = s.log.spare; pending = s.log.pending; schemas = s.schemas; writers = s.writers.items } };

    ghost invariant = { λ s. AreSchemas s.schemas × AreKept (length s.log.refs) s.writers.items };
}

impl Sequencer {
    /// Makes the sequencer of no transaction, with an empty log. It costs a write of 9 bytes and a sync, and takes no memory of
    /// its own.
    ///
    /// After an `Ok` a crash leaves only the empty history. At any moment of it, and after an `Err`, there may be any bytes at
    /// the start of the log, so it is to be called before anything rests on it. All else stays.
    pub fn create<V: Volume>(alloc: Global, volume: &mut V) -> Result<Sequencer, IoFault>
        ensures empty { IfOk result (λ s. (s.refs ≡ []) × (s.schemas ≡ []) × (s.writers ≡ [])) }
        ensures clean { IfOk result (λ s. s.pending ≡ None) }
        ensures told { Told (V.storage volume.old).disk (V.storage volume.new).disk (Makes result) }

        // The count of faults rises exactly where `Failed` is answered.
        ensures counted { Counts (V.storage volume.old).faults (V.storage volume.new).faults result }
    {
        let log = SeqLog::create(alloc, volume)?;
        Ok(Sequencer {
            log,
            schemas: Schemas::new(alloc),
            writers: Vec::new(alloc),
        })
    }

    /// Takes over a log that was opened. The schemas are those of a version of its first `n` transactions; the ones behind it
    /// are read, and the schemas moved behind them. It costs two calls of the volume for each, and time linear in their bytes;
    /// it takes memory for one at a time, and for what the schemas gain. No writers are kept.
    ///
    /// It answers [`LogFault::Damaged`] where a reference points to no transaction, as [`qd_wal::read_entry`] does, or to one
    /// that isn't lawful over the schemas before it, then at the first byte of its entry. What the volume holds stays as it was.
    pub fn over<V: Volume>(
        alloc: Global,
        volume: &mut V,
        log: SeqLog,
        n: u64,
        schemas: Schemas,
    ) -> Result<Sequencer, LogFault>
        requires version { n ≤ length log.refs }
        requires clean { log.pending ≡ None }
        requires sound { AreSchemas schemas }
        ensures list { IfOk result (λ s. (s.refs ≡ log.refs) × (s.pending ≡ None) × (s.writers ≡ [])) }
        ensures told { IfSome (V.storage volume.old).disk (IsTakenOver result log.refs n schemas) }
        ensures stays { (V.storage volume.new).disk ≡ (V.storage volume.old).disk }

        // The count of faults rises exactly where `Vol` is answered.
        ensures counted { CountsVol (V.storage volume.old).faults (V.storage volume.new).faults result }
    {
        let mut schemas = schemas;
        follow_all(alloc, volume, &log.refs()[n as usize..], &mut schemas)?;
        Ok(Sequencer {
            log,
            schemas,
            writers: Vec::new(alloc),
        })
    }

    /// The places of all transactions, in commit order, in constant time. Each is in a segment that is its log's own.
    pub fn refs(&self) -> &[WalRef]
        ensures list { result.now ≡ self.now.refs }
        ensures segments { AreInSegments result.now }
    {
        self.log.refs()
    }

    /// The number of transactions, in constant time.
    pub fn len(&self) -> u64
        ensures count { result ≡ length self.now.refs }
    {
        self.log.refs().len() as u64
    }

    /// Whether there is no transaction, in constant time.
    pub fn is_empty(&self) -> bool
        ensures empty { IsTrue result ↔ (self.now.refs ≡ []) }
    {
        self.log.refs().is_empty()
    }

    /// The schemas behind all transactions, in constant time.
    pub fn schemas(&self) -> &Schemas
        ensures schemas { result.now ≡ self.now.schemas }
        ensures sound { AreSchemas result.now }
    {
        &self.schemas
    }

    /// Whether a commit failed that wasn't repaired since and whose gate may be open: a crash may leave the history, or that
    /// with the transaction of that commit.
    pub fn dirty(&self) -> bool
        ensures dirty { IsTrue result ↔ IsSome self.now.pending }
    {
        self.log.dirty()
    }

    /// Settles what a failed commit may have left: its transaction isn't there. It costs a write of one byte and a sync; where
    /// the sequencer isn't dirty it does nothing. Each commit begins with it.
    ///
    /// At every moment a crash leaves what it might have left before, and after an `Ok` only the history. After an `Err` the
    /// sequencer is dirty as before.
    pub fn repair<V: Volume>(&mut self, volume: &mut V) -> Result<(), IoFault>
        ensures same { IsAsBefore self.old self.new }
        ensures spare { self.new.spare ≡ self.old.spare }
        ensures clean { OnOk result (self.new.pending ≡ None) }
        ensures stays { OnErr result ((self.new.pending ≡ self.old.pending) × IsSome self.old.pending) }
        ensures told { Told (V.storage volume.old).disk (V.storage volume.new).disk (Settles self.old self.new) }

        // The count of faults rises exactly where `Failed` is answered.
        ensures counted { Counts (V.storage volume.old).faults (V.storage volume.new).faults result }
    {
        self.log.repair(volume)
    }

    /// Forgets a writer: none of its log's segments is written again. It costs time linear in the writers that are kept.
    pub fn end_writer(&mut self, writer: u32)
        ensures forgotten { self.new ≡ record self.old { writers = without_writer self.old.writers writer } }
        ensures holds { (h : List Entry) (disk : Disk) → IsSequence self.old h disk → IsSequence self.new h disk }
    {
        forget(&mut self.writers, writer);
    }

    /// Commits the transaction of these bytes, which leaves the given schemas, where it changes any. It repairs the log first,
    /// writes the entry behind the others of the writer, and then its place; a writer that isn't kept is replaced by a new
    /// one, whose number is that of the transactions before its first. It costs three writes and three syncs, and time linear
    /// in the bytes and in the writers that are kept; memory is taken before the first of the writes.
    ///
    /// At every moment a crash leaves the history or that with one transaction more: this one, or the one of an earlier commit
    /// that failed and wasn't repaired. After an `Ok` it leaves the history with this one, and the writer is kept behind it.
    /// After an `Err` the history, the schemas and the writers are as before, and the call may be made again:
    /// [`CommitFault::Full`] says that there are as many transactions as may be, [`CommitFault::Vol`] that the volume failed,
    /// and [`CommitFault::Memory`] that there was no memory.
    pub fn commit<V: Volume>(
        &mut self,
        volume: &mut V,
        limits: &Limits,
        writer: Option<u32>,
        bytes: &[u8],
        after: Option<Schemas>,
    ) -> Result<Committed, CommitFault>
        requires most { limits.now.max_txns ≤ MAX_TXNS }
        requires size { limits.now.seg_bytes ≤ 2 ^ 62 }
        requires sound { IfSome after AreSchemas }
        ensures count { IfOk result (λ done. done.n ≡ length self.new.refs) }
        ensures writer { IfOk result (λ done. done.writer ≡ (chosen self.old writer).wal) }
        ensures place { OnOk result (self.new.refs ≡ self.old.refs ++ ref_for (chosen self.old writer) limits.now.seg_bytes (length bytes.now) ∷ []) }
        ensures schemas { OnOk result (self.new.schemas ≡ unwrap_or after self.old.schemas) }
        ensures kept { OnOk result (self.new.writers ≡ with_writer self.old.writers (behind (ref_for (chosen self.old writer) limits.now.seg_bytes (length bytes.now)))) }
        ensures room { OnOk result (length self.old.refs < limits.now.max_txns) }
        ensures clean { OnOk result (self.new.pending ≡ None) }
        ensures stays { OnErr result (IsAsBefore self.old self.new) }
        ensures causes { IfErr result (IsUnrefused (limits.now.max_txns ≤ length self.old.refs)) }

        // What holds of a told volume, where the bytes spell a transaction that is lawful over the schemas.
        ensures told { (e : Entry) → SpellsEntry bytes.now e → IsLawfulOver self.old.schemas e → unwrap_or after self.old.schemas ≡ fold schemas_step self.old.schemas e.ops →
            Told (V.storage volume.old).disk (V.storage volume.new).disk (Accepts result self.old self.new (λ x. x ≡ e)) }

        // The count of faults rises exactly where `Vol` is answered.
        ensures counted { CountsFault (V.storage volume.old).faults (V.storage volume.new).faults result }
    {
        self.repair(volume)?;
        if self.len() >= limits.max_txns as u64 {
            return Err(CommitFault::Full);
        }
        self.put(volume, limits.seg_bytes, writer, bytes, after)
    }

    /// Commits the transaction of these bytes where nothing is pending and there is room for one more.
    fn put<V: Volume>(
        &mut self,
        volume: &mut V,
        seg_bytes: u64,
        writer: Option<u32>,
        bytes: &[u8],
        after: Option<Schemas>,
    ) -> Result<Committed, CommitFault>
        requires clean { self.old.pending ≡ None }
        requires few { length self.old.refs < MAX_TXNS }
        requires size { seg_bytes ≤ 2 ^ 62 }
        requires sound { IfSome after AreSchemas }
        ensures count { IfOk result (λ done. done.n ≡ length self.new.refs) }
        ensures writer { IfOk result (λ done. done.writer ≡ (chosen self.old writer).wal) }
        ensures place { OnOk result (self.new.refs ≡ self.old.refs ++ ref_for (chosen self.old writer) seg_bytes (length bytes.now) ∷ []) }
        ensures schemas { OnOk result (self.new.schemas ≡ unwrap_or after self.old.schemas) }
        ensures kept { OnOk result (self.new.writers ≡ with_writer self.old.writers (behind (ref_for (chosen self.old writer) seg_bytes (length bytes.now)))) }
        ensures clean { OnOk result (self.new.pending ≡ None) }
        ensures stays { OnErr result (IsAsBefore self.old self.new) }
        ensures told { (e : Entry) → SpellsEntry bytes.now e → IsLawfulOver self.old.schemas e → unwrap_or after self.old.schemas ≡ fold schemas_step self.old.schemas e.ops →
            Told (V.storage volume.old).disk (V.storage volume.new).disk (Accepts result self.old self.new (λ x. x ≡ e)) }
        ensures causes { IfErr result IsOfVolume }
        ensures counted { CountsFault (V.storage volume.old).faults (V.storage volume.new).faults result }
    {
        self.log.reserve()?;
        self.writers.reserve(1)?;
        let chosen = writer_for(
            self.writers.as_slice(),
            self.log.refs().len() as u32,
            writer,
        );
        let at = enter(&mut self.log, volume, chosen, bytes, seg_bytes)?;
        keep(&mut self.writers, writer_behind(at));
        replace(&mut self.schemas, after);
        Ok(Committed {
            n: self.log.refs().len() as u64,
            writer: at.wal,
        })
    }
}

/// Puts other schemas in place of some, where there are any.
fn replace(schemas: &mut Schemas, after: Option<Schemas>)
    ensures replaced { schemas.new ≡ unwrap_or after schemas.old }
{
    if let Some(other) = after {
        *schemas = other;
    }
}

/// The writer that stands behind an entry.
fn writer_behind(at: WalRef) -> WalWriter
    requires room { at.start + at.len < 2 ^ 64 }
    ensures behind { result ≡ behind at }
{
    WalWriter {
        wal: at.wal,
        segment: at.segment,
        end: at.start + at.len,
    }
}
