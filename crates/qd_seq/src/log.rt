//! The log: its references, one more at its end, and the gate of that one.
ghost use Rattle.qd_base.specs.declared.limits.TheConstants.{MAX_TXNS};
ghost use Rattle.qd_durable.specs.Faults.{CountsVol};
ghost use Rattle.qd_durable.specs.Moments.{Told};
ghost use Rattle.qd_io.specs.Ends.{Counts};
ghost use Rattle.qd_seq.specs.Calls.{Appends, Creates, Repairs};
ghost use Rattle.qd_seq.specs.Layout.{AreInSegments};
ghost use Rattle.qd_seq.specs.Opening.{Opens};
ghost use Rattle.qd_seq.specs.Reading.{IsGiven};
ghost use Rattle.std.specs.Prelude.{◌≡◌, ◌⊎◌, ◌↔◌, ◌+◌, ◌^◌, ◌<◌, ◌≤◌, [], ◌∷◌, ◌++◌, length, vec_capacity, vec_len, IfOk, IsSome, IsTrue, None, OnErr, OnOk, Some};

use crate::layout::{CLOSED, LOG, OPEN, body_and_gate, empty_log, gate_at};
use crate::reading::read_refs;
use qd_base::{Memory, WalRef};
use qd_durable::{LogFault, write_through};
use qd_io::IoFault;
use qd_volume::Volume;
use std::alloc::Global;
use std::marker::Model;

/// The sequencer log of a volume: the list of its references in memory, and what is known of the file. It must be the only one
/// that writes to the file.
///
/// Contracts see the references, how many more fit into its memory, and the one that a failed append may have left behind an
/// open gate. What that says of a told volume is the definition `Knows`.
#[derive(Debug, Drop)]
pub struct SeqLog {
    refs: Vec<WalRef>,
    pending: Option<WalRef>,
}

impl Model for SeqLog {
    ghost use Rattle.qd_base.specs.declared.limits.TheConstants.{MAX_TXNS};
    ghost use Rattle.qd_seq.specs.Layout.{AreInSegments};
    ghost use Rattle.qd_seq.specs.States.{Log};
    ghost use Rattle.std.specs.Prelude.{◌-◌, ◌≤◌, length, vec_capacity, vec_len};

    ghost Value = { Log };

    ghost view = { λ s. record { refs = s.refs.items; spare = vec_capacity s.refs - vec_len s.refs; pending = s.pending } };

    ghost invariant = { λ s. (length s.refs.items ≤ MAX_TXNS) × AreInSegments s.refs.items };
}

impl SeqLog {
    /// Makes the log without a record. It costs a write of 9 bytes and a sync, and takes no memory of its own.
    ///
    /// After an `Ok` a crash leaves only that list. At any moment of it, and after an `Err`, there may be any bytes in the places
    /// of the mark and of the first gate, so it is to be called before anything rests on the log. All else stays.
    pub fn create<V: Volume>(alloc: Global, volume: &mut V) -> Result<SeqLog, IoFault>
        ensures empty { IfOk result (λ log. log.refs ≡ []) }
        ensures clean { IfOk result (λ log. log.pending ≡ None) }
        ensures told { Told (V.storage volume.old).disk (V.storage volume.new).disk (Creates result) }

        // The count of faults rises exactly where `Failed` is answered.
        ensures counted { Counts (V.storage volume.old).faults (V.storage volume.new).faults result }
    {
        write_through(volume, LOG, 0, &empty_log())?;
        Ok(SeqLog {
            refs: Vec::new(alloc),
            pending: None,
        })
    }

    /// Opens the log: it syncs the file and reads its list. It costs a sync and one read of 51,200 bytes for 2,048 records, and
    /// time and memory linear in the records that are there.
    ///
    /// At every moment, and whatever is answered, a crash leaves only what it might have left before the call, and after an `Ok`
    /// only that list. What files read stays as it was.
    ///
    /// It answers [`LogFault::Damaged`] where the file gives no list, and only there: at 0 where its mark is another one; in the
    /// first record that can't be there, at byte 1 where it has a writer's number greater than its own, else at byte 5 where it
    /// has a segment not below [`MAX_SEGMENTS`], and at its gate where [`MAX_TXNS`] are before it; or at the file's length where
    /// bytes are missing. [`LogFault::Vol`] says that the volume failed, and [`LogFault::Memory`] that there was no memory; it
    /// may be called again then.
    ///
    /// The list was read: where the volume gives fewer bytes, whatever it tells, none are taken in their place.
    ///
    /// [`MAX_TXNS`]: qd_base::MAX_TXNS
    /// [`MAX_SEGMENTS`]: crate::MAX_SEGMENTS
    pub fn open_log<V: Volume>(alloc: Global, volume: &mut V) -> Result<SeqLog, LogFault>
        ensures clean { IfOk result (λ log. log.pending ≡ None) }
        ensures given { IfOk result (λ log. IsGiven V.gives log.refs) }
        ensures told { Told (V.storage volume.old).disk (V.storage volume.new).disk (Opens result) }

        // The count of faults rises exactly where `Vol` is answered.
        ensures counted { CountsVol (V.storage volume.old).faults (V.storage volume.new).faults result }
    {
        volume.sync(LOG)?;
        let refs = read_refs(alloc, volume)?;
        Ok(SeqLog {
            refs,
            pending: None,
        })
    }

    /// The references, in commit order, in constant time. Each is to a segment below [`MAX_SEGMENTS`].
    ///
    /// [`MAX_SEGMENTS`]: crate::MAX_SEGMENTS
    pub fn refs(&self) -> &[WalRef]
        ensures list { result.now ≡ self.now.refs }
        ensures segments { AreInSegments result.now }
    {
        self.refs.as_slice()
    }

    /// Whether an append failed that wasn't repaired since and whose gate may be open: a crash may leave the list, or that with
    /// one more reference.
    pub fn dirty(&self) -> bool
        ensures dirty { IsTrue result ↔ IsSome self.now.pending }
    {
        self.pending.is_some()
    }

    /// Takes memory for one more reference, in amortised constant time. An append takes none then. Where there is none, all is
    /// as before.
    pub fn reserve(&mut self) -> Result<(), Memory>
        ensures room { OnOk result (0 < self.new.spare) }
        ensures keeps { self.old.spare ≤ self.new.spare }
        ensures list { self.new.refs ≡ self.old.refs }
        ensures pending { self.new.pending ≡ self.old.pending }
    {
        self.refs.reserve(1)
    }

    /// Appends a reference and gives the number of references then. It costs two writes and two syncs, and takes no memory of
    /// its own.
    ///
    /// At every moment a crash leaves the list as it was or that with the new reference, and after an `Ok` only the new list.
    /// After an `Err` the list is as before. Where the gate of the new record was to be written the log is dirty then, and
    /// [`SeqLog::repair`] settles it. Else the gate is closed, whatever stands behind it, and the call may be made again.
    pub fn append<V: Volume>(&mut self, volume: &mut V, at: WalRef) -> Result<u64, IoFault>
        requires room { 0 < self.old.spare }
        requires clean { self.old.pending ≡ None }
        requires few { length self.old.refs < MAX_TXNS }
        requires wal { at.wal ≤ length self.old.refs }
        requires segment { at.segment < 2 ^ 24 }
        ensures count { IfOk result (λ n. n ≡ length self.new.refs) }
        ensures appended { OnOk result ((self.new.refs ≡ self.old.refs ++ at ∷ []) × (self.new.pending ≡ None)) }
        ensures stays { OnErr result ((self.new.refs ≡ self.old.refs) × ((self.new.pending ≡ None) ⊎ (self.new.pending ≡ Some at))) }
        ensures spare { self.old.spare ≤ self.new.spare + 1 }
        ensures kept { OnErr result (self.old.spare ≤ self.new.spare) }
        ensures told { Told (V.storage volume.old).disk (V.storage volume.new).disk (Appends result self.old.refs at self.new.pending) }

        // The count of faults rises exactly where `Failed` is answered.
        ensures counted { Counts (V.storage volume.old).faults (V.storage volume.new).faults result }
    {
        let gate = gate_at(self.refs.len());
        write_through(volume, LOG, gate + 1, &body_and_gate(at))?;
        self.pending = Some(at);
        write_through(volume, LOG, gate, &[OPEN])?;
        self.pending = None;
        keep(&mut self.refs, at);
        Ok(self.refs.len() as u64)
    }

    /// Closes the gate that a failed append may have opened. It costs a write of one byte and a sync; where the log isn't dirty
    /// it does nothing.
    ///
    /// At every moment a crash leaves what it might have left before, and after an `Ok` only the list. After an `Err` the log is
    /// dirty as before.
    pub fn repair<V: Volume>(&mut self, volume: &mut V) -> Result<(), IoFault>
        ensures list { self.new.refs ≡ self.old.refs }
        ensures spare { self.new.spare ≡ self.old.spare }
        ensures clean { OnOk result (self.new.pending ≡ None) }
        ensures stays { OnErr result ((self.new.pending ≡ self.old.pending) × IsSome self.old.pending) }
        ensures told { Told (V.storage volume.old).disk (V.storage volume.new).disk (Repairs result self.old.refs self.old.pending) }

        // The count of faults rises exactly where `Failed` is answered.
        ensures counted { Counts (V.storage volume.old).faults (V.storage volume.new).faults result }
    {
        if self.pending.is_none() {
            return Ok(());
        }
        write_through(volume, LOG, gate_at(self.refs.len()), &[CLOSED])?;
        self.pending = None;
        Ok(())
    }
}

/// Adds a reference to a list that has room for it.
fn keep(refs: &mut Vec<WalRef>, at: WalRef)
    requires room { vec_len refs.old < vec_capacity refs.old }
    ensures kept { refs.new.items ≡ refs.old.items ++ at ∷ [] }
    ensures len { vec_len refs.new ≡ vec_len refs.old + 1 }
    ensures capacity { vec_capacity refs.old ≤ vec_capacity refs.new }
{
    match refs.push(at) {
        Ok(()) => {}
        Err(_) => unreachable!(),
    }
}
