//! A volume in memory.
ghost use Rattle.qd_io.specs.Ends.{Counts};
ghost use Rattle.qd_volume.specs.Calls.{Cuts, Measures, ReadsAt, Syncs, WritesAt};
ghost use Rattle.qd_volume.specs.Contents.{Puts, Same, held};
ghost use Rattle.qd_volume.specs.Crash.{IsAfterCrash};
ghost use Rattle.qd_volume.specs.Disk.{changed, file_of, images_now, reads_of};
ghost use Rattle.qd_volume.specs.Files.{Cut, Spoiled, Synced, Uncut, Wrote, written};
ghost use Rattle.qd_volume.specs.Memory.{MemChanges, MemMeasures, MemReads, unused};
ghost use Rattle.std.specs.Prelude.{◌≡◌, ◌≤◌, ◌∷◌, ℕ, [], length, reverse, IfOk, OnErr, OnOk, Some};

use super::bytes::read_from;
use super::contents::{Contents, bytes_in, cut_file, remove_file, write_file};
use super::note::{Note, Noted};
use super::saved::replay;
use crate::Memory;
use crate::traits::Volume;
use qd_io::{FailurePlan, IoFault};
use std::alloc::{AllocError, Global};
use std::collections::BTreeMap;
use std::marker::Model;

/// A volume in memory, for tests: it tells all that happened to it, fails at the calls that it was made to fail at, and
/// can crash.
///
/// It keeps a record of every change with the bytes written, from which its images at each moment follow, so it takes
/// memory for all that was ever written to it.
#[derive(Drop)]
pub struct MemVolume {
    alloc: Global,
    files: Contents,
    notes: Vec<Note>,
    plan: FailurePlan,
}

impl Model for MemVolume {
    ghost use Rattle.qd_volume.specs.Contents.{Tells};
    ghost use Rattle.qd_volume.specs.Memory.{InMemory};
    ghost use Rattle.std.specs.Prelude.{reverse};

    ghost Value = { InMemory };

    ghost view = { λ s. record { disk = reverse s.notes.items; plan = s.plan } };

    ghost invariant = { λ s. Tells (reverse s.notes.items) s.files };
}

impl MemVolume {
    /// A volume whose files have no bytes. It answers [`IoFault::Failed`] at the calls whose numbers, counted from 0, are
    /// in `fails`. A write, a cut or a removal that fails changes no byte, and counts as begun: a crash may leave any bytes
    /// in the range of the write, and behind the length of the cut.
    ///
    /// It copies `fails`, and answers [`Memory`] where there is no room for it.
    pub fn new(alloc: Global, fails: &[u64]) -> Result<MemVolume, Memory>
        ensures { IfOk result (λ volume. volume ≡ record { disk = []; plan = unused fails.now }) }
    {
        Ok(MemVolume {
            alloc,
            files: BTreeMap::new(alloc),
            notes: Vec::new(alloc),
            plan: FailurePlan::new(alloc, fails)?,
        })
    }

    /// The number of calls so far, up to the greatest `u64`. A call that found no memory isn't counted.
    pub fn calls(&self) -> u64
        ensures { result ≡ self.now.plan.calls }
    {
        self.plan.calls()
    }

    /// What one crash of the volume now leaves, as a volume no call of which was made yet, and none fails. `pick` picks one of
    /// its images: 0 keeps no change that wasn't synced, 1 keeps all, and any other fills what no sync has reached with
    /// bytes 255. It takes time and memory for all that was ever written, and for the length of a file at each of its
    /// syncs.
    pub fn crash(self, pick: u64) -> Result<MemVolume, Memory>
        ensures left { IfOk result (λ volume. (file : ℕ) → IsAfterCrash pick (file_of self.disk file) (file_of volume.disk file)) }
        ensures image { IfOk result (λ volume. images_now self.disk (reads_of volume.disk)) }
        ensures plan { IfOk result (λ volume. volume.plan ≡ unused []) }
    {
        self.leave(pick)
    }

    /// The volume that a crash leaves.
    fn leave(self, pick: u64) -> Result<MemVolume, Memory>
        ensures left { IfOk result (λ volume. (file : ℕ) → IsAfterCrash pick (file_of self.disk file) (file_of volume.disk file)) }
        ensures plan { IfOk result (λ volume. volume.plan ≡ unused []) }
    {
        let mut states = replay(self.alloc, &self.notes)?;
        let mut volume = MemVolume::new(self.alloc, &[])?;
        while let Some((file, state)) = states.pop_first() {
            volume.keep(file, &state.image(pick))?;
        }
        Ok(volume)
    }

    /// Writes a file from its start on and syncs it. These are no calls of the device.
    fn keep(&mut self, file: u64, bytes: &[u8]) -> Result<(), AllocError>
        ensures disk { OnOk result (self.new.disk ≡ changed (changed self.old.disk file (Wrote 0 bytes.now)) file Synced) }
        ensures plan { self.new.plan ≡ self.old.plan }
    {
        write_and_note(self.alloc, &mut self.files, &mut self.notes, file, 0, bytes)?;
        Note::add(&mut self.notes, file, Noted::Synced)?;
        Ok(())
    }
}

/// Writes into a file and notes it, or neither.
fn write_and_note(
    alloc: Global,
    files: &mut Contents,
    notes: &mut Vec<Note>,
    file: u64,
    at: u64,
    bytes: &[u8],
) -> Result<(), AllocError>
    ensures files { OnOk result (Puts files.old files.new file (written (held files.old file) at bytes.now)) }
    ensures notes { OnOk result (reverse notes.new.items ≡ record { file = file; change = Wrote at bytes.now } ∷ reverse notes.old.items) }
    ensures files_err { OnErr result (Same files.old files.new) }
    ensures notes_err { OnErr result (notes.new.items ≡ notes.old.items) }
{
    let copy = Vec::from_slice(alloc, bytes)?;
    Note::add(notes, file, Noted::Wrote { at, bytes: copy })?;
    match write_file(alloc, files, file, at, bytes) {
        Ok(()) => Ok(()),
        Err(no_memory) => {
            notes.pop();
            Err(no_memory)
        }
    }
}

impl Volume for MemVolume {
    ghost use Rattle.std.specs.Prelude.{Some};

    ghost storage = { λ volume. record { disk = Some volume.disk; faults = volume.plan.failed } };

    fn read(&mut self, file: u64, at: u64, buf: &mut [u8]) -> Result<usize, IoFault>
        ensures exact { MemReads self.old self.new file at buf.old buf.new result }
        ensures within { IfOk result (λ n. n ≤ length buf.old) }
        ensures told { ReadsAt (Some self.old.disk) file at buf.old buf.new result }
        ensures stays { Some self.new.disk ≡ Some self.old.disk }
        ensures counted { Counts self.old.plan.failed self.new.plan.failed result }
    {
        if self.plan.fails_now() {
            self.plan.fail();
            return Err(IoFault::Failed);
        }
        let n = read_from(bytes_in(&self.files, file), at, buf);
        self.plan.pass();
        Ok(n)
    }

    /// Takes memory for the bytes twice: once in the file and once in the record.
    fn write_at(&mut self, file: u64, at: u64, bytes: &[u8]) -> Result<(), IoFault>
        ensures exact { MemChanges self.old self.new (changed self.old.disk file (Wrote at bytes.now)) (changed self.old.disk file (Spoiled at (length bytes.now) [])) result }
        ensures told { WritesAt (Some self.old.disk) (Some self.new.disk) file at bytes.now result }
        ensures counted { Counts self.old.plan.failed self.new.plan.failed result }
    {
        if self.plan.fails_now() {
            let size = bytes.len();
            Note::add(&mut self.notes, file, Noted::Unwritten { at, size })?;
            self.plan.fail();
            return Err(IoFault::Failed);
        }
        write_and_note(
            self.alloc,
            &mut self.files,
            &mut self.notes,
            file,
            at,
            bytes,
        )?;
        self.plan.pass();
        Ok(())
    }

    fn cut(&mut self, file: u64, len: u64) -> Result<(), IoFault>
        ensures exact { MemChanges self.old self.new (changed self.old.disk file (Cut len)) (changed self.old.disk file (Uncut len)) result }
        ensures told { Cuts (Some self.old.disk) (Some self.new.disk) file len result }
        ensures counted { Counts self.old.plan.failed self.new.plan.failed result }
    {
        if self.plan.fails_now() {
            Note::add(&mut self.notes, file, Noted::Uncut { len })?;
            self.plan.fail();
            return Err(IoFault::Failed);
        }
        Note::add(&mut self.notes, file, Noted::Cut { len })?;
        cut_file(&mut self.files, file, len);
        self.plan.pass();
        Ok(())
    }

    fn sync(&mut self, file: u64) -> Result<(), IoFault>
        ensures exact { MemChanges self.old self.new (changed self.old.disk file Synced) self.old.disk result }
        ensures told { Syncs (Some self.old.disk) (Some self.new.disk) file result }
        ensures counted { Counts self.old.plan.failed self.new.plan.failed result }
    {
        if self.plan.fails_now() {
            self.plan.fail();
            return Err(IoFault::Failed);
        }
        Note::add(&mut self.notes, file, Noted::Synced)?;
        self.plan.pass();
        Ok(())
    }

    fn remove(&mut self, file: u64) -> Result<(), IoFault>
        ensures exact { MemChanges self.old self.new (changed self.old.disk file (Cut 0)) (changed self.old.disk file (Uncut 0)) result }
        ensures told { Cuts (Some self.old.disk) (Some self.new.disk) file 0 result }
        ensures counted { Counts self.old.plan.failed self.new.plan.failed result }
    {
        self.cut(file, 0)?;
        remove_file(&mut self.files, file);
        Ok(())
    }

    fn len(&mut self, file: u64) -> Result<u64, IoFault>
        ensures exact { MemMeasures self.old self.new file result }
        ensures told { Measures (Some self.old.disk) file result }
        ensures stays { Some self.new.disk ≡ Some self.old.disk }
        ensures counted { Counts self.old.plan.failed self.new.plan.failed result }
    {
        if self.plan.fails_now() {
            self.plan.fail();
            return Err(IoFault::Failed);
        }
        let len = bytes_in(&self.files, file).len() as u64;
        self.plan.pass();
        Ok(len)
    }
}
