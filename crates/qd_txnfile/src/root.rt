//! The root: the current version, a new one written beside it, and its gate.
ghost use Rattle.qd_durable.specs.Moments.{Told};
ghost use Rattle.qd_io.specs.Ends.{Counts};
ghost use Rattle.qd_txnfile.specs.Calls.{Closes, Creates, Flips, Repairs, WritesBody, initial};
ghost use Rattle.qd_txnfile.specs.declared.half.Other.TheVariants as other;
ghost use Rattle.qd_txnfile.specs.declared.half.Half.TheVariants.{First};
ghost use Rattle.qd_txnfile.specs.States.{IsDirty, IsNewer, IsWritten, Root, with_next, with_opening, with_other};
ghost use Rattle.qd_txnfile.specs.Versions.{file_of};
ghost use Rattle.std.specs.Prelude.{◌≡◌, ◌⊎◌, ◌↔◌, ◌<◌, IfOk, IsTrue, OnErr, OnOk};

use crate::half::{FIRST, Half, Other, SECOND};
use crate::head::{CLOSED, OPEN, head_of};
use qd_durable::{write_both, write_through};
use qd_io::IoFault;
use qd_volume::Volume;
use std::marker::Model;

/// The two version files of a volume, and what is known of them. It keeps no manifest, takes no memory, and must be the only
/// one that writes to the files.
///
/// Contracts see which file has the current version, the version's number, and what is known of the other file. What that
/// says of a told volume is the definition `Knows`.
#[derive(Debug, Drop)]
pub struct TxnFile {
    current: Half,
    n: u64,
    other: Other,
}

impl Model for TxnFile {
    ghost use Rattle.qd_txnfile.specs.States.{IsNewer, Root};

    ghost Value = { Root };

    ghost view = { λ s. record { current = s.current; n = s.n; other = s.other } };

    ghost invariant = { λ s. IsNewer s.n s.other };
}

impl TxnFile {
    /// Makes the version files: the first one holds version 0 with the manifest given, and the gate of the second one is closed.
    /// It costs three writes and two syncs. After an `Err` there may be any bytes in the places of the layout, so it is to be
    /// called before anything rests on the files.
    pub fn create<V: Volume>(volume: &mut V, manifest: &[u8]) -> Result<TxnFile, IoFault>
        ensures root { IfOk result (λ root. root ≡ record { current = First; n = 0; other = other.Closed }) }
        ensures told { Told (V.storage volume.old).disk (V.storage volume.new).disk (Creates result (initial manifest.now)) }

        // The count of faults rises exactly where `Failed` is answered.
        ensures counted { Counts (V.storage volume.old).faults (V.storage volume.new).faults result }
    {
        let head = head_of(0, manifest.len() as u64);
        write_both(volume, FIRST, 0, &head, manifest)?;
        write_through(volume, SECOND, 0, &[CLOSED])?;
        Ok(TxnFile::found(Half::First, 0, Other::Closed))
    }

    /// A root of which this is known.
    pub(crate) fn found(current: Half, n: u64, other: Other) -> TxnFile
        requires newer { IsNewer n other }
        ensures root { result ≡ record { current = current; n = n; other = other } }
    {
        TxnFile { current, n, other }
    }

    /// The number of the current version.
    pub fn n(&self) -> u64
        ensures number { result ≡ self.now.n }
    {
        self.n
    }

    /// The number of the file that holds the current version.
    pub fn file(&self) -> u64
        ensures file { result ≡ file_of self.now.current }
    {
        self.current.file()
    }

    /// Whether a flip failed that wasn't repaired since: a crash may leave the current version, or the one that was written
    /// last.
    pub fn dirty(&self) -> bool
        ensures dirty { IsTrue result ↔ IsDirty self.now.other }
    {
        matches!(self.other, Other::Opening { .. })
    }

    /// Writes a version into the file that doesn't hold the current one. At every moment, and whatever it answers, a crash leaves
    /// the current version.
    ///
    /// It costs two writes and a sync, and a write and a sync more where the gate of that file may be open. After an `Err` the
    /// call may be made again.
    pub fn write_body<V: Volume>(
        &mut self,
        volume: &mut V,
        n: u64,
        manifest: &[u8],
    ) -> Result<(), IoFault>
        requires newer { self.old.n < n }
        requires clean { IsDirty self.old.other → ⊥ }
        ensures written { OnOk result (self.new ≡ with_other self.old (other.Written n)) }
        ensures stays { OnErr result ((self.new ≡ with_other self.old other.Older) ⊎ (self.new ≡ with_other self.old other.Closed)) }
        ensures told { Told (V.storage volume.old).disk (V.storage volume.new).disk (WritesBody self.old self.new (record { n = n; manifest = manifest.now })) }

        // The count of faults rises exactly where `Failed` is answered.
        ensures counted { Counts (V.storage volume.old).faults (V.storage volume.new).faults result }
    {
        let file = self.current.other().file();
        self.close_older(volume)?;
        let head = head_of(n, manifest.len() as u64);
        write_both(volume, file, 1, &head[1..], manifest)?;
        self.other = Other::Written { n };
        Ok(())
    }

    /// Sees to it that the gate of the other file isn't open, where that isn't known.
    fn close_older<V: Volume>(&mut self, volume: &mut V) -> Result<(), IoFault>
        requires clean { IsDirty self.old.other → ⊥ }
        ensures closed { OnOk result (self.new ≡ with_other self.old other.Closed) }
        ensures stays { OnErr result ((self.new ≡ self.old) × (self.old.other ≡ other.Older)) }
        ensures told { Told (V.storage volume.old).disk (V.storage volume.new).disk (Closes self.old self.new) }
        ensures counted { Counts (V.storage volume.old).faults (V.storage volume.new).faults result }
    {
        match self.other {
            Other::Older => {
                let older = self.current.other().file();
                write_through(volume, older, 0, &[CLOSED])?;
                self.other = Other::Closed;
                Ok(())
            }
            _ => {
                self.other = Other::Closed;
                Ok(())
            }
        }
    }

    /// Opens the gate of the version that was written last, with which it is the current one. It costs a write of one byte and a
    /// sync.
    ///
    /// At every moment a crash leaves the current version or the new one, and after an `Ok` only the new one. After an `Err`
    /// either may be left and the root is dirty, with the current version as before: [`TxnFile::repair`] settles it.
    pub fn flip<V: Volume>(&mut self, volume: &mut V) -> Result<(), IoFault>
        requires written { IsWritten self.old.other }
        ensures turned { OnOk result (self.new ≡ with_next self.old) }
        ensures stays { OnErr result (self.new ≡ with_opening self.old) }
        ensures told { Told (V.storage volume.old).disk (V.storage volume.new).disk (Flips result self.old self.new) }

        // The count of faults rises exactly where `Failed` is answered.
        ensures counted { Counts (V.storage volume.old).faults (V.storage volume.new).faults result }
    {
        match self.other {
            Other::Written { n } => {
                self.other = Other::Opening { n };
                write_through(volume, self.current.other().file(), 0, &[OPEN])?;
                self.current = self.current.other();
                self.n = n;
                self.other = Other::Older;
                Ok(())
            }
            _ => Ok(()),
        }
    }

    /// Closes the gate that a failed flip may have opened. It costs a write of one byte and a sync; where the root isn't dirty
    /// it does nothing.
    ///
    /// At every moment a crash leaves the current version or the one of that flip, and after an `Ok` only the current one. After
    /// an `Err` the root is dirty as before.
    pub fn repair<V: Volume>(&mut self, volume: &mut V) -> Result<(), IoFault>
        ensures clean { OnOk result ((IsDirty self.old.other × (self.new ≡ with_other self.old other.Closed)) ⊎ ((IsDirty self.old.other → ⊥) × (self.new ≡ self.old))) }
        ensures stays { OnErr result (IsDirty self.old.other × (self.new ≡ self.old)) }
        ensures told { Told (V.storage volume.old).disk (V.storage volume.new).disk (Repairs result self.old self.new) }

        // The count of faults rises exactly where `Failed` is answered.
        ensures counted { Counts (V.storage volume.old).faults (V.storage volume.new).faults result }
    {
        match self.other {
            Other::Opening { .. } => {
                write_through(volume, self.current.other().file(), 0, &[CLOSED])?;
                self.other = Other::Closed;
                Ok(())
            }
            _ => Ok(()),
        }
    }
}
