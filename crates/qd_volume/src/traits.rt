//! A volume as a trait: files of bytes, and what a crash may leave of them.
ghost use Rattle.qd_io.specs.Ends.{Counts};
ghost use Rattle.qd_volume.specs.Calls.{Cuts, Measures, ReadsAt, Storage, Syncs, WritesAt};
ghost use Rattle.std.specs.Prelude.{◌≡◌, ◌≤◌, ℕ, List, length, take, IfOk, ⊤};

use qd_io::IoFault;

/// Files of bytes, each known by a number. A file that was never written, or was removed, has no bytes.
///
/// `storage` is what it shows: the changes that calls made to its files, where it tells them, from which follow what
/// reads give and what a crash may leave, now and at each moment so far; and how many of its calls have failed.
///
/// Until a file is synced, a crash may leave any bytes in the ranges that were written since, and behind the least
/// length that the file had since, and the file may end anywhere there. A removal or a cut may be done or not.
///
/// `gives` says which bytes a read of a file from a place on may have given, and is known of what a read gave alone: a
/// function over any volume that promises it of some bytes has them from the volume, also where that tells nothing.
pub trait Volume {
    ghost storage: { Self → Storage };

    ghost gives: { ℕ → ℕ → List ℕ → Type 0 } = { λ file at bytes. ⊤ };

    /// Reads the bytes of a file from a place on into the start of `buf`, and gives their number: as many as are there,
    /// and as `buf` has room for. It is 0 from the end of the file on.
    ///
    /// After an `Err` what `buf` holds is left open.
    fn read(&mut self, file: u64, at: u64, buf: &mut [u8]) -> Result<usize, IoFault>
        ensures within { IfOk result (λ n. n ≤ length buf.old) }
        ensures given { IfOk result (λ n. Self.gives file at (take n buf.new)) }
        ensures told { ReadsAt (Self.storage self.old).disk file at buf.old buf.new result }
        ensures stays { (Self.storage self.new).disk ≡ (Self.storage self.old).disk }

        // The count of faults rises exactly where `Failed` is answered.
        ensures counted { Counts (Self.storage self.old).faults (Self.storage self.new).faults result };

    /// Writes `bytes` into a file from a place on. A gap between its end and the place is filled with zero bytes. Where
    /// `bytes` is empty nothing is written, and no gap is filled.
    ///
    /// After an `Err` there may be any bytes in the range, and the others are as before.
    fn write_at(&mut self, file: u64, at: u64, bytes: &[u8]) -> Result<(), IoFault>
        ensures told { WritesAt (Self.storage self.old).disk (Self.storage self.new).disk file at bytes.now result }

        // The count of faults rises exactly where `Failed` is answered.
        ensures counted { Counts (Self.storage self.old).faults (Self.storage self.new).faults result };

    /// Cuts a file to its first `len` bytes. A file that is no longer than that keeps its bytes.
    ///
    /// After an `Err` the file is cut or as before.
    fn cut(&mut self, file: u64, len: u64) -> Result<(), IoFault>
        ensures told { Cuts (Self.storage self.old).disk (Self.storage self.new).disk file len result }

        // The count of faults rises exactly where `Failed` is answered.
        ensures counted { Counts (Self.storage self.old).faults (Self.storage self.new).faults result };

    /// Waits until a file is on the disk as it reads: from then on, until the next change, a crash leaves that.
    ///
    /// After an `Err` a crash may leave what it might have left before.
    fn sync(&mut self, file: u64) -> Result<(), IoFault>
        ensures told { Syncs (Self.storage self.old).disk (Self.storage self.new).disk file result }

        // The count of faults rises exactly where `Failed` is answered.
        ensures counted { Counts (Self.storage self.old).faults (Self.storage self.new).faults result };

    /// Removes a file: it has no bytes then. A file that isn't there stays so.
    ///
    /// After an `Err` the file is removed or as before.
    fn remove(&mut self, file: u64) -> Result<(), IoFault>
        ensures told { Cuts (Self.storage self.old).disk (Self.storage self.new).disk file 0 result }

        // The count of faults rises exactly where `Failed` is answered.
        ensures counted { Counts (Self.storage self.old).faults (Self.storage self.new).faults result };

    /// The number of bytes of a file.
    fn len(&mut self, file: u64) -> Result<u64, IoFault>
        ensures told { Measures (Self.storage self.old).disk file result }
        ensures stays { (Self.storage self.new).disk ≡ (Self.storage self.old).disk }

        // The count of faults rises exactly where `Failed` is answered.
        ensures counted { Counts (Self.storage self.old).faults (Self.storage self.new).faults result };
}
