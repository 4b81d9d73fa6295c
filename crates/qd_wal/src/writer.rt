//! A writer that puts entries one behind another.
ghost use Rattle.qd_durable.specs.Moments.{Told};
ghost use Rattle.qd_io.specs.Ends.{Counts};
ghost use Rattle.qd_wal.specs.Puts.{Puts};
ghost use Rattle.qd_wal.specs.Segments.{behind, ref_for, segment_file};
ghost use Rattle.std.specs.Prelude.{◌≡◌, ◌+◌, ◌^◌, ◌<◌, length, IfOk};

use qd_base::WalRef;
use qd_durable::write_through;
use qd_io::IoFault;
use qd_volume::Volume;

/// Where the next entry of a log goes. It keeps no bytes, takes no memory, and must be the only one that writes to its log.
#[derive(Clone, Copy, Debug, PartialEq, Eq)]
pub struct WalWriter {
    /// The number of the log.
    pub wal: u32,
    /// The number of the segment that was written last.
    pub segment: u32,
    /// The offset behind the last entry in that segment.
    pub end: u64,
}

impl WalWriter {
    /// Puts the bytes of an entry behind the last one, and waits until they are on the disk; in the next segment, where this
    /// one has reached `seg_bytes`. It costs one write and one sync. The writer stays where it is: [`WalWriter::advance`]
    /// moves it behind the entry, once the entry is to stay.
    ///
    /// At every moment, and whatever it answers, a crash leaves all other files as they were, and the segment below the place
    /// of the entry. After an `Ok` it leaves the entry too. After an `Err` there may be any bytes from that place on, and the
    /// call may be made again.
    pub fn put<V: Volume>(
        &self,
        volume: &mut V,
        bytes: &[u8],
        seg_bytes: u64,
    ) -> Result<WalRef, IoFault>
        requires segment { (ref_for self.now seg_bytes (length bytes.now)).segment < 2 ^ 24 }
        requires room { (ref_for self.now seg_bytes (length bytes.now)).start + length bytes.now < 2 ^ 64 }
        ensures place { IfOk result (λ at. at ≡ ref_for self.now seg_bytes (length bytes.now)) }
        ensures told { Told (V.storage volume.old).disk (V.storage volume.new).disk (Puts result (ref_for self.now seg_bytes (length bytes.now)) bytes.now) }

        // The count of faults rises exactly where `Failed` is answered.
        ensures counted { Counts (V.storage volume.old).faults (V.storage volume.new).faults result }
    {
        let at = self.next(bytes.len() as u64, seg_bytes);
        write_through(volume, segment_file(at.wal, at.segment), at.start, bytes)?;
        Ok(at)
    }

    /// Moves the writer behind an entry that was put.
    pub fn advance(&mut self, at: WalRef)
        requires room { at.start + at.len < 2 ^ 64 }
        ensures moved { self.new ≡ behind at }
    {
        self.wal = at.wal;
        self.segment = at.segment;
        self.end = at.start + at.len;
    }

    /// The place of an entry of so many bytes.
    fn next(&self, len: u64, seg_bytes: u64) -> WalRef
        requires segment { (ref_for self.now seg_bytes len).segment < 2 ^ 24 }
        ensures place { result ≡ ref_for self.now seg_bytes len }
    {
        if self.end >= seg_bytes {
            return WalRef {
                wal: self.wal,
                segment: self.segment + 1,
                start: 0,
                len,
            };
        }
        WalRef {
            wal: self.wal,
            segment: self.segment,
            start: self.end,
            len,
        }
    }
}

/// The number of the file that holds a segment of a log. Segments have numbers below 2^24: from there on it would be the file
/// of a later log's segment.
pub fn segment_file(wal: u32, segment: u32) -> u64
    requires segment { segment < 2 ^ 24 }
    ensures number { result ≡ segment_file wal segment }
{
    (1 << 63) + ((wal as u64) << 24) + segment as u64
}
