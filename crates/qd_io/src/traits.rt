//! The devices as traits: the two ends of a stream of bytes, and a clock, with what a call does to each.
ghost use Rattle.qd_io.specs.Clocks.{GivesTime, Timeline};
ghost use Rattle.qd_io.specs.Ends.{Counts, InputStays, OutputStays, Reads, Stream, Writes};
ghost use Rattle.std.specs.Prelude.{◌<◌, ◌≤◌, length, IfOk};

use super::fault::IoFault;

/// What clauses may say of an object that reads or writes bytes. It has no call: an object that is read
/// has an input, one that is written has an output, and a connection has both.
///
/// `stream` is what it shows: the bytes that reads may still give and those that writes have taken, each where the
/// object tells it; how many calls have failed; and the borrows through which each end is reached. No call changes
/// the borrows, so what is done through a `&mut` is known to reach what was lent.
pub trait Ends {
    ghost stream: { Self → Stream };
}

/// An object that bytes are read from.
pub trait Source: Ends {
    /// Reads into the start of `buf` and gives the number of bytes read, which is 0 only at the end of the
    /// input or where `buf` has no room. It costs one read of the device.
    ///
    /// After an `Err` no byte of the input is taken, and what `buf` holds is left open.
    fn read(&mut self, buf: &mut [u8]) -> Result<usize, IoFault>
        ensures within { IfOk result (λ n. n ≤ length buf.old) }
        ensures told { Reads (Self.stream self.old).input (Self.stream self.new).input buf.new result }

        // The count of failed reads rises exactly where `Failed` is answered.
        ensures counted { Counts (Self.stream self.old).reads_failed (Self.stream self.new).reads_failed result }

        // The other end, and the borrows through which both are reached, stay as they were.
        ensures rest { OutputStays (Self.stream self.old) (Self.stream self.new) };
}

/// An object that bytes are written to.
pub trait Sink: Ends {
    /// Writes a prefix of `bytes` and gives its length, which is 0 only where `bytes` is empty: a device
    /// that takes nothing of a piece that is not empty answers [`IoFault::Failed`]. It costs one write of
    /// the device.
    ///
    /// After an `Err` nothing of `bytes` is in the output.
    fn write(&mut self, bytes: &[u8]) -> Result<usize, IoFault>
        ensures within { IfOk result (λ n. n ≤ length bytes.now) }
        ensures some { IfOk result (λ n. 0 < length bytes.now → 0 < n) }
        ensures told { Writes (Self.stream self.old).output (Self.stream self.new).output bytes.now result }

        // The count of failed writes rises exactly where `Failed` is answered.
        ensures counted { Counts (Self.stream self.old).writes_failed (Self.stream self.new).writes_failed result }

        // The other end, and the borrows through which both are reached, stay as they were.
        ensures rest { InputStays (Self.stream self.old) (Self.stream self.new) };
}

/// An object that tells the time.
///
/// `timeline` is what it shows: the times that its calls give, where it tells them; and how many of its calls have
/// failed.
pub trait Clock {
    ghost timeline: { Self → Timeline };

    /// Reads the time, in microseconds since 1970-01-01T00:00:00Z. Nothing is said of its order: a time may be one that
    /// was given before, or less, and it may be any `u64`. It costs one read of the device.
    ///
    /// After an `Err` the same times are ahead.
    fn now(&mut self) -> Result<u64, IoFault>
        ensures told { GivesTime (Self.timeline self.old).ahead (Self.timeline self.new).ahead result }

        // The count of faults rises exactly where `Failed` is answered.
        ensures counted { Counts (Self.timeline self.old).faults (Self.timeline self.new).faults result };
}
