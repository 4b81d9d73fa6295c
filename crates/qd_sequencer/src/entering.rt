//! An entry put into the write-ahead log, and its place into the log of references.
ghost use Rattle.qd_base.specs.declared.limits.TheConstants.{MAX_TXNS};
ghost use Rattle.qd_durable.specs.Moments.{Told};
ghost use Rattle.qd_io.specs.Ends.{Counts};
ghost use Rattle.qd_wal.specs.Segments.{ref_for};
ghost use Rattle.qd_sequencer.specs.Calls.{Enters};
ghost use Rattle.std.specs.Prelude.{◌≡◌, ◌^◌, ◌<◌, ◌≤◌, ◌∷◌, ◌++◌, [], length, IfOk, OnErr, OnOk, None};

use qd_base::WalRef;
use qd_io::IoFault;
use qd_seq::SeqLog;
use qd_volume::Volume;
use qd_wal::WalWriter;

/// Puts the bytes of an entry behind the last one of a writer, and appends the place to the log, which has memory for it. It
/// costs three writes and three syncs, and takes no memory of its own.
pub(crate) fn enter<V: Volume>(
    log: &mut SeqLog,
    volume: &mut V,
    writer: WalWriter,
    bytes: &[u8],
    seg_bytes: u64,
) -> Result<WalRef, IoFault>
    requires room { 0 < log.old.spare }
    requires clean { log.old.pending ≡ None }
    requires few { length log.old.refs < MAX_TXNS }
    requires wal { writer.wal ≤ length log.old.refs }
    requires segment { writer.segment ≤ length log.old.refs }
    requires size { seg_bytes ≤ 2 ^ 62 }
    ensures place { IfOk result (λ at. at ≡ ref_for writer seg_bytes (length bytes.now)) }
    ensures entered { OnOk result ((log.new.refs ≡ log.old.refs ++ ref_for writer seg_bytes (length bytes.now) ∷ []) × (log.new.pending ≡ None)) }
    ensures stays { OnErr result (log.new.refs ≡ log.old.refs) }
    ensures told { Told (V.storage volume.old).disk (V.storage volume.new).disk (Enters result log.old.refs (ref_for writer seg_bytes (length bytes.now)) bytes.now log.new.pending) }
    ensures counted { Counts (V.storage volume.old).faults (V.storage volume.new).faults result }
{
    let at = writer.put(volume, bytes, seg_bytes)?;
    log.append(volume, at)?;
    Ok(at)
}
