//! The bytes of the sequencer log.
ghost use Rattle.qd_base.specs.declared.limits.TheConstants.{MAX_TXNS};
ghost use Rattle.qd_seq.specs.Layout.{body, mark, place_of};
ghost use Rattle.std.specs.Prelude.{◌≡◌, ◌≤◌, [], ◌∷◌, ◌++◌};

use qd_base::WalRef;

/// The number of the log's file.
pub const LOG: u64 = 1;

/// The numbers of segments are below this one.
pub const MAX_SEGMENTS: u32 = 16_777_216;

/// The gate of a record that counts.
pub(crate) const OPEN: u8 = 1;

/// The gate of a record that doesn't count, or not yet.
pub(crate) const CLOSED: u8 = 0;

/// How many bytes the mark has.
pub(crate) const MARK: usize = 8;

/// How many bytes a record has, its gate among them.
pub(crate) const RECORD: usize = 25;

/// Where the number of a writer's log stands in a record.
pub(crate) const WAL: u8 = 1;

/// Where the number of a segment stands in a record.
pub(crate) const SEGMENT: u8 = 5;

/// What a log begins with.
pub(crate) fn mark_bytes() -> [u8; MARK]
    ensures bytes { result ≡ mark }
{
    *b"TSDBSEQ1"
}

/// The log without a record: its mark, and a closed gate.
pub(crate) fn empty_log() -> [u8; 9]
    ensures bytes { result ≡ mark ++ 0 ∷ [] }
{
    *b"TSDBSEQ1\0"
}

/// Where the gate of a record is.
pub(crate) fn gate_at(n: usize) -> u64
    requires few { n ≤ MAX_TXNS }
    ensures place { result ≡ place_of n }
{
    (MARK + RECORD * n) as u64
}

/// What is written behind the gate of a record: its body, and the closed gate of the next one.
pub(crate) fn body_and_gate(at: WalRef) -> [u8; RECORD]
    ensures bytes { result ≡ body at ++ 0 ∷ [] }
{
    let mut bytes = [CLOSED; RECORD];
    bytes[..4].copy_from_slice(&at.wal.to_le_bytes());
    bytes[4..8].copy_from_slice(&at.segment.to_le_bytes());
    bytes[8..16].copy_from_slice(&at.start.to_le_bytes());
    bytes[16..24].copy_from_slice(&at.len.to_le_bytes());
    bytes
}
