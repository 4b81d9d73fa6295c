//! The list that the bytes of a log give, read piece by piece.
ghost use Rattle.qd_base.specs.declared.limits.TheConstants.{MAX_TXNS};
ghost use Rattle.qd_durable.specs.Faults.{CountsVol};
ghost use Rattle.qd_durable.specs.Places.{StandsAt};
ghost use Rattle.qd_durable.specs.declared.fault.LogFault.TheVariants.{Damaged};
ghost use Rattle.qd_seq.specs.Layout.{AreInSegments, Fits, HasRecords, body, place_of};
ghost use Rattle.qd_seq.specs.Reading.{AreTaken, IsGiven, IsListRead, IsMarked, IsOfBytes, IsPieceGiven, IsPieceRead, IsRead, IsSeen, IsSoFar, IsUsedUp};
ghost use Rattle.qd_volume.specs.Disk.{reads_of};
ghost use Rattle.std.specs.Prelude.{◌≡◌, ◌+◌, ◌<◌, ◌≤◌, ℕ, List, [], length, take, true, IfErr, IfOk, IfSome, OnOk};

use crate::layout::{LOG, MARK, MAX_SEGMENTS, OPEN, RECORD, SEGMENT, WAL, gate_at, mark_bytes};
use byteorder::{ByteOrder, LittleEndian};
use qd_base::{MAX_TXNS, WalRef};
use qd_durable::LogFault;
use qd_volume::Volume;
use std::alloc::{AllocError, Global};

/// How many bytes are read at once, but for the mark: those of 2,048 records.
const PIECE: usize = 51_200;

/// Why no record follows.
#[derive(Clone, Copy)]
pub(crate) enum End {
    /// The next gate isn't open.
    Closed,
    /// The bytes end before the next gate, or inside of a record whose gate is open.
    Cut,
    /// The next gate is open, and its record breaks the layout at a byte of it.
    Broken { byte: u8 },
}

/// What stands at the place of a record.
#[derive(Clone, Copy)]
enum Seen {
    /// A record, and what it refers to.
    Entry(WalRef),
    /// The end.
    Ends(End),
}

/// Reads the list of the log. It costs a read for the mark, one for each piece of the records that are there, and memory for
/// these and for one piece.
pub(crate) fn read_refs<V: Volume>(alloc: Global, volume: &mut V) -> Result<Vec<WalRef>, LogFault>
    ensures given { IfOk result (λ refs. IsGiven V.gives refs.items) }
    ensures told { IfSome (V.storage volume.old).disk (λ disk. IsRead result (reads_of disk 1)) }
    ensures few { IfOk result (λ refs. length refs.items ≤ MAX_TXNS) }
    ensures segments { IfOk result (λ refs. AreInSegments refs.items) }
    ensures stays { (V.storage volume.new).disk ≡ (V.storage volume.old).disk }
    ensures counted { CountsVol (V.storage volume.old).faults (V.storage volume.new).faults result }
{
    read_mark(volume)?;
    let mut piece = zeros(alloc, PIECE)?;
    let mut refs = Vec::new(alloc);
    read_pieces(volume, piece.as_mut_slice(), &mut refs)?;
    Ok(refs)
}

/// So many bytes, to read into.
fn zeros(alloc: Global, len: usize) -> Result<Vec<u8>, AllocError>
    ensures len { IfOk result (λ bytes. length bytes.items ≡ len) }
{
    Vec::from_elem(alloc, 0u8, len)
}

/// Reads piece after piece behind the records so far, and takes their records.
fn read_pieces<V: Volume>(
    volume: &mut V,
    piece: &mut [u8],
    refs: &mut Vec<WalRef>,
) -> Result<(), LogFault>
    requires room { 25 ≤ length piece.old }
    requires few { length refs.old.items ≤ MAX_TXNS }
    requires segments { AreInSegments refs.old.items }
    ensures given { IsSoFar V.gives refs.old.items → OnOk result (IsGiven V.gives refs.new.items) }
    ensures told { IfSome (V.storage volume.old).disk (λ disk. HasRecords refs.old.items (reads_of disk 1) → IsListRead result refs.new.items (reads_of disk 1)) }
    ensures few { length refs.new.items ≤ MAX_TXNS }
    ensures segments { AreInSegments refs.new.items }
    ensures stays { (V.storage volume.new).disk ≡ (V.storage volume.old).disk }
    ensures counted { CountsVol (V.storage volume.old).faults (V.storage volume.new).faults result }
{
    'pieces: loop {
        let more = read_piece(volume, piece, refs)?;
        if !more {
            return Ok(());
        }
    }
}

/// Reads the mark.
fn read_mark<V: Volume>(volume: &mut V) -> Result<(), LogFault>
    ensures given { OnOk result (IsSoFar V.gives []) }
    ensures told { IfSome (V.storage volume.old).disk (λ disk. IsMarked result (reads_of disk 1)) }
    ensures stays { (V.storage volume.new).disk ≡ (V.storage volume.old).disk }
    ensures counted { CountsVol (V.storage volume.old).faults (V.storage volume.new).faults result }
{
    let mut bytes = [0; MARK];
    let n = volume.read(LOG, 0, &mut bytes)?;
    check_mark(&bytes[..n])
}

/// Compares the first bytes of a log with the mark: as many as that has, or all that there are.
fn check_mark(bytes: &[u8]) -> Result<(), LogFault>
    requires few { length bytes.now ≤ 8 }
    ensures marked { (whole : List ℕ) → bytes.now ≡ take 8 whole → IsMarked result whole }
    ensures bytes { IfErr result IsOfBytes }
{
    if bytes != &mark_bytes()[..bytes.len()] {
        return Err(damaged(0));
    }
    if bytes.len() < MARK {
        return Err(damaged(bytes.len() as u64));
    }
    Ok(())
}

/// The answer where the log is damaged at a place.
fn damaged(at: u64) -> LogFault
    ensures fault { result ≡ Damaged 1 at }
{
    LogFault::Damaged { file: LOG, at }
}

/// Reads one piece behind the records so far, and takes the records in it. It says whether more may follow.
fn read_piece<V: Volume>(
    volume: &mut V,
    piece: &mut [u8],
    refs: &mut Vec<WalRef>,
) -> Result<bool, LogFault>
    requires room { 25 ≤ length piece.old }
    requires few { length refs.old.items ≤ MAX_TXNS }
    requires segments { AreInSegments refs.old.items }
    ensures given { IsSoFar V.gives refs.old.items → IsPieceGiven V.gives result refs.new.items }
    ensures told { IfSome (V.storage volume.old).disk (λ disk. HasRecords refs.old.items (reads_of disk 1) → IsPieceRead result refs.new.items (reads_of disk 1)) }
    ensures few { length refs.new.items ≤ MAX_TXNS }
    ensures segments { AreInSegments refs.new.items }
    ensures grown { IfOk result (λ more. more ≡ true → length refs.old.items < length refs.new.items) }
    ensures stays { (V.storage volume.new).disk ≡ (V.storage volume.old).disk }
    ensures counted { CountsVol (V.storage volume.old).faults (V.storage volume.new).faults result }
{
    let at = gate_at(refs.len());
    let n = volume.read(LOG, at, piece)?;
    let end = take_records(&piece[..n], refs)?;
    match end {
        End::Closed => Ok(false),
        End::Cut => {
            if n < piece.len() {
                return Err(damaged(at + n as u64));
            }
            Ok(true)
        }
        End::Broken { byte } => Err(damaged(gate_at(refs.len()) + byte as u64)),
    }
}

/// Takes the records at the start of a piece, and says why there is no further one.
fn take_records(piece: &[u8], refs: &mut Vec<WalRef>) -> Result<End, AllocError>
    requires few { length refs.old.items ≤ MAX_TXNS }
    requires segments { AreInSegments refs.old.items }
    ensures taken { IfOk result (λ end. (bytes : List ℕ) → HasRecords refs.old.items bytes → StandsAt bytes (place_of (length refs.old.items)) piece.now → AreTaken end refs.new.items (place_of (length refs.old.items) + length piece.now) bytes) }
    ensures used { IfOk result (λ end. IsUsedUp end (length refs.old.items) (length refs.new.items) (length piece.now)) }
    ensures few { length refs.new.items ≤ MAX_TXNS }
    ensures segments { AreInSegments refs.new.items }
{
    let mut at = 0;
    'records: loop {
        match judge(&piece[at..], refs.len()) {
            Seen::Entry(place) => {
                refs.push(place)?;
                at += RECORD;
            }
            Seen::Ends(end) => return Ok(end),
        }
    }
}

/// What stands at the place of record n, by the bytes from there on.
fn judge(rest: &[u8], n: usize) -> Seen
    requires few { n ≤ MAX_TXNS }
    ensures seen { IsSeen result n rest.now }
{
    if rest.is_empty() {
        return Seen::Ends(End::Cut);
    }
    if rest[0] != OPEN {
        return Seen::Ends(End::Closed);
    }
    if n == MAX_TXNS as usize {
        return Seen::Ends(End::Broken { byte: 0 });
    }
    if rest.len() < RECORD {
        return Seen::Ends(End::Cut);
    }
    let place = ref_in(rest);
    if place.wal as usize > n {
        return Seen::Ends(End::Broken { byte: WAL });
    }
    if place.segment >= MAX_SEGMENTS {
        return Seen::Ends(End::Broken { byte: SEGMENT });
    }
    Seen::Entry(place)
}

/// What a record refers to, by its bytes with the gate in front.
fn ref_in(bytes: &[u8]) -> WalRef
    requires whole { 25 ≤ length bytes.now }
    ensures stands { StandsAt bytes.now 1 (body result) }
    ensures fits { Fits result }
{
    WalRef {
        wal: LittleEndian::read_u32(&bytes[1..]),
        segment: LittleEndian::read_u32(&bytes[5..]),
        start: LittleEndian::read_u64(&bytes[9..]),
        len: LittleEndian::read_u64(&bytes[17..]),
    }
}
