//! The heads and the manifest of version files.
ghost use Rattle.qd_durable.specs.Faults.{CountsVol};
ghost use Rattle.qd_durable.specs.Places.{StandsAt};
ghost use Rattle.qd_durable.specs.declared.fault.LogFault.TheVariants.{Damaged as DamagedAt};
ghost use Rattle.qd_io.specs.Ends.{Counts};
ghost use Rattle.qd_txnfile.specs.Damage.{HasNoNumber, IsDamaged};
ghost use Rattle.qd_txnfile.specs.Reading.{IsChosen, IsFound, IsGate, IsHeadOf, IsHeadGiven, IsJudged, IsManifest, IsNewestOf, IsNewestRead};
ghost use Rattle.qd_txnfile.specs.Versions.{IsClosed, file_of};
ghost use Rattle.qd_volume.specs.Disk.{Image, reads_of};
ghost use Rattle.std.specs.Int.{to_le_bytes, w64};
ghost use Rattle.std.specs.Prelude.{◌≡◌, ◌+◌, ◌<◌, ◌≤◌, ◌∷◌, length, IfNone, IfOk, IfSome};

use crate::half::{FIRST, Half, Other, SECOND};
use crate::head::{HEAD, OPEN};
use byteorder::{ByteOrder, LittleEndian};
use qd_base::Txt;
use qd_durable::LogFault;
use qd_io::IoFault;
use qd_volume::Volume;
use std::alloc::Global;
use std::marker::Model;

/// The first bytes of a version file: as many as stand before a manifest, or all that there are.
#[derive(Drop)]
struct Head {
    bytes: [u8; HEAD],
    len: usize,
}

impl Model for Head {
    ghost use Rattle.std.specs.Prelude.{ℕ, ◌≤◌, List, take};

    ghost Value = { List ℕ };

    ghost view = { λ s. take s.len s.bytes };

    ghost invariant = { λ s. s.len ≤ 17 };
}

impl Head {
    /// Lends them.
    fn shown(&self) -> &[u8]
        ensures same { result.now ≡ self.now }
        ensures few { length result.now ≤ 17 }
    {
        &self.bytes[..self.len]
    }
}

/// What a head says of the gate.
#[derive(Clone, Copy)]
enum Gate {
    /// There is no byte.
    Missing,
    /// It isn't open.
    Closed,
    /// It is open, and the number of the version is cut.
    Short,
    /// It is open, for the version of a number.
    Open(u64),
}

/// Which file has the version that both files give, by their heads.
#[derive(Clone, Copy)]
pub(crate) struct Choice {
    /// The file.
    pub half: Half,
    /// The number of the version.
    pub n: u64,
    /// What is known of the other file.
    pub other: Other,
}

/// The same with the length of the manifest.
#[derive(Clone, Copy)]
pub(crate) struct Newest {
    /// The file.
    pub half: Half,
    /// The number of the version.
    pub n: u64,
    /// What is known of the other file.
    pub other: Other,
    /// How many bytes the manifest is to have.
    pub size: u64,
}

/// Where the files are damaged.
#[derive(Clone, Copy)]
struct Damage {
    /// The file.
    half: Half,
    /// The first byte of the field that breaks the layout, or the file's length where bytes are missing.
    at: usize,
}

impl From<Damage> for LogFault {
    ghost from_gives = { λ damage fault. fault ≡ DamagedAt (file_of damage.half) damage.at };

    fn from(damage: Damage) -> LogFault {
        LogFault::Damaged {
            file: damage.half.file(),
            at: damage.at as u64,
        }
    }
}

/// Reads the first bytes of a file.
fn read_head<V: Volume>(volume: &mut V, file: u64) -> Result<Head, IoFault>
    ensures given { IfOk result (λ head. V.gives file 0 head) }
    ensures told { IfOk result (λ head. IfSome (V.storage volume.old).disk (λ disk. IsHeadOf head (reads_of disk file))) }
    ensures stays { (V.storage volume.new).disk ≡ (V.storage volume.old).disk }
    ensures counted { Counts (V.storage volume.old).faults (V.storage volume.new).faults result }
{
    let mut bytes = [0; HEAD];
    let len = volume.read(file, 0, &mut bytes)?;
    Ok(Head { bytes, len })
}

/// The number in 8 bytes from a place on, where they are there.
fn number_at(bytes: &[u8], at: usize) -> Option<u64>
    requires within { at ≤ length bytes.now }
    ensures none { IfNone result (length bytes.now < at + 8) }
    ensures some { IfSome result (λ n. StandsAt bytes.now at (to_le_bytes w64 n)) }
{
    let rest = &bytes[at..];
    if rest.len() < 8 {
        return None;
    }
    Some(LittleEndian::read_u64(rest))
}

/// What a head says of the gate.
fn gate_of(head: &[u8]) -> Gate
    ensures gate { IsGate head.now result }
{
    if head.is_empty() {
        return Gate::Missing;
    }
    if head[0] != OPEN {
        return Gate::Closed;
    }
    match number_at(head, 1) {
        None => Gate::Short,
        Some(n) => Gate::Open(n),
    }
}

/// The file of the greater number among those whose gate is open, the first one where both have it.
fn choose(first: &[u8], second: &[u8]) -> Result<Choice, Damage>
    ensures judged { (image : Image) → IsHeadOf first.now (image 2) → IsHeadOf second.now (image 3) → IsJudged result image }
    ensures found { IfOk result (λ choice. IsFound choice.other) }
{
    match gate_of(first) {
        Gate::Missing => Err(Damage {
            half: Half::First,
            at: 0,
        }),
        Gate::Closed => beside_closed(second),
        Gate::Short => Err(beside_short(first.len(), second)),
        Gate::Open(n) => beside_open(n, second),
    }
}

/// The same where the first file's gate is closed, by the head of the second one.
fn beside_closed(second: &[u8]) -> Result<Choice, Damage>
    ensures judged { (image : Image) → IsClosed (image 2) → IsHeadOf second.now (image 3) → IsJudged result image }
    ensures found { IfOk result (λ choice. IsFound choice.other) }
{
    match gate_of(second) {
        Gate::Missing => Err(Damage {
            half: Half::Second,
            at: 0,
        }),
        Gate::Closed => Err(Damage {
            half: Half::First,
            at: 0,
        }),
        Gate::Short => Err(Damage {
            half: Half::Second,
            at: second.len(),
        }),
        Gate::Open(n) => Ok(Choice {
            half: Half::Second,
            n,
            other: Other::Closed,
        }),
    }
}

/// The same where the first file's gate is open, and its number cut.
fn beside_short(len: usize, second: &[u8]) -> Damage
    ensures broken { (image : Image) → HasNoNumber (image 2) → len ≡ length (image 2) → IsHeadOf second.now (image 3) → IsDamaged image (file_of result.half) result.at }
{
    match gate_of(second) {
        Gate::Missing => Damage {
            half: Half::Second,
            at: 0,
        },
        _ => Damage {
            half: Half::First,
            at: len,
        },
    }
}

/// The same where the first file's gate is open, for the version of a number.
fn beside_open(n: u64, second: &[u8]) -> Result<Choice, Damage>
    ensures judged { (image : Image) → StandsAt (image 2) 0 (1 ∷ to_le_bytes w64 n) → IsHeadOf second.now (image 3) → IsJudged result image }
    ensures found { IfOk result (λ choice. IsFound choice.other) }
{
    match gate_of(second) {
        Gate::Missing => Err(Damage {
            half: Half::Second,
            at: 0,
        }),
        Gate::Closed => Ok(Choice {
            half: Half::First,
            n,
            other: Other::Closed,
        }),
        Gate::Short => Err(Damage {
            half: Half::Second,
            at: second.len(),
        }),
        Gate::Open(other) => Ok(newer_of(n, other)),
    }
}

/// The file of the greater of two numbers, both gates being open.
fn newer_of(first: u64, second: u64) -> Choice
    ensures first { second ≤ first → result ≡ record { half = Half.First; n = first; other = Other.Older } }
    ensures second { first < second → result ≡ record { half = Half.Second; n = second; other = Other.Older } }
    ensures found { IsFound result.other }
{
    if second <= first {
        Choice {
            half: Half::First,
            n: first,
            other: Other::Older,
        }
    } else {
        Choice {
            half: Half::Second,
            n: second,
            other: Other::Older,
        }
    }
}

/// The newest version by the heads of both files.
pub(crate) fn read_newest<V: Volume>(volume: &mut V) -> Result<Newest, LogFault>
    ensures given { IfOk result (λ newest. IsHeadGiven V.gives newest.half newest.n newest.size) }
    ensures told { IfSome (V.storage volume.old).disk (λ disk. IsNewestRead result (reads_of disk)) }
    ensures found { IfOk result (λ newest. IsFound newest.other) }
    ensures stays { (V.storage volume.new).disk ≡ (V.storage volume.old).disk }
    ensures counted { CountsVol (V.storage volume.old).faults (V.storage volume.new).faults result }
{
    let first = read_head(volume, FIRST)?;
    let second = read_head(volume, SECOND)?;
    let newest = newest_of(first.shown(), second.shown())?;
    Ok(newest)
}

/// The newest version that two heads tell of.
fn newest_of(first: &[u8], second: &[u8]) -> Result<Newest, Damage>
    ensures newest { (image : Image) → IsHeadOf first.now (image 2) → IsHeadOf second.now (image 3) → IsNewestOf result image }
    ensures found { IfOk result (λ newest. IsFound newest.other) }
{
    let choice = choose(first, second)?;
    match choice.half {
        Half::First => with_size(choice, first),
        Half::Second => with_size(choice, second),
    }
}

/// The choice with the length of the manifest, by the head of the file.
fn with_size(choice: Choice, head: &[u8]) -> Result<Newest, Damage>
    ensures newest { (image : Image) → IsHeadOf head.now (image (file_of choice.half)) → IsChosen choice.half choice.n choice.other image → IsNewestOf result image }
    ensures other { IfOk result (λ newest. newest.other ≡ choice.other) }
{
    if head.len() < HEAD {
        return Err(Damage {
            half: choice.half,
            at: head.len(),
        });
    }
    let size = LittleEndian::read_u64(&head[9..]);
    Ok(Newest {
        half: choice.half,
        n: choice.n,
        other: choice.other,
        size,
    })
}

/// Reads a manifest of so many bytes. Memory is taken once the bytes were found to be there.
pub(crate) fn read_manifest<V: Volume>(
    alloc: Global,
    volume: &mut V,
    file: u64,
    size: u64,
) -> Result<Txt, LogFault>
    ensures given { IfOk result (λ manifest. V.gives file 17 manifest) }
    ensures whole { IfOk result (λ manifest. length manifest ≡ size) }
    ensures told { IfSome (V.storage volume.old).disk (λ disk. IsManifest result file size (reads_of disk file)) }
    ensures stays { (V.storage volume.new).disk ≡ (V.storage volume.old).disk }
    ensures counted { CountsVol (V.storage volume.old).faults (V.storage volume.new).faults result }
{
    let len = volume.len(file)?;
    if len.saturating_sub(HEAD as u64) < size {
        return Err(LogFault::Damaged { file, at: len });
    }
    let mut bytes = Vec::from_elem(alloc, 0u8, size as usize)?;
    let n = volume.read(file, HEAD as u64, bytes.as_mut_slice())?;
    if (n as u64) < size {
        // The file became shorter since its length was asked for.
        return Err(LogFault::Damaged {
            file,
            at: HEAD as u64 + n as u64,
        });
    }
    Ok(Txt::from_vec(bytes))
}
