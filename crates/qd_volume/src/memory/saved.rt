//! What is known of a file between two syncs, by the notes of what happened to it.
ghost use Rattle.qd_volume.specs.Contents.{Learns, known};
ghost use Rattle.qd_volume.specs.Crash.{Fills, FillsLost};
ghost use Rattle.qd_volume.specs.Disk.{file_of};
ghost use Rattle.std.specs.Prelude.{◌≡◌, ℕ, reverse, IfOk, OnOk};

use super::bytes::write_into;
use super::note::{Note, Noted};
use std::alloc::{AllocError, Global};
use std::collections::BTreeMap;
use std::marker::Model;

/// A byte that stands for whatever a crash may leave.
const ANY: u8 = 255;

/// The place and the size of a write.
#[derive(Drop)]
pub struct Span {
    at: u64,
    size: usize,
}

impl Model for Span {
    ghost use Rattle.qd_volume.specs.Files.{Range};

    ghost Value = { Range };

    ghost view = { λ s. record { at = s.at; size = s.size } };
}

/// What a file reads, what was synced of it last, and where that may be lost.
#[derive(Drop)]
pub struct Saved {
    reads: Vec<u8>,
    synced: Vec<u8>,
    least: usize,
    named: Vec<Span>,
}

impl Model for Saved {
    ghost use Rattle.qd_volume.specs.Files.{File};
    ghost use Rattle.std.specs.Prelude.{reverse};

    ghost Value = { File };

    ghost view = { λ s. record { reads = s.reads.items; synced = s.synced.items; least = s.least; named = reverse s.named.items } };
}

impl Saved {
    ghost use Rattle.qd_volume.specs.Files.{after_change, settled};
    ghost use Rattle.qd_volume.specs.Notes.{change_of};
    ghost use Rattle.std.specs.Prelude.{[], ◌∷◌};

    /// A file to which nothing happened.
    fn empty(alloc: Global) -> Saved
        ensures { result ≡ settled [] }
    {
        Saved {
            reads: Vec::new(alloc),
            synced: Vec::new(alloc),
            least: 0,
            named: Vec::new(alloc),
        }
    }

    /// Goes on by what happened to it. Where there is no memory for it the file is of no use.
    fn happened(&mut self, alloc: Global, what: &Noted) -> Result<(), AllocError>
        ensures { OnOk result (self.new ≡ after_change self.old (change_of what.now)) }
    {
        match what {
            Noted::Wrote { at, bytes } => {
                self.name(*at, bytes.len())?;
                write_into(&mut self.reads, *at, bytes)
            }
            Noted::Unwritten { at, size } => self.name(*at, *size),
            Noted::Cut { len } => {
                self.reads.truncate(*len as usize);
                self.least = self.least.min(*len as usize);
                Ok(())
            }
            Noted::Uncut { len } => {
                self.least = self.least.min(*len as usize);
                Ok(())
            }
            Noted::Synced => self.settle(alloc),
        }
    }

    /// Notes the range of a write.
    fn name(&mut self, at: u64, size: usize) -> Result<(), AllocError>
        ensures { OnOk result (self.new ≡ record self.old { named = record { at = at; size = size } ∷ self.old.named }) }
    {
        self.named.push(Span { at, size })?;
        Ok(())
    }

    /// Takes what it reads as synced.
    fn settle(&mut self, alloc: Global) -> Result<(), AllocError>
        ensures { OnOk result (self.new ≡ settled self.old.reads) }
    {
        self.synced = Vec::from_slice(alloc, &self.reads)?;
        self.least = self.reads.len();
        self.named.clear();
        Ok(())
    }
}

/// Each file after what the notes say, in their order.
pub fn replay(alloc: Global, notes: &[Note]) -> Result<BTreeMap<u64, Saved>, AllocError>
    ensures { IfOk result (λ files. (file : ℕ) → known files file ≡ file_of (reverse notes.now) file) }
{
    let mut files = BTreeMap::new(alloc);
    for note in notes {
        follow(alloc, &mut files, note)?;
    }
    Ok(files)
}

/// Goes on by one note.
fn follow(alloc: Global, files: &mut BTreeMap<u64, Saved>, note: &Note) -> Result<(), AllocError>
    ensures { OnOk result (Learns files.old files.new note.now) }
{
    if let Some(saved) = files.get_mut(&note.file) {
        return saved.happened(alloc, &note.what);
    }
    let mut saved = Saved::empty(alloc);
    saved.happened(alloc, &note.what)?;
    files.insert(note.file, saved)?;
    Ok(())
}

impl Saved {
    ghost use Rattle.qd_volume.specs.Crash.{IsFilled, IsLeft};

    /// The bytes that a crash leaves by the number that picks them: 0 leaves what was synced, 1 what it reads, and any
    /// other fills what no sync has reached with bytes 255.
    pub fn image(self, pick: u64) -> Vec<u8>
        ensures { IsLeft pick self result.items }
    {
        match pick {
            0 => self.synced,
            1 => self.reads,
            _ => self.filled(),
        }
    }

    /// What it reads, filled with bytes 255 where no sync has reached.
    fn filled(mut self) -> Vec<u8>
        ensures { IsFilled self result.items }
    {
        fill_lost(&mut self.reads, self.least, &self.named);
        self.reads
    }
}

/// Fills what lies behind the least length, and in one of the ranges.
fn fill_lost(bytes: &mut [u8], least: usize, named: &[Span])
    ensures { FillsLost bytes.old least named.now bytes.new }
{
    fill(bytes, least, usize::MAX);
    for span in named {
        fill(bytes, span.at as usize, span.size);
    }
}

/// Fills so many bytes from a place on, as far as they go.
fn fill(bytes: &mut [u8], at: usize, size: usize)
    ensures { Fills bytes.old at size bytes.new }
{
    let start = at.min(bytes.len());
    let end = start + size.min(bytes.len() - start);
    bytes[start..end].fill(ANY);
}
