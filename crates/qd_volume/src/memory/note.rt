//! The record of what happened to a volume in memory.
ghost use Rattle.std.specs.Prelude.{◌≡◌, ◌∷◌, ◌++◌, [], reverse, OnErr, OnOk};

use std::alloc::AllocError;
use std::marker::Model;

/// What happened to a file.
#[derive(Drop)]
pub enum Noted {
    /// These bytes were written from a place on.
    Wrote { at: u64, bytes: Vec<u8> },

    /// A write of so many bytes failed, and wrote none.
    Unwritten { at: u64, size: usize },

    /// It was cut to a length, or removed, which cuts it to 0.
    Cut { len: u64 },

    /// A cut or a removal failed, and wasn't done.
    Uncut { len: u64 },

    /// It was synced.
    Synced,
}

/// What happened, and to which file.
#[derive(Drop)]
pub struct Note {
    pub file: u64,
    pub what: Noted,
}

impl Model for Note {
    ghost use Rattle.qd_volume.specs.Disk.{Call};
    ghost use Rattle.qd_volume.specs.Notes.{change_of};

    ghost Value = { Call };

    ghost view = { λ s. record { file = s.file; change = change_of s.what } };
}

impl Note {
    ghost use Rattle.qd_volume.specs.Notes.{change_of};

    /// Notes what happened, behind what did before. Where there is no memory for it the notes are as before.
    pub fn add(notes: &mut Vec<Note>, file: u64, what: Noted) -> Result<(), AllocError>
        ensures behind { OnOk result (notes.new.items ≡ notes.old.items ++ record { file = file; change = change_of what } ∷ []) }
        ensures newest_first { OnOk result (reverse notes.new.items ≡ record { file = file; change = change_of what } ∷ reverse notes.old.items) }
        ensures err { OnErr result (notes.new.items ≡ notes.old.items) }
    {
        notes.push(Note { file, what })?;
        Ok(())
    }
}
