//! Which files had a sync that failed, and were not written anew since.
use std::alloc::Global;
use std::collections::BTreeSet;

/// The files of which a sync failed: what they had to write may be lost, though a later sync would succeed.
#[derive(Drop)]
pub struct Doubts {
    files: BTreeSet<u64>,
    /// A sync of the folder failed, or there was no memory to note a file: no file is believed.
    are_of_all: bool,
}

impl Doubts {
    /// No file is in doubt. It takes no memory.
    pub fn none(alloc: Global) -> Doubts {
        Doubts {
            files: BTreeSet::new(alloc),
            are_of_all: false,
        }
    }

    /// Whether a file is in doubt.
    pub fn are_of(&self, file: u64) -> bool {
        self.are_of_all || self.files.contains(&file)
    }

    /// A sync of a file failed.
    pub fn raise(&mut self, file: u64) {
        if self.files.insert(file).is_err() {
            self.are_of_all = true;
        }
    }

    /// A sync of the folder failed.
    pub fn raise_all(&mut self) {
        self.are_of_all = true;
    }

    /// A file was removed, or cut to nothing.
    pub fn forget(&mut self, file: u64) {
        self.files.remove(&file);
    }
}
