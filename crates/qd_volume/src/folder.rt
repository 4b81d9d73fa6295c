//! A volume over a folder of the file system: the edge to the outside.
ghost use Rattle.qd_io.specs.Ends.{Counts};
ghost use Rattle.std.specs.Prelude.{◌≡◌, ◌≤◌, length, IfOk, Ok};

use crate::traits::Volume;
use qd_io::IoFault;
use std::alloc::{Alloc, Global};
use std::fs::Files;
use std::io::{ErrorKind, Result as IoResult};

mod doubts;
mod failure;
mod files;
mod names;
mod place;

pub use failure::{Act, Failure, Refusal};
use files::OpenFiles;

/// A volume over a folder. A file's name in it is its number in 16 hexadecimal digits; a file that isn't there has no bytes. What
/// else is in the folder is left alone.
///
/// It tells nothing of its content: a real device tells nothing. It keeps up to 64 files open, none of them by the descriptors of
/// the three standard ends, and closes the one that was used least recently for another, or where the process may have no more
/// open; one that was changed is synced before. A process holds the folder for itself, by a lock on the folder, until the volume
/// is dropped or the process ends.
///
/// An error of the system is [`IoFault::Failed`] and is counted, up to the greatest `u64`, but for want of memory, which is
/// [`IoFault::Memory`]. A call that a signal interrupts is tried again. Once a sync of a file failed, each further sync of it
/// answers [`IoFault::Failed`] until it is removed, or cut to no bytes: the system may have forgotten what it could not write.
/// Once a sync of the folder failed, so does every sync.
#[derive(Drop)]
pub struct FolderVolume<R: Files<File = std::fs::File> + Drop> {
    files: OpenFiles<R>,
    faults: u64,
    /// The first call that failed.
    failure: Option<Failure>,
}

impl<R: Files<File = std::fs::File> + Drop> FolderVolume<R> {
    /// Opens a folder, and makes it where it isn't there; then its parent is synced, so that a crash keeps the folder. The
    /// path is relative to the working folder or begins with a slash.
    ///
    /// It refuses a folder where the system refuses a call, where the path isn't UTF-8, where another volume, of this process
    /// or another, has the folder open, and where it has a log and no mark: file 0 doesn't begin with the byte 1, and file 1 has more than 9 bytes,
    /// which a store has only once it is marked and something was committed to it. A folder that is refused stays as it is.
    /// It takes memory for the number of each file that is there. Such a fault has no volume to be counted at: it is the host's.
    pub fn open(rt: R, alloc: Global, folder: &[u8]) -> Result<FolderVolume<R>, Refusal>
    where
        R: Alloc + Clone,
        ensures { IfOk result (λ volume. (⟦<FolderVolume<R> as Volume>⟧.storage volume).faults ≡ 0) }
    {
        let Ok(path) = std::str::from_utf8(folder) else {
            return Err(Refusal::Name);
        };
        let files = OpenFiles::in_folder(rt, alloc, path)?;
        Ok(FolderVolume {
            files,
            faults: 0,
            failure: None,
        })
    }

    /// Closes the folder, and gives the first call that failed.
    pub fn close(self) -> Option<Failure> {
        self.failure
    }

    /// What a call answers, its failure counted.
    fn counted<T: Drop>(&mut self, act: Act, file: u64, outcome: IoResult<T>) -> Result<T, IoFault>
        ensures answer { IfOk result (λ value. outcome ≡ Ok value) }
        ensures counted { Counts self.old.faults self.new.faults result }
    {
        match outcome {
            Ok(value) => Ok(value),
            Err(error) if error.kind() == ErrorKind::OutOfMemory => Err(IoFault::Memory),
            Err(error) => {
                self.faults = self.faults.saturating_add(1);
                if self.failure.is_none() {
                    self.failure = Some(Failure { act, file, error });
                }
                Err(IoFault::Failed)
            }
        }
    }
}

impl<R: Files<File = std::fs::File> + Drop> Volume for FolderVolume<R> {
    ghost use Rattle.std.specs.Prelude.{None};

    ghost storage = { λ volume. record { disk = None; faults = volume.faults } };

    fn read(&mut self, file: u64, at: u64, buf: &mut [u8]) -> Result<usize, IoFault> {
        let outcome = self.files.read(file, at, buf);
        self.counted(Act::Read, file, outcome)
    }

    fn write_at(&mut self, file: u64, at: u64, bytes: &[u8]) -> Result<(), IoFault> {
        let outcome = self.files.write_at(file, at, bytes);
        self.counted(Act::Write, file, outcome)
    }

    fn cut(&mut self, file: u64, len: u64) -> Result<(), IoFault> {
        let outcome = self.files.cut(file, len);
        self.counted(Act::Cut, file, outcome)
    }

    /// Syncs the file's data, and then the folder where a file may have been made or removed since it was synced last: at the
    /// first sync after an opening too.
    fn sync(&mut self, file: u64) -> Result<(), IoFault> {
        let outcome = self.files.sync(file);
        self.counted(Act::Sync, file, outcome)
    }

    fn remove(&mut self, file: u64) -> Result<(), IoFault> {
        let outcome = self.files.remove(file);
        self.counted(Act::Remove, file, outcome)
    }

    fn len(&mut self, file: u64) -> Result<u64, IoFault> {
        let outcome = self.files.len(file);
        self.counted(Act::Measure, file, outcome)
    }
}
