//! The files of a folder, as many of them open as a table has places.
ghost use Rattle.std.specs.Prelude.{◌≤◌, length, IfOk};

use super::doubts::Doubts;
use super::failure::Refusal;
use super::names::Names;
use super::place::{
    again, len_of, lock_folder, make_file, make_folder, open_file, read_full, remove_file,
    sync_parent,
};
use lru::LruCache;
use std::alloc::{Alloc, AllocError, Global};
use std::fs::{File, Files};
use std::io;
use std::io::ErrorKind;
use std::num::NonZeroUsize;
use std::os::unix::fs::FileExt;

/// How many files stay open.
const PLACES: usize = 64;

/// The error of the system where a process may have no more files open (POSIX, EMFILE).
const TOO_MANY_OPEN: i32 = 24;

/// The file that marks a folder as a store's: it is written behind all others, and stays then.
const MARK: u64 = 0;

/// What a mark begins with.
const MADE: u8 = 1;

/// The file that has a store's log.
const LOG: u64 = 1;

/// The length of a log to which nothing was ever committed.
const NEW_LOG: u64 = 9;

/// What becomes of a file that isn't there.
#[derive(Clone, Copy, PartialEq, Eq)]
enum Missing {
    StaysAway,
    IsMade,
}

/// An open file.
#[derive(Drop)]
struct Open {
    file: File,
    /// It was written or cut since it was synced last.
    is_changed: bool,
}

/// A folder that this process alone has, and its files.
#[derive(Drop)]
pub struct OpenFiles<R: Files<File = File> + Drop> {
    rt: R,
    alloc: Global,
    path: String,
    /// The folder itself, for its syncs. It is locked as long as this is open.
    folder: File,
    /// The files that are there.
    names: Names,
    open: LruCache<u64, Open>,
    /// A file may have been made or removed since the folder was synced last, by the volume before this one too.
    is_changed: bool,
    doubts: Doubts,
}

impl<R: Files<File = File> + Drop> OpenFiles<R> {
    /// Opens a folder, or makes it, and locks it. Where it has no mark yet the folder in which it is is synced, so that a
    /// folder with a mark is one that a crash keeps. A store without its mark isn't opened, and nothing is changed in it.
    pub fn in_folder(rt: R, alloc: Global, path: &str) -> Result<OpenFiles<R>, Refusal>
    where
        R: Alloc + Clone,
    {
        make_folder(&rt, path)?;
        let folder = lock_folder(&rt, path)?;
        let mut files = OpenFiles::over(rt, alloc, path, folder)?;
        match files.look_for_mark() {
            Ok(()) => Ok(files),
            Err(refusal) => Err(refusal),
        }
    }

    /// The files of a folder that is locked, none of them open.
    fn over(rt: R, alloc: Global, path: &str, folder: File) -> io::Result<OpenFiles<R>>
    where
        R: Alloc + Clone,
    {
        let names = again(|| Names::read(&rt, alloc, path))?;
        let path = String::from_str(alloc, path)?;
        let open = LruCache::new(alloc, NonZeroUsize::new(PLACES).unwrap())?;
        Ok(OpenFiles {
            rt,
            alloc,
            path,
            folder,
            names,
            open,
            is_changed: true,
            doubts: Doubts::none(alloc),
        })
    }

    /// Looks for the mark of a folder. Without one it may have no log either.
    fn look_for_mark(&mut self) -> Result<(), Refusal> {
        let mut mark = [0];
        self.read(MARK, 0, &mut mark)?;
        if mark[0] == MADE {
            return Ok(());
        }
        if self.len(LOG)? > NEW_LOG {
            return Err(Refusal::Unmarked);
        }
        sync_parent(&self.rt, self.path.as_str())?;
        Ok(())
    }

    /// Reads from a place on, up to the end of the file.
    pub fn read(&mut self, file: u64, at: u64, buf: &mut [u8]) -> io::Result<usize>
        ensures { IfOk result (λ n. n ≤ length buf.old) }
    {
        self.hold(file, Missing::StaysAway)?;
        match self.open.get(&file) {
            Some(open) => read_full(&open.file, at, buf),
            None => Ok(0),
        }
    }

    /// Writes all of the bytes from a place on. A file that isn't there is made.
    pub fn write_at(&mut self, file: u64, at: u64, bytes: &[u8]) -> io::Result<()> {
        if bytes.is_empty() {
            return Ok(());
        }
        self.hold(file, Missing::IsMade)?;
        match self.open.get_mut(&file) {
            Some(open) => {
                open.is_changed = true;
                open.file.write_all_at(bytes, at)
            }
            None => Err(ErrorKind::NotFound.into()),
        }
    }

    /// Cuts a file that is longer to a length. One of which nothing is left has no doubts: all of it will be written anew.
    pub fn cut(&mut self, file: u64, len: u64) -> io::Result<()> {
        if self.len(file)? > len {
            self.cut_open(file, len)?;
        }
        if len == 0 {
            self.doubts.forget(file);
        }
        Ok(())
    }

    /// Cuts an open file to a length.
    fn cut_open(&mut self, file: u64, len: u64) -> io::Result<()> {
        match self.open.get_mut(&file) {
            Some(open) => {
                open.is_changed = true;
                open.file.set_len(len)
            }
            None => Ok(()),
        }
    }

    /// Syncs a file's data, and then the folder where it changed. Where a sync failed before, none is asked for: the system
    /// may have forgotten what it could not write, and would answer that all is written.
    pub fn sync(&mut self, file: u64) -> io::Result<()> {
        if self.doubts.are_of(file) {
            return Err(io::Error::other("an earlier sync of it failed"));
        }
        self.hold(file, Missing::StaysAway)?;
        if let Some(open) = self.open.get_mut(&file) {
            if let Err(error) = sync_data(open) {
                self.doubts.raise(file);
                return Err(error);
            }
        }
        self.sync_folder()
    }

    /// Syncs the folder where it changed.
    fn sync_folder(&mut self) -> io::Result<()> {
        if !self.is_changed {
            return Ok(());
        }
        if let Err(error) = self.folder.sync_all() {
            self.doubts.raise_all();
            return Err(error);
        }
        self.is_changed = false;
        Ok(())
    }

    /// Removes a file that is there: another costs no call of the system. One that is made anew has no doubts.
    pub fn remove(&mut self, file: u64) -> io::Result<()> {
        if !self.names.has(file) {
            return Ok(());
        }
        let path = self.path_of(file)?;
        match remove_file(&self.rt, path.as_str()) {
            Err(error) if error.kind() == ErrorKind::NotFound => {}
            outcome => {
                self.is_changed = true;
                outcome?;
            }
        }
        self.open.pop(&file);
        self.names.take(file);
        self.doubts.forget(file);
        Ok(())
    }

    /// The length of a file.
    pub fn len(&mut self, file: u64) -> io::Result<u64> {
        self.hold(file, Missing::StaysAway)?;
        match self.open.get(&file) {
            Some(open) => len_of(&open.file),
            None => Ok(0),
        }
    }

    /// Opens a file that is there and isn't open, in the place of the one that was used least recently.
    fn hold(&mut self, file: u64, missing: Missing) -> io::Result<()> {
        if self.open.contains(&file) {
            return Ok(());
        }
        let path = self.path_of(file)?;
        if missing == Missing::IsMade {
            self.names.add(file)?;
        }
        let Some(opened) = self.open_path(path.as_str(), missing)? else {
            return Ok(());
        };
        if self.open.len() >= PLACES {
            self.close_one();
        }
        let open = Open {
            file: opened,
            is_changed: false,
        };
        self.open.put(file, open)?;
        Ok(())
    }

    /// Opens a file. Where the process may have no more files open, those that were used least recently are closed, one
    /// after the other, until it is opened.
    fn open_path(&mut self, path: &str, missing: Missing) -> io::Result<Option<File>> {
        for _ in 0..PLACES {
            match self.open_once(path, missing) {
                Err(error) if error.raw_os_error() == Some(TOO_MANY_OPEN) => {
                    if self.open.is_empty() {
                        return Err(error);
                    }
                    self.close_one();
                }
                outcome => return outcome,
            }
        }
        self.open_once(path, missing)
    }

    /// Opens a file, or makes it where it isn't there.
    fn open_once(&mut self, path: &str, missing: Missing) -> io::Result<Option<File>> {
        match open_file(&self.rt, path) {
            Err(error) if error.kind() == ErrorKind::NotFound => match missing {
                Missing::StaysAway => Ok(None),
                Missing::IsMade => {
                    self.is_changed = true;
                    Ok(Some(make_file(&self.rt, path)?))
                }
            },
            outcome => Ok(Some(outcome?)),
        }
    }

    /// Closes the file that was used least recently. One that was changed is synced before: once it is closed the system may
    /// tell nobody that its bytes could not be written.
    fn close_one(&mut self) {
        if let Some((file, open)) = self.open.pop_lru() {
            let mut open = open;
            if open.is_changed && sync_data(&mut open).is_err() {
                self.doubts.raise(file);
            }
        }
    }

    /// The name of a file, in the folder.
    fn path_of(&self, file: u64) -> Result<String, AllocError> {
        format!(in self.alloc; "{}/{file:016x}", self.path.as_str())
    }
}

/// Syncs the data of an open file.
fn sync_data(open: &mut Open) -> io::Result<()> {
    open.file.sync_data()?;
    open.is_changed = false;
    Ok(())
}
