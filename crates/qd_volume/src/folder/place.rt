//! A folder and its lock, and one open file. Each call that a signal interrupts is made again.
ghost use Rattle.std.specs.Prelude.{◌≤◌, length, IfOk};

use super::failure::Refusal;
use std::fs::{File, Files, OpenOptions};
use std::io::ErrorKind;
use std::os::fd::AsRawFd;
use std::os::unix::fs::FileExt;
use std::path::Path;
use std::{fs, io};

/// The first place that no file can have: POSIX counts them by a signed number of 64 bits.
const PAST_ANY_FILE: u64 = 1 << 63;

/// The last descriptor of the three standard ends.
const LAST_END: i32 = 2;

/// Makes a call, and again where a signal interrupts it (POSIX, EINTR).
pub fn again<T, F: FnMut() -> io::Result<T>>(mut call: F) -> io::Result<T>
    requires { F.IsAlwaysCallable call }
{
    for _ in 0..u64::MAX {
        match call() {
            Err(error) if error.kind() == ErrorKind::Interrupted => {}
            outcome => return outcome,
        }
    }
    Err(ErrorKind::Interrupted.into())
}

/// Makes a folder that isn't there.
pub fn make_folder<R: Files>(rt: &R, path: &str) -> io::Result<()> {
    match again(|| fs::create_dir(rt, path)) {
        Err(error) if error.kind() == ErrorKind::AlreadyExists => Ok(()),
        outcome => outcome,
    }
}

/// Opens a folder and locks it, for as long as it is open.
pub fn lock_folder<R: Files<File = File>>(rt: &R, path: &str) -> Result<File, Refusal> {
    let folder = beyond_ends(File::open(rt, path)?)?;
    match folder.try_lock() {
        Ok(()) => Ok(folder),
        Err(fs::TryLockError::WouldBlock) => Err(Refusal::InUse),
        Err(fs::TryLockError::Error(error)) => Err(Refusal::System(error)),
    }
}

/// Syncs the folder in which a folder is, so that a crash keeps that one.
pub fn sync_parent<R: Files<File = File>>(rt: &R, path: &str) -> io::Result<()> {
    File::open(rt, parent_of(path))?.sync_all()
}

/// The folder in which a folder is.
fn parent_of(path: &str) -> &str {
    match Path::new(path).parent() {
        Some(parent) if !parent.as_str().is_empty() => parent.as_str(),
        Some(_) => ".",
        None => path,
    }
}

/// A file that was just opened, by a descriptor that is none of the three standard ends: where one of those is closed the
/// system gives its number to the next file, and what is meant for that end would come into the file.
fn beyond_ends(file: File) -> io::Result<File> {
    if file.as_raw_fd() <= LAST_END {
        return file.try_clone();
    }
    Ok(file)
}

/// Opens a file that is there.
pub fn open_file<R: Files<File = File>>(rt: &R, path: &str) -> io::Result<File> {
    beyond_ends(OpenOptions::new().read(true).write(true).open(rt, path)?)
}

/// Opens a file, and makes it where it isn't there.
pub fn make_file<R: Files<File = File>>(rt: &R, path: &str) -> io::Result<File> {
    let opened = OpenOptions::new()
        .read(true)
        .write(true)
        .create(true)
        .open(rt, path)?;
    beyond_ends(opened)
}

/// Removes a file.
pub fn remove_file<R: Files>(rt: &R, path: &str) -> io::Result<()> {
    again(|| fs::remove_file(rt, path))
}

/// The length of an open file.
pub fn len_of(file: &File) -> io::Result<u64> {
    Ok(again(|| file.metadata())?.len())
}

/// Reads from a place on until the buffer is full, or the file ends.
pub fn read_full(file: &File, at: u64, buf: &mut [u8]) -> io::Result<usize>
    ensures { IfOk result (λ n. n ≤ length buf.old) }
{
    if at >= PAST_ANY_FILE {
        return Ok(0);
    }
    let mut done = 0;
    while done < buf.len() {
        match read_some(file, at + done as u64, &mut buf[done..])? {
            0 => break,
            n => done += n,
        }
    }
    Ok(done)
}

/// Reads once, and again where a signal interrupts it.
fn read_some(file: &File, at: u64, buf: &mut [u8]) -> io::Result<usize>
    ensures { IfOk result (λ n. n ≤ length buf.old) }
{
    for _ in 0..u64::MAX {
        match file.read_at(buf, at) {
            Err(error) if error.kind() == ErrorKind::Interrupted => {}
            outcome => return outcome,
        }
    }
    Err(ErrorKind::Interrupted.into())
}
