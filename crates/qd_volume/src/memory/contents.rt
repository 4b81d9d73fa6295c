//! The files of a volume in memory.
ghost use Rattle.qd_volume.specs.Contents.{Puts, Same, held};
ghost use Rattle.qd_volume.specs.Files.{written};
ghost use Rattle.std.specs.Prelude.{◌≡◌, [], take, OnErr, OnOk};

use super::bytes::write_into;
use std::alloc::{AllocError, Global};
use std::collections::BTreeMap;

/// The bytes of each file that has some, by its number.
pub type Contents = BTreeMap<u64, Vec<u8>>;

/// The bytes of a file. It takes time in the logarithm of the number of files.
pub fn bytes_in(files: &Contents, file: u64) -> &[u8]
    ensures { result.now ≡ held files.now file }
{
    match files.get(&file) {
        Some(bytes) => bytes,
        None => &[],
    }
}

/// Writes into a file from a place on. Where there is no memory for it the files are as before.
pub fn write_file(
    alloc: Global,
    files: &mut Contents,
    file: u64,
    at: u64,
    more: &[u8],
) -> Result<(), AllocError>
    ensures ok { OnOk result (Puts files.old files.new file (written (held files.old file) at more.now)) }
    ensures err { OnErr result (Same files.old files.new) }
{
    if let Some(bytes) = files.get_mut(&file) {
        return write_into(bytes, at, more);
    }
    let mut bytes = Vec::new(alloc);
    write_into(&mut bytes, at, more)?;
    files.insert(file, bytes)?;
    Ok(())
}

/// Cuts a file to its first `len` bytes.
pub fn cut_file(files: &mut Contents, file: u64, len: u64)
    ensures { Puts files.old files.new file (take len (held files.old file)) }
{
    if let Some(bytes) = files.get_mut(&file) {
        bytes.truncate(len as usize);
    }
}

/// Takes a file out, and frees its bytes.
pub fn remove_file(files: &mut Contents, file: u64)
    ensures { Puts files.old files.new file [] }
{
    files.remove(&file);
}
