//! The version that two files give.
ghost use Rattle.qd_durable.specs.Faults.{CountsVol};
ghost use Rattle.qd_durable.specs.Moments.{Told};
ghost use Rattle.qd_io.specs.Ends.{Counts};
ghost use Rattle.qd_txnfile.specs.Opening.{IsGiven, IsRead, Opens, Settles};
ghost use Rattle.std.specs.Prelude.{◌≡◌, IfOk, IfSome};

use crate::half::{FIRST, SECOND};
use crate::reading::{read_manifest, read_newest};
use crate::root::TxnFile;
use qd_base::Txt;
use qd_durable::LogFault;
use qd_io::IoFault;
use qd_volume::Volume;
use std::alloc::Global;

/// What is found when version files are opened.
#[derive(Debug, Drop)]
pub struct Found {
    /// The root, over the version that was found.
    pub file: TxnFile,
    /// The number of the version.
    pub n: u64,
    /// Its manifest.
    pub manifest: Txt,
}

impl TxnFile {
    /// Opens the version files: it syncs both and reads the version that they give. It costs two syncs and at most four reads,
    /// and time and memory linear in the manifest; no memory is taken for bytes that aren't there.
    ///
    /// At every moment, and whatever is answered, a crash leaves only what it might have left before the call, and after an `Ok`
    /// only that version. What files read stays as it was. An `Err` is [`LogFault::Damaged`] exactly where the files give no
    /// version, at the first byte of the first field that breaks the layout, or at a file's length where bytes are missing.
    /// What is found was read: where the volume gives fewer bytes, whatever it tells, none are taken in their place.
    pub fn open_versions<V: Volume>(alloc: Global, volume: &mut V) -> Result<Found, LogFault>
        ensures given { IfOk result (λ found. IsGiven V.gives found) }
        ensures told { Told (V.storage volume.old).disk (V.storage volume.new).disk (Opens result) }

        // The count of faults rises exactly where `Vol` is answered.
        ensures counted { CountsVol (V.storage volume.old).faults (V.storage volume.new).faults result }
    {
        settle(volume)?;
        read_versions(alloc, volume)
    }
}

/// Syncs both files.
fn settle<V: Volume>(volume: &mut V) -> Result<(), IoFault>
    ensures told { Told (V.storage volume.old).disk (V.storage volume.new).disk (Settles result) }
    ensures counted { Counts (V.storage volume.old).faults (V.storage volume.new).faults result }
{
    volume.sync(FIRST)?;
    volume.sync(SECOND)
}

/// Reads the version that both files give.
fn read_versions<V: Volume>(alloc: Global, volume: &mut V) -> Result<Found, LogFault>
    ensures given { IfOk result (λ found. IsGiven V.gives found) }
    ensures told { IfSome (V.storage volume.old).disk (λ disk. IsRead result disk) }
    ensures stays { (V.storage volume.new).disk ≡ (V.storage volume.old).disk }
    ensures counted { CountsVol (V.storage volume.old).faults (V.storage volume.new).faults result }
{
    let newest = read_newest(volume)?;
    let manifest = read_manifest(alloc, volume, newest.half.file(), newest.size)?;
    Ok(Found {
        file: TxnFile::found(newest.half, newest.n, newest.other),
        n: newest.n,
        manifest,
    })
}
