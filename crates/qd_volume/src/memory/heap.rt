//! A volume in memory for a program that needs none to last.
ghost use Rattle.qd_volume.specs.Calls.{GivesBytes};
ghost use Rattle.qd_volume.specs.Contents.{Puts, Same, held};
ghost use Rattle.qd_volume.specs.Files.{written};
ghost use Rattle.std.specs.Prelude.{◌≡◌, ℕ, [], length, take, IfErr, Ok, OnErr, OnOk};

use super::bytes::read_from;
use super::contents::{Contents, bytes_in, cut_file, remove_file, write_file};
use crate::traits::Volume;
use qd_io::IoFault;
use std::alloc::Global;
use std::collections::BTreeMap;

/// A volume in memory, for a program whose data need not outlast it. It keeps the bytes that its files have, and no record
/// of what happened to them. So it tells nothing of its content, and has no crash.
///
/// No call answers [`IoFault::Failed`]. A write answers [`IoFault::Memory`] where there is no memory for it, and all files
/// are as before. Each call takes time in the logarithm of the number of files, and in the bytes that are read or written.
/// A write behind the end of a file takes memory up to its own end, and time in how much longer the file is then.
#[derive(Drop)]
pub struct HeapVolume {
    alloc: Global,
    files: Contents,
}

impl HeapVolume {
    ghost use Rattle.qd_volume.specs.Heap.{files_of};

    /// A volume whose files have no bytes. It takes no memory.
    pub fn new(alloc: Global) -> HeapVolume
        ensures { (file : ℕ) → held (files_of result) file ≡ [] }
    {
        HeapVolume {
            alloc,
            files: BTreeMap::new(alloc),
        }
    }
}

impl Volume for HeapVolume {
    ghost use Rattle.std.specs.Prelude.{None};
    ghost use Rattle.qd_volume.specs.Heap.{files_of};

    ghost storage = { λ volume. record { disk = None; faults = 0 } };

    fn read(&mut self, file: u64, at: u64, buf: &mut [u8]) -> Result<usize, IoFault>
        ensures given { (n : ℕ) × (result ≡ Ok n) × GivesBytes (held (files_of self.old) file) at buf.old buf.new n }
        ensures same { self.new ≡ self.old }
    {
        Ok(read_from(bytes_in(&self.files, file), at, buf))
    }

    fn write_at(&mut self, file: u64, at: u64, bytes: &[u8]) -> Result<(), IoFault>
        ensures ok { OnOk result (Puts (files_of self.old) (files_of self.new) file (written (held (files_of self.old) file) at bytes.now)) }
        ensures err { OnErr result (Same (files_of self.old) (files_of self.new)) }
        ensures memory_alone { IfErr result (λ fault. fault ≡ IoFault.Memory) }
    {
        write_file(self.alloc, &mut self.files, file, at, bytes)?;
        Ok(())
    }

    fn cut(&mut self, file: u64, len: u64) -> Result<(), IoFault>
        ensures never_fails { result ≡ Ok tt }
        ensures ok { Puts (files_of self.old) (files_of self.new) file (take len (held (files_of self.old) file)) }
    {
        cut_file(&mut self.files, file, len);
        Ok(())
    }

    /// Does nothing: nothing of the file lasts longer than the program.
    fn sync(&mut self, _file: u64) -> Result<(), IoFault>
        ensures never_fails { result ≡ Ok tt }
        ensures same { self.new ≡ self.old }
    {
        Ok(())
    }

    /// Takes the file out, and frees its bytes.
    fn remove(&mut self, file: u64) -> Result<(), IoFault>
        ensures never_fails { result ≡ Ok tt }
        ensures ok { Puts (files_of self.old) (files_of self.new) file [] }
    {
        remove_file(&mut self.files, file);
        Ok(())
    }

    fn len(&mut self, file: u64) -> Result<u64, IoFault>
        ensures given { result ≡ Ok (length (held (files_of self.old) file)) }
        ensures same { self.new ≡ self.old }
    {
        Ok(bytes_in(&self.files, file).len() as u64)
    }
}
