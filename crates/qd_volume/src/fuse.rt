//! A volume that stops after a number of calls.
ghost use Rattle.qd_io.specs.Ends.{Counts};
ghost use Rattle.qd_volume.specs.Calls.{Cuts, Measures, ReadsAt, Syncs, WritesAt};
ghost use Rattle.std.specs.Prelude.{◌≡◌, ◌-◌, ◌<◌, ◌≤◌, length, take, Err, IfOk, Ok};

use crate::traits::Volume;
use qd_io::IoFault;

/// Passes a number of calls on to another volume, and fails every call after them, as a machine that stops there: what was
/// begun by then stays begun, and nothing more reaches the other volume.
#[derive(Drop)]
pub struct FuseVolume<V> {
    inner: V,
    passes: u64,
    refused: u64,
}

impl<V: Volume> FuseVolume<V> {
    ghost use Rattle.qd_volume.specs.Fuse.{inner_of, passes_of};

    /// A volume that passes so many calls on. It takes no memory.
    pub fn new(inner: V, passes: u64) -> FuseVolume<V>
        ensures inner { inner_of result ≡ inner }
        ensures passes { passes_of result ≡ passes }
        ensures none_failed { (⟦<FuseVolume<V> as Volume>⟧.storage result).faults ≡ (V.storage inner).faults }
    {
        FuseVolume {
            inner,
            passes,
            refused: 0,
        }
    }

    /// The other volume, as the calls that were passed on left it.
    pub fn into_inner(self) -> V
        ensures { result ≡ inner_of self }
    {
        self.inner
    }
}

/// Takes one from the calls that are passed on. Where none are left it counts a fault.
fn spend(passes: &mut u64, refused: &mut u64) -> Result<(), IoFault>
    ensures spent { passes.new ≡ passes.old - 1 }
    ensures blown { passes.old ≡ 0 → result ≡ Err IoFault.Failed }
    ensures passed { 0 < passes.old → (result ≡ Ok tt) × (refused.new ≡ refused.old) }
    ensures counted { Counts refused.old refused.new result }
{
    if *passes == 0 {
        *refused = refused.saturating_add(1);
        return Err(IoFault::Failed);
    }
    *passes -= 1;
    Ok(())
}

impl<V: Volume> Volume for FuseVolume<V> {
    ghost use Rattle.qd_volume.specs.Fuse.{Burns, faults_of, inner_of, passes_of};

    ghost storage = { λ fuse. record { disk = (V.storage (inner_of fuse)).disk; faults = faults_of (V.storage (inner_of fuse)).faults fuse } };

    ghost gives = { V.gives };

    fn read(&mut self, file: u64, at: u64, buf: &mut [u8]) -> Result<usize, IoFault>
        ensures within { IfOk result (λ n. n ≤ length buf.old) }
        ensures given { IfOk result (λ n. V.gives file at (take n buf.new)) }
        ensures told { ReadsAt (V.storage (inner_of self.old)).disk file at buf.old buf.new result }
        ensures stays { (V.storage (inner_of self.new)).disk ≡ (V.storage (inner_of self.old)).disk }
        ensures counted { Counts (faults_of (V.storage (inner_of self.old)).faults self.old) (faults_of (V.storage (inner_of self.new)).faults self.new) result }
        ensures burns { Burns self.old self.new (V.storage (inner_of self.old)).faults (V.storage (inner_of self.new)).faults result }
    {
        spend(&mut self.passes, &mut self.refused)?;
        self.inner.read(file, at, buf)
    }

    fn write_at(&mut self, file: u64, at: u64, bytes: &[u8]) -> Result<(), IoFault>
        ensures told { WritesAt (V.storage (inner_of self.old)).disk (V.storage (inner_of self.new)).disk file at bytes.now result }
        ensures counted { Counts (faults_of (V.storage (inner_of self.old)).faults self.old) (faults_of (V.storage (inner_of self.new)).faults self.new) result }
        ensures burns { Burns self.old self.new (V.storage (inner_of self.old)).faults (V.storage (inner_of self.new)).faults result }
    {
        spend(&mut self.passes, &mut self.refused)?;
        self.inner.write_at(file, at, bytes)
    }

    fn cut(&mut self, file: u64, len: u64) -> Result<(), IoFault>
        ensures told { Cuts (V.storage (inner_of self.old)).disk (V.storage (inner_of self.new)).disk file len result }
        ensures counted { Counts (faults_of (V.storage (inner_of self.old)).faults self.old) (faults_of (V.storage (inner_of self.new)).faults self.new) result }
        ensures burns { Burns self.old self.new (V.storage (inner_of self.old)).faults (V.storage (inner_of self.new)).faults result }
    {
        spend(&mut self.passes, &mut self.refused)?;
        self.inner.cut(file, len)
    }

    fn sync(&mut self, file: u64) -> Result<(), IoFault>
        ensures told { Syncs (V.storage (inner_of self.old)).disk (V.storage (inner_of self.new)).disk file result }
        ensures counted { Counts (faults_of (V.storage (inner_of self.old)).faults self.old) (faults_of (V.storage (inner_of self.new)).faults self.new) result }
        ensures burns { Burns self.old self.new (V.storage (inner_of self.old)).faults (V.storage (inner_of self.new)).faults result }
    {
        spend(&mut self.passes, &mut self.refused)?;
        self.inner.sync(file)
    }

    fn remove(&mut self, file: u64) -> Result<(), IoFault>
        ensures told { Cuts (V.storage (inner_of self.old)).disk (V.storage (inner_of self.new)).disk file 0 result }
        ensures counted { Counts (faults_of (V.storage (inner_of self.old)).faults self.old) (faults_of (V.storage (inner_of self.new)).faults self.new) result }
        ensures burns { Burns self.old self.new (V.storage (inner_of self.old)).faults (V.storage (inner_of self.new)).faults result }
    {
        spend(&mut self.passes, &mut self.refused)?;
        self.inner.remove(file)
    }

    fn len(&mut self, file: u64) -> Result<u64, IoFault>
        ensures told { Measures (V.storage (inner_of self.old)).disk file result }
        ensures stays { (V.storage (inner_of self.new)).disk ≡ (V.storage (inner_of self.old)).disk }
        ensures counted { Counts (faults_of (V.storage (inner_of self.old)).faults self.old) (faults_of (V.storage (inner_of self.new)).faults self.new) result }
        ensures burns { Burns self.old self.new (V.storage (inner_of self.old)).faults (V.storage (inner_of self.new)).faults result }
    {
        spend(&mut self.passes, &mut self.refused)?;
        self.inner.len(file)
    }
}
