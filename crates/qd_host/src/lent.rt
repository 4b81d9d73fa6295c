//! A device that a host lends.
ghost use Rattle.qd_io.specs.Clocks.{GivesTime};
ghost use Rattle.qd_io.specs.Ends.{Counts};
ghost use Rattle.qd_net.specs.Arrivals.{Arrives, Closes};
ghost use Rattle.qd_volume.specs.Calls.{Cuts, Measures, ReadsAt, Syncs, WritesAt};
ghost use Rattle.std.specs.Prelude.{◌≡◌, ◌≤◌, length, IfOk};

use qd_io::{Clock, IoFault};
use qd_net::Listener;
use qd_volume::Volume;

/// A clock, a volume or a listener that a host lends. It passes each call on, and counts those that fail, up to the greatest `u64`, so
/// that the host knows of them once it is given back, whatever the device is.
#[derive(Drop)]
pub struct Lent<D> {
    device: D,
    faults: u64,
}

impl<D> Lent<D> {
    ghost use Rattle.qd_host.specs.Lent.{device_of, faults_of};

    /// Lends a device. No call has failed since. It takes no memory.
    pub fn new(device: D) -> Lent<D>
        ensures device { device_of result ≡ device }
        ensures none_failed { faults_of result ≡ 0 }
    {
        Lent { device, faults: 0 }
    }

    /// How many calls have failed since it was lent, up to the greatest `u64`.
    pub fn faults(&self) -> u64
        ensures { result ≡ faults_of self.now }
    {
        self.faults
    }

    /// The device itself.
    pub fn into_device(self) -> D
        ensures { result ≡ device_of self }
    {
        self.device
    }
}

/// What a call answers, its failure counted, up to the greatest `u64`.
pub fn counted<T>(outcome: Result<T, IoFault>, faults: &mut u64) -> Result<T, IoFault>
    ensures same { result ≡ outcome }
    ensures counted { Counts faults.old faults.new result }
{
    if let Err(IoFault::Failed) = outcome {
        *faults = faults.saturating_add(1);
    }
    outcome
}

impl<C: Clock> Clock for Lent<C> {
    ghost use Rattle.qd_host.specs.Lent.{device_of, faults_of};

    ghost timeline = { λ lent. record { ahead = (C.timeline (device_of lent)).ahead; faults = faults_of lent } };

    fn now(&mut self) -> Result<u64, IoFault> {
        counted(self.device.now(), &mut self.faults)
    }
}

impl<V: Volume> Volume for Lent<V> {
    ghost use Rattle.qd_host.specs.Lent.{device_of, faults_of};

    ghost storage = { λ lent. record { disk = (V.storage (device_of lent)).disk; faults = faults_of lent } };

    fn read(&mut self, file: u64, at: u64, buf: &mut [u8]) -> Result<usize, IoFault> {
        counted(self.device.read(file, at, buf), &mut self.faults)
    }

    fn write_at(&mut self, file: u64, at: u64, bytes: &[u8]) -> Result<(), IoFault> {
        counted(self.device.write_at(file, at, bytes), &mut self.faults)
    }

    fn cut(&mut self, file: u64, len: u64) -> Result<(), IoFault> {
        counted(self.device.cut(file, len), &mut self.faults)
    }

    fn sync(&mut self, file: u64) -> Result<(), IoFault> {
        counted(self.device.sync(file), &mut self.faults)
    }

    fn remove(&mut self, file: u64) -> Result<(), IoFault> {
        counted(self.device.remove(file), &mut self.faults)
    }

    fn len(&mut self, file: u64) -> Result<u64, IoFault> {
        counted(self.device.len(file), &mut self.faults)
    }
}

impl<L: Listener> Listener for Lent<L> {
    type Wire = L::Wire;

    ghost use Rattle.qd_host.specs.Lent.{device_of, faults_of};

    ghost arrivals = { λ lent. record {
      ahead = (L.arrivals (device_of lent)).ahead;
      faults = faults_of lent;
      closed = (L.arrivals (device_of lent)).closed;
    } };

    fn next_wire(&mut self) -> Result<Option<L::Wire>, IoFault> {
        counted(self.device.next_wire(), &mut self.faults)
    }
}
