//! The machine that the program runs on.
ghost use Rattle.qd_io.specs.Ends.{Counts};
ghost use Rattle.std.specs.Prelude.{◌≡◌};
ghost use Rattle.qd_host.specs.Standard.{CountsStay};

use crate::hosts::Host;
use crate::lent::{Lent, counted};
use qd_io::{IoFault, StdClock};
use qd_net::{TcpDoor, TcpEnd};
use qd_volume::{Failure, FolderVolume, HeapVolume, Refusal, Volume};
use std::alloc::{Alloc, Global};
use std::fs::{File, Files};
use std::io::{Error, ErrorKind};
use std::net::{Net, TcpListener, TcpStream};
use std::time::Clock;

/// A volume of the machine. It tells nothing of its content.
#[derive(Drop)]
pub enum StdVolume<R: Files<File = File> + Drop> {
    /// Over a folder.
    Folder(FolderVolume<R>),

    /// In memory, until the program ends.
    Memory(HeapVolume),
}

impl<R: Files<File = File> + Drop> Volume for StdVolume<R> {
    ghost use Rattle.std.specs.Prelude.{None};
    ghost use Rattle.qd_host.specs.Standard.{faults_in};

    ghost storage = { λ volume. record { disk = None; faults = faults_in ⟦<FolderVolume<R> as Volume>⟧.storage ⟦<HeapVolume as Volume>⟧.storage volume } };

    fn read(&mut self, file: u64, at: u64, buf: &mut [u8]) -> Result<usize, IoFault> {
        match self {
            StdVolume::Folder(volume) => volume.read(file, at, buf),
            StdVolume::Memory(volume) => volume.read(file, at, buf),
        }
    }

    fn write_at(&mut self, file: u64, at: u64, bytes: &[u8]) -> Result<(), IoFault> {
        match self {
            StdVolume::Folder(volume) => volume.write_at(file, at, bytes),
            StdVolume::Memory(volume) => volume.write_at(file, at, bytes),
        }
    }

    fn cut(&mut self, file: u64, len: u64) -> Result<(), IoFault> {
        match self {
            StdVolume::Folder(volume) => volume.cut(file, len),
            StdVolume::Memory(volume) => volume.cut(file, len),
        }
    }

    fn sync(&mut self, file: u64) -> Result<(), IoFault> {
        match self {
            StdVolume::Folder(volume) => volume.sync(file),
            StdVolume::Memory(volume) => volume.sync(file),
        }
    }

    fn remove(&mut self, file: u64) -> Result<(), IoFault> {
        match self {
            StdVolume::Folder(volume) => volume.remove(file),
            StdVolume::Memory(volume) => volume.remove(file),
        }
    }

    fn len(&mut self, file: u64) -> Result<u64, IoFault> {
        match self {
            StdVolume::Folder(volume) => volume.len(file),
            StdVolume::Memory(volume) => volume.len(file),
        }
    }
}

/// What went wrong with a folder or a port, for a person.
#[derive(Drop)]
pub enum Trouble {
    /// The folder wasn't opened.
    Refused(Refusal),

    /// A call of its volume failed.
    Failed(Failure),

    /// A port can't be had.
    Port(u16, Error),
}

/// The machine that the program runs on. It tells nothing of what it gives: a real device tells nothing.
///
/// It has one volume in memory, which is empty at first. While that one is lent, it gives further ones that are empty, and
/// of those that come back it keeps the last.
#[derive(Drop)]
pub struct StdHost<R> {
    rt: R,
    clock_faults: u64,
    shelf: Option<HeapVolume>,
    volume_faults: u64,
    /// The name of the folder that was asked for last.
    folder: Option<Vec<u8>>,
    /// What went wrong first.
    trouble: Option<Trouble>,
    listener_faults: u64,
    starts_failed: u64,
}

impl<R> StdHost<R>
where
    R: Clock
        + Copy
        + Clone
        + Alloc
        + Files<File = File>
        + Net<Listener = TcpListener, Stream = TcpStream>
        + Send
        + Drop
        + 'static,
{
    /// The machine, of which nothing is taken yet. It takes no memory.
    pub fn new(rt: R, alloc: Global) -> StdHost<R>
        ensures clocks { (⟦<StdHost<R> as Host>⟧.supply result).clock_faults ≡ 0 }
        ensures volumes { (⟦<StdHost<R> as Host>⟧.supply result).volume_faults ≡ 0 }
        ensures listeners { (⟦<StdHost<R> as Host>⟧.supply result).listener_faults ≡ 0 }
        ensures starts { (⟦<StdHost<R> as Host>⟧.supply result).starts_failed ≡ 0 }
    {
        StdHost {
            rt,
            clock_faults: 0,
            shelf: Some(HeapVolume::new(alloc)),
            volume_faults: 0,
            folder: None,
            trouble: None,
            listener_faults: 0,
            starts_failed: 0,
        }
    }
}

impl<R: Copy + Alloc + Files<File = File> + Drop> StdHost<R> {
    /// The name of the folder that was asked for last: `None` too where there was no memory to keep it.
    pub fn folder(&self) -> Option<&[u8]> {
        match &self.folder {
            Some(name) => Some(name.as_slice()),
            None => None,
        }
    }

    /// What went wrong first with a folder, of those that aren't lent, or with a port.
    pub fn trouble(&self) -> Option<&Trouble> {
        self.trouble.as_ref()
    }

    /// Keeps what went wrong, where nothing did before.
    fn note(&mut self, trouble: Trouble)
        ensures volumes { self.new.volume_faults ≡ self.old.volume_faults }
        ensures rest { CountsStay self.old self.new }
    {
        if self.trouble.is_none() {
            self.trouble = Some(trouble);
        }
    }

    /// Opens the volume of a folder, and counts where that fails.
    fn open(&mut self, alloc: Global, dir: &[u8]) -> Result<StdVolume<R>, IoFault>
        ensures counted { Counts self.old.volume_faults self.new.volume_faults result }
        ensures rest { CountsStay self.old self.new }
    {
        self.folder = Vec::from_slice(alloc, dir).ok();
        match FolderVolume::open(self.rt, alloc, dir) {
            Ok(volume) => Ok(StdVolume::Folder(volume)),
            Err(refusal) => {
                let fault = refusal.fault();
                self.note(Trouble::Refused(refusal));
                counted(Err(fault), &mut self.volume_faults)
            }
        }
    }

    /// The volume in memory, or where it is lent an empty one.
    fn in_memory(&mut self, alloc: Global) -> StdVolume<R>
        ensures volumes { self.new.volume_faults ≡ self.old.volume_faults }
        ensures rest { CountsStay self.old self.new }
    {
        match self.shelf.take() {
            Some(memory) => StdVolume::Memory(memory),
            None => StdVolume::Memory(HeapVolume::new(alloc)),
        }
    }
}

impl<R> Host for StdHost<R>
where
    R: Clock
        + Copy
        + Clone
        + Alloc
        + Files<File = File>
        + Net<Listener = TcpListener, Stream = TcpStream>
        + Send
        + Drop
        + 'static,
{
    type Clk = Lent<StdClock<R>>;

    type Vol = Lent<StdVolume<R>>;

    type Lst = Lent<TcpDoor>;

    ghost use Rattle.std.specs.Prelude.{None, false};

    ghost supply = { λ host. record {
      clock_times = None;
      clock_faults = host.clock_faults;
      shelf = None;
      volume_faults = host.volume_faults;
      lent_faults = 0;
      folders = None;
      wires = None;
      ports = None;
      listener_faults = host.listener_faults;
      refuses_starts = false;
      starts_failed = host.starts_failed;
      returned = None;
    } };

    fn clock(&mut self) -> Lent<StdClock<R>> {
        Lent::new(StdClock::new(self.rt))
    }

    fn clock_back(&mut self, clock: Lent<StdClock<R>>) {
        self.clock_faults = self.clock_faults.saturating_add(clock.faults());
    }

    /// Opens the folder, or gives the volume in memory. What fails is an opening.
    fn volume(&mut self, alloc: Global, dir: Option<&[u8]>) -> Result<Lent<StdVolume<R>>, IoFault> {
        let volume = match dir {
            Some(dir) => self.open(alloc, dir)?,
            None => self.in_memory(alloc),
        };
        Ok(Lent::new(volume))
    }

    /// Closes a folder, and keeps what went wrong with it. A volume in memory is kept for the next call.
    fn put_back(&mut self, volume: Lent<StdVolume<R>>) {
        self.volume_faults = self.volume_faults.saturating_add(volume.faults());
        match volume.into_device() {
            StdVolume::Memory(memory) => self.shelf = Some(memory),
            StdVolume::Folder(folder) => {
                if let Some(failure) = folder.close() {
                    self.note(Trouble::Failed(failure));
                }
            }
        }
    }

    /// Listens on the port. What fails is the system's refusal.
    fn listener(&mut self, port: u16) -> Result<Lent<TcpDoor>, IoFault> {
        match TcpDoor::open(&self.rt, port) {
            Ok(door) => Ok(Lent::new(door)),
            Err(error) => {
                let fault = match error.kind() {
                    ErrorKind::OutOfMemory => IoFault::Memory,
                    _ => IoFault::Failed,
                };
                self.note(Trouble::Port(port, error));
                counted(Err(fault), &mut self.listener_faults)
            }
        }
    }

    /// Closes the port.
    fn listener_back(&mut self, listener: Lent<TcpDoor>) {
        self.listener_faults = self.listener_faults.saturating_add(listener.faults());
    }

    /// Closes the connection.
    fn give_back(&mut self, wire: TcpEnd) {
        drop(wire);
    }

    fn refuses_starts(&self) -> bool {
        false
    }

    fn starts_back(&mut self, refused: u64) {
        self.starts_failed = self.starts_failed.saturating_add(refused);
    }
}
