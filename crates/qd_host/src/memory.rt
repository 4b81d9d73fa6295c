//! A host over memory.
ghost use Rattle.std.specs.Prelude.{◌≡◌, ◌+◌, ◌++◌, ◌∷◌, [], None, OnErr, OnOk, Some, length, option_map, true, IfNone, IfOk, IfSome};
ghost use Rattle.qd_host.specs.Hosts.{shown};
ghost use Rattle.qd_host.specs.Memory.{asked, lent_next, with_volume};
ghost use Rattle.qd_io.specs.Ends.{counts_together};
ghost use Rattle.qd_io.specs.Memory.{IsUnused};
ghost use Rattle.qd_volume.specs.Memory.{unused};

use crate::Memory;
use crate::hosts::Host;
use crate::lent::Lent;
use qd_io::{Both, Ends, FailurePlan, IoFault, MemClock, MemSink, MemSource};
use qd_net::MemDoor;
use qd_volume::MemVolume;
use std::alloc::Global;
use std::marker::Model;

/// A connection in memory.
pub type MemWire = Both<MemSource, MemSink>;

/// A host in memory, for tests, with a volume on its shelf. It gives the clock that was set, once, and else clocks that
/// give 0 at each call; the volume, where it isn't lent, but at the calls that it was made to fail at; and the listener
/// that was set, once, and else listeners to which nobody comes. It keeps the wires that come back.
#[derive(Drop)]
pub struct MemHost {
    alloc: Global,
    next_clock: Option<MemClock>,
    clock_faults: u64,
    shelf: Option<MemVolume>,
    plan: FailurePlan,
    volume_faults: u64,
    folders: Vec<Vec<u8>>,
    door: Option<MemDoor<MemWire>>,
    ports: Vec<u16>,
    listener_faults: u64,
    refuses_starts: bool,
    starts_failed: u64,
    wires: Vec<MemWire>,
    // how many more wires there is room for
    room: usize,
    // a wire was dropped, since there was no room for it
    dropped: bool,
}

impl Model for MemHost {
    ghost use Rattle.std.specs.Prelude.{◌+◌, ◌≤◌, IfSome, map, vec_capacity, vec_len};
    ghost use Rattle.qd_host.specs.Memory.{InMemory};
    ghost use Rattle.qd_io.specs.Memory.{IsUnused};

    ghost Value = { InMemory };

    ghost view = { λ s. record {
      clock = s.next_clock;
      clock_faults = s.clock_faults;
      shelf = s.shelf;
      plan = s.plan;
      volume_faults = s.volume_faults;
      folders = map (λ f. f.items) s.folders.items;
      door = s.door;
      ports = s.ports.items;
      listener_faults = s.listener_faults;
      refuses_starts = s.refuses_starts;
      starts_failed = s.starts_failed;
      wires = s.wires.items;
      room = s.room;
      dropped = s.dropped;
    } };

    ghost invariant = { λ s. (IfSome s.next_clock (λ clock. IsUnused clock.plan)) × (vec_len s.wires + s.room ≤ vec_capacity s.wires) };
}

impl MemHost {
    /// A host that has this volume, and for which no clock and no listener was set. The calls of `volume` whose numbers, counted from 0, are
    /// in `fails` answer [`IoFault::Failed`].
    ///
    /// It copies `fails`, and answers [`Memory`] where there is no room for it.
    pub fn new(alloc: Global, volume: MemVolume, fails: &[u64]) -> Result<MemHost, Memory>
        ensures { IfOk result (λ host. host ≡ with_volume volume (unused fails.now)) }
    {
        Ok(MemHost {
            alloc,
            next_clock: None,
            clock_faults: 0,
            shelf: Some(volume),
            plan: FailurePlan::new(alloc, fails)?,
            volume_faults: 0,
            folders: Vec::new(alloc),
            door: None,
            ports: Vec::new(alloc),
            listener_faults: 0,
            refuses_starts: false,
            starts_failed: 0,
            wires: Vec::new(alloc),
            room: 0,
            dropped: false,
        })
    }

    /// Sets the clock that the next call of `clock` gives, in place of one that was set before and not given. No call
    /// of it may have been made yet.
    pub fn set_clock(&mut self, clock: MemClock)
        requires { IsUnused clock.plan }
        ensures { self.new ≡ record self.old { clock = Some clock } }
    {
        self.next_clock = Some(clock);
    }

    /// Sets the listener that the next call of `listener` gives, in place of one that was set before and not given. It takes
    /// room for its wires, so that all of them are kept once they come back. Where there is none, all stays as it was.
    pub fn set_door(&mut self, door: MemDoor<MemWire>) -> Result<(), Memory>
        ensures set { OnOk result (self.new ≡ record self.old { door = Some door; room = self.old.room + length door.ahead }) }
        ensures stays { OnErr result (self.new ≡ self.old) }
    {
        let room = self.room.saturating_add(door.left());
        self.wires.reserve(room)?;
        self.room = room;
        self.door = Some(door);
        Ok(())
    }

    /// Wants every start of a thread to be refused from now on.
    pub fn refuse_starts(&mut self)
        ensures { self.new ≡ record self.old { refuses_starts = true } }
    {
        self.refuses_starts = true;
    }

    /// How many starts of threads were refused.
    pub fn starts_failed(&self) -> u64
        ensures { result ≡ self.now.starts_failed }
    {
        self.starts_failed
    }

    /// The wires that came back, the first one first.
    pub fn wires(&self) -> &[MemWire]
        ensures { result.now ≡ self.now.wires }
    {
        self.wires.as_slice()
    }

    /// The volume on the shelf: none while it is lent.
    pub fn shelf(&self) -> Option<&MemVolume>
        ensures { option_map (λ volume. volume.now) result ≡ self.now.shelf }
    {
        self.shelf.as_ref()
    }

    /// Keeps the name of a folder behind those that were asked for before. Where there is no memory for it nothing is kept.
    fn name(&mut self, dir: Option<&[u8]>) -> Result<(), Memory>
        ensures named { OnOk result (self.new ≡ asked self.old (option_map (λ d. d.now) dir.entry)) }
        ensures stays { OnErr result (self.new ≡ self.old) }
    {
        if let Some(dir) = dir {
            let mut folder = Vec::new(self.alloc);
            folder.extend_from_slice(dir)?;
            self.folders.push(folder)?;
        }
        Ok(())
    }

    /// Keeps the number of a port behind those that were asked for before. Where there is no memory for it nothing is kept.
    fn note_port(&mut self, port: u16) -> Result<(), Memory>
        ensures noted { OnOk result (self.new ≡ record self.old { ports = self.old.ports ++ port ∷ [] }) }
        ensures stays { OnErr result (self.new ≡ self.old) }
    {
        self.ports.push(port)?;
        Ok(())
    }

    /// Takes the volume off the shelf, where this call isn't one that fails.
    fn lend(&mut self) -> Option<MemVolume>
        ensures lent { result ≡ lent_next self.old }
        ensures taken { IfSome result (λ volume. self.new ≡ record self.old { shelf = None }) }
        ensures stays { IfNone result (self.new ≡ self.old) }
    {
        if self.plan.fails_now() {
            return None;
        }
        self.shelf.take()
    }
}

impl Host for MemHost {
    type Clk = Lent<MemClock>;

    type Vol = Lent<MemVolume>;

    type Lst = Lent<MemDoor<MemWire>>;

    ghost use Rattle.std.specs.Prelude.{Some, map};
    ghost use Rattle.qd_host.specs.Lent.{device_of, faults_of};
    ghost use Rattle.qd_host.specs.Memory.{MemLends, MemListens, clock_in, disk_on, door_in, told_wires, with_wire};

    ghost supply = { λ host. record {
      clock_times = Some (clock_in host.clock).times;
      clock_faults = host.clock_faults;
      shelf = disk_on host.shelf;
      volume_faults = host.volume_faults;
      lent_faults = 0;
      folders = Some host.folders;
      wires = Some (map ⟦<MemWire as Ends>⟧.stream (door_in host.door).ahead);
      ports = Some host.ports;
      listener_faults = host.listener_faults;
      refuses_starts = host.refuses_starts;
      starts_failed = host.starts_failed;
      returned = told_wires ⟦<MemWire as Ends>⟧.stream host.wires host.dropped;
    } };

    /// Gives the clock that was set, or one that gives 0 at each call, which it does from then on until one is set
    /// again.
    fn clock(&mut self) -> Lent<MemClock>
        ensures given { device_of result ≡ clock_in self.old.clock }
        ensures unused { IsUnused (device_of result).plan }
        ensures rest { self.new ≡ record self.old { clock = None } }
        ensures none_failed { faults_of result ≡ 0 }
    {
        match self.next_clock.take() {
            Some(clock) => Lent::new(clock),
            None => Lent::new(MemClock::steady(self.alloc, 0)),
        }
    }

    fn clock_back(&mut self, clock: Lent<MemClock>)
        ensures { self.new ≡ record self.old { clock_faults = counts_together self.old.clock_faults (faults_of clock) } }
    {
        self.clock_faults = self.clock_faults.saturating_add(clock.faults());
    }

    /// Gives the volume on the shelf, whatever is named, and keeps the name. It takes time in the number of failing calls.
    fn volume(&mut self, _alloc: Global, dir: Option<&[u8]>) -> Result<Lent<MemVolume>, IoFault>
        ensures exact { MemLends self.old self.new (option_map (λ d. d.now) dir.entry) result }
    {
        self.name(dir)?;
        match self.lend() {
            Some(volume) => {
                self.plan.pass();
                Ok(Lent::new(volume))
            }
            None => {
                self.plan.fail();
                self.volume_faults = self.volume_faults.saturating_add(1);
                Err(IoFault::Failed)
            }
        }
    }

    fn put_back(&mut self, volume: Lent<MemVolume>)
        ensures { self.new ≡ record self.old { shelf = Some (device_of volume); volume_faults = counts_together self.old.volume_faults (faults_of volume) } }
    {
        self.volume_faults = self.volume_faults.saturating_add(volume.faults());
        self.shelf = Some(volume.into_device());
    }

    /// Gives the listener that was set, whatever the port, or one to which nobody comes, and keeps the port's number.
    fn listener(&mut self, port: u16) -> Result<Lent<MemDoor<MemWire>>, IoFault>
        ensures exact { MemListens self.old self.new port result }
        ensures told { IfOk result (λ listener. shown ⟦<MemWire as Ends>⟧.stream (Some (device_of listener).ahead) ≡ Some (map ⟦<MemWire as Ends>⟧.stream (door_in self.old.door).ahead)) }
        ensures none_failed { IfOk result (λ listener. faults_of listener ≡ 0) }
    {
        self.note_port(port)?;
        let door = match self.door.take() {
            Some(door) => door,
            None => MemDoor::none(self.alloc),
        };
        Ok(Lent::new(door))
    }

    fn listener_back(&mut self, listener: Lent<MemDoor<MemWire>>)
        ensures { self.new ≡ record self.old { listener_faults = counts_together self.old.listener_faults (faults_of listener) } }
    {
        self.listener_faults = self.listener_faults.saturating_add(listener.faults());
    }

    /// Keeps the wire, where there is room for it.
    fn give_back(&mut self, wire: MemWire)
        ensures { self.new ≡ with_wire wire self.old }
    {
        if self.room == 0 {
            self.dropped = true;
        } else {
            self.room -= 1;
            self.wires.push_reserved(wire);
        }
    }

    fn refuses_starts(&self) -> bool {
        self.refuses_starts
    }

    fn starts_back(&mut self, refused: u64)
        ensures { self.new ≡ record self.old { starts_failed = counts_together self.old.starts_failed refused } }
    {
        self.starts_failed = self.starts_failed.saturating_add(refused);
    }
}
