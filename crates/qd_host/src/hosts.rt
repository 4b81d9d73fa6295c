//! A host as a trait: what it gives of the machine, and what it counts of what comes back.
ghost use Rattle.std.specs.Prelude.{◌≡◌, IfOk, OnErr, Some, option_map};
ghost use Rattle.qd_host.specs.Hosts.{ClocksStay, ConnectionsStay, Names, Returns, Supply, after_clock, after_listener, after_starts, after_volume, shown, with_listeners_of, with_returned, without_clock};
ghost use Rattle.qd_io.specs.Ends.{Counts};

use qd_io::{Clock, IoFault};
use qd_net::Listener;
use qd_volume::Volume;
use std::alloc::Global;

/// What a program is given of the machine beside its input and its output: clocks, a volume and listeners, and whether
/// threads may be started.
///
/// `supply` is what it shows: the times of the clock that it gives next, the changes made to the volume that it gives
/// next, and the wires of the listener that it gives next, each where it tells them; how many calls have failed: of its
/// own, and of the clocks, the volumes and the listeners that it took back; the folders and the ports that were asked for,
/// and the wires that were given back, where it tells them; and how many starts of threads were refused. A program gives
/// back each clock, each volume, each listener and each wire that it was given, so that their faults are counted here.
///
/// Clocks, volumes and wires may go to other threads.
pub trait Host {
    /// The clocks that it gives.
    type Clk: Clock + Send + Drop + 'static;

    /// The volumes that it gives.
    type Vol: Volume + Send + Drop + 'static;

    /// The listeners that it gives.
    type Lst: Listener;

    ghost supply: { Self → Supply };

    /// Gives a clock of which no call was made yet. It takes no memory.
    fn clock(&mut self) -> Self::Clk
        ensures told { (Self.Clk.timeline result).ahead ≡ (Self.supply self.old).clock_times }
        ensures none_failed { (Self.Clk.timeline result).faults ≡ 0 }

        // All but the times of the next clock stays as it was.
        ensures rest { Self.supply self.new ≡ without_clock (Self.supply self.new).clock_times (Self.supply self.old) };

    /// Takes a clock back, and adds the number of its faults to the host's own, which stops at the greatest `u64`. It
    /// takes no memory.
    fn clock_back(&mut self, clock: Self::Clk)
        ensures { Self.supply self.new ≡ after_clock (Self.Clk.timeline clock).faults (Self.supply self.old) };

    /// Gives the volume of a folder, by its path in UTF-8, or where none is named one that lasts as long as the program. A
    /// host in memory gives the one on its shelf, whatever is named. It costs what an opening of the folder does.
    ///
    /// It answers [`IoFault::Failed`] where the volume can't be had, as one that is lent, and counts that. After an `Err`
    /// the same volume is on the shelf.
    fn volume(&mut self, alloc: Global, dir: Option<&[u8]>) -> Result<Self::Vol, IoFault>
        ensures told { IfOk result (λ volume. (Self.Vol.storage volume).disk ≡ (Self.supply self.old).shelf) }
        ensures lent { IfOk result (λ volume. (Self.supply self.new).lent_faults ≡ (Self.Vol.storage volume).faults) }
        ensures shelf { OnErr result ((Self.supply self.new).shelf ≡ (Self.supply self.old).shelf) }
        ensures still_lent { OnErr result ((Self.supply self.new).lent_faults ≡ (Self.supply self.old).lent_faults) }
        ensures clocks { ClocksStay (Self.supply self.old) (Self.supply self.new) }
        ensures connections { ConnectionsStay (Self.supply self.old) (Self.supply self.new) }

        // The folder that is named is the last one that was asked for, where that is told.
        ensures named { Names (Self.supply self.old).folders (Self.supply self.new).folders (option_map (λ d. d.now) dir.entry) result }

        // The count of faults rises exactly where `Failed` is answered.
        ensures counted { Counts (Self.supply self.old).volume_faults (Self.supply self.new).volume_faults result };

    /// Takes the volume back that was given last: it is on the shelf then, and the number of its faults since it was given
    /// is added to the host's own, which stops at the greatest `u64`. It takes no memory.
    fn put_back(&mut self, volume: Self::Vol)
        ensures { Self.supply self.new ≡ after_volume (Self.Vol.storage volume) (Self.supply self.old) };

    /// Gives a listener of a port of 127.0.0.1. A host in memory gives the one that was set, whatever the port.
    ///
    /// It answers [`IoFault::Failed`] where the port can't be had, as one that another process has, and counts that. After
    /// an `Err` the same listener is to be given.
    fn listener(&mut self, port: u16) -> Result<Self::Lst, IoFault>
        ensures told { IfOk result (λ listener. shown Self.Lst.Wire.stream (Self.Lst.arrivals listener).ahead ≡ (Self.supply self.old).wires) }
        ensures none_failed { IfOk result (λ listener. (Self.Lst.arrivals listener).faults ≡ 0) }
        ensures wires { OnErr result ((Self.supply self.new).wires ≡ (Self.supply self.old).wires) }

        // All but what is shown of listeners stays as it was.
        ensures rest { Self.supply self.new ≡ with_listeners_of (Self.supply self.new) (Self.supply self.old) }

        // The port is the last one that was asked for, where that is told.
        ensures named { Names (Self.supply self.old).ports (Self.supply self.new).ports (Some port) result }

        // The count of faults rises exactly where `Failed` is answered.
        ensures counted { Counts (Self.supply self.old).listener_faults (Self.supply self.new).listener_faults result };

    /// Takes a listener back, and adds the number of its faults to the host's own, which stops at the greatest `u64`. It
    /// takes no memory.
    fn listener_back(&mut self, listener: Self::Lst)
        ensures { Self.supply self.new ≡ after_listener (Self.Lst.arrivals listener).faults (Self.supply self.old) };

    /// Takes a wire back that one of its listeners gave, once nobody reads or writes it any more. The machine closes it,
    /// and a host in memory keeps it. It takes no memory.
    fn give_back(&mut self, wire: <Self::Lst as Listener>::Wire)
        ensures returned { Returns (Self.supply self.old).returned (Self.supply self.new).returned (Self.Lst.Wire.stream wire) }
        ensures rest { Self.supply self.new ≡ with_returned (Self.supply self.new).returned (Self.supply self.old) };

    /// Whether every start of a thread is to be refused, as a test may want it. The machine starts those that it can.
    fn refuses_starts(&self) -> bool
        ensures { result ≡ (Self.supply self.now).refuses_starts };

    /// Adds so many refused starts of threads to the host's count, which stops at the greatest `u64`.
    fn starts_back(&mut self, refused: u64)
        ensures { Self.supply self.new ≡ after_starts refused (Self.supply self.old) };
}
