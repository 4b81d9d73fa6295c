//! Where connections come from, as a trait.
ghost use Rattle.std.specs.Prelude.{◌≡◌};
ghost use Rattle.qd_io.specs.Ends.{Counts};
ghost use Rattle.qd_net.specs.Arrivals.{Arrivals, Arrives, Closes};

use qd_io::{IoFault, Sink, Source};

/// A connection: a source and a sink that can be hung up.
pub trait Wire: Source + Sink {
    /// Ends what is written, once nothing more is to be written or read. What has been written reaches a peer that reads it, even where
    /// that one goes on sending. What the wire shows stays as it was. It may wait for the peer, for some seconds at a time.
    fn hang_up(&mut self)
        ensures stays { Self.Source.stream self.new ≡ Self.Source.stream self.old };
}

/// An object that gives connections, one after another.
///
/// `arrivals` is what it shows: the wires that it may still give, where it tells them; how many of its calls have failed; and
/// whether its last answer was that no wire comes any more.
pub trait Listener {
    /// A connection, which another thread may serve.
    type Wire: Wire + Send + Drop + 'static;

    ghost arrivals: { Self → Arrivals Self.Wire };

    /// Gives the next connection, once there is one, or `None` where none comes any more. It may wait for a peer.
    ///
    /// After an `Err` the same wires are ahead.
    fn next_wire(&mut self) -> Result<Option<Self::Wire>, IoFault>
        ensures told { Arrives (Self.arrivals self.old).ahead (Self.arrivals self.new).ahead result }
        ensures closed { Closes (Self.arrivals self.new).closed result }

        // The count of faults rises exactly where `Failed` is answered.
        ensures counted { Counts (Self.arrivals self.old).faults (Self.arrivals self.new).faults result };
}
