//! What makes jobs of connections.
ghost use Rattle.std.specs.Prelude.{◌≡◌};
ghost use Rattle.qd_server.specs.Works.{Works, MayMake, Makes, MayGoBack, GoesBack, MayBeDone, IsDone};

use qd_io::Memory;
use qd_threads::Job;

/// How many works are out at once, at most.
pub const MOST: usize = 64;

/// What makes a work of each wire, and takes back what it gives. A work is out from when it is made until `done` takes what it
/// gave, or until `refused` takes the work itself.
///
/// `works` relates the maker to an account of its works: each call keeps the two together, so what the maker's type says of
/// an account holds of one that tells which calls were made. `fixed` is what else it holds that no call changes.
pub trait Maker<W> {
    /// The work that serves a wire.
    type Work: Job;

    /// What else it holds, as far as no call changes it.
    type Fixed;

    ghost works: { Self → Works W Self.Work → Type 0 };

    /// What no call changes.
    ghost fixed: { Self → Self.Fixed };

    /// Makes the work of a wire. Where there is no memory for it the wire is given up.
    fn make(&mut self, wire: W) -> Result<Self::Work, Memory>
        requires few { MayMake Self.works self.old }
        ensures made { Makes Self.works self.old self.new wire result }
        ensures fixed { Self.fixed self.new ≡ Self.fixed self.old };

    /// Takes back the work that was made last, whose start was refused.
    fn refused(&mut self, work: Self::Work)
        requires last { MayGoBack Self.works self.old work }
        ensures back { GoesBack Self.works self.old self.new work }
        ensures fixed { Self.fixed self.new ≡ Self.fixed self.old };

    /// Takes what a work that was out has given.
    fn done(&mut self, out: <Self::Work as Job>::Out)
        requires given { MayBeDone Self.works Self.Work.gives self.old out }
        ensures done { IsDone Self.works Self.Work.gives self.old self.new out }
        ensures fixed { Self.fixed self.new ≡ Self.fixed self.old };
}
