//! What a session needs of what it serves.
ghost use Rattle.std.specs.Prelude.{◌≡◌, ◌≤◌, ℕ, List, length};
ghost use Rattle.qd_base.specs.declared.request.Request.TheVariants as request;
ghost use Rattle.qd_ilp.specs.Whole.{IsReading};
ghost use Rattle.qd_session.specs.Legal.{EndsByBye, Handles, IsLasting, MayLackClock, MayWantMemory, Rule};
ghost use Rattle.qd_session.specs.Looks.{IsCounted, Shown};
ghost use Rattle.qd_session.specs.Timing.{IsRead};

use qd_base::{MAX_QUERY_BYTES, Memory, Reply, Txt};
use qd_ilp::Batch;
use std::alloc::Global;

/// What handles the requests of a session.
///
/// Its meaning is what it shows: the transactions sequenced, where it tells them, and always how many these are, over how
/// many its last answers were, and the numbers of those that came through itself. No number falls, and the transactions
/// grow at their end alone. `fixed` is what else it holds that no call changes.
///
/// Which reply may come to which request is its own rule. So a session is proved once, and a backend that knows further
/// statements states them in its rule.
pub trait Backend {
    /// What else a backend holds, as far as no call changes it.
    type Fixed;

    /// What is shown at a moment.
    ghost shown: { Self → Shown };

    /// What no call changes.
    ghost fixed: { Self → Self.Fixed };

    /// Which reply may come to which request.
    ghost rule: { Rule };

    /// Makes a batch of lines one transaction, or refuses it whole. `now` is the time, in microseconds since
    /// 1970-01-01T00:00Z, of lines without a stamp; it may be any `u64`, and is 0 where the batch doesn't lack one. Where
    /// it finds no memory, it has added nothing.
    fn lines(&mut self, alloc: Global, batch: &Batch, now: u64) -> Result<Reply, Memory>
        requires read { IsRead batch.now }
        ensures handled { (text : List ℕ) → IsReading text batch.now → Handles rule (shown self.old) (shown self.new) now (request.Write text) result }
        ensures fixed { fixed self.new ≡ fixed self.old };

    /// Answers one statement. Where it finds no memory, it has added nothing.
    fn sql(&mut self, alloc: Global, text: &Txt) -> Result<Reply, Memory>
        requires { length text.now ≤ MAX_QUERY_BYTES }
        ensures handled { Handles rule (shown self.old) (shown self.new) 0 (request.Sql text.now) result }
        ensures fixed { fixed self.new ≡ fixed self.old };

    /// Applies all that is sequenced.
    fn apply(&mut self, alloc: Global) -> Result<Reply, Memory>
        ensures handled { Handles rule (shown self.old) (shown self.new) 0 request.Apply result }
        ensures fixed { fixed self.new ≡ fixed self.old };

    /// Law: the transactions that are told are as many as are shown. The call does nothing.
    fn is_counted(&self)
        ensures counted { IsCounted (shown self.now) };

    /// Laws of the rule: Bye answers a request for the end, and nothing else does; want of memory may answer any other; a
    /// failed clock may answer a batch that lacks a time; and what may come over a history may come over each that it
    /// grows to. The call does nothing.
    fn keeps_to_its_rule(&self)
        ensures bye { EndsByBye rule }
        ensures memory { MayWantMemory rule }
        ensures clock { MayLackClock rule }
        ensures lasting { IsLasting rule };
}
