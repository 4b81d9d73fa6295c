//! The front of PostgreSQL's protocol.
ghost use Rattle.std.specs.Prelude.{◌≡◌, ℕ, ◌+◌, List, length, IfOk, OnOk, OnErr};
ghost use Rattle.qd_base.specs.Script.{TakesStep, ends_with};
ghost use Rattle.qd_pgwire.specs.declared.found.Kind.{Kind};
ghost use Rattle.qd_pgwire.specs.declared.found.Found.TheVariants as found;
ghost use Rattle.qd_pgwire.specs.Messages.{first, text_in};
ghost use Rattle.qd_pgwire.specs.Replies.{pg_reply};
ghost use Rattle.qd_pgwire.specs.Steps.{TakesPg, first_pgs, pg_protocol, step_of, turn_of};

use crate::reader::Reader;
use crate::reply::print;
use qd_base::{Front, Memory, Reply, Step, Txt};
use std::alloc::Global;
use std::marker::Model;

/// A front that reads the messages of PostgreSQL's protocol 3.0 and answers simple queries, with rows as texts.
///
/// A connection starts with the code of the protocol, before which encryption may be asked for and is denied. A start that
/// names parameters is told those of the server; what it names changes nothing. Then `Query` is a statement, and one of blanks
/// alone is answered by itself; `Terminate` ends the connection, and so does a request to cancel. A message of the extended
/// query is refused by itself, and the messages behind it are passed over up to `Sync`. A message has at most 65,541 bytes and
/// its type, a start 10,000 bytes.
///
/// Contracts see the bytes that were fed and not yet taken, the offset in the input of the first of them, and the state of
/// the connection.
///
/// It takes amortised time linear in the bytes fed, however they are cut: a message is looked at when it is there, and a
/// query is copied once into its text. It keeps room for the most bytes that have waited, and nothing beyond a message.
#[derive(Drop)]
pub struct PgFront {
    reader: Reader,
}

impl Model for PgFront {
    ghost use Rattle.qd_pgwire.specs.Steps.{Pgs};
    ghost use Rattle.qd_pgwire.specs.Reading.{pgs_of, IsSound};

    ghost Value = { Pgs };

    ghost view = { λ f. pgs_of f.reader };

    ghost invariant = { λ f. IsSound f.reader };
}

impl PgFront {
    /// Makes a front to which nothing has been fed. It takes no memory until something is.
    pub fn new(alloc: Global) -> PgFront
        ensures empty { result ≡ first_pgs }
    {
        PgFront {
            reader: Reader::new(alloc),
        }
    }
}

impl Front for PgFront {
    ghost protocol = { pg_protocol };

    /// Takes the next piece of the input, in amortised time linear in the piece. Where no memory is found, or an offset
    /// would pass the last one, nothing is changed.
    fn feed(&mut self, alloc: Global, piece: &[u8]) -> Result<(), Memory> {
        self.reader.feed(piece)
    }

    /// Takes the next message, where it has come whole, and says by itself what asks for no statement; a message that is
    /// passed over says no byte. `More` comes exactly where no message has come whole, `Bad` exactly where the bytes are
    /// none, with the offset of the first. `Clean` never comes. Where no memory is found, nothing is changed.
    ///
    /// It takes amortised time linear in the bytes that it takes, and memory for the text of a query.
    fn next_step(&mut self, alloc: Global) -> Result<Step, Memory>
        ensures exact { IfOk result (TakesPg self.old self.new) }
        ensures whole { IfOk result (λ step. (k : Kind) (size : ℕ) → first self.old.mode self.old.waiting ≡ found.Whole k size →
            step ≡ step_of (turn_of self.old.mode k (text_in size self.old.waiting))) }
        ensures unfinished { IfOk result (λ step. first self.old.mode self.old.waiting ≡ found.Short → step ≡ Step.More) }
        ensures none { IfOk result (λ step. first self.old.mode self.old.waiting ≡ found.Wrong → step ≡ Step.Bad self.old.start) }
        ensures total { OnOk result (self.new.start + length self.new.waiting ≡ self.old.start + length self.old.waiting) }
        ensures step { IfOk result (TakesStep (pg_protocol self.old) (pg_protocol self.new)) }
        ensures err { OnErr result (self.new ≡ self.old) }
    {
        let step = self.reader.next_step(alloc)?;
        Ok(step)
    }

    /// Says how the input ended: `Clean` exactly where no byte waits, else `Bad` with the offset of the first that does.
    /// It changes nothing, takes constant time and no memory.
    fn finish(&mut self) -> Step
        ensures step { result ≡ ends_with (pg_protocol self.old) }
        ensures same { self.new ≡ self.old }
    {
        if self.reader.is_empty() {
            Step::Clean
        } else {
            Step::Bad {
                place: self.reader.start,
            }
        }
    }

    /// Prints the messages of a reply, in time and memory linear in them. It changes nothing. A table with more than 65,535
    /// columns, or with a row or a text of 4 GiB, finds no memory.
    fn reply(&mut self, alloc: Global, reply: &Reply) -> Result<Txt, Memory>
        ensures bytes { IfOk result (λ text. text ≡ pg_reply reply.now) }
        ensures same { self.new ≡ self.old }
    {
        print(alloc, reply)
    }

    fn one_script(&self) {}
}
