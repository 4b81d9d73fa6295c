//! What a front holds, and how it takes messages from it.
ghost use Rattle.std.specs.Prelude.{◌≡◌, ◌+◌, ◌≤◌, ◌==◌, ◌++◌, length, IfOk, OnErr, OnOk};
ghost use Rattle.qd_pgwire.specs.declared.found.Mode.{Mode};
ghost use Rattle.qd_pgwire.specs.declared.found.Found.TheVariants as found;
ghost use Rattle.qd_pgwire.specs.Messages.{first, text_in};
ghost use Rattle.qd_pgwire.specs.Reading.{Fits, pgs_of, IsSound};
ghost use Rattle.qd_pgwire.specs.Steps.{TakesPg, are_blanks, extended_turn, first_pgs, mode_after, query_turn, step_of, turn_of};

use crate::found::{Found, Kind, Mode, find};
use crate::queue::Queue;
use crate::said;
use qd_base::{LAST_OFFSET, Memory, Request, Step, Txt};
use std::alloc::{AllocError, Global};

/// The bytes of a connection that wait.
#[derive(Drop)]
pub(crate) struct Reader {
    /// The bytes.
    pub queue: Queue,
    /// The offset in the input of the first of them.
    pub start: u64,
    /// The state of the connection.
    pub mode: Mode,
}

impl Reader {
    /// Makes the reader of a front to which nothing has come.
    pub fn new(alloc: Global) -> Reader
        ensures sound { IsSound result }
        ensures empty { pgs_of result ≡ first_pgs }
    {
        Reader {
            queue: Queue::new(alloc),
            start: 0,
            mode: Mode::Starting,
        }
    }

    /// Takes the next piece of the input. Where an offset would pass the last one, it finds no memory.
    pub fn feed(&mut self, piece: &[u8]) -> Result<(), Memory>
        requires { IsSound self.old }
        ensures sound { IsSound self.new }
        ensures room { OnOk result (self.old.start + length self.old.queue + length piece.now ≤ LAST_OFFSET) }
        ensures waiting { OnOk result (self.new.queue ≡ self.old.queue ++ piece.now) }
        ensures start { self.new.start ≡ self.old.start }
        ensures mode { self.new.mode ≡ self.old.mode }
        ensures err { OnErr result (self.new ≡ self.old) }
    {
        if piece.len() as u64 > LAST_OFFSET - (self.start + self.queue.as_slice().len() as u64) {
            return Err(AllocError);
        }
        self.queue.append(piece)?;
        Ok(())
    }

    /// Says whether no byte waits, in constant time.
    pub fn is_empty(&self) -> bool
        ensures { result ≡ (length self.now.queue == 0) }
    {
        self.queue.as_slice().is_empty()
    }

    /// Takes the next message, where it has come whole.
    pub fn next_step(&mut self, alloc: Global) -> Result<Step, Memory>
        requires { IsSound self.old }
        ensures sound { IsSound self.new }
        ensures exact { IfOk result (TakesPg (pgs_of self.old) (pgs_of self.new)) }
        ensures err { OnErr result (self.new ≡ self.old) }
    {
        match find(self.mode, self.queue.as_slice()) {
            Found::Short => Ok(Step::More),
            Found::Wrong => Ok(Step::Bad { place: self.start }),
            Found::Whole { kind, size } => self.take_message(alloc, kind, size),
        }
    }

    // Takes a message that has come whole.
    fn take_message(&mut self, alloc: Global, kind: Kind, size: usize) -> Result<Step, Memory>
        requires sound { IsSound self.old }
        requires found { first self.old.mode self.old.queue ≡ found.Whole kind size }
        requires within { size ≤ length self.old.queue }
        ensures sound { IsSound self.new }
        ensures exact { IfOk result (TakesPg (pgs_of self.old) (pgs_of self.new)) }
        ensures err { OnErr result (self.new ≡ self.old) }
    {
        let waiting = self.queue.as_slice();
        let step = take(alloc, self.mode, kind, text_of(kind, size, waiting))?;
        self.mode = self.mode.after(kind);
        self.queue.skip(size);
        self.start += size as u64;
        Ok(step)
    }
}

// The text of a query of so many bytes, and no text of another message.
fn text_of(kind: Kind, size: usize, bytes: &[u8]) -> &[u8]
    requires { Fits bytes.now (found.Whole kind size) }
    ensures { (m : Mode) → turn_of m kind result.now ≡ turn_of m kind (text_in size bytes.now) }
{
    match kind {
        Kind::Query => &bytes[5..size - 1],
        _ => &[],
    }
}

impl Mode {
    // The state behind a message.
    fn after(self, kind: Kind) -> Mode
        ensures { result ≡ mode_after self kind }
    {
        match kind {
            Kind::Start { .. } | Kind::Sync => Mode::Ready,
            Kind::Extended => Mode::Skipping,
            Kind::Encrypt | Kind::Cancel | Kind::Query | Kind::Flush | Kind::Terminate => self,
        }
    }
}

// The step of a message, with the text that a query has.
fn take(alloc: Global, mode: Mode, kind: Kind, text: &[u8]) -> Result<Step, Memory>
    ensures { IfOk result (λ step. step ≡ step_of (turn_of mode kind text.now)) }
{
    match kind {
        Kind::Start { names_parameters } => {
            Ok(Step::Say(said::welcome(alloc, names_parameters)?))
        }
        Kind::Encrypt => Ok(Step::Say(Txt::from_bytes(alloc, b"N")?)),
        Kind::Cancel | Kind::Terminate => Ok(Step::Ask(Request::End)),
        Kind::Query => take_query(alloc, mode, text),
        Kind::Extended => take_extended(alloc, mode),
        Kind::Flush => Ok(Step::Say(said::nothing(alloc))),
        Kind::Sync => Ok(Step::Say(said::ready(alloc)?)),
    }
}

// The step of a query.
fn take_query(alloc: Global, mode: Mode, text: &[u8]) -> Result<Step, Memory>
    ensures { IfOk result (λ step. step ≡ step_of (query_turn mode text.now)) }
{
    match mode {
        Mode::Skipping => Ok(Step::Say(said::nothing(alloc))),
        Mode::Starting | Mode::Ready => {
            if has_blanks_alone(text) {
                Ok(Step::Say(said::empty_query(alloc)?))
            } else {
                Ok(Step::Ask(Request::Sql(Txt::from_bytes(alloc, text)?)))
            }
        }
    }
}

// The step of a message of the extended query.
fn take_extended(alloc: Global, mode: Mode) -> Result<Step, Memory>
    ensures { IfOk result (λ step. step ≡ step_of (extended_turn mode)) }
{
    match mode {
        Mode::Skipping => Ok(Step::Say(said::nothing(alloc))),
        Mode::Starting | Mode::Ready => Ok(Step::Say(said::not_served(alloc)?)),
    }
}

// Says whether a text has blanks alone.
fn has_blanks_alone(text: &[u8]) -> bool
    ensures { result ≡ are_blanks text.now }
{
    text.iter().all(|byte| *byte == b' ' || *byte == b'\t' || *byte == b'\r' || *byte == b'\n')
}
