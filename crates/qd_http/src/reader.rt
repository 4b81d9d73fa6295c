//! What a front of HTTP holds, and how it takes requests from it.
ghost use Rattle.std.specs.Prelude.{◌≡◌, ◌+◌, ◌<◌, ◌≤◌, ◌==◌, ◌++◌, [], ℕ, List, false, length, IfOk, OnErr, OnOk};
ghost use Rattle.qd_http.specs.declared.reader.Taken.{Taken};
ghost use Rattle.qd_http.specs.declared.reply.Asked.{Asked};
ghost use Rattle.qd_http.specs.Reading.{https_of, is_closing, IsAt, IsBody, IsSound, IsUnchanged};
ghost use Rattle.qd_http.specs.Steps.{StepIs, TakesHttp, turn_with};

use crate::head::{Head, Order, read_head};
use crate::limits::MAX_HEAD_BYTES;
use crate::lines::{Found, Search};
use crate::queue::Queue;
use crate::reply::{Asked, said};
use crate::wanted::Wanted;
use qd_base::{LAST_OFFSET, Memory, Request, Step, Txt};
use std::alloc::{AllocError, Global};

/// How far the request at the front of the bytes that wait has been read.
#[derive(Debug, Drop)]
pub(crate) enum Stage {
    /// The end of its head is looked for.
    Head(Search),
    /// Its head has too many fields.
    Overfull,
    /// Its head has come.
    Body(Order),
    /// The request before it was the last.
    Closing,
}

impl Stage {
    // The stage behind a request, which may be the last.
    fn after(last: bool) -> Stage
        ensures closing { is_closing result ≡ last }
        ensures at { (bytes : List ℕ) → IsAt result bytes }
    {
        if last {
            Stage::Closing
        } else {
            Stage::Head(Search::new())
        }
    }
}

/// The bytes of a front of HTTP that wait.
#[derive(Drop)]
pub(crate) struct Reader {
    /// The bytes.
    pub queue: Queue,
    /// The offset in the input of the first of them.
    pub start: u64,
    /// How far they have been read.
    pub stage: Stage,
}

/// A step, and what the replies that follow it answer.
#[derive(Debug, Drop)]
pub(crate) struct Taken {
    /// The step.
    pub step: Step,
    /// What it asks.
    pub asked: Asked,
}

impl Reader {
    /// Makes the reader of a front to which nothing has come.
    pub fn new(alloc: Global) -> Reader
        ensures sound { IsSound result }
        ensures empty { https_of result Asked.Nothing ≡ record { waiting = []; start = 0; closing = false; asked = Asked.Nothing } }
    {
        Reader {
            queue: Queue::new(alloc),
            start: 0,
            stage: Stage::Head(Search::new()),
        }
    }

    /// Takes the next piece of the input. Where an offset would pass the last one, it finds no memory.
    pub fn feed(&mut self, piece: &[u8]) -> Result<(), Memory>
        requires { IsSound self.old }
        ensures sound { IsSound self.new }
        ensures room { OnOk result (self.old.start + length self.old.queue + length piece.now ≤ LAST_OFFSET) }
        ensures waiting { OnOk result (self.new.queue ≡ self.old.queue ++ piece.now) }
        ensures start { self.new.start ≡ self.old.start }
        ensures stage { self.new.stage ≡ self.old.stage }
        ensures err { OnErr result (self.new ≡ self.old) }
    {
        if piece.len() as u64 > LAST_OFFSET - (self.start + self.queue.as_slice().len() as u64) {
            return Err(AllocError);
        }
        self.queue.append(piece)?;
        Ok(())
    }

    /// Says whether no byte waits, in constant time.
    pub fn is_empty(&self) -> bool
        ensures { result ≡ (length self.now.queue == 0) }
    {
        self.queue.as_slice().is_empty()
    }

    /// Takes the next request, where it has come whole.
    pub fn next_step(&mut self, alloc: Global) -> Result<Taken, Memory>
        requires { IsSound self.old }
        ensures sound { IsSound self.new }
        ensures exact { (before : Asked) → IfOk result (λ (t : Taken). TakesHttp (https_of self.old before) (https_of self.new t.asked) t.step) }
        ensures err { OnErr result (IsUnchanged self.old self.new) }
    {
        match &self.stage {
            Stage::Head(search) => {
                let search = *search;
                self.next_head(alloc, search)
            }
            Stage::Overfull => Ok(self.wait()),
            Stage::Body(_) => self.next_body(alloc),
            Stage::Closing => Ok(Taken {
                step: Step::Ask(Request::End),
                asked: Asked::End,
            }),
        }
    }

    // Looks for the end of the head, and reads it.
    fn next_head(&mut self, alloc: Global, search: Search) -> Result<Taken, Memory>
        requires sound { IsSound self.old }
        requires stage { self.old.stage ≡ Stage.Head search }
        ensures sound { IsSound self.new }
        ensures exact { (before : Asked) → IfOk result (λ (t : Taken). TakesHttp (https_of self.old before) (https_of self.new t.asked) t.step) }
        ensures err { OnErr result (IsUnchanged self.old self.new) }
    {
        let waiting = self.queue.as_slice();
        let window = &waiting[..waiting.len().min(MAX_HEAD_BYTES)];
        match search.go_on(window) {
            Found::Open(search) => {
                self.stage = Stage::Head(search);
                Ok(self.wait())
            }
            Found::End(end) => match read_head(alloc, &window[..end])? {
                Head::Wrong => Ok(self.bad()),
                Head::Overfull => {
                    self.stage = Stage::Overfull;
                    Ok(self.wait())
                }
                Head::Whole(order) => {
                    self.stage = Stage::Body(order);
                    self.next_body(alloc)
                }
            },
        }
    }

    // Waits for the end of a head, as long as it can come.
    fn wait(&self) -> Taken
        ensures more { length self.now.queue ≤ MAX_HEAD_BYTES → result ≡ record { step = Step.More; asked = Asked.Nothing } }
        ensures bad { MAX_HEAD_BYTES < length self.now.queue → result ≡ record { step = Step.Bad self.now.start; asked = Asked.Nothing } }
    {
        if self.queue.as_slice().len() > MAX_HEAD_BYTES {
            self.bad()
        } else {
            more()
        }
    }

    // Refuses the bytes that wait.
    fn bad(&self) -> Taken
        ensures { result ≡ record { step = Step.Bad self.now.start; asked = Asked.Nothing } }
    {
        Taken {
            step: Step::Bad { place: self.start },
            asked: Asked::Nothing,
        }
    }

    // Takes the request whose head has come, once its body has.
    fn next_body(&mut self, alloc: Global) -> Result<Taken, Memory>
        requires sound { IsSound self.old }
        requires stage { IsBody self.old.stage }
        ensures sound { IsSound self.new }
        ensures exact { (before : Asked) → IfOk result (λ (t : Taken). TakesHttp (https_of self.old before) (https_of self.new t.asked) t.step) }
        ensures err { OnErr result (IsUnchanged self.old self.new) }
    {
        let Stage::Body(order) = &self.stage else {
            unreachable!();
        };
        let waiting = self.queue.as_slice();
        let size = order.head + order.body as usize;
        if waiting.len() < size {
            return Ok(more());
        }
        let taken = take(alloc, &order.wanted, &waiting[order.head..size])?;
        self.stage = Stage::after(order.last);
        self.queue.skip(size);
        self.start += size as u64;
        Ok(taken)
    }
}

// The step that waits for more.
fn more() -> Taken
    ensures { result ≡ record { step = Step.More; asked = Asked.Nothing } }
{
    Taken {
        step: Step::More,
        asked: Asked::Nothing,
    }
}

// The step of a request with this body.
fn take(alloc: Global, wanted: &Wanted, body: &[u8]) -> Result<Taken, Memory>
    ensures { IfOk result (λ (t : Taken). StepIs (turn_with body.now wanted.now) t.asked t.step) }
{
    match wanted {
        Wanted::Write => Ok(Taken {
            step: Step::Ask(Request::Write(Txt::from_bytes(alloc, body)?)),
            asked: Asked::Write,
        }),
        Wanted::Statement(text) => Ok(Taken {
            step: Step::Ask(Request::Sql(text.copy()?)),
            asked: Asked::Statement(text.copy()?),
        }),
        Wanted::Apply => Ok(Taken {
            step: Step::Ask(Request::Apply),
            asked: Asked::Apply,
        }),
        Wanted::Refused(refusal) => Ok(Taken {
            step: Step::Say(said(alloc, *refusal)?),
            asked: Asked::Nothing,
        }),
    }
}
