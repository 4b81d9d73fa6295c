//! A session over other fronts and backends than the product's: those that a contract of the traits must let in.
ghost use Rattle.std.specs.Prelude.{◌≤◌};

use crate::{Backend, Ended, FrameFront, serve};
use qd_base::{Code, Front, Memory, Reply, Request, Step, Txt};
use qd_ilp::Batch;
use qd_io::{Both, Clock, MemClock, MemSink, MemSource};
use qd_print::print_reply;
use qd_sql::{SqlFault, parse_stmt};
use std::alloc::{AllocError, Global};
use std::marker::Model;
use std::process::Abort;
use std::test::Fail;

/// A backend that tells no transaction. Its volume fails from its third batch on. It refuses
/// texts, and finds no memory for statements.
#[derive(Drop)]
struct SilentBack {
    sequenced: u64,
    known: u64,
    faults: u64,
    ghost within: { known ≤ sequenced },
}

impl Backend for SilentBack {
    type Fixed = ();

    ghost use Rattle.qd_session.specs.Allowed.{Allowed};
    ghost use Rattle.qd_session.specs.Trials.{silent};

    ghost shown = { λ b. silent b.sequenced b.known b.faults };

    ghost fixed = { λ _. tt };

    ghost rule = { Allowed };

    fn lines(&mut self, _alloc: Global, _batch: &Batch, _now: u64) -> Result<Reply, Memory> {
        if self.sequenced >= 2 {
            self.faults = self.faults.saturating_add(1);
            return Ok(Reply::Refused {
                code: Code::Volume.number(),
                place: 0,
            });
        }
        self.sequenced += 1;
        Ok(Reply::Done { n: self.sequenced })
    }

    fn sql(&mut self, alloc: Global, text: &Txt) -> Result<Reply, Memory> {
        match parse_stmt(alloc, text.bytes()) {
            Err(SqlFault::Refused { code, place }) => Ok(Reply::Refused {
                code: code.number(),
                place,
            }),
            _ => Err(AllocError),
        }
    }

    fn apply(&mut self, _alloc: Global) -> Result<Reply, Memory> {
        self.known = self.sequenced;
        Ok(Reply::Applied { n: self.known })
    }

    fn is_counted(&self) {}

    fn keeps_to_its_rule(&self) {}
}

/// A backend with a statement of its own, `ping`. It finds no memory for anything else.
#[derive(Drop)]
struct PingBack;

impl Backend for PingBack {
    type Fixed = ();

    ghost use Rattle.qd_session.specs.Trials.{AllowedOrPing, nothing};

    ghost shown = { λ _. nothing };

    ghost fixed = { λ _. tt };

    ghost rule = { AllowedOrPing };

    fn lines(&mut self, _alloc: Global, _batch: &Batch, _now: u64) -> Result<Reply, Memory> {
        Err(AllocError)
    }

    fn sql(&mut self, _alloc: Global, text: &Txt) -> Result<Reply, Memory> {
        if text.bytes() == b"ping".as_slice() {
            return Ok(Reply::Applied { n: 0 });
        }
        Err(AllocError)
    }

    fn apply(&mut self, _alloc: Global) -> Result<Reply, Memory> {
        Err(AllocError)
    }

    fn is_counted(&self) {}

    fn keeps_to_its_rule(&self) {}
}

/// A front that says each byte back, but for `A`, which asks to apply.
#[derive(Drop)]
struct EchoFront {
    bytes: Vec<u8>,
    taken: usize,
}

impl Model for EchoFront {
    ghost use Rattle.std.specs.Prelude.{◌≤◌, vec_len};
    ghost use Rattle.qd_session.specs.Trials.{Echoed};

    ghost Value = { Echoed };

    ghost view = { λ f. record { taken = f.taken; bytes = f.bytes.items } };

    ghost invariant = { λ f. f.taken ≤ vec_len f.bytes };
}

impl Front for EchoFront {
    ghost use Rattle.qd_session.specs.Trials.{echo};

    ghost protocol = { echo };

    fn feed(&mut self, _alloc: Global, piece: &[u8]) -> Result<(), Memory> {
        self.bytes.extend_from_slice(piece)
    }

    fn next_step(&mut self, alloc: Global) -> Result<Step, Memory> {
        if self.taken == self.bytes.len() {
            return Ok(Step::More);
        }
        let byte = self.bytes[self.taken];
        if byte == b'A' {
            self.taken += 1;
            return Ok(Step::Ask(Request::Apply));
        }
        let text = Txt::from_bytes(alloc, &[byte])?;
        self.taken += 1;
        Ok(Step::Say(text))
    }

    fn finish(&mut self) -> Step {
        if self.taken == self.bytes.len() {
            Step::Clean
        } else {
            Step::Bad {
                place: self.taken as u64,
            }
        }
    }

    fn reply(&mut self, alloc: Global, reply: &Reply) -> Result<Txt, Memory> {
        print_reply(alloc, reply)
    }

    fn one_script(&self) {}
}

/// Serves an input over memory to its end, and compares what was written.
fn serves<F: Front, B: Backend>(
    rt: &(impl Abort + AllocGlobal),
    front: &mut F,
    back: &mut B,
    clock: &mut MemClock,
    input: &[u8],
    wanted: &[u8],
) -> Result<(), Fail> {
    let source = MemSource::new(rt.alloc(), input, 3, &[])?;
    let sink = MemSink::new(rt.alloc(), 4, &[])?;
    let mut wire = Both::new(source, sink);
    let ended = serve(rt.alloc(), front, back, &mut wire, clock);
    assert_eq!(rt; ended, Ended::Finished);
    assert_eq!(rt; wire.sink.bytes(), wanted);
    Ok(())
}

/// A backend that has no transaction yet.
fn silent() -> SilentBack {
    SilentBack {
        sequenced: 0,
        known: 0,
        faults: 0,
    }
}

#[test]
fn a_backend_may_tell_nothing(rt: HostRuntime) -> Result<(), Fail> {
    let mut front = FrameFront::new(rt.alloc());
    let mut clock = MemClock::new(rt.alloc(), &[0], &[])?;
    let input = b"W 1\naA\nW 1\nbQ 1\ntQ 4\nDROPQ 5\nt AS W 1\ncA\nX\n";
    let answer = b"K 1\nA 1\nK 2\nE 61 0\nE 40 0\nE 31 5\nE 52 0\nA 2\nX\n";
    serves(&rt, &mut front, &mut silent(), &mut clock, input, answer)
}

#[test]
fn a_backend_may_know_a_statement_of_its_own(rt: HostRuntime) -> Result<(), Fail> {
    let mut front = FrameFront::new(rt.alloc());
    let mut clock = MemClock::new(rt.alloc(), &[0], &[])?;
    let input = b"Q 4\npingQ 1\ntA\nW 0\n";
    let answer = b"A 0\nE 61 0\nE 61 0\nE 61 0\n";
    serves(&rt, &mut front, &mut PingBack, &mut clock, input, answer)
}

/// A front that has no bytes yet.
fn echo(alloc: Global) -> EchoFront {
    EchoFront {
        bytes: Vec::new(alloc),
        taken: 0,
    }
}

#[test]
fn a_front_may_say_bytes_by_itself(rt: HostRuntime) -> Result<(), Fail> {
    let mut clock = MemClock::new(rt.alloc(), &[0], &[])?;
    let mut front = echo(rt.alloc());
    serves(
        &rt,
        &mut front,
        &mut PingBack,
        &mut clock,
        b"one, two",
        b"one, two",
    )?;
    let mut front = echo(rt.alloc());
    serves(
        &rt,
        &mut front,
        &mut silent(),
        &mut clock,
        b"aAb",
        b"aA 0\nb",
    )
}
