//! A session over one wire and one clock.
ghost use Rattle.std.specs.Prelude.{◌≡◌, ℕ, ◌+◌, ◌-◌, ◌*◌, ◌<◌, ◌≤◌, List, [], length, take, IfOk, OnOk, OnErr, IsErrOf, Ok, Err, Some, None};
ghost use Rattle.qd_base.specs.declared.request.Request.TheVariants as request;
ghost use Rattle.qd_base.specs.Script.{ReadsOn, ends_with};
ghost use Rattle.qd_ilp.specs.Whole.{lacks_time};
ghost use Rattle.qd_io.specs.Ends.{Counts, OutputStays};
ghost use Rattle.qd_session.specs.Legal.{IsLasting};
ghost use Rattle.qd_session.specs.Looks.{Extends, IsCounted};
ghost use Rattle.qd_session.specs.Session.{Faults, IsAllOf, Moves, Serves, TakenFrom, moment, refusal};
ghost use Rattle.qd_session.specs.Timing.{TimesBatch, want_of_memory};
ghost use Rattle.qd_session.specs.Turns.{Finishes, IsAskable, IsHandled, Refuses, Said, SessionStep, TakesPiece, TakesTurn, Wrote, ended_by_write};

use crate::backend::Backend;
use crate::ended::Ended;
use qd_base::{Code, Front, LAST_OFFSET, Reply, Request, Step};
use qd_ilp::{Batch, lacks_time, parse_batch};
use qd_io::{Clock, IoFault, Sink, Source, write_all};
use std::alloc::Global;

/// How many bytes one read asks for.
const PIECE: usize = 65_536;

/// Serves one wire: answers the requests that its bytes spell, in order, until it ends.
///
/// It costs what the requests cost, and time linear in the bytes however they come; it keeps one read buffer of 65,536
/// bytes beside what the front and the backend keep. A request that finds no memory is refused with its code, and the
/// session goes on. An input is taken as ended at the last offset, 2^64 - 1.
///
/// The clock is read once for each batch whose lines are all of the grammar and one of which has no stamp, and for
/// nothing else. Where it fails, that batch is refused with its code, the backend isn't asked, and the session goes on.
pub fn serve<F: Front, B: Backend, W: Source + Sink, C: Clock>(
    alloc: Global,
    front: &mut F,
    back: &mut B,
    wire: &mut W,
    clock: &mut C,
) -> Ended
    // What was written is the replies to what was read, and these are legal over the backend's history.
    ensures served { Serves B.rule (moment (F.protocol front.old) (B.shown back.old) (W.stream wire.old) (C.timeline clock.old))
        (moment (F.protocol front.new) (B.shown back.new) (W.stream wire.new) (C.timeline clock.new)) result }
    ensures history { Extends (B.shown back.old).history (B.shown back.new).history }
    ensures fixed { B.fixed back.new ≡ B.fixed back.old }

    // Faults come exactly where the wire counts one.
    ensures faults { Faults (W.stream wire.old) (W.stream wire.new) (Some result) }
{
    back.keeps_to_its_rule();
    back.is_counted();
    let Ok(mut buffer) = vec![in alloc; 0u8; PIECE] else {
        return Ended::Memory;
    };
    let mut fed = 0;
    'steps: loop {
        match take_step(alloc, front, back, wire, clock, &mut buffer, &mut fed) {
            Some(ended) => {
                back.is_counted();
                return ended;
            }
            None => {}
        }
    }
}

/// Takes one step of a session, and says whether it is over.
fn take_step<F: Front, B: Backend, W: Source + Sink, C: Clock>(
    alloc: Global,
    front: &mut F,
    back: &mut B,
    wire: &mut W,
    clock: &mut C,
    buffer: &mut [u8],
    fed: &mut u64,
) -> Option<Ended>
    requires room { 0 < length buffer.old }
    requires few { fed.old ≤ LAST_OFFSET }
    ensures step { SessionStep B.rule (moment (F.protocol front.old) (B.shown back.old) (W.stream wire.old) (C.timeline clock.old))
        (moment (F.protocol front.new) (B.shown back.new) (W.stream wire.new) (C.timeline clock.new)) fed.old fed.new result }
    ensures nearer { result ≡ None → 2 * (LAST_OFFSET - fed.new) + length (F.protocol front.new).waiting
        < 2 * (LAST_OFFSET - fed.old) + length (F.protocol front.old).waiting }
    ensures most { fed.new ≤ LAST_OFFSET }
    ensures faults { Faults (W.stream wire.old) (W.stream wire.new) result }
    ensures lasting { IsLasting B.rule }
    ensures counted { IsCounted (B.shown back.old) }
    ensures fixed { B.fixed back.new ≡ B.fixed back.old }
{
    back.keeps_to_its_rule();
    back.is_counted();
    match front.next_step(alloc) {
        Ok(Step::Ask(asked)) => take_request(alloc, front, back, wire, clock, &asked),
        Ok(Step::Say(text)) => say(wire, text.bytes()),
        Ok(Step::More) => take_piece(alloc, front, wire, buffer, fed),
        Ok(Step::Clean) => unreachable!(),
        Ok(Step::Bad { place }) => Some(refuse(alloc, front, wire, place)),
        Err(_) => Some(Ended::Memory),
    }
}

/// Handles one request, writes its reply, and says whether the session is over.
fn take_request<F: Front, B: Backend, W: Sink, C: Clock>(
    alloc: Global,
    front: &mut F,
    back: &mut B,
    wire: &mut W,
    clock: &mut C,
    asked: &Request,
) -> Option<Ended>
    requires { IsAskable asked.now }
    ensures reply { TakesTurn B.rule (F.protocol front.old).printed (B.shown back.old) (B.shown back.new)
        (C.timeline clock.old) (C.timeline clock.new) (W.stream wire.old) (W.stream wire.new) asked.now result }
    ensures faults { Faults (W.stream wire.old) (W.stream wire.new) result }
    ensures front { ReadsOn (F.protocol front.old) (F.protocol front.new) }
    ensures fixed { B.fixed back.new ≡ B.fixed back.old }
{
    let given = handle(alloc, back, clock, asked);
    match print(alloc, front, wire, &given) {
        Ok(()) if matches!(asked, Request::End) => Some(Ended::Finished),
        Ok(()) => None,
        Err(fault) => Some(of_write(fault)),
    }
}

/// Lets a backend handle a request. Where it finds no memory, the reply says so.
fn handle<B: Backend, C: Clock>(
    alloc: Global,
    back: &mut B,
    clock: &mut C,
    asked: &Request,
) -> Reply
    requires { IsAskable asked.now }
    ensures handled { IsHandled B.rule (B.shown back.old) (B.shown back.new) (C.timeline clock.old) (C.timeline clock.new) asked.now result }
    ensures fixed { B.fixed back.new ≡ B.fixed back.old }
{
    let handled = match asked {
        Request::Write(text) => return handle_batch(alloc, back, clock, text.bytes()),
        Request::Sql(text) => back.sql(alloc, text),
        Request::Apply => back.apply(alloc),
        Request::End => {
            back.keeps_to_its_rule();
            return Reply::Bye;
        }
    };
    match handled {
        Ok(given) => given,
        Err(_) => refuse_for_memory(),
    }
}

/// Lets a backend handle a batch of lines, with the time of the clock where it lacks one. Where the clock fails, the
/// reply says so, and the backend isn't asked.
fn handle_batch<B: Backend, C: Clock>(
    alloc: Global,
    back: &mut B,
    clock: &mut C,
    text: &[u8],
) -> Reply
    ensures handled { IsHandled B.rule (B.shown back.old) (B.shown back.new) (C.timeline clock.old) (C.timeline clock.new) (request.Write text.now) result }
    ensures fixed { B.fixed back.new ≡ B.fixed back.old }
{
    back.keeps_to_its_rule();
    let Ok(batch) = parse_batch(alloc, text) else {
        return refuse_for_memory();
    };
    match time_for(clock, &batch) {
        Ok(now) => match back.lines(alloc, &batch, now) {
            Ok(given) => given,
            Err(_) => refuse_for_memory(),
        },
        Err(IoFault::Failed) => Reply::Refused {
            code: Code::Clock.number(),
            place: 0,
        },
        Err(IoFault::Memory) => refuse_for_memory(),
    }
}

/// Reads the clock for a batch that lacks a time, and for no other.
fn time_for<C: Clock>(clock: &mut C, batch: &Batch) -> Result<u64, IoFault>
    ensures time { TimesBatch (lacks_time batch.now) (C.timeline clock.old) (C.timeline clock.new) result }
{
    if lacks_time(batch) {
        clock.now()
    } else {
        Ok(0)
    }
}

/// The reply that says that no memory was found.
fn refuse_for_memory() -> Reply
    ensures reply { result ≡ want_of_memory }
{
    Reply::Refused {
        code: Code::Memory.number(),
        place: 0,
    }
}

/// Prints a reply and writes it.
fn print<F: Front, W: Sink>(
    alloc: Global,
    front: &mut F,
    wire: &mut W,
    given: &Reply,
) -> Result<(), IoFault>
    ensures wrote { Wrote (W.stream wire.old) (W.stream wire.new) ((F.protocol front.old).printed given.now) result }
    ensures front { ReadsOn (F.protocol front.old) (F.protocol front.new) }
{
    let text = match front.reply(alloc, given) {
        Ok(text) => text,
        Err(_) => return Err(IoFault::Memory),
    };
    write_all(wire, text.bytes())
}

/// Writes bytes that the front says by itself.
fn say<W: Sink>(wire: &mut W, bytes: &[u8]) -> Option<Ended>
    ensures said { Said (W.stream wire.old) (W.stream wire.new) bytes.now result }
    ensures faults { Faults (W.stream wire.old) (W.stream wire.new) result }
{
    match write_all(wire, bytes) {
        Ok(()) => None,
        Err(fault) => Some(of_write(fault)),
    }
}

/// Reads the next piece of the input and feeds it, or ends the session where there is none.
fn take_piece<F: Front, W: Source + Sink>(
    alloc: Global,
    front: &mut F,
    wire: &mut W,
    buffer: &mut [u8],
    fed: &mut u64,
) -> Option<Ended>
    requires { 0 < length buffer.old }
    ensures taken { TakesPiece (F.protocol front.old) (F.protocol front.new) (W.stream wire.old) (W.stream wire.new)
        fed.old fed.new result }
    ensures nearer { result ≡ None → 2 * (LAST_OFFSET - fed.new) + length (F.protocol front.new).waiting
        < 2 * (LAST_OFFSET - fed.old) + length (F.protocol front.old).waiting }
    ensures most { fed.new ≤ LAST_OFFSET }
    ensures faults { Faults (W.stream wire.old) (W.stream wire.new) result }
{
    if *fed == LAST_OFFSET {
        return Some(finish(alloc, front, wire));
    }
    let n = match read_piece(wire, buffer, *fed) {
        Ok(0) => return Some(finish(alloc, front, wire)),
        Ok(n) => n,
        Err(IoFault::Failed) => return Some(Ended::ReadFault),
        Err(IoFault::Memory) => return Some(Ended::Memory),
    };
    match front.feed(alloc, &buffer[..n]) {
        Ok(()) => {
            *fed += n as u64;
            None
        }
        Err(_) => Some(Ended::Memory),
    }
}

/// Reads the next piece of the input, and no byte past the last offset.
fn read_piece<W: Source>(wire: &mut W, buffer: &mut [u8], fed: u64) -> Result<usize, IoFault>
    requires room { 0 < length buffer.old }
    requires more { fed < LAST_OFFSET }
    ensures within { IfOk result (λ n. (n ≤ length buffer.new) × (fed + n ≤ LAST_OFFSET)) }
    ensures taken { IfOk result (λ n. TakenFrom (W.stream wire.old).input (W.stream wire.new).input (take n buffer.new)) }
    ensures none { OnErr result (TakenFrom (W.stream wire.old).input (W.stream wire.new).input []) }
    ensures end { result ≡ Ok 0 → IsAllOf (W.stream wire.old).input [] }
    ensures counted { Counts (W.stream wire.old).reads_failed (W.stream wire.new).reads_failed result }
    ensures rest { OutputStays (W.stream wire.old) (W.stream wire.new) }
{
    let room = LAST_OFFSET - fed;
    if room < buffer.len() as u64 {
        wire.read(&mut buffer[..room as usize])
    } else {
        wire.read(buffer)
    }
}

/// Ends the session where the input has ended.
fn finish<F: Front, W: Sink>(alloc: Global, front: &mut F, wire: &mut W) -> Ended
    ensures ended { Finishes (F.protocol front.old) (W.stream wire.old) (W.stream wire.new) result }
    ensures faults { Faults (W.stream wire.old) (W.stream wire.new) (Some result) }
{
    match front.finish() {
        Step::Bad { place } => refuse(alloc, front, wire, place),
        _ => Ended::Finished,
    }
}

/// Refuses the bytes at this place, and ends the session.
fn refuse<F: Front, W: Sink>(alloc: Global, front: &mut F, wire: &mut W, place: u64) -> Ended
    ensures refused { Refuses (W.stream wire.old) (W.stream wire.new) ((F.protocol front.old).printed (refusal place)) result }
    ensures faults { Faults (W.stream wire.old) (W.stream wire.new) (Some result) }
{
    let refusal = Reply::Refused {
        code: Code::Frame.number(),
        place,
    };
    match print(alloc, front, wire, &refusal) {
        Ok(()) => Ended::BadFrame,
        Err(fault) => of_write(fault),
    }
}

/// What the fault of a write makes of a session.
fn of_write(fault: IoFault) -> Ended
    ensures { result ≡ ended_by_write fault }
{
    match fault {
        IoFault::Failed => Ended::WriteFault,
        IoFault::Memory => Ended::Memory,
    }
}
