//! What a front of frames holds, and how it takes frames from it.
ghost use Rattle.std.specs.Prelude.{◌≡◌, ◌+◌, ◌-◌, ◌^◌, ◌==◌, ◌<◌, ◌≤◌, [], ◌++◌, length, drop, min, IfOk, IfSome, OnOk, OnErr};
ghost use Rattle.qd_frames.specs.Frames.{TakesFrame};
ghost use Rattle.qd_frames.specs.Buffer.{frames_of, waiting_of, GoesDirect, IsSound};
ghost use Rattle.qd_frames.specs.Heads.{request_of};

use super::head::{Head, Kind, Text, read_head};
use super::queue::Queue;
use qd_base::{LAST_OFFSET, Memory, Request, Step, Txt};
use std::alloc::{AllocError, Global};
use std::mem;

/// The bytes of a front of frames that wait. A text is gathered in a vector of its own as its bytes come, and that vector becomes
/// the request's text as it is.
#[derive(Drop)]
pub(crate) struct FrameBuffer {
    /// The text that is being gathered, once its header has been read.
    pub current: Option<Text>,
    /// The bytes of that text that have come.
    pub payload: Vec<u8>,
    /// The bytes behind them.
    pub rest: Queue,
    /// The offset in the input of the first byte that waits.
    pub start: u64,
}

impl FrameBuffer {
    /// Makes the buffer of a front to which nothing has come.
    pub fn new(alloc: Global) -> FrameBuffer
        ensures sound { IsSound result }
        ensures empty { frames_of result ≡ record { waiting = []; start = 0 } }
    {
        FrameBuffer {
            current: None,
            payload: Vec::new(alloc),
            rest: Queue::new(alloc),
            start: 0,
        }
    }

    /// Takes the next piece of the input. What the current text lacks goes right to it. Where an offset would pass the
    /// last one, it finds no memory.
    pub fn feed(&mut self, piece: &[u8]) -> Result<(), Memory>
        requires { IsSound self.old }
        ensures sound { IsSound self.new }
        ensures room { OnOk result (self.old.start + length (waiting_of self.old) + length piece.now ≤ LAST_OFFSET) }
        ensures waiting { OnOk result (waiting_of self.new ≡ waiting_of self.old ++ piece.now) }
        ensures start { self.new.start ≡ self.old.start }
        ensures err { OnErr result (frames_of self.new ≡ frames_of self.old) }
    {
        if piece.len() as u64 > LAST_OFFSET - self.end() {
            return Err(AllocError);
        }
        let (front, back) = piece.split_at(self.direct(piece.len()));
        self.payload.reserve(front.len())?;
        self.rest.append(back)?;
        self.payload.extend_from_slice(front)
    }

    // The offset behind the last byte that waits.
    fn end(&self) -> u64
        requires { IsSound self.now }
        ensures { result ≡ self.now.start + length (waiting_of self.now) }
    {
        let head = match self.current {
            Some(text) => text.head as u64,
            None => 0,
        };
        self.start + head + self.payload.len() as u64 + self.rest.as_slice().len() as u64
    }

    // Says how many of the next n bytes go right to the current text.
    fn direct(&self, n: usize) -> usize
        requires { IsSound self.now }
        ensures most { result ≤ n }
        ensures fit { GoesDirect self.now result }
        ensures all { self.now.rest ≡ [] →
            IfSome self.now.current (λ text. result ≡ min n (text.size - length self.now.payload.items)) }
    {
        match self.current {
            Some(text) if self.rest.as_slice().is_empty() => {
                n.min((text.size - self.payload.len() as u64) as usize)
            }
            _ => 0,
        }
    }

    /// Says whether no byte waits, in constant time.
    pub fn is_empty(&self) -> bool
        requires { IsSound self.now }
        ensures { result ≡ (length (waiting_of self.now) == 0) }
    {
        match self.current {
            Some(_) => false,
            None => self.rest.as_slice().is_empty(),
        }
    }

    /// Takes the next frame, where it has come whole.
    pub fn next_step(&mut self, alloc: Global) -> Result<Step, Memory>
        requires { IsSound self.old }
        ensures sound { IsSound self.new }
        ensures exact { IfOk result (λ step. TakesFrame (frames_of self.old) (frames_of self.new) step) }
        ensures err { OnErr result (frames_of self.new ≡ frames_of self.old) }
    {
        match self.current {
            Some(text) => self.next_text(alloc, text),
            None => self.next_frame(alloc),
        }
    }

    // Takes the next frame, where no header has been read.
    fn next_frame(&mut self, alloc: Global) -> Result<Step, Memory>
        requires sound { IsSound self.old }
        requires none { self.old.current ≡ None }
        ensures sound { IsSound self.new }
        ensures exact { IfOk result (λ step. TakesFrame (frames_of self.old) (frames_of self.new) step) }
        ensures err { OnErr result (frames_of self.new ≡ frames_of self.old) }
    {
        match read_head(self.rest.as_slice()) {
            Head::Short => Ok(Step::More),
            Head::Wrong => Ok(Step::Bad { place: self.start }),
            Head::Apply => {
                self.skip_line();
                Ok(Step::Ask(Request::Apply))
            }
            Head::End => {
                self.skip_line();
                Ok(Step::Ask(Request::End))
            }
            Head::Text(text) => {
                self.rest.skip(text.head);
                self.current = Some(text);
                self.next_text(alloc, text)
            }
        }
    }

    // Takes a frame of a letter and LF.
    fn skip_line(&mut self)
        requires sound { IsSound self.old }
        requires none { self.old.current ≡ None }
        requires whole { 2 ≤ length self.old.rest }
        ensures sound { IsSound self.new }
        ensures rest { self.new.rest ≡ drop 2 self.old.rest }
        ensures start { self.new.start ≡ self.old.start + 2 }
        ensures current { self.new.current ≡ None }
    {
        self.rest.skip(2);
        self.start += 2;
    }

    // Takes the text that is being gathered, where it has come whole.
    fn next_text(&mut self, alloc: Global, text: Text) -> Result<Step, Memory>
        requires sound { IsSound self.old }
        requires current { self.old.current ≡ Some text }
        ensures sound { IsSound self.new }
        ensures exact { IfOk result (λ step. TakesFrame (frames_of self.old) (frames_of self.new) step) }
        ensures err { OnErr result (frames_of self.new ≡ frames_of self.old) }
    {
        gather(&mut self.payload, &mut self.rest, text.size)?;
        if (self.payload.len() as u64) < text.size {
            return Ok(Step::More);
        }
        let bytes = mem::replace(&mut self.payload, Vec::new(alloc));
        self.current = None;
        self.start += text.head as u64 + text.size;
        Ok(Step::Ask(text.kind.request(Txt::from_vec(bytes))))
    }
}

impl Kind {
    // The request that a text of this kind is.
    fn request(self, text: Txt) -> Request
        ensures { result ≡ request_of self text }
    {
        match self {
            Kind::Write => Request::Write(text),
            Kind::Sql => Request::Sql(text),
        }
    }
}

// Moves the first bytes of `rest` behind `payload` until that has `size` bytes or nothing is left.
fn gather(payload: &mut Vec<u8>, rest: &mut Queue, size: u64) -> Result<(), Memory>
    requires { length payload.old.items ≤ size }
    ensures same { payload.new.items ++ rest.new ≡ payload.old.items ++ rest.old }
    ensures most { length payload.new.items ≤ size }
    ensures ok { OnOk result (length payload.new.items < size → rest.new ≡ []) }
{
    let missing = (size - payload.len() as u64) as usize;
    let waiting = rest.as_slice();
    let n = missing.min(waiting.len());
    payload.extend_from_slice(&waiting[..n])?;
    rest.skip(n);
    Ok(())
}
