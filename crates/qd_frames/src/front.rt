//! The front of frames.
ghost use Rattle.std.specs.Prelude.{◌≡◌, ℕ, ◌+◌, List, [], ◌++◌, length, IfOk, OnOk, OnErr};
ghost use Rattle.qd_base.specs.Script.{Feeds, TakesStep, ends_with};
ghost use Rattle.qd_frames.specs.Frames.{BeginsNone, IsFramed, IsUnfinished, TakesFrame, frame, frames_protocol};
ghost use Rattle.qd_base.specs.declared.request.Request.{Request};
ghost use Rattle.qd_print.specs.Printed.{reply_bytes};

use crate::buffer::FrameBuffer;
use qd_base::{Front, Memory, Reply, Step, Txt};
use qd_print::print_reply;
use std::alloc::Global;
use std::marker::Model;

/// A front that reads frames and prints replies as lines.
///
/// A frame is `W n`, LF and n bytes, a batch of lines; `Q n`, LF and n bytes, a statement; `A` and LF, to apply; or `X`
/// and LF, for the end. A number is in decimal without leading zeros. A batch has at most 16,777,216 bytes, a statement
/// 65,536. The frames are this project's own.
///
/// Contracts see the bytes that were fed and not yet taken, and the offset in the input of the first of them.
///
/// It takes amortised time linear in the bytes fed, however they are cut: a byte is copied when it comes and, where it
/// did not come for the text that is being gathered, once more into its text. It holds no more than the bytes that wait:
/// a header takes no memory for its text, which grows with what comes.
#[derive(Drop)]
pub struct FrameFront {
    buffer: FrameBuffer,
}

impl Model for FrameFront {
    ghost use Rattle.qd_frames.specs.Frames.{Frames};
    ghost use Rattle.qd_frames.specs.Buffer.{frames_of, IsSound};

    ghost Value = { Frames };

    ghost view = { λ f. frames_of f.buffer };

    ghost invariant = { λ f. IsSound f.buffer };
}

impl FrameFront {
    /// Makes a front to which nothing has been fed. It takes no memory until something is.
    pub fn new(alloc: Global) -> FrameFront
        ensures empty { result ≡ record { waiting = []; start = 0 } }
    {
        FrameFront {
            buffer: FrameBuffer::new(alloc),
        }
    }
}

impl Front for FrameFront {
    ghost protocol = { frames_protocol };

    /// Takes the next piece of the input, in amortised time linear in the piece. Where no memory is found, or an offset
    /// would pass the last one, nothing is changed.
    fn feed(&mut self, alloc: Global, piece: &[u8]) -> Result<(), Memory>
        ensures fed { OnOk result (Feeds (frames_protocol self.old) piece.now (frames_protocol self.new)) }
        ensures err { OnErr result (self.new ≡ self.old) }
    {
        self.buffer.feed(piece)
    }

    /// Takes the next request, where its frame has come whole. `More` comes exactly where the bytes that wait are a
    /// proper prefix of a frame, or there are none; `Bad` exactly where they begin no frame, however they go on, with the
    /// offset of the first. It says nothing by itself, and `Clean` never comes. Where no memory is found, nothing is
    /// changed.
    ///
    /// It takes amortised time linear in the bytes that it takes, and constant time where it takes none.
    fn next_step(&mut self, alloc: Global) -> Result<Step, Memory>
        ensures exact { IfOk result (λ step. TakesFrame self.old self.new step) }
        ensures whole { IfOk result (λ step. (asked : Request) (rest : List ℕ) → IsFramed asked →
            self.old.waiting ≡ frame asked ++ rest → step ≡ Step.Ask asked) }
        ensures unfinished { IfOk result (λ step. IsUnfinished self.old.waiting → step ≡ Step.More) }
        ensures none { IfOk result (λ step. BeginsNone self.old.waiting → step ≡ Step.Bad self.old.start) }
        ensures total { OnOk result (self.new.start + length self.new.waiting ≡ self.old.start + length self.old.waiting) }
        ensures step { IfOk result (TakesStep (frames_protocol self.old) (frames_protocol self.new)) }
        ensures err { OnErr result (self.new ≡ self.old) }
    {
        self.buffer.next_step(alloc)
    }

    /// Says how the input ended: `Clean` exactly where no byte waits, else `Bad` with the offset of the first that does.
    /// It changes nothing, takes constant time and no memory.
    fn finish(&mut self) -> Step
        ensures step { result ≡ ends_with (frames_protocol self.old) }
        ensures same { self.new ≡ self.old }
    {
        if self.buffer.is_empty() {
            Step::Clean
        } else {
            Step::Bad {
                place: self.buffer.start,
            }
        }
    }

    /// Prints a reply as the line that it is, with the CSV of rows behind it, in time and memory linear in that. It
    /// changes nothing.
    fn reply(&mut self, alloc: Global, reply: &Reply) -> Result<Txt, Memory>
        ensures bytes { IfOk result (λ text. text ≡ reply_bytes reply.now) }
        ensures same { self.new ≡ self.old }
    {
        print_reply(alloc, reply)
    }

    fn one_script(&self) {}
}
