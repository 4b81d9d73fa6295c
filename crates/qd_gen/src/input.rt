//! The whole input.
ghost use Rattle.std.specs.Prelude.{◌≡◌, ◌++◌, flat_map, IfOk, OnOk};
ghost use Rattle.qd_frames.specs.Frames.{frame};
ghost use Rattle.qd_gen.specs.Generated.{input, writes};

use crate::batch::{BATCHES, push_batch};
use crate::line::LINE_BYTES;
use qd_base::{Memory, Txt};
use std::alloc::Global;

/// The greatest length of what stands before a batch: a letter, a space, 12 digits and LF.
const HEAD_BYTES: u64 = 15;

/// What is asked behind the batches, and the end.
const QUESTIONS: &[u8] = b"A\n\
Q 47\nSELECT count(), sum(v), min(v), max(v) FROM gen\
Q 43\ngen LATEST ON timestamp PARTITION BY sensor\
Q 56\nSELECT timestamp, count(), last(v) FROM gen SAMPLE BY 6h\
X\n";

/// Makes the input of the generated run, as frames: `lines` lines of the table `gen`, in a hundred batches; an apply;
/// three queries; and the end.
///
/// Line `i`, counted from 0, is `gen,sensor=sK v=Vi T` with K = i mod 3, V = (`number` + 7·i) mod 1000 and
/// T = 1704067200000000000 + 30000000000·(i / 3), rounded down: a time in nanoseconds, from 2024-01-01 on. It belongs to
/// batch 100·i / `lines`, rounded down; where i mod 8 is 7 it is late, and stands at the front of the batch behind that
/// one, unless its batch is the last.
///
/// It takes time linear in the lines, and its memory at once: at most 42 bytes for each line, and 2 KiB. Up to 1,000,000
/// lines each frame is one that a session reads; with more, a batch may be longer than its limit.
pub fn gen_input(alloc: Global, number: u32, lines: u32) -> Result<Txt, Memory>
    ensures bytes { IfOk result (λ text. text ≡ input number lines) }
{
    let mut out = Vec::with_capacity(alloc, room_for(lines))?;
    push_batches(&mut out, number, lines)?;
    out.extend_from_slice(QUESTIONS)?;
    Ok(Txt::from_vec(out))
}

/// Room for the input: each line and each head at its longest.
fn room_for(lines: u32) -> usize {
    let texts = LINE_BYTES * u64::from(lines);
    let heads = HEAD_BYTES * u64::from(BATCHES);
    (texts + heads) as usize + QUESTIONS.len()
}

/// Appends the frames of the batches.
fn push_batches(out: &mut Vec<u8>, number: u32, lines: u32) -> Result<(), Memory>
    ensures { OnOk result (out.new.items ≡ out.old.items ++ flat_map frame (writes number lines BATCHES)) }
{
    for batch in 0..BATCHES {
        push_batch(out, number, lines, batch)?;
    }
    Ok(())
}
