//! Lines that follow each other, and which of them are taken.
ghost use Rattle.std.specs.Prelude.{◌≡◌, ◌-◌, ◌*◌, ◌≤◌, ◌++◌, length, OnOk};
ghost use Rattle.qd_gen.specs.Stretches.{taken_text, takes};

use crate::line::{LINE_BYTES, line_len, push_line};
use qd_base::Memory;

/// Which lines are taken.
#[derive(Clone, Copy, Debug, PartialEq, Eq)]
pub(super) enum Share {
    /// Those that come late.
    Late,
    /// Those that come in time.
    InTime,
    /// All of them.
    All,
}

/// Lines that follow each other, of which a share is taken.
#[derive(Clone, Copy, Debug)]
pub(super) struct Stretch {
    /// The first line.
    pub first: u32,
    /// The line behind the last.
    pub end: u32,
    /// Which of them are taken.
    pub share: Share,
    ghost in_order: { first ≤ end },
}

/// Whether a share has line `i`.
fn is_taken(share: Share, i: u32) -> bool
    ensures { result ≡ takes share i }
{
    match share {
        Share::Late => i % 8 == 7,
        Share::InTime => i % 8 != 7,
        Share::All => true,
    }
}

/// Appends the lines taken, in time linear in the lines of the stretch.
pub(super) fn push_stretch(out: &mut Vec<u8>, number: u32, stretch: &Stretch) -> Result<(), Memory>
    ensures { OnOk result (out.new.items ≡ out.old.items ++ taken_text stretch.now.share number stretch.now.first (stretch.now.end - stretch.now.first)) }
{
    for i in stretch.first..stretch.end {
        if is_taken(stretch.share, i) {
            push_line(out, number, i)?;
        }
    }
    Ok(())
}

/// The number of bytes of the lines taken, in time linear in the lines of the stretch.
pub(super) fn stretch_len(number: u32, stretch: &Stretch) -> u64
    ensures length { result ≡ length (taken_text stretch.now.share number stretch.now.first (stretch.now.end - stretch.now.first)) }
    ensures short { result ≤ LINE_BYTES * (stretch.now.end - stretch.now.first) }
{
    let mut len = 0;
    for i in stretch.first..stretch.end {
        if is_taken(stretch.share, i) {
            len += line_len(number, i);
        }
    }
    len
}
