//! The batches of the generated input.
ghost use Rattle.std.specs.Prelude.{◌≡◌, ◌+◌, ◌-◌, ◌*◌, ◌/◌, ◌<◌, ◌≤◌, ◌++◌, OnOk};
ghost use Rattle.qd_frames.specs.Frames.{frame};
ghost use Rattle.qd_gen.specs.Generated.{kept, late_before, write};
ghost use Rattle.qd_gen.specs.Stretches.{taken};

use crate::line::push_number;
use crate::stretch::{Share, Stretch, push_stretch, stretch_len};
use qd_base::Memory;

/// The number of batches.
pub(super) const BATCHES: u32 = 100;

/// Appends the frame of a batch: its length, the late lines of the one before it, and those of its own lines that stay.
///
/// Its length is counted first. It takes time linear in the lines of these two batches.
pub(super) fn push_batch(
    out: &mut Vec<u8>,
    number: u32,
    lines: u32,
    batch: u32,
) -> Result<(), Memory>
    requires { batch < BATCHES }
    ensures { OnOk result (out.new.items ≡ out.old.items ++ frame (write number lines batch)) }
{
    let late = late_stretch(lines, batch);
    let own = kept_stretch(lines, batch);
    out.extend_from_slice(b"W ")?;
    push_number(out, stretch_len(number, &late) + stretch_len(number, &own))?;
    out.push(b'\n')?;
    push_stretch(out, number, &late)?;
    push_stretch(out, number, &own)?;
    Ok(())
}

/// The late lines of the batch before this one; none before the first.
fn late_stretch(lines: u32, batch: u32) -> Stretch
    requires { batch < BATCHES }
    ensures { taken result.share result.first (result.end - result.first) ≡ late_before lines batch }
{
    let before = if batch == 0 { 0 } else { batch - 1 };
    Stretch {
        first: first_line(lines, before),
        end: first_line(lines, batch),
        share: Share::Late,
    }
}

/// The lines of a batch that stay in it: all of the last one's, and those of the others that come in time.
fn kept_stretch(lines: u32, batch: u32) -> Stretch
    requires { batch < BATCHES }
    ensures { taken result.share result.first (result.end - result.first) ≡ kept lines batch }
{
    let share = if batch == BATCHES - 1 {
        Share::All
    } else {
        Share::InTime
    };
    Stretch {
        first: first_line(lines, batch),
        end: first_line(lines, batch + 1),
        share,
    }
}

/// The first line of a batch, or behind the last batch the number of lines.
fn first_line(lines: u32, batch: u32) -> u32
    requires { batch ≤ BATCHES }
    ensures first { result ≡ (batch * lines + 99) / 100 }
    ensures within { result ≤ lines }
{
    ((u64::from(batch) * u64::from(lines) + 99) / u64::from(BATCHES)) as u32
}
