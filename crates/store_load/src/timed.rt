//! Steps of a load, each with what it took.
ghost use Rattle.std.specs.Prelude.{◌<◌};

use qd_ilp::parse_batch;
use qd_store::Store;
use qd_volume::Volume;
use std::alloc::Global;
use std::rt::Clock;
use std::time::Instant;
use std::{fmt, io};

/// What the steps took, in microseconds.
#[derive(Clone, Copy, Debug)]
pub struct Times {
    /// The making of the store.
    pub begun: u64,
    /// The reading of the texts.
    pub parsed: u64,
    /// The commits of what was read.
    pub committed: u64,
    /// The draft of all transactions.
    pub drafted: u64,
    /// Its merge.
    pub merged: u64,
    /// The publication of the merge.
    pub published: u64,
}

impl Times {
    /// Nothing took any time yet.
    pub fn none() -> Times {
        Times {
            begun: 0,
            parsed: 0,
            committed: 0,
            drafted: 0,
            merged: 0,
            published: 0,
        }
    }
}

impl fmt::Display for Times {
    fn fmt<W: fmt::Write>(&self, f: &mut fmt::Formatter<W>) -> fmt::Result {
        write!(
            f,
            "begun {} parsed {} committed {} ",
            self.begun, self.parsed, self.committed
        )?;
        write!(
            f,
            "drafted {} merged {} published {}",
            self.drafted, self.merged, self.published
        )
    }
}

/// Gives the microseconds since a moment.
pub fn micros(rt: &impl Clock, start: &Instant) -> io::Result<u64> {
    let micros = start.elapsed(rt)?.as_micros();
    Ok(micros.min(1_000_000_000_000_000) as u64)
}

/// Commits a batch for each of the texts.
pub fn commit_all<V: Volume>(
    rt: &impl Clock,
    alloc: Global,
    store: &mut Store<V>,
    texts: &[String],
    times: &mut Times,
) -> anyhow::Result<()> {
    for text in texts {
        let start = Instant::now(rt)?;
        let parsed = commit(rt, alloc, store, text.as_str().as_bytes())?;
        let both = micros(rt, &start)?;
        times.parsed = times.parsed.saturating_add(parsed);
        times.committed = times.committed.saturating_add(both.saturating_sub(parsed));
    }
    Ok(())
}

/// Commits the batch of a text, and gives what its reading took.
fn commit<V: Volume>(
    rt: &impl Clock,
    alloc: Global,
    store: &mut Store<V>,
    text: &[u8],
) -> anyhow::Result<u64> {
    let start = Instant::now(rt)?;
    let batch = parse_batch(alloc, text)?;
    let parsed = micros(rt, &start)?;
    let _done = store.accept_lines(alloc, Some(0), &batch, 0, None)?;
    Ok(parsed)
}

/// Drafts, merges and publishes all transactions: a load sets no keys, so they are one round.
pub fn show_all<V: Volume>(
    rt: &impl Clock,
    alloc: Global,
    store: &mut Store<V>,
    times: &mut Times,
) -> anyhow::Result<()> {
    let upto = store.hist_len();
    if upto <= store.version_n() {
        return Ok(());
    }
    let start = Instant::now(rt)?;
    let draft = store.draft(alloc, upto)?;
    times.drafted = micros(rt, &start)?;
    let start = Instant::now(rt)?;
    let merged = draft.merge(alloc)?;
    times.merged = micros(rt, &start)?;
    let start = Instant::now(rt)?;
    let _row = store.publish(alloc, &merged)?;
    times.published = micros(rt, &start)?;
    Ok(())
}
