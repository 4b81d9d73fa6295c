//! Places of rows, kept as runs of neighbours.
ghost use Rattle.std.specs.Prelude.{◌≡◌, ℕ, ◌+◌, ◌-◌, ◌<◌, ◌≤◌, List, [], ◌∷◌, ◌++◌, Some, length, OnOk, OnErr, IsTrue, ◌↔◌, slice_get};
ghost use Rattle.qd_rows.specs.Runs.{run_at, places_of_run, places_of_runs, AreRuns};

use qd_base::Memory;
use std::alloc::{AllocError, Global};
use std::marker::Model;

/// Where a row lies: the position of its block in a set, and the row's number in that block.
pub type Place = (usize, u64);

/// Neighbouring rows of one block that stand one after another in a set.
#[derive(Clone, Copy, Debug)]
pub struct Run {
    /// The block's position in the set.
    pub block: usize,
    /// The number in the block of the run's first row.
    pub from: u64,
    /// The number behind that of its last row.
    pub to: u64,
    /// How many rows of the set stand before it.
    pub before: usize,
}

/// A list of places. Contracts see that list.
///
/// A run takes 32 bytes, however many rows it has.
#[derive(Drop)]
pub(crate) struct Runs {
    runs: Vec<Run>,
    count: usize,
}

impl Model for Runs {
    ghost use Rattle.std.specs.Prelude.{List};
    ghost use Rattle.qd_rows.specs.Runs.{Spot, places_of_runs, AreRuns};

    ghost Value = { List Spot };

    ghost view = { λ s. places_of_runs s.runs.items };

    ghost invariant = { λ s. AreRuns 0 s.runs.items s.count };
}

impl Runs {
    /// Makes the empty list. It takes no memory until a place is added.
    pub(crate) fn new(alloc: Global) -> Runs
        ensures empty { result ≡ [] }
    {
        Runs {
            runs: Vec::new(alloc),
            count: 0,
        }
    }

    /// Gives the number of places, in constant time.
    pub(crate) fn len(&self) -> usize
        ensures count { result ≡ length self.now }
    {
        self.count
    }

    /// Lends the runs, in order, in constant time.
    pub(crate) fn as_slice(&self) -> &[Run]
        ensures places { places_of_runs result.now ≡ self.now }
        ensures runs { AreRuns 0 result.now (length self.now) }
    {
        self.runs.as_slice()
    }

    /// Gives a place, in time logarithmic in the number of runs.
    pub(crate) fn place(&self, i: usize) -> Place
        requires { i < length self.now }
        ensures place { slice_get self.now i ≡ Some result }
    {
        let k = run_of(self.runs.as_slice(), i);
        let run = self.runs[k];
        (run.block, run.from + (i - run.before) as u64)
    }

    /// Adds the place of a row, in amortised constant time. Where no memory is found, nothing is changed.
    pub(crate) fn push(&mut self, place: Place) -> Result<(), Memory>
        ensures ok { OnOk result (self.new ≡ self.old ++ place ∷ []) }
        ensures err { OnErr result (self.new ≡ self.old) }
    {
        match place.1.checked_add(1) {
            Some(to) => self.push_run(place.0, place.1, to),
            None => Err(AllocError),
        }
    }

    /// Adds the places of a block's rows from one up to another, in amortised constant time. Where no memory is found,
    /// or the number of places would pass the greatest one, nothing is changed.
    pub(crate) fn push_run(&mut self, block: usize, from: u64, to: u64) -> Result<(), Memory>
        requires some { from < to }
        ensures ok { OnOk result (self.new ≡ self.old ++ places_of_run (record { block = block; from = from; to = to; before = 0 })) }
        ensures err { OnErr result (self.new ≡ self.old) }
    {
        let before = self.count;
        match before.checked_add((to - from) as usize) {
            Some(count) => {
                let run = Run {
                    block,
                    from,
                    to,
                    before,
                };
                add_run(&mut self.runs, run)?;
                self.count = count;
                Ok(())
            }
            None => Err(AllocError),
        }
    }
}

/// The position of the run that has a place.
fn run_of(runs: &[Run], i: usize) -> usize
    requires runs { AreRuns 0 runs.now (length (places_of_runs runs.now)) }
    requires within { i < length (places_of_runs runs.now) }
    ensures there { result < length runs.now }
    ensures first { (run_at runs.now result).before ≤ i }
    ensures last { i < (run_at runs.now result).before + ((run_at runs.now result).to - (run_at runs.now result).from) }
{
    runs.partition_point(|run| run.before <= i) - 1
}

/// Adds a run behind others: to the last of them, where it goes on there.
fn add_run(runs: &mut Vec<Run>, run: Run) -> Result<(), Memory>
    requires runs { AreRuns 0 runs.old.items run.before }
    requires some { run.from < run.to }
    ensures places { OnOk result (places_of_runs runs.new.items ≡ places_of_runs runs.old.items ++ places_of_run run) }
    ensures runs { OnOk result (AreRuns 0 runs.new.items (run.before + (run.to - run.from))) }
    ensures err { OnErr result (runs.new.items ≡ runs.old.items) }
{
    let count = runs.len();
    if 0 < count && goes_on(&runs[count - 1], &run) {
        runs[count - 1].to = run.to;
        return Ok(());
    }
    runs.push(run)?;
    Ok(())
}

/// Whether a run goes on where another ends, in the same block.
fn goes_on(last: &Run, next: &Run) -> bool
    ensures { IsTrue result ↔ ((last.now.block ≡ next.now.block) × (last.now.to ≡ next.now.from)) }
{
    last.block == next.block && last.to == next.from
}
