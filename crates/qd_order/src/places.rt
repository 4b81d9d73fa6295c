//! Positions of rows, as a query gives them.
ghost use Rattle.std.specs.Prelude.{◌≡◌, ◌+◌, ◌-◌, ◌<◌, ◌==◌, length, min, Some, slice_get};
ghost use Rattle.std.specs.List.{range_with_len};
ghost use Rattle.qd_order.specs.Cuts.{cut_places, places_of};

use qd_meaning::Cut;
use std::marker::Model;

/// Positions of rows, in the order in which the rows are given. Contracts see the list of them.
///
/// It takes 8 bytes a position, and none where they are neighbours.
#[derive(Drop)]
pub struct Places {
    spread: Spread,
}

/// How positions are kept.
#[derive(Drop)]
pub(crate) enum Spread {
    /// Each by itself.
    Listed(Vec<usize>),
    /// Those from one up to another.
    Neighbours {
        /// The first one.
        from: usize,
        /// The one behind the last.
        to: usize,
    },
}

impl Model for Places {
    ghost use Rattle.std.specs.Prelude.{ℕ, List};
    ghost use Rattle.qd_order.specs.Cuts.{places_of};

    ghost Value = { List ℕ };

    ghost view = { λ s. places_of s.spread };
}

impl Places {
    /// Gives the number of positions, in constant time.
    pub fn len(&self) -> usize
        ensures count { result ≡ length self.now }
    {
        match &self.spread {
            Spread::Listed(places) => places.len(),
            Spread::Neighbours { from, to } => to.saturating_sub(*from),
        }
    }

    /// Says whether there is none, in constant time.
    pub fn is_empty(&self) -> bool
        ensures empty { result ≡ (length self.now == 0) }
    {
        self.len() == 0
    }

    /// Gives the `i`-th position, counted from 0, in constant time.
    pub fn get(&self, i: usize) -> usize
        requires { i < length self.now }
        ensures place { slice_get self.now i ≡ Some result }
    {
        match &self.spread {
            Spread::Listed(places) => places[i],
            Spread::Neighbours { from, to } => nth(*from, *to, i),
        }
    }

    /// Positions that are listed.
    pub(crate) fn listed(places: Vec<usize>) -> Places
        ensures places { result ≡ places.items }
    {
        Places {
            spread: Spread::Listed(places),
        }
    }

    /// The positions that a LIMIT leaves of so many, as they come.
    pub(crate) fn of_first(count: usize, limit: Option<Cut>) -> Places
        ensures places { result ≡ cut_places limit (range_with_len 0 count) }
    {
        let (from, to) = bounds(count, limit);
        Places {
            spread: Spread::Neighbours { from, to },
        }
    }
}

/// Which of so many rows a LIMIT leaves: those from the first number up to the second.
#[tactic(auto, using(crate::proofs::Positions::first_range, crate::proofs::Positions::last_range, crate::proofs::Positions::middle_range))]
fn bounds(count: usize, limit: Option<Cut>) -> (usize, usize)
    ensures { range_with_len result.0 (result.1 - result.0) ≡ cut_places limit (range_with_len 0 count) }
{
    match limit {
        None => (0, count),
        Some(Cut::First(n)) => (0, least(count, n as usize)),
        Some(Cut::Last(n)) => (count.saturating_sub(n as usize), count),
        Some(Cut::Between(a, b)) => (a as usize, least(count, b as usize)),
    }
}

/// The `i`-th of the numbers from one up to another.
fn nth(from: usize, to: usize, i: usize) -> usize
    requires { i < to - from }
    ensures { result ≡ from + i }
{
    from + i
}

/// The less of two numbers.
pub(crate) fn least(a: usize, b: usize) -> usize
    ensures { result ≡ min a b }
{
    if a < b { a } else { b }
}
