//! A book of numbers, to try a scoreboard with.
ghost use Rattle.std.specs.Prelude.{◌≡◌, ℕ, true, [], ◌∷◌, length, slice_set, Some, None, IfOk};
ghost use Rattle.qd_score_model.specs.Machine.{version_at};
ghost use Rattle.qd_score.specs.Counted.{book_of, version_of, bare, IsFirst, IsSecond};

use crate::booked::Booked;
use std::alloc::{AllocError, Global};
use std::collections::LinkedList;

/// A version of a [`CountBook`]: its number, and the blocks that it lists.
#[derive(Drop)]
pub struct Listed {
    n: u64,
    blocks: Vec<u64>,
}

/// A book for tests: a history of numbers, and a version or none in each of the first two rows. It is always sound, and has
/// no fixed data.
#[derive(Drop)]
pub struct CountBook {
    numbers: Vec<u64>,
    first: Option<Listed>,
    second: Option<Listed>,
    current: u64,
    row: u64,
    present: Vec<u64>,
    queued: u64,
    faults: u64,
    removed: u64,
}

impl Booked for CountBook {
    type Item = u64;

    type Shape = LinkedList<u64>;

    type Fixed = ();

    ghost use Rattle.qd_score.specs.Counted.{book_of, blocks_of};

    ghost book = { book_of };

    ghost blocks = { blocks_of };

    ghost sound = { λ _. Unit {0} };

    ghost fixed = { λ _. tt };

    fn version_n(&self) -> u64 {
        self.current
    }
}

/// A version that lists no block.
fn bare_version(alloc: Global, n: u64) -> Listed
    ensures n { result.n ≡ n }
    ensures blocks { result.blocks.items ≡ [] }
{
    Listed {
        n,
        blocks: Vec::new(alloc),
    }
}

/// Whether this version is there, and lists no block.
fn is_bare(listed: &Option<Listed>, n: u64) -> bool
    ensures yes { result ≡ true → version_of listed.now ≡ Some (bare n) }
    ensures no { version_of listed.now ≡ Some (bare n) → result ≡ true }
{
    match listed {
        Some(listed) => listed.n == n && listed.blocks.is_empty(),
        None => false,
    }
}

/// Whether no version is there.
fn is_vacant(listed: &Option<Listed>) -> bool
    ensures yes { result ≡ true → version_of listed.now ≡ None }
    ensures no { version_of listed.now ≡ None → result ≡ true }
{
    listed.is_none()
}

impl CountBook {
    /// A history of one number, and version 0 in row 0.
    pub fn new(alloc: Global, number: u64) -> Result<CountBook, AllocError>
        ensures first { IfOk result (λ b. IsFirst (book_of b)) }
        ensures history { IfOk result (λ b. (book_of b).history ≡ number ∷ []) }
    {
        let mut numbers = Vec::new(alloc);
        numbers.push(number)?;
        Ok(CountBook {
            numbers,
            first: Some(bare_version(alloc, 0)),
            second: None,
            current: 0,
            row: 0,
            present: Vec::new(alloc),
            queued: 0,
            faults: 0,
            removed: 0,
        })
    }

    /// How many numbers it has.
    pub fn len(&self) -> usize
        ensures { result ≡ length (book_of self.now).history }
    {
        self.numbers.len()
    }

    /// Whether version 0 is its one version, is current and lists no block.
    pub fn is_first(&self) -> bool
        ensures yes { result ≡ true → IsFirst (book_of self.now) }
        ensures no { IsFirst (book_of self.now) → result ≡ true }
    {
        is_bare(&self.first, 0) && is_vacant(&self.second) && self.current == 0 && self.row == 0
    }

    /// Whether version 1 is current, and version 0 live beside it. Neither lists a block.
    pub fn is_second(&self) -> bool
        ensures yes { result ≡ true → IsSecond (book_of self.now) }
        ensures no { IsSecond (book_of self.now) → result ≡ true }
    {
        is_bare(&self.first, 0) && is_bare(&self.second, 1) && self.current == 1 && self.row == 1
    }

    /// Puts version 1 in row 1, without blocks, and makes it the current one.
    pub fn publish(&mut self, alloc: Global)
        ensures book { book_of self.new ≡ record (book_of self.old) { versions = slice_set (book_of self.old).versions 1 (Some (bare 1)); current = record { n = 1; row = 1 } } }
        ensures live { version_at (book_of self.new).versions 1 ≡ Some (bare 1) }
    {
        self.second = Some(bare_version(alloc, 1));
        self.current = 1;
        self.row = 1;
    }

    /// Takes the version out of row 0.
    pub fn let_go(&mut self)
        ensures { book_of self.new ≡ record (book_of self.old) { versions = slice_set (book_of self.old).versions 0 None } }
    {
        self.first = None;
    }
}
