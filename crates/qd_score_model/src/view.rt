//! What a seat knows. No value of these types is made: they are the data of contracts and proofs.
use std::collections::LinkedList;

/// What a seat may do with the list of items.
#[derive(Clone, Copy, Debug, PartialEq, Eq)]
pub enum Mode {
    /// It adds items, and no other seat does.
    Sole,
    /// It adds items, as other seats may.
    Writer,
    /// It adds none, and pins nothing.
    Keeper,
}

/// A version's number and the row that it stands in.
pub struct Place {
    /// How many items the version stands for.
    pub n: u64,
    /// Its row on the scoreboard, below [`ROWS`](crate::ROWS).
    pub row: u64,
}

/// How far a seat is with its pin.
pub enum Phase {
    /// It has none.
    Idle,
    /// It has read the current place, and counted on no row yet.
    Looked(Place),
    /// It counts on the row, and doesn't know yet whether the version there is the one that it looked for.
    Trying(Place),
    /// It counts on the row, and the version is live there.
    Pinned(Place),
}

/// A version in its row: its number, and its shape, which lists blocks.
pub struct Version<S> {
    pub n: u64,
    pub shape: S,
}

/// What the seat that holds the lock sees: what its take found, and the current place and the live versions as its own
/// steps have left them since.
pub struct Sight<I, S> {
    pub history: LinkedList<I>,
    pub present: LinkedList<u64>,
    pub faults: u64,
    pub removed: u64,
    pub current: Place,
    /// One for each row, in their order.
    pub versions: LinkedList<Option<Version<S>>>,
}

/// One hold that was given back: what its take found, and what its give left.
pub struct Record {
    /// How many items the take found.
    pub items: u64,
    pub faults_found: u64,
    pub removed_found: u64,
    pub faults_left: u64,
    pub removed_left: u64,
    /// How many present blocks were queued for removal.
    pub queued_left: u64,
    /// The live rows, rising.
    pub live_left: LinkedList<u64>,
}

/// A row that couldn't be retired, and the word that was found there: twice its pins, and one for its being live.
pub struct Refusal {
    pub row: u64,
    pub word: u64,
}

/// What one seat knows.
pub struct View<I, S> {
    /// The seat went into another by a join, and takes no step any more.
    pub spent: bool,
    pub mode: Mode,
    /// How often it may be split.
    pub room: u64,
    /// The items that it has seen.
    pub seen: LinkedList<I>,
    /// For each of its joins, what it had seen by then, and what the other had.
    pub met: LinkedList<LinkedList<I>>,
    /// The positions that its own gives added, from 1 on, rising.
    pub own: LinkedList<u64>,
    /// The greatest number of a current version that it has read.
    pub known: u64,
    pub phase: Phase,
    /// The current places that it has read for pins without the lock, one after another.
    pub reads: LinkedList<Place>,
    /// The versions that its last give left live, one for each row.
    pub noted: LinkedList<Option<Version<S>>>,
    /// One record for each of its gives.
    pub records: LinkedList<Record>,
    /// The retires of its last hold that found a pin.
    pub refused: LinkedList<Refusal>,
    /// While it holds the lock, what it sees.
    pub hold: Option<Sight<I, S>>,
}
