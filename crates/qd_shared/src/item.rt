//! What the history under the lock consists of. No value of these types is made: they are the data of contracts and proofs.
use qd_base::{Entry, Limits, WalRef};

/// A transaction of a history: where its bytes lie, and what it does, where the history is told.
pub struct Item {
    pub place: WalRef,
    pub entry: Option<Entry>,
}

/// What never changes of a store: its limits, and whether a history is told of it.
pub struct Fixed {
    pub limits: Limits,
    pub told: bool,
}
