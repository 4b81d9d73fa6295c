//! What lies under the lock.
ghost use Rattle.std.specs.Prelude.{◌≡◌, ℕ, List};
ghost use Rattle.qd_score_model.specs.Machine.{Book};

/// A store of versions, as far as a scoreboard looks at it.
pub trait Booked: Drop {
    /// An item of the history.
    type Item;
    /// What a version consists of.
    type Shape;
    /// What never changes of a store.
    type Fixed;

    ghost use Rattle.std.specs.Prelude.{ℕ, List};
    ghost use Rattle.qd_score_model.specs.Machine.{Book};

    // The history, the live versions with the current one's place, the present blocks and how many of them are queued for
    // removal, how often a block was removed so far, and how many faults were met.
    ghost book: { Self → Book Self.Item Self.Shape };

    // The blocks that a shape lists.
    ghost blocks: { Self.Shape → List ℕ };

    // Whether the store is sound: a statement, which no code reads.
    ghost sound: { Self → Type 0 };

    // What never changes of it.
    ghost fixed: { Self → Self.Fixed };

    /// The number of the current version.
    fn version_n(&self) -> u64
        ensures { result ≡ (book self.now).current.n };
}
