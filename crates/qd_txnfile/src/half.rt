//! The two version files, and what is known of the one that doesn't hold the current version.
ghost use Rattle.qd_txnfile.specs.Versions.{file_of, other_of};
ghost use Rattle.std.specs.Prelude.{◌≡◌};

/// The number of the first version file.
pub const FIRST: u64 = 2;

/// The number of the second version file.
pub const SECOND: u64 = 3;

/// One of the two version files.
#[derive(Clone, Copy, Debug, PartialEq, Eq)]
pub enum Half {
    /// File [`FIRST`].
    First,
    /// File [`SECOND`].
    Second,
}

impl Half {
    /// The number of the file.
    pub fn file(self) -> u64
        ensures number { result ≡ file_of self }
    {
        match self {
            Half::First => FIRST,
            Half::Second => SECOND,
        }
    }

    /// The other one of the two.
    pub fn other(self) -> Half
        ensures other { result ≡ other_of self }
    {
        match self {
            Half::First => Half::Second,
            Half::Second => Half::First,
        }
    }
}

/// What is known of the file that doesn't hold the current version.
#[derive(Clone, Copy, Debug, PartialEq, Eq)]
pub enum Other {
    /// Its gate may be open, for a version that is older.
    Older,
    /// Its gate isn't open.
    Closed,
    /// Its gate isn't open, and a newer version is written behind it.
    Written {
        /// The number of that version.
        n: u64,
    },
    /// The gate of a newer version was to be opened, and may be open.
    Opening {
        /// The number of that version.
        n: u64,
    },
}
