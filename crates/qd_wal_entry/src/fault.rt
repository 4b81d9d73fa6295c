//! Why bytes are no entry.
use thiserror::Error;

/// Why bytes give no entry.
#[derive(Clone, Copy, Debug, PartialEq, Eq, Error)]
pub enum EntryFault {
    /// They spell none.
    #[error("an entry is damaged at byte {at}")]
    Damaged {
        /// The first byte of the first field that breaks the layout, or the number of bytes where some are missing.
        at: u64,
    },
    /// There was no memory.
    #[error("out of memory")]
    Memory,
}
