//! The limits of the product.
ghost use Rattle.qd_base.specs.declared.limits.TheConstants.{MAX_TXNS};
ghost use Rattle.std.specs.Prelude.{◌≡◌};

/// The greatest timestamp, 9999-12-31T23:59:59.999999Z, in microseconds since 1970-01-01T00:00Z.
pub const MAX_TIME: u64 = 253_402_300_799_999_999;

/// What stands for NULL among stored timestamps. It is no timestamp.
pub const NULL_TIME: u64 = 18_446_744_073_709_551_615;

/// What stands for NULL among the ids of symbols.
pub const NULL_ID: u64 = 18_446_744_073_709_551_615;

/// The greatest LONG.
pub const MAX_LONG: i64 = 9_223_372_036_854_775_807;

/// The greatest number that a line or a statement writes, its sign aside: the greatest LONG.
pub const MAX_NUMBER: u64 = MAX_LONG as u64;

/// What stands for NULL among stored numbers: the least 64-bit number, which no LONG is.
pub const NULL_LONG: i64 = -9_223_372_036_854_775_808;

/// The greatest number of bytes of one batch of lines.
pub const MAX_WRITE_BYTES: u64 = 16_777_216;

/// The greatest number of bytes of one statement.
pub const MAX_QUERY_BYTES: u64 = 65_536;

/// The greatest number of bytes of a name of a table or a column.
pub const MAX_NAME_BYTES: usize = 127;

/// The greatest number of bytes of a text in a cell.
pub const MAX_TEXT_BYTES: usize = 65_535;

/// The greatest number of tables.
pub const MAX_TABLES: usize = 1_024;

/// The greatest number of columns of a table.
pub const MAX_COLUMNS: usize = 256;

/// The greatest number of cells that one transaction inserts.
pub const MAX_BATCH_CELLS: u64 = 4_194_304;

/// The greatest number of transactions of a store.
pub const MAX_TXNS: u32 = 4_194_304;

/// How deep the brackets of a statement may nest. Deeper ones find no memory, since the stack is memory.
pub const MAX_NESTING: usize = 256;

/// The greatest count of a stride, as in `15m`.
pub const MAX_STRIDE: u64 = 1_000_000;

/// The greatest count of an interval's suffix, as in `;15m`.
pub const MAX_SUFFIX_COUNT: u64 = 1_000_000;

/// The greatest number of rows of a sampled result.
pub const MAX_SAMPLED_ROWS: u64 = 1_000_000;

/// The greatest number of bytes of a result.
pub const MAX_RESULT_BYTES: u64 = 67_108_864;

/// The last offset in an input, at which it is taken as ended: 2^64 - 1.
pub const LAST_OFFSET: u64 = 18_446_744_073_709_551_615;

/// What a store keeps to. Wherever limits are taken, `max_txns` is at most [`MAX_TXNS`], `seg_bytes` is at most
/// 2^62, and all but `max_txns` are at least 1.
#[derive(Clone, Copy, Debug, PartialEq, Eq)]
pub struct Limits {
    /// The number of transactions at which the store is full.
    pub max_txns: u32,
    /// How many rows of a part a late row may leave as they lie: from this number on it splits the part.
    pub split_rows: u64,
    /// The length, in bytes, at which a writer goes on to its next segment.
    pub seg_bytes: u64,
    /// How many blocks the cache keeps.
    pub cache_blocks: u32,
}

impl Limits {
    /// Gives the limits of the product.
    pub fn usual() -> Limits
        ensures transactions { result.max_txns ≡ MAX_TXNS }
        ensures split { result.split_rows ≡ 4096 }
        ensures segment { result.seg_bytes ≡ 67108864 }
        ensures cache { result.cache_blocks ≡ 256 }
    {
        Limits {
            max_txns: MAX_TXNS,
            split_rows: 4_096,
            seg_bytes: 67_108_864,
            cache_blocks: 256,
        }
    }
}
