//! The blocks that are new in a version, and the rows that are put behind those of older ones.
use qd_block::Block;
use qd_symbols::SymbolMap;
use std::sync::Arc;

/// A block that is new in a version, with the number by which the version's parts name it.
#[derive(Drop)]
pub struct NewBlock {
    /// The number of the block.
    pub block: u64,
    /// Its rows.
    pub of: Arc<Block<SymbolMap>>,
}

/// Rows that are put behind those of a part of the current version, in the files of its block.
#[derive(Drop)]
pub struct GrownBlock {
    /// The position of the part's table in the current version.
    pub table: usize,
    /// The position of the part in its table.
    pub part: usize,
    /// The rows, of the part's columns.
    pub rows: Arc<Block<SymbolMap>>,
}
