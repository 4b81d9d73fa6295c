//! Blocks that several lists of slots hold.
ghost use Rattle.std.specs.Prelude.{◌≡◌, IfOk};
ghost use Rattle.std.specs.Arc.{arc_value};

use qd_base::Memory;
use qd_block::Block;
use qd_symbols::SymbolMap;
use std::alloc::Global;
use std::marker::Model;
use std::sync::Arc;

/// A block that is held together with others. Contracts see the block.
#[derive(Drop)]
pub(crate) struct SharedBlock {
    block: Arc<Block<SymbolMap>>,
}

impl Model for SharedBlock {
    ghost use Rattle.std.specs.Arc.{arc_value};
    ghost use Rattle.qd_block.specs.Blocks.{Block as Rows};

    ghost Value = { Rows };

    ghost view = { λ s. arc_value s.block };
}

impl SharedBlock {
    /// Keeps a block.
    pub(crate) fn new(alloc: Global, block: Block<SymbolMap>) -> Result<SharedBlock, Memory>
        ensures block { IfOk result (λ s. s ≡ block) }
    {
        Ok(SharedBlock {
            block: Arc::new(alloc, block)?,
        })
    }

    /// Holds the same block once more, in constant time.
    pub(crate) fn share(&self) -> Result<SharedBlock, Memory>
        ensures same { IfOk result (λ s. s ≡ self.now) }
    {
        Ok(SharedBlock {
            block: self.block.clone()?,
        })
    }

    /// Lends the block.
    pub(crate) fn get(&self) -> &Block<SymbolMap>
        ensures block { result.now ≡ self.now }
    {
        &self.block
    }

    /// Gives the block to be held elsewhere, in constant time.
    pub(crate) fn arc(&self) -> Result<Arc<Block<SymbolMap>>, Memory>
        ensures block { IfOk result (λ b. arc_value b ≡ self.now) }
    {
        self.block.clone()
    }
}
