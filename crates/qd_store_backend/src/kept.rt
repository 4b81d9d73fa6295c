//! Blocks that are kept for when their part is asked for again.
ghost use Rattle.qd_store_backend.specs.Kept.{IsKept, KeepsNoOther, KeepsOne};
ghost use Rattle.std.specs.Arc.{arc_value};
ghost use Rattle.std.specs.Prelude.{◌≡◌, [], IfOk, IfSome};

use lru::LruCache;
use qd_base::{Limits, Memory};
use qd_block::Block;
use qd_symbols::SymbolMap;
use std::alloc::Global;
use std::num::NonZeroUsize;
use std::sync::Arc;

/// Blocks by the table and the position of their part: those that were asked for last, as many as the usual limits let a cache keep.
#[derive(Drop)]
pub struct KeptBlocks {
    pub(crate) cache: LruCache<(usize, usize), Arc<Block<SymbolMap>>>,
}

impl KeptBlocks {
    /// Keeps none yet. It takes memory for as many places as blocks may be kept; want of that is the only error.
    pub fn none(alloc: Global) -> Result<KeptBlocks, Memory>
        ensures none { IfOk result (λ k. k.cache.entries ≡ []) }
    {
        let places = NonZeroUsize::new(Limits::usual().cache_blocks as usize).unwrap();
        Ok(KeptBlocks {
            cache: LruCache::sparse(alloc, places)?,
        })
    }

    /// Gives the block of a part, where it is kept, in time that doesn't grow with their number. Want of memory is the only error.
    pub fn find(&mut self, table: usize, i: usize) -> Result<Option<Arc<Block<SymbolMap>>>, Memory>
        ensures found { IfOk result (λ o. IfSome o (λ b. IsKept self.old.cache.entries table i (arc_value b))) }
        ensures keeps { KeepsNoOther self.old.cache.entries self.new.cache.entries }
    {
        let place = (table, i);
        self.cache.promote(&place);
        match self.cache.peek(&place) {
            Some(block) => Ok(Some(block.clone()?)),
            None => Ok(None),
        }
    }

    /// Shares a block, and keeps it for its part, in the place of the one that was asked for longest ago where there are as many as
    /// may be. Where there is no memory to keep it, it isn't kept; where there is none to share it, that is the error.
    pub fn share(
        &mut self,
        alloc: Global,
        table: usize,
        i: usize,
        block: Block<SymbolMap>,
    ) -> Result<Arc<Block<SymbolMap>>, Memory>
        ensures shared { IfOk result (λ b. arc_value b ≡ block) }
        ensures keeps { KeepsOne self.old.cache.entries self.new.cache.entries table i block }
    {
        let shared = Arc::new(alloc, block)?;
        let _ = self.cache.put((table, i), shared.clone()?);
        Ok(shared)
    }

    /// Keeps none any more.
    pub fn forget(&mut self)
        ensures none { self.new.cache.entries ≡ [] }
    {
        self.cache.clear();
    }
}
