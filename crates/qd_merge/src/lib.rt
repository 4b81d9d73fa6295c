//! Merging: rows that come together, in any order of time, are sorted and deduplicated, and merged with the rows that
//! are there, exactly as if they were put in one by one.
#![tactic(auto)]

mod batch;
mod cells;
mod classes;
mod dedup;
mod group;
mod laws;
mod merge;
mod order;
mod plan;
mod replaced;
mod shares;
mod taken;

pub use batch::{dedup_batch, sort_batch};
pub use dedup::dedup_block;
pub use laws::{
    batches_are_batches, batches_join, keeps_every_row, merged_in_order, merges_one_by_one,
    shares_are_owners, worked_examples,
};
pub use merge::{Block, merge_block, merge_blocks};
pub use plan::{Act, ActList, BlockList, plan_merge, plan_times};
pub use shares::{Rules, Share, Split, share_batch, split_part};
