//! Plans of drafts: what a merge reads, and the merge.
ghost use Rattle.std.specs.Prelude.{◌≡◌, ℕ, ◌+◌, ◌^◌, ◌<◌, IfOk, map};
ghost use Rattle.std.specs.Arc.{arc_value};
ghost use Rattle.std.specs.List.Sorted.{IsNonDecreasing};
ghost use Rattle.qd_block.specs.Blocks.{Block as Rows};
ghost use Rattle.qd_apply.specs.Next.{all_grown, all_made, shape_after};
ghost use Rattle.qd_apply.specs.Olds.{all_late, old_read, stay_of};
ghost use Rattle.qd_apply.specs.Plans.{growth_of, writes_in, AreOldsFor};

use crate::merging::{Grown, Made};
use crate::olds::{Late, OldPart, Stay, stay_of};
use crate::plans::{Planned, merged_tables};
use qd_base::Memory;
use qd_block::Block;
use qd_manifest::Shape;
use qd_symbols::SymbolMap;
use std::alloc::Global;
use std::marker::Model;
use std::sync::Arc;

/// A draft whose merge is planned. Contracts see what they see of the draft, with the batch of each table in place of
/// the rows that wait, how many rows each part's block's files hold, and from how many rows on a part is split.
#[derive(Drop)]
pub struct Plan {
    pub(crate) base: u64,
    pub(crate) upto: u64,
    pub(crate) next_block: u64,
    pub(crate) shape: Shape,
    pub(crate) plans: Vec<Planned>,
    pub(crate) late: Vec<Late>,
    pub(crate) written: Vec<Vec<u64>>,
    pub(crate) split_rows: u64,
}

impl Model for Plan {
    ghost use Rattle.std.specs.Prelude.{map};
    ghost use Rattle.qd_apply.specs.Drafts.{Planning};
    ghost use Rattle.qd_apply.specs.Plans.{planned_table, IsPlan};

    ghost Value = { Planning };

    ghost view = { λ p. record { base = p.base; upto = p.upto; next_block = p.next_block; shape = p.shape; tables = map planned_table p.plans.items; written = map (λ c. c.items) p.written.items; split_rows = p.split_rows } };

    ghost invariant = { λ p. IsPlan (map (λ c. c.items) p.written.items) p.split_rows p.shape p.plans.items p.late.items };
}

/// What a merge makes: the tables of the next version, its new blocks, which are numbered upwards from the first, and the
/// rows that go behind those of parts of the version that was merged into, whose blocks keep their numbers.
#[derive(Drop)]
pub struct Merged {
    /// Of how many transactions the version is that was merged into.
    pub base: u64,
    /// Of how many transactions the next version is.
    pub upto: u64,
    /// The number of the first new block.
    pub first_block: u64,
    /// The tables of the next version.
    pub shape: Shape,
    /// The new blocks, in order of their numbers.
    pub blocks: Vec<Arc<Block<SymbolMap>>>,
    /// The rows that go behind those of parts, in order of tables and parts, no part twice.
    pub grown: Vec<Grown>,
}

impl Plan {
    /// Lends the parts of the version that rows are merged into, in order of tables and parts, in constant time. A part to
    /// which rows are appended isn't one of them.
    pub fn late(&self) -> &[Late]
        ensures late { result.now ≡ all_late 0 self.now.written self.now.split_rows self.now.shape self.now.tables }
    {
        self.late.as_slice()
    }

    /// Tells what of such a part stays as it lies, by the times of its rows, which are in order: the merge reads only the rows
    /// behind. It takes logarithmic time in their number.
    pub fn stay(&self, late: Late, times: &[u64]) -> Stay
        requires order { IsNonDecreasing times.now }
        ensures stay { result ≡ stay_of self.now.split_rows late.first times.now }
    {
        stay_of(self.split_rows, late.first, times)
    }

    /// Merges. `olds` has what is read of the parts that rows are merged into, in that order. Whatever all other blocks are,
    /// and the rows that stay, the result is the next version's tables, its new blocks, and the rows that go behind those of
    /// old ones.
    ///
    /// It costs time and memory linear in what was read, in the batches and in the lists of parts. Want of memory is the only
    /// error.
    pub fn merge(self, alloc: Global, olds: &[OldPart]) -> Result<Merged, Memory>
        requires olds { AreOldsFor self.written self.split_rows self.shape self.tables olds.now }
        requires room { self.next_block + writes_in self.written self.split_rows self.shape self.tables < 2 ^ 64 }
        ensures base { IfOk result (λ m. m.base ≡ self.base) }
        ensures upto { IfOk result (λ m. m.upto ≡ self.upto) }
        ensures first { IfOk result (λ m. m.first_block ≡ self.next_block) }
        ensures shape { (contents : ℕ → Rows) → olds.now ≡ old_read contents self.written self.split_rows self.shape self.tables → IfOk result (λ m. m.shape ≡ shape_after contents self.next_block self.written self.split_rows self.shape self.tables) }
        ensures blocks { (contents : ℕ → Rows) → olds.now ≡ old_read contents self.written self.split_rows self.shape self.tables → IfOk result (λ m. map arc_value m.blocks.items ≡ all_made contents self.written self.split_rows self.shape self.tables) }
        ensures grown { (contents : ℕ → Rows) → olds.now ≡ old_read contents self.written self.split_rows self.shape self.tables → IfOk result (λ m. map growth_of m.grown.items ≡ all_grown contents self.written self.split_rows self.shape self.tables) }
    {
        let Plan {
            base,
            upto,
            next_block,
            shape,
            plans,
            late: _,
            written: _,
            split_rows: _,
        } = self;
        let mut made = Made {
            blocks: Vec::new(alloc),
            grown: Vec::new(alloc),
        };
        let shape = merged_tables(alloc, &shape, plans.as_slice(), olds, next_block, &mut made)?;
        let Made { blocks, grown } = made;
        Ok(Merged {
            base,
            upto,
            first_block: next_block,
            shape,
            blocks,
            grown,
        })
    }
}
