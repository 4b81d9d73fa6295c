//! The source of parts over a list of transactions.
ghost use Rattle.std.specs.Prelude.{◌≡◌, ℕ, ◌+◌, ◌<◌, [], None, Some, IsSome, OnOk, OnErr, length};
ghost use Rattle.std.specs.Arc.{arc_value};
ghost use Rattle.qd_base.specs.Database.{Database};
ghost use Rattle.qd_base.specs.Lawful.{LawfulFrom};
ghost use Rattle.qd_base.specs.Replay.{replay};
ghost use Rattle.qd_scan.specs.Sources.{parts_at, schema_at, part_at, HasCause, HasRowsOf, IsBlockOf, IsSource, Stays};
ghost use Rattle.qd_memory.specs.Kept.{source_of, LiesByPartition};

use crate::tables::Tables;
use qd_base::{Entry, Memory, PartList, Schemas};
use qd_block::Block;
use qd_scan::{PartFault, PartSource};
use qd_symbols::SymbolMap;
use std::alloc::Global;
use std::marker::Model;
use std::sync::Arc;

/// The rows of tables in memory: for each table one part per partition that has rows. Contracts see what it shows as a
/// source of parts; it always tells its database, and never fails but for want of memory.
///
/// Its parts name no block by a number: that is 0 in each of them.
#[derive(Drop)]
pub struct ListParts {
    kept: Tables,
}

impl Model for ListParts {
    ghost use Rattle.std.specs.Prelude.{All};
    ghost use Rattle.qd_scan.specs.Sources.{SourceView};
    ghost use Rattle.qd_memory.specs.Kept.{source_of, IsSettled};

    ghost Value = { SourceView };

    ghost view = { λ p. source_of p.kept };

    ghost invariant = { λ p. All IsSettled p.kept };
}

impl ListParts {
    /// Makes the source of the empty database. It takes no memory.
    pub fn new(alloc: Global) -> ListParts
        ensures database { result.database ≡ Some [] }
    {
        ListParts {
            kept: Tables::new(alloc),
        }
    }

    /// Applies transactions, in order. Where no memory is found, nothing is changed.
    ///
    /// The blocks of the partitions that get rows are made anew, each once, and each once more for each column that is
    /// added to its table between these rows; all others stay. It costs time and memory linear in these partitions and in
    /// the transactions, n log n in their rows where they are late, and a copy of the schemas and of the lists of parts,
    /// some 100 bytes a part.
    pub fn apply(&mut self, alloc: Global, entries: &[Entry]) -> Result<(), Memory>
        requires lawful { LawfulFrom self.old.schemas entries.now }
        ensures ok { OnOk result ((db : Database) → self.old.database ≡ Some db → self.new.database ≡ Some (replay db entries.now)) }
        ensures err { OnErr result (self.new ≡ self.old) }
    {
        let mut next = self.kept.share(alloc)?;
        for entry in entries {
            next = next.after(alloc, entry.ops.as_slice())?;
        }
        self.kept = next.settled(alloc)?;
        Ok(())
    }

    /// Tells that the database is told, that no two parts of a table lie in one partition, and that no call has failed and
    /// nothing was found damaged. It does nothing.
    pub fn lies_by_partition(&self)
        ensures told { IsSome self.now.database }
        ensures alone { LiesByPartition self.now }
        ensures faultless { self.now.faults ≡ 0 }
        ensures undamaged { self.now.damages ≡ 0 }
    {
        self.kept.are_kept();
    }
}

impl PartSource for ListParts {
    type Fixed = ();

    ghost shown = { λ p. p };

    ghost asked = { λ _. None };

    ghost fixed = { λ _. tt };

    fn schemas(&self) -> &Schemas {
        self.kept.schemas()
    }

    fn parts(&self, table: usize) -> &PartList {
        self.kept.parts(table)
    }

    /// Lends the block of a part, in constant time.
    fn part(
        &mut self,
        _alloc: Global,
        table: usize,
        i: usize,
    ) -> Result<Arc<Block<SymbolMap>>, PartFault> {
        self.kept.are_kept();
        let block = self.kept.block(table, i)?;
        Ok(block)
    }

    fn keeps_its_law(&self) {
        self.kept.are_kept();
    }
}
