//! What a scan needs of where rows lie.
ghost use Rattle.std.specs.Prelude.{◌≡◌, ◌<◌, List, Option, length, IfOk, IfErr};
ghost use Rattle.std.specs.Arc.{arc_value};
ghost use Rattle.qd_scan.specs.Asked.{with_asked, PartAt};
ghost use Rattle.qd_scan.specs.Sources.{part_at, parts_at, schema_at, HasCause, HasRowsOf, IsBlockOf, IsSource, SourceView, Stays};

use crate::fault::PartFault;
use qd_base::{PartList, Schemas};
use qd_block::Block;
use qd_symbols::SymbolMap;
use std::alloc::Global;
use std::sync::Arc;

/// Where the rows of tables come from: for each table a list of parts, and for each part a block.
///
/// Its meaning is what it shows: the schemas and the parts of all tables; the tables with their rows, where it tells
/// them; how many calls of what it reads from have failed; and how often it has found bytes damaged, with the place of
/// the last. No call changes the tables, and no count falls. `asked` is which parts it was asked for, where it remembers
/// them. `fixed` is what else it holds that no call changes.
pub trait PartSource {
    /// What else a source holds, as far as no call changes it.
    type Fixed;

    /// What is shown at a moment.
    ghost shown: { Self → SourceView };

    /// Which parts it was asked for, one after another, where it remembers them.
    ghost asked: { Self → Option (List PartAt) };

    /// What no call changes.
    ghost fixed: { Self → Self.Fixed };

    /// Lends the schemas of all tables, in constant time.
    fn schemas(&self) -> &Schemas
        ensures schemas { result.now ≡ (shown self.now).schemas };

    /// Lends the parts of a table, in order of time, in constant time.
    fn parts(&self, table: usize) -> &PartList
        requires { table < length (shown self.now).schemas }
        ensures parts { result.now ≡ parts_at (shown self.now) table };

    /// Gives the block of a part. It may cost a read of the part's columns, and memory for them.
    ///
    /// After an `Err` the source is as it was, but for its counts: the call may be made again.
    fn part(
        &mut self,
        alloc: Global,
        table: usize,
        i: usize,
    ) -> Result<Arc<Block<SymbolMap>>, PartFault>
        requires table { table < length (shown self.old).schemas }
        requires there { i < length (parts_at (shown self.old) table) }
        ensures block { IfOk result (λ b. IsBlockOf (schema_at (shown self.old) table) (part_at (shown self.old) table i) (arc_value b)) }
        ensures told { IfOk result (λ b. HasRowsOf (shown self.old) table i (arc_value b)) }
        ensures stays { Stays (shown self.old) (shown self.new) }
        ensures asked { asked self.new ≡ with_asked table i (asked self.old) }
        ensures fixed { fixed self.new ≡ fixed self.old }

        // A fault of the volume comes only where the count of faults has risen, and damage only where that of damages has,
        // with the place that was found last.
        ensures cause { IfErr result (HasCause (shown self.old) (shown self.new)) };

    /// Law: the schemas are such as lawful transactions leave; the parts of a table stand in order of time, each in one
    /// partition, and no two share a time; and where the rows are told, each lies in a part. The call does nothing.
    fn keeps_its_law(&self)
        ensures law { IsSource (shown self.now) };
}
