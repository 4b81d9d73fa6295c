//! The rows of a table with a time in an interval.
ghost use Rattle.std.specs.Prelude.{◌≡◌, ℕ, ◌+◌, ◌<◌, ◌≤◌, ◌++◌, [], None, All, IfOk, IfErr, OnOk, length, slice_index_or, slice_range, take};
ghost use Rattle.std.specs.Arc.{arc_value};
ghost use Rattle.std.specs.List.Sorted.{IsNonDecreasing};
ghost use Rattle.qd_base.specs.Laws.{IsInOrder};
ghost use Rattle.qd_base.specs.Lawful.{IsRowOf};
ghost use Rattle.qd_block.specs.Blocks.{kinds_in};
ghost use Rattle.qd_manifest.specs.Spelling.{no_part};
ghost use Rattle.qd_rows.specs.Sets.{rows_in, IsPlaced};
ghost use Rattle.qd_scan.specs.Asked.{AskedOnly, IsPartBetween};
ghost use Rattle.qd_scan.specs.Scans.{AreApart, HasRowsBetween, HasScanned, IsBetween};
ghost use Rattle.qd_scan.specs.Sources.{parts_at, rows_between, schema_at, table_rows, HasCause, IsSource, Stays};

use crate::fault::PartFault;
use crate::source::PartSource;
use qd_base::{Dictionary, Memory, Part};
use qd_block::Block;
use qd_rows::RowSet;
use qd_symbols::SymbolMap;
use std::alloc::Global;
use std::sync::Arc;

/// Gives the rows of a table with a time from `lo` to `hi`, both among them, in order; none where `lo` is above `hi`. A
/// part that lies wholly between becomes one run, whatever its size, and of any other the run between is found by its
/// times. No row and no cell is made.
///
/// It asks the source for the parts that reach into the interval and for no other. It costs time logarithmic in the
/// number of the table's parts, and for each part that it asks for the call and time logarithmic in its rows.
///
/// Its faults are the source's. After an `Err` the source is as it was, but for its counts.
pub fn scan<P: PartSource>(
    alloc: Global,
    source: &mut P,
    table: usize,
    lo: u64,
    hi: u64,
) -> Result<RowSet<SymbolMap>, PartFault>
    requires { table < length (P.shown source.old).schemas }

    // Where the source tells its database, these are the table's rows in the interval.
    ensures rows { IfOk result (HasRowsBetween (P.shown source.old) table lo hi) }

    // Told or not, they are rows of the table in order of time, each in the interval.
    ensures cols { IfOk result (λ set. set.left ≡ (schema_at (P.shown source.old) table).cols) }
    ensures single { IfOk result (λ set. set.right ≡ None) }
    ensures fit { IfOk result (λ set. All (IsRowOf (schema_at (P.shown source.old) table)) (rows_in set)) }
    ensures order { IfOk result (λ set. IsInOrder (schema_at (P.shown source.old) table).time_col (rows_in set)) }
    ensures between { IfOk result (λ set. All (IsBetween (schema_at (P.shown source.old) table).time_col lo hi) (rows_in set)) }
    ensures stays { Stays (P.shown source.old) (P.shown source.new) }
    ensures asked { AskedOnly (IsPartBetween (P.shown source.old) table lo hi) (P.asked source.old) (P.asked source.new) }
    ensures fixed { P.fixed source.new ≡ P.fixed source.old }
    ensures cause { IfErr result (HasCause (P.shown source.old) (P.shown source.new)) }
{
    source.keeps_its_law();
    let rows = RowSet::over(alloc, &source.schemas().get(table).cols, None)?;
    if hi < lo {
        return Ok(rows);
    }
    with_parts(alloc, source, rows, table, lo, hi)
}

/// Adds to a set without rows those of a table's parts with a time in the interval.
fn with_parts<P: PartSource>(
    alloc: Global,
    source: &mut P,
    rows: RowSet<SymbolMap>,
    table: usize,
    lo: u64,
    hi: u64,
) -> Result<RowSet<SymbolMap>, PartFault>
    requires table { table < length (P.shown source.old).schemas }
    requires some { lo ≤ hi }
    requires law { IsSource (P.shown source.old) }
    requires empty { rows.places ≡ [] }
    requires cols { rows.left ≡ (schema_at (P.shown source.old) table).cols }
    requires single { rows.right ≡ None }
    ensures scanned { IfOk result (HasScanned (P.shown source.old) table lo hi (length (parts_at (P.shown source.old) table))) }
    ensures stays { Stays (P.shown source.old) (P.shown source.new) }
    ensures asked { AskedOnly (IsPartBetween (P.shown source.old) table lo hi) (P.asked source.old) (P.asked source.new) }
    ensures fixed { P.fixed source.new ≡ P.fixed source.old }
    ensures cause { IfErr result (HasCause (P.shown source.old) (P.shown source.new)) }
{
    let mut rows = rows;
    let parts = source.parts(table).as_slice();
    let first = ended_before(parts, lo);
    let last = begun_by(parts, hi);
    for i in first..last {
        let block = source.part(alloc, table, i)?;
        block.is_whole();
        add_rows(&mut rows, block, lo, hi)?;
    }
    Ok(rows)
}

/// How many parts end before a moment. It takes logarithmic time.
fn ended_before(parts: &[Part], moment: u64) -> usize
    requires { AreApart parts.now }
    ensures within { result ≤ length parts.now }
    ensures before { (k : ℕ) → k < result → (slice_index_or parts.now k no_part).hi < moment }
    ensures behind { (k : ℕ) → result ≤ k → k < length parts.now → moment ≤ (slice_index_or parts.now k no_part).hi }
{
    parts.partition_point(|part| part.hi < moment)
}

/// How many parts begin at a moment or before it. It takes logarithmic time.
fn begun_by(parts: &[Part], moment: u64) -> usize
    requires { AreApart parts.now }
    ensures within { result ≤ length parts.now }
    ensures before { (k : ℕ) → k < result → (slice_index_or parts.now k no_part).lo ≤ moment }
    ensures behind { (k : ℕ) → result ≤ k → k < length parts.now → moment < (slice_index_or parts.now k no_part).lo }
{
    parts.partition_point(|part| part.lo <= moment)
}

/// Adds the rows of a block with a time in an interval to a set without right columns. Where it has none, the block
/// isn't added either.
fn add_rows<D: Dictionary>(
    rows: &mut RowSet<D>,
    block: Arc<Block<D>>,
    lo: u64,
    hi: u64,
) -> Result<(), Memory>
    requires some { lo ≤ hi }
    requires single { rows.old.right ≡ None }
    requires kinds { (arc_value block).kinds ≡ take (length (arc_value block).kinds) (kinds_in rows.old.left) }
    ensures left { OnOk result (rows.new.left ≡ rows.old.left) }
    ensures right { OnOk result (rows.new.right ≡ None) }
    ensures rows { OnOk result (rows_in rows.new ≡ rows_in rows.old ++ rows_between (arc_value block).time_col lo hi (table_rows rows.old.left (arc_value block))) }
{
    has_places(rows);
    block.is_whole();
    let (from, to) = within(&block, lo, hi);
    if to <= from {
        return Ok(());
    }
    let b = rows.add_block(block)?;
    rows.push_run(b, from, to)?;
    Ok(())
}

/// Tells that the rows of a set without right columns are there. It does nothing.
fn has_places<D: Dictionary>(rows: &RowSet<D>)
    requires single { rows.now.right ≡ None }
    ensures there { All (IsPlaced rows.now) rows.now.places }
{
    rows.runs();
}

/// Which rows of a block have a time in an interval: the number of the first, and that behind the last. It takes
/// logarithmic time.
fn within<D: Dictionary>(block: &Block<D>, lo: u64, hi: u64) -> (u64, u64)
    requires { lo ≤ hi }
    ensures ordered { result.0 ≤ result.1 }
    ensures there { result.1 ≤ length block.now.rows }
    ensures rows { rows_between block.now.time_col lo hi block.now.rows ≡ slice_range block.now.rows result.0 result.1 }
{
    block.is_whole();
    let times = block.times();
    (count_before(times, lo) as u64, count_to(times, hi) as u64)
}

/// How many times are before a moment. It takes logarithmic time.
fn count_before(times: &[u64], moment: u64) -> usize
    requires { IsNonDecreasing times.now }
    ensures within { result ≤ length times.now }
    ensures before { (k : ℕ) → k < result → slice_index_or times.now k 0 < moment }
    ensures behind { (k : ℕ) → result ≤ k → k < length times.now → moment ≤ slice_index_or times.now k 0 }
{
    times.partition_point(|time| *time < moment)
}

/// How many times are a moment or before it. It takes logarithmic time.
fn count_to(times: &[u64], moment: u64) -> usize
    requires { IsNonDecreasing times.now }
    ensures within { result ≤ length times.now }
    ensures before { (k : ℕ) → k < result → slice_index_or times.now k 0 ≤ moment }
    ensures behind { (k : ℕ) → result ≤ k → k < length times.now → moment < slice_index_or times.now k 0 }
{
    times.partition_point(|time| *time <= moment)
}
