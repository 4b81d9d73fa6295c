//! Rows of a set that are neighbours in a block, and the column of symbols that they have there.
ghost use Rattle.std.specs.Prelude.{◌≡◌, ℕ, ◌+◌, ◌-◌, ◌<◌, ◌≤◌, None, length, All, IfSome, IfNone, slice_index, slice_index_or};
ghost use Rattle.qd_base.specs.declared.cell.Cell.TheVariants as cell;
ghost use Rattle.qd_base.specs.declared.limits.TheConstants.{MAX_TEXT_BYTES as most};
ghost use Rattle.qd_base.specs.declared.schema.ColType.TheVariants as kind;
ghost use Rattle.qd_block.specs.Blocks.{column_in, IsWhole};
ghost use Rattle.qd_keys.specs.Symbols.{IsSymbols};
ghost use Rattle.qd_column.specs.Symbols.{symbol_cell, texts_in, IsIdOf};
ghost use Rattle.qd_latest.specs.Chains.{block_of_row, cells_of, IsPart, LieInOneBlock};
ghost use Rattle.qd_latest.specs.Walks.{AreOfTexts};
ghost use Rattle.qd_rows.specs.Runs.{places_of_runs, run_at, AreRuns};
ghost use Rattle.qd_rows.specs.Sets.{block_at, IsPlaced};

use qd_base::Dictionary;
use qd_column::Column;
use qd_rows::{RowSet, Run};

/// Tells that each row of a set is there. It does nothing.
pub(crate) fn are_there<D: Dictionary>(rows: &RowSet<D>)
    requires single { rows.now.right ≡ None }
    ensures { All (IsPlaced rows.now) rows.now.places }
{
    let _runs = rows.runs();
}

/// The last of the rows from one up to another that are neighbours in a block too, as many as there are.
///
/// It costs time logarithmic in the number of the set's runs.
pub(crate) fn last_part<D: Dictionary>(rows: &RowSet<D>, from: usize, to: usize) -> Run
    requires single { rows.now.right ≡ None }
    requires some { from < to }
    requires within { to ≤ length rows.now.places }
    ensures part { IsPart rows.now result }
    ensures begins { from ≤ result.before }
    ensures ends { result.before + (result.to - result.from) ≡ to }
{
    let runs = rows.runs();
    cut(runs[run_of(runs, to - 1)], from, to)
}

/// The position of the run that has a place.
fn run_of(runs: &[Run], i: usize) -> usize
    requires runs { AreRuns 0 runs.now (length (places_of_runs runs.now)) }
    requires within { i < length (places_of_runs runs.now) }
    ensures there { result < length runs.now }
    ensures first { (run_at runs.now result).before ≤ i }
    ensures last { i < (run_at runs.now result).before + ((run_at runs.now result).to - (run_at runs.now result).from) }
{
    runs.partition_point(|run| run.before <= i) - 1
}

/// The rows of a run from one place of the set up to another.
fn cut(run: Run, from: usize, to: usize) -> Run
    requires some { from < to }
    requires first { run.before < to }
    requires last { to ≤ run.before + (run.to - run.from) }
    ensures block { result.block ≡ run.block }
    ensures begins { from ≤ result.before }
    ensures within { run.before ≤ result.before }
    ensures some { result.before < to }
    ensures first { result.from ≡ run.from + (result.before - run.before) }
    ensures last { result.to ≡ result.from + (to - result.before) }
{
    let before = run.before.max(from);
    let first = run.from + (before - run.before) as u64;
    Run {
        block: run.block,
        from: first,
        to: first + (to - before) as u64,
        before,
    }
}

/// The column that neighbours have in their block; none where the block lacks it, so that they hold NULL.
pub(crate) fn symbols_of<'a, D: Dictionary>(
    rows: &'a RowSet<D>,
    part: Run,
    at: usize,
) -> Option<&'a Column<D>>
    requires part { IsPart rows.now part }
    requires symbols { IsSymbols rows.now.left at }
    ensures column { IfSome result (λ column. column.now ≡ column_in (block_at rows.now.blocks part.block) at) }
    ensures kind { IfSome result (λ column. column.now.kind ≡ kind.Symbol) }
    ensures there { IfSome result (λ column. at < length (block_at rows.now.blocks part.block).kinds) }
    ensures within { IfSome result (λ column. part.to ≤ length column.now.cells) }
    ensures cells { IfSome result (λ column. (k : ℕ) → k < part.to - part.from → slice_index_or (cells_of rows.now at) (part.before + k) cell.Null ≡ slice_index_or column.now.cells (part.from + k) cell.Null) }
    ensures lacking { IfNone result ((k : ℕ) → k < part.to - part.from → slice_index_or (cells_of rows.now at) (part.before + k) cell.Null ≡ cell.Null) }
{
    let block = rows.block(part.block);
    block.is_whole();
    if at < block.cols() as usize {
        return Some(block.column(at as u32));
    }
    None
}

/// The column of symbols that some rows of a block have there.
pub(crate) fn column_of<'a, D: Dictionary>(
    rows: &'a RowSet<D>,
    from: usize,
    to: usize,
    col: u32,
) -> &'a Column<D>
    requires { LieInOneBlock rows.now from to col }
    ensures column { result.now ≡ column_in (block_at rows.now.blocks (block_of_row rows.now from)) col }
    ensures kind { result.now.kind ≡ kind.Symbol }
    ensures whole { IsWhole (block_at rows.now.blocks (block_of_row rows.now from)) }
{
    let (place, _) = rows.places(from);
    let block = rows.block(place.0);
    block.is_whole();
    block.column(col)
}

/// The dictionary of a column of symbols. Each cell is NULL or holds one of its texts.
pub(crate) fn dictionary_of<D: Dictionary>(column: &Column<D>) -> &D
    requires { column.now.kind ≡ kind.Symbol }
    ensures texts { D.texts result.now ≡ texts_in column.now.cells }
    ensures short { All (λ t. length t ≤ most) (D.texts result.now) }
    ensures cells { AreOfTexts (D.texts result.now) column.now.cells 0 (length column.now.cells) }
{
    let _ids = column.symbols();
    column.dictionary()
}

/// The ids of some rows of a column of symbols, from one up to another.
pub(crate) fn ids_of<D: Dictionary>(column: &Column<D>, from: u64, to: u64) -> &[u64]
    requires kind { column.now.kind ≡ kind.Symbol }
    requires ordered { from ≤ to }
    requires within { to ≤ length column.now.cells }
    ensures count { from + length result.now ≡ to }
    ensures each { All (IsIdOf (texts_in column.now.cells)) result.now }
    ensures cells { (k : ℕ) → k < length result.now → slice_index_or column.now.cells (from + k) cell.Null ≡ symbol_cell (texts_in column.now.cells) (slice_index result.now k) }
{
    &column.symbols()[from as usize..to as usize]
}
