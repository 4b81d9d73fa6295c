//! The numbers of LONG columns, lent by runs.
ghost use Rattle.std.specs.Prelude.{◌≡◌, ◌≤◌, None, IfSome, length, map, slice_range};
ghost use Rattle.qd_base.specs.Rows.{cell_at as cell_of_col};
ghost use Rattle.qd_column.specs.Cells.{long_cell};
ghost use Rattle.qd_rows.specs.Runs.{places_of_run};
ghost use Rattle.qd_rows.specs.Sets.{row_of_place, IsRunOf};

use qd_base::{ColType, Dictionary};
use qd_column::Column;
use qd_rows::{RowSet, Run};

/// Lends the numbers that the column of a run's block keeps for the run's rows, in constant time; `None` where the block
/// lacks the column, or it isn't LONG.
pub(crate) fn longs_of_run<'a, D: Dictionary>(
    rows: &'a RowSet<D>,
    run: Run,
    at: usize,
) -> Option<&'a [i64]>
    requires { IsRunOf rows.now run }
    ensures numbers { IfSome result (λ xs. map long_cell xs.now ≡ map (λ p. cell_of_col (row_of_place rows.now (p, None)) at) (places_of_run run)) }
{
    let block = rows.block(run.block);
    block.is_whole();
    if block.cols() as usize <= at {
        return None;
    }
    let column = block.column(at as u32);
    part_of_longs(column, run.from as usize, run.to as usize)
}

/// Lends the numbers from one row up to another; `None` for a column that isn't LONG.
fn part_of_longs<'a, D: Dictionary>(
    column: &'a Column<D>,
    from: usize,
    to: usize,
) -> Option<&'a [i64]>
    requires ordered { from ≤ to }
    requires within { to ≤ length column.now.cells }
    ensures numbers { IfSome result (λ xs. map long_cell xs.now ≡ slice_range column.now.cells from to) }
{
    match column.kind() {
        ColType::Long => Some(&column.longs()[from..to]),
        _ => None,
    }
}
