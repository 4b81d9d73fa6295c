//! The cells of a set's rows, lent where they lie.
ghost use Rattle.std.specs.Prelude.{◌≡◌, ◌<◌, Some, length, option_map};
ghost use Rattle.qd_base.specs.Database.{missing};
ghost use Rattle.qd_base.specs.Rows.{cell_at as cell_of_col};
ghost use Rattle.qd_column.specs.Cells.{cell_of_row, long_or_null, text_or_null, time_or_null};
ghost use Rattle.qd_rows.specs.Sets.{absent, row_of_place, side_row, IsPlaced, IsRowAt, IsSide};
ghost use Rattle.qd_value.specs.Scalars.{cell_of};

use qd_base::{Col, ColType, Dictionary};
use qd_column::Column;
use qd_rows::{Place, RowSet};
use qd_value::Scalar;

/// Where a result row lies: the place of its left row, and that of its right row, where it has one.
pub type Joined = (Place, Option<Place>);

/// Lends the cell in a column of a result row, the left side's columns before the right side's; NULL behind them.
pub(crate) fn cell_at<'a, D: Dictionary>(
    rows: &'a RowSet<D>,
    place: Joined,
    at: usize,
) -> Scalar<'a>
    requires { IsPlaced rows.now place }
    ensures value { cell_of result ≡ cell_of_col (row_of_place rows.now place) at }
{
    let left = rows.left_cols().as_slice();
    has_all(rows, left, place.0);
    if at < left.len() {
        return of_row(rows, left, place.0, at);
    }
    match rows.right_cols() {
        Some(cols) => of_side(rows, cols.as_slice(), place.1, at - left.len()),
        None => Scalar::Null,
    }
}

/// Tells that the row of a side has a cell for each of the side's columns. It does nothing.
fn has_all<D: Dictionary>(rows: &RowSet<D>, cols: &[Col], place: Place)
    requires { IsRowAt rows.now.blocks cols.now place }
    ensures { length (side_row rows.now.blocks cols.now (Some place)) ≡ length cols.now }
{
    rows.block(place.0).is_whole();
}

/// Lends the cell in a column of one side.
fn of_side<'a, D: Dictionary>(
    rows: &'a RowSet<D>,
    cols: &[Col],
    place: Option<Place>,
    at: usize,
) -> Scalar<'a>
    requires { IsSide rows.now.blocks cols.now place }
    ensures value { cell_of result ≡ cell_of_col (side_row rows.now.blocks cols.now place) at }
{
    match place {
        Some(place) => of_row(rows, cols, place, at),
        None => of_absent(cols, at),
    }
}

/// Lends the cell in a column of a row that is there. Columns that its block lacks hold what an absent cell is.
fn of_row<'a, D: Dictionary>(
    rows: &'a RowSet<D>,
    cols: &[Col],
    place: Place,
    at: usize,
) -> Scalar<'a>
    requires { IsRowAt rows.now.blocks cols.now place }
    ensures value { cell_of result ≡ cell_of_col (side_row rows.now.blocks cols.now (Some place)) at }
{
    let block = rows.block(place.0);
    block.is_whole();
    if at < block.cols() as usize {
        of_column(block.column(at as u32), place.1 as usize)
    } else {
        of_absent(cols, at)
    }
}

/// Lends the cell in a row of a column.
#[tactic(auto, using(std::proofs::lemmas::Option::get_or_from_slice_get))]
pub(crate) fn of_column<'a, D: Dictionary>(column: &'a Column<D>, i: usize) -> Scalar<'a>
    requires { i < length column.now.cells }
    ensures value { cell_of result ≡ cell_of_row column.now i }
{
    match column.kind() {
        ColType::Long => of_long(column.long(i)),
        ColType::Bool => Scalar::Bool(column.truth(i)),
        ColType::Symbol => of_text(column.text(i)),
        ColType::Varchar => of_text(column.text(i)),
        ColType::Time => of_time(column.time(i)),
    }
}

/// A number that may be none.
fn of_long<'a>(value: Option<i64>) -> Scalar<'a>
    ensures value { cell_of result ≡ long_or_null value }
{
    match value {
        Some(value) => Scalar::Long(value),
        None => Scalar::Null,
    }
}

/// A moment that may be none.
fn of_time<'a>(value: Option<u64>) -> Scalar<'a>
    ensures value { cell_of result ≡ time_or_null value }
{
    match value {
        Some(value) => Scalar::Time(value),
        None => Scalar::Null,
    }
}

/// A text that may be none.
fn of_text<'a>(value: Option<&'a [u8]>) -> Scalar<'a>
    ensures value { cell_of result ≡ text_or_null (option_map (λ t. t.now) value.entry) }
{
    match value {
        Some(value) => Scalar::Text(value),
        None => Scalar::Null,
    }
}

/// What a row holds in a column that it lacks; NULL behind the columns.
fn of_absent<'a>(cols: &[Col], at: usize) -> Scalar<'a>
    ensures value { cell_of result ≡ cell_of_col (absent cols.now) at }
{
    match cols.get(at) {
        Some(col) => of_missing(col.kind),
        None => Scalar::Null,
    }
}

/// What a row holds that lacks a column of a kind.
fn of_missing<'a>(kind: ColType) -> Scalar<'a>
    ensures value { cell_of result ≡ missing kind }
{
    match kind {
        ColType::Bool => Scalar::Bool(false),
        _ => Scalar::Null,
    }
}
