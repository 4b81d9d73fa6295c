//! Cells that are lent where they lie, to be compared.
ghost use Rattle.std.specs.Prelude.{◌≡◌, ◌<◌, ◌≤◌, [], IfOk, length, map, option_map, slice_index_or};
ghost use Rattle.qd_base.specs.Database.{missing};
ghost use Rattle.qd_base.specs.Rows.{cell_at, cell_eq};
ghost use Rattle.qd_column.specs.Cells.{cell_of_row, long_or_null, text_or_null, time_or_null};
ghost use Rattle.qd_merge.specs.Classes.{cell_of};
ghost use Rattle.qd_merge.specs.Merged.{with_missing};

use crate::merge::Block;
use qd_base::{Cell, ColType, Memory, Row};
use qd_column::Column;
use qd_symbols::SymbolMap;
use std::alloc::Global;

/// A cell that is lent, and can be ordered.
#[derive(Clone, Copy, PartialEq, Eq, PartialOrd, Ord)]
pub(crate) enum Lent<'a> {
    /// NULL.
    Null,
    /// A number.
    Long(i64),
    /// A truth value.
    Truth(bool),
    /// A text.
    Text(&'a [u8]),
    /// A moment.
    Time(u64),
}

/// Whether two cells are equal; NULL is equal to NULL.
pub(crate) fn same_cell(a: Lent<'_>, b: Lent<'_>) -> bool
    ensures same { result ≡ cell_eq (cell_of a.entry) (cell_of b.entry) }
{
    match (a, b) {
        (Lent::Null, Lent::Null) => true,
        (Lent::Long(a), Lent::Long(b)) => a == b,
        (Lent::Truth(a), Lent::Truth(b)) => a == b,
        (Lent::Text(a), Lent::Text(b)) => a == b,
        (Lent::Time(a), Lent::Time(b)) => a == b,
        _ => false,
    }
}

/// Lends the cells that rows have in a column; one that a row lacks is NULL.
pub(crate) fn lent_cells(alloc: Global, rows: &[Row], col: usize) -> Result<Vec<Lent<'_>>, Memory>
    ensures cells { IfOk result (λ v. map cell_of v.items ≡ map (λ r. cell_at r col) rows.now) }
{
    let mut cells = Vec::with_capacity(alloc, rows.len())?;
    for row in rows {
        cells.push(lent_cell(row, col))?;
    }
    Ok(cells)
}

/// Lends the cell that a row has in a column.
fn lent_cell(row: &Row, col: usize) -> Lent<'_>
    ensures cell { cell_of result ≡ cell_at row.now col }
{
    if row.len() <= col {
        return Lent::Null;
    }
    match row.get(col) {
        Cell::Null => Lent::Null,
        Cell::Long(value) => Lent::Long(*value),
        Cell::Bool(value) => Lent::Truth(*value),
        Cell::Text(text) => Lent::Text(text.bytes()),
        Cell::Time(value) => Lent::Time(*value),
    }
}

/// Lends the cell that a row of a block, as wide as those of another block, has in a column: one that only the other
/// block has is NULL, or false; one that both lack is NULL.
pub(crate) fn lent_wide<'a>(block: &'a Block, place: usize, col: u32, wide: &Block) -> Lent<'a>
    requires there { place < length block.now.rows }
    requires narrow { length block.now.kinds ≤ length wide.now.kinds }
    ensures cell { cell_of result ≡ cell_at (with_missing wide.now.kinds (slice_index_or block.now.rows place [])) col }
{
    block.is_whole();
    if col < block.cols() {
        return lent_in(block, place, col);
    }
    if col < wide.cols() {
        return of_missing(wide.column(col).kind());
    }
    Lent::Null
}

/// Lends the cell that a row of a block has in a column; one that the block lacks is NULL.
pub(crate) fn lent_in(block: &Block, place: usize, col: u32) -> Lent<'_>
    requires there { place < length block.now.rows }
    ensures cell { cell_of result ≡ cell_at (slice_index_or block.now.rows place []) col }
{
    block.is_whole();
    if block.cols() <= col {
        return Lent::Null;
    }
    of_column(block.column(col), place)
}

/// Lends the cell of a row of a column.
#[tactic(auto, using(std::proofs::lemmas::Option::get_or_from_slice_get))]
fn of_column(column: &Column<SymbolMap>, place: usize) -> Lent<'_>
    requires { place < length column.now.cells }
    ensures cell { cell_of result ≡ cell_of_row column.now place }
{
    match column.kind() {
        ColType::Long => of_long(column.long(place)),
        ColType::Bool => Lent::Truth(column.truth(place)),
        ColType::Symbol => of_text(column.text(place)),
        ColType::Varchar => of_text(column.text(place)),
        ColType::Time => of_time(column.time(place)),
    }
}

/// A number that may be none.
fn of_long<'a>(value: Option<i64>) -> Lent<'a>
    ensures cell { cell_of result ≡ long_or_null value }
{
    match value {
        Some(value) => Lent::Long(value),
        None => Lent::Null,
    }
}

/// A moment that may be none.
fn of_time<'a>(value: Option<u64>) -> Lent<'a>
    ensures cell { cell_of result ≡ time_or_null value }
{
    match value {
        Some(value) => Lent::Time(value),
        None => Lent::Null,
    }
}

/// A text that may be none.
fn of_text<'a>(value: Option<&'a [u8]>) -> Lent<'a>
    ensures cell { cell_of result ≡ text_or_null (option_map (λ t. t.now) value.entry) }
{
    match value {
        Some(value) => Lent::Text(value),
        None => Lent::Null,
    }
}

/// What a row holds that lacks a column of a kind.
fn of_missing<'a>(kind: ColType) -> Lent<'a>
    ensures cell { cell_of result ≡ missing kind }
{
    match kind {
        ColType::Bool => Lent::Truth(false),
        _ => Lent::Null,
    }
}
