//! What stands for buckets without rows.
ghost use Rattle.std.specs.Prelude.{◌≡◌, ℕ, ◌<◌, All, List, IfOk, fold, length, map, replicate, slice_index};
ghost use Rattle.std.specs.List.{zip};
ghost use Rattle.qd_base.specs.declared.cell.Cell.TheVariants as cell;
ghost use Rattle.qd_meaning.specs.declared.parts.Agg.{Agg};
ghost use Rattle.qd_meaning.specs.Sampled as meaning;
ghost use Rattle.qd_sample.specs.Cells.{filled_by, next_cells};
ghost use Rattle.qd_value.specs.Scalars.{cell_of};

use crate::cells::answers_of;
use qd_base::Memory;
use qd_meaning::Fill;
use qd_value::Scalar;
use std::alloc::Global;

/// Whether nothing stands for a bucket without rows.
pub(crate) fn skips(fills: &[Fill]) -> bool
    ensures { result ≡ meaning.skips fills.now }
{
    fills.is_empty() || matches!(fills[0], Fill::Skip)
}

/// The fill of each of so many aggregates: one fill serves all.
pub(crate) fn each_fill(alloc: Global, fills: &[Fill], count: usize) -> Result<Vec<Fill>, Memory>
    ensures each { (aggs : List Agg) → length aggs ≡ count → IfOk result (λ v. v.items ≡ meaning.each_fill fills.now aggs) }
{
    let mut each = Vec::new(alloc);
    if fills.len() == 1 {
        for _ in 0..count {
            each.push(fills[0])?;
        }
    } else {
        each.extend_from_slice(fills)?;
    }
    Ok(each)
}

/// NULL for each of so many keys and aggregates.
pub(crate) fn all_null<'a>(
    alloc: Global,
    keys: usize,
    aggs: usize,
) -> Result<Vec<Vec<Scalar<'a>>>, Memory>
    ensures nulls { IfOk result (λ v. map (λ c. map cell_of c.items) v.items ≡ replicate keys (replicate aggs cell.Null)) }
{
    let mut all = Vec::with_capacity(alloc, keys)?;
    for _ in 0..keys {
        all.push(nulls(alloc, aggs)?)?;
    }
    Ok(all)
}

/// NULL for each of so many aggregates.
fn nulls<'a>(alloc: Global, aggs: usize) -> Result<Vec<Scalar<'a>>, Memory>
    ensures nulls { IfOk result (λ v. map cell_of v.items ≡ replicate aggs cell.Null) }
{
    let mut cells = Vec::with_capacity(alloc, aggs)?;
    for _ in 0..aggs {
        cells.push(Scalar::Null)?;
    }
    Ok(cells)
}

/// The cells of each key in a bucket, from its groups and from the cells of the bucket before. It costs the time of a cell
/// for each key and aggregate, and takes 24 bytes for each.
pub(crate) fn cells_in_bucket<'a>(
    alloc: Global,
    fills: &[Fill],
    befores: &[Vec<Scalar<'a>>],
    columns: &[Vec<Scalar<'a>>],
    keys: &[usize],
    groups: &[usize],
) -> Result<Vec<Vec<Scalar<'a>>>, Memory>
    requires fit { All (λ c. length c.items ≡ length fills.now) befores.now }
    requires groups { All (λ g. g < length keys.now) groups.now }
    requires columns { All (λ c. length c.items ≡ length keys.now) columns.now }
    requires keys { All (λ k. k < length befores.now) keys.now }
    ensures cells { IfOk result (λ v. map (λ c. map cell_of c.items) v.items ≡ next_cells (map (λ c. map cell_of c.items) columns.now) keys.now fills.now (map (λ c. map cell_of c.items) befores.now) groups.now) }
{
    let mut now = all_filled(alloc, fills, befores)?;
    for group in groups {
        now[keys[*group]] = answers_of(alloc, columns, *group)?;
    }
    Ok(now)
}

/// What stands for each key without rows, behind the cells of the bucket before.
fn all_filled<'a>(
    alloc: Global,
    fills: &[Fill],
    befores: &[Vec<Scalar<'a>>],
) -> Result<Vec<Vec<Scalar<'a>>>, Memory>
    requires fit { All (λ c. length c.items ≡ length fills.now) befores.now }
    ensures filled { IfOk result (λ v. map (λ c. map cell_of c.items) v.items ≡ map (filled_by fills.now) (map (λ c. map cell_of c.items) befores.now)) }
{
    let mut all = Vec::with_capacity(alloc, befores.len())?;
    for before in befores {
        all.push(filled(alloc, fills, before.as_slice())?)?;
    }
    Ok(all)
}

/// What stands for a key without rows, behind its cells in the bucket before.
fn filled<'a>(
    alloc: Global,
    fills: &[Fill],
    before: &[Scalar<'a>],
) -> Result<Vec<Scalar<'a>>, Memory>
    requires { length before.now ≡ length fills.now }
    ensures filled { IfOk result (λ v. map cell_of v.items ≡ filled_by fills.now (map cell_of before.now)) }
{
    let mut cells = Vec::with_capacity(alloc, fills.len())?;
    for i in 0..fills.len() {
        cells.push(filled_cell(fills[i], before[i]))?;
    }
    Ok(cells)
}

/// What stands for an aggregate without rows, behind its value in the bucket before.
fn filled_cell<'a>(fill: Fill, before: Scalar<'a>) -> Scalar<'a>
    ensures { cell_of result ≡ meaning.fill_cell fill (cell_of before.entry) }
{
    match fill {
        Fill::Skip | Fill::Null => Scalar::Null,
        Fill::Prev => before,
        Fill::Number(n) => Scalar::Long(n),
    }
}
