//! Rows by bucket and key, and what the aggregates make of them.
ghost use Rattle.std.specs.Prelude.{◌≡◌, ◌<◌, All, IfOk, length, map, slice_index};
ghost use Rattle.qd_group.specs.Grouping.{same_numbers, AreGroups};
ghost use Rattle.qd_sample.specs.Cells.{answers_at};
ghost use Rattle.qd_value.specs.Scalars.{cell_of};

use crate::groups::taken;
use qd_base::Memory;
use qd_group::{Groups, refined};
use qd_value::Scalar;
use std::alloc::Global;

/// Rows by bucket and key: a group for each pair that has a row.
#[derive(Drop)]
pub(crate) struct Pairs {
    /// The groups.
    pub(crate) groups: Groups,
    /// For each group the number of its bucket.
    pub(crate) buckets: Vec<usize>,
    /// For each group the number of its key.
    pub(crate) keys: Vec<usize>,
}

/// The groups of rows with the same bucket and key, of which each row's numbers are given.
pub(crate) fn paired(alloc: Global, buckets: &[usize], keys: &[usize]) -> Result<Pairs, Memory>
    requires { length buckets.now ≡ length keys.now }
    ensures groups { IfOk result (λ p. AreGroups (same_numbers buckets.now keys.now) (length buckets.now) p.groups.numbers.items p.groups.firsts.items) }
    ensures buckets { IfOk result (λ p. p.buckets.items ≡ map (λ f. slice_index buckets.now f) p.groups.firsts.items) }
    ensures keys { IfOk result (λ p. p.keys.items ≡ map (λ f. slice_index keys.now f) p.groups.firsts.items) }
{
    let groups = refined(alloc, buckets, keys)?;
    let of_bucket = taken(alloc, buckets, groups.firsts.as_slice())?;
    let of_key = taken(alloc, keys, groups.firsts.as_slice())?;
    Ok(Pairs {
        groups,
        buckets: of_bucket,
        keys: of_key,
    })
}

/// What each aggregate makes of a group, from the aggregates' columns.
pub(crate) fn answers_of<'a>(
    alloc: Global,
    columns: &[Vec<Scalar<'a>>],
    group: usize,
) -> Result<Vec<Scalar<'a>>, Memory>
    requires { All (λ c. group < length c.items) columns.now }
    ensures answers { IfOk result (λ v. map cell_of v.items ≡ answers_at (map (λ c. map cell_of c.items) columns.now) group) }
{
    let mut cells = Vec::with_capacity(alloc, columns.len())?;
    for column in columns {
        cells.push(column[group])?;
    }
    Ok(cells)
}
