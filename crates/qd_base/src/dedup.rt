//! The deduplication keys of a table.
ghost use Rattle.std.specs.Prelude.{◌≡◌, ◌<◌, ◌↔◌, All, Contains, IsTrue, nat_eq};
ghost use Rattle.std.specs.List.{IsDistinct};
ghost use Rattle.qd_base.specs.Schemas.{AreKeys};

use crate::schema::ColList;

/// Whether the keys are columns of a table of so many, and no two are one. It stops at the first that is none or
/// stood before: so behind no more keys than there are columns.
fn are_columns(columns: usize, keys: &[u32]) -> bool
    ensures columns { IsTrue result ↔ (All (λ k. k < columns) keys.now × IsDistinct nat_eq keys.now) }
{
    for (i, key) in keys.iter().enumerate() {
        if *key as usize >= columns || is_among(&keys[..i], *key) {
            return false;
        }
    }
    true
}

/// Whether a key is among others.
fn is_among(keys: &[u32], key: u32) -> bool
    ensures among { IsTrue result ↔ Contains keys.now key }
{
    keys.contains(&key)
}

/// Whether a table of these columns may have these keys: none, or distinct columns with the designated one among them.
pub(crate) fn are_keys(cols: &ColList, time_col: u32, keys: &[u32]) -> bool
    ensures keys { IsTrue result ↔ AreKeys cols.now time_col keys.now }
{
    keys.is_empty() || are_columns(cols.len(), keys) && is_among(keys, time_col)
}
