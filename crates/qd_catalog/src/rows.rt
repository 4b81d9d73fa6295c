//! The rows of a catalogue.
ghost use Rattle.std.specs.Prelude.{◌≡◌, ◌<◌, ◌∷◌, None, Some, IfOk, IfSome, IfNone, All, is_some, true, replicate, slice_index_or, length};

use crate::catalog::ROWS;
use crate::version::Version;
use qd_base::Memory;
use std::alloc::Global;

/// The rows with a version in the first of them.
pub(crate) fn first_row(alloc: Global, version: Version) -> Result<Vec<Option<Version>>, Memory>
    ensures rows { IfOk result (λ rows. rows.items ≡ Some version ∷ replicate 63 None) }
{
    let mut versions = Vec::with_capacity(alloc, ROWS)?;
    versions.push(Some(version))?;
    for _ in 1..ROWS {
        versions.push(None)?;
    }
    Ok(versions)
}

/// The first row that is free, if there is one.
pub(crate) fn free_row(versions: &[Option<Version>]) -> Option<usize>
    ensures within { IfSome result (λ row. row < length versions.now) }
    ensures free { IfSome result (λ row. slice_index_or versions.now row None ≡ None) }
    ensures full { IfNone result (All (λ version. is_some version ≡ true) versions.now) }
{
    for row in 0..versions.len() {
        if versions[row].is_none() {
            return Some(row);
        }
    }
    None
}
