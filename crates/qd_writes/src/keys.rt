//! Where the deduplication keys of CREATE and ALTER are refused, whatever their columns.
ghost use Rattle.std.specs.Prelude.{◌≡◌, IfOk};
ghost use Rattle.std.specs.List.{list_any};
ghost use Rattle.qd_base.specs.Schemas.{same_name};
ghost use Rattle.qd_sql_ast.specs.declared.tree.Name.{Name};
ghost use Rattle.qd_meaning.specs.Refusals.{least};
ghost use Rattle.qd_meaning.specs.Creating as spec;

use crate::judge::both;
use crate::met::{NameSet, again};
use qd_base::{Code, Memory, same_name};
use qd_meaning::{Refusal, unless};
use qd_sql_ast::{Dedup, Name};
use std::alloc::Global;

/// Gives the refusal of keys that lack the designated column, of this name, or of which one comes again.
///
/// It costs n log n in the number of keys, and is linear in their length.
pub(crate) fn keys_fault(
    alloc: Global,
    dedup: &Dedup,
    time: &[u8],
) -> Result<Option<Refusal>, Memory>
    ensures least { IfOk result (λ found. found ≡ least (spec.key_faults time.now dedup.now)) }
{
    let keys = dedup.keys.as_slice();
    let timed = unless(has_name(keys, time), Code::Keys, dedup.at);
    let twice = again(alloc, &mut NameSet::new(alloc), keys, Code::Keys)?;
    Ok(both(timed, twice))
}

/// Says whether a list has a name.
fn has_name(names: &[Name], name: &[u8]) -> bool
    ensures there { result ≡ list_any (λ (k : Name). same_name k.text name.now) names.now }
{
    names
        .iter()
        .any(|other| same_name(other.text.bytes(), name))
}
