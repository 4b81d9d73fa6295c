//! Names that were met before in a list.
ghost use Rattle.std.specs.Prelude.{◌≡◌, List, [], ◌++◌, ◌∷◌, map, IfOk, OnOk};
ghost use Rattle.std.specs.List.{list_any};
ghost use Rattle.std.specs.Str.{str_to_ascii_lowercase};
ghost use Rattle.qd_base.specs.Schemas.{same_name};
ghost use Rattle.qd_sql_ast.specs.declared.tree.Name.{Name};
ghost use Rattle.qd_meaning.specs.Refusals.{least, at};
ghost use Rattle.qd_meaning.specs.Creating.{again_from};
ghost use Rattle.qd_writes.specs.Met.{HasMet};

use crate::judge::both;
use qd_base::{Code, Memory};
use qd_meaning::{Refusal, unless};
use qd_sql_ast::{ColumnDef, Name};
use std::alloc::Global;
use std::collections::BTreeSet;

/// A part of a statement that has a name.
pub(crate) trait Called {
    ghost name_in: { Self → Name };

    /// Lends the name, in constant time.
    fn name(&self) -> &Name
        ensures name { result.now ≡ name_in self.now };
}

impl Called for Name {
    ghost name_in = { λ name. name };

    fn name(&self) -> &Name {
        self
    }
}

impl Called for ColumnDef {
    ghost name_in = { λ def. def.name };

    fn name(&self) -> &Name {
        &self.name
    }
}

/// Names that were met. ASCII case is ignored.
#[derive(Drop)]
pub(crate) struct NameSet {
    /// The names in lower case.
    pub(crate) lowered: BTreeSet<Vec<u8>>,
}

impl NameSet {
    /// Begins without a name.
    pub(crate) fn new(alloc: Global) -> NameSet
        ensures empty { HasMet [] result }
    {
        NameSet {
            lowered: BTreeSet::new(alloc),
        }
    }

    /// Says whether a name was met. It costs time logarithmic in the number of names and linear in their length.
    pub(crate) fn has(&self, alloc: Global, name: &Name) -> Result<bool, Memory>
        ensures there { (names : List Name) → HasMet names self.now → IfOk result (λ there. there ≡ list_any (λ m. same_name m.text name.now.text) names) }
    {
        let key = lowered(alloc, name.text.bytes())?;
        Ok(self.lowered.contains(&key))
    }

    /// Meets a name, and says whether it was met before. It costs the time of `has`.
    fn meet(&mut self, alloc: Global, name: &Name) -> Result<bool, Memory>
        ensures again { (names : List Name) → HasMet names self.old → IfOk result (λ again. again ≡ list_any (λ m. same_name m.text name.now.text) names) }
        ensures met { (names : List Name) → HasMet names self.old → OnOk result (HasMet (names ++ name.now ∷ []) self.new) }
    {
        let key = lowered(alloc, name.text.bytes())?;
        let is_new = self.lowered.insert(key)?;
        Ok(!is_new)
    }
}

/// Copies a text in lower case.
fn lowered(alloc: Global, text: &[u8]) -> Result<Vec<u8>, Memory>
    ensures lower { IfOk result (λ made. made.items ≡ str_to_ascii_lowercase text.now) }
{
    let mut made = Vec::with_capacity(alloc, text.len())?;
    for byte in text {
        made.push(byte.to_ascii_lowercase())?;
    }
    Ok(made)
}

/// Gives the refusal with a code at the least place at which a name of a list comes again, and puts all names into a set that is
/// empty. It costs n log n in the number of names, whatever they are, and memory linear in their length.
pub(crate) fn again<T: Called>(
    alloc: Global,
    met: &mut NameSet,
    parts: &[T],
    code: Code,
) -> Result<Option<Refusal>, Memory>
    requires { HasMet [] met.old }
    ensures least { IfOk result (λ found. found ≡ least (again_from (λ n. at code n.at) [] (map T.name_in parts.now))) }
    ensures met { OnOk result (HasMet (map T.name_in parts.now) met.new) }
{
    let mut found = None;
    for part in parts {
        let name = part.name();
        let is_again = met.meet(alloc, name)?;
        found = both(found, unless(!is_again, code, name.at));
    }
    Ok(found)
}
