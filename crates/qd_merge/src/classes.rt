//! Classes of rows that are equal on keys.
ghost use Rattle.std.specs.Prelude.{◌≡◌, ℕ, ◌+◌, ◌<◌, ◌≤◌, List, [], ◌∷◌, ◌++◌, Some, All, IfOk, OnOk, length, map};
ghost use Rattle.std.specs.BTreeMap.{get, btree_map_len};
ghost use Rattle.qd_base.specs.Rows.{Row, cell_at};
ghost use Rattle.qd_merge.specs.Classes.{AreClasses, AreNumbered, AreNumbers, AreRefined, KeepsNumbers, cell_of, repeats};

use crate::cells::{Lent, lent_cells};
use qd_base::{KeyList, Memory, Row};
use std::alloc::Global;
use std::collections::BTreeMap;

/// Numbers the classes of rows that are equal on all of the keys. It costs n log n for each key.
pub(crate) fn classes_of_rows(
    alloc: Global,
    rows: &[Row],
    keys: &KeyList,
) -> Result<Vec<usize>, Memory>
    ensures classes { IfOk result (λ v. AreClasses keys.now rows.now v.items) }
{
    let mut classes = Vec::from_elem(alloc, 0, rows.len())?;
    for key in keys.as_slice() {
        let cells = lent_cells(alloc, rows, *key as usize)?;
        classes = classes_apart(alloc, classes.as_slice(), cells.as_slice())?;
    }
    Ok(classes)
}

/// Tells classes of rows apart further, by the cells that the rows have in one column more. It costs n log n.
pub(crate) fn classes_apart(
    alloc: Global,
    classes: &[usize],
    cells: &[Lent<'_>],
) -> Result<Vec<usize>, Memory>
    requires { length cells.now ≡ length classes.now }
    ensures apart { (keys : List ℕ) (key : ℕ) (rows : List Row) → AreClasses keys rows classes.now → map cell_of cells.now ≡ map (λ r. cell_at r key) rows → IfOk result (λ v. AreClasses (keys ++ key ∷ []) rows v.items) }
{
    let numbers = numbered(alloc, cells)?;
    refined(alloc, classes, numbers.as_slice())
}

/// Tells classes apart further: two places are of one class then where they were before and have one number.
fn refined(alloc: Global, classes: &[usize], numbers: &[usize]) -> Result<Vec<usize>, Memory>
    requires { length numbers.now ≡ length classes.now }
    ensures refined { IfOk result (λ v. AreRefined classes.now numbers.now v.items) }
{
    let mut pairs = Vec::with_capacity(alloc, classes.len())?;
    for place in 0..classes.len() {
        pairs.push((classes[place], numbers[place]))?;
    }
    numbered(alloc, pairs.as_slice())
}

/// Numbers keys: equal ones have one number, and others have not. It costs n log n, whatever the keys are.
fn numbered<K: Ord + Copy>(alloc: Global, keys: &[K]) -> Result<Vec<usize>, Memory>
    ensures numbers { IfOk result (λ v. AreNumbered K.cmp keys.now v.items) }
{
    let mut numbers = BTreeMap::new(alloc);
    let mut found = Vec::with_capacity(alloc, keys.len())?;
    for key in keys {
        let number = number_of(&mut numbers, *key)?;
        found.push(number)?;
    }
    Ok(found)
}

/// Gives the number of a key: the one that it has, or the next one.
fn number_of<K: Ord + Copy>(numbers: &mut BTreeMap<K, usize>, key: K) -> Result<usize, Memory>
    requires numbers { AreNumbers K.cmp numbers.old }
    ensures number { IfOk result (λ n. get K.cmp numbers.new key ≡ Some n) }
    ensures kept { OnOk result (KeepsNumbers K.cmp numbers.old numbers.new) }
    ensures numbers { OnOk result (AreNumbers K.cmp numbers.new) }
    ensures few { OnOk result (btree_map_len numbers.new ≤ btree_map_len numbers.old + 1) }
{
    match numbers.get(&key) {
        Some(number) => Ok(*number),
        None => {
            let number = numbers.len();
            numbers.insert(key, number)?;
            Ok(number)
        }
    }
}

/// For each place whether its class stands at a later one too.
pub(crate) fn repeated(alloc: Global, classes: &[usize]) -> Result<Vec<bool>, Memory>
    requires { All (λ c. c < length classes.now) classes.now }
    ensures flags { IfOk result (λ v. v.items ≡ repeats classes.now) }
{
    let mut seen = Vec::from_elem(alloc, false, classes.len())?;
    let mut flags = Vec::from_elem(alloc, false, classes.len())?;
    let mut place = classes.len();
    while 0 < place {
        place -= 1;
        let class = classes[place];
        flags[place] = seen[class];
        seen[class] = true;
    }
    Ok(flags)
}
