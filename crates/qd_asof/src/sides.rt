//! A set of left rows, each beside the right row that it takes.
ghost use Rattle.std.specs.Prelude.{◌≡◌, ◌+◌, ◌++◌, [], All, IfOk, None, OnOk, Some, length, map};
ghost use Rattle.std.specs.List.{range_with_len};
ghost use Rattle.qd_asof.specs.Choices.{both_sides, moved, row_beside, IsChoice, IsThere};
ghost use Rattle.qd_expr.specs.Passing.{with_places};
ghost use Rattle.qd_rows.specs.Sets.{rows_in};

use qd_base::{Dictionary, Memory};
use qd_rows::{Place, RowSet};
use std::alloc::Global;

/// Makes the set of the left rows, in order, each beside a right row or none. It shares the blocks of both sides.
pub(crate) fn beside<D: Dictionary>(
    alloc: Global,
    left: &RowSet<D>,
    right: &RowSet<D>,
    choices: &[Option<usize>],
) -> Result<RowSet<D>, Memory>
    requires left_alone { left.now.right ≡ None }
    requires right_alone { right.now.right ≡ None }
    requires count { length choices.now ≡ length left.now.places }
    requires there { All (IsChoice (length right.now.places)) choices.now }
    ensures left { IfOk result (λ set. set.left ≡ left.now.left) }
    ensures right { IfOk result (λ set. set.right ≡ Some right.now.left) }
    ensures rows { IfOk result (λ set. rows_in set ≡ map (row_beside left.now right.now choices.now) (range_with_len 0 (length left.now.places))) }
{
    let mut set = RowSet::over(alloc, left.left_cols(), Some(right.left_cols()))?;
    add_blocks(&mut set, left)?;
    add_blocks(&mut set, right)?;
    add_rows(&mut set, left, right, choices)?;
    Ok(set)
}

/// Adds the blocks of a set to those of another.
fn add_blocks<D: Dictionary>(set: &mut RowSet<D>, from: &RowSet<D>) -> Result<(), Memory>
    ensures ok { OnOk result (set.new ≡ record set.old { blocks = set.old.blocks ++ from.now.blocks }) }
{
    for b in 0..from.blocks() {
        set.add_block(from.block(b).clone()?)?;
    }
    Ok(())
}

/// Adds the left rows, each beside the right row that it takes.
fn add_rows<D: Dictionary>(
    set: &mut RowSet<D>,
    left: &RowSet<D>,
    right: &RowSet<D>,
    choices: &[Option<usize>],
) -> Result<(), Memory>
    requires left_alone { left.now.right ≡ None }
    requires right_alone { right.now.right ≡ None }
    requires count { length choices.now ≡ length left.now.places }
    requires there { All (IsChoice (length right.now.places)) choices.now }
    requires empty { set.old ≡ both_sides left.now right.now }
    ensures over { OnOk result (set.new ≡ with_places (both_sides left.now right.now) set.new.places) }
    ensures rows { OnOk result (rows_in set.new ≡ map (row_beside left.now right.now choices.now) (range_with_len 0 (length left.now.places))) }
{
    let shift = left.blocks();
    let total = set.blocks();
    for i in 0..choices.len() {
        let (place, _) = left.places(i);
        set.push_row(place, right_place(right, shift, total, choices[i]))?;
    }
    Ok(())
}

/// The place of a right row among the blocks of both sides.
fn right_place<D: Dictionary>(
    right: &RowSet<D>,
    shift: usize,
    total: usize,
    choice: Option<usize>,
) -> Option<Place>
    requires there { IsChoice (length right.now.places) choice }
    requires fits { total ≡ shift + length right.now.blocks }
    ensures place { result ≡ moved shift right.now choice }
    ensures there { IsThere right.now choice }
{
    match choice {
        Some(j) => {
            let (place, _) = right.places(j);
            Some((shift + place.0, place.1))
        }
        None => None,
    }
}
