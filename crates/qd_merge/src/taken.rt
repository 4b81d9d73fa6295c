//! Marks of numbers, and which of some numbers stand among others.
ghost use Rattle.std.specs.Prelude.{◌≡◌, ◌==◌, ℕ, ◌<◌, ◌≤◌, ◌++◌, false, All, IfOk, OnOk, length, map, slice_index_or};
ghost use Rattle.std.specs.List.{list_any};
ghost use Rattle.qd_merge.specs.Replaced.{stand_behind};

use qd_base::Memory;
use std::alloc::Global;

/// Adds for each of the first classes whether it stands among the others.
pub(crate) fn push_taken(
    alloc: Global,
    gone: &mut Vec<bool>,
    classes: &[usize],
    count: usize,
) -> Result<(), Memory>
    requires count { count ≤ length classes.now }
    requires below { All (λ c. c < length classes.now) classes.now }
    ensures added { OnOk result (gone.new.items ≡ gone.old.items ++ stand_behind count classes.now) }
{
    let taken = marks_of(alloc, classes.len(), &classes[count..])?;
    push_marks(gone, taken.as_slice(), &classes[..count])
}

/// Marks those of the numbers below another that stand among some.
fn marks_of(alloc: Global, count: usize, numbers: &[usize]) -> Result<Vec<bool>, Memory>
    requires below { All (λ n. n < count) numbers.now }
    ensures size { IfOk result (λ v. length v.items ≡ count) }
    ensures marks { IfOk result (λ v. (n : ℕ) → n < count → slice_index_or v.items n false ≡ list_any (λ m. n == m) numbers.now) }
{
    let mut marks = Vec::from_elem(alloc, false, count)?;
    for number in numbers {
        marks[*number] = true;
    }
    Ok(marks)
}

/// Adds the mark of each number.
fn push_marks(gone: &mut Vec<bool>, marks: &[bool], numbers: &[usize]) -> Result<(), Memory>
    requires below { All (λ n. n < length marks.now) numbers.now }
    ensures added { OnOk result (gone.new.items ≡ gone.old.items ++ map (λ n. slice_index_or marks.now n false) numbers.now) }
{
    for number in numbers {
        gone.push(marks[*number])?;
    }
    Ok(())
}
