//! Rows by groups, as numbers.
ghost use Rattle.std.specs.Prelude.{◌≡◌, ◌==◌, ◌++◌, [], ◌∷◌, if◌then◌else◌, length, IfOk, OnOk};

use qd_base::Memory;
use std::alloc::Global;

/// Rows by groups. Groups are numbered from 0, in order of first appearance.
///
/// It takes 8 bytes a row and 8 a group.
#[derive(Drop)]
pub struct Groups {
    /// For each row the number of its group.
    pub numbers: Vec<usize>,
    /// For each group the position of its first row.
    pub firsts: Vec<usize>,
}

impl Groups {
    /// Without rows there is no group. It takes no memory until a row is added.
    pub fn new(alloc: Global) -> Groups
        ensures numbers { result.numbers.items ≡ [] }
        ensures firsts { result.firsts.items ≡ [] }
    {
        Groups {
            numbers: Vec::new(alloc),
            firsts: Vec::new(alloc),
        }
    }

    /// Without rows, with room for so many. It takes 8 bytes for each.
    pub(crate) fn for_rows(alloc: Global, count: usize) -> Result<Groups, Memory>
        ensures numbers { IfOk result (λ g. g.numbers.items ≡ []) }
        ensures firsts { IfOk result (λ g. g.firsts.items ≡ []) }
    {
        Ok(Groups {
            numbers: Vec::with_capacity(alloc, count)?,
            firsts: Vec::new(alloc),
        })
    }

    /// Adds a row to a group, or, where it has the next number, as the first row of a new one. It takes amortised
    /// constant time.
    pub fn push(&mut self, number: usize) -> Result<(), Memory>
        ensures numbers { OnOk result (self.new.numbers.items ≡ self.old.numbers.items ++ number ∷ []) }
        ensures firsts { OnOk result (self.new.firsts.items ≡ (if number == length self.old.firsts.items then self.old.firsts.items ++ length self.old.numbers.items ∷ [] else self.old.firsts.items)) }
    {
        if number == self.firsts.len() {
            self.firsts.push(self.numbers.len())?;
        }
        self.numbers.push(number)?;
        Ok(())
    }
}
