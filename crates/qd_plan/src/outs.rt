//! The output columns of a query, whose names are told apart from left to right.
ghost use Rattle.std.specs.Prelude.{◌≡◌, ◌∷◌, ◌++◌, [], Some, IfOk, OnOk};
ghost use Rattle.qd_base.specs.Schemas.{column_at};
ghost use Rattle.qd_meaning.specs.Outputs.{made_new, numbered};
ghost use Rattle.qd_plan.specs.Names.{names, IsLeastNew, IsTried};

use itoa::Buffer;
use qd_base::{Col, ColList, ColType, Memory, Txt};
use std::alloc::{AllocError, Global};
use std::marker::Model;

/// The output columns so far.
#[derive(Drop)]
pub(crate) struct Outs {
    cols: ColList,
    /// For each column a number up to which all numbers behind its name are taken.
    tried: Vec<u64>,
}

impl Model for Outs {
    ghost use Rattle.std.specs.Prelude.{List};
    ghost use Rattle.qd_base.specs.declared.schema.Col.{Col};
    ghost use Rattle.qd_plan.specs.Names.{names, AreTried};

    ghost Value = { List Col };

    ghost view = { λ o. o.cols };

    ghost invariant = { λ o. AreTried (names o.cols) o.tried.items };
}

impl Outs {
    /// No column yet.
    pub(crate) fn new(alloc: Global) -> Outs
        ensures none { result ≡ [] }
    {
        Outs {
            cols: ColList::new(alloc),
            tried: Vec::new(alloc),
        }
    }

    /// One more column, under its name, or where that is taken under the name with the least number that makes it new.
    ///
    /// Each number behind a name is tried once, so that the columns of a query cost time log-linear in their bytes.
    pub(crate) fn push(&mut self, alloc: Global, name: Txt, kind: ColType) -> Result<(), Memory>
        ensures pushed { OnOk result (self.new ≡ self.old ++ record { name = made_new (names self.old) name; kind = kind } ∷ []) }
    {
        match self.cols.find(name.bytes()) {
            None => self.add(name, kind),
            Some(at) => self.push_again(alloc, name.bytes(), at, kind),
        }
    }

    /// One more column under a name that is taken at a position, with the least number that makes it new.
    fn push_again(
        &mut self,
        alloc: Global,
        name: &[u8],
        at: usize,
        kind: ColType,
    ) -> Result<(), Memory>
        requires at { column_at self.old name.now ≡ Some at }
        ensures pushed { OnOk result (self.new ≡ self.old ++ record { name = made_new (names self.old) name.now; kind = kind } ∷ []) }
    {
        let (made, number) = least_new(alloc, &self.cols, name, self.tried[at])?;
        self.add(made, kind)?;
        self.tried[at] = number;
        Ok(())
    }

    /// One more column under this name.
    fn add(&mut self, name: Txt, kind: ColType) -> Result<(), Memory>
        ensures added { OnOk result (self.new ≡ self.old ++ record { name = name; kind = kind } ∷ []) }
    {
        self.tried.reserve(1)?;
        self.cols.push(Col { name, kind })?;
        self.tried.push(0)?;
        Ok(())
    }

    /// Gives the columns.
    pub(crate) fn finish(self) -> ColList
        ensures columns { result ≡ self }
    {
        self.cols
    }
}

/// A name with the least number that makes it new, and the number, where all numbers up to one are taken. Among as many
/// numbers as there are names one is new.
fn least_new(alloc: Global, cols: &ColList, name: &[u8], tried: u64) -> Result<(Txt, u64), Memory>
    requires { IsTried (names cols.now) name.now tried }
    ensures text { IfOk result (λ made. made.0 ≡ numbered name.now made.1) }
    ensures least { IfOk result (λ made. IsLeastNew (names cols.now) name.now made.1) }
{
    for before in tried..cols.len() as u64 {
        let number = before + 1;
        let made = behind(alloc, name, number)?;
        match cols.find(made.bytes()) {
            None => return Ok((made, number)),
            Some(_) => {}
        }
    }
    Err(AllocError)
}

/// A name with a number behind it.
fn behind(alloc: Global, name: &[u8], number: u64) -> Result<Txt, Memory>
    ensures text { IfOk result (λ made. made ≡ numbered name.now number) }
{
    let mut bytes = Vec::from_slice(alloc, name)?;
    let mut buffer = Buffer::new();
    bytes.extend_from_slice(buffer.format(number).as_bytes())?;
    Ok(Txt::from_vec(bytes))
}
