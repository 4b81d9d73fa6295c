//! A test of what no clause says: that an expression has a value where memory is found. The cases in `tests/cases` show what
//! values are.
use crate::bound::Arithmetic::Minus;
use crate::scalars::Scalar::Long;
use crate::{Bound, Boxed, Items, Operand, Scalar, equal, eval};
use qd_base::Memory;
use std::alloc::Global;

fn literal(alloc: Global, number: i64) -> Result<Bound, Memory> {
    Ok(Bound::Literal(Long(number).to_cell(alloc)?))
}

/// A number, less one so many times.
fn lessened(alloc: Global, number: i64, times: u64) -> Result<Bound, Memory> {
    let first = Boxed::new(alloc, literal(alloc, number)?)?;
    let mut links = Items::new(alloc);
    for _turn in 0..times {
        let right = literal(alloc, 1)?;
        links.push(Operand { op: Minus, right })?;
    }
    Ok(Bound::Chain(first, links))
}

#[test]
fn a_long_chain_has_a_value(rt: HostRuntime) -> Result<(), Memory> {
    let chain = lessened(rt.alloc(), 20_000, 10_000)?;
    let found = eval(rt.alloc(), &chain, &[])?;
    assert!(rt; equal(Scalar::of(&found), Long(10_000)));
    Ok(())
}
