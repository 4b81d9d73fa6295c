//! A call of `test`, which queries don't make: they filter by runs.
ghost use Rattle.std.specs.Prelude.{◌≡◌, [], ◌∷◌, IfOk};
ghost use Rattle.qd_base.specs.declared.schema.ColType.TheVariants as kind;
ghost use Rattle.qd_block.specs.Blocks.{kinds_in};

use qd_base::{Col, ColList, ColType, Memory, Txt};
use qd_block::{Block, Builder};
use qd_expr::test;
use qd_rows::RowSet;
use qd_symbols::SymbolMap;
use qd_value::{Bound, Boxed};
use std::alloc::Global;
use std::sync::Arc;
use std::test::Fail;

/// One column, of times.
fn columns(alloc: Global) -> Result<ColList, Memory>
    ensures { IfOk result (λ cols. kinds_in cols ≡ kind.Time ∷ []) }
{
    let name = Txt::from_bytes(alloc, b"ts")?;
    let mut cols = ColList::new(alloc);
    cols.push(Col {
        name,
        kind: ColType::Time,
    })?;
    Ok(cols)
}

/// A row of time 5.
fn block(alloc: Global) -> Result<Block<SymbolMap>, Memory>
    ensures { IfOk result (λ b. b.kinds ≡ kind.Time ∷ []) }
{
    let cols = columns(alloc)?;
    let mut rows = Builder::new(alloc, &cols, 0)?;
    rows.push_time(5)?;
    rows.end_row();
    rows.finish()
}

/// The row in a set.
fn table(alloc: Global) -> Result<Box<RowSet<SymbolMap>>, Memory> {
    let block = block(alloc)?;
    let count = block.rows();
    let block = Arc::new(alloc, block)?;
    let cols = columns(alloc)?;
    let mut set = RowSet::over(alloc, &cols, None)?;
    let b = set.add_block(block)?;
    if 0 < count {
        set.push_run(b, 0, count)?;
    }
    Ok(Box::new(alloc, set)?)
}

/// Whether the only row has a time from one moment to another.
fn passes(alloc: Global, rows: &RowSet<SymbolMap>, lo: u64, hi: u64) -> Result<bool, Memory> {
    if rows.len() != 1 {
        return Ok(false);
    }
    let time = Boxed::new(alloc, Bound::Column(0))?;
    let test_of_time = Bound::InInterval(time, lo, hi);
    Ok(test(&test_of_time, rows, 0))
}

#[test]
fn a_row_is_tested(rt: HostRuntime) -> Result<(), Fail> {
    let set = table(rt.alloc())?;
    for (lo, hi, wanted) in [(5, 5, true), (0, 4, false), (6, 9, false)] {
        let passed = passes(rt.alloc(), &set, lo, hi)?;
        assert!(rt; passed == wanted);
    }
    Ok(())
}
