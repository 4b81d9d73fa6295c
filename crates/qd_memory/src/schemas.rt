//! The schemas that a transaction leaves.
ghost use Rattle.std.specs.Prelude.{◌≡◌, List, fold, IfOk};
ghost use Rattle.std.specs.Bool.{OnTrue};
ghost use Rattle.qd_base.specs.declared.schema.Schema.{Schema as Looks};
ghost use Rattle.qd_base.specs.Schemas.{schemas_step};
ghost use Rattle.qd_base.specs.Lawful.{AreLawful};

use qd_base::{Memory, Op, Schemas};

/// Says whether all changes are insertions, which change no schema. It costs time linear in their number.
pub fn inserts_only(ops: &[Op]) -> bool
    ensures unchanged { OnTrue result ((schemas : List Looks) → fold schemas_step schemas ops.now ≡ schemas) }
{
    for op in ops {
        match op {
            Op::Insert { .. } => {}
            _ => return false,
        }
    }
    true
}

/// Gives the schemas after changes. It costs time and memory linear in the size of all of them, and for each change time
/// logarithmic in the number of tables.
pub fn schemas_after(schemas: &Schemas, ops: &[Op]) -> Result<Schemas, Memory>
    requires { AreLawful schemas.now ops.now }
    ensures after { IfOk result (λ after. after ≡ fold schemas_step schemas.now ops.now) }
{
    let mut after = schemas.copy()?;
    for op in ops {
        after.apply(op)?;
    }
    Ok(after)
}
