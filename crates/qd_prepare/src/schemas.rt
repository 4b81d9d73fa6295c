//! The schemas that a transaction leaves.
ghost use Rattle.std.specs.Prelude.{◌≡◌, List, fold, unwrap_or, IfOk};
ghost use Rattle.std.specs.Bool.{OnTrue};
ghost use Rattle.qd_base.specs.declared.schema.Schema.{Schema as Looks};
ghost use Rattle.qd_base.specs.Schemas.{schemas_step};
ghost use Rattle.qd_base.specs.Lawful.{AreLawful};

use qd_base::{Memory, Op, Schemas};

/// Gives the schemas that changes leave, or none where they leave the schemas as they are. It costs time linear in the number
/// of changes; where one makes a table or a column or sets keys, also time and memory linear in the size of all schemas.
pub(crate) fn schemas_left(schemas: &Schemas, ops: &[Op]) -> Result<Option<Schemas>, Memory>
    requires lawful { AreLawful schemas.now ops.now }
    ensures left { IfOk result (λ left. unwrap_or left schemas.now ≡ fold schemas_step schemas.now ops.now) }
{
    if inserts_only(ops) {
        return Ok(None);
    }
    let after = schemas_after(schemas, ops)?;
    Ok(Some(after))
}

/// Says whether all changes are insertions, which change no schema.
fn inserts_only(ops: &[Op]) -> bool
    ensures unchanged { OnTrue result ((schemas : List Looks) → fold schemas_step schemas ops.now ≡ schemas) }
{
    for op in ops {
        match op {
            Op::Insert { .. } => {}
            _ => return false,
        }
    }
    true
}

/// Gives the schemas after changes.
fn schemas_after(schemas: &Schemas, ops: &[Op]) -> Result<Schemas, Memory>
    requires { AreLawful schemas.now ops.now }
    ensures after { IfOk result (λ after. after ≡ fold schemas_step schemas.now ops.now) }
{
    let mut after = schemas.copy()?;
    for op in ops {
        after.apply(op)?;
    }
    Ok(after)
}
