//! Whether names and schemas are short enough to be stored. Those of a lawful transaction are.
ghost use Rattle.std.specs.Prelude.{◌<◌, ◌^◌, All, IsTrue};
ghost use Rattle.std.specs.Bool.{OnTrue};
ghost use Rattle.qd_fields.specs.Spelling.{FitsColumn, FitsKeys, FitsName, FitsSchema};

use qd_base::{Col, Schema};

/// The number of bytes at which a name is too long for its field.
const LONG_NAME: usize = 256;

/// The number at which a position or a count is too great for its field.
const MANY: usize = 65_536;

/// Says whether a name is short enough.
pub(crate) fn is_short(name: &[u8]) -> bool
    ensures short { OnTrue result (FitsName name.now) }
{
    name.len() < LONG_NAME
}

/// Says whether all parts of a schema are short enough. It costs time linear in its columns and keys.
pub(crate) fn fits(schema: &Schema) -> bool
    ensures fits { OnTrue result (FitsSchema schema.now) }
{
    is_short(schema.name.bytes())
        && schema.cols.len() < MANY
        && are_short(schema.cols.as_slice())
        && (schema.time_col as usize) < MANY
        && schema.keys.len() < MANY
        && are_low(schema.keys.as_slice())
}

/// Says whether keys are few and low enough. It costs time linear in them.
pub(crate) fn keys_fit(keys: &[u32]) -> bool
    ensures fit { OnTrue result (FitsKeys keys.now) }
{
    keys.len() < MANY && are_low(keys)
}

/// Says whether the columns' names are short enough.
fn are_short(cols: &[Col]) -> bool
    ensures short { OnTrue result (All FitsColumn cols.now) }
{
    for col in cols {
        if !is_short(col.name.bytes()) {
            return false;
        }
    }
    true
}

/// Says whether the numbers of columns are low enough.
fn are_low(keys: &[u32]) -> bool
    ensures low { OnTrue result (All (λ k. k < 2 ^ 16) keys.now) }
{
    for key in keys {
        if (*key as usize) >= MANY {
            return false;
        }
    }
    true
}
