//! Types of columns and units of partitions, each a code of one byte.
ghost use Rattle.std.specs.Prelude.{◌≡◌, ◌++◌, [], ◌∷◌, OnOk};
ghost use Rattle.qd_fields.specs.Spelling.{code_of_kind, code_of_unit};
ghost use Rattle.qd_fields.specs.Layout.{byte_at, coded, kind_of_code, unit_of_code};
ghost use Rattle.qd_fields.specs.Reading.{Gives};

use crate::numbers::{byte_at, damage};
use crate::stop::Stop;
use qd_base::{ColType, Memory, PartUnit};

/// Reads the type of a column. Damage is at a code that stands for none.
pub fn kind_at(bytes: &[u8]) -> Result<(ColType, &[u8]), Stop>
    ensures read { Gives (λ x. (x.0, x.1.now)) result (coded kind_of_code bytes.now (byte_at bytes.now)) }
{
    let (code, rest) = byte_at(bytes)?;
    match kind_of(code) {
        Some(kind) => Ok((kind, rest)),
        None => Err(damage(bytes)),
    }
}

/// Reads the unit of a table's partitions. Damage is at a code that stands for none.
pub fn unit_at(bytes: &[u8]) -> Result<(PartUnit, &[u8]), Stop>
    ensures read { Gives (λ x. (x.0, x.1.now)) result (coded unit_of_code bytes.now (byte_at bytes.now)) }
{
    let (code, rest) = byte_at(bytes)?;
    match unit_of(code) {
        Some(unit) => Ok((unit, rest)),
        None => Err(damage(bytes)),
    }
}

/// Adds the type of a column.
pub fn push_kind(bytes: &mut Vec<u8>, kind: ColType) -> Result<(), Memory>
    ensures bytes { OnOk result (bytes.new.items ≡ bytes.old.items ++ code_of_kind kind ∷ []) }
{
    bytes.push(code_of_kind(kind))?;
    Ok(())
}

/// Adds the unit of a table's partitions.
pub fn push_unit(bytes: &mut Vec<u8>, unit: PartUnit) -> Result<(), Memory>
    ensures bytes { OnOk result (bytes.new.items ≡ bytes.old.items ++ code_of_unit unit ∷ []) }
{
    bytes.push(code_of_unit(unit))?;
    Ok(())
}

fn kind_of(code: u8) -> Option<ColType>
    ensures kind { result ≡ kind_of_code code }
{
    match code {
        1 => Some(ColType::Long),
        2 => Some(ColType::Bool),
        3 => Some(ColType::Symbol),
        4 => Some(ColType::Varchar),
        5 => Some(ColType::Time),
        _ => None,
    }
}

fn unit_of(code: u8) -> Option<PartUnit>
    ensures unit { result ≡ unit_of_code code }
{
    match code {
        1 => Some(PartUnit::Hour),
        2 => Some(PartUnit::Day),
        3 => Some(PartUnit::Month),
        4 => Some(PartUnit::Year),
        _ => None,
    }
}

fn code_of_kind(kind: ColType) -> u8
    ensures code { result ≡ code_of_kind kind }
{
    match kind {
        ColType::Long => 1,
        ColType::Bool => 2,
        ColType::Symbol => 3,
        ColType::Varchar => 4,
        ColType::Time => 5,
    }
}

fn code_of_unit(unit: PartUnit) -> u8
    ensures code { result ≡ code_of_unit unit }
{
    match unit {
        PartUnit::Hour => 1,
        PartUnit::Day => 2,
        PartUnit::Month => 3,
        PartUnit::Year => 4,
    }
}
