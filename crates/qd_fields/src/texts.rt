//! Names and texts behind their lengths.
ghost use Rattle.std.specs.Prelude.{◌≡◌, ◌≤◌, ◌++◌, length, IfOk, OnOk};
ghost use Rattle.qd_base.specs.declared.limits.TheConstants.{MAX_TEXT_BYTES};
ghost use Rattle.qd_fields.specs.Spelling.{name_bytes, text_bytes, FitsName};
ghost use Rattle.qd_fields.specs.Layout.{name_at, text_at};
ghost use Rattle.qd_fields.specs.Reading.{Gives};

use crate::numbers::{byte_at, push_u16, u16_at};
use crate::stop::Stop;
use qd_base::Memory;

/// Reads a name behind its length in one byte, lent from the bytes. Damage is where bytes are missing.
#[tactic(auto, unfolding(crate::specs::Layout::name_at))]
pub fn name_at(bytes: &[u8]) -> Result<(&[u8], &[u8]), Stop>
    ensures read { Gives (λ x. (x.0.now, x.1.now)) result (name_at bytes.now) }
{
    let (len, rest) = byte_at(bytes)?;
    let len = len as usize;
    if rest.len() < len {
        return Err(Stop::Damage { left: 0 });
    }
    Ok(rest.split_at(len))
}

/// Reads a text behind its length in two bytes, lent from the bytes. Damage is where bytes are missing.
#[tactic(auto, unfolding(crate::specs::Layout::text_at))]
pub fn text_at(bytes: &[u8]) -> Result<(&[u8], &[u8]), Stop>
    ensures read { Gives (λ x. (x.0.now, x.1.now)) result (text_at bytes.now) }
    ensures short { IfOk result (λ x. length x.0.now ≤ MAX_TEXT_BYTES) }
{
    let (len, rest) = u16_at(bytes)?;
    let len = len as usize;
    if rest.len() < len {
        return Err(Stop::Damage { left: 0 });
    }
    Ok(rest.split_at(len))
}

/// Adds a name of at most 255 bytes behind its length.
pub fn push_name(bytes: &mut Vec<u8>, name: &[u8]) -> Result<(), Memory>
    requires fits { FitsName name.now }
    ensures bytes { OnOk result (bytes.new.items ≡ bytes.old.items ++ name_bytes name.now) }
{
    bytes.push(name.len() as u8)?;
    bytes.extend_from_slice(name)
}

/// Adds a text of at most 65,535 bytes behind its length.
pub fn push_text(bytes: &mut Vec<u8>, text: &[u8]) -> Result<(), Memory>
    requires short { length text.now ≤ MAX_TEXT_BYTES }
    ensures bytes { OnOk result (bytes.new.items ≡ bytes.old.items ++ text_bytes text.now) }
{
    push_u16(bytes, text.len() as u16)?;
    bytes.extend_from_slice(text)
}
