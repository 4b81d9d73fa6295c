//! Messages, as they are appended.
ghost use Rattle.std.specs.Prelude.{◌≡◌, ℕ, ◌+◌, ◌≤◌, List, [], ◌∷◌, ◌++◌, length, IfOk, OnOk};
ghost use Rattle.qd_pgwire.specs.Messages.{message, string, u16_bytes, u32_bytes};

use qd_base::Memory;
use std::alloc::AllocError;

/// Appends the type of a message and room for its length, and gives the place of the length. The body is appended behind
/// it, and then the message is ended.
pub(crate) fn begin(out: &mut Vec<u8>, kind: u8) -> Result<usize, Memory>
    ensures bytes { OnOk result (out.new.items ≡ out.old.items ++ kind ∷ 0 ∷ 0 ∷ 0 ∷ 0 ∷ []) }
    ensures place { IfOk result (λ at. at ≡ length out.old.items + 1) }
{
    out.extend_from_slice(&[kind, 0, 0, 0, 0])?;
    Ok(out.len() - 4)
}

/// Writes the length of a message whose body ends here. A body that is too long for a message finds no memory.
pub(crate) fn end(out: &mut Vec<u8>, at: usize) -> Result<(), Memory>
    requires { at + 4 ≤ length out.old.items }
    ensures { (before body : List ℕ) (kind : ℕ) → at ≡ length before + 1
        → out.old.items ≡ (before ++ kind ∷ 0 ∷ 0 ∷ 0 ∷ 0 ∷ []) ++ body → OnOk result (out.new.items ≡ before ++ message kind body) }
{
    let Ok(len) = u32::try_from(out.len() - at) else {
        return Err(AllocError);
    };
    out[at..at + 4].copy_from_slice(&len.to_be_bytes());
    Ok(())
}

/// Appends a number in two bytes.
pub(crate) fn push_u16(out: &mut Vec<u8>, number: u16) -> Result<(), Memory>
    ensures { OnOk result (out.new.items ≡ out.old.items ++ u16_bytes number) }
{
    out.extend_from_slice(&number.to_be_bytes())
}

/// Appends a number in four bytes.
pub(crate) fn push_u32(out: &mut Vec<u8>, number: u32) -> Result<(), Memory>
    ensures { OnOk result (out.new.items ≡ out.old.items ++ u32_bytes number) }
{
    out.extend_from_slice(&number.to_be_bytes())
}

/// Appends how many of something there are, in two bytes. A number that two bytes don't hold finds no memory.
pub(crate) fn push_count(out: &mut Vec<u8>, count: usize) -> Result<(), Memory>
    ensures { OnOk result (out.new.items ≡ out.old.items ++ u16_bytes count) }
{
    match u16::try_from(count) {
        Ok(count) => push_u16(out, count),
        Err(_) => Err(AllocError),
    }
}

/// Appends a text and the zero byte that ends it.
pub(crate) fn push_string(out: &mut Vec<u8>, text: &[u8]) -> Result<(), Memory>
    ensures { OnOk result (out.new.items ≡ out.old.items ++ string text.now) }
{
    out.extend_from_slice(text)?;
    out.push(0)?;
    Ok(())
}
