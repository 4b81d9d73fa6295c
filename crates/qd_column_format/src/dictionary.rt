//! Dictionaries as bytes: each text behind its length.
ghost use Rattle.std.specs.Prelude.{◌≡◌, ℕ, ◌+◌, ◌<◌, ◌≤◌, ◌++◌, List, length, map, take, drop, All, IfOk, IfErr, IfSome, IfNone, OnOk, OnErr, slice_index_or};
ghost use Rattle.std.specs.List.{flat_map};
ghost use Rattle.qd_base.specs.Dictionary.{AreDistinct};
ghost use Rattle.qd_column_format.specs.Spelling.{stored_text, BeginsWith};
ghost use Rattle.qd_column_format.specs.Damage.{IsCutText};
ghost use Rattle.qd_column_format.specs.Reading.{IsLoadFault, AreUnspelled};

use crate::fault::LoadFault;
use byteorder::{ByteOrder, LittleEndian};
use qd_base::{Dictionary, MAX_TEXT_BYTES, Memory, Txt};
use std::alloc::{AllocError, Global};

/// Gives the bytes of a dictionary's texts from id `k` on. It costs time and memory linear in them.
pub fn encode_from<D: Dictionary>(alloc: Global, dictionary: &D, k: u64) -> Result<Txt, Memory>
    requires within { k ≤ length (D.texts dictionary.now) }
    requires short { All (λ t. length t ≤ MAX_TEXT_BYTES) (D.texts dictionary.now) }
    ensures bytes { IfOk result (λ bytes. bytes ≡ flat_map stored_text (drop k (D.texts dictionary.now))) }
{
    let mut bytes = Vec::new(alloc);
    for id in k..dictionary.len() {
        push_text(&mut bytes, dictionary.text_of(id))?;
    }
    Ok(Txt::from_vec(bytes))
}

/// How many bytes the first `count` texts of a dictionary take. A number that no file can have is want of memory.
pub(crate) fn size_before<D: Dictionary>(dictionary: &D, count: u64) -> Result<u64, Memory>
    requires within { count ≤ length (D.texts dictionary.now) }
    ensures size { IfOk result (λ size. size ≡ length (flat_map stored_text (take count (D.texts dictionary.now)))) }
{
    let mut size = 0u64;
    for id in 0..count {
        let more = 2 + dictionary.text_of(id).len() as u64;
        if u64::MAX - size < more {
            return Err(AllocError);
        }
        size += more;
    }
    Ok(size)
}

/// Makes the dictionary of the first `count` texts that bytes hold; what follows is of no account. It is refused exactly
/// where fewer texts are there, or one of them stands twice. It costs time linear in the bytes that it takes, on average, and reserves
/// no memory for texts that aren't there.
pub fn load<D: Dictionary>(alloc: Global, bytes: &[u8], count: u64) -> Result<D, LoadFault>
    ensures count { IfOk result (λ d. length (D.texts d) ≡ count) }
    ensures distinct { IfOk result (λ d. AreDistinct (D.texts d)) }
    ensures short { IfOk result (λ d. All (λ t. length t ≤ MAX_TEXT_BYTES) (D.texts d)) }
    ensures texts { IfOk result (λ d. BeginsWith bytes.now (flat_map stored_text (D.texts d))) }
    ensures damaged { IfErr result (λ e. IsLoadFault count bytes.now e) }
    ensures unspelled { IfErr result (λ e. AreUnspelled count bytes.now e) }
{
    let mut dictionary = D::new(alloc)?;
    let mut at = 0;
    for id in 0..count {
        match text_at(bytes, at) {
            None => {
                return Err(LoadFault::Damaged {
                    at: bytes.len() as u64,
                });
            }
            Some(text) => {
                if dictionary.intern(text)? != id {
                    return Err(LoadFault::Damaged { at: at as u64 });
                }
                at += 2 + text.len();
            }
        }
    }
    Ok(dictionary)
}

/// Adds a text behind its length.
fn push_text(bytes: &mut Vec<u8>, text: &[u8]) -> Result<(), Memory>
    requires short { length text.now ≤ MAX_TEXT_BYTES }
    ensures bytes { OnOk result (bytes.new.items ≡ bytes.old.items ++ stored_text text.now) }
{
    let size: &[u8] = &(text.len() as u16).to_le_bytes();
    bytes.extend_from_slice(size)?;
    bytes.extend_from_slice(text)?;
    Ok(())
}

/// Lends the text whose length begins at a place, where the bytes have the whole of it.
fn text_at(bytes: &[u8], at: usize) -> Option<&[u8]>
    requires within { at ≤ length bytes.now }
    ensures none { IfNone result (IsCutText (drop at bytes.now)) }
    ensures short { IfSome result (λ t. length t.now ≤ MAX_TEXT_BYTES) }
    ensures text { IfSome result (λ t. drop at bytes.now ≡ stored_text t.now ++ drop (at + (2 + length t.now)) bytes.now) }
{
    let rest = &bytes[at..];
    if rest.len() < 2 {
        return None;
    }
    let size = LittleEndian::read_u16(rest) as usize;
    if rest.len() - 2 < size {
        return None;
    }
    Some(&rest[2..2 + size])
}
