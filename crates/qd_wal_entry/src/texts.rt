//! The texts of an entry, read.
ghost use Rattle.std.specs.Prelude.{◌≡◌, [], ◌∷◌, ◌++◌, IfOk};
ghost use Rattle.qd_fields.specs.Layout.{items};
ghost use Rattle.qd_fields.specs.Reading.{Gives};
ghost use Rattle.qd_wal_entry.specs.Layout.{new_text, texts_at, unused};

use qd_fields::{Stop, damage, text_at, u32_at};
use qd_symbols::SymbolMap;
use std::alloc::Global;

/// The texts behind their number.
#[tactic(auto, unfolding(crate::specs::Layout::texts_at))]
pub(crate) fn texts_at(alloc: Global, bytes: &[u8]) -> Result<(SymbolMap, &[u8]), Stop>
    ensures read { Gives (λ x. (x.0, x.1.now)) result (texts_at bytes.now) }
{
    let (count, rest) = u32_at(bytes)?;
    some_texts(alloc, count as u64, rest)
}

/// Says that the first text that no cell uses is damaged: the one behind those that are used.
#[tactic(auto, unfolding(crate::specs::Layout::unused))]
pub(crate) fn unused(alloc: Global, used: u64, bytes: &[u8]) -> Result<(), Stop>
    ensures read { Gives (λ _. tt) result (unused bytes.now used) }
{
    let (_, rest) = u32_at(bytes)?;
    let (_, rest) = some_texts(alloc, used, rest)?;
    Err(damage(rest))
}

/// So many texts.
fn some_texts(alloc: Global, count: u64, bytes: &[u8]) -> Result<(SymbolMap, &[u8]), Stop>
    ensures read { Gives (λ x. (x.0, x.1.now)) result (items new_text count [] bytes.now) }
{
    let mut texts = SymbolMap::new(alloc)?;
    let mut rest = bytes;
    for _ in 0..count {
        let (_, after) = next_text(&mut texts, rest)?;
        rest = after;
    }
    Ok((texts, rest))
}

/// A text that is none of those before it, which it joins.
#[tactic(auto, unfolding(crate::specs::Layout::new_text))]
fn next_text<'a>(texts: &mut SymbolMap, bytes: &'a [u8]) -> Result<(&'a [u8], &'a [u8]), Stop>
    ensures read { Gives (λ x. (x.0.now, x.1.now)) result (new_text texts.old bytes.now) }
    ensures joined { IfOk result (λ x. texts.new ≡ texts.old ++ x.0.now ∷ []) }
{
    let (text, rest) = text_at(bytes)?;
    if texts.id_of(text).is_some() {
        return Err(damage(bytes));
    }
    texts.intern(text)?;
    Ok((text, rest))
}
