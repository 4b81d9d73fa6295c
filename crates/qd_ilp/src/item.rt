//! Tags and fields.
ghost use Rattle.std.specs.Prelude.{◌≡◌, ℕ, ◌+◌, ◌-◌, ◌<◌, ◌≤◌, ◌^◌, List, length, drop, false, IfOk, IfErr, Some, true};
ghost use Rattle.qd_ilp.specs.Cut.{cut, closed, Gives, Fails, Grows};
ghost use Rattle.qd_ilp.specs.Line.{Item, value_at, item_at, items_at};
ghost use Rattle.qd_ilp.specs.Kept.{Puts, ValueFits, PairFits, PutsItems, value_in, item_in};

use crate::cut::{
    behind, is_at, plain_end, push_closed, push_cut, split_word, stops_at, unquoted_end,
};
use crate::stop::Stop;
use crate::value::{Kept, Span, bare, place};
use qd_base::Memory;

/// A tag or a field, as a batch keeps it.
#[derive(Clone, Copy, Debug)]
pub(crate) struct Pair {
    /// The name of the column.
    pub(crate) name: Span,
    /// Its value.
    pub(crate) value: Kept,
}

/// Finds a name or a tag's value from a place on, and gives where its bytes lie in the buffer, and its end. They lie in
/// the text itself, with which the buffer begins, unless a backslash or a CR stands in them.
#[tactic(auto, using(crate::proofs::Growing::grows_not))]
#[inline]
pub(crate) fn push_name(
    bytes: &mut Vec<u8>,
    text: &[u8],
    at: usize,
) -> Result<(Span, usize), Memory>
    requires within { at ≤ length text.now }
    requires small { length text.now < 2 ^ 32 }
    requires begins { Grows text.now bytes.old.items }
    ensures name { IfOk result (λ x. Puts bytes.old.items bytes.new.items x.0 (cut false (drop at text.now)).0) }
    ensures rest { IfOk result (λ x. drop x.1 text.now ≡ (cut false (drop at text.now)).1) }
    ensures inside { IfOk result (λ x. x.1 ≤ length text.now) }
    ensures longer { IfOk result (λ x. x.0.end + at ≤ x.0.start + x.1) }
    ensures grows { Grows bytes.old.items bytes.new.items }
{
    let end = plain_end(text, at);
    if stops_at(text, end) {
        return Ok((
            Span {
                start: at as u32,
                end: end as u32,
            },
            end,
        ));
    }
    let (name, rest) = push_unescaped(bytes, behind(text, at))?;
    Ok((name, text.len() - rest.len()))
}

/// Puts the bytes that a name stands for at the end of the buffer, and gives their place and the text behind it.
#[tactic(auto, using(crate::proofs::Kepts::put_behind, crate::proofs::Growing::grows_not))]
#[cold]
fn push_unescaped<'a>(bytes: &mut Vec<u8>, text: &'a [u8]) -> Result<(Span, &'a [u8]), Memory>
    ensures name { IfOk result (λ x. Puts bytes.old.items bytes.new.items x.0 (cut false text.now).0) }
    ensures rest { IfOk result (λ x. x.1.now ≡ (cut false text.now).1) }
    ensures shorter { IfOk result (λ x. x.0.end + length x.1.now ≤ x.0.start + length text.now) }
    ensures within { IfOk result (λ x. length x.1.now ≤ length text.now) }
    ensures grows { Grows bytes.old.items bytes.new.items }
{
    let start = place(bytes.len())?;
    let rest = push_cut(bytes, text)?;
    let end = place(bytes.len())?;
    Ok((Span { start, end }, rest))
}

/// Finds a quoted text from behind its opening quote on, and gives where its bytes lie in the buffer, and the place
/// behind it. They lie in the text itself, with which the buffer begins, unless a backslash stands in them.
#[tactic(auto, using(crate::proofs::Growing::grows_not))]
fn push_text(bytes: &mut Vec<u8>, text: &[u8], at: usize) -> Result<(Span, usize), Stop>
    requires within { at ≤ length text.now }
    requires small { length text.now < 2 ^ 32 }
    requires begins { Grows text.now bytes.old.items }
    ensures text { IfOk result (λ x. (t : List ℕ) × (closed false (drop at text.now) ≡ Some (t, drop x.1 text.now)) × Puts bytes.old.items bytes.new.items x.0 t) }
    ensures fault { IfErr result (λ e. Fails e (closed false (drop at text.now))) }
    ensures onward { IfOk result (λ x. at ≤ x.1) }
    ensures inside { IfOk result (λ x. x.1 ≤ length text.now) }
    ensures grows { Grows bytes.old.items bytes.new.items }
{
    let end = unquoted_end(text, at);
    if is_at(text, end, b'"') {
        return Ok((
            Span {
                start: at as u32,
                end: end as u32,
            },
            end + 1,
        ));
    }
    let (quoted, rest) = push_unquoted(bytes, behind(text, at))?;
    Ok((quoted, text.len() - rest.len()))
}

/// Puts the bytes that a quoted text stands for at the end of the buffer, and gives their place and the text behind it.
#[tactic(auto, using(crate::proofs::Kepts::put_behind, crate::proofs::Growing::grows_not))]
#[cold]
fn push_unquoted<'a>(bytes: &mut Vec<u8>, text: &'a [u8]) -> Result<(Span, &'a [u8]), Stop>
    ensures text { IfOk result (λ x. (t : List ℕ) × (closed false text.now ≡ Some (t, x.1.now)) × Puts bytes.old.items bytes.new.items x.0 t) }
    ensures fault { IfErr result (λ e. Fails e (closed false text.now)) }
    ensures shorter { IfOk result (λ x. length x.1.now ≤ length text.now) }
    ensures grows { Grows bytes.old.items bytes.new.items }
{
    let start = place(bytes.len())?;
    let rest = push_closed(bytes, text)?;
    let end = place(bytes.len())?;
    Ok((Span { start, end }, rest))
}

/// Finds a tag's value, or a field's, and gives it and its end.
fn push_value(
    bytes: &mut Vec<u8>,
    is_tag: bool,
    text: &[u8],
    at: usize,
) -> Result<(Kept, usize), Stop>
    requires within { at ≤ length text.now }
    requires small { length text.now < 2 ^ 32 }
    requires begins { Grows text.now bytes.old.items }
    ensures value { Gives (λ x. (value_in bytes.new.items x.0, drop x.1 text.now)) result (value_at is_tag (drop at text.now)) }
    ensures grows { Grows bytes.old.items bytes.new.items }
    ensures fits { IfOk result (λ x. ValueFits (length bytes.new.items) x.0) }
    ensures onward { IfOk result (λ x. at ≤ x.1) }
    ensures inside { IfOk result (λ x. x.1 ≤ length text.now) }
{
    if is_tag {
        push_tag(bytes, text, at)
    } else {
        push_field(bytes, text, at)
    }
}

#[tactic(auto, using(crate::proofs::Kepts::puts_in, crate::proofs::Kepts::puts_fits, crate::proofs::Growing::grows_not, crate::proofs::Growing::grows_by, crate::proofs::Growing::grows_twice))]
fn push_tag(bytes: &mut Vec<u8>, text: &[u8], at: usize) -> Result<(Kept, usize), Stop>
    requires within { at ≤ length text.now }
    requires small { length text.now < 2 ^ 32 }
    requires begins { Grows text.now bytes.old.items }
    ensures value { Gives (λ x. (value_in bytes.new.items x.0, drop x.1 text.now)) result (value_at true (drop at text.now)) }
    ensures grows { Grows bytes.old.items bytes.new.items }
    ensures fits { IfOk result (λ x. ValueFits (length bytes.new.items) x.0) }
    ensures onward { IfOk result (λ x. at ≤ x.1) }
    ensures inside { IfOk result (λ x. x.1 ≤ length text.now) }
{
    let (span, end) = push_name(bytes, text, at)?;
    if span.start == span.end {
        return Err(Stop::Syntax);
    }
    Ok((Kept::Tag(span), end))
}

#[tactic(auto, using(crate::proofs::Kepts::puts_in, crate::proofs::Kepts::puts_fits, crate::proofs::Growing::grows_not, crate::proofs::Growing::grows_by, crate::proofs::Growing::grows_twice))]
fn push_field(bytes: &mut Vec<u8>, text: &[u8], at: usize) -> Result<(Kept, usize), Stop>
    requires within { at ≤ length text.now }
    requires small { length text.now < 2 ^ 32 }
    requires begins { Grows text.now bytes.old.items }
    ensures value { Gives (λ x. (value_in bytes.new.items x.0, drop x.1 text.now)) result (value_at false (drop at text.now)) }
    ensures grows { Grows bytes.old.items bytes.new.items }
    ensures fits { IfOk result (λ x. ValueFits (length bytes.new.items) x.0) }
    ensures onward { IfOk result (λ x. at ≤ x.1) }
    ensures inside { IfOk result (λ x. x.1 ≤ length text.now) }
{
    if is_at(text, at, b'"') {
        let (span, end) = push_text(bytes, text, at + 1)?;
        return Ok((Kept::Text(span), end));
    }
    let (word, end) = split_word(text, at);
    if word.is_empty() {
        return Err(Stop::Syntax);
    }
    Ok((bare(word), end))
}

/// Finds a tag, or a field, and gives it and its end.
#[tactic(auto, using(crate::proofs::Growing::grows_not, crate::proofs::Growing::grows_by, crate::proofs::Growing::grows_twice))]
fn push_item(
    bytes: &mut Vec<u8>,
    is_tag: bool,
    text: &[u8],
    at: usize,
) -> Result<(Pair, usize), Stop>
    requires within { at ≤ length text.now }
    requires small { length text.now < 2 ^ 32 }
    requires begins { Grows text.now bytes.old.items }
    ensures item { Gives (λ x. (item_in bytes.new.items x.0, drop x.1 text.now)) result (item_at is_tag (drop at text.now)) }
    ensures grows { Grows bytes.old.items bytes.new.items }
    ensures fits { IfOk result (λ x. PairFits (length bytes.new.items) x.0) }
    ensures onward { IfOk result (λ x. at < x.1) }
    ensures inside { IfOk result (λ x. x.1 ≤ length text.now) }
{
    let (name, end) = push_name(bytes, text, at)?;
    if name.start == name.end {
        return Err(Stop::Syntax);
    }
    if !is_at(text, end, b'=') {
        return Err(Stop::Syntax);
    }
    let (value, end) = push_value(bytes, is_tag, text, end + 1)?;
    Ok((Pair { name, value }, end))
}

/// Puts tags, or fields, into a batch, and gives their end. It costs time linear in what it goes over.
#[tactic(auto, using(crate::proofs::Growing::grows_not, crate::proofs::Growing::grows_by, crate::proofs::Growing::grows_twice))]
pub(crate) fn push_items(
    bytes: &mut Vec<u8>,
    pairs: &mut Vec<Pair>,
    is_tag: bool,
    text: &[u8],
    at: usize,
) -> Result<usize, Stop>
    requires within { at ≤ length text.now }
    requires small { length text.now < 2 ^ 32 }
    requires begins { Grows text.now bytes.old.items }
    ensures items { IfOk result (λ end. (items : List Item) × (items_at is_tag (length text.now - at) (drop at text.now) ≡ Some (items, drop end text.now))
        × PutsItems bytes.old.items bytes.new.items pairs.old.items pairs.new.items items) }
    ensures fault { IfErr result (λ e. Fails e (items_at is_tag (length text.now - at) (drop at text.now))) }
    ensures grows { Grows bytes.old.items bytes.new.items }
    ensures pairs { Grows pairs.old.items pairs.new.items }
    ensures onward { IfOk result (λ end. at ≤ end) }
    ensures inside { IfOk result (λ end. end ≤ length text.now) }
{
    let mut next = at;
    for _ in 0..text.len() - at {
        let (pair, end) = push_item(bytes, is_tag, text, next)?;
        pairs.push(pair)?;
        if !is_at(text, end, b',') {
            return Ok(end);
        }
        next = end + 1;
    }
    Err(Stop::Syntax)
}
