//! One line.
ghost use Rattle.std.specs.Prelude.{◌≡◌, ◌≤◌, ◌-◌, ◌<◌, ◌^◌, List, length, take, drop, Some, IfOk, IfErr, true};
ghost use Rattle.std.specs.Str.{is_utf8, IsCharBoundary};
ghost use Rattle.qd_ilp.specs.Cut.{Fails, Gives, Grows};
ghost use Rattle.qd_ilp.specs.Line.{Item, tags_at, fields_at, rest_at, row_at, line_at, read_line};
ghost use Rattle.qd_ilp.specs.Kept.{PutsItems, moment_in};
ghost use Rattle.qd_ilp.specs.Whole.{row_in, line_in, HeadFits, LineFits};

use crate::cut::{behind, ends_at, is_at};
use crate::item::{Pair, push_items, push_name};
use crate::stop::Stop;
use crate::tail::{Tail, after_spaces, behind_end, tail_at, to_end};
use crate::value::{Span, When, place};

/// A line that gives a row, as a batch keeps it.
#[derive(Clone, Copy, Debug)]
pub(crate) struct Head {
    /// The name of the table.
    pub(crate) table: Span,
    /// The place of its first tag or field in the batch.
    pub(crate) first: u32,
    /// The place behind its last one.
    pub(crate) end: u32,
    /// Its stamp, or that it has none.
    pub(crate) when: When,
}

/// A row with the lines before it that give none, as a batch keeps them.
#[derive(Clone, Copy, Debug)]
pub(crate) struct KeptRow {
    /// How many lines stand between the row before and this one.
    pub(crate) blanks: u32,
    /// The row's own line.
    pub(crate) head: Head,
}

/// A line, as it is read.
#[derive(Clone, Copy, Debug)]
pub(crate) enum KeptLine {
    /// A line that gives no row.
    Blank,
    /// A line that gives one.
    Row(Head),
}

/// Puts tags into a batch, each behind a comma, and gives their end.
#[tactic(auto, unfolding(crate::specs::Line::tags_at), using(crate::proofs::Growing::grows_not, crate::proofs::Kepts::puts_none))]
fn push_tags(
    bytes: &mut Vec<u8>,
    pairs: &mut Vec<Pair>,
    text: &[u8],
    at: usize,
) -> Result<usize, Stop>
    requires within { at ≤ length text.now }
    requires small { length text.now < 2 ^ 32 }
    requires begins { Grows text.now bytes.old.items }
    ensures tags { IfOk result (λ end. (tags : List Item) × (tags_at (drop at text.now) ≡ Some (tags, drop end text.now)) × PutsItems bytes.old.items bytes.new.items pairs.old.items pairs.new.items tags) }
    ensures fault { IfErr result (λ e. Fails e (tags_at (drop at text.now))) }
    ensures grows { Grows bytes.old.items bytes.new.items }
    ensures pairs { Grows pairs.old.items pairs.new.items }
    ensures onward { IfOk result (λ end. at ≤ end) }
    ensures inside { IfOk result (λ end. end ≤ length text.now) }
{
    if is_at(text, at, b',') {
        push_items(bytes, pairs, true, text, at + 1)
    } else {
        Ok(at)
    }
}

/// Puts fields into a batch, behind a space, and reads what stands behind them.
#[tactic(auto, using(crate::proofs::Growing::grows_not))]
fn push_fields(
    bytes: &mut Vec<u8>,
    pairs: &mut Vec<Pair>,
    text: &[u8],
    at: usize,
) -> Result<Tail, Stop>
    requires within { at ≤ length text.now }
    requires small { length text.now < 2 ^ 32 }
    requires begins { Grows text.now bytes.old.items }
    ensures fields { IfOk result (λ tail. (fields : List Item)
        × (fields_at (drop at text.now) ≡ Some (record { fields = fields; moment = moment_in tail.when; after = drop tail.next text.now }))
        × PutsItems bytes.old.items bytes.new.items pairs.old.items pairs.new.items fields) }
    ensures fault { IfErr result (λ e. Fails e (fields_at (drop at text.now))) }
    ensures grows { Grows bytes.old.items bytes.new.items }
    ensures pairs { Grows pairs.old.items pairs.new.items }
    ensures onward { IfOk result (λ tail. at ≤ tail.next) }
    ensures inside { IfOk result (λ tail. tail.next ≤ length text.now) }
{
    if !is_at(text, at, b' ') {
        return Err(Stop::Syntax);
    }
    let end = push_items(bytes, pairs, false, text, after_spaces(text, at))?;
    match tail_at(text, end) {
        Some(tail) => Ok(tail),
        None => Err(Stop::Syntax),
    }
}

/// Puts what stands behind the tags into a batch: fields and a stamp, a stamp alone, or nothing.
#[tactic(auto, using(crate::proofs::Growing::grows_not))]
fn push_rest(
    bytes: &mut Vec<u8>,
    pairs: &mut Vec<Pair>,
    text: &[u8],
    at: usize,
) -> Result<Tail, Stop>
    requires within { at ≤ length text.now }
    requires small { length text.now < 2 ^ 32 }
    requires begins { Grows text.now bytes.old.items }
    ensures rest { IfOk result (λ tail. (fields : List Item)
        × (rest_at (drop at text.now) ≡ Some (record { fields = fields; moment = moment_in tail.when; after = drop tail.next text.now }))
        × PutsItems bytes.old.items bytes.new.items pairs.old.items pairs.new.items fields) }
    ensures fault { IfErr result (λ e. Fails e (rest_at (drop at text.now))) }
    ensures grows { Grows bytes.old.items bytes.new.items }
    ensures pairs { Grows pairs.old.items pairs.new.items }
    ensures onward { IfOk result (λ tail. at ≤ tail.next) }
    ensures inside { IfOk result (λ tail. tail.next ≤ length text.now) }
{
    match tail_at(text, at) {
        Some(tail) => Ok(tail),
        None => push_fields(bytes, pairs, text, at),
    }
}

/// Puts a line that gives a row into a batch, and gives what is kept of it and the place behind its end.
#[tactic(auto, using(crate::proofs::Growing::grows_not, crate::proofs::Growing::grows_twice))]
fn push_row(
    bytes: &mut Vec<u8>,
    pairs: &mut Vec<Pair>,
    text: &[u8],
    at: usize,
) -> Result<(Head, usize), Stop>
    requires within { at ≤ length text.now }
    requires small { length text.now < 2 ^ 32 }
    requires begins { Grows text.now bytes.old.items }
    ensures row { Gives (λ x. (row_in bytes.new.items pairs.new.items x.0, drop x.1 text.now)) result (row_at (drop at text.now)) }
    ensures fits { IfOk result (λ x. HeadFits bytes.new.items pairs.new.items x.0) }
    ensures grows { Grows bytes.old.items bytes.new.items }
    ensures pairs { Grows pairs.old.items pairs.new.items }
    ensures onward { IfOk result (λ x. at < x.1) }
    ensures inside { IfOk result (λ x. x.1 ≤ length text.now) }
{
    let (table, end) = push_name(bytes, text, at)?;
    if table.start == table.end {
        return Err(Stop::Syntax);
    }
    let first = place(pairs.len())?;
    let end = push_tags(bytes, pairs, text, end)?;
    let tail = push_rest(bytes, pairs, text, end)?;
    let last = place(pairs.len())?;
    if first == last {
        return Err(Stop::Syntax);
    }
    Ok((
        Head {
            table,
            first,
            end: last,
            when: tail.when,
        },
        tail.next,
    ))
}

/// Puts a line into a batch, and gives what is kept of it and the place behind its end.
#[tactic(auto, unfolding(crate::specs::Line::line_at), using(crate::proofs::Growing::grows_not))]
fn push_line(
    bytes: &mut Vec<u8>,
    pairs: &mut Vec<Pair>,
    text: &[u8],
    at: usize,
) -> Result<(KeptLine, usize), Stop>
    requires some { at < length text.now }
    requires small { length text.now < 2 ^ 32 }
    requires begins { Grows text.now bytes.old.items }
    ensures line { Gives (λ x. (line_in bytes.new.items pairs.new.items x.0, drop x.1 text.now)) result (line_at (drop at text.now)) }
    ensures fits { IfOk result (λ x. LineFits bytes.new.items pairs.new.items x.0) }
    ensures grows { Grows bytes.old.items bytes.new.items }
    ensures pairs { Grows pairs.old.items pairs.new.items }
    ensures onward { IfOk result (λ x. at < x.1) }
    ensures inside { IfOk result (λ x. x.1 ≤ length text.now) }
{
    let end = if is_at(text, at, b'#') {
        to_end(text, at)
    } else {
        after_spaces(text, at)
    };
    if ends_at(text, end) {
        return match behind_end(text, end) {
            Some(next) => Ok((KeptLine::Blank, next)),
            None => Err(Stop::Syntax),
        };
    }
    let (head, next) = push_row(bytes, pairs, text, at)?;
    Ok((KeptLine::Row(head), next))
}

/// Puts the next line into a batch, and gives what is kept of it and the place behind its end. Its bytes are UTF-8. The
/// caller says whether those of the whole text are, so that they are looked at once.
#[tactic(auto, unfolding(crate::specs::Line::read_line))]
pub(crate) fn push_next(
    bytes: &mut Vec<u8>,
    pairs: &mut Vec<Pair>,
    sound: bool,
    text: &[u8],
    at: usize,
) -> Result<(KeptLine, usize), Stop>
    requires sound { sound ≡ is_utf8 text.now }
    requires some { at < length text.now }
    requires small { length text.now < 2 ^ 32 }
    requires begins { Grows text.now bytes.old.items }
    ensures line { Gives (λ x. (line_in bytes.new.items pairs.new.items x.0, drop x.1 text.now)) result (read_line (drop at text.now)) }
    ensures fits { IfOk result (λ x. LineFits bytes.new.items pairs.new.items x.0) }
    ensures grows { Grows bytes.old.items bytes.new.items }
    ensures pairs { Grows pairs.old.items pairs.new.items }
    ensures onward { IfOk result (λ x. at < x.1) }
    ensures inside { IfOk result (λ x. x.1 ≤ length text.now) }
{
    let (line, next) = push_line(bytes, pairs, text, at)?;
    if !is_part_text(sound, text, at, next) {
        return Err(Stop::Syntax);
    }
    Ok((line, next))
}

/// Whether the bytes from a place up to another are UTF-8, in a text of which it is known whether it is.
#[tactic(auto, using(crate::proofs::Texts::sound_part))]
fn is_part_text(sound: bool, text: &[u8], at: usize, end: usize) -> bool
    requires sound { sound ≡ is_utf8 text.now }
    requires order { at ≤ end }
    requires within { end ≤ length text.now }
    ensures text { result ≡ is_utf8 (take (length (drop at text.now) - length (drop end text.now)) (drop at text.now)) }
{
    if sound && begins_char(text, at) && begins_char(text, end) {
        return true;
    }
    is_text(part(text, at, end))
}

/// Whether a character begins at a place, or the text ends there.
fn begins_char(text: &[u8], at: usize) -> bool
    requires within { at ≤ length text.now }
    ensures boundary { result ≡ true → IsCharBoundary text.now at }
{
    at == text.len() || text[at] < 0x80 || text[at] >= 0xc0
}

/// The bytes from a place up to another.
#[tactic(auto, using(crate::proofs::Places::part_is))]
fn part(text: &[u8], at: usize, end: usize) -> &[u8]
    requires order { at ≤ end }
    requires within { end ≤ length text.now }
    ensures part { result.now ≡ take (length (drop at text.now) - length (drop end text.now)) (drop at text.now) }
{
    behind(text, at).split_at(end - at).0
}

/// Whether bytes are UTF-8.
#[tactic(auto, using(crate::proofs::Texts::utf8_ok, crate::proofs::Texts::utf8_bad))]
pub(crate) fn is_text(bytes: &[u8]) -> bool
    ensures text { result ≡ is_utf8 bytes.now }
{
    match std::str::from_utf8(bytes) {
        Ok(_) => true,
        Err(_) => false,
    }
}
