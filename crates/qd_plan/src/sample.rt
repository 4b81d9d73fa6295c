//! SAMPLE BY: its fills and its alignment.
ghost use Rattle.std.specs.Prelude.{◌≡◌, ◌≤◌, ◌∷◌, [], List, map, Some, IfOk, OnOk};
ghost use Rattle.std.specs.List.{flat_map, list_all, zip};
ghost use Rattle.qd_base.specs.declared.schema.ColType.{ColType};
ghost use Rattle.qd_meaning.specs.Refusals.{least, sooner};
ghost use Rattle.qd_meaning.specs.Sampling as sampling;
ghost use Rattle.qd_plan.specs.Filling as spec;

use crate::fault::{Faults, both};
use qd_base::{Code, ColType, Memory};
use qd_bind::Whole;
use qd_meaning::{Fill, FillList, GroupSpec, Refusal, SampleSpec, sooner, soonest, unless};
use qd_sql_ast::{AlignTo, FillWith, Fills, Sampled, StrideOf, Text};
use qd_time::Stride;
use std::alloc::Global;

/// The sample of a query; the types are those of its aggregates.
pub(crate) fn sample_spec(
    alloc: Global,
    sampled: &Sampled,
    group: GroupSpec,
    kinds: &[ColType],
    faults: &mut Faults,
) -> Result<SampleSpec, Memory>
    ensures spec { IfOk result (λ made. made ≡ sampling.sample_spec sampled.now group.keys group.aggs) }
    ensures faults { OnOk result (faults.new.first ≡ sooner faults.old.first (least (sampling.sample_faults sampled.now kinds.now))) }
{
    faults.unless(!kinds.is_empty(), Code::Keys, sampled.at);
    faults.add(fills_fault(&sampled.fills, kinds));
    faults.add(align_fault(&sampled.align));
    Ok(SampleSpec {
        group,
        stride: stride_of(&sampled.stride),
        offset: offset_of(&sampled.align),
        fills: fills_of(alloc, &sampled.fills)?,
    })
}

/// How long a bucket is.
fn stride_of(stride: &StrideOf) -> Stride
    ensures stride { result ≡ record { n = stride.now.count; unit = stride.now.unit } }
{
    Stride {
        n: stride.count.get() as u32,
        unit: stride.unit,
    }
}

/// What fills buckets without rows; without FILL nothing does.
fn fills_of(alloc: Global, fills: &Option<Fills>) -> Result<FillList, Memory>
    ensures fills { IfOk result (λ made. made ≡ sampling.fills_of fills.now) }
{
    match fills {
        Some(fills) => list_of(alloc, fills.fills.as_slice()),
        None => {
            let mut skip = FillList::new(alloc);
            skip.push(Fill::Skip)?;
            Ok(skip)
        }
    }
}

/// What fills are.
fn list_of(alloc: Global, fills: &[FillWith]) -> Result<FillList, Memory>
    ensures fills { IfOk result (λ made. made ≡ map sampling.fill_of fills.now) }
{
    let mut list = FillList::new(alloc);
    for fill in fills {
        list.push(fill_of(fill))?;
    }
    Ok(list)
}

/// What a fill is.
fn fill_of(fill: &FillWith) -> Fill
    ensures fill { result ≡ sampling.fill_of fill.now }
{
    match fill {
        FillWith::Nothing(_) => Fill::Skip,
        FillWith::Null(_) => Fill::Null,
        FillWith::Prev(_) => Fill::Prev,
        FillWith::Number(n) => Fill::Number(Whole::of(&n.value).get()),
        FillWith::Minus(_, n) => Fill::Number(Whole::of(&n.value).opposite().get()),
    }
}

/// Where fills are refused: there is one for all aggregates, or one for each.
fn fills_fault(fills: &Option<Fills>, kinds: &[ColType]) -> Option<Refusal>
    ensures least { result ≡ least (sampling.fills_faults fills.now kinds.now) }
{
    match fills {
        None => None,
        Some(given) => {
            let list = given.fills.as_slice();
            let fits = list.len() == 1 || list.len() == kinds.len();
            let count = unless(fits, Code::Types, given.at);
            both(count, list_fault(list, kinds))
        }
    }
}

/// Where a list of fills is refused, whatever its length.
fn list_fault(fills: &[FillWith], kinds: &[ColType]) -> Option<Refusal>
    ensures least { result ≡ least (sampling.list_faults fills.now kinds.now) }
{
    match fills {
        [] => None,
        [fill] => number_fault(fill, all_long(kinds)),
        [_, _, ..] => both(soonest(fills, none_fault), numbers_fault(fills, kinds)),
    }
}

/// Where a fill that is one of several is refused: NONE stands alone.
fn none_fault(fill: &FillWith) -> Option<Refusal>
    ensures least { result ≡ least (sampling.none_faults fill.now) }
{
    match fill {
        FillWith::Nothing(at) => unless(false, Code::Types, *at),
        _ => None,
    }
}

/// Where numbers are refused that fill the aggregate beside them.
fn numbers_fault(fills: &[FillWith], kinds: &[ColType]) -> Option<Refusal>
    ensures least { result ≡ least (flat_map spec.beside_faults (zip fills.now kinds.now)) }
{
    let count = fills.len().min(kinds.len());
    let mut found = None;
    for i in 0..count {
        found = sooner(found, number_fault(&fills[i], is_long(kinds[i])));
    }
    found
}

/// Where a number is refused that fills some aggregates, of which it is known whether all are of numbers.
fn number_fault(fill: &FillWith, all_long: bool) -> Option<Refusal>
    ensures least { (kinds : List ColType) → all_long ≡ list_all sampling.is_long kinds → result ≡ least (sampling.number_faults fill.now kinds) }
{
    match fill {
        FillWith::Number(n) => unless(all_long, Code::Types, n.at),
        FillWith::Minus(minus, _) => unless(all_long, Code::Types, *minus),
        FillWith::Nothing(_) | FillWith::Null(_) | FillWith::Prev(_) => None,
    }
}

fn all_long(kinds: &[ColType]) -> bool
    ensures all { result ≡ list_all sampling.is_long kinds.now }
{
    kinds.iter().all(|kind| is_long(*kind))
}

fn is_long(kind: ColType) -> bool
    ensures long { result ≡ sampling.is_long kind }
    ensures alone { result ≡ list_all sampling.is_long (kind ∷ []) }
{
    match kind {
        ColType::Long => true,
        _ => false,
    }
}

/// The offset of the calendar's buckets; none where they begin at the first observation.
fn offset_of(align: &Option<AlignTo>) -> Option<i32>
    ensures offset { result ≡ sampling.offset_of align.now }
{
    match align {
        None => Some(0),
        Some(AlignTo::First) => None,
        Some(AlignTo::Calendar(text)) => Some(minutes_or_none(text)),
    }
}

/// The offset in minutes that a text spells; none where it spells none, or where there is no text.
fn minutes_or_none(text: &Option<Text>) -> i32
    ensures minutes { Some result ≡ sampling.offset_by (AlignTo.Calendar text.now) }
{
    match text {
        None => 0,
        Some(text) => offset_of_text(text.text.bytes()).unwrap_or(0),
    }
}

/// Where an alignment is refused.
fn align_fault(align: &Option<AlignTo>) -> Option<Refusal>
    ensures least { result ≡ least (sampling.align_faults align.now) }
{
    match align {
        Some(AlignTo::Calendar(Some(text))) => {
            let is_offset = offset_of_text(text.text.bytes()).is_some();
            unless(is_offset, Code::Types, text.at)
        }
        _ => None,
    }
}

/// `hh:mm`, `+hh:mm` or `-hh:mm` in minutes.
fn offset_of_text(text: &[u8]) -> Option<i32>
    ensures minutes { result ≡ sampling.offset_of_text text.now }
{
    match text {
        [b'+', rest @ ..] => behind(minutes_of(rest)),
        [b'-', rest @ ..] => before(minutes_of(rest)),
        _ => behind(minutes_of(text)),
    }
}

/// So many minutes behind.
fn behind(minutes: Option<u16>) -> Option<i32>
    ensures behind { result ≡ sampling.behind minutes }
{
    match minutes {
        Some(minutes) => Some(i32::from(minutes)),
        None => None,
    }
}

/// So many minutes before.
fn before(minutes: Option<u16>) -> Option<i32>
    ensures before { result ≡ sampling.before minutes }
{
    match minutes {
        Some(minutes) => Some(-i32::from(minutes)),
        None => None,
    }
}

/// `hh:mm`, up to 23:59, in minutes.
fn minutes_of(text: &[u8]) -> Option<u16>
    ensures minutes { result ≡ sampling.minutes_of text.now }
{
    let [a, b, colon, d, e] = text else {
        return None;
    };
    clock(*a, *b, *colon, *d, *e)
}

/// The minutes of a time of the day by its characters.
fn clock(a: u8, b: u8, colon: u8, d: u8, e: u8) -> Option<u16>
    ensures minutes { result ≡ sampling.minutes_of (a ∷ b ∷ colon ∷ d ∷ e ∷ []) }
{
    if !is_digit(a) || !is_digit(b) || colon != b':' || !is_digit(d) || !is_digit(e) {
        return None;
    }
    let (hours, minutes) = (two_digits(a, b), two_digits(d, e));
    if hours <= 23 && minutes <= 59 {
        Some(hours * 60 + minutes)
    } else {
        None
    }
}

fn is_digit(byte: u8) -> bool
    ensures digit { result ≡ sampling.is_digit byte }
{
    b'0' <= byte && byte <= b'9'
}

/// The number of two digits.
fn two_digits(a: u8, b: u8) -> u16
    requires first { (48 ≤ a) × (a ≤ 57) }
    requires second { (48 ≤ b) × (b ≤ 57) }
    ensures number { result ≡ sampling.two_digits a b }
{
    u16::from(a - b'0') * 10 + u16::from(b - b'0')
}
