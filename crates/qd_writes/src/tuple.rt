//! What a row of INSERT becomes, and where it is refused.
ghost use Rattle.std.specs.Prelude.{◌≡◌, ◌==◌, ℕ, All, IfOk, length, map};
ghost use Rattle.std.specs.List.{flat_map, list_any, zip};
ghost use Rattle.qd_meaning.specs.Refusals.{least};
ghost use Rattle.qd_meaning.specs.Inserting as spec;
ghost use Rattle.qd_meaning.specs.Inserting.{Target};
ghost use Rattle.qd_writes.specs.Literals.{lent_cell, taking, IsFit};
ghost use Rattle.qd_writes.specs.Placing.{cells_of};

use crate::judge::both;
use crate::literal::{Lent, Taking, taken};
use qd_base::{Code, ColType, MAX_TEXT_BYTES, Memory};
use qd_meaning::{Refusal, unless};
use qd_sql_ast::{Lit, Tuple};
use std::alloc::Global;

/// A column that a row gives a value: its position and its type.
pub(crate) type Target = (usize, ColType);

/// What the literals of a row become.
#[derive(Drop)]
pub(crate) struct Judged<'a> {
    /// The cell of each literal that has a column, lent; NULL where the column doesn't take it.
    pub(crate) views: Vec<Lent<'a>>,
    /// The refusal that is answered for the row.
    pub(crate) found: Option<Refusal>,
}

/// Reads a row whose literals are meant for these columns, where it is known whether the designated one is among them. Each
/// literal is read once. It costs time and memory linear in the row.
pub(crate) fn judged_tuple<'a>(
    alloc: Global,
    time_col: usize,
    timed: bool,
    targets: &[Target],
    tuple: &'a Tuple,
) -> Result<Judged<'a>, Memory>
    requires { timed ≡ list_any (λ (x : Target). x.0 == time_col) targets.now }
    ensures least { IfOk result (λ made. made.found ≡ least (spec.tuple_faults time_col targets.now tuple.now)) }
    ensures cells { IfOk result (λ made. map lent_cell made.views.items ≡ cells_of targets.now tuple.now.lits) }
    ensures fit { IfOk result (λ made. All IsFit (map lent_cell made.views.items)) }
{
    let lits = tuple.lits.as_slice();
    let is_whole = lits.len() == targets.len();
    let whole = unless(is_whole, Code::Types, tuple.at);
    let time = both(whole, unless(timed, Code::TimeLiteral, tuple.at));
    let Judged { views, found } = judged_literals(alloc, time_col, targets, lits)?;
    Ok(Judged {
        views,
        found: both(time, found),
    })
}

/// Reads literals, each with its column.
fn judged_literals<'a>(
    alloc: Global,
    time_col: usize,
    targets: &[Target],
    lits: &'a [Lit],
) -> Result<Judged<'a>, Memory>
    ensures least { IfOk result (λ made. made.found ≡ least (flat_map (spec.literal_faults time_col) (zip targets.now lits.now))) }
    ensures cells { IfOk result (λ made. map lent_cell made.views.items ≡ cells_of targets.now lits.now) }
    ensures fit { IfOk result (λ made. All IsFit (map lent_cell made.views.items)) }
{
    let count = targets.len().min(lits.len());
    let mut views = Vec::with_capacity(alloc, count)?;
    let mut found = None;
    for place in 0..count {
        let (col, kind) = targets[place];
        let (view, fault) = judged_literal(col == time_col, kind, &lits[place]);
        views.push(view)?;
        found = both(found, fault);
    }
    Ok(Judged { views, found })
}

/// Gives the cell that a literal is in a column, which may be the designated one, and its refusal.
fn judged_literal<'a>(is_time: bool, kind: ColType, literal: &'a Lit) -> (Lent<'a>, Option<Refusal>)
    ensures cell { lent_cell result.0 ≡ (spec.taken_by kind literal.now).0 }
    ensures least { (time_col col : ℕ) → is_time ≡ (col == time_col) → result.1 ≡ least (spec.literal_faults time_col ((col, kind), literal.now)) }
    ensures fit { IsFit (lent_cell result.0) }
{
    let (view, unsuited) = apart(taken(kind, literal));
    let suited = both(unsuited, null_fault(is_time, literal));
    (view, both(suited, length_fault(literal)))
}

/// Gives the cell that is taken, or NULL, and the refusal of a literal that isn't.
fn apart<'a>(taken: Taking<'a>) -> (Lent<'a>, Option<Refusal>)
    requires { IfOk taken (λ view. IsFit (lent_cell view)) }
    ensures cell { lent_cell result.0 ≡ (taking taken.entry).0 }
    ensures least { result.1 ≡ least (taking taken.entry).1 }
    ensures fit { IsFit (lent_cell result.0) }
{
    match taken {
        Ok(view) => (view, None),
        Err(refusal) => (Lent::Null, Some(refusal)),
    }
}

/// Gives the refusal of NULL for the designated column.
fn null_fault(is_time: bool, literal: &Lit) -> Option<Refusal>
    ensures least { (time_col col : ℕ) (kind : ColType) → is_time ≡ (col == time_col) → result ≡ least (spec.null_faults time_col (col, kind) literal.now) }
{
    match literal {
        Lit::Null(place) => unless(!is_time, Code::TimeLiteral, *place),
        _ => None,
    }
}

/// Gives the refusal of a text that is too long.
fn length_fault(literal: &Lit) -> Option<Refusal>
    ensures least { result ≡ least (spec.length_faults literal.now) }
{
    match literal {
        Lit::Text(text) => {
            let is_short = text.text.bytes().len() <= MAX_TEXT_BYTES;
            unless(is_short, Code::TextTooLong, text.at)
        }
        _ => None,
    }
}
