//! Values of tags and fields, as columns take them.
ghost use Rattle.std.specs.Prelude.{◌≡◌};
ghost use Rattle.qd_ilp.specs.View.{value_of};
ghost use Rattle.qd_ilp.specs.Transaction as line;

use qd_base::{ColType, MAX_TEXT_BYTES};
use qd_ilp::ValueView;

/// Gives the type of the column that a value makes where the table has none of the name.
pub(crate) fn kind_of(value: ValueView<'_>) -> ColType
    ensures kind { result ≡ line.kind_of (value_of value.entry) }
{
    match value {
        ValueView::Tag(_) => ColType::Symbol,
        ValueView::Text(_) => ColType::Varchar,
        ValueView::Long(_) => ColType::Long,
        ValueView::Huge => ColType::Long,
        ValueView::Truth(_) => ColType::Bool,
        ValueView::Other => ColType::Varchar,
    }
}

/// Says whether a column of a type takes a value.
pub(crate) fn suits(kind: ColType, value: ValueView<'_>) -> bool
    ensures suits { result ≡ line.suits kind (value_of value.entry) }
{
    match (kind, value) {
        (ColType::Symbol, ValueView::Tag(_)) => true,
        (ColType::Symbol, ValueView::Text(_)) => true,
        (ColType::Varchar, ValueView::Tag(_)) => true,
        (ColType::Varchar, ValueView::Text(_)) => true,
        (ColType::Long, ValueView::Long(_)) => true,
        (ColType::Long, ValueView::Huge) => true,
        (ColType::Bool, ValueView::Truth(_)) => true,
        _ => false,
    }
}

/// Says whether a value is of no kind that a column takes.
pub(crate) fn is_float(value: ValueView<'_>) -> bool
    ensures float { result ≡ line.is_float (value_of value.entry) }
{
    match value {
        ValueView::Other => true,
        _ => false,
    }
}

/// Says whether a value is an integer out of range.
pub(crate) fn is_huge(value: ValueView<'_>) -> bool
    ensures huge { result ≡ line.is_huge (value_of value.entry) }
{
    match value {
        ValueView::Huge => true,
        _ => false,
    }
}

/// Says whether a value is a text that no cell holds.
pub(crate) fn is_long_text(value: ValueView<'_>) -> bool
    ensures long { result ≡ line.is_long_text (value_of value.entry) }
{
    match value {
        ValueView::Tag(text) => MAX_TEXT_BYTES < text.len(),
        ValueView::Text(text) => MAX_TEXT_BYTES < text.len(),
        _ => false,
    }
}
