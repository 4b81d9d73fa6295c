//! What a batch lends of its lines, without copying.
ghost use Rattle.std.specs.Prelude.{◌≡◌, ◌<◌, length, Some, slice_get};
ghost use Rattle.qd_ilp.specs.Kept.{SpanFits, ValueFits, PairFits, bytes_in, value_in, item_in, moment_in};
ghost use Rattle.qd_ilp.specs.View.{value_of, item_of};
ghost use Rattle.qd_ilp.specs.Whole.{HeadFits, row_in};

use crate::item::Pair;
use crate::row::Head;
use crate::value::{Kept, Span, When};
use std::marker::Model;

/// A value of a tag or a field.
#[derive(Clone, Copy, Debug)]
pub enum ValueView<'a> {
    /// The text of a tag.
    Tag(&'a [u8]),
    /// A quoted text.
    Text(&'a [u8]),
    /// An integer: any but the least of 64 bits, which stands for NULL.
    Long(i64),
    /// An integer out of that range.
    Huge,
    /// A truth word.
    Truth(bool),
    /// A value of no kind that a column takes.
    Other,
}

/// A tag or a field.
#[derive(Clone, Copy, Debug)]
pub struct ItemView<'a> {
    /// The name of the column.
    pub name: &'a [u8],
    /// Its value.
    pub value: ValueView<'a>,
}

/// A line that gives a row. Contracts see its table, its tags and then its fields, and its stamp.
#[derive(Debug, Drop)]
pub struct RowView<'a> {
    pub(crate) bytes: &'a [u8],
    pub(crate) pairs: &'a [Pair],
    pub(crate) table: Span,
    pub(crate) when: When,
}

impl<'a> Model for RowView<'a> {
    ghost use Rattle.std.specs.Prelude.{map, length, All};
    ghost use Rattle.qd_ilp.specs.Line.{Row};
    ghost use Rattle.qd_ilp.specs.Kept.{SpanFits, PairFits, bytes_in, item_in, moment_in};

    ghost Value = { Row };

    ghost view = { λ r. record { table = bytes_in r.bytes.now r.table; items = map (item_in r.bytes.now) r.pairs.now; moment = moment_in r.when } };

    ghost invariant = { λ r. SpanFits (length r.bytes.now) r.table × All (PairFits (length r.bytes.now)) r.pairs.now };
}

impl<'a> RowView<'a> {
    /// Lends the name of the table, in constant time.
    pub fn table(&self) -> &'a [u8]
        ensures table { result.now ≡ self.now.table }
    {
        lent(self.bytes, self.table)
    }

    /// Gives the number of tags and fields, in constant time.
    pub fn len(&self) -> usize
        ensures count { result ≡ length self.now.items }
    {
        self.pairs.len()
    }

    /// Lends the tag or the field at position `i`, in constant time: first the tags, then the fields, as they stand in
    /// the line.
    #[inline(always)]
    pub fn item(&self, i: usize) -> ItemView<'a>
        requires { i < length self.now.items }
        ensures item { slice_get self.now.items i ≡ Some (item_of result) }
    {
        item_lent(self.bytes, self.pairs[i])
    }

    /// Gives the stamp, or that the line has none, in constant time.
    pub fn stamp(&self) -> When
        ensures stamp { moment_in result ≡ self.now.moment }
    {
        self.when
    }
}

/// Lends a row.
pub(crate) fn row_lent<'a>(bytes: &'a [u8], pairs: &'a [Pair], head: Head) -> RowView<'a>
    requires { HeadFits bytes.now pairs.now head }
    ensures row { result ≡ row_in bytes.now pairs.now head }
{
    RowView {
        bytes,
        pairs: &pairs[head.first as usize..head.end as usize],
        table: head.table,
        when: head.when,
    }
}

/// Lends the bytes of a span.
#[inline(always)]
fn lent<'a>(bytes: &'a [u8], span: Span) -> &'a [u8]
    requires { SpanFits (length bytes.now) span }
    ensures bytes { result.now ≡ bytes_in bytes.now span }
{
    &bytes[span.start as usize..span.end as usize]
}

/// Lends a tag or a field.
#[inline(always)]
fn item_lent<'a>(bytes: &'a [u8], pair: Pair) -> ItemView<'a>
    requires { PairFits (length bytes.now) pair }
    ensures item { item_of result ≡ item_in bytes.now pair }
{
    ItemView {
        name: lent(bytes, pair.name),
        value: value_lent(bytes, pair.value),
    }
}

/// Lends a value.
#[inline(always)]
fn value_lent<'a>(bytes: &'a [u8], value: Kept) -> ValueView<'a>
    requires { ValueFits (length bytes.now) value }
    ensures value { value_of result ≡ value_in bytes.now value }
{
    match value {
        Kept::Tag(span) => ValueView::Tag(lent(bytes, span)),
        Kept::Text(span) => ValueView::Text(lent(bytes, span)),
        Kept::Long(number) => ValueView::Long(number),
        Kept::Huge => ValueView::Huge,
        Kept::Truth(truth) => ValueView::Truth(truth),
        Kept::Other => ValueView::Other,
    }
}
