//! How the rows of two positions stand by their keys.
ghost use Rattle.std.specs.Prelude.{◌≡◌, map};
ghost use Rattle.std.specs.Bool.{OnTrue};
ghost use Rattle.qd_meaning.specs.Ordered.{in_direction};
ghost use Rattle.qd_order.specs.Keys.{lent};
ghost use Rattle.qd_order.specs.Orders.{before, cell_in, compared, keyed_cmp, IsOfOneClass, OrdersAlike};
ghost use Rattle.qd_order.specs.Seen.{seen};

use crate::columns::KeyColumn;
use crate::keys::Key;
use std::cmp::Ordering;

/// How the rows of two positions stand: the first key on which they differ decides.
pub(crate) fn compare(columns: &[KeyColumn<'_>], i: usize, j: usize) -> Ordering
    ensures order { result ≡ compared (map seen columns.now) i j }
{
    for column in columns {
        let found = compare_in(column, i, j);
        if found.is_ne() {
            return found;
        }
    }
    Ordering::Equal
}

/// Whether comparisons give the order of the meaning: where no key has values of several classes, as no column has. It
/// costs time linear in the number of values.
pub(crate) fn orders_alike(columns: &[KeyColumn<'_>]) -> bool
    ensures alike { OnTrue result (OrdersAlike (map seen columns.now)) }
{
    for column in columns {
        if !is_of_one_class(column) {
            return false;
        }
    }
    true
}

/// Whether the row of a position stands before that of another by the meaning, in which values of two classes stand in
/// no order.
pub(crate) fn comes_first(columns: &[KeyColumn<'_>], i: usize, j: usize) -> bool
    ensures before { result ≡ before (map seen columns.now) i j }
{
    for column in columns {
        let (x, y) = (key_at(column, i), key_at(column, j));
        if is_first(column.descending, x, y) {
            return true;
        }
        if !x.is_same(y) {
            return false;
        }
    }
    false
}

/// How the rows of two positions stand by one key.
fn compare_in(column: &KeyColumn<'_>, i: usize, j: usize) -> Ordering
    ensures { result ≡ keyed_cmp (seen column.now) i j }
{
    if column.descending {
        key_at(column, j).compare(key_at(column, i))
    } else {
        key_at(column, i).compare(key_at(column, j))
    }
}

/// The key of a position; NULL where there is no such row.
fn key_at<'a>(column: &KeyColumn<'a>, i: usize) -> Key<'a>
    ensures { lent result ≡ cell_in (seen column.now) i }
{
    if i < column.values.len() {
        column.values[i]
    } else {
        Key::Null
    }
}

/// Whether a key stands before another by the meaning, in a key's direction.
fn is_first<'a>(descending: bool, x: Key<'a>, y: Key<'a>) -> bool
    ensures { result ≡ in_direction descending (lent x.entry) (lent y.entry) }
{
    if descending {
        y.is_below(x)
    } else {
        x.is_below(y)
    }
}

/// Whether no two values of a column are of two classes.
fn is_of_one_class(column: &KeyColumn<'_>) -> bool
    ensures { OnTrue result (IsOfOneClass (seen column.now).0) }
{
    let mut lead = Key::Null;
    for key in &column.values {
        match lead.joined(*key) {
            Some(next) => lead = next,
            None => return false,
        }
    }
    true
}
