//! Lists whose items are found by name.
ghost use Rattle.std.specs.Prelude.{◌≡◌, ◌<◌, ◌≤◌, ◌==◌, List, ℕ, [], ◌∷◌, ◌++◌, length, map, position, IfOk, IfErr, OnOk, OnErr, Some, slice_get, slice_index_or};
ghost use Rattle.std.specs.Str.{str_eq_ignore_ascii_case};
ghost use Rattle.qd_base.specs.NameIndex.{name_cmp, with_place, IsAt, IsGap, IsIndex};

use crate::names::name_order;
use crate::seq::{Duplicate, Memory};
use std::alloc::Global;
use std::cmp::Ordering;
use std::marker::Model;

/// A value with a name.
pub trait Named {
    ghost name_of: { Self → List ℕ };

    /// Lends the name, in constant time.
    fn name(&self) -> &[u8]
        ensures name { result.now ≡ name_of self.now };
}

/// A list that grows at its end, whose items are found by name. Contracts see the list of its items.
///
/// It keeps the allocator that it was made with, and beside the items at most one number for each.
#[derive(Debug, Drop)]
pub struct NamedList<T: Named> {
    pub(crate) items: Vec<T>,
    /// Where the names stand, in the order of the names: of those that are one, the first alone.
    order: Vec<usize>,
}

impl<T: Named> Model for NamedList<T> {
    ghost use Rattle.std.specs.Prelude.{List, [], map};

    ghost Value = { List T };

    ghost use Rattle.qd_base.specs.NameIndex.{name_cmp, IsIndex};

    ghost view = { λ l. l.items.items };

    ghost invariant = { λ l. IsIndex name_cmp [] (map T.name_of l.items.items) l.order.items };
}

impl<T: Named> NamedList<T> {
    /// Makes the empty list. It takes no memory until something is pushed.
    pub fn new(alloc: Global) -> NamedList<T>
        ensures empty { result ≡ [] }
    {
        NamedList {
            items: Vec::new(alloc),
            order: Vec::new(alloc),
        }
    }

    /// Gives the number of items, in constant time.
    pub fn len(&self) -> usize
        ensures count { result ≡ length self.now }
    {
        self.items.len()
    }

    /// Says whether there is no item, in constant time.
    pub fn is_empty(&self) -> bool
        ensures empty { result ≡ (length self.now == 0) }
    {
        self.items.is_empty()
    }

    /// Lends the item at position `i`, counted from 0, in constant time.
    pub fn get(&self, i: usize) -> &T
        requires { i < length self.now }
        ensures item { slice_get self.now i ≡ Some result.now }
    {
        &self.items[i]
    }

    /// Lends all items, in order, in constant time.
    pub fn as_slice(&self) -> &[T]
        ensures items { result.now ≡ self.now }
    {
        self.items.as_slice()
    }

    /// Gives the position of the first item of a name, where there is one. ASCII case is ignored. It costs time
    /// logarithmic in the number of items and linear in the longest name, and takes no memory.
    pub fn find(&self, name: &[u8]) -> Option<usize>
        ensures position { result ≡ position (λ x. str_eq_ignore_ascii_case (T.name_of x) name.now) self.now }
    {
        match find_place(self.items.as_slice(), self.order.as_slice(), name) {
            Ok(k) => Some(self.order[k]),
            Err(_) => None,
        }
    }
}

impl<T: Named + Drop> NamedList<T> {
    /// Adds an item at the end. Where no memory is found, the list stays as it is. It costs the time of `find`, and
    /// moves at most one number for each item.
    pub fn push(&mut self, item: T) -> Result<(), Memory>
        ensures ok { OnOk result (self.new ≡ self.old ++ item ∷ []) }
        ensures err { OnErr result (self.new ≡ self.old) }
    {
        let place = find_place(self.items.as_slice(), self.order.as_slice(), item.name());
        self.items.reserve(1)?;
        add_place(&mut self.order, place, self.items.len())?;
        self.items.push(item)?;
        Ok(())
    }
}

impl<T: Named + Duplicate + Drop> NamedList<T> {
    /// Gives an equal list of copied items, in time and memory linear in their size.
    pub fn copy(&self) -> Result<NamedList<T>, Memory>
        ensures same { IfOk result (λ other. other ≡ self.now) }
    {
        let mut items = Vec::with_capacity(*self.items.allocator(), self.items.len())?;
        for item in &self.items {
            items.push(item.copy()?)?;
        }
        let order = Vec::from_slice(*self.order.allocator(), self.order.as_slice())?;
        Ok(NamedList { items, order })
    }
}

impl<T: Named + Duplicate + Drop> Duplicate for NamedList<T> {
    fn copy(&self) -> Result<NamedList<T>, Memory> {
        self.copy()
    }
}

/// Says where in the order a name stands, or would stand.
fn find_place<T: Named>(items: &[T], order: &[usize], name: &[u8]) -> Result<usize, usize>
    requires index { IsIndex name_cmp [] (map T.name_of items.now) order.now }
    ensures found { IfOk result (IsAt name_cmp [] (map T.name_of items.now) order.now name.now) }
    ensures absent { IfErr result (IsGap name_cmp [] (map T.name_of items.now) order.now name.now) }
{
    order.binary_search_by(|at| order_at(items, *at, name))
}

/// Says which comes first: the name of the item at a position, or this one. No item has no bytes.
fn order_at<T: Named>(items: &[T], at: usize, name: &[u8]) -> Ordering
    ensures order { result ≡ name_cmp (slice_index_or (map T.name_of items.now) at []) name.now }
{
    match items.get(at) {
        Some(item) => name_order(item.name(), name),
        None => name_order(&[], name),
    }
}

/// Adds a position to the order where its name is new.
fn add_place(order: &mut Vec<usize>, place: Result<usize, usize>, at: usize) -> Result<(), Memory>
    requires { IfErr place (λ k. k ≤ length order.old.items) }
    ensures ok { OnOk result (order.new.items ≡ with_place order.old.items place at) }
    ensures err { OnErr result (order.new.items ≡ order.old.items) }
{
    match place {
        Ok(_) => Ok(()),
        Err(k) => Ok(order.insert(k, at)?),
    }
}
