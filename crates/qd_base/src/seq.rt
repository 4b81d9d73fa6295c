//! Lists that contracts see as lists, and nothing else.
ghost use Rattle.std.specs.Prelude.{◌≡◌, ◌+◌, ◌<◌, ◌≤◌, ◌==◌, List, [], ◌∷◌, ◌++◌, length, IfOk, OnOk, OnErr, Some, slice_get, insert};

use std::alloc::{AllocError, Global};
use std::marker::Model;

/// Want of memory: the one error of a call that can fail for nothing else.
///
/// It may come at any time, whatever the arguments are.
pub type Memory = AllocError;

/// A value that can be copied part by part.
///
/// It stands beside std's `Clone` because generic code has to know that the copy equals its source.
pub trait Duplicate {
    /// Gives an equal value, or finds no memory. It costs time and memory linear in the value's size.
    fn copy(&self) -> Result<Self, Memory>
        ensures same { IfOk result (λ other. other ≡ self.now) };
}

impl Duplicate for u32 {
    fn copy(&self) -> Result<u32, Memory> {
        Ok(*self)
    }
}

/// A list that grows at its end. Contracts see the list of its items.
///
/// It keeps the allocator that it was made with.
#[derive(Debug, Drop)]
pub struct Seq<T> {
    items: Vec<T>,
}

impl<T> Model for Seq<T> {
    ghost Value = { List T };

    ghost view = { λ s. s.items.items };
}

impl<T> Seq<T> {
    /// Makes the empty list. It takes no memory until something is pushed.
    pub fn new(alloc: Global) -> Seq<T>
        ensures empty { result ≡ [] }
    {
        Seq {
            items: Vec::new(alloc),
        }
    }

    /// Makes the empty list with room for `capacity` items: that many pushes move nothing and find their memory.
    /// It takes the memory at once, or finds none.
    pub fn with_capacity(alloc: Global, capacity: usize) -> Result<Seq<T>, Memory>
        ensures empty { IfOk result (λ made. made ≡ []) }
    {
        Ok(Seq {
            items: Vec::with_capacity(alloc, capacity)?,
        })
    }

    /// Gives the number of items, in constant time.
    pub fn len(&self) -> usize
        ensures count { result ≡ length self.now }
    {
        self.items.len()
    }

    /// Says whether there is no item, in constant time.
    pub fn is_empty(&self) -> bool
        ensures empty { result ≡ (length self.now == 0) }
    {
        self.items.is_empty()
    }

    /// Lends the item at position `i`, counted from 0, in constant time.
    pub fn get(&self, i: usize) -> &T
        requires { i < length self.now }
        ensures item { slice_get self.now i ≡ Some result.now }
    {
        &self.items[i]
    }

    /// Lends all items, in order, in constant time.
    pub fn as_slice(&self) -> &[T]
        ensures items { result.now ≡ self.now }
    {
        self.items.as_slice()
    }
}

impl<T: Drop> Seq<T> {
    /// Adds an item at the end, in amortised constant time. Where no memory is found, the list stays as it is.
    pub fn push(&mut self, item: T) -> Result<(), Memory>
        ensures ok { OnOk result (self.new ≡ self.old ++ item ∷ []) }
        ensures err { OnErr result (self.new ≡ self.old) }
    {
        self.items.push(item)?;
        Ok(())
    }

    /// Puts an item in front of the one at position `i`, or at the end. It moves the items behind.
    /// Where no memory is found, the list stays as it is.
    pub fn insert(&mut self, i: usize, item: T) -> Result<(), Memory>
        requires { i ≤ length self.old }
        ensures ok { OnOk result (self.new ≡ insert self.old i item) }
        ensures err { OnErr result (self.new ≡ self.old) }
    {
        self.items.insert(i, item)?;
        Ok(())
    }
}

impl<T: Duplicate + Drop> Seq<T> {
    /// Gives an equal list of copied items, in time and memory linear in their size.
    pub fn copy(&self) -> Result<Seq<T>, Memory>
        ensures same { IfOk result (λ other. other ≡ self.now) }
    {
        let mut items = Vec::with_capacity(*self.items.allocator(), self.items.len())?;
        for item in &self.items {
            items.push(item.copy()?)?;
        }
        Ok(Seq { items })
    }
}

impl<T: Duplicate + Drop> Duplicate for Seq<T> {
    fn copy(&self) -> Result<Seq<T>, Memory> {
        self.copy()
    }
}
