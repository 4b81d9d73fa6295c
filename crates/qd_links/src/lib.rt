//! Doubly linked lists of nodes that are numbers: the caller keeps what a node stands for, and a
//! `Links` keeps in which list each node stands, and where.
//!
//! A node is in one list at most, so an array of two numbers a node holds all the lists, and to put
//! a node into a list or to take it out takes constant time and no memory. The form is that of the
//! Linux kernel's `list_head`: each list is a ring through a head of its own.
#![tactic(auto)]

ghost use Rattle.std.specs.Prelude.{◌≡◌, ℕ, ◌+◌, ◌<◌, ◌≤◌, ◌++◌, ◌∷◌, [], ◌↔◌, IsTrue, IfSome, IfOk, OnOk, OnErr, None, length, drop, insert, remove, replicate, slice_get};
ghost use Rattle.qd_links.specs.Lists.{list_at, with_list, StandsAt, IsListed, StandOnce};

mod ring;

use ring::{Link, add_slots, insert_slot, node_beside, remove_slot};
pub use std::alloc::AllocError as Memory;
use std::alloc::Global;
use std::marker::Model;

/// Lists of nodes. The nodes and the lists are numbered from 0 on, and a node is in one list at
/// most. Each call wants numbers of nodes and lists that there are.
///
/// Takes 16 bytes a node and 16 bytes a list.
#[derive(Debug, Drop)]
pub struct Links {
    // A slot for the head of each list, and then one for each node.
    ring: Vec<Link>,
    heads: usize,
}

impl Model for Links {
    ghost use Rattle.qd_links.specs.Lists.{Lists};

    ghost Value = { Lists };

    ghost use Rattle.qd_links.specs.Ring.{lists_of, HoldsLists};

    ghost view = { λ s. lists_of s.ring.items s.heads };

    ghost invariant = { λ s. HoldsLists s.ring.items s.heads (lists_of s.ring.items s.heads) };
}

impl Links {
    /// Empty lists, and nodes that are in none of them.
    ///
    /// Takes time and memory linear in `nodes + lists`.
    ///
    /// `Memory`: there was no room for them.
    pub fn with_nodes(alloc: Global, nodes: usize, lists: usize) -> Result<Links, Memory>
        ensures nodes { IfOk result (λ links. links.nodes ≡ nodes) }
        ensures lists { IfOk result (λ links. links.lists ≡ replicate lists []) }
        ensures unlisted { IfOk result (λ links. (node : ℕ) → ¬ IsListed links node) }
        ensures once { IfOk result StandOnce }
    {
        let mut ring = Vec::new(alloc);
        add_slots(&mut ring, lists)?;
        add_slots(&mut ring, nodes)?;
        Ok(Links { ring, heads: lists })
    }

    /// Adds `nodes` nodes that are in no list. They get the next numbers.
    ///
    /// Takes time linear in `nodes`, amortised over the calls, and memory for as many.
    ///
    /// `Memory`: there was no room for them, and all is as before.
    pub fn grow(&mut self, nodes: usize) -> Result<(), Memory>
        ensures nodes { OnOk result (self.new.nodes ≡ self.old.nodes + nodes) }
        ensures lists { OnOk result (self.new.lists ≡ self.old.lists) }
        ensures unlisted { (node : ℕ) → self.old.nodes ≤ node → ¬ IsListed self.new node }
        ensures once { StandOnce self.new }
        ensures err { OnErr result (self.new ≡ self.old) }
    {
        add_slots(&mut self.ring, nodes)
    }

    /// Puts a node that is in no list at the end of a list. Takes constant time and no memory.
    pub fn push_back(&mut self, list: usize, node: usize)
        requires list_in { list < length self.old.lists }
        requires node_in { node < self.old.nodes }
        requires unlisted { ¬ IsListed self.old node }
        ensures appended { self.new ≡ with_list self.old list (list_at self.old list ++ node ∷ []) }
        ensures listed { IsListed self.new node }

        // There are as many nodes and lists as before.
        ensures nodes { self.new.nodes ≡ self.old.nodes }
        ensures count { length self.new.lists ≡ length self.old.lists }
        ensures once { StandOnce self.new }
    {
        insert_slot(&mut self.ring, list, self.heads + node);
    }

    /// Puts `node`, which is in no list, right before `at`, into the list that `at` is in. Takes
    /// constant time and no memory.
    pub fn insert_before(&mut self, at: usize, node: usize)
        requires node_in { node < self.old.nodes }
        requires listed { IsListed self.old at }
        requires unlisted { ¬ IsListed self.old node }
        ensures inserted { (k i : ℕ) → StandsAt self.old k i at
            → self.new ≡ with_list self.old k (insert (list_at self.old k) i node) }
        ensures listed { IsListed self.new node }

        // There are as many nodes and lists as before.
        ensures nodes { self.new.nodes ≡ self.old.nodes }
        ensures count { length self.new.lists ≡ length self.old.lists }
        ensures once { StandOnce self.new }
    {
        insert_slot(&mut self.ring, self.heads + at, self.heads + node);
    }

    /// Takes a node out of the list that it is in, and it is in no list then. Takes constant time and
    /// no memory.
    pub fn unlink(&mut self, node: usize)
        requires { IsListed self.old node }
        ensures removed { (k i : ℕ) → StandsAt self.old k i node
            → self.new ≡ with_list self.old k (remove (list_at self.old k) i) }
        ensures unlisted { ¬ IsListed self.new node }

        // There are as many nodes and lists as before.
        ensures nodes { self.new.nodes ≡ self.old.nodes }
        ensures count { length self.new.lists ≡ length self.old.lists }
        ensures once { StandOnce self.new }
    {
        remove_slot(&mut self.ring, self.heads + node);
    }

    /// Takes the first node out of a list, if there is one. Takes constant time and no memory.
    pub fn pop_front(&mut self, list: usize) -> Option<usize>
        requires { list < length self.old.lists }
        ensures first { result ≡ slice_get (list_at self.old list) 0 }
        ensures in_range { IfSome result (λ node. node < self.old.nodes) }
        ensures rest { self.new ≡ with_list self.old list (drop 1 (list_at self.old list)) }
        ensures unlisted { IfSome result (λ node. ¬ IsListed self.new node) }

        // There are as many nodes and lists as before.
        ensures nodes { self.new.nodes ≡ self.old.nodes }
        ensures count { length self.new.lists ≡ length self.old.lists }
        ensures once { StandOnce self.new }
    {
        let node = self.front(list)?;
        self.unlink(node);
        Some(node)
    }

    /// The first node of a list, if there is one. Takes constant time and no memory.
    pub fn front(&self, list: usize) -> Option<usize>
        requires { list < length self.now.lists }
        ensures first { result ≡ slice_get (list_at self.now list) 0 }
        ensures in_range { IfSome result (λ node. node < self.now.nodes) }
        ensures once { StandOnce self.now }
    {
        node_beside(self.heads, list, self.ring[list].next)
    }

    /// The node behind a node in its list; none for the last node and for one that is in no list.
    /// Takes constant time and no memory.
    pub fn next_of(&self, node: usize) -> Option<usize>
        requires { node < self.now.nodes }
        ensures next { (k i : ℕ) → StandsAt self.now k i node
            → result ≡ slice_get (list_at self.now k) (i + 1) }
        ensures unlisted { ¬ IsListed self.now node → result ≡ None }
        ensures in_range { IfSome result (λ other. other < self.now.nodes) }
        ensures once { StandOnce self.now }
    {
        let slot = self.heads + node;
        node_beside(self.heads, slot, self.ring[slot].next)
    }

    /// The node before a node in its list; none for the first node and for one that is in no list.
    /// Takes constant time and no memory.
    pub fn prev_of(&self, node: usize) -> Option<usize>
        requires { node < self.now.nodes }
        ensures first { (k : ℕ) → StandsAt self.now k 0 node → result ≡ None }
        ensures prev { (k i : ℕ) → StandsAt self.now k (i + 1) node
            → result ≡ slice_get (list_at self.now k) i }
        ensures unlisted { ¬ IsListed self.now node → result ≡ None }
        ensures in_range { IfSome result (λ other. other < self.now.nodes) }
        ensures once { StandOnce self.now }
    {
        let slot = self.heads + node;
        node_beside(self.heads, slot, self.ring[slot].prev)
    }

    /// Whether a node is in a list. Takes constant time and no memory.
    pub fn in_list(&self, node: usize) -> bool
        requires { node < self.now.nodes }
        ensures listed { IsTrue result ↔ IsListed self.now node }
        ensures once { StandOnce self.now }
    {
        let slot = self.heads + node;
        self.ring[slot].next != slot
    }
}
