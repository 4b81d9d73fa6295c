//! Bytes that come at one end and go at the other.
ghost use Rattle.std.specs.Prelude.{◌≡◌, ◌≤◌, [], ◌++◌, length, drop, OnOk, OnErr};

use qd_base::Memory;
use std::alloc::Global;
use std::marker::Model;

/// A queue of bytes. Contracts see the bytes in it, in order.
#[derive(Drop)]
pub(crate) struct Queue {
    bytes: Vec<u8>,
    at: usize,
}

impl Model for Queue {
    ghost use Rattle.std.specs.Prelude.{ℕ, ◌≤◌, List, drop, vec_len};

    ghost Value = { List ℕ };

    ghost view = { λ q. drop q.at q.bytes.items };

    ghost invariant = { λ q. q.at ≤ vec_len q.bytes };
}

impl Queue {
    /// Makes an empty queue, which takes no memory.
    pub fn new(alloc: Global) -> Queue
        ensures empty { result ≡ [] }
    {
        Queue {
            bytes: Vec::new(alloc),
            at: 0,
        }
    }

    /// Lends the bytes in the queue, in constant time.
    pub fn as_slice(&self) -> &[u8]
        ensures bytes { result.now ≡ self.now }
    {
        &self.bytes[self.at..]
    }

    /// Adds bytes at the end, in amortised time linear in their number. Where no memory is found, the queue stays as
    /// it is.
    pub fn append(&mut self, piece: &[u8]) -> Result<(), Memory>
        ensures ok { OnOk result (self.new ≡ self.old ++ piece.now) }
        ensures err { OnErr result (self.new ≡ self.old) }
    {
        self.compact();
        self.bytes.extend_from_slice(piece)?;
        Ok(())
    }

    /// Takes the first `n` bytes away, in constant time.
    pub fn skip(&mut self, n: usize)
        requires { n ≤ length self.old }
        ensures rest { self.new ≡ drop n self.old }
    {
        self.at += n;
    }

    // Moves the bytes to the start of their vector, where at least as many have gone as are left.
    fn compact(&mut self)
        ensures same { self.new ≡ self.old }
    {
        let left = self.bytes.len() - self.at;
        if left <= self.at {
            self.bytes.copy_within(self.at.., 0);
            self.bytes.truncate(left);
            self.at = 0;
        }
    }
}
