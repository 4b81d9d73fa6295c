//! The dictionary over a hash set in order of insertion.
ghost use Rattle.std.specs.Prelude.{◌≡◌, ◌<◌, ◌≤◌, ◌^◌, [], Some, None, length, slice_get, IfOk, OnOk, OnErr};
ghost use Rattle.qd_base.specs.Dictionary.{id_in, id_for, with_text, AreDistinct};

use indexmap::IndexSet;
use qd_base::{Dictionary, MAX_TEXT_BYTES, Memory};
use std::alloc::Global;
use std::marker::Model;

/// A dictionary of symbols. Contracts see the list of its texts.
///
/// A text takes its own bytes, one allocation and about 40 bytes beside it.
#[derive(Drop)]
pub struct SymbolMap {
    alloc: Global,
    texts: IndexSet<Vec<u8>>,
}

impl Model for SymbolMap {
    ghost use Rattle.std.specs.Prelude.{ℕ, List};
    ghost use Rattle.qd_symbols.specs.Keys.{texts_of_keys, AreTexts};

    ghost Value = { List (List ℕ) };

    ghost view = { λ s. texts_of_keys s.texts.keys };

    ghost invariant = { λ s. AreTexts (texts_of_keys s.texts.keys) };
}

impl SymbolMap {
    /// Makes the empty dictionary. It takes no memory.
    pub fn new(alloc: Global) -> Result<SymbolMap, Memory>
        ensures empty { IfOk result (λ map. map ≡ []) }
    {
        Ok(SymbolMap {
            alloc,
            texts: IndexSet::new(alloc),
        })
    }

    /// Gives the number of texts, in constant time.
    pub fn len(&self) -> u64
        ensures count { result ≡ length self.now }
        ensures distinct { AreDistinct self.now }
    {
        self.texts.len() as u64
    }

    /// Gives the id of a text, where it is there. It costs time linear in the text, on average.
    pub fn id_of(&self, text: &[u8]) -> Option<u64>
        ensures id { result ≡ id_in self.now text.now }
    {
        match self.texts.get_index_of(text) {
            Some(id) => Some(id as u64),
            None => None,
        }
    }

    /// Lends the text of an id, in constant time.
    pub fn text_of(&self, id: u64) -> &[u8]
        requires { id < length self.now }
        ensures text { slice_get self.now id ≡ Some result.now }
    {
        self.texts.as_slice()[id as usize].as_slice()
    }

    /// Gives the id of a text of at most 65,535 bytes. A text that isn't there is copied, once, and goes behind the
    /// others. Where no memory is found, nothing is changed. It costs time linear in the text, amortised and on
    /// average.
    pub fn intern(&mut self, text: &[u8]) -> Result<u64, Memory>
        requires { length text.now ≤ MAX_TEXT_BYTES }
        ensures id { IfOk result (λ id. id ≡ id_for self.old text.now) }
        ensures texts { OnOk result (self.new ≡ with_text self.old text.now) }
        ensures few { OnOk result (length self.new < 2 ^ 64) }
        ensures err { OnErr result (self.new ≡ self.old) }
    {
        match self.texts.get_index_of(text) {
            Some(id) => Ok(id as u64),
            None => self.add(text),
        }
    }

    /// Copies a text that isn't there behind the others.
    fn add(&mut self, text: &[u8]) -> Result<u64, Memory>
        requires { id_in self.old text.now ≡ None }
        ensures id { IfOk result (λ id. id ≡ id_for self.old text.now) }
        ensures texts { OnOk result (self.new ≡ with_text self.old text.now) }
        ensures few { OnOk result (length self.new < 2 ^ 64) }
        ensures err { OnErr result (self.new ≡ self.old) }
    {
        let key = Vec::from_slice(self.alloc, text)?;
        let id = self.texts.len();
        self.texts.insert(key)?;
        Ok(id as u64)
    }
}

impl Dictionary for SymbolMap {
    ghost texts = { λ s. s };

    fn new(alloc: Global) -> Result<SymbolMap, Memory> {
        SymbolMap::new(alloc)
    }

    fn len(&self) -> u64 {
        self.len()
    }

    fn id_of(&self, text: &[u8]) -> Option<u64> {
        self.id_of(text)
    }

    fn text_of(&self, id: u64) -> &[u8] {
        self.text_of(id)
    }

    fn intern(&mut self, text: &[u8]) -> Result<u64, Memory> {
        self.intern(text)
    }
}
