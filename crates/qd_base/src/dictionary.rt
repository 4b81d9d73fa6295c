//! What a column of symbols needs of its dictionary.
ghost use Rattle.std.specs.Prelude.{◌≡◌, ℕ, ◌<◌, ◌≤◌, ◌^◌, List, [], Some, length, slice_get, IfOk, OnOk, OnErr};
ghost use Rattle.qd_base.specs.Dictionary.{id_in, id_for, with_text, AreDistinct};

use crate::limits::MAX_TEXT_BYTES;
use crate::seq::Memory;
use std::alloc::Global;

/// A dictionary: distinct texts, each known by its position, which is its id.
///
/// A SYMBOL column (QuestDB documentation: symbol) holds ids and a dictionary in place of its texts. Texts are added
/// and never taken out, so an id keeps its text.
pub trait Dictionary: Drop {
    /// The texts, in the order of their ids.
    ghost texts: { Self → List (List ℕ) };

    /// Makes the empty dictionary.
    fn new(alloc: Global) -> Result<Self, Memory>
        ensures empty { IfOk result (λ dictionary. texts dictionary ≡ []) };

    /// Gives the number of texts, in constant time.
    fn len(&self) -> u64
        ensures count { result ≡ length (texts self.now) }
        ensures distinct { AreDistinct (texts self.now) };

    /// Gives the id of a text, where the dictionary has it.
    fn id_of(&self, text: &[u8]) -> Option<u64>
        ensures id { result ≡ id_in (texts self.now) text.now };

    /// Lends the text of an id.
    fn text_of(&self, id: u64) -> &[u8]
        requires { id < length (texts self.now) }
        ensures text { slice_get (texts self.now) id ≡ Some result.now };

    /// Gives the id of a text of at most 65,535 bytes. A text that the dictionary lacks is copied and goes behind
    /// the others. Where no memory is found, nothing is changed.
    fn intern(&mut self, text: &[u8]) -> Result<u64, Memory>
        requires { length text.now ≤ MAX_TEXT_BYTES }
        ensures id { IfOk result (λ id. id ≡ id_for (texts self.old) text.now) }
        ensures texts { OnOk result (texts self.new ≡ with_text (texts self.old) text.now) }
        ensures few { OnOk result (length (texts self.new) < 2 ^ 64) }
        ensures err { OnErr result (texts self.new ≡ texts self.old) };
}
