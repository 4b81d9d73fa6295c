//! Bytes with an owner.
ghost use Rattle.std.specs.Prelude.{◌≡◌, ℕ, List, IfOk};

use crate::seq::{Duplicate, Memory};
use std::alloc::Global;
use std::marker::Model;

/// A text: a list of bytes, of any values. Contracts see that list.
#[derive(Debug, Drop)]
pub struct Txt {
    bytes: Vec<u8>,
}

impl Model for Txt {
    ghost Value = { List ℕ };

    ghost view = { λ t. t.bytes.items };
}

impl Txt {
    /// Copies the bytes. It costs time and memory linear in their number.
    pub fn from_bytes(alloc: Global, bytes: &[u8]) -> Result<Txt, Memory>
        ensures same { IfOk result (λ text. text ≡ bytes.now) }
    {
        let bytes = Vec::from_slice(alloc, bytes)?;
        Ok(Txt { bytes })
    }

    /// Takes a vector of bytes as it is, with no copy.
    pub fn from_vec(bytes: Vec<u8>) -> Txt
        ensures same { result ≡ bytes.items }
    {
        Txt { bytes }
    }

    /// Lends the bytes, in constant time.
    pub fn bytes(&self) -> &[u8]
        ensures same { result.now ≡ self.now }
    {
        self.bytes.as_slice()
    }

    /// Gives an equal text with memory of its own. It costs time and memory linear in the bytes.
    pub fn copy(&self) -> Result<Txt, Memory>
        ensures same { IfOk result (λ other. other ≡ self.now) }
    {
        let bytes = self.bytes.clone()?;
        Ok(Txt { bytes })
    }
}

impl Duplicate for Txt {
    fn copy(&self) -> Result<Txt, Memory> {
        self.copy()
    }
}
