//! The positions of the texts that came last.
ghost use Rattle.std.specs.Prelude.{◌<◌};

/// How many places there are.
const PLACES: usize = 256;

/// The positions that texts had last, each at a place by a few of the text's bytes. Each is a guess: whoever takes one compares
/// the text that stands there.
#[derive(Drop)]
pub(crate) struct Recent {
    ids: [u16; PLACES],
}

impl Recent {
    /// No text came yet.
    pub(crate) fn new() -> Recent {
        Recent { ids: [0; PLACES] }
    }

    /// The position that a text may have.
    pub(crate) fn guess(&self, text: &[u8]) -> u64 {
        self.ids[place_of(text)] as u64
    }

    /// Notes the position of a text. Those of 65,536 or more are passed over.
    pub(crate) fn note(&mut self, text: &[u8], id: u64) {
        if let Ok(id) = u16::try_from(id) {
            self.ids[place_of(text)] = id;
        }
    }
}

/// A place for a text, by its first byte and its last two.
fn place_of(text: &[u8]) -> usize
    ensures within { result < 256 }
{
    if text.is_empty() {
        return 0;
    }
    let first = text[0] as usize;
    let before = text[text.len().saturating_sub(2)] as usize;
    let last = text[text.len() - 1] as usize;
    (7 * first + 25 * before + last) % PLACES
}
