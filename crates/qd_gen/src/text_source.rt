//! A source over a text.
ghost use Rattle.std.specs.Prelude.{◌≡◌, ◌≤◌, ◌++◌, drop, length, min, take, IfOk, Ok, Some};
ghost use Rattle.qd_io.specs.Ends.{Counts, Reads};

use qd_base::Txt;
use qd_io::{Ends, IoFault, Source};
use std::marker::Model;

/// A source over a text that it owns: it gives the bytes in order, as many at a read as the buffer has room for. No read
/// fails or takes memory, and none copies more than it gives.
///
/// Contracts see the bytes that are left.
#[derive(Drop)]
pub struct TextSource {
    text: Txt,
    at: usize,
}

impl Model for TextSource {
    ghost use Rattle.std.specs.Prelude.{ℕ, List, drop, length, ◌≤◌};

    ghost Value = { List ℕ };

    ghost view = { λ s. drop s.at s.text };

    ghost invariant = { λ s. s.at ≤ length s.text };
}

impl TextSource {
    /// A source that gives the bytes of a text. It copies none of them and takes no memory.
    pub fn new(text: Txt) -> TextSource
        ensures left { result ≡ text }
    {
        TextSource { text, at: 0 }
    }
}

impl Ends for TextSource {
    ghost use Rattle.std.specs.Prelude.{Some, None, []};

    ghost stream = { λ source. record {
      input = Some source;
      output = None;
      reads_failed = 0;
      writes_failed = 0;
      input_lent = [];
      output_lent = [];
    } };
}

impl Source for TextSource {
    /// Gives as many of the bytes left as `buf` has room for, in time linear in these.
    fn read(&mut self, buf: &mut [u8]) -> Result<usize, IoFault>
        ensures most { result ≡ Ok (min (length buf.old) (length self.old)) }
        ensures left { self.new ≡ drop (length buf.old) self.old }
        ensures buffer { buf.new ≡ take (length buf.old) self.old ++ drop (length self.old) buf.old }
        ensures within { IfOk result (λ n. n ≤ length buf.old) }
        ensures told { Reads (Some self.old) (Some self.new) buf.new result }
        ensures counted { Counts 0 0 result }
    {
        let left = &self.text.bytes()[self.at..];
        let n = buf.len().min(left.len());
        buf[..n].copy_from_slice(&left[..n]);
        self.at += n;
        Ok(n)
    }
}
