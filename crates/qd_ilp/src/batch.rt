//! A batch of lines.
ghost use Rattle.std.specs.Prelude.{◌≡◌, ◌<◌, ◌+◌, ◌∷◌, ◌++◌, ◌^◌, length, IfOk};
ghost use Rattle.std.specs.List.{list_any};
ghost use Rattle.qd_ilp.specs.Whole.{Adds, IsReading, lacks_time, is_timeless_kept};

use crate::item::Pair;
use crate::row::{KeptLine, KeptRow, is_text, push_next};
use crate::stop::Stop;
use crate::value::{When, place};
use crate::view::{RowView, row_lent};
use qd_base::Memory;
use std::alloc::{AllocError, Global};
use std::marker::Model;

/// The most bytes of a text that is read: places in it have 32 bits.
const LONGEST: usize = 4_294_967_295;

/// The lines of a text, up to its end or up to the first that is outside the grammar. Contracts see that list.
///
/// It is kept as the rows alone, each with the number of lines before it that give none, and as flat vectors: 40 bytes
/// for a row, 24 for each of its tags and fields, and a buffer. This begins with the text; names and texts without an
/// escape are places in it, and what the others stand for lies behind. Lines that give no row take nothing.
#[derive(Debug, Drop)]
pub struct Batch {
    bytes: Vec<u8>,
    pairs: Vec<Pair>,
    rows: Vec<KeptRow>,
    /// How many lines stand behind the last row.
    behind: usize,
    /// The number of the line behind the last one, counted from 1.
    number: u64,
    whole: bool,
}

impl Model for Batch {
    ghost use Rattle.qd_ilp.specs.Whole.{Reading, BatchFits, lines_in};

    ghost Value = { Reading };

    ghost view = { λ b. record { lines = lines_in b.bytes.items b.pairs.items b.rows.items b.behind; whole = b.whole } };

    ghost invariant = { λ b. BatchFits b.bytes.items b.pairs.items b.rows.items b.behind b.number };
}

impl Batch {
    ghost use Rattle.qd_ilp.specs.Whole.{blanks, faulty_line};
    ghost use Rattle.qd_ilp.specs.Line.{Gives};
    ghost use Rattle.qd_ilp.specs.View.{behind_rows, rows_among};

    /// Gives the number of the first line that is outside the grammar, counted from 1, where there is one. It takes
    /// constant time.
    pub fn faulty_line(&self) -> Option<u64>
        ensures line { result ≡ faulty_line self.now }
    {
        if self.whole { None } else { Some(self.number) }
    }

    /// Gives the number of lines that were read, in constant time.
    pub fn lines(&self) -> u64
        ensures count { result ≡ length self.now.lines }
    {
        self.number - 1
    }

    /// Gives the number of lines that give a row, in constant time.
    pub fn rows(&self) -> usize
        ensures count { result ≡ rows_among self.now.lines }
    {
        self.rows.len()
    }

    /// Lends row `i`, counted from 0, and gives how many lines that give none stand right before its line, in constant
    /// time.
    pub fn row(&self, i: usize) -> (u64, RowView<'_>)
        requires { i < rows_among self.now.lines }
        ensures row { behind_rows i self.now.lines ≡ blanks result.0 ++ Gives result.1 ∷ behind_rows (i + 1) self.now.lines }
    {
        let kept = self.rows[i];
        let row = row_lent(self.bytes.as_slice(), self.pairs.as_slice(), kept.head);
        (kept.blanks as u64, row)
    }
}

/// How many rows, tags and fields, and bytes a batch keeps.
#[cfg(test)]
pub(crate) fn kept(batch: &Batch) -> (usize, usize, usize) {
    (batch.rows.len(), batch.pairs.len(), batch.bytes.len())
}

/// Reads a batch of lines of InfluxDB's line protocol, in time linear in its bytes: one pass tests whether they are UTF-8,
/// and another reads them.
///
/// It takes memory for a copy of the text, for the bytes that names and texts with escapes stand for, 40 bytes for each
/// line that gives a row and 24 for each tag and field, and for nothing else, whatever the text says. That is at most 12
/// bytes for a byte of text (the line `t,a=b` and its end are 6), and three times as much while the vectors grow. Want of
/// memory is also answered where the buffer would have 2^32 bytes or more.
///
/// Lines are numbered from 1, and end at LF, at CR and LF, or at the end of the text. Reading ends before the first line
/// that is outside the grammar.
pub fn parse_batch(alloc: Global, text: &[u8]) -> Result<Batch, Memory>
    ensures reading { IfOk result (λ batch. IsReading text.now batch) }
{
    if text.len() > LONGEST {
        return Err(AllocError);
    }
    let sound = is_text(text);
    let mut bytes = Vec::from_slice(alloc, text)?;
    let mut pairs = Vec::new(alloc);
    let mut rows = Vec::new(alloc);
    let mut behind = 0;
    let mut number = 1;
    let mut at = 0;
    while at < text.len() {
        match push_next(&mut bytes, &mut pairs, sound, text, at) {
            Ok((line, next)) => {
                behind = push_line(&mut rows, behind, line)?;
                number += 1;
                at = next;
            }
            Err(Stop::Memory) => return Err(AllocError),
            Err(Stop::Syntax) => {
                return Ok(Batch {
                    bytes,
                    pairs,
                    rows,
                    behind,
                    number,
                    whole: false,
                });
            }
        }
    }
    Ok(Batch {
        bytes,
        pairs,
        rows,
        behind,
        number,
        whole: true,
    })
}

/// Adds a line to the rows, behind which so many lines stand that give none, and gives how many stand there then.
fn push_line(rows: &mut Vec<KeptRow>, behind: usize, line: KeptLine) -> Result<usize, Memory>
    requires few { behind < 2 ^ 63 }
    ensures added { IfOk result (λ after. Adds rows.old.items behind line rows.new.items after) }
{
    match line {
        KeptLine::Blank => Ok(behind + 1),
        KeptLine::Row(head) => {
            let blanks = place(behind)?;
            rows.push(KeptRow { blanks, head })?;
            Ok(0)
        }
    }
}

/// Says whether a batch needs the time of a clock: whether it has no line outside the grammar, and one that gives a row
/// and has no stamp. It costs time linear in the number of rows.
pub fn lacks_time(batch: &Batch) -> bool
    ensures lacks { result ≡ lacks_time batch.now }
{
    batch.whole && has_timeless(&batch.rows)
}

/// Whether a row has no stamp.
fn is_timeless(row: KeptRow) -> bool
    ensures timeless { result ≡ is_timeless_kept row }
{
    match row.head.when {
        When::Missing => true,
        _ => false,
    }
}

fn has_timeless(rows: &[KeptRow]) -> bool
    ensures any { result ≡ list_any is_timeless_kept rows.now }
{
    for row in rows {
        if is_timeless(*row) {
            return true;
        }
    }
    false
}
