//! The rules of the numbers that stand for rows, looked at one after another.
ghost use Rattle.std.specs.Prelude.{◌≡◌, ℕ, ◌*◌, ◌^◌, ◌<◌, ◌≤◌, List, take, length, All, slice_index, IfOk, IfErr, IfSome, IfNone, OnOk};
ghost use Rattle.std.specs.List.{flat_map};
ghost use Rattle.byteorder.specs.Endian.{little_bytes};
ghost use Rattle.qd_base.specs.declared.schema.ColType.TheVariants as kind;
ghost use Rattle.qd_column_format.specs.Fields.{named, named_with, end_of, Follows, AreFields};
ghost use Rattle.qd_column_format.specs.Spelling.{BeginsWith};

use byteorder::{ByteOrder, LittleEndian};
use qd_base::{MAX_TEXT_BYTES, NULL_ID};

/// How many texts ids name: one more than the greatest of them.
pub(crate) fn named_by(ids: &[u64]) -> u64
    ensures named { result ≡ named ids.now }
{
    let mut count = 0;
    for id in ids {
        if *id != NULL_ID && count <= *id {
            count = *id + 1;
        }
    }
    count
}

/// How many texts the ids name that bytes begin with, 8 bytes each.
pub(crate) fn named_in(rows: usize, main: &[u8]) -> u64
    requires there { 8 * rows ≤ length main.now }
    ensures named { (ids : List ℕ) → length ids ≡ rows → All (λ n. n < 256 ^ 8) ids → BeginsWith main.now (flat_map (little_bytes 8) ids) → result ≡ named ids }
{
    let mut count = 0;
    for i in 0..rows {
        count = named_with(count, LittleEndian::read_u64(&main[8 * i..]));
    }
    count
}

/// How many texts ids name, by how many those before the last one name.
fn named_with(count: u64, id: u64) -> u64
    ensures named { result ≡ named_with count id }
{
    if id == NULL_ID {
        count
    } else {
        count.max(id + 1)
    }
}

/// How many texts ids name, or the first id that is neither that of a text named before nor the next one.
pub(crate) fn names_in_order(ids: &[u64]) -> Result<u64, usize>
    ensures named { IfOk result (λ n. n ≡ named ids.now) }
    ensures kept { OnOk result (AreFields kind.Symbol ids.now) }
    ensures odd { IfErr result (λ i. (i < length ids.now) × AreFields kind.Symbol (take i ids.now) × (Follows kind.Symbol (take i ids.now) (slice_index ids.now i) → ⊥)) }
{
    let mut count = 0;
    for i in 0..ids.len() {
        let id = ids[i];
        if id != NULL_ID {
            if count < id {
                return Err(i);
            }
            if id == count {
                count += 1;
            }
        }
    }
    Ok(count)
}

/// The first mark that ends before the one before it, too far behind it, or behind it where it is that of NULL.
pub(crate) fn odd_mark(marks: &[u64]) -> Option<usize>
    ensures none { IfNone result (AreFields kind.Varchar marks.now) }
    ensures some { IfSome result (λ i. (i < length marks.now) × AreFields kind.Varchar (take i marks.now) × (Follows kind.Varchar (take i marks.now) (slice_index marks.now i) → ⊥)) }
{
    let mut start = 0;
    for i in 0..marks.len() {
        let end = marks[i] / 2;
        if end < start
            || start + (MAX_TEXT_BYTES as u64) < end
            || (marks[i] % 2 == 1 && start != end)
        {
            return Some(i);
        }
        start = end;
    }
    None
}

/// Where the text of the last row ends.
pub(crate) fn last_end(marks: &[u64]) -> u64
    ensures end { result ≡ end_of marks.now }
{
    match marks.last() {
        Some(mark) => *mark / 2,
        None => 0,
    }
}
