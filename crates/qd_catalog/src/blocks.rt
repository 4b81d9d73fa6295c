//! The blocks that a catalogue keeps: which rows list each of them, and how many rows were written to it.
ghost use Rattle.std.specs.Prelude.{◌≡◌, ℕ, ◌+◌, ◌<◌, ◌≤◌, ◌^◌, Option, Some, None, is_some, IfSome, All, nat_eq, true, if◌then◌else◌, List, [], ◌∷◌, length};
ghost use Rattle.std.specs.List.{list_any};
ghost use Rattle.std.specs.VecDeque.{deque_capacity};
ghost use Rattle.indexmap.specs.IndexMap.{spare, get, index_map_len};
ghost use Rattle.qd_manifest.specs.Spelling.{blocks_in};
ghost use Rattle.qd_catalog.specs.declared.blocks.Kept.{Kept};
ghost use Rattle.qd_catalog.specs.Tracked.{kept_in, goes, new_in, AreListed, ListsAll, Unlists, Waits};

use crate::catalog::ROWS;
use indexmap::IndexMap;
use qd_base::Part;
use std::collections::VecDeque;

/// What is kept of a block.
#[derive(Clone, Copy, Debug)]
pub struct Kept {
    /// How many rows were written to it: the most that a version showed.
    pub written: u64,
    /// Whether each row of the catalogue lists it.
    pub rows: [bool; ROWS],
}

/// What is kept of a block, where it is listed or queued; of another, that no row lists it.
fn kept_of(kept: &IndexMap<u64, Kept>, block: u64) -> Kept
    ensures kept { result ≡ kept_in (get nat_eq kept.now block) }
{
    match kept.get(&block) {
        Some(found) => *found,
        None => Kept {
            written: 0,
            rows: [false; ROWS],
        },
    }
}

/// Whether some row is marked.
fn any_row(rows: &[bool]) -> bool
    ensures any { result ≡ list_any (λ row. row) rows.now }
{
    rows.iter().any(|row| *row)
}

/// Puts what is kept of a block. Only a block that is new takes a place, for which there is room.
fn put_kept(kept: &mut IndexMap<u64, Kept>, block: u64, value: Kept)
    requires room { get nat_eq kept.old block ≡ None → 0 < spare kept.old }
    ensures put { (b : ℕ) → get nat_eq kept.new b ≡ (if nat_eq b block then Some value else get nat_eq kept.old b) }
    ensures room { spare kept.old ≤ spare kept.new + (if is_some (get nat_eq kept.old block) then 0 else 1) }
    ensures len { index_map_len kept.new ≡ index_map_len kept.old + (if is_some (get nat_eq kept.old block) then 0 else 1) }
{
    match kept.get_mut(&block) {
        Some(place) => *place = value,
        None => {
            let _before = kept.insert(block, value);
        }
    }
}

/// Notes that a row lists the block of a part. It takes no memory where there is room for a new block.
fn list_part(kept: &mut IndexMap<u64, Kept>, row: usize, part: &Part)
    requires row { row < 64 }
    requires room { get nat_eq kept.old part.now.block ≡ None → 0 < spare kept.old }
    ensures listed { ListsAll (get nat_eq kept.old) (get nat_eq kept.new) row (part.now ∷ []) }
    ensures room { spare kept.old ≤ spare kept.new + (if is_some (get nat_eq kept.old part.now.block) then 0 else 1) }
    ensures len { index_map_len kept.new ≡ index_map_len kept.old + (if is_some (get nat_eq kept.old part.now.block) then 0 else 1) }
{
    let mut block = kept_of(kept, part.block);
    block.rows[row] = true;
    block.written = block.written.max(part.rows);
    put_kept(kept, part.block, block);
}

/// Notes that a row lists the blocks of parts. It takes no memory where there is room for the new ones.
pub(crate) fn list_parts(kept: &mut IndexMap<u64, Kept>, row: usize, parts: &[Part])
    requires row { row < 64 }
    requires room { length (new_in (get nat_eq kept.old) (blocks_in parts.now)) ≤ spare kept.old }
    ensures listed { ListsAll (get nat_eq kept.old) (get nat_eq kept.new) row parts.now }
    ensures room { spare kept.old ≤ spare kept.new + length (new_in (get nat_eq kept.old) (blocks_in parts.now)) }
    ensures len { index_map_len kept.new ≤ index_map_len kept.old + length (new_in (get nat_eq kept.old) (blocks_in parts.now)) }
{
    for part in parts {
        list_part(kept, row, part);
    }
}

/// Notes that a row lists a block no more. Where no row does then, it joins the queue, for which there is room.
fn unlist_block(kept: &mut IndexMap<u64, Kept>, retired: &mut VecDeque<u64>, row: usize, block: u64)
    requires row { row < 64 }
    requires room { goes (get nat_eq kept.old block) row ≡ true → length retired.old.items < deque_capacity retired.old }
    ensures unlisted { Unlists (get nat_eq kept.old) (get nat_eq kept.new) row (block ∷ []) retired.old.items retired.new.items }
    ensures capacity { deque_capacity retired.new ≡ deque_capacity retired.old }
    ensures len { index_map_len kept.new ≡ index_map_len kept.old }
{
    let mut found = kept_of(kept, block);
    if !found.rows[row] {
        return;
    }
    found.rows[row] = false;
    put_kept(kept, block, found);
    if !any_row(&found.rows) {
        let _queued = retired.push_back(block);
    }
}

/// Notes that a row lists the blocks of parts no more. Those that no row does then join the queue.
pub(crate) fn unlist_parts(
    kept: &mut IndexMap<u64, Kept>,
    retired: &mut VecDeque<u64>,
    row: usize,
    parts: &[Part],
)
    requires row { row < 64 }
    requires queue { Waits (get nat_eq kept.old) retired.old.items }
    requires room { index_map_len kept.old ≤ deque_capacity retired.old }
    ensures unlisted { Unlists (get nat_eq kept.old) (get nat_eq kept.new) row (blocks_in parts.now) retired.old.items retired.new.items }
    ensures capacity { deque_capacity retired.new ≡ deque_capacity retired.old }
    ensures len { index_map_len kept.new ≡ index_map_len kept.old }
{
    for part in parts {
        unlist_block(kept, retired, row, part.block);
    }
}

/// How much of so much room a block leaves, which takes a place where it is new; none where there is no place, or where the
/// block is queued or is the greatest number.
fn room_after_block(kept: &IndexMap<u64, Kept>, room: usize, block: u64) -> Option<usize>
    ensures room { IfSome result (λ left. left + (if is_some (get nat_eq kept.now block) then 0 else 1) ≡ room) }
    ensures listed { IfSome result (λ left. (k : Kept) → get nat_eq kept.now block ≡ Some k → list_any (λ row. row) k.rows ≡ true) }
    ensures small { IfSome result (λ left. block + 1 < 2 ^ 64) }
    ensures enough { (if is_some (get nat_eq kept.now block) then 0 else 1) ≤ room → AreListed (get nat_eq kept.now) (block ∷ []) → block + 1 < 2 ^ 64 → is_some result ≡ true }
{
    if block == u64::MAX {
        return None;
    }
    match kept.get(&block) {
        Some(found) => any_row(&found.rows).then_some(room),
        None => room.checked_sub(1),
    }
}

/// How much of so much room the new blocks of parts leave; none where they need more, or where a block is queued or is the
/// greatest number.
pub(crate) fn room_after(kept: &IndexMap<u64, Kept>, room: usize, parts: &[Part]) -> Option<usize>
    ensures room { IfSome result (λ left. left + length (new_in (get nat_eq kept.now) (blocks_in parts.now)) ≡ room) }
    ensures listed { IfSome result (λ left. AreListed (get nat_eq kept.now) (blocks_in parts.now)) }
    ensures small { IfSome result (λ left. All (λ b. b + 1 < 2 ^ 64) (blocks_in parts.now)) }
    ensures enough { length (new_in (get nat_eq kept.now) (blocks_in parts.now)) ≤ room → AreListed (get nat_eq kept.now) (blocks_in parts.now) → All (λ b. b + 1 < 2 ^ 64) (blocks_in parts.now) → is_some result ≡ true }
{
    let mut left = room;
    for part in parts {
        left = room_after_block(kept, left, part.block)?;
    }
    Some(left)
}
