//! The blocks of all tables of a version, table by table.
ghost use Rattle.std.specs.Prelude.{◌≡◌, ◌+◌, ◌^◌, ◌<◌, ◌≤◌, IfSome, OnOk, All, is_some, true, nat_eq, length};
ghost use Rattle.std.specs.VecDeque.{deque_capacity};
ghost use Rattle.indexmap.specs.IndexMap.{get, spare, index_map_len};
ghost use Rattle.qd_manifest.specs.Spelling.{blocks_in, blocks_of};
ghost use Rattle.qd_catalog.specs.Versions.{parts_of, next_after};
ghost use Rattle.qd_catalog.specs.Tracked.{new_in, AreListed, ListsAll, Unlists, Waits};

use crate::blocks::{Kept, list_parts, room_after, unlist_parts};
use indexmap::IndexMap;
use qd_base::{Memory, Part};
use qd_manifest::TableParts;
use std::collections::VecDeque;

/// Notes that a row lists the blocks of tables. It takes no memory where there is room for the new ones.
pub(crate) fn list_tables(kept: &mut IndexMap<u64, Kept>, row: usize, tables: &[TableParts])
    requires row { row < 64 }
    requires room { length (new_in (get nat_eq kept.old) (blocks_of tables.now)) ≤ spare kept.old }
    ensures listed { ListsAll (get nat_eq kept.old) (get nat_eq kept.new) row (parts_of tables.now) }
    ensures len { index_map_len kept.new ≤ index_map_len kept.old + length (new_in (get nat_eq kept.old) (blocks_of tables.now)) }
{
    for table in tables {
        list_parts(kept, row, table.parts.as_slice());
    }
}

/// Takes memory for the blocks of tables, table by table, and notes that a row lists them.
pub(crate) fn list_with_room(
    kept: &mut IndexMap<u64, Kept>,
    row: usize,
    tables: &[TableParts],
) -> Result<(), Memory>
    requires row { row < 64 }
    ensures listed { OnOk result (ListsAll (get nat_eq kept.old) (get nat_eq kept.new) row (parts_of tables.now)) }
{
    for table in tables {
        kept.reserve(table.parts.len())?;
        list_parts(kept, row, table.parts.as_slice());
    }
    Ok(())
}

/// Notes that a row lists the blocks of tables no more. Those that no row does then join the queue.
pub(crate) fn unlist_tables(
    kept: &mut IndexMap<u64, Kept>,
    retired: &mut VecDeque<u64>,
    row: usize,
    tables: &[TableParts],
)
    requires row { row < 64 }
    requires queue { Waits (get nat_eq kept.old) retired.old.items }
    requires room { index_map_len kept.old ≤ deque_capacity retired.old }
    ensures unlisted { Unlists (get nat_eq kept.old) (get nat_eq kept.new) row (blocks_of tables.now) retired.old.items retired.new.items }
    ensures capacity { deque_capacity retired.new ≡ deque_capacity retired.old }
    ensures len { index_map_len kept.new ≡ index_map_len kept.old }
{
    for table in tables {
        unlist_parts(kept, retired, row, table.parts.as_slice());
    }
}

/// How much of so much room the new blocks of tables leave; none where they need more, or where a block is queued or is the
/// greatest number.
pub(crate) fn room_after_tables(
    kept: &IndexMap<u64, Kept>,
    room: usize,
    tables: &[TableParts],
) -> Option<usize>
    ensures room { IfSome result (λ left. left + length (new_in (get nat_eq kept.now) (blocks_of tables.now)) ≡ room) }
    ensures listed { IfSome result (λ left. AreListed (get nat_eq kept.now) (blocks_of tables.now)) }
    ensures small { IfSome result (λ left. All (λ b. b + 1 < 2 ^ 64) (blocks_of tables.now)) }
    ensures enough { length (new_in (get nat_eq kept.now) (blocks_of tables.now)) ≤ room → AreListed (get nat_eq kept.now) (blocks_of tables.now) → All (λ b. b + 1 < 2 ^ 64) (blocks_of tables.now) → is_some result ≡ true }
{
    let mut left = room;
    for table in tables {
        left = room_after(kept, left, table.parts.as_slice())?;
    }
    Some(left)
}

/// One more than the greatest block of tables, and no less than a number. No block is the greatest number.
pub(crate) fn next_after_tables(next: u64, tables: &[TableParts]) -> u64
    requires small { All (λ b. b + 1 < 2 ^ 64) (blocks_of tables.now) }
    ensures next { result ≡ next_after next (blocks_of tables.now) }
{
    let mut next = next;
    for table in tables {
        next = next_after(next, table.parts.as_slice());
    }
    next
}

/// One more than the greatest block of parts, and no less than a number.
fn next_after(next: u64, parts: &[Part]) -> u64
    requires small { All (λ b. b + 1 < 2 ^ 64) (blocks_in parts.now) }
    ensures next { result ≡ next_after next (blocks_in parts.now) }
{
    let mut next = next;
    for part in parts {
        next = next.max(part.block + 1);
    }
    next
}
