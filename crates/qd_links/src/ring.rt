//! The array under a `Links`: slots that are linked into rings.
ghost use Rattle.std.specs.Prelude.{◌≡◌, ◌≢◌, ◌+◌, ◌<◌, ◌++◌, length, OnOk, OnErr};
ghost use Rattle.qd_links.specs.Ring.{next_slot, prev_slot, Joins, Inserts, Removes, IsNodeBeside, lone_slots};

use std::alloc::AllocError;

/// The neighbours of a slot in its ring. A slot that is alone in its ring is its own neighbour.
#[derive(Clone, Copy, Debug)]
pub struct Link {
    pub prev: usize,
    pub next: usize,
}

/// Puts the slot right before the slot `at`, into the ring of that one.
pub fn insert_slot(ring: &mut [Link], at: usize, slot: usize)
    requires at_in { at < length ring.old }
    requires prev_in { prev_slot ring.old at < length ring.old }
    requires slot_in { slot < length ring.old }
    requires other_than_at { slot ≢ at }
    requires other_than_prev { slot ≢ prev_slot ring.old at }
    ensures { Inserts ring.old ring.new at slot }
{
    let prev = ring[at].prev;
    join(ring, prev, slot);
    join(ring, slot, at);
}

/// Takes the slot out of its ring, and leaves it alone in one of its own.
pub fn remove_slot(ring: &mut [Link], slot: usize)
    requires slot_in { slot < length ring.old }
    requires prev_in { prev_slot ring.old slot < length ring.old }
    requires next_in { next_slot ring.old slot < length ring.old }
    requires other_than_prev { slot ≢ prev_slot ring.old slot }
    requires other_than_next { slot ≢ next_slot ring.old slot }
    ensures { Removes ring.old ring.new slot }
{
    let Link { prev, next } = ring[slot];
    join(ring, prev, next);
    join(ring, slot, slot);
}

/// Adds slots that are each alone in a ring.
pub fn add_slots(ring: &mut Vec<Link>, count: usize) -> Result<(), AllocError>
    ensures ok { OnOk result
        (ring.new.items ≡ ring.old.items ++ lone_slots (length ring.old.items) count) }
    ensures err { OnErr result (ring.new.items ≡ ring.old.items) }
{
    ring.reserve(count)?;
    let first = ring.len();
    for slot in first..first + count {
        ring.push(Link {
            prev: slot,
            next: slot,
        })?;
    }
    Ok(())
}

/// The node of the slot beside a slot. A slot that is alone has none beside it, and a head is no node.
pub fn node_beside(heads: usize, slot: usize, beside: usize) -> Option<usize>
    ensures { IsNodeBeside result heads slot beside }
{
    if beside == slot {
        return None;
    }
    beside.checked_sub(heads)
}

/// Lets the slot `to` follow the slot `from`.
fn join(ring: &mut [Link], from: usize, to: usize)
    requires from_in { from < length ring.old }
    requires to_in { to < length ring.old }
    ensures { Joins ring.old ring.new from to }
{
    ring[from].next = to;
    ring[to].prev = from;
}
