//! The units by which a table is partitioned, as in QuestDB's PARTITION BY.
ghost use Rattle.std.specs.Prelude.{◌≡◌, ℕ, ◌≤◌, ◌<◌, IfSome, IfOk};
ghost use Rattle.std.specs.Option.{SomeIff};
ghost use Rattle.qd_time.specs.Units.{unit_of, start_of, end_of, name_of};

use crate::print::print_time;
use crate::units::{end_of, start_of, unit_of};
use qd_base::{MAX_TIME, Memory, PartUnit, Txt};
use std::alloc::Global;

/// The first microsecond of the hour, day, month or year that contains the moment, in UTC.
///
/// `ts` and the result are microseconds since 1970-01-01T00:00:00Z. Takes constant time and no
/// memory: a division for an hour or a day, and a look at the calendar for a month or a year.
pub fn floor_unit(ts: u64, unit: PartUnit) -> u64
    requires { ts ≤ MAX_TIME }
    ensures start { result ≡ start_of (unit_of unit) ts }
    ensures not_after { result ≤ ts }

    // Each moment lies in exactly one unit: those from this start to the next one have this start.
    ensures before_end { ts < end_of (unit_of unit) ts }
    ensures one_unit { (other : ℕ) → result ≤ other → other < end_of (unit_of unit) ts
        → start_of (unit_of unit) other ≡ result }
{
    start_of(unit_of(unit), ts)
}

/// The first microsecond of the hour, day, month or year after the one that contains the moment.
///
/// `None` exactly where that is past [`MAX_TIME`], which is so in the last unit alone. Takes
/// constant time and no memory.
pub fn next_unit(ts: u64, unit: PartUnit) -> Option<u64>
    requires { ts ≤ MAX_TIME }
    ensures next { SomeIff result (end_of (unit_of unit) ts ≤ MAX_TIME) (end_of (unit_of unit) ts) }
    ensures after { IfSome result (λ next. ts < next) }
    ensures start { IfSome result (λ next. start_of (unit_of unit) next ≡ next) }
{
    let next = end_of(unit_of(unit), ts);
    (next <= MAX_TIME).then_some(next)
}

/// The name of the partition that contains the moment: `2024-01-31T23`, `2024-01-31`, `2024-01` or
/// `2024`.
///
/// Partitions of different units of one kind have different names. Takes constant time, and the
/// name's bytes of memory; `Memory` is the only error, and nothing is kept then.
pub fn partition_name(alloc: Global, ts: u64, unit: PartUnit) -> Result<Txt, Memory>
    requires { ts ≤ MAX_TIME }
    ensures name { IfOk result (λ name. name ≡ name_of unit ts) }
    ensures apart { IfOk result (λ name. (other : ℕ) → other ≤ MAX_TIME → name ≡ name_of unit other
        → start_of (unit_of unit) other ≡ start_of (unit_of unit) ts) }
{
    let text = print_time(ts);
    let length = match unit {
        PartUnit::Hour => 13,
        PartUnit::Day => 10,
        PartUnit::Month => 7,
        PartUnit::Year => 4,
    };
    Txt::from_bytes(alloc, &text[..length])
}
