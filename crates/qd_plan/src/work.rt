//! What is made of the rows that a query keeps, and where each item stands in what is made.
ghost use Rattle.std.specs.Prelude.{◌≡◌, ◌+◌, ℕ, [], ◌∷◌, ◌++◌, List, Option, map, length, IfOk, OnOk};
ghost use Rattle.std.specs.List.{flat_map};
ghost use Rattle.qd_meaning.specs.Items as items;
ghost use Rattle.qd_meaning.specs.Outputs.{made_new};
ghost use Rattle.qd_meaning.specs.Planned as parts;
ghost use Rattle.qd_meaning.specs.Refusals.{least, sooner};
ghost use Rattle.qd_meaning.specs.Sampling as sampling;
ghost use Rattle.qd_plan.specs.Names.{names};
ghost use Rattle.qd_plan.specs.Showing as spec;
ghost use Rattle.qd_plan.specs.Showing.{Makes};

use crate::fault::Faults;
use crate::outs::Outs;
use crate::place::{position, sum};
use crate::sample::sample_spec;
use crate::shows::{Part, Shows};
use qd_base::{ColList, ColType, KeyList, Memory, Seq};
use qd_meaning::{Agg, AggList, BoundList, GroupSpec, Work};
use qd_sql_ast::Sampled;
use qd_value::Bound;
use std::alloc::Global;

/// What the items of a query are made of, as far as they are read: the keys, in a query without aggregates each item; the
/// aggregates; for each item where it stands; and the output columns.
#[derive(Drop)]
pub(crate) struct Parts {
    keys: BoundList,
    aggs: AggList,
    /// The types of the aggregates.
    kinds: Seq<ColType>,
    seats: Seq<Seat>,
    out: Outs,
}

/// What an item is in a row that is made of many.
#[derive(Drop)]
pub(crate) enum Role {
    /// The bucket's start.
    Start,
    /// A key.
    Key(Bound),
    /// An aggregate.
    Makes(Agg),
}

/// Where an item stands.
#[derive(Clone, Copy)]
pub(crate) enum Seat {
    /// It is the bucket's start.
    Start,
    /// It is a key: how many keys stand in front.
    Key(usize),
    /// It is an aggregate: how many stand in front.
    Agg(usize),
}

/// What is made of the rows that a query keeps, and what is shown of it.
#[derive(Drop)]
pub(crate) struct Worked {
    pub(crate) work: Work,
    pub(crate) picks: KeyList,
    pub(crate) out: ColList,
}

impl Parts {
    /// No item yet.
    pub(crate) fn new(alloc: Global) -> Parts
        ensures none { (buckets : Option ℕ) → Makes buckets [] result }
    {
        Parts {
            keys: BoundList::new(alloc),
            aggs: AggList::new(alloc),
            kinds: Seq::new(alloc),
            seats: Seq::new(alloc),
            out: Outs::new(alloc),
        }
    }

    /// One more item. Where a query has buckets, one that is the designated column is the bucket's start.
    pub(crate) fn add(
        &mut self,
        alloc: Global,
        item: Shows,
        buckets: Option<usize>,
    ) -> Result<(), Memory>
        ensures added { (shown : List items.Shows) (one : items.Shows) → Makes buckets shown self.old → item ≡ spec.shows one → OnOk result (Makes buckets (shown ++ one ∷ []) self.new) }
    {
        let Shows { name, kind, part } = item;
        self.out.push(alloc, name, kind)?;
        self.put(kind, role_of(part, buckets))?;
        Ok(())
    }

    /// One more item by its type and its role; the output column is there already.
    fn put(&mut self, kind: ColType, role: Role) -> Result<(), Memory>
        ensures keys { OnOk result (self.new.keys ≡ self.old.keys ++ spec.key_in role) }
        ensures aggs { OnOk result (self.new.aggs ≡ self.old.aggs ++ spec.agg_in role) }
        ensures kinds { OnOk result (self.new.kinds ≡ self.old.kinds ++ spec.kind_in kind role) }
        ensures seats { OnOk result (self.new.seats ≡ self.old.seats ++ spec.seat_of (length self.old.keys) (length self.old.aggs) role ∷ []) }
        ensures out { OnOk result (self.new.out ≡ self.old.out) }
    {
        match role {
            Role::Start => self.seats.push(Seat::Start),
            Role::Key(bound) => self.put_key(bound),
            Role::Makes(agg) => self.put_agg(kind, agg),
        }
    }

    /// One more key.
    fn put_key(&mut self, bound: Bound) -> Result<(), Memory>
        ensures keys { OnOk result (self.new.keys ≡ self.old.keys ++ bound ∷ []) }
        ensures aggs { OnOk result (self.new.aggs ≡ self.old.aggs) }
        ensures kinds { OnOk result (self.new.kinds ≡ self.old.kinds) }
        ensures seats { OnOk result (self.new.seats ≡ self.old.seats ++ Seat.Key (length self.old.keys) ∷ []) }
        ensures out { OnOk result (self.new.out ≡ self.old.out) }
    {
        self.seats.push(Seat::Key(self.keys.len()))?;
        self.keys.push(bound)
    }

    /// One more aggregate by its type.
    fn put_agg(&mut self, kind: ColType, agg: Agg) -> Result<(), Memory>
        ensures keys { OnOk result (self.new.keys ≡ self.old.keys) }
        ensures aggs { OnOk result (self.new.aggs ≡ self.old.aggs ++ agg ∷ []) }
        ensures kinds { OnOk result (self.new.kinds ≡ self.old.kinds ++ kind ∷ []) }
        ensures seats { OnOk result (self.new.seats ≡ self.old.seats ++ Seat.Agg (length self.old.aggs) ∷ []) }
        ensures out { OnOk result (self.new.out ≡ self.old.out) }
    {
        self.seats.push(Seat::Agg(self.aggs.len()))?;
        self.make(kind, agg)
    }

    /// One more aggregate by its type; its seat is there already.
    fn make(&mut self, kind: ColType, agg: Agg) -> Result<(), Memory>
        ensures keys { OnOk result (self.new.keys ≡ self.old.keys) }
        ensures aggs { OnOk result (self.new.aggs ≡ self.old.aggs ++ agg ∷ []) }
        ensures kinds { OnOk result (self.new.kinds ≡ self.old.kinds ++ kind ∷ []) }
        ensures seats { OnOk result (self.new.seats ≡ self.old.seats) }
        ensures out { OnOk result (self.new.out ≡ self.old.out) }
    {
        self.kinds.push(kind)?;
        self.aggs.push(agg)
    }

    /// What is made of the rows: of a sample's where there is one, else of groups where there are aggregates.
    pub(crate) fn worked(
        self,
        alloc: Global,
        sampled: &Option<Sampled>,
        faults: &mut Faults,
    ) -> Result<Worked, Memory>
        ensures work { (shown : List items.Shows) (time_col : ℕ) → Makes (parts.buckets_in time_col sampled.now) shown self →
            IfOk result (λ made. made.work ≡ parts.work_of sampled.now (items.some_made shown) (flat_map (λ (i : items.Shows). items.bound_in i.part) shown) (parts.roles_in time_col sampled.now shown)) }
        ensures picks { (shown : List items.Shows) (time_col : ℕ) → Makes (parts.buckets_in time_col sampled.now) shown self →
            IfOk result (λ made. made.picks ≡ parts.picks_of sampled.now (items.some_made shown) (parts.roles_in time_col sampled.now shown)) }
        ensures out { (shown : List items.Shows) (buckets : Option ℕ) → Makes buckets shown self → IfOk result (λ made. made.out ≡ items.columns_of shown) }
        ensures faults { (shown : List items.Shows) (buckets : Option ℕ) → Makes buckets shown self →
            OnOk result (faults.new.first ≡ sooner faults.old.first (least (parts.sampled_faults sampled.now (parts.made_kinds shown)))) }
    {
        match sampled {
            Some(sampled) => self.sampled(alloc, sampled, faults),
            None => self.plain(alloc),
        }
    }

    /// What a sample makes of the rows.
    fn sampled(
        self,
        alloc: Global,
        sampled: &Sampled,
        faults: &mut Faults,
    ) -> Result<Worked, Memory>
        ensures work { IfOk result (λ made. made.work ≡ Work.Sample (sampling.sample_spec sampled.now self.keys self.aggs)) }
        ensures picks { IfOk result (λ made. made.picks ≡ map (spec.pick 1 (1 + length self.keys)) self.seats) }
        ensures out { IfOk result (λ made. made.out ≡ self.out) }
        ensures faults { OnOk result (faults.new.first ≡ sooner faults.old.first (least (sampling.sample_faults sampled.now self.kinds))) }
    {
        let picks = self.picks(alloc, 1)?;
        let Parts {
            keys,
            aggs,
            kinds,
            out,
            ..
        } = self;
        let group = GroupSpec { keys, aggs };
        let spec = sample_spec(alloc, sampled, group, kinds.as_slice(), faults)?;
        Ok(Worked {
            work: Work::Sample(spec),
            picks,
            out: out.finish(),
        })
    }

    /// What is made of the rows without a sample.
    fn plain(self, alloc: Global) -> Result<Worked, Memory>
        ensures work { IfOk result (λ made. made.work ≡ spec.plain_work self.kinds self.keys self.aggs) }
        ensures picks { IfOk result (λ made. made.picks ≡ map (spec.pick 0 (0 + length self.keys)) self.seats) }
        ensures out { IfOk result (λ made. made.out ≡ self.out) }
    {
        let picks = self.picks(alloc, 0)?;
        let Parts {
            keys,
            aggs,
            kinds,
            out,
            ..
        } = self;
        Ok(Worked {
            work: plain_work(kinds.as_slice(), keys, aggs),
            picks,
            out: out.finish(),
        })
    }

    /// Where the items stand in a row that has so many cells in front of the keys.
    fn picks(&self, alloc: Global, front: usize) -> Result<KeyList, Memory>
        ensures picks { IfOk result (λ made. made ≡ map (spec.pick front (front + length self.now.keys)) self.now.seats) }
    {
        let aggs = sum(front, self.keys.len())?;
        picks_of(alloc, self.seats.as_slice(), front, aggs)
    }
}

/// What is made of the rows without a sample, where these are the types of the aggregates.
fn plain_work(kinds: &[ColType], keys: BoundList, aggs: AggList) -> Work
    ensures work { result ≡ spec.plain_work kinds.now keys aggs }
{
    if kinds.is_empty() {
        Work::Plain(keys)
    } else {
        Work::Group(GroupSpec { keys, aggs })
    }
}

/// Where seats stand in a row that has so many cells in front of its keys, and in front of its aggregates.
fn picks_of(alloc: Global, seats: &[Seat], keys: usize, aggs: usize) -> Result<KeyList, Memory>
    ensures picks { IfOk result (λ made. made ≡ map (spec.pick keys aggs) seats.now) }
{
    let mut picks = KeyList::new(alloc);
    for seat in seats {
        let at = pick(*seat, keys, aggs)?;
        picks.push(at)?;
    }
    Ok(picks)
}

/// Where a seat stands in such a row.
fn pick(seat: Seat, keys: usize, aggs: usize) -> Result<u32, Memory>
    ensures pick { IfOk result (λ at. at ≡ spec.pick keys aggs seat) }
{
    match seat {
        Seat::Start => Ok(0),
        Seat::Key(at) => position(sum(keys, at)?),
        Seat::Agg(at) => position(sum(aggs, at)?),
    }
}

/// What an item is in a row that is made of many.
fn role_of(part: Part, buckets: Option<usize>) -> Role
    ensures role { result ≡ spec.role_by buckets part }
{
    match part {
        Part::Value(bound, at) => {
            if is_start(buckets, at) {
                Role::Start
            } else {
                Role::Key(bound)
            }
        }
        Part::Made(agg) => Role::Makes(agg),
    }
}

/// Whether a column is the designated one of a query with buckets.
fn is_start(buckets: Option<usize>, at: Option<usize>) -> bool
    ensures start { result ≡ spec.is_start buckets at }
{
    match (buckets, at) {
        (Some(time_col), Some(at)) => at == time_col,
        _ => false,
    }
}
