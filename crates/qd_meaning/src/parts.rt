//! The parts of a query whose names and types are bound: what each operator is asked to do.
use qd_base::{ColList, KeyList, Seq};
use qd_time::Stride;
use qd_value::Bound;

/// Expressions, in order.
pub type BoundList = Seq<Bound>;

/// A function that makes one value of many rows.
#[derive(Drop)]
pub enum Agg {
    /// `count()`: how many rows there are.
    Count,
    /// `sum(x)`: the sum of the values that aren't NULL, and NULL for none of them or outside the range of LONG.
    Sum(Bound),
    /// `min(x)`: the least value that isn't NULL.
    Min(Bound),
    /// `max(x)`: the greatest value that isn't NULL.
    Max(Bound),
    /// `first(x)`: the value on the first row, NULL or not.
    First(Bound),
    /// `last(x)`: the value on the last row, NULL or not.
    Last(Bound),
}

/// Aggregates, in order.
pub type AggList = Seq<Agg>;

/// What makes one row of each group of rows.
#[derive(Drop)]
pub struct GroupSpec {
    /// The keys: rows with equal values of all of them are one group. Without keys all rows are one.
    pub keys: BoundList,
    /// What is made of each group.
    pub aggs: AggList,
}

/// What stands for a bucket without rows.
#[derive(Clone, Copy)]
pub enum Fill {
    /// Nothing: the bucket gives no row.
    Skip,
    /// NULL.
    Null,
    /// The value of the same key in the bucket before, NULL in the first one.
    Prev,
    /// A number.
    Number(i64),
}

/// Fills: one for all aggregates, or one for each. `Skip` stands alone.
pub type FillList = Seq<Fill>;

/// What makes one row of each bucket and key.
#[derive(Drop)]
pub struct SampleSpec {
    /// The keys beside the bucket, and the aggregates.
    pub group: GroupSpec,
    /// How long a bucket is.
    pub stride: Stride,
    /// The offset of the calendar's buckets in minutes, from -1439 to 1439; none where they begin at the first observation.
    pub offset: Option<i32>,
    /// What stands for buckets without rows.
    pub fills: FillList,
}

/// Which right row a left row is joined with: the last one in time with equal keys.
#[derive(Drop)]
pub struct JoinSpec {
    /// The positions of the keys in a left row.
    pub left: KeyList,
    /// The positions of the same keys in a right row.
    pub right: KeyList,
    /// Whether a right row of the left row's own time is too late.
    pub strict: bool,
}

/// What is made of the rows that a query keeps.
#[derive(Drop)]
pub enum Work {
    /// A row of values for each row.
    Plain(BoundList),
    /// A row for each group.
    Group(GroupSpec),
    /// A row for each bucket and key.
    Sample(SampleSpec),
}

/// The columns by which rows are ordered: the position of an output column, and whether its greatest value comes first.
pub type OrderList = Seq<(u32, bool)>;

/// Which rows of a result are given.
#[derive(Clone, Copy)]
pub enum Cut {
    /// The first rows, at most so many.
    First(u64),
    /// The last rows, at most so many.
    Last(u64),
    /// The rows after the first number, up to the second.
    Between(u64, u64),
}

/// A query over the tables of some schemas. Columns are named by their positions, those of the left table first.
#[derive(Drop)]
pub struct AskPlan {
    /// The table, by its position among the schemas.
    pub left: usize,
    /// The right table of a join, and how its rows are found.
    pub join: Option<(usize, JoinSpec)>,
    /// What a row is kept for.
    pub keep: Option<Bound>,
    /// The keys of which the last rows are kept.
    pub latest: Option<KeyList>,
    /// What is made of the rows.
    pub work: Work,
    /// For each output column its position in a row of `work`.
    pub picks: KeyList,
    /// The names and types of the output columns.
    pub out: ColList,
    /// How the rows are ordered, the first key first; empty: as they come.
    pub order: OrderList,
    /// Which of them are given.
    pub limit: Option<Cut>,
    /// The offset of SAMPLE, or 0.
    pub at: u64,
}
