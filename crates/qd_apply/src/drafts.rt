//! Drafts: transactions that are to be merged into the parts of a version.
ghost use Rattle.std.specs.Prelude.{◌≡◌, ◌+◌, ◌^◌, ◌<◌, ◌≤◌, ◌↔◌, fold, map, All, IfOk, IfSome, IsSome};
ghost use Rattle.qd_base.specs.Database.{schemas_of};
ghost use Rattle.qd_base.specs.Lawful.{cells_of, AreLawful, AreSchemas, SetsKeysAlone};
ghost use Rattle.qd_base.specs.declared.limits.TheConstants.{MAX_BATCH_CELLS as most};
ghost use Rattle.qd_manifest.specs.Spelling.{schemas_in, AreParts};
ghost use Rattle.qd_apply.specs.Arrivals.{arrives, without_rows};
ghost use Rattle.qd_apply.specs.Laws.{CountsParts};
ghost use Rattle.qd_apply.specs.Plans.{with_batch};

use crate::planning::Plan;
use crate::plans::{late_of, plan_tables};
use crate::tables::Tables;
use qd_base::{Duplicate, Entry, Memory, Op, Schemas};
use qd_manifest::Shape;
use qd_validate::follow;
use std::alloc::Global;
use std::marker::Model;

/// Transactions that are to be merged into the parts of a version. Contracts see of how many transactions that version
/// is, of how many the next one is so far, the number of the next new block, the version's tables, and the tables with
/// what has arrived since.
#[derive(Drop)]
pub struct Draft {
    base: u64,
    upto: u64,
    next_block: u64,
    shape: Shape,
    /// The schemas by which transactions are judged.
    judged: Schemas,
    tables: Tables,
}

impl Model for Draft {
    ghost use Rattle.std.specs.Prelude.{◌≡◌};
    ghost use Rattle.qd_base.specs.Database.{schemas_of};
    ghost use Rattle.qd_apply.specs.Drafts.{Drafting};

    ghost Value = { Drafting };

    ghost view = { λ d. record { base = d.base; upto = d.upto; next_block = d.next_block; shape = d.shape; tables = d.tables } };

    ghost invariant = { λ d. d.judged ≡ schemas_of d.tables };
}

impl Draft {
    /// Begins a draft over a version of `n` transactions, with its next block and its tables: nothing has arrived. It
    /// copies the schemas and the lists of parts. Want of memory is the only error.
    pub fn begin(alloc: Global, n: u64, next_block: u64, shape: &Shape) -> Result<Draft, Memory>
        requires schemas { AreSchemas (schemas_in shape.now) }
        ensures begun { IfOk result (λ d. d ≡ record { base = n; upto = n; next_block = next_block; shape = shape.now; tables = without_rows (schemas_in shape.now) }) }
    {
        let judged = schemas_of(alloc, shape)?;
        let tables = Tables::new(alloc, judged.copy()?)?;
        let shape = shape.copy()?;
        Ok(Draft {
            base: n,
            upto: n,
            next_block,
            shape,
            judged,
            tables,
        })
    }

    /// Takes one more transaction, where it is lawful over the schemas behind those before; else there is no draft any
    /// more, nor where no memory is found.
    ///
    /// One that sets keys is taken wherever it stands. All rows of a draft are merged by the keys that their table has at
    /// its end, so a draft leaves what replay does ([`merging_stands`](crate::merging_stands)) where none of its
    /// transactions but the first sets keys: whoever drafts ends it before the next one that does.
    ///
    /// Its rows go straight into the columns of blocks in the making. It costs time linear in the transaction, and a
    /// table's name is looked up in time logarithmic in the tables. A column is added in the time of its schema, and keys
    /// are set in theirs: rows that wait in that table stay as they are until they are merged.
    pub fn take(self, alloc: Global, entry: &Entry) -> Result<Option<Draft>, Memory>
        requires room { self.upto + 1 < 2 ^ 64 }
        ensures lawful { IfOk result (λ next. IsSome next ↔
            (AreLawful (schemas_of self.tables) entry.now.ops × (cells_of entry.now ≤ most) × SetsKeysAlone entry.now.ops)) }
        ensures taken { IfOk result (λ next. IfSome next (λ d. d ≡ record self { upto = self.upto + 1; tables = fold arrives self.tables entry.now.ops })) }
    {
        let Draft {
            base,
            upto,
            next_block,
            shape,
            judged,
            tables,
        } = self;
        let mut judged = judged;
        tables.are_tables();
        if !follow(&mut judged, entry)? {
            return Ok(None);
        }
        let tables = tables.after(alloc, entry.ops.as_slice())?;
        Ok(Some(Draft {
            base,
            upto: upto + 1,
            next_block,
            shape,
            judged,
            tables,
        }))
    }

    /// Plans the merge of what has arrived: makes the batch of each table, and shares it out among the table's parts.
    ///
    /// `written` has for each part of each table of the version how many rows its block's files hold: rows go behind
    /// those of a part only where it shows all of these. Where `split_rows` rows of a part or more stand before all late
    /// ones, they stay where they lie, and only those behind are written anew.
    ///
    /// It costs the time and memory of the rows that wait, n log n where they are late, and logarithmic time in them
    /// for each part. Want of memory is the only error.
    pub fn plan(
        self,
        alloc: Global,
        written: Vec<Vec<u64>>,
        split_rows: u64,
    ) -> Result<Plan, Memory>
        requires parts { All (λ t. AreParts t.schema t.parts) self.shape }
        requires counts { CountsParts self.shape (map (λ c. c.items) written.items) }
        ensures plan { IfOk result (λ p. p ≡ record { base = self.base; upto = self.upto; next_block = self.next_block; shape = self.shape; tables = map with_batch self.tables; written = map (λ c. c.items) written.items; split_rows = split_rows }) }
    {
        let Draft {
            base,
            upto,
            next_block,
            shape,
            judged: _,
            tables,
        } = self;
        let Tables { schemas: _, tables } = tables;
        let plans = plan_tables(alloc, &shape, written.as_slice(), tables, split_rows)?;
        let late = late_of(alloc, plans.as_slice())?;
        Ok(Plan {
            base,
            upto,
            next_block,
            shape,
            plans,
            late,
            written,
            split_rows,
        })
    }

    /// Gives of how many transactions the version is that the draft began with.
    pub fn base(&self) -> u64
        ensures base { result ≡ self.now.base }
    {
        self.base
    }

    /// Gives of how many transactions the next version is so far.
    pub fn upto(&self) -> u64
        ensures upto { result ≡ self.now.upto }
    {
        self.upto
    }
}

/// Gives the schemas of a version's tables, in time and memory linear in them and logarithmic in their number for each.
/// Want of memory is the only error.
pub fn schemas_of(alloc: Global, shape: &Shape) -> Result<Schemas, Memory>
    requires schemas { AreSchemas (schemas_in shape.now) }
    ensures schemas { IfOk result (λ s. s ≡ schemas_in shape.now) }
{
    let mut schemas = Schemas::new(alloc);
    for table in shape.as_slice() {
        let create = Op::Create {
            schema: table.schema.copy()?,
        };
        schemas.apply(&create)?;
    }
    Ok(schemas)
}
