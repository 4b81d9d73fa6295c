//! What lies under the lock.
ghost use Rattle.std.specs.Prelude.{◌≡◌, ◌≢◌, ◌↔◌, ◌<◌, ◌≤◌, ℕ, List, None, Some, Ok, Err, length, IfErr, IfOk, IfSome, IsTrue, OnErr};
ghost use Rattle.qd_base.specs.Lawful.{AreSchemas};
ghost use Rattle.qd_prepare.specs.Prepared.{IsRead, IsShort};
ghost use Rattle.qd_sql_ast.specs.Kinds.{IsWrite};
ghost use Rattle.qd_store_backend.specs.Backs.{AreUsual, BeginsWith, current, n_in};
ghost use Rattle.qd_shared.specs.Commits.{batch_at, statement, CommitsTo, IsCounted};
ghost use Rattle.qd_shared.specs.Desks.{IsDesk};
ghost use Rattle.qd_shared.specs.Snaps.{IsCopied};
ghost use Rattle.qd_base.specs.declared.part.Part.{Part};
ghost use Rattle.qd_block.specs.Blocks.{IsWhole};
ghost use Rattle.qd_catalog.specs.declared.version.Version as catalog;
ghost use Rattle.qd_catalog.specs.Versions.{Adds, IsLive, Retires, SameVersions, current_n, version_at};
ghost use Rattle.qd_io.specs.Ends.{HasRisen};
ghost use Rattle.qd_base.specs.declared.limits.TheConstants.{MAX_TXNS};
ghost use Rattle.qd_shared.specs.declared.rounds.RoundFault.TheVariants as fault;
ghost use Rattle.qd_shared.specs.Publishing.{drafts_fault, publishes_fault, HasRows, IsDraftFault, IsNext, IsRest};
ghost use Rattle.qd_store.specs.Drafts.{Extends, IsDraftOver, IsDraftedFrom, IsMergedOver, IsNextOf};
ghost use Rattle.qd_versions.specs.Publishing.{IsFull};
ghost use Rattle.qd_shared.specs.Rounds.{IsBegun, IsPurged, Removes};
ghost use Rattle.qd_store.specs.declared.fault.PublishFault.TheVariants as publish;
ghost use Rattle.qd_store.specs.Arriving.{IsReady};
ghost use Rattle.qd_durable.specs.Faults.{CountsVol};
ghost use Rattle.qd_manifest.specs.declared.shape.TableParts.{TableParts};
ghost use Rattle.qd_scan.specs.Sources.{IsBlockOf};
ghost use Rattle.qd_store.specs.Reading.{IsShownPart};
ghost use Rattle.qd_versions.specs.Reading.{IsPartAt};

use crate::item::{Fixed, Item};
use crate::known::learn;
use crate::rounds::{Begun, RoundFault};
use crate::snap::Snap;
use qd_apply::{merging_stands, schemas_of};
use qd_base::{Memory, Schemas, WalRef};
use qd_block::Block;
use qd_durable::LogFault;
use qd_ghost::{Telling, Turning};
use qd_ilp::Batch;
use qd_io::IoFault;
use qd_manifest::Shape;
use qd_prepare::Prepared;
use qd_score::Booked;
use qd_sql_ast::Stmt;
use qd_store::{CommitFault, Committed, Draft, Merged, PublishFault, Store};
use qd_symbols::SymbolMap;
use qd_volume::Volume;
use qd_wal::one_entry_is_read;
use std::alloc::Global;
use std::marker::{Model, PhantomData};

/// How many bytes of transactions a round reads, where the first one has no more.
const ROUND_BYTES: u64 = 16 << 20;

/// A store with the history that is told of it, as it lies under the lock of a scoreboard.
///
/// Contracts see the store, the history, where it is told, and how often a block was removed. All transactions are written by one
/// writer.
#[derive(Drop)]
pub struct Desk<V: Volume + Drop> {
    pub(crate) store: Store<V>,
    telling: Telling,
    removed: u64,
    writer: Option<u32>,
}

impl<V: Volume + Drop> Model for Desk<V> {
    ghost use Rattle.qd_shared.specs.Desks.{Desk, IsDesk};

    ghost Value = { Desk };

    ghost view = { λ d. record { owned = d.store; history = d.telling.history; removed = d.removed } };

    ghost invariant = { λ d. IsDesk (record { owned = d.store; history = d.telling.history; removed = d.removed }) };
}

impl<V: Volume + Drop> Booked for Desk<V> {
    type Item = Item;

    type Shape = Shape;

    type Fixed = Fixed;

    ghost use Rattle.qd_manifest.specs.Spelling.{blocks_of};
    ghost use Rattle.qd_shared.specs.Desks.{book_of, fixed_of};

    ghost book = { book_of };

    ghost blocks = { blocks_of };

    ghost sound = { λ _. Unit {0} };

    ghost fixed = { fixed_of };

    fn version_n(&self) -> u64 {
        self.store.version_n()
    }
}

/// What is told behind a commit: one transaction more.
struct Behind<V> {
    marker: PhantomData<V>,
}

impl<V: Volume + Drop> Turning<(), Store<V>> for Behind<V> {
    ghost use Rattle.qd_store_backend.specs.Backs.{IsNextTold};

    ghost turns = { λ nothing owned before then. IsNextTold before owned then };
}

impl<V: Volume + Drop> Desk<V> {
    /// A store with the usual limits, of which the history is told that `told` has, or none. No block was removed yet.
    pub(crate) fn of(store: Store<V>, told: &Telling) -> Desk<V>
        requires usual { AreUsual store.store.limits }
        requires told { BeginsWith told.now.history store }
        ensures { result ≡ record { owned = store; history = told.now.history; removed = 0 } }
    {
        Desk {
            telling: Telling::of(told),
            store,
            removed: 0,
            writer: None,
        }
    }

    /// Gives the store back.
    pub(crate) fn into_store(self) -> Store<V>
        ensures store { result ≡ self.owned }
        ensures kept { IsDesk self }
    {
        let Desk {
            store,
            telling: _,
            removed: _,
            writer: _,
        } = self;
        store
    }

    /// Tells what a desk keeps, and what is told of its store: the schemas, and how many transactions there are. It does nothing.
    pub(crate) fn is_told(&self)
        ensures kept { IsDesk self.now }
        ensures counted { IsCounted self.now }
    {
        self.store.keeps_its_law();
    }

    /// Commits the transaction of a batch, as [`Store::accept_lines`] does. `ahead` may have what was made ready of it over the schemas
    /// that are `known`: it is taken where the store has the same. Else the store's are copied, so that they are known then, or none
    /// are where there is no memory.
    pub(crate) fn commit_lines(
        &mut self,
        alloc: Global,
        batch: &Batch,
        now: u64,
        known: &mut Option<Schemas>,
        ahead: Option<Prepared>,
    ) -> Result<Committed, CommitFault>
        requires read { IsRead batch.now }
        requires ahead { IfSome ahead (λ p. IfSome known.old (λ s. IsReady s now batch.now p)) }
        requires sound { IfSome known.old AreSchemas }
        ensures commits { CommitsTo (batch_at now batch.now) result self.old self.new }
        ensures sound { IfSome known.new AreSchemas }
    {
        one_entry_is_read();
        self.is_told();
        let ahead = if learn(known, self.store.schemas()) {
            ahead
        } else {
            None
        };
        let done = self
            .store
            .accept_lines(alloc, self.writer, batch, now, ahead)?;
        self.writer = Some(done.writer);
        self.telling
            .turn::<(), Store<V>, Behind<V>>(&(), &self.store);
        Ok(done)
    }

    /// Commits the transaction of a statement that writes, as [`Store::accept_sql`] does.
    pub(crate) fn commit_sql(
        &mut self,
        alloc: Global,
        stmt: &Stmt,
    ) -> Result<Committed, CommitFault>
        requires short { IsShort stmt.now }
        requires writes { IsWrite stmt.now }
        ensures commits { CommitsTo (statement stmt.now) result self.old self.new }
    {
        one_entry_is_read();
        self.is_told();
        let done = self.store.accept_sql(alloc, self.writer, stmt)?;
        self.writer = Some(done.writer);
        self.telling
            .turn::<(), Store<V>, Behind<V>>(&(), &self.store);
        Ok(done)
    }

    /// Copies the tables of the version of a live row, which is of `n` transactions.
    pub(crate) fn snap_of(&self, alloc: Global, row: u8, n: u64) -> Result<Snap, Memory>
        requires live { (x : catalog.Version) × (version_at self.now.owned.store.versions.versions row ≡ Some x) × (x.n ≡ n) }
        ensures number { IfOk result (λ s. s.n ≡ n) }
        ensures within { IfOk result (λ s. n ≤ length self.now.owned.store.sequence.refs) }
        ensures shape { IfOk result (λ s. (x : catalog.Version) → version_at self.now.owned.store.versions.versions row ≡ Some x → s.shape ≡ x.shape) }
        ensures copied { IfOk result (λ s. IsCopied s self.now.history) }
    {
        self.store.keeps_its_law();
        let shape = self.store.shape_of(row);
        let schemas = schemas_of(alloc, shape)?;
        Ok(Snap {
            n,
            shape: shape.copy()?,
            schemas,
        })
    }

    /// Reads the rows that a part of a live version shows, as [`Store::read_part`] does.
    pub(crate) fn read_part(
        &mut self,
        alloc: Global,
        row: u8,
        table: usize,
        i: usize,
    ) -> Result<Block<SymbolMap>, LogFault>
        requires there { (t : TableParts) × (p : Part) × IsPartAt self.old.owned.store.versions.versions row table i t p }
        ensures block { (t : TableParts) (p : Part) → IsPartAt self.old.owned.store.versions.versions row table i t p → IfOk result (λ b. IsBlockOf t.schema p b) }
        ensures whole { IfOk result (λ b. IsWhole b) }
        ensures shown { IfSome self.old.history (λ h. IsShownPart result self.old.owned.store h row table i) }
        ensures store { self.new.owned.store ≡ self.old.owned.store }
        ensures history { self.new.history ≡ self.old.history }
        ensures removed { self.new.removed ≡ self.old.removed }
        ensures counted { CountsVol self.old.owned.storage.faults self.new.owned.storage.faults result }
        ensures told { IsCounted self.old }
    {
        self.is_told();
        self.store.read_part(alloc, row, table, i)
    }

    /// How many transactions there are.
    pub(crate) fn hist_len(&self) -> u64
        ensures { result ≡ length self.now.owned.store.sequence.refs }
    {
        self.store.hist_len()
    }

    /// How many of them the current version shows.
    pub(crate) fn shown_n(&self) -> u64
        ensures shown { result ≡ n_in (current self.now.owned.store) }
        ensures live { current_n self.now.owned.store.versions.versions ≡ Some result }
        ensures within { result ≤ length self.now.owned.store.sequence.refs }
    {
        self.store.keeps_its_law();
        self.store.version_n()
    }

    /// Says whether a row is live and not the current one.
    pub(crate) fn may_retire(&self, row: u8) -> bool
        ensures may { IsTrue result ↔ (IsLive self.now.owned.store.versions.versions row × (row ≢ self.now.owned.store.versions.versions.current)) }
    {
        self.store.may_retire(row)
    }

    /// Lets a version go, as [`Store::retire`] does.
    pub(crate) fn retire(&mut self, row: u8)
        requires live { IsLive self.old.owned.store.versions.versions row }
        requires older { row ≢ self.old.owned.store.versions.versions.current }
        ensures retired { Retires self.old.owned.store.versions.versions self.new.owned.store.versions.versions row }
        ensures rest { IsRest self.old self.new }
        ensures removed { self.new.removed ≡ self.old.removed }
        ensures present { HasRows self.new }
    {
        self.store.retire(row);
        self.store.keeps_its_law();
    }

    /// The number that the next new block gets.
    pub(crate) fn next_block(&self) -> u64
        ensures { result ≡ self.now.owned.store.versions.versions.next_block }
    {
        self.store.next_block()
    }

    /// Says whether a merge, with new blocks from a number on, is into the current version, its blocks are the next ones, and the parts
    /// that it puts rows behind show all that was written to their blocks.
    pub(crate) fn fits(&self, merged: &Merged, next_block: u64) -> bool
        ensures fits { IsTrue result → (current_n self.now.owned.store.versions.versions ≡ Some merged.now.base) × (self.now.owned.store.versions.versions.next_block ≡ next_block) × Extends self.now.owned.store.versions.versions merged.now }
    {
        self.shown_n() == merged.base()
            && self.next_block() == next_block
            && self.store.extends(merged)
    }

    /// Drafts a round of the first `upto` transactions, as [`Store::draft`] does.
    pub(crate) fn draft(&mut self, alloc: Global, upto: u64) -> Result<Draft, RoundFault>
        requires few { upto ≤ length self.old.owned.store.sequence.refs }
        requires more { n_in (current self.old.owned.store) < upto }
        ensures over { IfOk result (λ d. IsDraftOver self.old.owned.store.versions.versions d) }
        ensures more { IfOk result (λ d. n_in (current self.old.owned.store) < d.plan.upto) }
        ensures most { IfOk result (λ d. d.plan.upto ≤ upto) }
        ensures told { IfOk result (λ d. IfSome self.old.history (λ h. IsDraftedFrom (Ok d) self.old.owned.store h upto)) }
        ensures store { self.new.owned.store ≡ self.old.owned.store }
        ensures history { self.new.history ≡ self.old.history }
        ensures removed { self.new.removed ≡ self.old.removed }
        ensures faults { self.old.owned.storage.faults ≤ self.new.owned.storage.faults }
        ensures fault { IfErr result (λ f. IsDraftFault f self.old self.new) }
    {
        self.store.keeps_its_law();
        match self.store.draft(alloc, upto) {
            Ok(draft) => Ok(draft),
            Err(cause) => Err(of_log(cause)),
        }
    }

    /// Up to which transaction a round goes at most: so far that its bytes are few, but no less than one further.
    fn round_end(&self) -> u64
        requires more { n_in (current self.now.owned.store) < length self.now.owned.store.sequence.refs }
        ensures more { n_in (current self.now.owned.store) < result }
        ensures few { result ≤ length self.now.owned.store.sequence.refs }
    {
        let shown = self.shown_n();
        shown + fitting(&self.store.refs()[shown as usize..], ROUND_BYTES) as u64
    }

    /// Begins a round: drafts transactions behind the current version, or says how many that shows where those are all.
    pub(crate) fn begin_round(&mut self, alloc: Global) -> Result<Begun, RoundFault>
        ensures store { self.new.owned.store ≡ self.old.owned.store }
        ensures history { self.new.history ≡ self.old.history }
        ensures removed { self.new.removed ≡ self.old.removed }
        ensures faults { self.old.owned.storage.faults ≤ self.new.owned.storage.faults }
        ensures begun { IsBegun result self.old self.new }
    {
        let all = self.hist_len();
        if self.shown_n() == all {
            return Ok(Begun::Shown { n: all });
        }
        let upto = self.round_end();
        let next_block = self.next_block();
        let draft = match self.draft(alloc, upto) {
            Ok(draft) => draft,
            Err(fault) => return Err(fault),
        };
        Ok(Begun::Drafted { draft, next_block })
    }

    /// Shows a merge into the current version by a version that takes its place, and gives its row.
    pub(crate) fn show_merged(&mut self, alloc: Global, merged: &Merged) -> Result<u8, RoundFault>
        requires few { merged.now.upto ≤ length self.old.owned.store.sequence.refs }
        requires next { IsNext self.old merged.now }
        ensures added { IfOk result (λ row. (shape : List TableParts) × Adds self.old.owned.store.versions.versions self.new.owned.store.versions.versions merged.now.upto shape row) }
        ensures same { OnErr result (SameVersions self.old.owned.store.versions.versions self.new.owned.store.versions.versions) }
        ensures rest { IsRest self.old self.new }
        ensures removed { self.new.removed ≡ self.old.removed }
        ensures present { HasRows self.new }
        ensures full { result ≡ Err fault.NoRow → IsFull self.old.owned.store.versions.versions }
        ensures whole { (file : ℕ) (at : ℕ) → result ≡ Err (fault.Damaged file at) → self.old.history ≡ None }
        ensures vol { result ≡ Err fault.Vol → HasRisen self.old.owned.storage.faults self.new.owned.storage.faults }
        ensures small { merged.now.upto ≤ MAX_TXNS }
    {
        merging_stands();
        self.store.keeps_its_law();
        let shown = self.store.publish(alloc, merged);
        self.store.keeps_its_law();
        let row = match shown {
            Ok(row) => row,
            Err(cause) => return Err(of_publish(cause)),
        };
        Ok(row)
    }

    /// Removes the blocks that no version lists any more, until none is left, the volume fails or there is no memory. It gives how
    /// many were removed.
    pub(crate) fn sweep_all(&mut self) -> Result<u64, IoFault>
        ensures versions { self.new.owned.store.versions.versions.versions ≡ self.old.owned.store.versions.versions.versions }
        ensures current { self.new.owned.store.versions.versions.current ≡ self.old.owned.store.versions.versions.current }
        ensures rest { IsRest self.old self.new }
        ensures removes { Removes self.old self.new }
        ensures rise { self.old.removed ≤ self.new.removed }
        ensures present { HasRows self.new }
        ensures purged { IsPurged result self.old self.new }
    {
        let before = self.removed;
        let swept = 'sweeps: loop {
            match self.store.sweep() {
                Ok(true) => self.removed = self.removed.saturating_add(1),
                Ok(false) => break Ok(()),
                Err(fault) => break Err(fault),
            }
        };
        self.store.keeps_its_law();
        match swept {
            Ok(()) => Ok(self.removed - before),
            Err(fault) => Err(fault),
        }
    }
}

/// How many of the first transactions have together no more than so many bytes: one at least.
fn fitting(refs: &[WalRef], most: u64) -> usize
    ensures some { 0 < length refs.now → 0 < result }
    ensures few { result ≤ length refs.now }
{
    let mut bytes: u64 = 0;
    for (i, at) in refs.iter().enumerate() {
        bytes = bytes.saturating_add(at.len);
        if bytes > most && i > 0 {
            return i;
        }
    }
    refs.len()
}

/// The fault of a draft, as that of a round.
fn of_log(cause: LogFault) -> RoundFault
    ensures { result ≡ drafts_fault cause }
{
    match cause {
        LogFault::Vol => RoundFault::Vol,
        LogFault::Damaged { file, at } => RoundFault::Damaged { file, at },
        LogFault::Memory => RoundFault::Memory,
    }
}

/// The fault of a publication into the current version, as that of a round.
fn of_publish(cause: PublishFault) -> RoundFault
    requires unmoved { (n : ℕ) → cause ≢ publish.Moved n }
    ensures { result ≡ publishes_fault cause }
{
    match cause {
        PublishFault::NoRow => RoundFault::NoRow,
        PublishFault::Vol => RoundFault::Vol,
        PublishFault::Damaged { file, at } => RoundFault::Damaged { file, at },
        PublishFault::Memory => RoundFault::Memory,
        PublishFault::Moved { .. } => unreachable!(),
    }
}
