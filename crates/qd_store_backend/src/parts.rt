//! The current version of a store, as a source of the parts of tables.
ghost use Rattle.std.specs.Prelude.{◌≡◌, ◌<◌, ◌≤◌, ℕ, [], Err, None, length, IfErr, IfOk, IfSome, OnErr, OnOk};
ghost use Rattle.qd_store_backend.specs.Backs.{current, kept_of, n_in, shape_in, source_of, AreToldCount, AreToldSchemas, CommitsTo, IsAlone, IsRoundDamaged, IsLastDamage, IsTold, IsToldWhole, LeavesNoOther, LeavesOwn, ShowsAll, ShowsNext};
ghost use Rattle.qd_store_backend.specs.Rounds.{IsSwept, StaysTold, number_in};
ghost use Rattle.qd_sequencer.specs.Sequences.{IsAsBefore, chosen};
ghost use Rattle.qd_durable.specs.declared.fault.LogFault.TheVariants as fault;
ghost use Rattle.qd_io.specs.Ends.{HasRisen};
ghost use Rattle.qd_lines.specs.declared.fault.LineFault.TheVariants as lines;
ghost use Rattle.qd_lines.specs.Walks.{IsLineFault};
ghost use Rattle.qd_manifest.specs.Spelling.{schemas_in};
ghost use Rattle.qd_meaning.specs.Write.{write};
ghost use Rattle.qd_prepare.specs.Prepared.{IsRead, IsShort};
ghost use Rattle.qd_sql_ast.specs.Kinds.{IsWrite};
ghost use Rattle.qd_sequencer.specs.Faults.{CountsFault};
ghost use Rattle.qd_store.specs.Arriving.{IsPlaced, SaysLines, SaysStmt};
ghost use Rattle.qd_store.specs.Faults.{Causes, IsFullFor, IsSettled};

use crate::kept::KeptBlocks;
use crate::rounds::{next_of, sweep_queue, turn_to};
use qd_apply::{merging_stands, schemas_of};
use qd_base::{PartList, Schemas};
use qd_block::Block;
use qd_durable::LogFault;
use qd_ghost::{Telling, Turning};
use qd_ilp::Batch;
use qd_io::IoFault;
use qd_scan::{PartFault, PartSource};
use qd_sql_ast::Stmt;
use qd_store::{CommitFault, Committed, Store};
use qd_symbols::SymbolMap;
use qd_volume::Volume;
use qd_wal::one_entry_is_read;
use std::alloc::Global;
use std::marker::{Model, PhantomData};
use std::sync::Arc;

/// The current version of a store, which it owns, as a source of parts. The blocks that were asked for last are kept until the next
/// version is shown; others are read from the volume.
///
/// Contracts see the store, and beside it the history, where it is told: no code reads that.
#[derive(Drop)]
pub struct StoreParts<V: Volume> {
    pub(crate) store: Store<V>,
    pub(crate) telling: Telling,
    pub(crate) schemas: Schemas,
    kept: KeptBlocks,
    damages: u64,
    last_damage: Option<(u64, u64)>,
}

impl<V: Volume> Model for StoreParts<V> {
    ghost use Rattle.qd_store_backend.specs.Backs.{Parts};
    ghost use Rattle.qd_store_backend.specs.Kept.{IsKeeping};

    ghost Value = { Parts };

    ghost view = { λ p. record { owned = p.store; history = p.telling.history; schemas = p.schemas; damages = p.damages; last_damage = p.last_damage } };

    ghost invariant = { λ p. IsKeeping (record { owned = p.store; history = p.telling.history; schemas = p.schemas; damages = p.damages; last_damage = p.last_damage }) p.kept.cache.entries };
}

impl<V: Volume> StoreParts<V> {
    /// Shows the current version of a store, with its schemas, and keeps no block yet. `telling` has the history, where it is told.
    pub(crate) fn over(
        store: Store<V>,
        telling: Telling,
        schemas: Schemas,
        kept: KeptBlocks,
    ) -> StoreParts<V>
        requires schemas { schemas ≡ schemas_in (shape_in (current store.store)) }
        requires told { IfSome telling.history (IsTold store) }
        requires none { kept.cache.entries ≡ [] }
        ensures store { result.owned ≡ store }
        ensures history { result.history ≡ telling.history }
    {
        StoreParts {
            store,
            telling,
            schemas,
            kept,
            damages: 0,
            last_damage: None,
        }
    }
}

/// A round that is done: all transactions are shown, and the blocks that no version lists any more are removed, or why some are left.
#[derive(Clone, Copy)]
pub(crate) struct Round {
    pub(crate) upto: u64,
    pub(crate) swept: Result<(), IoFault>,
}

/// What is told behind a commit: one transaction more.
struct Behind<V> {
    marker: PhantomData<V>,
}

impl<V: Volume> Turning<(), Store<V>> for Behind<V> {
    ghost use Rattle.qd_store_backend.specs.Backs.{IsNextTold};

    ghost turns = { λ nothing owned before then. IsNextTold before owned then };
}

impl<V: Volume> StoreParts<V> {
    /// Commits the transaction of a batch, as [`Store::accept_lines`] does.
    pub(crate) fn commit_lines(
        &mut self,
        alloc: Global,
        writer: Option<u32>,
        batch: &Batch,
        now: u64,
    ) -> Result<Committed, CommitFault>
        requires read { IsRead batch.now }
        ensures commits { CommitsTo result self.old self.new (SaysLines self.old.owned.store.sequence.schemas now batch.now) }
        ensures left { LeavesOwn self.old.owned self.new.owned (SaysLines self.old.owned.store.sequence.schemas now batch.now) }
        ensures writer { IfOk result (λ done. done.writer ≡ (chosen self.old.owned.store.sequence writer).wal) }
        ensures place { OnOk result (IsPlaced self.old.owned.store.limits self.old.owned.store.sequence self.new.owned.store.sequence writer) }
        ensures stays { OnErr result (IsAsBefore self.old.owned.store.sequence self.new.owned.store.sequence) }
        ensures count { IfOk result (λ done. done.n ≡ length self.new.owned.store.sequence.refs) }
        ensures settled { IsSettled result self.new.owned.store.sequence }
        ensures causes { IfErr result (Causes (λ code line. IsLineFault self.old.owned.store.sequence.schemas now batch.now (lines.Refused code line)) (IsFullFor self.old.owned.store (SaysLines self.old.owned.store.sequence.schemas now batch.now))) }
        ensures counted { CountsFault self.old.owned.storage.faults self.new.owned.storage.faults result }
    {
        one_entry_is_read();
        self.last_damage = None;
        let done = self.store.accept_lines(alloc, writer, batch, now, None)?;
        self.telling
            .turn::<(), Store<V>, Behind<V>>(&(), &self.store);
        Ok(done)
    }

    /// Commits the transaction of a statement that writes, as [`Store::accept_sql`] does.
    pub(crate) fn commit_sql(
        &mut self,
        alloc: Global,
        writer: Option<u32>,
        stmt: &Stmt,
    ) -> Result<Committed, CommitFault>
        requires short { IsShort stmt.now }
        requires writes { IsWrite stmt.now }
        ensures commits { CommitsTo result self.old self.new (SaysStmt self.old.owned.store.sequence.schemas stmt.now) }
        ensures left { LeavesOwn self.old.owned self.new.owned (SaysStmt self.old.owned.store.sequence.schemas stmt.now) }
        ensures writer { IfOk result (λ done. done.writer ≡ (chosen self.old.owned.store.sequence writer).wal) }
        ensures place { OnOk result (IsPlaced self.old.owned.store.limits self.old.owned.store.sequence self.new.owned.store.sequence writer) }
        ensures stays { OnErr result (IsAsBefore self.old.owned.store.sequence self.new.owned.store.sequence) }
        ensures count { IfOk result (λ done. done.n ≡ length self.new.owned.store.sequence.refs) }
        ensures settled { IsSettled result self.new.owned.store.sequence }
        ensures causes { IfErr result (Causes (λ code place. write self.old.owned.store.sequence.schemas stmt.now ≡ Err (record { code = code; place = place })) (IsFullFor self.old.owned.store (SaysStmt self.old.owned.store.sequence.schemas stmt.now))) }
        ensures counted { CountsFault self.old.owned.storage.faults self.new.owned.storage.faults result }
    {
        one_entry_is_read();
        self.last_damage = None;
        let done = self.store.accept_sql(alloc, writer, stmt)?;
        self.telling
            .turn::<(), Store<V>, Behind<V>>(&(), &self.store);
        Ok(done)
    }

    /// Makes all transactions the current version, in rounds, and removes the blocks that no version lists any more, as far as the
    /// volume lets it. It gives the number of the transactions, and how the removal went.
    ///
    /// The draft, its merge and its publication are a round, which lets the version before go, and ends before the next transaction
    /// that sets keys. After an `Err` the current version is the one of the last round.
    pub(crate) fn show_all(&mut self, alloc: Global) -> Result<Round, LogFault>
        requires alone { IsAlone self.old }
        ensures alone { IsAlone self.new }
        ensures shows { ShowsAll (number_in result) self.old self.new }
        ensures swept { IfOk result (λ round. IsSwept round.swept self.old.owned self.new.owned) }
        ensures left { LeavesNoOther self.old.owned self.new.owned }
        ensures sound { (file : ℕ) (at : ℕ) → result ≡ Err (fault.Damaged file at) → self.old.history ≡ None }
        ensures damaged { (file : ℕ) (at : ℕ) → result ≡ Err (fault.Damaged file at) → IsRoundDamaged self.new.owned file at }
        ensures vol { result ≡ Err fault.Vol → HasRisen self.old.owned.storage.faults self.new.owned.storage.faults }
        ensures faults { self.old.owned.storage.faults ≤ self.new.owned.storage.faults }
    {
        let upto = self.show_new(alloc)?;
        let swept = self.sweep_all();
        Ok(Round { upto, swept })
    }

    /// Makes all transactions the current version, in as many rounds as it takes, and gives their number.
    fn show_new(&mut self, alloc: Global) -> Result<u64, LogFault>
        requires alone { IsAlone self.old }
        ensures alone { IsAlone self.new }
        ensures shows { ShowsAll result self.old self.new }
        ensures stays { StaysTold self.old.owned self.new.owned }
        ensures left { LeavesNoOther self.old.owned self.new.owned }
        ensures sound { (file : ℕ) (at : ℕ) → result ≡ Err (fault.Damaged file at) → self.old.history ≡ None }
        ensures damaged { (file : ℕ) (at : ℕ) → result ≡ Err (fault.Damaged file at) → IsRoundDamaged self.new.owned file at }
        ensures vol { result ≡ Err fault.Vol → HasRisen self.old.owned.storage.faults self.new.owned.storage.faults }
        ensures faults { self.old.owned.storage.faults ≤ self.new.owned.storage.faults }
    {
        let upto = self.all_n();
        'rounds: while self.shown_n() < upto {
            self.show_next(alloc, upto)?;
        }
        Ok(upto)
    }

    /// Makes a round of the transactions behind the current version, up to a number, the current version, and lets the one before go.
    fn show_next(&mut self, alloc: Global, upto: u64) -> Result<(), LogFault>
        requires alone { IsAlone self.old }
        requires all { upto ≡ length self.old.owned.store.sequence.refs }
        requires more { n_in (current self.old.owned.store) < upto }
        ensures alone { IsAlone self.new }
        ensures shows { ShowsNext result self.old self.new }
        ensures stays { StaysTold self.old.owned self.new.owned }
        ensures left { LeavesNoOther self.old.owned self.new.owned }
        ensures sound { (file : ℕ) (at : ℕ) → result ≡ Err (fault.Damaged file at) → self.old.history ≡ None }
        ensures damaged { (file : ℕ) (at : ℕ) → result ≡ Err (fault.Damaged file at) → IsRoundDamaged self.new.owned file at }
        ensures vol { result ≡ Err fault.Vol → HasRisen self.old.owned.storage.faults self.new.owned.storage.faults }
        ensures faults { self.old.owned.storage.faults ≤ self.new.owned.storage.faults }
    {
        merging_stands();
        self.store.keeps_its_law();
        self.kept.forget();
        self.last_damage = None;
        let merged = next_of(&mut self.store, alloc, upto)?;
        let schemas = schemas_of(alloc, merged.shape())?;
        turn_to(&mut self.store, alloc, &merged)?;
        self.schemas = schemas;
        Ok(())
    }

    /// Removes blocks that no version lists any more, until none is left, the volume fails or there is no memory.
    fn sweep_all(&mut self) -> Result<(), IoFault>
        requires alone { IsAlone self.old }
        ensures swept { IsSwept result self.old.owned self.new.owned }
        ensures alone { IsAlone self.new }
        ensures shown { n_in (current self.new.owned.store) ≡ n_in (current self.old.owned.store) }
        ensures sequence { self.new.owned.store.sequence ≡ self.old.owned.store.sequence }
        ensures limits { self.new.owned.store.limits ≡ self.old.owned.store.limits }
        ensures told { self.new.history ≡ self.old.history }
        ensures left { LeavesNoOther self.old.owned self.new.owned }
        ensures damages { self.new.damages ≡ self.old.damages }
        ensures faults { self.old.owned.storage.faults ≤ self.new.owned.storage.faults }
    {
        self.last_damage = None;
        sweep_queue(&mut self.store)
    }

    /// Gives how many transactions the current version shows, in constant time: no more than there are.
    pub(crate) fn shown_n(&self) -> u64
        ensures n { result ≡ n_in (current self.now.owned.store) }
        ensures within { result ≤ length self.now.owned.store.sequence.refs }
    {
        self.store.keeps_its_law();
        self.store.version_n()
    }

    /// Gives how many transactions there are, in constant time.
    fn all_n(&self) -> u64
        ensures n { result ≡ length self.now.owned.store.sequence.refs }
    {
        self.store.hist_len()
    }

    /// Gives the store back.
    pub(crate) fn into_store(self) -> Store<V>
        ensures store { result ≡ self.owned }
    {
        let StoreParts {
            store,
            telling: _,
            schemas: _,
            kept: _,
            damages: _,
            last_damage: _,
        } = self;
        store
    }

    /// Tells what is told of the store: its schemas, how many transactions there are, and that no damage was found. It does
    /// nothing.
    pub(crate) fn is_told(&self)
        ensures schemas { AreToldSchemas self.now }
        ensures count { AreToldCount self.now }
        ensures whole { IsToldWhole self.now }
        ensures told { IfSome self.now.history (IsTold self.now.owned) }
        ensures damage { IsLastDamage self.now.owned self.now.last_damage }
    {
        self.store.keeps_its_law();
    }
}

impl<V: Volume> PartSource for StoreParts<V> {
    type Fixed = StoreParts<V>;

    ghost shown = { source_of };

    ghost asked = { λ _. None };

    ghost fixed = { kept_of };

    fn schemas(&self) -> &Schemas {
        &self.schemas
    }

    fn parts(&self, table: usize) -> &PartList {
        let row = self.store.current();
        &self.store.shape_of(row).get(table).parts
    }

    /// Gives the block of a part: the one that is kept, or else it is read from the volume, as [`Store::read_part`] does, and kept.
    fn part(
        &mut self,
        alloc: Global,
        table: usize,
        i: usize,
    ) -> Result<Arc<Block<SymbolMap>>, PartFault> {
        if let Some(block) = self.kept.find(table, i)? {
            return Ok(block);
        }
        let row = self.store.current();
        match self.store.read_part(alloc, row, table, i) {
            Ok(block) => Ok(self.kept.share(alloc, table, i, block)?),
            Err(LogFault::Vol) => Err(PartFault::Vol),
            Err(LogFault::Damaged { file, at }) => {
                self.damages = self.damages.saturating_add(1);
                self.last_damage = Some((file, at));
                Err(PartFault::Damaged { file, at })
            }
            Err(LogFault::Memory) => Err(PartFault::Memory),
        }
    }

    fn keeps_its_law(&self) {
        self.store.keeps_its_law();
    }
}
