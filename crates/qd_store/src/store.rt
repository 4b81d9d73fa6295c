//! A store that owns its volume.
ghost use Rattle.qd_base.specs.declared.op.Entry.{Entry};
ghost use Rattle.qd_base.specs.declared.part.Part.{Part};
ghost use Rattle.qd_base.specs.Lawful.{AreSchemas};
ghost use Rattle.qd_block.specs.Blocks.{IsWhole};
ghost use Rattle.qd_catalog.specs.declared.version.Version as shown;
ghost use Rattle.qd_catalog.specs.Versions.{Adds, IsLive, Retires, SameVersions, Sweeps, current_n, n_of, version_at};
ghost use Rattle.qd_durable.specs.declared.fault.LogFault.TheVariants as damage;
ghost use Rattle.qd_durable.specs.Faults.{CountsVol};
ghost use Rattle.qd_durable.specs.Moments.{Told};
ghost use Rattle.qd_column_files.specs.Reading.{IsBlockRead};
ghost use Rattle.qd_io.specs.Ends.{Counts};
ghost use Rattle.qd_lines.specs.declared.fault.LineFault.TheVariants as lines;
ghost use Rattle.qd_lines.specs.Walks.{IsLineFault};
ghost use Rattle.qd_manifest.specs.declared.shape.TableParts.{TableParts};
ghost use Rattle.qd_meaning.specs.Write.{write};
ghost use Rattle.qd_prepare.specs.Prepared.{IsRead, IsShort};
ghost use Rattle.qd_sql_ast.specs.Kinds.{IsWrite};
ghost use Rattle.qd_scan.specs.Sources.{IsBlockOf};
ghost use Rattle.qd_sequencer.specs.Faults.{CountsFault};
ghost use Rattle.qd_sequencer.specs.Sequences.{IsAsBefore, chosen, without_writer};
ghost use Rattle.qd_store.specs.declared.fault.PublishFault.TheVariants as fault;
ghost use Rattle.qd_store.specs.Arriving.{IsBehind, IsPlaced, IsReady, SaysLines, SaysStmt};
ghost use Rattle.qd_store.specs.Calls.{Commits, Creates, Stands};
ghost use Rattle.qd_store.specs.Damage.{IsDraftDamage};
ghost use Rattle.qd_store.specs.Drafts.{Extends, IsDraftOver, IsDraftedFrom, IsMergedOver};
ghost use Rattle.qd_store.specs.Faults.{Causes, CountsOpen, CountsPublish, IsFullFor, IsMoved, IsSettled};
ghost use Rattle.qd_store.specs.Merges.{PublishesMerged};
ghost use Rattle.qd_store.specs.Opening.{HasFirstRow, Opens};
ghost use Rattle.qd_store.specs.Owned.{IsOfVolume, storage_in, store_in};
ghost use Rattle.qd_store.specs.Reading.{IsShownPart};
ghost use Rattle.qd_store.specs.Stores.{AreLimits, IsBook, IsStore};
ghost use Rattle.qd_txnfile.specs.Versions.{Version};
ghost use Rattle.qd_versions.specs.Calls.{IsSwept};
ghost use Rattle.qd_versions.specs.Publishing.{IsFull, IsGrownLost};
ghost use Rattle.qd_versions.specs.Reading.{IsPartAt};
ghost use Rattle.qd_versions.specs.Stores as versions;
ghost use Rattle.qd_volume.specs.Disk.{Disk, reads_of};
ghost use Rattle.std.specs.Prelude.{◌≡◌, ◌≢◌, ◌↔◌, ◌+◌, ◌<◌, ◌≤◌, ℕ, [], true, false, List, Some, None, Ok, Err, length, IfErr, IfOk, IfSome, IsTrue, OnErr, OnOk};

use crate::book::Book;
use crate::drafting::Draft;
use crate::fault::{OpenFault, PublishFault};
use crate::merging::Merged;
use crate::opening::open;
use qd_base::{Limits, Schemas, WalRef};
use qd_block::Block;
use qd_durable::LogFault;
use qd_ilp::Batch;
use qd_io::IoFault;
use qd_manifest::Shape;
use qd_prepare::Prepared;
use qd_sequencer::{CommitFault, Committed};
use qd_sql_ast::Stmt;
use qd_symbols::SymbolMap;
use qd_volume::Volume;
use std::alloc::Global;
use std::marker::Model;

/// A store, which owns its volume: it commits transactions, shows prefixes of their history as versions, and removes what no
/// version lists.
///
/// Contracts see a `Store`. What that says of a told volume is the definition `IsStore`: the sequencer stands behind a history,
/// and each live version stands for its first transactions. `specs/Calls` and `specs/Merges` say what each call may leave of the
/// volume at every moment of it, and that `IsStore` holds behind it.
#[derive(Drop)]
pub struct Store<V: Volume> {
    book: Book,
    volume: V,
}

impl<V: Volume> Model for Store<V> {
    ghost use Rattle.qd_store.specs.Owned.{Store};

    ghost Value = { Store };

    ghost view = { λ s. record { store = s.book; storage = V.storage s.volume } };
}

/// A volume without a store, and why it has none.
#[derive(Drop)]
pub struct Unmade<V: Volume> {
    /// The volume that was handed in.
    pub volume: V,
    /// Why there is no store.
    pub why: OpenFault,
}

impl<V: Volume> Model for Unmade<V> {
    ghost use Rattle.qd_store.specs.Owned.{Left};

    ghost Value = { Left };

    ghost view = { λ u. record { storage = V.storage u.volume; why = u.why } };
}

impl<V: Volume> Store<V> {
    /// Makes a store without a transaction on a volume without one: its one version is live and shows none, and nothing is pending. It
    /// costs five writes and four syncs.
    ///
    /// Where the volume was not made before, a crash leaves at each moment a volume that isn't made, or the whole store without a
    /// transaction; after an `Ok` only that. An `Err` gives the volume back: it failed, or there was no memory, and the call may
    /// be made again.
    pub fn create(alloc: Global, volume: V, limits: Limits) -> Result<Store<V>, Unmade<V>>
        requires limits { AreLimits limits }
        ensures limits { IfOk result (λ s. s.store.limits ≡ limits) }
        ensures empty { IfOk result (λ s. (s.store.sequence.refs ≡ []) × (s.store.versions.root.n ≡ 0)) }
        ensures clean { IfOk result (λ s. s.store.sequence.pending ≡ None) }
        ensures alone { IfOk result (λ s. (row : ℕ) → IsLive s.store.versions.versions row → row ≡ s.store.versions.versions.current) }
        ensures first { IfOk result (λ s. HasFirstRow s.store.versions.versions) }
        ensures causes { IfErr result IsOfVolume }
        ensures told { Told (V.storage volume).disk (storage_in result).disk (Creates (store_in result)) }
        ensures counted { CountsOpen (V.storage volume).faults (storage_in result).faults (store_in result) }
    {
        let mut volume = volume;
        match Book::create(alloc, &mut volume, limits) {
            Ok(book) => Ok(Store { book, volume }),
            Err(cause) => Err(Unmade {
                volume,
                why: OpenFault::from(cause),
            }),
        }
    }

    /// Opens the store of a volume: it takes over the log, the version that the volume shows, and the schemas behind all
    /// transactions. It costs four syncs, the log in large reads, the version files, and two calls of the volume for each
    /// transaction behind the version; time and memory linear in what it reads, but that transactions are kept one at a time.
    ///
    /// A whole volume is opened with exactly the history and the version that are found there. Nothing is pending then, and that
    /// version is the only live one. An `Err` gives the volume back, with each file as it was: [`OpenFault::NotMade`] comes exactly
    /// where the mark isn't there, [`OpenFault::Damaged`] only where the files are damaged at that place, and never of a whole volume.
    /// Behind [`OpenFault::Vol`] and [`OpenFault::Memory`] the call may be made again.
    pub fn open_store(alloc: Global, volume: V, limits: Limits) -> Result<Store<V>, Unmade<V>>
        requires limits { AreLimits limits }
        ensures limits { IfOk result (λ s. s.store.limits ≡ limits) }
        ensures clean { IfOk result (λ s. s.store.sequence.pending ≡ None) }
        ensures alone { IfOk result (λ s. (row : ℕ) → IsLive s.store.versions.versions row → row ≡ s.store.versions.versions.current) }
        ensures first { IfOk result (λ s. HasFirstRow s.store.versions.versions) }
        ensures told { Told (V.storage volume).disk (storage_in result).disk (Opens (store_in result)) }
        ensures counted { CountsOpen (V.storage volume).faults (storage_in result).faults (store_in result) }
    {
        let mut volume = volume;
        match open(alloc, &mut volume, limits) {
            Ok(book) => Ok(Store { book, volume }),
            Err(why) => Err(Unmade { volume, why }),
        }
    }

    /// Commits the transaction of a batch, which is written behind those of a writer: lines without a stamp take the time `now`, in
    /// microseconds. A writer that isn't kept is replaced by a new one, whose number is that of the transactions before its first.
    /// It makes no rows; it costs three writes and three syncs, time and memory linear in the batch, and a copy of all schemas where
    /// the batch makes a table or a column. All memory of its own is taken before the first write. Where `ahead` has what
    /// `prepare_lines` of `qd_prepare` made ready over the store's schemas, the batch isn't read again.
    ///
    /// After an `Ok` the transaction is there for good, as the last of the history. At each moment a crash leaves a whole store with
    /// the history, or with one transaction more: this one, or the one of an earlier commit that failed. After an `Err` all is as
    /// before, and the call may be made again. What an earlier commit left is settled first, so that [`CommitFault::Vol`] comes before
    /// [`CommitFault::Refused`]; then comes [`CommitFault::Full`], exactly where there are as many transactions as may be, and at last
    /// [`CommitFault::Vol`] of the writes. Nothing is pending behind an `Ok`, `Refused` and `Full`.
    pub fn accept_lines(
        &mut self,
        alloc: Global,
        writer: Option<u32>,
        batch: &Batch,
        now: u64,
        ahead: Option<Prepared>,
    ) -> Result<Committed, CommitFault>
        requires read { IsRead batch.now }
        requires ahead { IfSome ahead (IsReady self.old.store.sequence.schemas now batch.now) }
        ensures limits { self.new.store.limits ≡ self.old.store.limits }
        ensures count { IfOk result (λ done. done.n ≡ length self.new.store.sequence.refs) }
        ensures writer { IfOk result (λ done. done.writer ≡ (chosen self.old.store.sequence writer).wal) }
        ensures place { OnOk result (IsPlaced self.old.store.limits self.old.store.sequence self.new.store.sequence writer) }
        ensures stays { OnErr result (IsAsBefore self.old.store.sequence self.new.store.sequence) }
        ensures versions { self.new.store.versions ≡ self.old.store.versions }
        ensures said { OnOk result (IsBehind self.old.store.sequence.schemas self.new.store.sequence.schemas (SaysLines self.old.store.sequence.schemas now batch.now)) }
        ensures room { OnOk result (length self.old.store.sequence.refs < self.old.store.limits.max_txns) }
        ensures settled { IsSettled result self.new.store.sequence }
        ensures causes { IfErr result (Causes (λ code line. IsLineFault self.old.store.sequence.schemas now batch.now (lines.Refused code line)) (IsFullFor self.old.store (SaysLines self.old.store.sequence.schemas now batch.now))) }
        ensures told { Told self.old.storage.disk self.new.storage.disk (Commits result self.old.store self.new.store (SaysLines self.old.store.sequence.schemas now batch.now)) }
        ensures counted { CountsFault self.old.storage.faults self.new.storage.faults result }
    {
        self.book
            .accept_lines(alloc, &mut self.volume, writer, batch, now, ahead)
    }

    /// Commits the transaction of a statement that writes, as [`Store::accept_lines`] does that of a batch.
    pub fn accept_sql(
        &mut self,
        alloc: Global,
        writer: Option<u32>,
        stmt: &Stmt,
    ) -> Result<Committed, CommitFault>
        requires short { IsShort stmt.now }
        requires writes { IsWrite stmt.now }
        ensures limits { self.new.store.limits ≡ self.old.store.limits }
        ensures count { IfOk result (λ done. done.n ≡ length self.new.store.sequence.refs) }
        ensures writer { IfOk result (λ done. done.writer ≡ (chosen self.old.store.sequence writer).wal) }
        ensures place { OnOk result (IsPlaced self.old.store.limits self.old.store.sequence self.new.store.sequence writer) }
        ensures stays { OnErr result (IsAsBefore self.old.store.sequence self.new.store.sequence) }
        ensures versions { self.new.store.versions ≡ self.old.store.versions }
        ensures said { OnOk result (IsBehind self.old.store.sequence.schemas self.new.store.sequence.schemas (SaysStmt self.old.store.sequence.schemas stmt.now)) }
        ensures room { OnOk result (length self.old.store.sequence.refs < self.old.store.limits.max_txns) }
        ensures settled { IsSettled result self.new.store.sequence }
        ensures causes { IfErr result (Causes (λ code place. write self.old.store.sequence.schemas stmt.now ≡ Err (record { code = code; place = place })) (IsFullFor self.old.store (SaysStmt self.old.store.sequence.schemas stmt.now))) }
        ensures told { Told self.old.storage.disk self.new.storage.disk (Commits result self.old.store self.new.store (SaysStmt self.old.store.sequence.schemas stmt.now)) }
        ensures counted { CountsFault self.old.storage.faults self.new.storage.faults result }
    {
        self.book.accept_sql(alloc, &mut self.volume, writer, stmt)
    }

    /// Forgets a writer: none of its log's segments is written again. It costs time linear in the writers that are kept.
    pub fn end_writer(&mut self, writer: u32)
        ensures limits { self.new.store.limits ≡ self.old.store.limits }
        ensures forgotten { self.new.store.sequence ≡ record self.old.store.sequence { writers = without_writer self.old.store.sequence.writers writer } }
        ensures versions { self.new.store.versions ≡ self.old.store.versions }
        ensures storage { self.new.storage ≡ self.old.storage }
        ensures holds { (h : List Entry) (next : Version) (disk : Disk) → IsStore self.old.store h next disk → IsStore self.new.store h next disk }
    {
        self.book.end_writer(writer);
    }

    /// Drafts transactions behind the current version, up to a number: the first one, and those behind it before the next one that
    /// sets keys, since keys hold for rows that come after. So a draft may give fewer than were asked for, and one at least; the next
    /// one goes on behind these.
    ///
    /// It reads them and plans their merge, and reads of the parts that rows are merged into, no others, the designated times, and the
    /// other columns from the first row on that is written anew: of the rows before all late ones nothing else is read where so many
    /// stay as they lie as the limits ask. It costs two calls of the volume for each transaction that it reads, which are those that it
    /// gives and the one that sets keys behind them, and for each column of such a part, and up to three more for one of texts, and
    /// time and memory linear in what it reads, n log n where rows are late, and in the lists of parts.
    ///
    /// The store and what its volume holds stay as they are. [`LogFault::Damaged`] says what breaks first: the first of the transactions
    /// that isn't spelled, or not lawful behind those before it; or the first block of those that are read whose files were found to
    /// break their layout, or not to be the part's. It comes only where that file is damaged at that byte, and never where `IsStore`
    /// holds; damage in front of the rows that are read, or behind the transactions, may go unseen. Behind [`LogFault::Vol`] and
    /// [`LogFault::Memory`] the call may be made again.
    pub fn draft(&mut self, alloc: Global, upto: u64) -> Result<Draft, LogFault>
        requires more { (n : ℕ) → current_n self.old.store.versions.versions ≡ Some n → n < upto }
        requires few { upto ≤ length self.old.store.sequence.refs }
        ensures over { IfOk result (λ d. IsDraftOver self.old.store.versions.versions d) }
        ensures upto { IfOk result (λ d. (d.plan.base < d.plan.upto) × (d.plan.upto ≤ upto)) }
        ensures split { IfOk result (λ d. d.plan.split_rows ≡ self.old.store.limits.split_rows) }
        ensures told { IfSome self.old.storage.disk (λ disk. (h : List Entry) (next : Version) → IsStore self.old.store h next disk → IsDraftedFrom result self.old.store h upto) }
        ensures damaged { IfSome self.old.storage.disk (λ disk. (file at : ℕ) → result ≡ Err (damage.Damaged file at) → IsDraftDamage self.old.store upto (reads_of disk) file at) }
        ensures store { self.new.store ≡ self.old.store }
        ensures stays { self.new.storage.disk ≡ self.old.storage.disk }
        ensures counted { CountsVol self.old.storage.faults self.new.storage.faults result }
    {
        self.book.draft(alloc, &mut self.volume, upto)
    }

    /// Says whether a merge still fits the files: each part that it puts rows behind is one of the current version, and shows all rows
    /// that were written to its block. It takes time linear in the parts that the merge puts rows behind, on average.
    pub fn extends(&self, merged: &Merged) -> bool
        ensures extends { IsTrue result ↔ Extends self.now.store.versions.versions merged.now }
    {
        self.book.extends(merged)
    }

    /// Publishes a merge, whose transactions are the next ones of the history, and gives the row of its version: it is live and the
    /// current one then. It reads what the rows that go behind those of parts go on with, where that isn't kept since these grew last;
    /// it writes the files of the new blocks and those rows, two writes and two syncs for each file, and then the version, and costs
    /// time and memory linear in them, in the texts that SYMBOL columns of blocks that grow have named, and in the lists of parts.
    ///
    /// At each moment a crash leaves a whole store with the history, and the version that it might have left before, or the new one;
    /// after an `Ok` only that. After an `Err` the versions are as before. [`PublishFault::Moved`] comes exactly where the current
    /// version isn't of as many transactions as the one that was merged into; the store and what its volume holds are as before then.
    /// Else [`PublishFault::NoRow`] comes exactly where all 64 rows are live. [`PublishFault::Damaged`] comes only where the files of a
    /// block that rows are put behind are damaged at that byte, and never where `IsStore` holds; the store and what its volume holds
    /// are as before then. Behind [`PublishFault::Vol`] and [`PublishFault::Memory`] the call may be made again.
    pub fn publish(&mut self, alloc: Global, merged: &Merged) -> Result<u8, PublishFault>
        requires few { merged.now.upto ≤ length self.old.store.sequence.refs }
        requires over { current_n self.old.store.versions.versions ≡ Some merged.now.base → IsMergedOver self.old.store.versions.versions merged.now }
        ensures limits { self.new.store.limits ≡ self.old.store.limits }
        ensures sequence { self.new.store.sequence ≡ self.old.store.sequence }
        ensures added { IfOk result (λ row. Adds self.old.store.versions.versions self.new.store.versions.versions merged.now.upto merged.now.shape row) }
        ensures same { OnErr result (SameVersions self.old.store.versions.versions self.new.store.versions.versions) }
        ensures moved { (n : ℕ) → (result ≡ Err (fault.Moved n)) ↔ IsMoved self.old.store.versions.versions merged.now.base n }
        ensures full { (result ≡ Err fault.NoRow) ↔ ((current_n self.old.store.versions.versions ≡ Some merged.now.base) × IsFull self.old.store.versions.versions) }
        ensures damaged { IfSome self.old.storage.disk (λ disk. (file at : ℕ) → result ≡ Err (fault.Damaged file at) → IsGrownLost self.old.store.versions.versions merged.now.grown file at (reads_of disk)) }
        ensures unwritten { (file at : ℕ) → result ≡ Err (fault.Damaged file at) → (self.new.storage.disk ≡ self.old.storage.disk) × (self.new.store ≡ self.old.store) }
        ensures unmoved { (n : ℕ) → result ≡ Err (fault.Moved n) →
            (self.new.storage.disk ≡ self.old.storage.disk) × (self.new.store ≡ self.old.store) }
        ensures told { Told self.old.storage.disk self.new.storage.disk (PublishesMerged result self.old.store self.new.store merged.now) }
        ensures counted { CountsPublish self.old.storage.faults self.new.storage.faults result }
    {
        self.book.publish_merged(alloc, &mut self.volume, merged)
    }

    /// Says whether a row is live and not the current one, in constant time.
    pub fn may_retire(&self, row: u8) -> bool
        ensures may { IsTrue result ↔ (IsLive self.now.store.versions.versions row × (row ≢ self.now.store.versions.versions.current)) }
    {
        self.book.versions.may_retire(row)
    }

    /// Lets a version go that is live and not the current one. The blocks that no live version lists any more are queued to be swept.
    /// It calls no volume, and costs time linear in the lists of the version's parts.
    pub fn retire(&mut self, row: u8)
        requires live { IsLive self.old.store.versions.versions row }
        requires older { row ≢ self.old.store.versions.versions.current }
        ensures limits { self.new.store.limits ≡ self.old.store.limits }
        ensures retired { Retires self.old.store.versions.versions self.new.store.versions.versions row }
        ensures sequence { self.new.store.sequence ≡ self.old.store.sequence }
        ensures storage { self.new.storage ≡ self.old.storage }
        ensures holds { (h : List Entry) (next : Version) (disk : Disk) → IsStore self.old.store h next disk → IsStore self.new.store h next disk }
    {
        self.book.retire(row);
    }

    /// Removes the files of the block at the front of the queue of those that no version lists any more, and takes it out of the queue;
    /// `false` says that the queue is empty. What a publication that failed left is settled first. It costs two calls of the volume for
    /// each column that a table may have.
    ///
    /// At each moment a crash leaves a whole store with the history, and the version that it might have left before. After an `Err`
    /// the block is in the queue as before, and the call may be made again.
    pub fn sweep(&mut self) -> Result<bool, IoFault>
        ensures limits { self.new.store.limits ≡ self.old.store.limits }
        ensures swept { IfOk result (λ swept. swept ≡ true → (block : ℕ) × Sweeps self.old.store.versions.versions self.new.store.versions.versions block) }
        ensures idle { result ≡ Ok false → (self.old.store.versions.versions.retired ≡ []) × (self.new ≡ self.old) }
        ensures same { OnErr result (self.new.store.versions.versions ≡ self.old.store.versions.versions) }
        ensures sequence { self.new.store.sequence ≡ self.old.store.sequence }
        ensures told { Told self.old.storage.disk self.new.storage.disk (Stands self.old.store self.new.store) }
        ensures gone { Told self.old.storage.disk self.new.storage.disk (λ before after. IsSwept result self.old.store.versions.versions.retired after) }
        ensures counted { Counts self.old.storage.faults self.new.storage.faults result }
    {
        self.book.sweep(&mut self.volume)
    }

    /// Reads the rows that a part of a live version shows: of the table of a position, the part of a position. It costs two calls of
    /// the volume for each column, two more for one of texts, and time and memory linear in the rows.
    ///
    /// They are the table's rows between the part's first and last time. The store and what its volume holds stay as they are.
    /// [`LogFault::Damaged`] says where a file of the block breaks its layout or isn't the part's; it never comes where `IsStore` holds.
    pub fn read_part(
        &mut self,
        alloc: Global,
        row: u8,
        table: usize,
        i: usize,
    ) -> Result<Block<SymbolMap>, LogFault>
        requires there { (t : TableParts) × (p : Part) × IsPartAt self.old.store.versions.versions row table i t p }
        ensures block { (t : TableParts) (p : Part) → IsPartAt self.old.store.versions.versions row table i t p → IfOk result (λ b. IsBlockOf t.schema p b) }
        ensures whole { IfOk result (λ b. IsWhole b) }
        ensures told { (t : TableParts) (p : Part) → IsPartAt self.old.store.versions.versions row table i t p → IfSome self.old.storage.disk (λ disk. IsBlockRead result t.schema p (reads_of disk)) }
        ensures shown { IfSome self.old.storage.disk (λ disk. (h : List Entry) (next : Version) → IsStore self.old.store h next disk → IsShownPart result self.old.store h row table i) }
        ensures store { self.new.store ≡ self.old.store }
        ensures stays { self.new.storage.disk ≡ self.old.storage.disk }
        ensures counted { CountsVol self.old.storage.faults self.new.storage.faults result }
    {
        self.book.read_part(alloc, &mut self.volume, row, table, i)
    }

    /// Tells what every store keeps, whatever its volume tells. It does nothing.
    pub fn keeps_its_law(&self)
        ensures book { IsBook self.now.store }
        ensures versions { versions.IsStore self.now.store.versions }
    {
        self.book.keeps_its_law();
    }

    /// Gives the number of transactions that the current version shows, in constant time.
    pub fn version_n(&self) -> u64
        ensures n { current_n self.now.store.versions.versions ≡ Some result }
    {
        let versions = &self.book.versions;
        versions.keeps_its_law();
        versions.n_of(versions.current()).unwrap_or(0)
    }

    /// Gives the number of transactions of the history, in constant time.
    pub fn hist_len(&self) -> u64
        ensures count { result ≡ length self.now.store.sequence.refs }
    {
        self.book.sequencer.len()
    }

    /// Lends the places of all transactions, in commit order, in constant time.
    pub fn refs(&self) -> &[WalRef]
        ensures list { result.now ≡ self.now.store.sequence.refs }
    {
        self.book.sequencer.refs()
    }

    /// Gives the row of the current version, in constant time.
    pub fn current(&self) -> u8
        ensures row { result ≡ self.now.store.versions.versions.current }
        ensures live { IsLive self.now.store.versions.versions result }
    {
        self.book.versions.current()
    }

    /// Gives the number of transactions that the version of a row shows; none where the row is free. It takes constant time.
    pub fn n_of(&self, row: u8) -> Option<u64>
        ensures n { result ≡ n_of (version_at self.now.store.versions.versions row) }
    {
        self.book.versions.n_of(row)
    }

    /// Lends the tables of the version of a live row, in constant time.
    pub fn shape_of(&self, row: u8) -> &Shape
        requires live { IsLive self.now.store.versions.versions row }
        ensures shape { (version : shown.Version) → version_at self.now.store.versions.versions row ≡ Some version → result.now ≡ version.shape }
    {
        self.book.versions.shape_of(row)
    }

    /// Gives the number that the next new block gets, in constant time.
    pub fn next_block(&self) -> u64
        ensures next { result ≡ self.now.store.versions.versions.next_block }
    {
        self.book.versions.next_block()
    }

    /// Lends the schemas behind all transactions of the history, in constant time.
    pub fn schemas(&self) -> &Schemas
        ensures schemas { result.now ≡ self.now.store.sequence.schemas }
        ensures sound { AreSchemas result.now }
    {
        self.book.sequencer.schemas()
    }

    /// Gives the limits, in constant time.
    pub fn limits(&self) -> Limits
        ensures limits { result ≡ self.now.store.limits }
    {
        self.book.limits
    }

    /// Gives the volume back: the store is gone.
    pub fn into_volume(self) -> V
        ensures volume { V.storage result ≡ self.storage }
    {
        let Store { book: _, volume } = self;
        volume
    }
}
