//! The versions of a store.
ghost use Rattle.qd_base.specs.declared.part.Part.{Part};
ghost use Rattle.qd_block.specs.Blocks.{IsWhole};
ghost use Rattle.qd_catalog.specs.declared.version.Version as shown;
ghost use Rattle.qd_catalog.specs.Versions.{Adds, IsListed, IsLive, Retires, SameVersions, Sweeps, n_of, version_at, written_of};
ghost use Rattle.qd_catalog.specs.Versions as catalog;
ghost use Rattle.qd_durable.specs.Faults.{CountsVol};
ghost use Rattle.qd_durable.specs.Moments.{Told};
ghost use Rattle.qd_column_files.specs.Files.{column_file};
ghost use Rattle.qd_column_files.specs.Reading.{IsBlockRead, IsColumnRead, IsFitColumn};
ghost use Rattle.qd_column_files.specs.Rests.{IsRestOf, IsRestRead};
ghost use Rattle.qd_io.specs.Ends.{Counts};
ghost use Rattle.qd_manifest.specs.declared.shape.Manifest.{Manifest};
ghost use Rattle.qd_manifest.specs.declared.shape.TableParts.{TableParts};
ghost use Rattle.qd_manifest.specs.Spelling.{IsManifest};
ghost use Rattle.qd_scan.specs.Sources.{IsBlockOf};
ghost use Rattle.qd_txnfile.specs.States.{IsDirty};
ghost use Rattle.qd_versions.specs.Calls.{Creates, Publishes, Repairs, SweepsFront};
ghost use Rattle.qd_versions.specs.Faults.{CountsPublish};
ghost use Rattle.qd_versions.specs.Kept.{KeepsTails};
ghost use Rattle.qd_versions.specs.Opening.{Opens};
ghost use Rattle.qd_versions.specs.Publishing.{AreNumbered, IsFull, IsLostWhere, MayGrow, MayPublish, grown_blocks};
ghost use Rattle.qd_versions.specs.Reading.{IsPartAt};
ghost use Rattle.qd_versions.specs.Stores.{AreFew, IsStore, stored};
ghost use Rattle.qd_versions.specs.Tails.{AreGrowing, AreTailsRead, IsGrowing, IsGrowthRead};
ghost use Rattle.qd_versions.specs.declared.fault.PublishFault.TheVariants as fault;
ghost use Rattle.qd_volume.specs.Disk.{Disk, reads_of};
ghost use Rattle.std.specs.List.{IsDistinct};
ghost use Rattle.std.specs.Prelude.{◌≡◌, ◌≢◌, ◌↔◌, ℕ, [], ◌+◌, ◌^◌, ◌<◌, ◌≤◌, true, false, length, nat_eq, All, Err, Ok, Some, Contains, IfErr, IfOk, IfSome, IsTrue, OnErr, OnOk, slice_get};

use crate::catalog::{add_row, has_free_row, prepare};
use crate::fault::PublishFault;
use crate::growing::Growing;
use crate::keeping::Kept;
use crate::opening::catalog_of;
use crate::published::{GrownBlock, NewBlock};
use crate::writing::{clear, lay_down};
use qd_block::Block;
use qd_catalog::{Catalog, manifest_of};
use qd_column::Column;
use qd_column_files::{read_block, read_rest, read_times};
use qd_column_format::laws::one_column_is_spelled;
use qd_durable::LogFault;
use qd_io::IoFault;
use qd_manifest::Shape;
use qd_symbols::SymbolMap;
use qd_txnfile::TxnFile;
use qd_volume::Volume;
use std::alloc::Global;
use std::marker::Model;

/// How many transactions a version shows at most: 2^30.
pub const MAX_SHOWN: u64 = 1_073_741_824;

/// The versions of a store: the durable root, and the catalogue of live versions with their blocks. It must be
/// the only one that writes to the version files of its volume, and to the files of blocks.
///
/// It keeps what rows behind those of the blocks that grew last go on with, of [`MAX_KEPT`] of them at most, which have
/// named [`MAX_KEPT_TEXTS`] texts at most: a publication that puts rows behind those of such a block doesn't read it.
///
/// Contracts see the root, the catalogue, and what is kept. What that says of a told volume are the definitions
/// `IsRooted` and `KeepsTails`.
///
/// [`MAX_KEPT`]: crate::MAX_KEPT
/// [`MAX_KEPT_TEXTS`]: crate::MAX_KEPT_TEXTS
#[derive(Drop)]
pub struct VersionStore {
    root: TxnFile,
    catalog: Catalog,
    kept: Kept,
}

impl Model for VersionStore {
    ghost use Rattle.qd_versions.specs.Stores.{IsStore, Store};

    ghost Value = { Store };

    ghost view = { λ s. record { root = s.root; versions = s.catalog; kept = s.kept } };

    ghost invariant = { λ s. IsStore (record { root = s.root; versions = s.catalog; kept = s.kept }) };
}

impl VersionStore {
    /// Makes the version files with version 0, which shows no transaction and no table. It costs three writes
    /// and two syncs.
    ///
    /// After an `Ok` a crash leaves only that version. After an `Err` there may be any bytes in the version
    /// files, so it is to be called before anything rests on them. All other files stay.
    pub fn create<V: Volume>(alloc: Global, volume: &mut V) -> Result<VersionStore, IoFault>
        ensures clean { IfOk result (λ s. IsDirty s.root.other → ⊥) }
        ensures opened { IfOk result (λ s. catalog.IsOpened s.versions 0 0 []) }
        ensures none { IfOk result (λ s. s.kept ≡ []) }
        ensures told { Told (V.storage volume.old).disk (V.storage volume.new).disk (Creates result) }

        // The count of faults rises exactly where `Failed` is answered.
        ensures counted { Counts (V.storage volume.old).faults (V.storage volume.new).faults result }
    {
        let manifest = manifest_of(alloc, 0, &Shape::new(alloc))?;
        let catalog = Catalog::empty(alloc)?;
        let root = TxnFile::create(volume, manifest.bytes())?;
        let kept = Kept::new(alloc);
        Ok(VersionStore {
            root,
            catalog,
            kept,
        })
    }

    /// Opens the versions beside a log of so many records: it syncs the version files and reads the version
    /// that they give, the one row that is live then. It costs two syncs and at most four reads, and time and
    /// memory linear in the manifest.
    ///
    /// At every moment, and whatever is answered, a crash leaves only what it might have left before the call,
    /// and after an `Ok` only that version. What files read stays as it was.
    ///
    /// It answers [`LogFault::Damaged`] where the files give no version, as [`TxnFile::open_versions`] says; at
    /// byte 1 of the version's file, where it shows more transactions than there are records; and 17 bytes
    /// behind the place of the damage in its manifest, where that is damaged. [`LogFault::Vol`] says that the
    /// volume failed, and [`LogFault::Memory`] that there was no memory; it may be called again then.
    pub fn open<V: Volume>(
        alloc: Global,
        volume: &mut V,
        records: u64,
    ) -> Result<VersionStore, LogFault>
        requires few { records ≤ MAX_SHOWN }
        ensures shown { IfOk result (λ s. s.root.n ≤ records) }
        ensures opened { IfOk result (λ s. (m : Manifest) × IsManifest s.root.n m × catalog.IsOpened s.versions s.root.n m.next_block m.shape) }
        ensures none { IfOk result (λ s. s.kept ≡ []) }
        ensures told { Told (V.storage volume.old).disk (V.storage volume.new).disk (Opens result records) }

        // The count of faults rises exactly where `Vol` is answered.
        ensures counted { CountsVol (V.storage volume.old).faults (V.storage volume.new).faults result }
    {
        let found = TxnFile::open_versions(alloc, volume)?;
        let root = found.file;
        let catalog = catalog_of(
            alloc,
            root.file(),
            root.n(),
            found.manifest.bytes(),
            records,
        )?;
        let kept = Kept::new(alloc);
        Ok(VersionStore {
            root,
            catalog,
            kept,
        })
    }

    /// Tells what every store of versions keeps. It does nothing.
    pub fn keeps_its_law(&self)
        ensures law { IsStore self.now }
        ensures few { AreFew self.now.kept }
    {
        let _root = &self.root;
        self.kept.are_few();
    }

    /// Whether a publication failed that wasn't repaired since: a crash may leave the current version, or the
    /// one that was written last.
    pub fn dirty(&self) -> bool
        ensures dirty { IsTrue result ↔ IsDirty self.now.root.other }
    {
        self.root.dirty()
    }

    /// Closes the gate that a failed publication may have left open. It costs a write of one byte and a sync;
    /// where none is left open it does nothing.
    ///
    /// At every moment a crash leaves what it might have left before, and after an `Ok` only the current
    /// version. After an `Err` all is as before.
    pub fn repair<V: Volume>(&mut self, volume: &mut V) -> Result<(), IoFault>
        ensures clean { OnOk result (IsDirty self.new.root.other → ⊥) }
        ensures number { self.new.root.n ≡ self.old.root.n }
        ensures versions { self.new.versions ≡ self.old.versions }
        ensures kept { self.new.kept ≡ self.old.kept }
        ensures stays { OnErr result (self.new ≡ self.old) }
        ensures told { Told (V.storage volume.old).disk (V.storage volume.new).disk (Repairs result self.old self.new) }

        // The count of faults rises exactly where `Failed` is answered.
        ensures counted { Counts (V.storage volume.old).faults (V.storage volume.new).faults result }
    {
        self.root.repair(volume)
    }

    /// Publishes a version of `n` transactions, with the blocks that are new in it and the rows that go behind
    /// those of the current version's parts, and gives its row: it is live and current then.
    ///
    /// It finds what the rows go on with first: it reads that, as [`qd_column_files::read_tail`] says, or copies it where
    /// it was kept since the block grew last, in time and memory linear in the texts that SYMBOL columns have named.
    /// Then it takes all memory of its own, some 100 bytes a new block, and time and memory linear in the shape. A call
    /// of the volume follows for what a failed publication left, two for each file of a new block, for whose bytes
    /// memory is taken a column at a time, three for each file of a block that grows, and at most seven for the version
    /// files.
    ///
    /// At every moment a crash leaves what it might have left before, or the new version with all of its new
    /// blocks and the rows behind older ones; after an `Ok` only that. Blocks that grow stay as they were for older
    /// versions, whatever is answered. After an `Err` the versions are as before. [`PublishFault::NoRow`]
    /// comes exactly where all rows are live, and before any call of the volume. [`PublishFault::Damaged`] says
    /// that the files of a block that was to grow are damaged, and comes before anything is written. Behind the
    /// others the call may be made again; where the store is [dirty] a crash may leave the new version. Where it
    /// isn't, and the call came behind the repair, the files of new blocks read as empty: they were removed, at two
    /// calls for each of 256 columns of a block. [`PublishFault::Unremoved`] says that a removal failed, and some
    /// may be left. There may be any bytes behind the rows of blocks that were to grow.
    ///
    /// [dirty]: VersionStore::dirty
    pub fn publish<V: Volume>(
        &mut self,
        alloc: Global,
        volume: &mut V,
        n: u64,
        shape: &Shape,
        blocks: &[NewBlock],
        grown: &[GrownBlock],
    ) -> Result<u8, PublishFault>
        requires numbered { AreNumbered self.old.versions.next_block blocks.now }
        requires may { MayPublish self.old.versions n shape.now (length blocks.now) }
        requires grows { All (MayGrow self.old.versions) grown.now }
        requires apart { IsDistinct nat_eq (grown_blocks self.old.versions grown.now) }
        ensures added { IfOk result (λ row. Adds self.old.versions self.new.versions n shape.now row) }
        ensures number { OnOk result (self.new.root.n ≡ n) }
        ensures same { OnErr result (SameVersions self.old.versions self.new.versions) }
        ensures stays { OnErr result (self.new.root.n ≡ self.old.root.n) }
        ensures full { (result ≡ Err fault.NoRow) ↔ IsFull self.old.versions }
        ensures untouched { result ≡ Err fault.NoRow → (V.storage volume.new ≡ V.storage volume.old) × (self.new ≡ self.old) }
        ensures damaged { IfErr result (λ cause. IfSome (V.storage volume.old).disk (λ disk. IsLostWhere cause self.old.versions grown.now (reads_of disk))) }
        ensures unwritten { (file at : ℕ) → result ≡ Err (fault.Damaged file at) → ((V.storage volume.new).disk ≡ (V.storage volume.old).disk) × (self.new ≡ self.old) }
        ensures told { Told (V.storage volume.old).disk (V.storage volume.new).disk (Publishes result self.old self.new (stored n (self.old.versions.next_block + length blocks.now) shape.now) blocks.now grown.now) }

        // The count of faults rises exactly where `Vol` is answered, or `Unremoved` with a fault of the volume.
        ensures counted { CountsPublish (V.storage volume.old).faults (V.storage volume.new).faults result }
    {
        if !has_free_row(&self.catalog) {
            return Err(PublishFault::NoRow);
        }
        // So that a tail that was kept is that of the block that the files hold.
        one_column_is_spelled();
        let mut growing = self.read_tails(alloc, volume, grown)?;
        let next = self.catalog.next_block();
        let (manifest, copy) = prepare(alloc, &mut self.catalog, shape, blocks.len())?;
        self.kept.forget(growing.as_slice());
        let laid = lay_down(
            &mut self.root,
            alloc,
            volume,
            n,
            manifest.bytes(),
            next,
            blocks,
            growing.as_mut_slice(),
        );
        laid?;
        self.kept.keep(growing);
        Ok(add_row(&mut self.catalog, n, copy))
    }

    /// Finds what rows behind those of parts of the current version go on with, of each of them.
    fn read_tails<V: Volume>(
        &self,
        alloc: Global,
        volume: &mut V,
        grown: &[GrownBlock],
    ) -> Result<Vec<Growing>, LogFault>
        requires grows { All (MayGrow self.now.versions) grown.now }
        ensures growing { IfOk result (λ growing. AreGrowing self.now.versions grown.now growing.items) }
        ensures told { IfSome (V.storage volume.old).disk (λ disk. AreTailsRead result self.now grown.now (reads_of disk)) }
        ensures stays { (V.storage volume.new).disk ≡ (V.storage volume.old).disk }
        ensures counted { CountsVol (V.storage volume.old).faults (V.storage volume.new).faults result }
    {
        let mut growing = Vec::with_capacity(alloc, grown.len())?;
        for added in grown {
            let one = self.read_growing(alloc, volume, added)?;
            growing.push(one)?;
        }
        Ok(growing)
    }

    /// Finds what rows behind those of a part of the current version go on with.
    fn read_growing<V: Volume>(
        &self,
        alloc: Global,
        volume: &mut V,
        added: &GrownBlock,
    ) -> Result<Growing, LogFault>
        requires may { MayGrow self.now.versions added.now }
        ensures growing { IfOk result (λ growing. IsGrowing self.now.versions added.now growing) }
        ensures told { IfSome (V.storage volume.old).disk (λ disk. IsGrowthRead result self.now added.now (reads_of disk)) }
        ensures stays { (V.storage volume.new).disk ≡ (V.storage volume.old).disk }
        ensures counted { CountsVol (V.storage volume.old).faults (V.storage volume.new).faults result }
    {
        added.rows.is_whole();
        let shown = self
            .catalog
            .shape_of(self.catalog.current())
            .get(added.table);
        let part = *shown.parts.get(added.part);
        let tail = self.kept.tail_of(alloc, volume, &shown.schema, part)?;
        let rows = added.rows.clone()?;
        Ok(Growing {
            block: part.block,
            tail,
            rows,
        })
    }

    /// Says whether a row is live and not the current one, in constant time.
    pub fn may_retire(&self, row: u8) -> bool
        ensures may { IsTrue result ↔ (IsLive self.now.versions row × (row ≢ self.now.versions.current)) }
    {
        self.catalog.may_retire(row)
    }

    /// Lets a version go. The blocks that no live version lists any more join the queue. It costs time linear
    /// in the size of the version's shape, on average, takes no memory and calls no volume.
    pub fn retire(&mut self, row: u8)
        requires live { IsLive self.old.versions row }
        requires older { row ≢ self.old.versions.current }
        ensures retired { Retires self.old.versions self.new.versions row }
        ensures root { self.new.root ≡ self.old.root }
        ensures kept { self.new.kept ≡ self.old.kept }
        ensures tails { (disk : Disk) → KeepsTails self.old disk → KeepsTails self.new disk }
    {
        self.catalog.retire(row);
    }

    /// Removes the files of the block at the front of the queue, and takes it out; `false` says that the queue
    /// is empty. It closes the gate that a failed publication may have left open first, and costs two calls for
    /// each of 256 columns then.
    ///
    /// No live version lists the block. At every moment, and whatever is answered, a crash leaves the versions
    /// that it might have left before; after an `Ok` the block's files read as empty. After an `Err` the
    /// versions are as before.
    pub fn sweep<V: Volume>(&mut self, volume: &mut V) -> Result<bool, IoFault>
        ensures swept { IfOk result (λ swept. swept ≡ true → (block : ℕ) × Sweeps self.old.versions self.new.versions block) }
        ensures unlisted { (block : ℕ) → slice_get self.old.versions.retired 0 ≡ Some block → IsListed self.old.versions block → ⊥ }
        ensures idle { result ≡ Ok false → (self.old.versions.retired ≡ []) × (self.new ≡ self.old) × (V.storage volume.new ≡ V.storage volume.old) }
        ensures same { OnErr result (self.new.versions ≡ self.old.versions) }
        ensures clean { result ≡ Ok true → IsDirty self.new.root.other → ⊥ }
        ensures number { self.new.root.n ≡ self.old.root.n }
        ensures kept { self.new.kept ≡ self.old.kept }
        ensures told { Told (V.storage volume.old).disk (V.storage volume.new).disk (SweepsFront result self.old self.new) }

        // The count of faults rises exactly where `Failed` is answered.
        ensures counted { Counts (V.storage volume.old).faults (V.storage volume.new).faults result }
    {
        match self.catalog.sweepable() {
            None => Ok(false),
            Some(block) => {
                clear(&mut self.root, volume, block)?;
                self.catalog.swept(block);
                Ok(true)
            }
        }
    }

    /// Reads the shown rows and columns of a part of a live version: of the table of a position, the part of a
    /// position. What it costs, and where files are damaged, is as [`read_block`] says. What the volume holds
    /// stays as it was.
    pub fn read_part<V: Volume>(
        &self,
        alloc: Global,
        volume: &mut V,
        row: u8,
        table: usize,
        i: usize,
    ) -> Result<Block<SymbolMap>, LogFault>
        requires there { (t : TableParts) × (p : Part) × IsPartAt self.now.versions row table i t p }
        ensures told { (t : TableParts) (p : Part) → IsPartAt self.now.versions row table i t p → IfSome (V.storage volume.old).disk (λ disk. IsBlockRead result t.schema p (reads_of disk)) }
        ensures block { (t : TableParts) (p : Part) → IsPartAt self.now.versions row table i t p → IfOk result (λ b. IsBlockOf t.schema p b) }
        ensures whole { IfOk result (λ b. IsWhole b) }
        ensures stays { (V.storage volume.new).disk ≡ (V.storage volume.old).disk }

        // The count of faults rises exactly where `Vol` is answered.
        ensures counted { CountsVol (V.storage volume.old).faults (V.storage volume.new).faults result }
    {
        let shown = self.catalog.shape_of(row).get(table);
        read_block(alloc, volume, &shown.schema, *shown.parts.get(i))
    }

    /// Reads the designated times of a part of a live version: of the table of a position, the part of a position. What it costs,
    /// and where files are damaged, is as [`read_times`] says. What the volume holds stays as it was.
    pub fn read_times<V: Volume>(
        &self,
        alloc: Global,
        volume: &mut V,
        row: u8,
        table: usize,
        i: usize,
    ) -> Result<Column<SymbolMap>, LogFault>
        requires there { (t : TableParts) × (p : Part) × IsPartAt self.now.versions row table i t p }
        ensures told { (t : TableParts) (p : Part) → IsPartAt self.now.versions row table i t p → IfSome (V.storage volume.old).disk (λ disk. IsColumnRead result t.schema p t.schema.time_col (reads_of disk (column_file p.block t.schema.time_col 0)) (reads_of disk (column_file p.block t.schema.time_col 1))) }
        ensures fit { (t : TableParts) (p : Part) → IsPartAt self.now.versions row table i t p → IfOk result (λ times. IsFitColumn t.schema p t.schema.time_col times) }
        ensures stays { (V.storage volume.new).disk ≡ (V.storage volume.old).disk }

        // The count of faults rises exactly where `Vol` is answered.
        ensures counted { CountsVol (V.storage volume.old).faults (V.storage volume.new).faults result }
    {
        let shown = self.catalog.shape_of(row).get(table);
        read_times(alloc, volume, &shown.schema, *shown.parts.get(i))
    }

    /// Reads the rows of a part of a live version from row `skip` on, beside its designated times, which
    /// [`VersionStore::read_times`] gave. What it costs, and where files are damaged, is as [`read_rest`] says. What the volume
    /// holds stays as it was.
    pub fn read_rest<V: Volume>(
        &self,
        alloc: Global,
        volume: &mut V,
        row: u8,
        table: usize,
        i: usize,
        times: &Column<SymbolMap>,
        skip: u64,
    ) -> Result<Block<SymbolMap>, LogFault>
        requires there { (t : TableParts) × (p : Part) × IsPartAt self.now.versions row table i t p }
        requires times { (t : TableParts) (p : Part) → IsPartAt self.now.versions row table i t p → IsFitColumn t.schema p t.schema.time_col times.now }
        requires skip { (t : TableParts) (p : Part) → IsPartAt self.now.versions row table i t p → skip ≤ p.rows }
        ensures told { (t : TableParts) (p : Part) → IsPartAt self.now.versions row table i t p → IfSome (V.storage volume.old).disk (λ disk. IsRestRead result t.schema p times.now skip (reads_of disk)) }
        ensures rest { (t : TableParts) (p : Part) → IsPartAt self.now.versions row table i t p → IfOk result (λ b. IsRestOf t.schema p times.now skip b) }
        ensures whole { IfOk result (λ b. IsWhole b) }
        ensures stays { (V.storage volume.new).disk ≡ (V.storage volume.old).disk }

        // The count of faults rises exactly where `Vol` is answered.
        ensures counted { CountsVol (V.storage volume.old).faults (V.storage volume.new).faults result }
    {
        let shown = self.catalog.shape_of(row).get(table);
        let part = *shown.parts.get(i);
        read_rest(alloc, volume, &shown.schema, part, times, skip)
    }

    /// Gives the row of the current version, in constant time.
    pub fn current(&self) -> u8
        ensures row { result ≡ self.now.versions.current }
        ensures live { IsLive self.now.versions result }
    {
        self.catalog.current()
    }

    /// Gives the number of transactions that the version of a row shows; none where the row is free. It takes
    /// constant time.
    pub fn n_of(&self, row: u8) -> Option<u64>
        ensures n { result ≡ n_of (version_at self.now.versions row) }
    {
        self.catalog.n_of(row)
    }

    /// Lends the tables of the version of a live row, in constant time.
    pub fn shape_of(&self, row: u8) -> &Shape
        requires live { IsLive self.now.versions row }
        ensures shape { (version : shown.Version) → version_at self.now.versions row ≡ Some version → result.now ≡ version.shape }
    {
        self.catalog.shape_of(row)
    }

    /// Gives a number above those of all blocks that versions list, in constant time.
    pub fn next_block(&self) -> u64
        ensures next { result ≡ self.now.versions.next_block }
    {
        self.catalog.next_block()
    }

    /// Gives how many rows the files of a block hold: the most that a version showed since the store was
    /// opened. It is 0 for a block that is neither listed nor queued. It takes constant time, on average.
    pub fn written(&self, block: u64) -> u64
        ensures rows { result ≡ written_of self.now.versions block }
        ensures unknown { (IsListed self.now.versions block → ⊥) → (Contains self.now.versions.retired block → ⊥) → result ≡ 0 }
    {
        self.catalog.written(block)
    }
}
