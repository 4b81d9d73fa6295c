//! The catalogue.
ghost use Rattle.std.specs.Prelude.{◌≡◌, ◌≢◌, ℕ, [], ◌<◌, ◌≤◌, ◌+◌, ◌^◌, Some, None, IsTrue, IfOk, IfErr, IfSome, OnOk, OnErr, IsErr, All, is_some, true, ◌↔◌, length, slice_get, Contains};
ghost use Rattle.qd_manifest.specs.declared.shape.Manifest.{Manifest};
ghost use Rattle.qd_manifest.specs.Spelling.{SpellsManifest, blocks_of};
ghost use Rattle.qd_manifest.specs.Reading.{IsFault, IsUnspelled};
ghost use Rattle.qd_catalog.specs.Versions.{version_at, n_of, IsLive, IsListed, written_of, new_blocks, MayAdd, Adds, Retires, Sweeps, IsOpened, SameVersions};

use crate::blocks::Kept;
use crate::rows::{first_row, free_row};
use crate::tables::{
    list_tables, list_with_room, next_after_tables, room_after_tables, unlist_tables,
};
use crate::version::Version;
use indexmap::IndexMap;
use qd_base::Memory;
use qd_manifest::{ManifestFault, Shape, read_manifest};
use std::alloc::Global;
use std::collections::VecDeque;
use std::marker::Model;

/// How many versions may be live at once.
pub const ROWS: usize = 64;

/// The live versions, the blocks that they list, and the queue of blocks that none of them lists any more.
///
/// It takes about 100 bytes for each block that is listed or queued.
#[derive(Drop)]
pub struct Catalog {
    /// One for each row.
    versions: Vec<Option<Version>>,
    current: u8,
    next_block: u64,
    /// By the number of the block.
    kept: IndexMap<u64, Kept>,
    retired: VecDeque<u64>,
}

impl Model for Catalog {
    ghost use Rattle.qd_catalog.specs.Versions.{Versions};

    ghost Value = { Versions };

    ghost use Rattle.qd_catalog.specs.Inside.{versions_of, IsCatalog};

    ghost view = { versions_of };

    ghost invariant = { IsCatalog };
}

impl Catalog {
    /// Makes the catalogue of one version of no transaction, which shows no table.
    ///
    /// `Memory`: there was no room for it.
    pub fn empty(alloc: Global) -> Result<Catalog, Memory>
        ensures opened { IfOk result (λ c. IsOpened c 0 0 []) }
    {
        Catalog::of_version(alloc, 0, 0, Shape::new(alloc))
    }

    /// Makes the catalogue of one version, by the bytes of its manifest. It costs time linear in the bytes, on average, and
    /// memory for what they hold.
    ///
    /// `Damaged`: the bytes spell no manifest, and break its layout at this place. `Memory`: there was no room.
    pub fn from_manifest(alloc: Global, n: u64, bytes: &[u8]) -> Result<Catalog, ManifestFault>
        ensures opened { IfOk result (λ c. (m : Manifest) × SpellsManifest n bytes.now m × IsOpened c n m.next_block m.shape) }
        ensures unspelled { IfErr result (λ e. IsUnspelled n bytes.now e) }
        ensures damaged { IfErr result (λ e. IsFault n bytes.now e) }
    {
        let manifest = read_manifest(alloc, n, bytes)?;
        match Catalog::of_version(alloc, n, manifest.next_block, manifest.shape) {
            Ok(catalog) => Ok(catalog),
            Err(_) => Err(ManifestFault::Memory),
        }
    }

    /// The catalogue of one version.
    fn of_version(alloc: Global, n: u64, next_block: u64, shape: Shape) -> Result<Catalog, Memory>
        ensures opened { IfOk result (λ c. IsOpened c n next_block shape) }
    {
        let mut kept = IndexMap::new(alloc);
        list_with_room(&mut kept, 0, shape.as_slice())?;
        let mut retired = VecDeque::new(alloc);
        retired.reserve(kept.len())?;
        let versions = first_row(alloc, Version { n, shape })?;
        Ok(Catalog {
            versions,
            current: 0,
            next_block,
            kept,
            retired,
        })
    }

    /// Takes memory for so many new blocks. It costs time linear in the blocks that are there and in those, amortised.
    ///
    /// `Memory`: there was no room, and all is as before.
    pub fn reserve(&mut self, blocks: usize) -> Result<(), Memory>
        ensures same { SameVersions self.old self.new }
        ensures room { OnOk result (blocks ≤ self.new.spare) }
    {
        self.kept.reserve(blocks)?;
        let places = self.kept.capacity();
        self.retired
            .reserve(places.saturating_sub(self.retired.len()))
    }

    /// Says whether a version may be added. It costs time linear in the size of the shape, on average.
    pub fn may_add(&self, n: u64, shape: &Shape) -> bool
        ensures may { IsTrue result ↔ MayAdd self.now n shape.now }
    {
        match self.n_of(self.current) {
            Some(newest) => newest < n && self.has_room(shape),
            None => false,
        }
    }

    /// Adds a version, which is live and current then. It costs time linear in the size of the shape, on average, and takes
    /// no memory. Where all rows are live, the shape is handed back, and nothing is changed.
    pub fn add_version(&mut self, n: u64, shape: Shape) -> Result<u8, Shape>
        requires may { MayAdd self.old n shape }
        ensures added { IfOk result (Adds self.old self.new n shape) }
        ensures full { OnErr result (All (λ version. is_some version ≡ true) self.old.versions) }
        ensures handed_back { IfErr result (λ back. back ≡ shape) }
        ensures same { OnErr result (self.new ≡ self.old) }
    {
        match free_row(self.versions.as_slice()) {
            None => Err(shape),
            Some(row) => {
                list_tables(&mut self.kept, row, shape.as_slice());
                self.next_block = next_after_tables(self.next_block, shape.as_slice());
                self.versions[row] = Some(Version { n, shape });
                self.current = row as u8;
                Ok(row as u8)
            }
        }
    }

    /// Says whether a row is live and not the current one, in constant time.
    pub fn may_retire(&self, row: u8) -> bool
        ensures may { IsTrue result ↔ (IsLive self.now row × (row ≢ self.now.current)) }
    {
        row != self.current && self.n_of(row).is_some()
    }

    /// Lets a version go. The blocks that no live version lists any more join the queue. It costs time linear in the size of
    /// the version's shape, on average, and takes no memory.
    pub fn retire(&mut self, row: u8)
        requires live { IsLive self.old row }
        requires older { row ≢ self.old.current }
        ensures retired { Retires self.old self.new row }
    {
        let version = self.versions[row as usize].take();
        if let Some(version) = version {
            unlist_tables(
                &mut self.kept,
                &mut self.retired,
                row as usize,
                version.shape.as_slice(),
            );
        }
    }

    /// Gives the front of the queue: a block that no live version lists. It takes constant time.
    pub fn sweepable(&self) -> Option<u64>
        ensures front { result ≡ slice_get self.now.retired 0 }
        ensures unlisted { IfSome result (λ block. IsListed self.now block → ⊥) }
    {
        self.retired.front().copied()
    }

    /// Takes the front out of the queue. It takes constant time, on average, and no memory.
    pub fn swept(&mut self, block: u64)
        requires front { slice_get self.old.retired 0 ≡ Some block }
        ensures swept { Sweeps self.old self.new block }
    {
        self.retired.pop_front();
        self.kept.swap_remove(&block);
    }

    /// Gives the row of the newest version, in constant time.
    pub fn current(&self) -> u8
        ensures row { result ≡ self.now.current }
        ensures live { IsLive self.now result }
    {
        self.current
    }

    /// Gives the number of transactions that the version of a row shows; none where the row is free. It takes constant time.
    pub fn n_of(&self, row: u8) -> Option<u64>
        ensures n { result ≡ n_of (version_at self.now row) }
    {
        match self.versions.as_slice().get(row as usize) {
            Some(Some(version)) => Some(version.n),
            _ => None,
        }
    }

    /// Lends the tables of the version of a live row, in constant time.
    pub fn shape_of(&self, row: u8) -> &Shape
        requires live { IsLive self.now row }
        ensures shape { (version : Version) → version_at self.now row ≡ Some version → result.now ≡ version.shape }
    {
        match &self.versions[row as usize] {
            Some(version) => &version.shape,
            None => unreachable!(),
        }
    }

    /// Gives how many rows the files of a block hold: the most that a version showed since the catalogue was made. It is 0
    /// for a block that is neither listed nor queued. It takes constant time, on average.
    pub fn written(&self, block: u64) -> u64
        ensures rows { result ≡ written_of self.now block }
        ensures unknown { (IsListed self.now block → ⊥) → (Contains self.now.retired block → ⊥) → result ≡ 0 }
    {
        match self.kept.get(&block) {
            Some(kept) => kept.written,
            None => 0,
        }
    }

    /// Gives a number above those of all blocks that were listed, in constant time.
    pub fn next_block(&self) -> u64
        ensures next { result ≡ self.now.next_block }
    {
        self.next_block
    }

    /// Whether the blocks of a shape are none of the queue and have successors, and there is room for the new ones.
    fn has_room(&self, shape: &Shape) -> bool
        ensures room { IsTrue result → length (new_blocks self.now shape.now) ≤ self.now.spare }
        ensures unretired { IsTrue result → (b : ℕ) → Contains (blocks_of shape.now) b → Contains self.now.retired b → ⊥ }
        ensures small { IsTrue result → All (λ b. b + 1 < 2 ^ 64) (blocks_of shape.now) }
        ensures enough { length (new_blocks self.now shape.now) ≤ self.now.spare → ((b : ℕ) → Contains (blocks_of shape.now) b → Contains self.now.retired b → ⊥) → All (λ b. b + 1 < 2 ^ 64) (blocks_of shape.now) → IsTrue result }
    {
        let places = self.kept.capacity().min(self.retired.capacity());
        let room = places.saturating_sub(self.kept.len());
        room_after_tables(&self.kept, room, shape.as_slice()).is_some()
    }
}
